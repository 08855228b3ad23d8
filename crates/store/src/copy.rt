//! Copies between stores of any two types.
ghost use Rattle.std.specs.Prelude.{◌≡◌, length, is_ok};
ghost use Rattle.word.specs.Words.{spelling};
ghost use Rattle.store.specs.declared.copy.CopyFault.TheVariants.{NotTaken as RefusedCopy};
ghost use Rattle.store.specs.Copied.{copied};
ghost use Rattle.store.specs.Maps.{fronted, Writes, Keeps};

use super::{Key, Miss, NotTaken, Store};

/// Why an entry was not copied.
#[derive(Clone, Copy, PartialEq, Eq, Debug)]
pub enum CopyFault {
    /// The other store does not take it.
    NotTaken,
    /// The buffer is too short for it.
    Short,
}

impl From<NotTaken> for CopyFault {
    ghost from_gives = { λ _ r. r ≡ RefusedCopy };

    fn from(_refused: NotTaken) -> CopyFault {
        CopyFault::NotTaken
    }
}

/// Makes one entry of `to` what it is in `from`: its bytes, which pass through `buffer`, or nothing.
pub fn copy_entry<A: Store, B: Store>(
    from: &A,
    to: &mut B,
    key: Key,
    buffer: &mut [u8],
) -> Result<(), CopyFault>
    ensures value { result ≡ copied (A.Store.holds from.now (spelling key.name) key.kind) (B.Store.accepts to.old (spelling key.name) key.kind) (length buffer.old) }
    ensures after { Writes (is_ok result) (B.Store.holds to.old) (B.Store.holds to.new) (spelling key.name) key.kind (A.Store.holds from.now (spelling key.name) key.kind) }
    ensures same { Keeps (is_ok result) (B.Store.accepts to.old) (B.Store.accepts to.new) }
    ensures buffer { buffer.new ≡ fronted (A.Store.holds from.now (spelling key.name) key.kind) buffer.old }
{
    match from.fetch(key, buffer) {
        Ok(len) => to.put(key, &buffer[0..len])?,
        Err(Miss::Absent) => to.remove(key)?,
        Err(Miss::Short) => return Err(CopyFault::Short),
    }
    Ok(())
}
