//! The bytes of a module.
ghost use Rattle.std.specs.Prelude.{◌≡◌, ◌≢◌, ◌≤◌, ◌++◌, length, Err, IfOk, OnOk};
ghost use Rattle.std.specs.List.{flat_map};
ghost use Rattle.rules.specs.Rows.{Module as PureModule};
ghost use Rattle.modules.specs.Says.{Says};
ghost use Rattle.modules.specs.Limits.{WithinLimits};
ghost use Rattle.artefact.specs.declared.writer.WriteFault.TheVariants.{NoRoom, Memory};
ghost use Rattle.artefact.specs.Lines.{written};
ghost use Rattle.artefact.specs.Tables.{Appended, Wrote, Fronted};

use crate::entry::Entry;
use modules::Module;
use std::alloc::{AllocError, Global};

/// Why bytes were not written in front of a buffer: they do not fit, or there was no memory.
#[derive(Clone, Copy, PartialEq, Eq, Debug)]
pub enum WriteFault {
    NoRoom,
    Memory,
}

// By hand: clauses of `?` read what a conversion gives, which a derived one does not state.
impl From<AllocError> for WriteFault {
    ghost from_gives = { λ _ r. r ≡ Memory };

    fn from(_e: AllocError) -> WriteFault {
        WriteFault::Memory
    }
}

// The lines of a table.
fn put_all<E: Entry>(out: &mut Vec<u8>, entries: &[E]) -> Result<(), AllocError>
    ensures { OnOk result (out.new.items ≡ out.old.items ++ flat_map E.Entry.line entries.now) }
{
    'each: for entry in entries {
        entry.put(out)?;
    }
    Ok(())
}

/// Writes the bytes of a module after what is written. Where it says a module of the rules, they are that module's artefact.
pub fn append(module: &Module, out: &mut Vec<u8>) -> Result<(), AllocError>
    ensures { OnOk result (Appended «module».now out.old.items out.new.items) }
{
    out.extend_from_slice(b"require shift\n")?;
    put_all(out, &module.required)?;
    out.extend_from_slice(b"level kind name params rows\n")?;
    put_all(out, &module.definitions)?;
    out.extend_from_slice(b"op text home base number\n")?;
    put_all(out, &module.rows)
}

/// The bytes of a module. Where it says a module of the rules, they are that module's artefact.
pub fn write(heap: Global, module: &Module) -> Result<Vec<u8>, AllocError>
    ensures { IfOk result (λ v. Wrote «module».now v.items) }
{
    let mut out = Vec::new(heap);
    append(module, &mut out)?;
    Ok(out)
}

/// Writes the bytes of a module in front of a buffer and leaves the rest of it: how many there are. Where they do not fit,
/// or there is no memory, nothing is written. A page of 8,192 bytes has room for every module that keeps the limits.
pub fn write_front(heap: Global, module: &Module, buffer: &mut [u8]) -> Result<usize, WriteFault>
    ensures front { Fronted (written «module».now) buffer.old buffer.new result }
    ensures page { (p : PureModule) → Says «module».now p → WithinLimits p → 8192 ≤ length buffer.old → result ≢ Err NoRoom }
{
    let bytes = write(heap, module)?;
    let n = bytes.len();
    if n > buffer.len() {
        return Err(WriteFault::NoRoom);
    }
    buffer[0..n].copy_from_slice(&bytes);
    Ok(n)
}
