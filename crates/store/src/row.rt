//! A row: room for the bytes of one entry, and whose they are.
ghost use Rattle.std.specs.Prelude.{◌≡◌, ℕ, length, is_ok, if◌then◌else◌, Some, None, Option, nat_le};
ghost use Rattle.std.specs.Option.{option_map};
ghost use Rattle.word.specs.Words.{spelling};
ghost use Rattle.store.specs.Rows.{said, saying, sought, cleared, row_says};

use super::{Key, NotTaken};

/// The length that a row keeps of its entry.
pub trait Length: Copy {
    // how many bytes the entry has: none where it is marked as absent
    ghost counts: { Self → Option ℕ };

    /// The length of so many bytes.
    fn of(count: usize) -> Self
        ensures { counts result ≡ Some count };

    /// How many bytes the entry has.
    fn count(self) -> Option<usize>
        ensures { result ≡ counts self };
}

impl Length for usize {
    ghost counts = { λ len. Some len };

    fn of(count: usize) -> usize {
        count
    }

    fn count(self) -> Option<usize> {
        Some(self)
    }
}

impl Length for Option<usize> {
    ghost counts = { λ len. len };

    fn of(count: usize) -> Option<usize> {
        Some(count)
    }

    fn count(self) -> Option<usize> {
        self
    }
}

/// Whose bytes a row has, and how many.
#[derive(Clone, Copy)]
struct Head<L> {
    key: Key,
    len: L,
}

/// Room for one entry: an array with a length beside it, as this memory is fixed or lent. Callers fill arrays with rows, so
/// a row is `Copy`: contracts see it through `row_says`, since a model that forgets bytes cannot be copied. Rows are not
/// compared: bytes past the length say nothing.
#[derive(Clone, Copy)]
pub struct Row<L, const ROOM: usize> {
    head: Option<Head<L>>,
    bytes: [u8; ROOM],
}

impl<L: Length, const ROOM: usize> Row<L, ROOM> {
    /// A row with nothing in it.
    pub fn new() -> Row<L, ROOM>
        ensures { row_says L.counts ROOM result ≡ None }
    {
        Row {
            head: None,
            bytes: [0; ROOM],
        }
    }

    /// Whether it is the row of this entry, or a free one if that is sought. A search asks it of every row, so it is inlined.
    #[inline(always)]
    pub(crate) fn is_of(&self, key: &Option<Key>) -> bool
        ensures { result ≡ sought key.now (row_says L.counts ROOM self.now) }
    {
        match key {
            Some(key) => self.head.as_ref().is_some_and(|head| head.key == *key),
            None => self.head.is_none(),
        }
    }

    /// The bytes of its entry.
    pub(crate) fn held(&self) -> Option<&[u8]>
        ensures { option_map (λ x. x.now) result ≡ said (row_says L.counts ROOM self.now) }
    {
        let len = self.head?.len.count()?;
        let room = &self.bytes[..];
        Some(&room[0..len.min(ROOM)])
    }

    /// Takes an entry in, if its bytes fit.
    pub(crate) fn fill(&mut self, key: Key, bytes: &[u8]) -> Result<(), NotTaken>
        ensures test { is_ok result ≡ nat_le (length bytes.now) ROOM }
        ensures after { row_says L.counts ROOM self.new ≡ (if is_ok result then saying key (Some bytes.now) else row_says L.counts ROOM self.old) }
    {
        let count = bytes.len();
        if count > ROOM {
            return Err(NotTaken);
        }
        let room = &mut self.bytes[..];
        room[0..count].copy_from_slice(bytes);
        self.head = Some(Head {
            key,
            len: L::of(count),
        });
        Ok(())
    }

    /// Lets its entry go.
    pub(crate) fn free(&mut self)
        ensures { row_says L.counts ROOM self.new ≡ None }
    {
        self.head = None;
    }

    /// Lets its entry go if it is this one.
    pub(crate) fn strike(&mut self, key: Key)
        ensures { row_says L.counts ROOM self.new ≡ cleared (spelling key.name) key.kind (row_says L.counts ROOM self.old) }
    {
        if self.is_of(&Some(key)) {
            self.free();
        }
    }
}

impl<const ROOM: usize> Row<Option<usize>, ROOM> {
    /// Marks an entry as absent.
    pub(crate) fn hide(&mut self, key: Key)
        ensures { row_says (λ len. len) ROOM self.new ≡ saying key None }
    {
        self.head = Some(Head { key, len: None });
    }
}
