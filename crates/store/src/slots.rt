//! A store in memory that the caller lends, in places of one size.
ghost use Rattle.std.specs.Prelude.{◌≡◌, ℕ, true, ◌&&◌, List, length, is_ok, if◌then◌else◌, Some, None, refl};
ghost use Rattle.word.specs.Words.{spelling};
ghost use Rattle.store.specs.declared.Change.{Change};
ghost use Rattle.store.specs.declared.Kind.{Kind};
ghost use Rattle.store.specs.Maps.{Writes, Keeps};
ghost use Rattle.store.specs.Rows.{written, struck, emptied};
ghost use Rattle.store.specs.Slotted.{slot_rows, stood, taken, taken_fresh};

use super::row::Row;
use super::rows::{deliver, empty, place, row_of, strike, write};
use super::{Change, Key, Miss, NotTaken, Store};

const ROOM: usize = 8192;

/// Room for one entry.
pub type Slot = Row<usize, ROOM>;

/// A store in the caller's memory.
#[derive(Drop)]
pub struct Slots<'a> {
    slots: &'a mut [Slot],
}

impl<'a> Slots<'a> {
    /// A store that holds nothing, whatever the memory held.
    pub fn new(slots: &'a mut [Slot]) -> Slots<'a>
        ensures holds { (n : List ℕ) (k : Kind) → stood result.slots.now n k ≡ None }
        ensures accepts { (n : List ℕ) (k : Kind) (c : Change) → taken result.slots.now n k c ≡ taken_fresh (length slots.old) c }
        ensures rows { slot_rows result.slots.now ≡ emptied (slot_rows slots.old) }
    {
        empty(slots);
        Slots { slots }
    }
}

impl Store for Slots<'_> {
    ghost holds = { λ s. stood s.slots.now };

    ghost accepts = { λ s. taken s.slots.now };

    ghost clears = { λ s n k e. refl };

    fn length(&self, key: Key) -> Option<usize> {
        let slot = row_of(self.slots, key)?;
        slot.held().map(|bytes| bytes.len())
    }

    fn fetch(&self, key: Key, out: &mut [u8]) -> Result<usize, Miss> {
        let slot = row_of(self.slots, key).ok_or(Miss::Absent)?;
        deliver(slot.held(), out)
    }

    fn takes(&self, key: Key, change: Change) -> bool {
        match change {
            Change::Put(len) => len <= ROOM && place(self.slots, key).is_some(),
            Change::Remove => true,
        }
    }

    fn put(&mut self, key: Key, bytes: &[u8]) -> Result<(), NotTaken>
        ensures test { is_ok result ≡ taken self.old.slots.now (spelling key.name) key.kind (Change.Put (length bytes.now)) }
        ensures after { Writes (is_ok result) (stood self.old.slots.now) (stood self.new.slots.now) (spelling key.name) key.kind (Some bytes.now) }
        ensures same { Keeps (is_ok result) (taken self.old.slots.now) (taken self.new.slots.now) }
        ensures rows { slot_rows self.new.slots.now ≡ (if is_ok result then written (slot_rows self.old.slots.now) key (Some bytes.now) else slot_rows self.old.slots.now) }
    {
        write(self.slots, key, bytes)
    }

    fn remove(&mut self, key: Key) -> Result<(), NotTaken>
        ensures test { is_ok result ≡ true }
        ensures after { Writes (is_ok result) (stood self.old.slots.now) (stood self.new.slots.now) (spelling key.name) key.kind None }
        ensures same { Keeps (is_ok result) (taken self.old.slots.now) (taken self.new.slots.now) }
        ensures rows { slot_rows self.new.slots.now ≡ struck (slot_rows self.old.slots.now) key }
    {
        strike(self.slots, key);
        Ok(())
    }
}
