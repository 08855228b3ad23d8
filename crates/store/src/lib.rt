//! Stores: bytes by name and kind, with one meaning for all of them.

#![tactic(auto)]

ghost use Rattle.std.specs.Prelude.{◌≡◌, ℕ, Bool, true, List, length, codes, is_ok, Some, None, Option};
ghost use Rattle.std.specs.Option.{option_map};
ghost use Rattle.std.specs.Result.{result_ok};
ghost use Rattle.word.specs.Words.{spelling};
ghost use Rattle.store.specs.declared.Change.{Change};
ghost use Rattle.store.specs.declared.Kind.{Kind};
ghost use Rattle.store.specs.declared.Key.{Key};
ghost use Rattle.store.specs.Maps.{same_kind, same_place, kind_named, answered, fronted, Writes, Keeps};

mod copy;
mod drafts;
mod row;
mod rows;
mod slots;

pub use copy::{CopyFault, copy_entry};
pub use drafts::Drafts;
pub use slots::{Slot, Slots};
use std::fmt;
use std::fmt::Display;
use std::str::FromStr;
use word::Word;

/// What an entry is: a module's text, or what was built of it.
#[derive(Clone, Copy, PartialEq, Eq, Debug)]
pub enum Kind {
    Text,
    Artefact,
}

/// A text that names no kind.
#[derive(Clone, Copy, PartialEq, Eq, Debug)]
pub struct UnknownKind;

impl Display for UnknownKind {
    ghost output = { λ _. Some (codes "a kind is text or artefact") };

    fn fmt<W: fmt::Write>(&self, f: &mut fmt::Formatter<W>) -> fmt::Result {
        f.write_str("a kind is text or artefact")
    }
}

impl FromStr for Kind {
    type Err = UnknownKind;

    ghost from_str_gives = { λ text r. result_ok r ≡ kind_named text };

    fn from_str(text: &str) -> Result<Kind, UnknownKind> {
        match text {
            "text" => Ok(Kind::Text),
            "artefact" => Ok(Kind::Artefact),
            _ => Err(UnknownKind),
        }
    }
}

/// The name and kind of an entry.
#[derive(Clone, Copy, PartialEq, Eq, Debug)]
pub struct Key {
    pub name: Word,
    pub kind: Kind,
}

/// Kinds are equal where the maps of stores say that they are the same, and keys where they name one entry.
pub fn keys_name_entries() -> bool
    ensures yes { result ≡ true }
    ensures kinds { (a b : Kind) → ⟦<Kind as PartialEq>⟧.eq a b ≡ same_kind a b }
    ensures keys { (a b : Key) → ⟦<Key as PartialEq>⟧.eq a b ≡ same_place (spelling a.name) a.kind (spelling b.name) b.kind }
{
    true // for every two keys
}

/// A change of one entry: to that many bytes, or to nothing. It says which, as `None` in the place of a length would not.
#[derive(Clone, Copy, PartialEq, Eq, Debug)]
pub enum Change {
    Put(usize),
    Remove,
}

/// Why a fetch wrote nothing.
#[derive(Clone, Copy, PartialEq, Eq, Debug)]
pub enum Miss {
    /// Nothing stands.
    Absent,
    /// The buffer is too short.
    Short,
}

/// A change that a store does not take.
#[derive(Clone, Copy, PartialEq, Eq, Debug)]
pub struct NotTaken;

/// Bytes by name and kind.
pub trait Store {
    // what stands at each name and kind
    ghost holds: { Self → List ℕ → Kind → Option (List ℕ) };

    // which changes are taken
    ghost accepts: { Self → List ℕ → Kind → Change → Bool };

    // to remove nothing is always taken
    ghost clears: { (s : Self) (n : List ℕ) (k : Kind) → holds s n k ≡ None → accepts s n k Change.Remove ≡ true };

    /// How many bytes stand.
    fn length(&self, key: Key) -> Option<usize>
        ensures { result ≡ option_map length (holds self.now (spelling key.name) key.kind) };

    /// Writes what stands in front of `out`, if it fits.
    fn fetch(&self, key: Key, out: &mut [u8]) -> Result<usize, Miss>
        ensures value { result ≡ answered (holds self.now (spelling key.name) key.kind) (length out.old) }
        ensures after { out.new ≡ fronted (holds self.now (spelling key.name) key.kind) out.old };

    /// Whether a change is taken.
    fn takes(&self, key: Key, change: Change) -> bool
        ensures { result ≡ accepts self.now (spelling key.name) key.kind change };

    /// Makes the entry these bytes, if that is taken.
    fn put(&mut self, key: Key, bytes: &[u8]) -> Result<(), NotTaken>
        ensures test { is_ok result ≡ accepts self.old (spelling key.name) key.kind (Change.Put (length bytes.now)) }
        ensures after { Writes (is_ok result) (holds self.old) (holds self.new) (spelling key.name) key.kind (Some bytes.now) }
        ensures same { Keeps (is_ok result) (accepts self.old) (accepts self.new) };

    /// Makes the entry nothing, if that is taken.
    fn remove(&mut self, key: Key) -> Result<(), NotTaken>
        ensures test { is_ok result ≡ accepts self.old (spelling key.name) key.kind Change.Remove }
        ensures after { Writes (is_ok result) (holds self.old) (holds self.new) (spelling key.name) key.kind None }
        ensures same { Keeps (is_ok result) (accepts self.old) (accepts self.new) };
}

#[cfg(test)]
mod tests;
