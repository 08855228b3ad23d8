//! Drafts over a store: a few rows that win over what is below.
ghost use Rattle.std.specs.Prelude.{◌≡◌, ℕ, List, length, replicate, is_some, is_ok, if◌then◌else◌, Some, None};
ghost use Rattle.word.specs.Words.{spelling};
ghost use Rattle.store.specs.declared.Change.{Change};
ghost use Rattle.store.specs.declared.Kind.{Kind};
ghost use Rattle.store.specs.Clears.{drafts_clear};
ghost use Rattle.store.specs.Drafted.{draft_rows, drafted, drafts_take, taken_fresh, removed};
ghost use Rattle.store.specs.Maps.{Writes, Keeps};
ghost use Rattle.store.specs.Rows.{place_for, written};

use super::row::Row;
use super::rows::{deliver, place, row_of, strike, write};
use super::{Change, Key, Miss, NotTaken, Store};

const ROOM: usize = 1024;

const ROWS: usize = 8;

/// Room for one draft: its bytes, or a mark that its entry is absent.
type DraftRow = Row<Option<usize>, ROOM>;

/// Marks an entry as absent in the row that it goes to.
fn hide(rows: &mut [DraftRow], key: Key) -> Result<(), NotTaken>
    ensures test { is_ok result ≡ is_some (place_for (draft_rows rows.old) (spelling key.name) key.kind) }
    ensures after { draft_rows rows.new ≡ written (draft_rows rows.old) key None }
{
    let i = place(rows, key).ok_or(NotTaken)?;
    rows[i].hide(key);
    Ok(())
}

/// Drafts over a store, which they never alter.
#[derive(Drop)]
pub struct Drafts<S: Store> {
    below: S,
    rows: [DraftRow; ROWS],
}

impl<S: Store> Drafts<S> {
    /// No draft yet.
    pub fn new(below: S) -> Drafts<S>
        ensures below { result.below ≡ below }
        ensures holds { (n : List ℕ) (k : Kind) → drafted result.rows (S.Store.holds result.below) n k ≡ S.Store.holds below n k }
        ensures accepts { (n : List ℕ) (k : Kind) (c : Change) → drafts_take result.rows (S.Store.holds result.below) n k c ≡ taken_fresh c }
        ensures rows { draft_rows result.rows ≡ replicate 8 None }
    {
        let row = DraftRow::new();
        Drafts {
            below,
            rows: [row; ROWS],
        }
    }

    /// The store below, as it was put in.
    pub fn into_below(self) -> S
        ensures { result ≡ self.below }
    {
        let Drafts { below, rows: _ } = self;
        below
    }
}

impl<S: Store> Store for Drafts<S> {
    ghost holds = { λ d. drafted d.rows (S.Store.holds d.below) };

    ghost accepts = { λ d. drafts_take d.rows (S.Store.holds d.below) };

    ghost clears = { λ d n k e. drafts_clear n k (S.Store.holds d.below) (draft_rows d.rows) e };

    fn length(&self, key: Key) -> Option<usize> {
        match row_of(&self.rows, key) {
            Some(row) => row.held().map(|bytes| bytes.len()),
            None => self.below.length(key),
        }
    }

    fn fetch(&self, key: Key, out: &mut [u8]) -> Result<usize, Miss> {
        match row_of(&self.rows, key) {
            Some(row) => deliver(row.held(), out),
            None => self.below.fetch(key, out),
        }
    }

    fn takes(&self, key: Key, change: Change) -> bool {
        match change {
            Change::Put(len) => len <= ROOM && place(&self.rows, key).is_some(),
            Change::Remove => self.below.length(key).is_none() || place(&self.rows, key).is_some(),
        }
    }

    fn put(&mut self, key: Key, bytes: &[u8]) -> Result<(), NotTaken>
        ensures test { is_ok result ≡ drafts_take self.old.rows (S.Store.holds self.old.below) (spelling key.name) key.kind (Change.Put (length bytes.now)) }
        ensures after { Writes (is_ok result) (drafted self.old.rows (S.Store.holds self.old.below)) (drafted self.new.rows (S.Store.holds self.new.below)) (spelling key.name) key.kind (Some bytes.now) }
        ensures same { Keeps (is_ok result) (drafts_take self.old.rows (S.Store.holds self.old.below)) (drafts_take self.new.rows (S.Store.holds self.new.below)) }
        ensures rows { draft_rows self.new.rows ≡ (if is_ok result then written (draft_rows self.old.rows) key (Some bytes.now) else draft_rows self.old.rows) }
        ensures below { self.new.below ≡ self.old.below }
    {
        write(&mut self.rows, key, bytes)
    }

    fn remove(&mut self, key: Key) -> Result<(), NotTaken>
        ensures test { is_ok result ≡ drafts_take self.old.rows (S.Store.holds self.old.below) (spelling key.name) key.kind Change.Remove }
        ensures after { Writes (is_ok result) (drafted self.old.rows (S.Store.holds self.old.below)) (drafted self.new.rows (S.Store.holds self.new.below)) (spelling key.name) key.kind None }
        ensures same { Keeps (is_ok result) (drafts_take self.old.rows (S.Store.holds self.old.below)) (drafts_take self.new.rows (S.Store.holds self.new.below)) }
        ensures rows { draft_rows self.new.rows ≡ removed (S.Store.holds self.old.below (spelling key.name) key.kind) (draft_rows self.old.rows) key }
        ensures below { self.new.below ≡ self.old.below }
    {
        if self.below.length(key).is_some() {
            return hide(&mut self.rows, key);
        }
        strike(&mut self.rows, key);
        Ok(())
    }
}
