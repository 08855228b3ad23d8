//! Tables of rows that are searched by name and kind. The first row that has an entry wins.
ghost use Rattle.std.specs.Prelude.{◌≡◌, ◌<◌, ◌&&◌, List, ℕ, length, is_some, IfSome, is_ok, if◌then◌else◌, Some, Option, MatchOption, nat_le};
ghost use Rattle.std.specs.List.{position_from};
ghost use Rattle.std.specs.Option.{option_map};
ghost use Rattle.word.specs.Words.{spelling};
ghost use Rattle.store.specs.Maps.{answered, fronted};
ghost use Rattle.store.specs.Rows.{rows_say, row_says, said, sought, is_free, look, place_for, written, struck, emptied};

use super::row::{Length, Row};
use super::{Key, Miss, NotTaken};

/// The index of the first row that is sought: a key's, or a free one.
fn find<L: Length, const ROOM: usize>(rows: &[Row<L, ROOM>], key: Option<Key>) -> Option<usize>
    ensures value { result ≡ position_from (sought key) 0 (rows_say L.counts ROOM rows.now) }
    ensures within { IfSome result (λ i. i < length rows.now) }
{
    rows.iter().position(
        |row| -> bool
            ensures { result ≡ sought key (row_says L.counts ROOM row.now) }
        { row.is_of(&key) },
    )
}

/// The row that has the entry.
pub(crate) fn row_of<L: Length, const ROOM: usize>(
    rows: &[Row<L, ROOM>],
    key: Key,
) -> Option<&Row<L, ROOM>>
    ensures { MatchOption result ((b : Option (List ℕ)) → look (rows_say L.counts ROOM rows.now) (spelling key.name) key.kind b ≡ b) (λ x. (b : Option (List ℕ)) → look (rows_say L.counts ROOM rows.now) (spelling key.name) key.kind b ≡ said (row_says L.counts ROOM x.now)) }
{
    let entry = Some(key);
    rows.iter().find(
        |row| -> bool
            ensures { result ≡ sought entry (row_says L.counts ROOM row.now.now) }
        { row.is_of(&entry) },
    )
}

/// The index of the row that an entry goes to: its own, or a free one.
pub(crate) fn place<L: Length, const ROOM: usize>(rows: &[Row<L, ROOM>], key: Key) -> Option<usize>
    ensures value { result ≡ place_for (rows_say L.counts ROOM rows.now) (spelling key.name) key.kind }
    ensures within { IfSome result (λ i. i < length rows.now) }
{
    find(rows, Some(key)).or_else(
        || -> Option<usize>
            ensures value { result ≡ position_from is_free 0 (rows_say L.counts ROOM rows.entry.now) }
            ensures within { IfSome result (λ i. i < length rows.entry.now) }
        { find(rows, None) },
    )
}

/// Puts bytes into the row that the entry goes to.
pub(crate) fn write<L: Length, const ROOM: usize>(
    rows: &mut [Row<L, ROOM>],
    key: Key,
    bytes: &[u8],
) -> Result<(), NotTaken>
    ensures test { is_ok result ≡ (nat_le (length bytes.now) ROOM && is_some (place_for (rows_say L.counts ROOM rows.old) (spelling key.name) key.kind)) }
    ensures after { rows_say L.counts ROOM rows.new ≡ (if is_ok result then written (rows_say L.counts ROOM rows.old) key (Some bytes.now) else rows_say L.counts ROOM rows.old) }
{
    let i = place(rows, key).ok_or(NotTaken)?;
    rows[i].fill(key, bytes)
}

/// Frees each row that has the entry.
pub(crate) fn strike<L: Length, const ROOM: usize>(rows: &mut [Row<L, ROOM>], key: Key)
    ensures { rows_say L.counts ROOM rows.new ≡ struck (rows_say L.counts ROOM rows.old) key }
{
    'strike: for row in rows.iter_mut() {
        row.strike(key);
    }
}

/// Frees each row.
pub(crate) fn empty<L: Length, const ROOM: usize>(rows: &mut [Row<L, ROOM>])
    ensures { rows_say L.counts ROOM rows.new ≡ emptied (rows_say L.counts ROOM rows.old) }
{
    'empty: for row in rows.iter_mut() {
        row.free();
    }
}

/// Writes the bytes that are held in front of `out`, if they fit.
pub(crate) fn deliver(held: Option<&[u8]>, out: &mut [u8]) -> Result<usize, Miss>
    ensures value { result ≡ answered (option_map (λ x. x.now) held.entry) (length out.old) }
    ensures after { out.new ≡ fronted (option_map (λ x. x.now) held.entry) out.old }
{
    let bytes = held.ok_or(Miss::Absent)?;
    if bytes.len() > out.len() {
        return Err(Miss::Short);
    }
    out[0..bytes.len()].copy_from_slice(bytes);
    Ok(bytes.len())
}
