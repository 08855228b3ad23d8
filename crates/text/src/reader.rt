//! The reader: a text, byte by byte.
ghost use Rattle.std.specs.Prelude.{◌≡◌, ◌<◌, ◌≤◌, [], length, if◌then◌else◌, nat_eq, slice_index};
ghost use Rattle.rules.specs.Words.{text_home};
ghost use Rattle.rules.specs.Reading.{reads, mark, placed, item_of, read};
ghost use Rattle.word.specs.Words.{spelling};
ghost use Rattle.text.specs.Tree.{Steps, Ends, Finished, Within};
ghost use Rattle.text.specs.Reads.{Stepped, from};

use crate::item::item_value;
use crate::refusal::ReadFault;
use crate::tree::{Text, Tree};
use rules::Cause;
use std::alloc::Global;
use word::{Home, Word, is_item_byte};

// A byte that is part of no item.
fn mark(tree: &mut Tree, b: u8, at: usize) -> Result<(), ReadFault>
    ensures { Steps (λ h. mark h b at) tree.old tree.new result }
{
    match b as char {
        ' ' | '\n' => Ok(()),
        '(' => tree.open_list(at),
        '\'' => tree.open_quote(at),
        ')' => tree.close(at),
        _ => Err(tree.refuse(Cause::StrayByte, at)),
    }
}

// The item of these bytes, which begins at an offset. It is kept out of line, so that a byte that ends no item costs no call.
#[inline(never)]
fn put_item(tree: &mut Tree, item: &[u8], start: usize) -> Result<(), ReadFault>
    ensures { Steps (λ h p. placed h start p (item_of h item.now)) tree.old tree.new result }
{
    match item_value(item, tree.home()) {
        Some(datum) => tree.item(datum, start),
        None => Err(tree.refuse(Cause::BadItem, start)),
    }
}

// The same, if there are any bytes.
#[inline(always)]
fn end_item(tree: &mut Tree, item: &[u8], start: usize) -> Result<(), ReadFault>
    ensures { Steps (λ h p. if nat_eq (length item.now) 0 then reads p else placed h start p (item_of h item.now)) tree.old tree.new result }
{
    if item.is_empty() {
        return Ok(());
    }
    put_item(tree, item, start)
}

/// A text that is being read.
#[derive(Drop)]
struct Reader<'a> {
    bytes: &'a [u8],
    // where the item began that is being read
    start: usize,
    tree: Tree,
}

impl Reader<'_> {
    // The byte at an offset, after those before it.
    fn step(&mut self, at: usize, b: u8) -> Result<(), ReadFault>
        requires begun { self.old.start ≤ at }
        requires within { at < length self.old.bytes.now }
        requires byte { b ≡ slice_index self.old.bytes.now at }
        ensures { Stepped self.old self.new at b result }
    {
        if !is_item_byte(b) {
            end_item(&mut self.tree, &self.bytes[self.start..at], self.start)?;
            mark(&mut self.tree, b, at)?;
            self.start = at + 1;
        }
        Ok(())
    }

    // The text ends.
    fn finish(self) -> Result<Text, ReadFault>
        requires { self.start ≤ length self.bytes.now }
        ensures { Ends (from self.entry (length self.entry.bytes.now) []) self.entry.tree result }
    {
        let Reader {
            bytes,
            start,
            mut tree,
        } = self;
        end_item(&mut tree, &bytes[start..], start)?;
        tree.finish(bytes.len())
    }
}

/// Reads a module's text.
pub fn read(heap: Global, of: Word, bytes: &[u8]) -> Result<Text, ReadFault>
    ensures as_ruled { Finished (read (text_home (spelling of)) bytes.now) of result }
    ensures within { Within (length bytes.now) result }
{
    let mut reader = Reader {
        bytes,
        start: 0,
        tree: Tree::new(heap, Home::of_text(of)),
    };
    for (at, &b) in bytes.iter().enumerate() {
        reader.step(at, b)?;
    }
    reader.finish()
}
