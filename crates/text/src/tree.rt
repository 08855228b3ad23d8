//! The data of a text, as they are put together.
ghost use Rattle.std.specs.Prelude.{◌≡◌, [], length, if◌then◌else◌, Some, nat_eq};
ghost use Rattle.rules.specs.Words.{Datum};
ghost use Rattle.rules.specs.Reading.{Open as PureOpen, Progress, bracket, quoted, reads, refused, nothing_read, nest, close, settle, placed, ended};
ghost use Rattle.text.specs.Data.{Stands};
ghost use Rattle.text.specs.Tree.{Opens, Built, Steps, Ends, RefusedAs};

use crate::data::{Cell, Value, push_list, push_quote};
use crate::refusal::{ReadFault, Refusal};
use rules::Cause;
use std::alloc::Global;
use word::Home;

/// A list or a quote that is still open; of a list, how many values of the lists around it had been read before.
#[derive(Clone, Copy, PartialEq, Eq, Debug)]
pub(crate) enum Open {
    List(usize),
    Quote,
}

/// A form of a text, and where it begins.
#[derive(Clone, Copy, PartialEq, Eq, Debug)]
pub struct Form {
    pub offset: usize,
    pub datum: Value,
}

/// A text that reads: its forms, and the cells of their pairs.
#[derive(Drop)]
pub struct Text {
    pub cells: Vec<Cell>,
    pub forms: Vec<Form>,
}

/// What has been read so far.
#[derive(Drop)]
pub(crate) struct Tree {
    home: Home,
    // where the present form begins
    begun: usize,
    // innermost last
    opened: Vec<Open>,
    // what was read of the lists that are open, innermost last: one memory, since an allocation for each list would cost
    // more than to read it
    values: Vec<Value>,
    cells: Vec<Cell>,
    forms: Vec<Form>,
}

impl Tree {
    /// Nothing has been read.
    pub(crate) fn new(heap: Global, home: Home) -> Tree
        ensures built { Built result nothing_read }
        ensures at_home { result.home ≡ home }
    {
        Tree {
            home,
            begun: 0,
            opened: Vec::new(heap),
            values: Vec::new(heap),
            cells: Vec::new(heap),
            forms: Vec::new(heap),
        }
    }

    /// A refusal at an offset. It ends the reading, so that it is kept out of the way of each byte.
    #[cold]
    pub(crate) fn refuse(&self, cause: Cause, at: usize) -> ReadFault
        ensures { RefusedAs {A = Progress} (refused cause at) self.now.home.«module» result }
    {
        ReadFault::Refused(Refusal::placed(cause, self.home.module, at))
    }

    /// Where its words are at home.
    pub(crate) fn home(&self) -> Home
        ensures { result ≡ self.now.home }
    {
        self.home
    }

    // Where the form begins that the byte at an offset belongs to.
    fn start(&self, at: usize) -> usize
        ensures { result ≡ (if nat_eq (length self.now.opened.items) 0 then at else self.now.begun) }
    {
        if self.opened.is_empty() {
            at
        } else {
            self.begun
        }
    }

    // A list or a quote opens at an offset.
    fn open(&mut self, part: Open, at: usize) -> Result<(), ReadFault>
        ensures { (o : PureOpen) → Opens (length self.old.values.items) part o → Steps (λ _ p. nest p at o) self.old self.new result }
    {
        if self.opened.len() >= 64 {
            return Err(self.refuse(Cause::NestedTooDeep, at));
        }
        self.begun = self.start(at);
        self.opened.push(part)?;
        Ok(())
    }

    /// A list opens at an offset.
    pub(crate) fn open_list(&mut self, at: usize) -> Result<(), ReadFault>
        ensures { Steps (λ _ p. nest p at (bracket [])) self.old self.new result }
    {
        let before = self.values.len();
        self.open(Open::List(before), at)
    }

    /// A quote opens at an offset.
    pub(crate) fn open_quote(&mut self, at: usize) -> Result<(), ReadFault>
        ensures { Steps (λ _ p. nest p at quoted) self.old self.new result }
    {
        self.open(Open::Quote, at)
    }

    // A datum is complete: it closes the quotes around it, and goes into the innermost list, or is a form.
    fn add(&mut self, mut datum: Value) -> Result<(), ReadFault>
        ensures { (d : Datum) → Stands self.old.cells.items datum d → Steps (λ h p. reads (settle h p.begun p.forms p.opened d)) self.old self.new result }
    {
        'around: while let Some(inner) = self.opened.pop() {
            match inner {
                Open::Quote => datum = push_quote(&mut self.cells, self.home, datum)?,
                Open::List(_) => {
                    self.opened.push(inner)?;
                    self.values.push(datum)?;
                    return Ok(());
                }
            }
        }
        let offset = self.begun;
        self.forms.push(Form { offset, datum })?;
        Ok(())
    }

    /// An item that begins at an offset.
    pub(crate) fn item(&mut self, datum: Value, at: usize) -> Result<(), ReadFault>
        ensures { (d : Datum) → Stands self.old.cells.items datum d → Steps (λ h p. placed h at p (Some d)) self.old self.new result }
    {
        self.begun = self.start(at);
        self.add(datum)
    }

    /// The innermost list closes at an offset.
    pub(crate) fn close(&mut self, at: usize) -> Result<(), ReadFault>
        ensures { Steps (λ h p. close h at p.begun p.forms p.opened) self.old self.new result }
    {
        match self.opened.pop() {
            Some(Open::List(before)) => {
                // so many there are; `min` shows it with nothing known of the tree
                let before = before.min(self.values.len());
                let list = push_list(&mut self.cells, &self.values[before..])?;
                self.values.truncate(before);
                self.add(list)
            }
            Some(Open::Quote) | None => Err(self.refuse(Cause::Unbalanced, at)),
        }
    }

    /// The text ends at an offset.
    pub(crate) fn finish(self, end: usize) -> Result<Text, ReadFault>
        ensures { Ends (λ p. ended end p.forms p.opened) self result }
    {
        if !self.opened.is_empty() {
            return Err(self.refuse(Cause::Unbalanced, end));
        }
        Ok(Text {
            cells: self.cells,
            forms: self.forms,
        })
    }
}
