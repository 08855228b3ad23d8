//! Data as people read them.
ghost use Rattle.std.specs.Prelude.{◌≡◌, List, ◌++◌, is_ok, if◌then◌else◌, IfOk, OnOk};
ghost use Rattle.std.specs.Fmt.{signed_decimal};
ghost use Rattle.std.specs.List.{flat_map};
ghost use Rattle.rules.specs.Words.{Datum};
ghost use Rattle.text.specs.Data.{Stands};
ghost use Rattle.text.specs.Show.{shown, shown_rest, form_line, Writes};
ghost use Rattle.text.specs.Tree.{Forms};
ghost use Rattle.rules.specs.Reading.{Form as PureForm};

use crate::data::{Cell, Value};
use crate::tree::{Form, Text};
use std::alloc::{AllocError, Global};

// What is written of the data over some cells.
#[derive(Drop)]
struct Writer<'a> {
    cells: &'a [Cell],
    out: Vec<u8>,
}

// A number, in digits. Its frame is its own, so that it takes no room in those of the data around it.
#[inline(never)]
fn put_number(out: &mut Vec<u8>, n: i32) -> Result<(), AllocError>
    ensures { out.new.items ≡ (if is_ok result then out.old.items ++ signed_decimal n else out.old.items) }
{
    let digits = n.to_string(*out.allocator())?;
    out.extend_from_slice(digits.as_bytes())
}

impl Writer<'_> {
    // A datum over the first `below` cells.
    #[cycle(put_datum_put_rest)]
    fn put_datum(&mut self, below: usize, value: Value) -> Result<(), AllocError>
        ensures kept { self.new.cells ≡ self.old.cells }
        ensures written { OnOk result (Writes self.old.cells.now below value shown self.old.out.items self.new.out.items) }
    {
        let i = match value {
            Value::Number(n) => return put_number(&mut self.out, n),
            Value::Word(name) => return self.out.extend_from_slice(name.word.as_bytes()),
            Value::Empty => return self.out.extend_from_slice(b"()"),
            Value::Pair(i) => i,
        };
        if i >= below || i >= self.cells.len() {
            return Ok(());
        }
        let cells = self.cells;
        self.out.push(b'(')?;
        self.put_datum(i, cells[i].head)?;
        self.put_rest(i, cells[i].tail)
    }

    // What follows in a list after its first element. It is part of `put_datum`, so that each nesting takes one frame.
    #[inline(always)]
    #[cycle(put_datum_put_rest)]
    fn put_rest(&mut self, mut below: usize, mut value: Value) -> Result<(), AllocError>
        ensures kept { self.new.cells ≡ self.old.cells }
        ensures written { OnOk result (Writes self.old.cells.now below value shown_rest self.old.out.items self.new.out.items) }
    {
        'elements: while let Value::Pair(i) = value {
            if i >= below || i >= self.cells.len() {
                return Ok(());
            }
            let cells = self.cells;
            self.out.push(b' ')?;
            self.put_datum(i, cells[i].head)?;
            below = i;
            value = cells[i].tail;
        }
        if let Value::Empty = value {
            self.out.push(b')')?;
            return Ok(());
        }
        self.out.extend_from_slice(b" . ")?;
        self.put_datum(below, value)?;
        self.out.push(b')')?;
        Ok(())
    }

    // A form's line: its offset, a space, its datum and a line feed.
    fn put_form(&mut self, form: Form) -> Result<(), AllocError>
        ensures kept { self.new.cells ≡ self.old.cells }
        ensures written { OnOk result ((d : Datum) → Stands self.old.cells.now form.datum d → self.new.out.items ≡ self.old.out.items ++ form_line (record { offset = form.offset; datum = d })) }
    {
        let offset = form.offset.to_string(*self.out.allocator())?;
        self.out.extend_from_slice(offset.as_bytes())?;
        self.out.push(b' ')?;
        self.put_datum(self.cells.len(), form.datum)?;
        self.out.push(b'\n')?;
        Ok(())
    }
}

impl Text {
    /// The forms, a line each.
    pub fn listing(&self, heap: Global) -> Result<Vec<u8>, AllocError>
        ensures { IfOk result (λ out. (fs : List PureForm) → Forms self.now.cells.items self.now.forms.items fs → out.items ≡ flat_map form_line fs) }
    {
        let mut writer = Writer {
            cells: &self.cells,
            out: Vec::new(heap),
        };
        for form in &self.forms {
            writer.put_form(*form)?;
        }
        Ok(writer.out)
    }
}
