//! Rows: their lines.
ghost use Rattle.std.specs.Prelude.{◌≡◌, ◌&&◌, [], ◌∷◌, ◌++◌, Some, codes, decimal, OnOk};
ghost use Rattle.rules.specs.Artefact.{line};
ghost use Rattle.word.specs.Words.{spelling, home_of};
ghost use Rattle.modules.specs.Says.{meant};
ghost use Rattle.artefact.specs.Lines.{row_text, FitsRow, LawfulRow};
ghost use Rattle.artefact.specs.Fields.{when, pick, is_unused, plain_arms, worded_arms, named_arms, row_from, GotRow};
ghost use Rattle.artefact.specs.Entries.{row_ended};

use crate::entry::Entry;
use crate::fields::{Fields, is_unused, parse_home, parse_small, parse_word, split_fields};
use crate::line::put_line;
use modules::Row;
use rules::Primitive;
use std::alloc::AllocError;
use text::parse_number;
use word::Name;

// A row whose word is looked up, with the number of its operands or none.
fn put_named(out: &mut Vec<u8>, op: &[u8], name: Name, number: &[u8]) -> Result<(), AllocError>
    ensures { OnOk result (out.new.items ≡ out.old.items ++ line (op.now ∷ spelling name.word ∷ spelling name.home.«module» ∷ decimal name.home.base ∷ number.now ∷ [])) }
{
    let base = name.home.base.to_string(*out.allocator())?;
    put_line(
        out,
        &[
            op,
            name.word.as_bytes(),
            name.home.module.as_bytes(),
            base.as_bytes(),
            number,
        ],
    )
}

// A row with a number, and with a word or none.
fn put_counted(out: &mut Vec<u8>, op: &[u8], text: &[u8], count: u8) -> Result<(), AllocError>
    ensures { OnOk result (out.new.items ≡ out.old.items ++ line (op.now ∷ text.now ∷ codes "-" ∷ codes "-" ∷ decimal count ∷ [])) }
{
    let count = count.to_string(*out.allocator())?;
    put_line(out, &[op, text, b"-", b"-", count.as_bytes()])
}

// A row that uses no number, if the field for it says so.
fn unnumbered(row: Row, number: &str) -> Option<Row>
    ensures { GotRow (when (is_unused number.now) (Some (meant row))) result }
{
    is_unused(number).then_some(row)
}

// A row that uses its number at the most.
fn plain_row(op: &str, number: &str) -> Option<Row>
    ensures { GotRow (pick op.now (plain_arms number.now)) result }
{
    match op {
        "number" => Some(Row::Number(parse_number(number.as_bytes())?)),
        "empty" => unnumbered(Row::Empty, number),
        "local" => Some(Row::Local(parse_small(number, 15)?)),
        "if" => unnumbered(Row::If, number),
        "let" => unnumbered(Row::Let, number),
        "do" => match parse_small(number, 127)? {
            0 => None,
            n => Some(Row::Do(n)),
        },
        _ => None,
    }
}

// A row that uses a word, and no home.
fn worded_row(op: &str, word: &str, number: &str) -> Option<Row>
    ensures { GotRow (pick op.now (worded_arms word.now number.now)) result }
{
    match op {
        "set" => unnumbered(Row::Set(parse_word(word)?), number),
        "prim" => {
            let primitive = word.parse::<Primitive>().ok()?;
            let n = parse_small(number, 2)?;
            if usize::from(n) != primitive.operands() {
                return None;
            }
            Some(Row::Prim(primitive, n))
        }
        _ => None,
    }
}

// A row that uses a word and its home.
fn named_row(op: &str, name: Name, number: &str) -> Option<Row>
    ensures { GotRow (pick op.now (named_arms (spelling name.word) (home_of name.home) number.now)) result }
{
    match op {
        "name" => unnumbered(Row::Name(name), number),
        "variable" => unnumbered(Row::Variable(name), number),
        "call" => Some(Row::Call(name, parse_small(number, 4)?)),
        _ => None,
    }
}

// Whether the fields of a home are not used.
fn is_homeless(module: &str, base: &str) -> bool
    ensures { result ≡ (is_unused «module».now && is_unused base.now) }
{
    is_unused(module) && is_unused(base)
}

// The row that the fields of a line say.
fn row_from(fields: Fields<'_>) -> Option<Row>
    ensures { GotRow (row_from fields.entry.first.now fields.entry.second.now fields.entry.third.now fields.entry.fourth.now fields.entry.fifth.now) result }
{
    if !is_homeless(fields.third, fields.fourth) {
        let home = parse_home(fields.third, fields.fourth)?;
        let word = parse_word(fields.second)?;
        return named_row(fields.first, Name { word, home }, fields.fifth);
    }
    if is_unused(fields.second) {
        return plain_row(fields.first, fields.fifth);
    }
    worded_row(fields.first, fields.second, fields.fifth)
}

impl Entry for Row {
    ghost line = { row_text };

    ghost Fits = { FitsRow };

    ghost Lawful = { LawfulRow };

    ghost ended = { row_ended };

    fn put(&self, out: &mut Vec<u8>) -> Result<(), AllocError> {
        match *self {
            Row::Number(n) => {
                let number = n.to_string(*out.allocator())?;
                put_line(out, &[b"number", b"-", b"-", b"-", number.as_bytes()])
            }
            Row::Empty => put_line(out, &[b"empty", b"-", b"-", b"-", b"-"]),
            Row::Name(name) => put_named(out, b"name", name, b"-"),
            Row::Local(i) => put_counted(out, b"local", b"-", i),
            Row::Variable(name) => put_named(out, b"variable", name, b"-"),
            Row::Set(word) => put_line(out, &[b"set", word.as_bytes(), b"-", b"-", b"-"]),
            Row::If => put_line(out, &[b"if", b"-", b"-", b"-", b"-"]),
            Row::Let => put_line(out, &[b"let", b"-", b"-", b"-", b"-"]),
            Row::Do(n) => put_counted(out, b"do", b"-", n),
            Row::Call(name, n) => {
                let number = n.to_string(*out.allocator())?;
                put_named(out, b"call", name, number.as_bytes())
            }
            Row::Prim(p, n) => put_counted(out, b"prim", p.as_str().as_bytes(), n),
        }
    }

    fn parse(text: &str) -> Option<Row> {
        row_from(split_fields(text)?)
    }
}
