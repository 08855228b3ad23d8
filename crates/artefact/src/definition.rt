//! Definitions: their lines.
ghost use Rattle.std.specs.Prelude.{◌≡◌, Option};
ghost use Rattle.rules.specs.Rows.{Kind as PureKind};
ghost use Rattle.word.specs.declared.Word.{Word};
ghost use Rattle.modules.specs.Says.{Kinds};
ghost use Rattle.modules.specs.Whole.{Heads};
ghost use Rattle.artefact.specs.Lines.{definition_text, FitsDefinition, LawfulHeading};
ghost use Rattle.artefact.specs.Fields.{pick, kind_arms, may_stand, heading_from, Got};
ghost use Rattle.artefact.specs.Entries.{heading_ended};

use crate::entry::Entry;
use crate::fields::{Fields, is_unused, parse_name, parse_small, split_fields};
use crate::line::put_line;
use modules::{Definition, Kind};
use std::alloc::AllocError;
use word::Word;

// A kind with the name of what is defined.
#[derive(Clone, Copy, PartialEq, Eq, Debug)]
struct Titled {
    kind: Kind,
    name: Option<Word>,
}

// The kind and the name that three fields say.
fn parse_kind(kind: &str, name: &str, params: &str) -> Option<Titled>
    ensures { Got (λ t q. Kinds t.kind t.name q) (pick kind.now (kind_arms name.now params.now)) result }
{
    match kind {
        "variable" => {
            if params != "0" {
                return None;
            }
            let name = Some(parse_name(name)?);
            let kind = Kind::Variable;
            Some(Titled { kind, name })
        }
        "procedure" => {
            let name = Some(parse_name(name)?);
            let params = parse_small(params, 4)?;
            let kind = Kind::Procedure { params };
            Some(Titled { kind, name })
        }
        "macro" => {
            if params != "1" {
                return None;
            }
            let name = Some(parse_name(name)?);
            let kind = Kind::Macro { params: 1 };
            Some(Titled { kind, name })
        }
        "action" => {
            if params != "0" || !is_unused(name) {
                return None;
            }
            let kind = Kind::Action;
            Some(Titled { kind, name: None })
        }
        _ => None,
    }
}

// Whether what is of that kind may stand at a level of 0 to 3: a macro's body stands one level up.
fn may_stand(level: u8, kind: Kind) -> bool
    ensures { (n : Option Word) (q : PureKind) → Kinds kind n q → result ≡ may_stand level q }
{
    match kind {
        Kind::Macro { params: _ } => level <= 2,
        Kind::Variable | Kind::Procedure { params: _ } | Kind::Action => true,
    }
}

// The definition that the fields of a line say.
fn definition_from(fields: Fields<'_>) -> Option<Definition>
    ensures { Got Heads (heading_from fields.entry.first.now fields.entry.second.now fields.entry.third.now fields.entry.fourth.now fields.entry.fifth.now) result }
{
    let level = parse_small(fields.first, 3)?;
    let Titled { kind, name } = parse_kind(fields.second, fields.third, fields.fourth)?;
    let rows = parse_small(fields.fifth, 128)?;
    if !may_stand(level, kind) {
        return None;
    }
    Some(Definition {
        level,
        name,
        kind,
        rows: usize::from(rows),
    })
}

impl Entry for Definition {
    ghost line = { definition_text };

    ghost Fits = { FitsDefinition };

    ghost Lawful = { LawfulHeading };

    ghost ended = { heading_ended };

    fn put(&self, out: &mut Vec<u8>) -> Result<(), AllocError> {
        let Definition {
            level,
            name,
            kind,
            rows,
        } = *self;
        let heap = *out.allocator();
        let level = level.to_string(heap)?;
        let params = kind.params().to_string(heap)?;
        let rows = rows.to_string(heap)?;
        let name = name.as_ref().map_or(b"-".as_slice(), Word::as_bytes);
        put_line(
            out,
            &[
                level.as_bytes(),
                kind.as_str().as_bytes(),
                name,
                params.as_bytes(),
                rows.as_bytes(),
            ],
        )
    }

    fn parse(text: &str) -> Option<Definition> {
        definition_from(split_fields(text)?)
    }
}
