//! Requires: their lines.
ghost use Rattle.artefact.specs.Lines.{require_text, FitsRequire, LawfulRequire};
ghost use Rattle.artefact.specs.Entries.{require_ended};

use crate::entry::Entry;
use crate::fields::{parse_small, parse_word};
use crate::line::put_line;
use modules::Require;
use std::alloc::AllocError;

impl Entry for Require {
    ghost line = { require_text };

    ghost Fits = { FitsRequire };

    ghost Lawful = { LawfulRequire };

    ghost ended = { require_ended };

    fn put(&self, out: &mut Vec<u8>) -> Result<(), AllocError> {
        let shift = self.shift.to_string(*out.allocator())?;
        put_line(out, &[self.from.as_bytes(), shift.as_bytes()])
    }

    fn parse(text: &str) -> Option<Require> {
        let (from, shift) = text.split_once(' ')?;
        let from = parse_word(from)?;
        let shift = parse_small(shift, 1)?;
        Some(Require { from, shift })
    }
}
