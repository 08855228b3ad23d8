//! What is returned with a refusal.
ghost use Rattle.std.specs.Prelude.{◌≡◌};
ghost use Rattle.rules.specs.Refusals.{bare, placed};
ghost use Rattle.text.specs.declared.refusal.ReadFault.TheVariants.{Memory};
ghost use Rattle.word.specs.Words.{spelling};
ghost use Rattle.text.specs.Refusals.{refusal_of, refusal_printed};

use rules::Cause;
use std::alloc::{AllocError, AllocFailed};
use std::fmt;
use word::Word;

/// Why a call is refused. A part that does not apply is absent.
#[derive(Clone, Copy, PartialEq, Eq, Debug)]
pub struct Refusal {
    pub cause: Cause,
    /// The module for which rows ran.
    pub working_for: Option<Word>,
    /// The module at fault.
    pub module: Option<Word>,
    /// The place in it: an offset in its text, or a row.
    pub place: Option<usize>,
}

impl Refusal {
    /// A refusal with nothing besides its cause.
    pub fn bare(cause: Cause) -> Refusal
        ensures { refusal_of result ≡ bare cause }
    {
        Refusal {
            cause,
            working_for: None,
            module: None,
            place: None,
        }
    }

    /// A refusal with the module and an offset in its text.
    pub fn placed(cause: Cause, of: Word, offset: usize) -> Refusal
        ensures { refusal_of result ≡ placed cause (spelling of) offset }
    {
        Refusal {
            cause,
            working_for: None,
            module: Some(of),
            place: Some(offset),
        }
    }
}

// As the console answers it: `refused`, the number, and the parts that apply. A fault of rows that ran for a module has
// a row for its place, and any other an offset.
impl fmt::Display for Refusal {
    ghost output = { refusal_printed };

    fn fmt<W: fmt::Write>(&self, f: &mut fmt::Formatter<W>) -> fmt::Result {
        write!(f, "refused {}", self.cause.number())?;
        if let Some(word) = self.working_for {
            write!(f, " for {word}")?;
        }
        if let Some(word) = self.module {
            write!(f, " module {word}")?;
        }
        match (self.place, self.working_for) {
            (Some(row), Some(_)) => write!(f, " row {row}"),
            (Some(offset), None) => write!(f, " offset {offset}"),
            (None, _) => Ok(()),
        }
    }
}

/// Why a text was not read: it is refused, or there was no memory.
#[derive(Clone, Copy, PartialEq, Eq, Debug)]
pub enum ReadFault {
    Refused(Refusal),
    Memory,
}

// By hand: clauses of `?` read what a conversion gives, which a derived one does not state.
impl From<AllocError> for ReadFault {
    ghost from_gives = { λ _ r. r ≡ Memory };

    fn from(_e: AllocError) -> ReadFault {
        ReadFault::Memory
    }
}

impl<T: Drop> From<AllocFailed<T>> for ReadFault {
    ghost from_gives = { λ _ r. r ≡ Memory };

    fn from(_e: AllocFailed<T>) -> ReadFault {
        ReadFault::Memory
    }
}
