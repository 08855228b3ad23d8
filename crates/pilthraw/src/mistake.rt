//! What can be wrong with a command.
use std::fmt;
use std::fmt::Display;
use std::num::ParseIntError;
use store::UnknownKind;
use word::NotAWord;

/// What is wrong with a command, or why it was not obeyed.
#[derive(Clone, Copy, PartialEq, Eq, Debug)]
pub(crate) enum Mistake {
    NoText,
    NoCommand,
    NoStore,
    NoNumber,
    NoName,
    NoKind(UnknownKind),
    OtherCount,
    NoPlaces,
    NoBuffer,
    NoMemory,
}

impl From<ParseIntError> for Mistake {
    fn from(_error: ParseIntError) -> Mistake {
        Mistake::NoNumber
    }
}

impl From<NotAWord> for Mistake {
    fn from(_error: NotAWord) -> Mistake {
        Mistake::NoName
    }
}

impl From<UnknownKind> for Mistake {
    fn from(unknown: UnknownKind) -> Mistake {
        Mistake::NoKind(unknown)
    }
}

impl Display for Mistake {
    fn fmt<W: fmt::Write>(&self, f: &mut fmt::Formatter<W>) -> fmt::Result {
        match self {
            Mistake::NoText => write!(f, "the line is no text"),
            Mistake::NoCommand => write!(f, "no such command, or not its words"),
            Mistake::NoStore => write!(
                f,
                "store takes slots, drafts slots or drafts drafts slots, and a number of places"
            ),
            Mistake::NoNumber => write!(f, "a count is no number"),
            Mistake::NoName => write!(f, "the name is no word"),
            Mistake::NoKind(unknown) => write!(f, "{unknown}"),
            Mistake::OtherCount => write!(f, "the bytes are not as many as their count says"),
            Mistake::NoPlaces => write!(f, "there is no memory for so many places"),
            Mistake::NoBuffer => write!(f, "there is no memory for the buffer"),
            Mistake::NoMemory => write!(f, "there is no memory left"),
        }
    }
}
