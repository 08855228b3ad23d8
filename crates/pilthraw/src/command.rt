//! The lines of the console, as commands.
use crate::mistake::Mistake;
use store::{Change, Key};
use word::{NotAWord, Word};

/// What a store is made of.
#[derive(Clone, Copy, PartialEq, Eq, Debug)]
pub(crate) enum Pile {
    Slots,
    Drafts,
    DraftsOverDrafts,
}

/// What store is to be made, and with how many places.
#[derive(Clone, Copy, PartialEq, Eq, Debug)]
pub(crate) struct Plan {
    pub(crate) pile: Pile,
    pub(crate) places: usize,
}

/// A command. One that is followed by bytes has them read also where its name is wrong, so it keeps what is wrong with it.
#[derive(Clone, Copy, PartialEq, Eq, Debug)]
pub(crate) enum Command {
    Read {
        name: Result<Word, NotAWord>,
        count: usize,
    },
    Make(Plan),
    Put {
        key: Result<Key, Mistake>,
        count: usize,
    },
    Erase(Key),
    Length(Key),
    Fetch {
        key: Key,
        buffer: usize,
    },
    Takes {
        key: Key,
        change: Change,
    },
}

fn key(name: &str, kind: &str) -> Result<Key, Mistake> {
    let kind = kind.parse()?;
    let name = Word::try_from(name.as_bytes())?;
    Ok(Key { name, kind })
}

// To how many bytes a change is; `none` is a removal.
fn change(word: &str) -> Result<Change, Mistake> {
    match word {
        "none" => Ok(Change::Remove),
        count => Ok(Change::Put(count.parse()?)),
    }
}

impl TryFrom<&str> for Plan {
    type Error = Mistake;

    fn try_from(words: &str) -> Result<Plan, Mistake> {
        let (pile, places) = words.rsplit_once(' ').ok_or(Mistake::NoStore)?;
        let pile = match pile {
            "slots" => Pile::Slots,
            "drafts slots" => Pile::Drafts,
            "drafts drafts slots" => Pile::DraftsOverDrafts,
            _ => return Err(Mistake::NoStore),
        };
        let places = places.parse()?;
        Ok(Plan { pile, places })
    }
}

impl TryFrom<&[u8]> for Command {
    type Error = Mistake;

    fn try_from(line: &[u8]) -> Result<Command, Mistake> {
        let line = std::str::from_utf8(line).map_err(|_| Mistake::NoText)?;
        if let Some(("store", words)) = line.split_once(' ') {
            return Ok(Command::Make(Plan::try_from(words)?));
        }
        let mut words = line.split(' ');
        let head = words.next();
        match (head, words.next(), words.next(), words.next(), words.next()) {
            (Some("read"), Some(name), Some(count), None, _) => Ok(Command::Read {
                count: count.parse()?,
                name: Word::try_from(name.as_bytes()),
            }),
            (Some("put"), Some(name), Some(kind), Some(count), None) => Ok(Command::Put {
                count: count.parse()?,
                key: key(name, kind),
            }),
            (Some("erase"), Some(name), Some(kind), None, _) => Ok(Command::Erase(key(
                name, kind,
            )?)),
            (Some("length"), Some(name), Some(kind), None, _) => {
                Ok(Command::Length(key(name, kind)?))
            }
            (Some("fetch"), Some(name), Some(kind), Some(buffer), None) => Ok(Command::Fetch {
                buffer: buffer.parse()?,
                key: key(name, kind)?,
            }),
            (Some("takes"), Some(name), Some(kind), Some(count), None) => Ok(Command::Takes {
                change: change(count)?,
                key: key(name, kind)?,
            }),
            _ => Err(Mistake::NoCommand),
        }
    }
}
