//! Homes: where words are read.
ghost use Rattle.std.specs.Prelude.{◌≡◌};
ghost use Rattle.rules.specs.Words.{text_home};
ghost use Rattle.word.specs.Words.{spelling, home_of};

use crate::Word;

/// An instance: a module, and by how many phases it is moved. It is also where a word was read: its home.
#[derive(Clone, Copy, PartialEq, Eq, Debug)]
pub struct Home {
    pub module: Word,
    pub base: u8,
}

impl Home {
    /// Where the words of a module's text are at home.
    pub fn of_text(of: Word) -> Home
        ensures instance { result.«module» ≡ of }
        ensures home { home_of result ≡ text_home (spelling of) }
    {
        Home {
            module: of,
            base: 0,
        }
    }
}
