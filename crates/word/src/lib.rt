//! Words, homes, and words at home.

#![tactic(auto)]

ghost use Rattle.std.specs.Prelude.{◌≡◌, true, false, codes, MatchResult};
ghost use Rattle.rules.specs.Words.{letter, item_byte, item_bytes, is_word};
ghost use Rattle.word.specs.Words.{spelling, same_spelling, same_instance, same_name, Shown, printed};
ghost use Rattle.word.specs.Equality.{spelling_partial, spelling_equivalence};

mod home;
mod name;

pub use home::Home;
pub use name::Name;
use std::fmt;

/// Whether a byte is a letter.
pub fn is_letter(b: u8) -> bool
    ensures { result ≡ letter b }
{
    matches!(b as char, 'a'..='z')
}

/// Whether a byte may stand in a word or a number.
pub fn is_item_byte(b: u8) -> bool
    ensures { result ≡ item_byte b }
{
    matches!(b as char, 'a'..='z' | '0'..='9' | '-')
}

// Whether every byte may stand in an item.
fn are_item_bytes(bytes: &[u8]) -> bool
    ensures { result ≡ item_bytes bytes.now }
{
    bytes.iter().all(|b| is_item_byte(*b))
}

// Whether bytes are a word.
fn is_word(bytes: &[u8]) -> bool
    ensures { result ≡ is_word bytes.now }
{
    match bytes {
        [first, rest @ ..] => bytes.len() <= 12 && is_letter(*first) && are_item_bytes(rest),
        [] => false,
    }
}

/// A word: its first `len` bytes, or all twelve where `len` says more. Slots, cells and keys hold words by value, in memory
/// that is fixed or lent: so it is an array with a length of one byte, and no `String`.
#[derive(Clone, Copy, Debug)]
pub struct Word {
    bytes: [u8; 12],
    len: u8,
}

/// Bytes that are no word.
#[derive(Clone, Copy, PartialEq, Eq, Debug)]
pub struct NotAWord;

impl TryFrom<&[u8]> for Word {
    type Error = NotAWord;

    ghost try_from_gives = { λ bytes r. MatchResult r (λ w. (is_word bytes.now ≡ true) × (spelling w ≡ bytes.now)) (λ _. is_word bytes.now ≡ false) };

    fn try_from(bytes: &[u8]) -> Result<Word, NotAWord> {
        if !is_word(bytes) {
            return Err(NotAWord);
        }
        let mut held = [0u8; 12];
        held[0..bytes.len()].copy_from_slice(bytes);
        Ok(Word {
            bytes: held,
            len: bytes.len() as u8,
        })
    }
}

// By hand: bytes past the length do not count.
impl PartialEq for Word {
    ghost eq = { same_spelling };

    ghost laws = { spelling_partial };

    fn eq(&self, other: &Word) -> bool {
        self.as_bytes() == other.as_bytes()
    }
}

impl Eq for Word {
    ghost laws = { spelling_equivalence };
}

impl Word {
    /// The word `quote`.
    pub fn quote() -> Word
        ensures { spelling result ≡ codes "quote" }
    {
        Word {
            bytes: *b"quote\0\0\0\0\0\0\0",
            len: 5,
        }
    }

    /// The bytes of the word.
    pub fn as_bytes(&self) -> &[u8]
        ensures { result.now ≡ spelling self.now }
    {
        let len = (self.len as usize).min(12);
        &self.bytes[0..len]
    }

    /// The word as text.
    pub fn as_str(&self) -> &str
        ensures { Shown (spelling self.now) result.now }
    {
        std::str::from_utf8(self.as_bytes()).unwrap_or("")
    }
}

impl fmt::Display for Word {
    ghost output = { λ w. printed (spelling w) };

    fn fmt<W: fmt::Write>(&self, f: &mut fmt::Formatter<W>) -> fmt::Result {
        f.write_str(self.as_str())
    }
}

/// Homes are equal where they are one instance, as the rules say, and names where they have one spelling and one home.
pub fn equality_is_as_ruled() -> bool
    ensures yes { result ≡ true }
    ensures homes { (a b : Home) → ⟦<Home as PartialEq>⟧.eq a b ≡ same_instance a b }
    ensures names { (a b : Name) → ⟦<Name as PartialEq>⟧.eq a b ≡ same_name a b }
{
    true // for every two homes and names
}
