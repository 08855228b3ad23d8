//! Bound names.
use word::Word;

/// A name that a module binds at a level.
#[derive(Clone, Copy, PartialEq, Eq, Debug)]
pub struct BoundKey {
    pub word: Word,
    pub level: u8,
}
