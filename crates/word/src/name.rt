//! Names: words at home.
use crate::{Home, Word};

/// A word with its home.
#[derive(Clone, Copy, PartialEq, Eq, Debug)]
pub struct Name {
    pub word: Word,
    pub home: Home,
}
