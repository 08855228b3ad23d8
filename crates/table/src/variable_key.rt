//! Variables.
use word::{Home, Word};

/// A variable: its name, its instance and its level.
#[derive(Clone, Copy, PartialEq, Eq, Debug)]
pub struct VariableKey {
    pub name: Word,
    pub instance: Home,
    pub level: u8,
}
