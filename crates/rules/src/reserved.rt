//! The reserved words.
ghost use Rattle.std.specs.Prelude.{◌≡◌};
ghost use Rattle.rules.specs.Words.{reserved};

use crate::primitive::Primitive;

/// Whether a word is reserved: a core word, or the name of a primitive.
pub fn is_reserved(text: &str) -> bool
    ensures { result ≡ reserved text.now }
{
    match text {
        "require" | "define" | "define-macro" | "for-syntax" => true,
        "quote" | "if" | "set" | "do" | "let" => true,
        _ => text.parse::<Primitive>().is_ok(),
    }
}
