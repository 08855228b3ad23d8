//! The primitives.
ghost use Rattle.std.specs.Prelude.{◌≡◌};
ghost use Rattle.std.specs.Result.{result_ok};
ghost use Rattle.rules.specs.Words.{prim_named, prim_spelling, arity_of};

use std::str::FromStr;

/// What rows can do with data and numbers.
#[derive(Clone, Copy, PartialEq, Eq, Debug)]
pub enum Primitive {
    Add,
    Sub,
    Mul,
    Less,
    Same,
    Pair,
    Head,
    Tail,
    IsPair,
    IsNumber,
    IsName,
    Print,
}

/// A text that names no primitive.
#[derive(Clone, Copy, PartialEq, Eq, Debug)]
pub struct UnknownPrimitive;

impl FromStr for Primitive {
    type Err = UnknownPrimitive;

    ghost from_str_gives = { λ text r. result_ok r ≡ prim_named text };

    fn from_str(text: &str) -> Result<Primitive, UnknownPrimitive> {
        match text {
            "add" => Ok(Primitive::Add),
            "sub" => Ok(Primitive::Sub),
            "mul" => Ok(Primitive::Mul),
            "less" => Ok(Primitive::Less),
            "same" => Ok(Primitive::Same),
            "pair" => Ok(Primitive::Pair),
            "head" => Ok(Primitive::Head),
            "tail" => Ok(Primitive::Tail),
            "is-pair" => Ok(Primitive::IsPair),
            "is-number" => Ok(Primitive::IsNumber),
            "is-name" => Ok(Primitive::IsName),
            "print" => Ok(Primitive::Print),
            _ => Err(UnknownPrimitive),
        }
    }
}

impl Primitive {
    /// Its name, as a constant: what a `Display` prints has to be written somewhere first.
    pub fn as_str(self) -> &'static str
        ensures { result.now ≡ prim_spelling self }
    {
        match self {
            Primitive::Add => "add",
            Primitive::Sub => "sub",
            Primitive::Mul => "mul",
            Primitive::Less => "less",
            Primitive::Same => "same",
            Primitive::Pair => "pair",
            Primitive::Head => "head",
            Primitive::Tail => "tail",
            Primitive::IsPair => "is-pair",
            Primitive::IsNumber => "is-number",
            Primitive::IsName => "is-name",
            Primitive::Print => "print",
        }
    }

    /// How many operands it takes.
    pub fn operands(self) -> usize
        ensures { result ≡ arity_of self }
    {
        match self {
            Primitive::Add
            | Primitive::Sub
            | Primitive::Mul
            | Primitive::Less
            | Primitive::Same
            | Primitive::Pair => 2,
            Primitive::Head
            | Primitive::Tail
            | Primitive::IsPair
            | Primitive::IsNumber
            | Primitive::IsName
            | Primitive::Print => 1,
        }
    }
}
