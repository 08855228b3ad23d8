//! Why a call is refused.
ghost use Rattle.std.specs.Prelude.{◌≡◌};
ghost use Rattle.rules.specs.Causes.{number_of};

use std::fmt;

/// The causes of refusal. The discriminant is the number that a clerk sees.
#[derive(Clone, Copy, PartialEq, Eq, Debug)]
pub enum Cause {
    NotAWord = 1,
    TextTooLong = 2,
    TooFewPages = 3,
    NotTaken = 4,
    NoText = 5,
    AnswerTooLong = 6,
    RequireCycle = 7,
    TooManyModules = 8,
    StrayByte = 10,
    BadItem = 11,
    Unbalanced = 12,
    NestedTooDeep = 13,
    WrongShape = 20,
    NoMeaning = 21,
    BoundTwice = 22,
    ArgumentCount = 23,
    NameNotAllowed = 24,
    LevelTooHigh = 25,
    LimitPassed = 26,
    OperandKind = 30,
    NumberRange = 31,
    TooManySteps = 32,
    TooManyPairs = 33,
    TooManyCalls = 34,
    OutputTooLong = 35,
}

impl Cause {
    /// The number of the refusal.
    pub fn number(self) -> u8
        ensures { result ≡ number_of self }
    {
        self as u8
    }
}

// The cause in plain words.
impl fmt::Display for Cause {
    fn fmt<W: fmt::Write>(&self, f: &mut fmt::Formatter<W>) -> fmt::Result {
        f.write_str(match self {
            Cause::NotAWord => "the name is no word",
            Cause::TextTooLong => "the text is longer than 1,024 bytes",
            Cause::TooFewPages => "there are fewer pages than modules",
            Cause::NotTaken => "the store does not take this change",
            Cause::NoText => "there is no text of that name",
            Cause::AnswerTooLong => "the answer is longer than its buffer",
            Cause::RequireCycle => "the module requires itself, by way of those that it requires",
            Cause::TooManyModules => "the key needs more than 16 modules",
            Cause::StrayByte => "a byte that no text may have",
            Cause::BadItem => "neither a word nor a number",
            Cause::Unbalanced => "a bracket that closes nothing, or a text that ends inside a list",
            Cause::NestedTooDeep => "lists and quotes are nested more than 64 deep",
            Cause::WrongShape => "a form of the wrong shape, or out of its place",
            Cause::NoMeaning => "a word that means nothing in its place",
            Cause::BoundTwice => "a name that is bound twice",
            Cause::ArgumentCount => "the wrong number of arguments",
            Cause::NameNotAllowed => "a name that is reserved, or that is not the module's own",
            Cause::LevelTooHigh => "a level or a phase above 3",
            Cause::LimitPassed =>
                "more requires, definitions, rows, parameters, locals or nested expressions than a module may have",
            Cause::OperandKind => "an operand of the wrong kind",
            Cause::NumberRange => "a result that is no number of 32 bits",
            Cause::TooManySteps => "more than 100,000 steps",
            Cause::TooManyPairs => "more than 2,048 pairs",
            Cause::TooManyCalls => "more than 128 calls open at once",
            Cause::OutputTooLong => "more than 4,096 bytes of output",
        })
    }
}

#[cfg(test)]
mod tests {
    use super::*;
    use std::test::Fail;

    #[test]
    fn numbers_of_causes(rt: HostRuntime) {
        assert_eq!(rt; Cause::NoText.number(), 5);
        assert_eq!(rt; Cause::NumberRange.number(), 31);
    }

    #[test]
    fn words_of_causes(rt: HostRuntime) -> Result<(), Fail> {
        let words = format!(in rt.alloc(); "{}; {}", Cause::NoText, Cause::NumberRange)?;
        assert_eq!(rt;
            words.as_str(),
            "there is no text of that name; a result that is no number of 32 bits"
        );
        Ok(())
    }
}
