//! What is proved of the rules: each law stands on a function that answers yes.
ghost use Rattle.std.specs.Prelude.{◌≡◌, true};
ghost use Rattle.rules.specs.Laws.{FaultsLieWithin, ReadsByBytesAndHome, RefusesAsReading};
ghost use Rattle.rules.specs.Reach.{AnswersByReach};
ghost use Rattle.rules.specs.Worked.{WorkedKeys};

/// What a name builds or runs depends on the texts of its reach alone: the name's own, and those of
/// the modules that a text of the reach requires.
pub fn answers_depend_on_the_reach() -> bool
    ensures yes { result ≡ true }
    ensures law { AnswersByReach }
{
    true // for every two families of texts
}

/// A text that does not read is refused with an offset within the text or at its length, and with
/// one of the causes of reading: 10 to 13.
pub fn faults_lie_within_the_text() -> bool
    ensures yes { result ≡ true }
    ensures within { FaultsLieWithin }
    ensures causes { RefusesAsReading }
{
    true // for every text
}

/// What a text reads as depends on nothing but its bytes and its module: the same bytes in another
/// module are refused alike, or have the same forms at the same offsets, but for the home of each
/// word.
pub fn reading_depends_on_bytes_and_home() -> bool
    ensures yes { result ≡ true }
    ensures law { ReadsByBytesAndHome }
{
    true // for every two homes
}

/// A table of keys, each with its texts, has the answers that stand in it, byte for byte.
pub fn worked_keys_hold() -> bool
    ensures yes { result ≡ true }
    ensures law { WorkedKeys }
{
    true // for every key of the table
}
