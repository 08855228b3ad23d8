//! Items: words and numbers.
ghost use Rattle.std.specs.Prelude.{◌≡◌, ◌≢◌, slice_index};
ghost use Rattle.rules.specs.Reading.{numeral, item_of};
ghost use Rattle.word.specs.Words.{home_of};
ghost use Rattle.text.specs.Items.{written_number, ItemIs};

use crate::data::Value;
use word::{Home, Name, Word};

// The number of 32 bits that digits write, with a `-` in front or none.
fn parse_digits(bytes: &[u8]) -> Option<i32>
    ensures { (slice_index bytes.now 0 ≢ 43) → result ≡ written_number bytes.now }
{
    std::str::from_utf8(bytes).ok()?.parse::<i32>().ok()
}

/// The number that is written so: 0, or an optional `-` and digits that do not start with 0, if it has 32 bits.
pub fn parse_number(bytes: &[u8]) -> Option<i32>
    ensures { result ≡ numeral bytes.now }
{
    match bytes {
        [b'0'] => Some(0),
        [b'1'..=b'9', ..] | [b'-', b'1'..=b'9', ..] => parse_digits(bytes),
        _ => None,
    }
}

/// The word or the number that an item is.
pub fn item_value(bytes: &[u8], home: Home) -> Option<Value>
    ensures { ItemIs (item_of (home_of home) bytes.now) result }
{
    match Word::try_from(bytes) {
        Ok(word) => Some(Value::Word(Name { word, home })),
        Err(_) => parse_number(bytes).map(Value::Number),
    }
}
