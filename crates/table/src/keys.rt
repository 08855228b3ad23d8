//! The keys that are in use, beside words and instances: bound names, and variables.
ghost use Rattle.std.specs.Prelude.{◌≡◌, true};
ghost use Rattle.word.specs.declared.Word.{Word};
ghost use Rattle.word.specs.declared.home.Home.{Home};
ghost use Rattle.word.specs.Words.{same_spelling, same_instance};
ghost use Rattle.table.specs.declared.bound_key.BoundKey.{BoundKey};
ghost use Rattle.table.specs.declared.variable_key.VariableKey.{VariableKey};
ghost use Rattle.table.specs.Keys.{same_bound, same_variable};

use crate::bound_key::BoundKey;
use crate::variable_key::VariableKey;
use word::{Home, Word};

/// Keys are equal where the rules say that they are the same: words by their spelling, instances by module and base, bound
/// names by word and level, and variables as the rules' own.
pub fn keys_are_equal_as_ruled() -> bool
    ensures yes { result ≡ true }
    ensures words { (a b : Word) → ⟦<Word as PartialEq>⟧.eq a b ≡ same_spelling a b }
    ensures instances { (a b : Home) → ⟦<Home as PartialEq>⟧.eq a b ≡ same_instance a b }
    ensures bound { (a b : BoundKey) → ⟦<BoundKey as PartialEq>⟧.eq a b ≡ same_bound a b }
    ensures variables { (a b : VariableKey) → ⟦<VariableKey as PartialEq>⟧.eq a b ≡ same_variable a b }
{
    true // for every two keys
}
