//! What is proved of modules: the law stands on a function that answers yes.
ghost use Rattle.std.specs.Prelude.{◌≡◌, true};
ghost use Rattle.rules.specs.Rows.{Module as PureModule};
ghost use Rattle.modules.specs.Limits.{WithinLimits};
ghost use Rattle.modules.specs.Limited.{within_limits};

/// A module keeps the limits by its trees exactly where it keeps them by its rows.
pub fn limits_agree() -> bool
    ensures yes { result ≡ true }
    ensures trees { (m : PureModule) → within_limits m ≡ true → WithinLimits m }
    ensures rows { (m : PureModule) → WithinLimits m → within_limits m ≡ true }
{
    true // for every module
}
