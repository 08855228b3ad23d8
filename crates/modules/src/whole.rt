//! Whether the parts of a module make up a module.
ghost use Rattle.std.specs.Prelude.{◌≡◌, ◌≤◌, Bool, not, map, length};
ghost use Rattle.modules.specs.Says.{meant};
ghost use Rattle.std.specs.List.{list_all};
ghost use Rattle.modules.specs.Limits.{none_alike};
ghost use Rattle.modules.specs.Trees.{children, closes};
ghost use Rattle.modules.specs.Whole.{alike_require, alike_definition, trees, few, distinct, whole};

use crate::module::{Definition, Module, Require, Row};

/// What may stand only once in a list.
trait Alike {
    ghost alike: { Self → Self → Bool };

    fn is_alike(&self, other: &Self) -> bool
        ensures { result ≡ alike self.now other.now };
}

impl Alike for Require {
    ghost alike = { alike_require };

    fn is_alike(&self, other: &Require) -> bool {
        self == other
    }
}

impl Alike for Definition {
    ghost alike = { alike_definition };

    fn is_alike(&self, other: &Definition) -> bool {
        self.level == other.level && self.name.is_some() && self.name == other.name
    }
}

// Whether none of the others is like the item.
fn differs<T: Alike>(item: &T, others: &[T]) -> bool
    ensures { result ≡ list_all (λ y. not (T.Alike.alike item.now y)) others.now }
{
    others.iter().all(|other| !item.is_alike(other))
}

// Whether no two of the items are alike.
fn all_differ<T: Alike>(items: &[T]) -> bool
    ensures { result ≡ none_alike T.Alike.alike items.now }
{
    let mut rest = items;
    while let [item, others @ ..] = rest {
        if !differs(item, others) {
            return false;
        }
        rest = others;
    }
    true
}

impl Row {
    /// How many trees come after the row as its children.
    pub fn children(&self) -> usize
        ensures value { result ≡ children (meant self.now) }
        ensures bound { result ≤ 255 }
    {
        match *self {
            Row::Number(_) | Row::Empty | Row::Name(_) | Row::Local(_) | Row::Variable(_) => 0,
            Row::Set(_) => 1,
            Row::If => 3,
            Row::Let => 2,
            Row::Do(n) | Row::Call(_, n) | Row::Prim(_, n) => usize::from(n),
        }
    }
}

// Whether the rows are one tree.
fn is_tree(rows: &[Row]) -> bool
    requires { length rows.now ≤ 128 }
    ensures { result ≡ closes 1 (map meant rows.now) }
{
    let mut left = 1;
    for row in rows {
        if left == 0 {
            return false;
        }
        left = left - 1 + row.children();
    }
    left == 0
}

// Whether the rows of each definition, one after another, are one tree, and none is left over.
fn are_trees(definitions: &[Definition], rows: &[Row]) -> bool
    requires { length rows.now ≤ 128 }
    ensures { result ≡ trees definitions.now (map meant rows.now) }
{
    let mut rest = rows;
    for definition in definitions {
        let Some((body, others)) = rest.split_at_checked(definition.rows) else {
            return false;
        };
        if !is_tree(body) {
            return false;
        }
        rest = others;
    }
    rest.is_empty()
}

impl Module {
    // Whether there are at most 8 requires, 32 definitions and 128 rows.
    fn is_few(&self) -> bool
        ensures { result ≡ few self.now }
    {
        self.required.len() <= 8 && self.definitions.len() <= 32 && self.rows.len() <= 128
    }

    // Whether no require stands twice, and no name twice at one level.
    fn is_distinct(&self) -> bool
        ensures { result ≡ distinct self.now }
    {
        all_differ(&self.required) && all_differ(&self.definitions)
    }

    /// Whether the parts make up a module: few enough, no two alike, and each definition's rows one tree.
    pub fn is_whole(&self) -> bool
        ensures { result ≡ whole self.now }
    {
        self.is_few() && self.is_distinct() && are_trees(&self.definitions, &self.rows)
    }
}
