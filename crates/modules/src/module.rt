//! Modules as they are kept: requires, definitions, and their rows.
ghost use Rattle.std.specs.Prelude.{◌≡◌};
ghost use Rattle.modules.specs.Says.{kind_title, kind_params};

use rules::Primitive;
use word::{Name, Word};

/// One node of a body. A body's rows stand parent before children, children left to right.
#[derive(Clone, Copy, PartialEq, Eq, Debug)]
pub enum Row {
    Number(i32),
    Empty,
    Name(Name),
    Local(u8),
    Variable(Name),
    Set(Word),
    If,
    Let,
    Do(u8),
    Call(Name, u8),
    Prim(Primitive, u8),
}

/// A module that another requires, and by how many phases it is moved.
#[derive(Clone, Copy, PartialEq, Eq, Debug)]
pub struct Require {
    pub from: Word,
    pub shift: u8,
}

/// What a definition is.
#[derive(Clone, Copy, PartialEq, Eq, Debug)]
pub enum Kind {
    Variable,
    Procedure { params: u8 },
    Macro { params: u8 },
    Action,
}

impl Kind {
    /// Its name, as a constant: what a `Display` prints has to be written somewhere first.
    pub fn as_str(self) -> &'static str
        ensures { result.now ≡ kind_title self }
    {
        match self {
            Kind::Variable => "variable",
            Kind::Procedure { params: _ } => "procedure",
            Kind::Macro { params: _ } => "macro",
            Kind::Action => "action",
        }
    }

    /// How many parameters it has.
    pub fn params(self) -> u8
        ensures { result ≡ kind_params self }
    {
        match self {
            Kind::Procedure { params } | Kind::Macro { params } => params,
            Kind::Variable | Kind::Action => 0,
        }
    }
}

/// A definition: the level of its name, the name, unless it is an action, what it is, and how many rows its body has.
#[derive(Clone, Copy, PartialEq, Eq, Debug)]
pub struct Definition {
    pub level: u8,
    pub name: Option<Word>,
    pub kind: Kind,
    pub rows: usize,
}

/// An expanded module. The rows of its definitions stand one after another, each definition's one tree.
#[derive(Drop)]
pub struct Module {
    pub required: Vec<Require>,
    pub definitions: Vec<Definition>,
    pub rows: Vec<Row>,
}
