//! Words, data and texts: the lowest layer.

#![tactic(auto)]

mod data;
mod item;
mod reader;
mod refusal;
mod show;
mod tree;

pub use data::{Cell, Value, push_pair, push_quote};
pub use item::{item_value, parse_number};
pub use reader::read;
pub use refusal::{ReadFault, Refusal};
pub use tree::{Form, Text};
pub use word::{Home, Name, Word, is_item_byte, is_letter};
