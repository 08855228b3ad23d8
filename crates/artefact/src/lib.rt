//! The bytes that record expanded modules: an artefact is three tables of lines.

#![tactic(auto)]

mod definition;
mod entry;
mod fields;
mod line;
mod reader;
mod require;
mod row;
mod writer;

pub use modules::{Definition, Kind, Module, Require, Row};
pub use reader::{ReadFault, read};
pub use writer::{WriteFault, append, write, write_front};

#[cfg(test)]
mod tests;
