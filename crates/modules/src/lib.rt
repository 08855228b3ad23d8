//! Expanded modules as they are kept, what they mean, and what they must be.

#![tactic(auto)]

mod laws;
mod module;
mod whole;

pub use laws::limits_agree;
pub use module::{Definition, Kind, Module, Require, Row};
