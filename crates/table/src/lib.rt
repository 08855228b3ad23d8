//! The key table, and required-first order.

#![tactic(auto)]

mod bound_key;
mod key_table;
mod keys;
mod order;
mod variable_key;

pub use bound_key::BoundKey;
pub use key_table::{Entry, Full, KeyTable};
pub use keys::keys_are_equal_as_ruled;
pub use order::{Graph, Halt, required_first};
pub use variable_key::VariableKey;

#[cfg(test)]
mod order_tests;
#[cfg(test)]
mod table_tests;
