//! The rules of the language, as definitions, and what is proved of them.

#![tactic(auto)]

mod cause;
mod laws;
mod primitive;
mod reserved;

pub use cause::Cause;
pub use laws::{
    answers_depend_on_the_reach, faults_lie_within_the_text, reading_depends_on_bytes_and_home,
    worked_keys_hold,
};
pub use primitive::{Primitive, UnknownPrimitive};
pub use reserved::is_reserved;
