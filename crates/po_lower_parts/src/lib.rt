//! The nodes that convert a value, read an object, and move an address to a member.
#![tactic(auto)]

mod parts;

pub use parts::{convert, move_by, read};
