//! The head of a function definition (C99 6.9.1).
#![tactic(auto)]

mod braces;
mod heads;
mod laws;
mod marks;
mod scopes;

pub use heads::{Head, read_head};
pub use laws::heads_are_one;
pub use marks::marks_of;
