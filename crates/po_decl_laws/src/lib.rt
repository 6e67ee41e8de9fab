//! Laws of declarations (C99 6.7): what their parts begin and end with, and that tokens are those of one declaration at most.
//!
//! The laws are public functions with an empty body, whose contract is the law (`laws`).
#![tactic(auto)]

mod laws;

pub use laws::{declarators_are_one, one_declaration, specifiers_are_one, specifiers_end};
