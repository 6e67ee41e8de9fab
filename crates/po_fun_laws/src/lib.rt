//! Laws of statements and of function definitions (C99 6.8, 6.9.1): tokens are those of one of them at most.
//!
//! The laws are public functions with an empty body, whose contract is the law (`laws`).
#![tactic(auto)]

mod laws;

pub use laws::{
    marks_are_one, no_declaration_is_a_definition, one_definition, statements_are_one,
    statements_begin_no_declaration,
};
