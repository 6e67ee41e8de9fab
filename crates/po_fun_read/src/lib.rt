//! The reader of function definitions (C99 6.9.1): the definition that a range of tokens is (`read`).
#![tactic(auto)]

mod read;

pub use read::read_fun;
