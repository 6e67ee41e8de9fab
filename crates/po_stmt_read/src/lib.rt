//! The reader of statements and of the bodies of functions (C99 6.8).
//!
//! The reader is one cycle (`read`). The start of each statement, and each declaration, is read by the crates below.
#![tactic(auto)]

mod read;

pub use read::read_body;
