//! The reader of initialisers: the well-formed initialiser that stands at a place before an end (C99 6.7.8).
//!
//! The reader takes one step after the other (`read`). What stands at a place is told by `po_exp_parts`.
#![tactic(auto)]

mod read;

pub use read::{one_initialiser_before_an_end, read_init};
