//! The reader of expressions: the longest well-formed expression that stands in a range of tokens (C99 6.5).
//!
//! Its parts that hold no expression are read by `po_exp_parts`; the reader itself is one cycle (`read`).
#![tactic(auto)]

mod read;

pub use po_exp_parts::levels::Level;
pub use read::{one_tree, one_tree_before_an_end, read_exp, read_exp_at};
