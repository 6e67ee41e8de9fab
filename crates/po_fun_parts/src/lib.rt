//! The readers of those parts of a statement that hold no statement and no declaration themselves (C99 6.8).
//!
//! From below: expressions with the sign that ends them (`expressions`); heads, as the test of an `if` and the parts of a `for` (`heads`); keywords
//! (`keywords`); what a statement begins with, and its reader (`starts`, `behind_keywords`); the laws (`laws`). What stands at a place is told by
//! `po_exp_parts`.
#![tactic(auto)]

mod behind_keywords;
mod expressions;
mod heads;
mod keywords;
mod laws;
mod starts;

pub use expressions::{Stop, expression_before, optional_before};
pub use heads::{steps_at, test_at};
pub use keywords::{Keyword, word_stands};
pub use laws::{a_statement_goes_on_behind_its_start, each_statement_has_a_start, one_start};
pub use starts::{Start, start_at};
