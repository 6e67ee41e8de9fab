//! What the typing of expressions asks of operands by their form (C99 6.3.2.3p3, 6.5.15, 6.6p6): constants 0, the form of a constant, what `? :` makes of two values.
#![tactic(auto)]

mod choosing;
mod forms;
mod nulls;
mod zeros;

pub use choosing::chooses;
pub use forms::is_form;
pub use nulls::{is_null, is_null_pointer};
