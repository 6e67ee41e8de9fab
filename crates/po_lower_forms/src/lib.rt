//! What each form of an expression adds to a graph that is being made, and the forms of names, steps and conditions' values by code.
#![tactic(auto)]

mod choosing;
mod stepping;
mod variables;

pub use choosing::condition_value;
pub use stepping::{Step, step_object, step_register};
pub use variables::{variable_address, variable_value};
