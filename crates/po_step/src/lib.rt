//! A step of a run by code, and what is checked at a node of it.
#![tactic(auto)]

mod asking;
mod calls;
mod carrying;
mod checking;
mod outcomes;
mod returns;
mod step;
mod supporting;

pub use asking::asked;
pub use outcomes::Outcomes;
pub use step::{Step, step_once};
