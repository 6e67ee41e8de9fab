//! The graph of a function while it is lowered.
#![tactic(auto)]

mod draft;
mod filling;
mod nodes;
mod registers;
mod vectors;
mod waiting;

pub use draft::{Cases, Draft, Parts};
pub use filling::FIRST_LABEL;
