//! Which names an expression assigns, read off its tree once.
#![tactic(auto)]

mod assigning;
mod naming;

pub use assigning::{gather, gather_all};
pub use naming::name_of;
