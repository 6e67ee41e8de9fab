//! What the graph of a typed function is.
#![tactic(auto)]

mod laws;
mod var;

pub use laws::{one_condition, one_graph, one_unused, one_value};
pub use var::Var;
