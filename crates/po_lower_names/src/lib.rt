//! Which variables are in scope while a function is lowered.
#![tactic(auto)]

mod entries;
mod scope;

pub use scope::Scope;
