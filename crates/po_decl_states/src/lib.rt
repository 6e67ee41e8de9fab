//! The steps by which a declaration is read, with struct bodies and parameter lists nested without a limit (C99 6.7): each is one law of
//! `po_decl_steps`, with the names in force.
//!
//! From below: where the reader stands (`state`); small tests (`words`); steps among specifiers (`specifiers`), through declarators
//! (`declarators`), and behind those of a declaration, a member and a parameter (`parts`, `members`, `params`); one step (`steps`).
#![tactic(auto)]

mod declarators;
mod members;
mod params;
mod parts;
mod specifiers;
mod state;
mod steps;
mod words;

pub use state::{State, Step};
pub use steps::take_step;
