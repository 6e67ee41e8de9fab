//! Files joined to one project, or why they can't be.
#![tactic(auto)]

mod join;
mod laws;
mod linking;
mod objects;
mod rename;
mod scope;
mod seen;

pub use laws::{functions_stand_by_file, joined_to_one, name_has_one_function, outcome_is_one};
pub use linking::link;
pub use po_symbols::LinkFail;
