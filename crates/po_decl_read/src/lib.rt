//! The reader of a declaration, with struct bodies and parameter lists nested without a limit (C99 6.7): it takes the steps of `po_decl_states`
//! to the end (`read`); and of a whole piece of a file, which is a declaration or a lone semicolon (`whole`).
#![tactic(auto)]

mod read;
mod whole;

pub use read::read_decl_at;
pub use whole::read_decl;
