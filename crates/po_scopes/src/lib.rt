//! What identifiers and tags mean at a place of a file (C99 6.2.1, 6.2.3): what the environment of the file says, and the scopes inside.
#![tactic(auto)]

mod context;
mod laws;
mod meaning;
mod scopes;

pub use context::Context;
pub use laws::environment_shows_what_is_in_force;
pub use meaning::{Local, Meaning, Storage, Tag};
pub use scopes::Scopes;
