//! What the files of a project say of external names, and why they can't be joined.
#![tactic(auto)]

mod bodies;
mod causes;
mod differing;
mod laws;
mod link_fail;
mod names;
mod pairs;
mod sizes;
mod types;

pub use causes::check_names;
pub use laws::refusal_is_one;
pub use link_fail::LinkFail;
pub use names::{Named, add_under, note, note_name};
pub use sizes::check_sizes;
