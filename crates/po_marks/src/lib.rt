//! The obligations that an analysis knows, each with how far it has come, for each file those that wait to be taken, and the files
//! that can be taken in their turn. An obligation is found by a hash of it, and a file's are handed out without a look at the others.
#![tactic(auto)]

mod adding;
mod drawing;
mod entries;
mod line;
mod marks;
mod queue;
mod releasing;
mod undoing;

pub use adding::{add_supports, first_marks};
pub use drawing::{Drawn, draw, room_to_draw};
pub use entries::{Entries, entry_at, has_verdict, is_known, mark_of};
pub use marks::Marks;
pub use queue::Queue;
pub use releasing::{free, put_back, settle};
