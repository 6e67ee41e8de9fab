//! Memory as numbered blocks of bytes, the values that registers hold, and when a predicate holds.
#![tactic(auto)]

mod block;
mod frame;
mod laws;
mod memory;
mod reading;
mod value;
mod writing;

pub use block::Block;
pub use frame::Frame;
pub use laws::{
    accesses_ask_their_predicates, blocks_are_kept, changes_add_up, subst_keeps_holds,
    what_is_stored_is_read,
};
pub use memory::{Memory2, alloc_block};
pub use reading::load;
pub use value::{Byte, Value};
pub use writing::{kill, store};
