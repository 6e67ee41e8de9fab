//! Where pointers point: bases, what they are moved by, and which bytes of a block are surely filled.
#![tactic(auto)]

mod base;
mod bases;
mod common;
mod entry;
mod facts;
mod filled;
mod heap_fact;
mod joining;
mod keyed;
mod laws;
mod merging;
mod moving;

pub use base::Base;
pub use bases::Bases;
pub use entry::Entry;
pub use facts::{fact_within, filled_within, join_facts, join_filled};
pub use filled::Filled;
pub use heap_fact::HeapFact;
pub use joining::join_bases;
pub use keyed::Keyed;
pub use laws::{
    bases_are_joined, facts_are_joined, greater_bases_allow_more, joins_of_bases_cover,
    joins_of_bases_rise, moved_bases_cover, moved_bases_rise,
};
pub use merging::merge;
pub use moving::move_bases;
