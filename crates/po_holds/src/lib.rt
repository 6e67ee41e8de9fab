//! Whether a predicate holds in a frame and a memory.
#![tactic(auto)]

mod asking;
mod choosing;
mod exact;
mod holding;
mod over;
mod pairs;
mod strings;

pub use holding::holds;
