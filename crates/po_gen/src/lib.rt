//! The primary obligations of each node of a project: what C99 asks of the values that it reads and of memory.
#![tactic(auto)]

mod asks;
mod conversions;
mod library;
mod numbers;
mod places;
mod pointers;
mod primary;
mod reads;

pub use library::Library;
pub use primary::obligations;
