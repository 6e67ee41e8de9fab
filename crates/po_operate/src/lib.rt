//! The instructions that stay in their frame, carried out by code.
#![tactic(auto)]

mod accesses;
mod addresses;
mod arithmetic;
mod frames;
mod instructions;
mod lifetimes;
mod operands;
mod pointers;

pub use frames::receive;
pub use instructions::local;
pub use operands::{number_value, pointer_value, register_value, value_at};
