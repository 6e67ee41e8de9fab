//! The nodes that combine two values, step one, load one and write one.
#![tactic(auto)]

mod values;

pub use values::{Operands, combine, load, step, store_scalar, write};
