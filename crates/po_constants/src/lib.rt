//! Values of constants and of string literals, and what operators and conversions make of constants, computed exactly.
#![tactic(auto)]

mod characters;
mod converting;
mod digits;
mod integer;
mod laws;
mod numbers;
mod operators;
mod string_literals;
mod suffix;

pub use characters::character;
pub use converting::{becomes, kept};
pub use laws::{constants_have_one_value, operators_have_one_result, words_have_one_type};
pub use numbers::number;
pub use operators::{compares, complemented, computes, shifts};
pub use string_literals::{string_length, strings};
