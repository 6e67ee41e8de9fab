//! Whole numbers: the integer types of the target, and exact arithmetic on numbers of any of them.
//!
//! No call takes memory, and each takes constant time.
#![tactic(auto)]

mod bitwise;
mod division;
mod hull;
mod int_type;
mod interval;
mod laws;
mod range;
mod ranges;
mod shifts;
mod target;
mod types;

pub use bitwise::{bits_and, bits_or, bits_xor, filled};
pub use division::{div_trunc, rem_trunc};
pub use hull::join_interval;
pub use int_type::IntType;
pub use interval::Interval;
pub use laws::{
    bits_hold_numbers, bits_tell_numbers_apart, division_is_that_of_c, one_number_is_congruent,
    one_number_is_rounded_down, results_lie_between_ends, wider_ranges_have_wider_results,
};
pub use range::Range;
pub use ranges::{corners, differences, quotients, remainders, sums};
pub use shifts::{shift_left, shift_right, shifted_down, shifted_up, shifts_down, shifts_up};
pub use target::Target;
pub use types::{fits, limits, wrap};
