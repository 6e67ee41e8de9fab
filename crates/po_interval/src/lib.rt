//! What is known of a whole number in a program: that it lies in an interval, or is one of a few numbers.
//!
//! For each operation of C's integer types the crate gives the interval of its results.
#![tactic(auto)]

mod bits;
mod conversion;
mod gathering;
mod laws;
mod members;
mod operations;
mod results;
mod rounding;
mod sets;
mod thresholds;
mod within;

pub use conversion::conv_interval;
pub use gathering::{bin_members, conv_members, un_members};
pub use laws::{
    binary_results_are_covered, intervals_are_ordered, join_of_members_is_least,
    members_are_ordered, members_of_results_are_of_type, more_members_have_more_results,
    results_are_allowed, results_are_those_of_c, rounding_is_to_the_nearest, rounding_widens,
    unary_results_are_covered, wider_operands_have_wider_results,
};
pub use members::{Members, join_members, members_within};
pub use operations::{bin_interval, un_interval};
pub use results::{binary, conv, unary};
pub use rounding::round;
pub use thresholds::Thresholds;
pub use within::interval_within;
