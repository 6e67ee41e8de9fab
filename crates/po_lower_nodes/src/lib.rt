//! The small groups of nodes that the forms of expressions and statements are made of.
#![tactic(auto)]

mod blocks;
mod jumps;
mod operands;
mod values;

pub use blocks::{case_tests, end_function, enter_all, keep_parameter, leave_all};
pub use jumps::{Comparison, branch, jump, return_value, test};
pub use operands::{hold, put, save};
pub use values::{
    call, compare_with_zero, global_address, one_or_zero, slot_address, text_address, unary,
    void_call,
};
