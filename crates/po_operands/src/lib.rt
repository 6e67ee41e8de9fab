//! What the typing of expressions asks of operands (C99 6.3.2.1, 6.5, 6.7.6): the types of values, what operators make of them, what type names say.
#![tactic(auto)]

mod addresses;
mod agreeing;
mod combining;
mod names;
mod type_names;
mod values;

pub use addresses::{has_address, is_lvalue};
pub use agreeing::agree;
pub use combining::{Combined, combines};
pub use names::{has_stored_address, is_object, value_of};
pub use type_names::{base_of, in_force, integer_name, plain_name, starred_base};
pub use values::{compared_as, is_complete, stepped, tested, value_type};
