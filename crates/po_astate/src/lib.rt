//! What is known of a function at a node: of each register, of its slots, of blocks from malloc and calloc, and of the
//! memory that was there at its entry.
#![tactic(auto)]

mod bases_order;
mod covered;
mod heap;
mod laws;
mod parts;
mod rel;
mod rounding;
mod slots;
mod state;
mod state_order;
mod value;
mod value_order;

pub use bases_order::bases_within;
pub use laws::{
    proper_states_have_ranks, proper_states_stay_proper, rounded_states_are_above,
    states_are_joined,
};
pub use rounding::round_state;
pub use state::AState;
pub use state_order::{below_state, join_state};
pub use value::AValue;
