//! What a project means: the states of its runs, their steps, and the first obligation that doesn't hold (C99 5.1.2.3).
#![tactic(auto)]

mod laws;
mod state;

pub use laws::{
    entry_keeps_holds, first_violated_is_one, library_calls_pass, library_steps_stay, one_or_all,
    plain_steps_stay, states_follow, steps_stay, steps_violate_nothing,
};
pub use state::{Ending, State};
