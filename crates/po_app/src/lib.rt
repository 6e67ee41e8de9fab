//! The top call of cproof: from the words of a command to the written report.
#![tactic(auto)]

mod book;
mod callers;
mod delegation;
mod discharge;
mod laws;
mod lowering;
mod primary;
mod range;
mod report_text;
mod rule;
mod solve;
mod status;
mod tally;
mod top;
mod verdict;
mod words;

pub use laws::{
    closed_report_is_sound, closed_where_all_hold, entries_meet, every_call_starts,
    least_report_is_closed, report_is_one, report_is_sound, runs_go_on,
};
pub use rule::Rule;
pub use status::Status;
pub use top::run;
