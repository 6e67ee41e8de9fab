//! The pure core of the analysis that workers share: obligations and their verdicts, what a rulebook means,
//! the least report under a rulebook, the events by which workers change what they share, and the theorem
//! that every legal list of events leads to the least report, whichever order the workers take.
#![tactic(auto)]

mod book;
mod event;
mod laws;
mod obl;
mod report;

pub use book::Rulebook;
pub use event::{Event, Hand, Journal, Mark};
pub use laws::{
    least_report_is_one, legal_lists_are_orderly, legal_lists_stay_within, quiet_lists_are_least,
    settles_are_bounded,
};
pub use obl::{Cause, Obl, Verdict};
pub use report::Report;
