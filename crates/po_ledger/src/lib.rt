//! The ledger of an analysis: which obligations are known and how far each has come, who holds which file, what
//! is assumed, and the journal of all that happened. Workers take work from it by tickets, post assumptions,
//! settle obligations, and give files back; each call is one legal event of the core and appends just it.
#![tactic(auto)]

mod assumed;
mod call_sites;
mod fitting;
mod hands;
mod ledger;
mod log;
mod naming;
mod next;
mod per_function;
mod report;
mod same;
mod settling;
mod shelves;
mod ticket;

pub use ledger::Ledger;
pub use naming::Naming;
pub use next::{Next, ReportFail};
pub use settling::settle_hand;
pub use ticket::Ticket;
