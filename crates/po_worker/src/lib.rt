//! Workers that share a ledger behind a lock: each takes a file, works out its verdicts while others work too, and hands
//! them in. Whatever the workers did and in which order, what is found is the least report.
#![tactic(auto)]

mod alone;
mod gate;
mod locked;
mod shared;
mod solving;
mod verdicts;
mod working;

pub use alone::solve_alone;
pub use gate::{Gate, Moment, NoGate};
pub use locked::put_back_all;
pub use shared::Shared;
pub use solving::{solve, solve_book_alone};
pub use working::work;
