//! The ledger of `po_ledger` against the plain program of the definitions: a ledger that keeps all it knows in plain lists and walks
//! them, proved to the same contracts, and a table of rulebooks in small that both are run on.
#![tactic(auto)]

mod counting;
mod hands;
mod known;
mod ledger;
mod log;
#[cfg(test)]
mod refused;
mod remarking;
mod reporting;
#[cfg(test)]
mod reports;
mod row;
mod solving;
mod ticket;
mod untaken;

pub use ledger::{ListLedger, ListNext};
pub use row::Row;
pub use solving::solve_book_by_lists;
pub use ticket::ListTicket;
