//! The lowered form of C that cproof analyses: functions as graphs of nodes over registers, files of them, and projects.
#![tactic(auto)]

mod calls;
mod effects;
mod graph;
mod instr;
mod laws;
mod project;
mod reach;
mod unit;
mod validity;

pub use calls::{call_sites, counted};
pub use effects::function_effects;
pub use graph::{Graph, Node, Reg, Slot};
pub use instr::{Access, Callee, Instr, Local, Reason, Ty};
pub use laws::{sites_are_calls, ways_stay_within};
pub use project::{CTypeText, Effects, Function, Global, Project};
pub use unit::{LibUse, Piece3, Unit};
pub use validity::{valid, written};
