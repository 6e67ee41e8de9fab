//! The least closed table of a flow: the states, edges and order of any analysis on a graph of nodes, and the one table
//! that every such analysis is after. It is found by a worklist, and the evaluations of edges are counted.
#![tactic(auto)]

mod flow;
mod graph;
mod laws;
mod least;
mod marks;
mod order;
mod steps;
mod table;
mod walk;
mod work;
mod worklist;

pub use flow::Flow;
pub use laws::least_table_is_one;
pub use least::{Counted, least_table, least_table_counted};
pub use steps::Steps;
pub use table::Table;
