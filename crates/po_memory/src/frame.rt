// Functions that run.
use crate::value::Value;
use po_base::{FunNo, List, NodeNo};

/// A function that runs: the node at which it stands, its registers and slots, and the arguments with which it was
/// entered.
#[derive(Debug, Drop)]
pub struct Frame {
    pub function: FunNo,
    pub node: NodeNo,
    /// The value of each register, where it has one.
    pub regs: List<Option<Value>>,
    /// The block of each slot, where the slot is entered.
    pub slots: List<Option<u64>>,
    pub args: List<Value>,
}
