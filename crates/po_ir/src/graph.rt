// Graphs of functions' bodies.
use crate::instr::{Instr, Ty};
use po_base::{List, Spot, Text};

/// A node of a graph. Nodes run in their order, unless an instruction says otherwise.
#[derive(Debug, Drop)]
pub struct Node {
    pub instr: Instr,
    /// The position of the operator or keyword from which the node came.
    pub spot: Spot,
}

/// A register. Parameters come first, then variables, then temporaries, which have no name.
#[derive(Debug, Drop)]
pub struct Reg {
    pub name: Option<Text>,
    pub ty: Ty,
    /// Whether it is a parameter, which has a value from the start.
    pub param: bool,
}

/// A variable in memory: its size and alignment in bytes, and whether it is constant.
#[derive(Clone, Copy, Debug, PartialEq, Eq)]
pub struct Slot {
    pub size: u64,
    pub align: u64,
    pub constant: bool,
}

/// The graph of a function's body. It starts at node 0.
#[derive(Debug, Drop)]
pub struct Graph {
    pub nodes: List<Node>,
    pub regs: List<Reg>,
    pub slots: List<Slot>,
    /// How many of the registers are parameters; they stand first.
    pub params: u32,
}
