// Projects: the functions and globals of all files.
use crate::graph::Graph;
use po_arith::Target;
use po_base::{FileNo, List, Spot, Text};

/// The spelling of a type, by which types are compared.
#[derive(Debug, Drop)]
pub struct CTypeText {
    pub text: Text,
}

/// A function with a body.
#[derive(Debug, Drop)]
pub struct Function {
    /// The file that defines it.
    pub file: FileNo,
    pub name: Text,
    /// Whether other files can't see it.
    pub local: bool,
    /// The type of its result.
    pub result: CTypeText,
    pub graph: Graph,
}

/// An object that stands from the start of the program to its end.
#[derive(Debug, Drop)]
pub struct Global {
    pub name: Text,
    /// In bytes; 0 where its type has no size.
    pub size: u64,
    /// In bytes, at least 1.
    pub align: u64,
    pub constant: bool,
    /// Whether other files can't see it.
    pub local: bool,
    /// Whether it has an initialiser.
    pub defined: bool,
    pub ty: CTypeText,
}

/// What a call of a function may do to memory that stood before it.
#[derive(Clone, Copy, Debug, PartialEq, Eq)]
pub struct Effects {
    /// Whether it may free a block.
    pub frees: bool,
    /// Whether it may write to a block.
    pub writes: bool,
}

/// What is analysed.
#[derive(Debug, Drop)]
pub struct Project {
    /// The files' names as given.
    pub files: List<Text>,
    /// Where the declarations stand that aren't read, by file and then by place in it.
    pub opaque: List<Spot>,
    /// By file, and then by place in the file.
    pub functions: List<Function>,
    /// By the first file that has it, and then by place in that file.
    pub globals: List<Global>,
    /// The literals, by file and then by place in the file, each without the zero byte at its end.
    pub texts: List<Text>,
    /// What each function may do to memory.
    pub effects: List<Effects>,
    pub target: Target,
}
