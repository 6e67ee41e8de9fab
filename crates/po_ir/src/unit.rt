// Units: what is known of one file.
use crate::project::{CTypeText, Effects, Function, Global};
use po_base::{LibNo, List, Spot, Text};

/// How a piece of a file was taken.
#[derive(Debug, Drop)]
pub enum Piece3 {
    /// It was read whole.
    Read,
    /// A declaration that isn't read, and where it stands.
    Opaque(Spot),
    /// A definition whose body isn't read: the function's name.
    Unread(Text),
}

/// A function of the C library that a file calls: its number, the name by which it is called, and what a call of it may
/// do to memory.
#[derive(Debug, Drop)]
pub struct LibUse {
    pub lib: LibNo,
    pub name: Text,
    pub effects: Effects,
}

/// What is known of one file. Its globals and literals are numbered from 0, and its calls name functions by their names.
#[derive(Debug, Drop)]
pub struct Unit {
    /// The name of the file as given.
    pub name: Text,
    /// In the order of the file.
    pub pieces: List<Piece3>,
    /// In the order of the file.
    pub functions: List<Function>,
    pub globals: List<Global>,
    /// The literals, each without the zero byte at its end.
    pub texts: List<Text>,
    /// The external names that the file declares or defines, each once, with the type that it has at the end of the file.
    pub declared: List<(Text, CTypeText)>,
    /// The functions of the C library that the file calls, each once.
    pub libs: List<LibUse>,
}
