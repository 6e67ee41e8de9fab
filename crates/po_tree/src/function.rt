// Function definitions (C99 6.9.1).
use crate::expression::{Declarator, Specifier};
use crate::statement::Stmt;
use po_base::{List, Text};

/// A function definition (C99 6.9.1).
#[derive(Drop)]
pub struct FunTree {
    pub specs: List<Specifier>,
    pub declarator: Declarator,
    pub body: List<Stmt>,
    /// For each token of the definition the place of its file's name in `names`, and its line.
    pub marks: List<(u32, u32)>,
    /// The names of files, in the order of first appearance.
    pub names: List<Text>,
}
