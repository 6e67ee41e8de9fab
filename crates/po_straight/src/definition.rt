use crate::expression::Expression;
use po_base::{List, Text};

/// The tree of a definition `int NAME(PARAMETERS){return EXPRESSION;}`.
#[derive(Debug, Drop)]
pub struct Definition {
    pub name: Text,
    pub parameters: List<Text>,
    /// The line of the keyword `return`, counted from 1.
    pub line: u32,
    pub value: Expression,
}
