// Positions in the source.
use crate::text::Text;

/// A position in the source: a file's name and a line, counted from 1.
#[derive(Debug, Drop, PartialEq, Eq)]
pub struct Spot {
    pub file: Text,
    pub line: u32,
}
