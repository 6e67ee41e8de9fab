/// The rule by which an obligation is closed.
#[derive(Clone, Copy, Debug, PartialEq, Eq)]
pub enum Rule {
    /// It holds for all values of the operands' ranges.
    Range,
}
