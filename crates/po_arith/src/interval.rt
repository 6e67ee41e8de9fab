// Intervals of whole numbers, whose ends may be missing.

/// The whole numbers from `lo` to `hi`, both among them; an end that is missing is no bound.
#[derive(Clone, Copy, Debug, PartialEq, Eq)]
pub struct Interval {
    pub lo: Option<i128>,
    pub hi: Option<i128>,
}
