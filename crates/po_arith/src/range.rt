// Ranges of whole numbers between two ends.

/// The whole numbers from `lo` to `hi`, both among them.
#[derive(Clone, Copy, Debug, PartialEq, Eq)]
pub struct Range {
    pub lo: i128,
    pub hi: i128,
}
