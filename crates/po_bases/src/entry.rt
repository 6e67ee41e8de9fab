// One base of a pointer, with its offsets.
use crate::base::Base;
use po_arith::Interval;

/// One base of a pointer, and what the pointer is moved by from there, in bytes.
#[derive(Clone, Copy, Debug, PartialEq, Eq)]
pub struct Entry {
    pub base: Base,
    pub off: Interval,
    /// 1, 2, 4, 8 or 16. It divides every offset; that of 0 is 16.
    pub grain: u8,
}
