// Sizes, alignments and places of members.
use po_base::List;

/// The size of an object in bytes, and its alignment.
#[derive(Clone, Copy, Debug)]
pub struct Extent {
    pub size: u64,
    pub align: u64,
}

/// How a struct lies in memory (C99 6.7.2.1): its size, its alignment, and where each member begins.
#[derive(Debug, Drop)]
pub struct Layout {
    pub size: u64,
    pub align: u64,
    pub offsets: List<u64>,
}
