// Want of memory.
use std::alloc::AllocError;

/// Want of memory: the one answer that no contract of cproof ties to a cause. A call that gives it leaves
/// what it was lent as it was, unless its doc says more.
#[derive(Clone, Copy, Debug, PartialEq, Eq)]
pub struct Memory;

impl From<AllocError> for Memory {
    fn from(_error: AllocError) -> Memory {
        Memory
    }
}
