// What is known of a block of the heap.
ghost use Rattle.std.specs.Prelude.{◌≡◌, IfOk};

use crate::filled::Filled;
use po_base::Memory;

/// What is known of the block that the malloc or calloc of a node made last.
#[derive(Debug, Drop, PartialEq, Eq)]
pub struct HeapFact {
    /// It surely wasn't freed.
    pub alive: bool,
    /// It has at least so many bytes.
    pub size: u64,
    pub filled: Filled,
}

impl HeapFact {
    /// The same fact once more, in constant time and without asking for memory. `Memory` where the count of
    /// a list's owners is full.
    pub fn share(&self) -> Result<HeapFact, Memory>
        ensures { IfOk result (λ fact. fact ≡ self.now) }
    {
        Ok(HeapFact {
            alive: self.alive,
            size: self.size,
            filled: self.filled.share()?,
        })
    }
}
