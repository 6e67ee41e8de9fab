// The bytes of a block that are surely filled.
ghost use Rattle.std.specs.Prelude.{◌≡◌, IfOk};

use po_base::{Memory, SharedList};

/// The bytes of a block that are surely filled: all, or some of the first 4,096, ascending and each once.
///
/// The list is shared, so that it takes 16 bytes and is copied without asking for memory.
#[derive(Debug, Drop, PartialEq, Eq)]
pub enum Filled {
    All,
    Bytes(SharedList<u16>),
}

impl Filled {
    /// The same bytes once more, in constant time and without asking for memory. `Memory` where the count of
    /// the list's owners is full.
    pub fn share(&self) -> Result<Filled, Memory>
        ensures { IfOk result (λ filled. filled ≡ self.now) }
    {
        match self {
            Filled::All => Ok(Filled::All),
            Filled::Bytes(bytes) => Ok(Filled::Bytes(bytes.share()?)),
        }
    }
}
