// Where a pointer points.
ghost use Rattle.std.specs.Prelude.{◌≡◌, IfOk};

use crate::entry::Entry;
use po_base::{Memory, SharedList};

/// Where a pointer points: at most four bases, ascending and each once, or unknown.
///
/// The list is shared, so that bases take 16 bytes and are copied without asking for memory.
#[derive(Debug, Drop, PartialEq, Eq)]
pub enum Bases {
    Known(SharedList<Entry>),
    Unknown,
}

impl Bases {
    /// The same bases once more, in constant time and without asking for memory. `Memory` where the count of
    /// the list's owners is full.
    pub fn share(&self) -> Result<Bases, Memory>
        ensures { IfOk result (λ bases. bases ≡ self.now) }
    {
        match self {
            Bases::Known(entries) => Ok(Bases::Known(entries.share()?)),
            Bases::Unknown => Ok(Bases::Unknown),
        }
    }
}
