// The trait of what takes bytes that are written.
ghost use Rattle.std.specs.Prelude.{ℕ, ◌≡◌, ◌<◌, ◌≤◌, length, take, List, Option as Maybe, IfOk, OnErr};
ghost use Rattle.po_io.specs.Count.{Rose};
ghost use Rattle.po_io.specs.Writing.{Adds};

use crate::failed::Failed;

/// What takes the bytes that are written.
///
/// What contracts see of it: `written`, the bytes that it took so far, where they are told, and `faults`, a count
/// of failed writes. A count is a number of 64 bits that starts at 0, rises at each fault, and stays at the
/// greatest number; it never falls.
pub trait Sink {
    ghost written: { Self → Maybe (List ℕ) };

    ghost faults: { Self → ℕ };

    /// Writes the first bytes of a piece, at least one of a piece that isn't empty, and says how many.
    ///
    /// # Errors
    ///
    /// [`Failed`] only where the count of faults rose; then nothing was written.
    fn write(&mut self, bytes: &[u8]) -> Result<usize, Failed>
        ensures bound { IfOk result (λ n. n ≤ length bytes.now) }
        ensures some { IfOk result (λ n. 0 < length bytes.now → 0 < n) }
        ensures written { IfOk result (λ n. Adds (written self.old) (written self.new) (take n bytes.now)) }
        ensures same { OnErr result (written self.new ≡ written self.old) }
        ensures failed { OnErr result (Rose (faults self.old) (faults self.new)) }
        ensures counts { faults self.old ≤ faults self.new };
}
