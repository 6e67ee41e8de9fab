// The trait of files that are read by their names.
ghost use Rattle.std.specs.Prelude.{ℕ, ◌≡◌, ◌≤◌, length, List, Option as Maybe, IfOk, OnErr};
ghost use Rattle.po_io.specs.Count.{Rose};
ghost use Rattle.po_io.specs.Reading.{GivesWhereTold};

use crate::failed::Failed;

/// Files that are read by their names.
///
/// What contracts see of it: `held`, the bytes of the file of a name, where they are told, and `faults`, a count
/// of failed reads of a name. A count is a number of 64 bits that starts at 0, rises at each fault, and stays at
/// the greatest number; it never falls. One count may serve all names.
pub trait Files {
    ghost held: { Self → List ℕ → Maybe (List ℕ) };

    ghost faults: { Self → List ℕ → ℕ };

    /// Reads bytes of the file `name` from the place `at` on, counted in bytes from 0, to the front of `into`,
    /// and says how many. It may give fewer than are left and fit, but none only where `into` is empty or
    /// nothing is left: so 0 for a buffer that isn't empty is the end of the file. A missing file is a failed
    /// read.
    ///
    /// # Errors
    ///
    /// [`Failed`] only where the count of faults of `name` rose.
    fn read(&mut self, name: &str, at: u64, into: &mut [u8]) -> Result<usize, Failed>
        ensures bound { IfOk result (λ n. n ≤ length into.old) }
        ensures bytes { GivesWhereTold (held self.old name.now) at into.old into.new result }
        ensures failed { OnErr result (Rose (faults self.old name.now) (faults self.new name.now)) }
        ensures held { (other : List ℕ) → held self.new other ≡ held self.old other }
        ensures counts { (other : List ℕ) → faults self.old other ≤ faults self.new other };
}
