// The trait of the entries of maps that are kept as ascending lists.
ghost use Rattle.std.specs.Prelude.{◌≡◌, IfOk};

use po_base::Memory;
use std::alloc::Global;
use std::cmp::Ordering;

/// An entry of a map that is kept as the list of its entries, ascending by key.
pub trait Keyed {
    ghost use Rattle.std.specs.declared.cmp.Ordering.{Ordering};

    /// How the keys of two entries compare.
    ghost key_order: { Self → Self → Ordering };
    /// The join of two entries of one key.
    ghost joined: { Self → Self → Self };

    /// How the keys of two entries compare.
    fn cmp_key(&self, other: &Self) -> Ordering
        ensures { result ≡ key_order self.now other.now };

    /// The same entry once more.
    fn share(&self) -> Result<Self, Memory>
    where
        Self: Sized,
        ensures { IfOk result (λ entry. entry ≡ self.now) };

    /// The join of two entries of one key.
    fn join(&self, alloc: Global, other: &Self) -> Result<Self, Memory>
    where
        Self: Sized,
        ensures { IfOk result (λ entry. entry ≡ joined self.now other.now) };
}
