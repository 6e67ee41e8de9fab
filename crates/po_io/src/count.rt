// Counts of faults, which only rise.
ghost use Rattle.std.specs.Prelude.{◌≡◌, ◌<◌, ◌≤◌, ◌^◌, ◌-◌, ◌↔◌, ◌⊎◌, ℕ, IsTrue, Contains};
ghost use Rattle.po_io.specs.Count.{risen, Rose};

/// What it means that a count of 64 bits rose over a call: it is greater at the call's end than before, or it
/// stands at the greatest such number, where no count can rise.
pub fn count_rises()
    ensures { (before after : ℕ) → after < 2 ^ 64 → Rose before after ↔ ((before < after) ⊎ (after ≡ 2 ^ 64 - 1)) }
{}

/// The count after one more rise. At the greatest number it stays.
pub(crate) fn rise(count: u64) -> u64
    ensures risen { result ≡ risen count }
    ensures later { count ≤ result }
{
    count.saturating_add(1)
}

/// Whether a call's number is among those that are to fail.
pub(crate) fn is_listed(numbers: &[u64], call: u64) -> bool
    ensures { IsTrue result ↔ Contains numbers.now call }
{
    numbers.contains(&call)
}
