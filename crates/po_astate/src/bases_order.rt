// Whether one pointer's bases allow what another's do.
ghost use Rattle.std.specs.Prelude.{◌≡◌};
ghost use Rattle.po_astate.specs.Values as values;
ghost use Rattle.po_astate.specs.Values.{entry_within};

use crate::covered::{Ordered, is_covered};
use po_bases::{Bases, Entry};
use po_interval::interval_within;

impl Ordered for Entry {
    ghost within = { entry_within };

    fn is_within(&self, other: &Entry) -> bool {
        interval_within(&self.off, &other.off) && other.grain <= self.grain
    }
}

/// Whether `b` allows each base and offset that `a` does, base by base. In linear time, without asking for memory.
pub fn bases_within(a: &Bases, b: &Bases) -> bool
    ensures { result ≡ values.bases_within a.now b.now }
{
    match b {
        Bases::Unknown => true,
        Bases::Known(ys) => match a {
            Bases::Unknown => false,
            Bases::Known(xs) => is_covered(xs.as_slice(), ys.as_slice()),
        },
    }
}
