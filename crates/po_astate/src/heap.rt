// The order of what is known of the heap.
ghost use Rattle.std.specs.Prelude.{◌≡◌};
ghost use Rattle.po_astate.specs.States as states;
ghost use Rattle.po_astate.specs.States.{heap_entry_within};

use crate::covered::{Ordered, is_covered};
use po_base::NodeNo;
use po_bases::{HeapFact, fact_within};

impl Ordered for (NodeNo, HeapFact) {
    ghost within = { heap_entry_within };

    fn is_within(&self, other: &(NodeNo, HeapFact)) -> bool {
        fact_within(&self.1, &other.1)
    }
}

/// Whether each node of the one is one of the other, of whose block no more is told.
pub fn heap_within(a: &[(NodeNo, HeapFact)], b: &[(NodeNo, HeapFact)]) -> bool
    ensures { result ≡ states.heap_within a.now b.now }
{
    is_covered(a, b)
}
