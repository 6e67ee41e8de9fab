// The order and joins of what is known of blocks.
ghost use Rattle.std.specs.Prelude.{◌≡◌, IfOk};
ghost use Rattle.po_bases.specs.Filled as facts;
ghost use Rattle.po_bases.specs.Filled.{heap_cmp, join_heap_entries};

use crate::common::{common, has_all};
use crate::filled::Filled;
use crate::heap_fact::HeapFact;
use crate::keyed::Keyed;
use po_base::{Memory, NodeNo, SharedList};
use std::alloc::Global;
use std::cmp::Ordering;

/// The bytes that are filled in both.
pub fn join_filled(alloc: Global, a: &Filled, b: &Filled) -> Result<Filled, Memory>
    ensures { IfOk result (λ joined. joined ≡ facts.join_filled a.now b.now) }
{
    match a {
        Filled::All => b.share(),
        Filled::Bytes(xs) => match b {
            Filled::All => a.share(),
            Filled::Bytes(ys) => {
                let bytes = common(alloc, xs.as_slice(), ys.as_slice())?;
                Ok(Filled::Bytes(SharedList::from_list(bytes)?))
            }
        },
    }
}

/// Whether each byte that is filled in `b` is filled in `a`. In linear time, without asking for memory.
pub fn filled_within(a: &Filled, b: &Filled) -> bool
    ensures { result ≡ facts.filled_within a.now b.now }
{
    match a {
        Filled::All => true,
        Filled::Bytes(xs) => match b {
            Filled::All => false,
            Filled::Bytes(ys) => has_all(xs.as_slice(), ys.as_slice()),
        },
    }
}

/// What is known of a block in both: alive where it is in both, the lesser size, and the bytes filled in both.
pub fn join_facts(alloc: Global, a: &HeapFact, b: &HeapFact) -> Result<HeapFact, Memory>
    ensures { IfOk result (λ joined. joined ≡ facts.join_facts a.now b.now) }
{
    Ok(HeapFact {
        alive: a.alive && b.alive,
        size: a.size.min(b.size),
        filled: join_filled(alloc, &a.filled, &b.filled)?,
    })
}

/// Whether all that `b` tells of a block is told by `a`. In linear time, without asking for memory.
pub fn fact_within(a: &HeapFact, b: &HeapFact) -> bool
    ensures { result ≡ facts.fact_within a.now b.now }
{
    (a.alive || !b.alive) && b.size <= a.size && filled_within(&a.filled, &b.filled)
}

/// By node; the join has what is known in both.
impl Keyed for (NodeNo, HeapFact) {
    ghost key_order = { heap_cmp };

    ghost joined = { join_heap_entries };

    fn cmp_key(&self, other: &(NodeNo, HeapFact)) -> Ordering {
        self.0.0.cmp(&other.0.0)
    }

    fn share(&self) -> Result<(NodeNo, HeapFact), Memory> {
        Ok((self.0, self.1.share()?))
    }

    fn join(
        &self,
        alloc: Global,
        other: &(NodeNo, HeapFact),
    ) -> Result<(NodeNo, HeapFact), Memory> {
        Ok((self.0, join_facts(alloc, &self.1, &other.1)?))
    }
}
