// What is known of a function at a node.
ghost use Rattle.std.specs.Prelude.{◌≡◌, IfOk};

use crate::value::AValue;
use po_base::{Memory, NodeNo, SharedList};
use po_bases::{Filled, HeapFact};

/// What is known of a function at a node.
///
/// Lists in it are shared, so that a state is copied in constant time.
#[derive(Debug, Drop, PartialEq, Eq)]
pub enum AState {
    /// The node isn't reached.
    Bottom,
    At {
        /// One value for each register.
        regs: SharedList<AValue>,
        /// For each slot its surely filled bytes; none where it isn't entered.
        slots: SharedList<Option<Filled>>,
        /// For each node of malloc or calloc that was passed what is known of its last block, ascending by node.
        heap: SharedList<(NodeNo, HeapFact)>,
        /// A block of the entry memory may have been freed.
        freed: bool,
        /// A byte of the entry memory may have changed.
        wrote: bool,
    },
}

impl AState {
    /// The same state once more, in constant time and without asking for memory. `Memory` where the count of
    /// a list's owners is full.
    pub fn share(&self) -> Result<AState, Memory>
        ensures { IfOk result (λ state. state ≡ self.now) }
    {
        match self {
            AState::Bottom => Ok(AState::Bottom),
            AState::At {
                regs,
                slots,
                heap,
                freed,
                wrote,
            } => Ok(AState::At {
                regs: regs.share()?,
                slots: slots.share()?,
                heap: heap.share()?,
                freed: *freed,
                wrote: *wrote,
            }),
        }
    }
}
