// The nodes that wait to be evaluated.
ghost use Rattle.std.specs.Prelude.{◌≡◌, ◌<◌, length, replicate, true, false, slice_index_or, slice_set, IfOk, MatchOption};
ghost use Rattle.po_flow.specs.Order.{IsOrder};
ghost use Rattle.po_flow.specs.Waiting.{AreIdleBefore, AreWithin, IsIdleAt, IsTaken, IsWaiting, NoneWaits};

use crate::marks::Marks;
use crate::order::Order;
use po_base::{List, Memory, NodeNo};
use std::alloc::Global;
use std::marker::Model;

/// The nodes that wait to be taken, of which the first in an order is taken first. Contracts see whether each node
/// waits, as a list in the order of the nodes' numbers.
#[derive(Drop)]
pub(crate) struct Worklist {
    order: Order,
    waiting: List<bool>,
    /// The places in the order of those that wait.
    marks: Marks,
}

impl Model for Worklist {
    ghost use Rattle.std.specs.Prelude.{List, Bool};
    ghost use Rattle.std.specs.Coded.{coded_list, coded_bool};
    ghost use Rattle.po_flow.specs.Waiting.{IsListed};

    ghost Value = { List Bool };

    ghost coded = { coded_list coded_bool };

    ghost view = { λ list. list.waiting };

    ghost invariant = { λ list. IsListed list.order.nodes list.order.places list.waiting };
}

impl Worklist {
    /// All nodes wait.
    pub(crate) fn new(alloc: Global, order: Order) -> Result<Worklist, Memory>
        requires { IsOrder order.nodes order.places }
        ensures { IfOk result (λ list. list ≡ replicate (length order.places) true) }
    {
        let waiting = vec![in alloc; true; order.places.len()]?;
        let marks = Marks::all(alloc, order.nodes.len())?;
        Ok(Worklist {
            order,
            waiting: List::from_vec(waiting),
            marks,
        })
    }

    /// The node waits, in time in the logarithm of the nodes' number. It takes no memory.
    pub(crate) fn put(&mut self, n: NodeNo)
        requires { n.0 < length self.old }
        ensures { self.new ≡ slice_set self.old n.0 true }
    {
        self.waiting.set(n.0 as usize, true);
        self.marks.mark(self.order.places.as_slice()[n.0 as usize]);
    }

    /// Takes the waiting node that stands first in the order, in time in the logarithm of the nodes' number. It takes no
    /// memory. Where none waits, all were looked at once.
    pub(crate) fn take(&mut self) -> Option<NodeNo>
        ensures { MatchOption result (NoneWaits self.old × (self.new ≡ self.old)) (λ n. IsTaken self.old n self.new) }
    {
        let found = next_waiting(
            self.order.nodes.as_slice(),
            self.waiting.as_slice(),
            self.marks.first(),
        );
        match found {
            Some(n) => {
                self.waiting.set(n.0 as usize, false);
                self.marks.clear(self.order.places.as_slice()[n.0 as usize]);
                Some(n)
            }
            None => None,
        }
    }
}

/// The node, where it waits.
fn if_waiting(waiting: &[bool], n: NodeNo) -> Option<NodeNo>
    requires { n.0 < length waiting.now }
    ensures { MatchOption result (slice_index_or waiting.now n.0 false ≡ false) (λ m. (m ≡ n) × IsWaiting waiting.now n.0) }
{
    if waiting[n.0 as usize] {
        return Some(n);
    }
    None
}

/// The node at a place of the order, where one stands there that waits.
fn waiting_at(nodes: &[NodeNo], waiting: &[bool], at: usize) -> Option<NodeNo>
    requires { AreWithin nodes.now (length waiting.now) }
    ensures { MatchOption result (IsIdleAt nodes.now waiting.now at) (λ n. IsWaiting waiting.now n.0) }
{
    match nodes.get(at) {
        Some(n) => if_waiting(waiting, *n),
        None => None,
    }
}

/// A node that waits: the one at the given place, if one waits there, and else the first.
fn next_waiting(nodes: &[NodeNo], waiting: &[bool], there: usize) -> Option<NodeNo>
    requires { AreWithin nodes.now (length waiting.now) }
    ensures { MatchOption result (AreIdleBefore nodes.now waiting.now (length nodes.now)) (λ n. IsWaiting waiting.now n.0) }
{
    if let Some(n) = waiting_at(nodes, waiting, there) {
        return Some(n);
    }
    for at in 0..nodes.len() {
        if let Some(n) = waiting_at(nodes, waiting, at) {
            return Some(n);
        }
    }
    None
}
