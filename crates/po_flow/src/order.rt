// Nodes in reverse postorder, each loop together.
ghost use Rattle.std.specs.Prelude.{◌≡◌, ◌<◌, ◌↔◌, ℕ, [], length, replicate, IfOk, OnOk, IsTrue};
ghost use Rattle.po_flow.specs.Order.{IsOrder, IsPlaced, StandOnce};

use crate::walk::ends_of;
use po_base::{List, Memory, NodeNo};
use std::alloc::Global;

/// An order of nodes, and beside it the place of each node in it.
#[derive(Drop)]
pub(crate) struct Order {
    pub(crate) nodes: List<NodeNo>,
    pub(crate) places: List<usize>,
}

/// No node stands in the order yet.
fn unplaced(alloc: Global, size: usize) -> Result<Order, Memory>
    ensures long { IfOk result (λ order. length order.places ≡ size) }
    ensures none { IfOk result (λ order. order.nodes ≡ []) }
{
    let places = vec![in alloc; 0usize; size]?;
    Ok(Order {
        nodes: List::new(alloc),
        places: List::from_vec(places),
    })
}

impl Order {
    /// Whether a node stands in the order. What is noted as its place is believed only where it stands there.
    fn has(&self, n: NodeNo) -> bool
        requires { n.0 < length self.now.places }
        ensures { IsTrue result ↔ IsPlaced self.now.nodes self.now.places n.0 }
    {
        match self.nodes.get(self.places.as_slice()[n.0 as usize]) {
            Some(there) => there.0 == n.0,
            None => false,
        }
    }

    /// Puts a node at the end, where it doesn't stand in the order yet.
    fn place(&mut self, n: NodeNo) -> Result<(), Memory>
        requires there { n.0 < length self.old.places }
        requires once { StandOnce self.old.nodes self.old.places }
        ensures long { OnOk result (length self.new.places ≡ length self.old.places) }
        ensures once { OnOk result (StandOnce self.new.nodes self.new.places) }
        ensures placed { OnOk result (IsPlaced self.new.nodes self.new.places n.0) }
        ensures kept { OnOk result ((k : ℕ) → IsPlaced self.old.nodes self.old.places k → IsPlaced self.new.nodes self.new.places k) }
    {
        if self.has(n) {
            return Ok(());
        }
        let end = self.nodes.len();
        self.nodes.push(n)?;
        self.places.set(n.0 as usize, end);
        Ok(())
    }

    /// Puts those of the nodes that are there at the end, the last first.
    fn place_backwards(&mut self, ends: &[NodeNo]) -> Result<(), Memory>
        requires once { StandOnce self.old.nodes self.old.places }
        ensures long { OnOk result (length self.new.places ≡ length self.old.places) }
        ensures once { OnOk result (StandOnce self.new.nodes self.new.places) }
    {
        for n in ends.iter().rev() {
            if (n.0 as usize) < self.places.len() {
                self.place(*n)?;
            }
        }
        Ok(())
    }

    /// Puts all nodes that aren't in the order yet at the end.
    fn place_rest(&mut self, size: u32) -> Result<(), Memory>
        requires long { length self.old.places ≡ size }
        requires once { StandOnce self.old.nodes self.old.places }
        ensures long { OnOk result (length self.new.places ≡ size) }
        ensures order { OnOk result (IsOrder self.new.nodes self.new.places) }
    {
        for n in 0..size {
            self.place(NodeNo(n))?;
        }
        Ok(())
    }
}

/// The nodes in reverse postorder from node 0, each loop together, before what follows it. Nodes that can't be
/// reached stand before those that they lead to.
pub(crate) fn order_of(alloc: Global, size: u32, graph: &[List<NodeNo>]) -> Result<Order, Memory>
    ensures long { IfOk result (λ order. length order.places ≡ size) }
    ensures order { IfOk result (λ order. IsOrder order.nodes order.places) }
{
    let mut order = unplaced(alloc, size as usize)?;
    let ends = ends_of(alloc, graph)?;
    order.place_backwards(ends.as_slice())?;
    order.place_rest(size)?;
    Ok(order)
}
