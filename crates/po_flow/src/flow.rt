// The trait of flows: what is known at the nodes of a graph.
ghost use Rattle.std.specs.Prelude.{◌≡◌, ◌<◌, IfOk};
ghost use Rattle.po_flow.specs.Flows.{Flows, HasEdge, IsLawful};

use po_base::{List, Memory, NodeNo};
use std::alloc::Global;

/// The states, edges and order of an analysis on a graph whose nodes are numbered from 0, where it starts.
///
/// A flow has one meaning, a `Flows`: its nodes and edges, the state in which it starts, what an edge makes of a
/// state, and the order of states. The laws speak of the states that the flow names proper.
pub trait Flow {
    /// What is known when a node is reached.
    type State: Drop;

    ghost meaning: { Self → Flows Self.State };

    ghost proper: { Self → Self.State → Type 0 };

    /// How many nodes there are; at least one.
    fn nodes(&self) -> u32
        ensures { result ≡ (meaning self.now).size };

    /// The nodes to which an edge leads from a node, each once.
    fn nexts(&self, alloc: Global, n: NodeNo) -> Result<List<NodeNo>, Memory>
        requires { n.0 < (meaning self.now).size }
        ensures { IfOk result (λ nodes. nodes ≡ (meaning self.now).nexts n) };

    /// The state in which node 0 is entered from outside.
    fn start(&self, alloc: Global) -> Result<Self::State, Memory>
        ensures { IfOk result (λ s. s ≡ (meaning self.now).first) };

    /// The least state: that of a node which was never reached.
    fn bottom(&self, alloc: Global) -> Result<Self::State, Memory>
        ensures { IfOk result (λ s. s ≡ (meaning self.now).least) };

    /// What the edge from n to m makes of a state at n.
    fn edge(
        &self,
        alloc: Global,
        n: NodeNo,
        m: NodeNo,
        s: &Self::State,
    ) -> Result<Self::State, Memory>
        requires { HasEdge (meaning self.now) n m }
        ensures { IfOk result (λ u. u ≡ (meaning self.now).moved n m s.now) };

    /// The least upper bound of two states.
    fn join(&self, alloc: Global, a: &Self::State, b: &Self::State) -> Result<Self::State, Memory>
        ensures { IfOk result (λ u. u ≡ (meaning self.now).joined a.now b.now) };

    /// Whether `a` is below `b` or the same.
    fn below(&self, a: &Self::State, b: &Self::State) -> bool
        ensures { result ≡ (meaning self.now).below a.now b.now };

    ghost lawful: { (f : Self) → IsLawful (meaning f) (proper f) };
}
