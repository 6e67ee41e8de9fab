// A table on its way to the least closed one.
ghost use Rattle.std.specs.Prelude.{◌≡◌, ◌<◌, ◌≤◌, ◌+◌, ◌⊎◌, ℕ, List, length, replicate, true, slice_index, slice_set, IfOk, OnOk};
ghost use Rattle.std.specs.List.{Contains};
ghost use Rattle.po_base.specs.declared.numbers.NodeNo.{NodeNo};
ghost use Rattle.po_flow.specs.Flows.{HasEdge};
ghost use Rattle.po_flow.specs.Counting.{counted_on};
ghost use Rattle.po_flow.specs.Graph.{IsGraph};
ghost use Rattle.po_flow.specs.Order.{IsOrder};
ghost use Rattle.po_flow.specs.Waiting.{NoneWaits};
ghost use Rattle.po_flow.specs.Working.{HoldsOrWaits, IsFirst, IsUnderWay, IsWork, Rises};

use crate::flow::Flow;
use crate::order::Order;
use crate::steps::Steps;
use crate::table::Table;
use crate::worklist::Worklist;
use po_base::{List, Memory, NodeNo};
use std::alloc::Global;

/// A table on its way to the least closed one.
#[derive(Drop)]
pub(crate) struct Work<S> {
    pub(crate) table: Table<S>,
    /// How often the state of each node has risen.
    pub(crate) rises: List<u64>,
    /// The nodes whose edges have to be evaluated, at first or again.
    pub(crate) list: Worklist,
}

/// The start at node 0, and the least state elsewhere.
fn first_table<F: Flow>(alloc: Global, flow: &F) -> Result<Table<F::State>, Memory>
    ensures { IfOk result (λ table. IsFirst (F.meaning flow.now) table) }
{
    let mut states = List::new(alloc);
    states.push(flow.start(alloc)?)?;
    for _ in 1..flow.nodes() {
        states.push(flow.bottom(alloc)?)?;
    }
    Ok(Table::from_list(states))
}

/// No state has risen.
fn no_rises(alloc: Global, size: usize) -> Result<List<u64>, Memory>
    ensures { IfOk result (λ rises. rises ≡ replicate size 0) }
{
    let rises = vec![in alloc; 0u64; size]?;
    Ok(List::from_vec(rises))
}

/// The first table. No state has risen, and all nodes wait.
pub(crate) fn first_work<F: Flow>(
    alloc: Global,
    flow: &F,
    order: Order,
) -> Result<Work<F::State>, Memory>
    requires long { length order.places ≡ (F.meaning flow.now).size }
    requires order { IsOrder order.nodes order.places }
    ensures first { IfOk result (λ work. IsFirst (F.meaning flow.now) work.table) }
    ensures under_way { IfOk result (λ work. IsUnderWay (F.meaning flow.now) (F.proper flow.now) work.table work 0) }
{
    let table = first_table(alloc, flow)?;
    let rises = no_rises(alloc, order.places.len())?;
    let list = Worklist::new(alloc, order)?;
    Ok(Work { table, rises, list })
}

/// Evaluates an edge, and counts it. No other function evaluates edges.
fn evaluate<F: Flow, L>(
    alloc: Global,
    flow: &F,
    n: NodeNo,
    m: NodeNo,
    s: &F::State,
    steps: &mut Steps<L>,
) -> Result<F::State, Memory>
    requires { HasEdge (F.meaning flow.now) n m }
    ensures moved { IfOk result (λ u. u ≡ (F.meaning flow.now).moved n m s.now) }
    ensures counted { steps.new ≡ counted_on steps.old 1 }
{
    steps.tick();
    flow.edge(alloc, n, m, s)
}

impl<S: Drop> Work<S> {
    /// The state of a node rises to a state above it, so its edges have to be evaluated again.
    fn rise(&mut self, m: NodeNo, state: S)
        requires table { m.0 < length self.old.table }
        requires rises { m.0 < length self.old.rises }
        requires list { m.0 < length self.old.list }
        ensures table { self.new.table ≡ slice_set self.old.table m.0 state }
        ensures rises { self.new.rises ≡ slice_set self.old.rises m.0 (counted_on (slice_index self.old.rises m.0) 1) }
        ensures list { self.new.list ≡ slice_set self.old.list m.0 true }
    {
        let count = self.rises.as_slice()[m.0 as usize];
        self.rises.set(m.0 as usize, count.saturating_add(1));
        self.table.set(m, state);
        self.list.put(m);
    }
}

/// Evaluates an edge. Where its end isn't above what comes of it, the end's state rises to their join.
fn follow<F: Flow, L>(
    alloc: Global,
    flow: &F,
    n: NodeNo,
    m: NodeNo,
    work: &mut Work<F::State>,
    steps: &mut Steps<L>,
) -> Result<(), Memory>
    requires work { IsWork (F.meaning flow.now) (F.proper flow.now) work.old }
    requires edge { HasEdge (F.meaning flow.now) n m }
    ensures rises { OnOk result (Rises (F.meaning flow.now) (F.proper flow.now) work.old work.new) }
    ensures edge { OnOk result (HoldsOrWaits (F.meaning flow.now) work.new n m) }
    ensures counted { OnOk result (steps.new ≡ counted_on steps.old 1) }
{
    let moved = evaluate(alloc, flow, n, m, work.table.at(n), steps)?;
    if flow.below(&moved, work.table.at(m)) {
        return Ok(());
    }
    let risen = flow.join(alloc, work.table.at(m), &moved)?;
    work.rise(m, risen);
    Ok(())
}

/// Evaluates each edge from a node once.
fn visit<F: Flow, L>(
    alloc: Global,
    flow: &F,
    n: NodeNo,
    nexts: &[NodeNo],
    work: &mut Work<F::State>,
    steps: &mut Steps<L>,
) -> Result<(), Memory>
    requires work { IsWork (F.meaning flow.now) (F.proper flow.now) work.old }
    requires there { n.0 < (F.meaning flow.now).size }
    requires nexts { nexts.now ≡ (F.meaning flow.now).nexts n }
    ensures rises { OnOk result (Rises (F.meaning flow.now) (F.proper flow.now) work.old work.new) }
    ensures edges { OnOk result ((m : NodeNo) → Contains nexts.now m → HoldsOrWaits (F.meaning flow.now) work.new n m) }
    ensures at_most { OnOk result (steps.new ≤ steps.old + length nexts.now) }
    ensures at_least { OnOk result (counted_on steps.old (length nexts.now) ≤ steps.new) }
{
    for m in nexts {
        follow(alloc, flow, n, *m, work, steps)?;
    }
    Ok(())
}

/// Takes nodes until none waits, and evaluates the edges of each.
pub(crate) fn settle<F: Flow, L>(
    alloc: Global,
    flow: &F,
    graph: &[List<NodeNo>],
    work: &mut Work<F::State>,
    steps: &mut Steps<L>,
) -> Result<(), Memory>
    requires graph { IsGraph (F.meaning flow.now) graph.now }
    requires under_way { IsUnderWay (F.meaning flow.now) (F.proper flow.now) work.old.table work.old steps.old }
    ensures under_way { OnOk result (IsUnderWay (F.meaning flow.now) (F.proper flow.now) work.old.table work.new steps.new) }
    ensures none { OnOk result (NoneWaits work.new.list) }
{
    while let Some(n) = work.list.take() {
        visit(alloc, flow, n, graph[n.0 as usize].as_slice(), work, steps)?;
    }
    Ok(())
}
