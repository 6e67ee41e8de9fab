// The least closed table of a flow.
ghost use Rattle.std.specs.Prelude.{◌≡◌, IfOk, OnErr};
ghost use Rattle.po_flow.specs.Least.{IsLeast};
ghost use Rattle.po_flow.specs.Counting.{AreCounted, AreRises};

use crate::flow::Flow;
use crate::graph::graph_of;
use crate::order::order_of;
use crate::steps::Steps;
use crate::table::Table;
use crate::work::{Work, first_work, settle};
use po_base::{List, Memory};
use std::alloc::Global;

/// A least table, and how often the state of each node rose on the way to it. A count that would pass the greatest
/// 64-bit number stands there.
#[derive(Drop)]
pub struct Counted<S> {
    pub table: Table<S>,
    pub rises: List<u64>,
}

/// The least closed table of a flow, where each evaluation of an edge is one step.
///
/// Nodes that wait are taken in reverse postorder, each loop before what follows it. An edge is evaluated when its
/// source is taken, which is once at first, and again only where the source's state has risen since. Taking a node
/// takes time in the logarithm of the nodes' number. After `Memory` no step was counted.
pub fn least_table_counted<F: Flow, L>(
    alloc: Global,
    flow: &F,
    steps: &mut Steps<L>,
) -> Result<Counted<F::State>, Memory>
    ensures least { IfOk result (λ counted. IsLeast (F.meaning flow.now) (F.proper flow.now) counted.table) }
    ensures rises { IfOk result (λ counted. AreRises (F.meaning flow.now) counted.table counted.rises) }
    ensures steps { IfOk result (λ counted. AreCounted (F.meaning flow.now) counted.rises steps.old steps.new) }
    ensures err { OnErr result (steps.new ≡ steps.old) }
{
    let graph = graph_of(alloc, flow)?;
    let order = order_of(alloc, flow.nodes(), graph.as_slice())?;
    let mut work = first_work(alloc, flow, order)?;
    let mut taken = Steps::<L>::new();
    settle(alloc, flow, graph.as_slice(), &mut work, &mut taken)?;
    steps.add(&taken);
    let Work {
        table,
        rises,
        list: _,
    } = work;
    Ok(Counted { table, rises })
}

/// Evaluations that nobody asks for.
struct Unasked;

/// The least closed table of a flow: it has proper states alone, is closed, and is below every closed table of
/// proper states. Edges are evaluated as by [`least_table_counted`].
pub fn least_table<F: Flow>(alloc: Global, flow: &F) -> Result<Table<F::State>, Memory>
    ensures { IfOk result (λ table. IsLeast (F.meaning flow.now) (F.proper flow.now) table) }
{
    let mut steps = Steps::<Unasked>::new();
    let counted = least_table_counted(alloc, flow, &mut steps)?;
    let Counted { table, rises: _ } = counted;
    Ok(table)
}
