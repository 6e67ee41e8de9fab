// The edges of a flow, asked for once.
ghost use Rattle.std.specs.Prelude.{IfOk};
ghost use Rattle.po_flow.specs.Graph.{IsGraph};

use crate::flow::Flow;
use po_base::{List, Memory, NodeNo};
use std::alloc::Global;

/// The nexts of each node. The flow is asked once for each.
pub(crate) fn graph_of<F: Flow>(alloc: Global, flow: &F) -> Result<List<List<NodeNo>>, Memory>
    ensures { IfOk result (λ graph. IsGraph (F.meaning flow.now) graph) }
{
    let mut graph = List::new(alloc);
    for n in 0..flow.nodes() {
        graph.push(flow.nexts(alloc, NodeNo(n))?)?;
    }
    Ok(graph)
}
