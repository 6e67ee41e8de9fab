// The nodes of a draft, with those that wait for each label.
ghost use Rattle.std.specs.Prelude.{◌≡◌, ◌<◌, ◌≤◌, ◌++◌, ◌∷◌, [], length, OnOk, OnErr};
ghost use Rattle.po_draft.specs.Sketches.{first_label, IsFilled};

use crate::filling::{FIRST_LABEL, fill_waiting};
use crate::vectors::push;
use crate::waiting::keep;
use po_base::{List, Memory, NodeNo};
use po_ir::Node;
use std::alloc::Global;
use std::marker::Model;

/// The nodes of a graph that is being made. Those that go to a label are also kept by their labels, so that a label gets its node in just these.
#[derive(Drop)]
pub(crate) struct Nodes {
    nodes: Vec<Node>,
    /// For each label the numbers of nodes that wait for it, the least first.
    waiting: Vec<List<usize>>,
}

impl Model for Nodes {
    ghost use Rattle.std.specs.Prelude.{List};
    ghost use Rattle.po_ir.specs.declared.graph.Node.{Node as Made};

    ghost Value = { List Made };

    ghost use Rattle.po_draft.specs.Waiting.{AreWaiting};

    ghost view = { λ n. n.nodes.items };

    ghost invariant = { λ n. AreWaiting n.nodes.items n.waiting.items };
}

impl Nodes {
    /// No nodes. It takes no memory yet.
    pub(crate) fn new(alloc: Global) -> Nodes
        ensures { result ≡ [] }
    {
        Nodes {
            nodes: Vec::new(alloc),
            waiting: Vec::new(alloc),
        }
    }

    /// How many there are, in constant time.
    pub(crate) fn len(&self) -> usize
        ensures { result ≡ length self.now }
    {
        self.nodes.len()
    }

    /// Puts a node behind the others, in constant time on the average; a label that is used for the first time takes room for those before it.
    pub(crate) fn push(&mut self, node: Node) -> Result<(), Memory>
        ensures ok { OnOk result (self.new ≡ self.old ++ node ∷ []) }
        ensures err { OnErr result (self.new ≡ self.old) }
    {
        keep(&mut self.waiting, &node.instr, self.nodes.len())?;
        push(&mut self.nodes, node)?;
        Ok(())
    }

    /// A label stands for a node, in each node from a place on. In time linear in the number of nodes that wait for it from there on.
    pub(crate) fn fill(&mut self, from: NodeNo, label: NodeNo, place: NodeNo)
        requires label { first_label ≤ label.0 }
        requires place { place.0 < first_label }
        ensures { IsFilled from.0 label.0 place.0 self.old self.new }
    {
        let k = (label.0 - FIRST_LABEL) as usize;
        if k < self.waiting.len() {
            fill_waiting(
                &mut self.nodes,
                &mut self.waiting[k],
                from.0 as usize,
                label,
                place,
            );
        }
    }

    /// The nodes as a list.
    pub(crate) fn into_list(self) -> List<Node>
        ensures { result ≡ self }
    {
        List::from_vec(self.nodes)
    }
}
