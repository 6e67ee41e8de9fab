// Labels, and how nodes are put in their places.
ghost use Rattle.std.specs.Prelude.{ℕ, ◌≡◌, ◌≢◌, length, Some, slice_get, Contains};
ghost use Rattle.po_ir.specs.declared.graph.Node.{Node as Made};
ghost use Rattle.po_draft.specs.Sketches.{at_label};
ghost use Rattle.po_draft.specs.Filling.{Settles, IsFilledAt};
ghost use Rattle.po_draft.specs.Waiting.{GoesTo, IsRising, AreFilled};

use crate::waiting::take_last;
use po_base::{List, NodeNo};
use po_ir::{Instr, Node};

/// From here on the number of a node is a label: it stands for a node that isn't known yet. A draft has fewer nodes.
pub const FIRST_LABEL: u32 = 2_147_483_648;

/// The node, where it is the label, and else the target.
fn settled(target: NodeNo, label: NodeNo, place: NodeNo) -> NodeNo
    ensures { result.0 ≡ at_label label.0 place.0 target.0 }
{
    if target.0 == label.0 {
        return place;
    }
    target
}

/// The instruction with a node in the label's place, where it goes to nodes.
fn settled_instr(instr: &Instr, label: NodeNo, place: NodeNo) -> Option<Instr>
    ensures { Settles label.0 place.0 instr.now result }
{
    match instr {
        Instr::If {
            op,
            ty,
            a,
            b,
            yes,
            no,
        } => Some(Instr::If {
            op: *op,
            ty: *ty,
            a: *a,
            b: *b,
            yes: settled(*yes, label, place),
            no: settled(*no, label, place),
        }),
        Instr::Jump { next } => Some(Instr::Jump {
            next: settled(*next, label, place),
        }),
        _ => None,
    }
}

/// Puts a node in the label's place at one node, where there is one.
fn fill_at(nodes: &mut Vec<Node>, i: usize, label: NodeNo, place: NodeNo)
    ensures { IsFilledAt i label.0 place.0 nodes.old.items nodes.new.items }
{
    if i >= nodes.len() {
        return;
    }
    if let Some(instr) = settled_instr(&nodes[i].instr, label, place) {
        nodes[i].instr = instr;
    }
}

/// Puts a node in the label's place in those of the waiting nodes that stand from a place on. The others are left.
pub(crate) fn fill_waiting(
    nodes: &mut Vec<Node>,
    waiting: &mut List<usize>,
    from: usize,
    label: NodeNo,
    place: NodeNo,
)
    requires different { place.0 ≢ label.0 }
    requires all { (i : ℕ) (m : Made) → slice_get nodes.old.items i ≡ Some m → GoesTo m.instr label.0 → Contains waiting.old i }
    requires rising { IsRising (length nodes.old.items) waiting.old }
    ensures { AreFilled from label.0 place.0 nodes.old.items nodes.new.items waiting.new }
{
    while let Some(i) = take_last(waiting, from) {
        fill_at(nodes, i, label, place);
    }
}
