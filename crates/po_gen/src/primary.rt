// The primary obligations of a node, in their order.
ghost use Rattle.std.specs.Prelude.{◌≡◌, ◌++◌, All, IfOk, OnOk};
ghost use Rattle.po_ir.specs.IntTypes.{IsTypeOfTarget, types_in, HasTypesOfTarget, AreTypesOfTarget};
ghost use Rattle.po_gen.specs.Gen.{gen_instr, gen};

use crate::asks::asks;
use crate::library::Library;
use crate::reads::reads;
use po_base::{FunNo, List, Memory, NodeNo};
use po_ir::{Graph, Instr, Project};
use po_pred::Pred;
use std::alloc::Global;

fn add_all(list: &mut List<Pred>, more: &[Pred]) -> Result<(), Memory>
    ensures { OnOk result (list.new ≡ list.old ++ more.now) }
{
    for predicate in more {
        list.push(*predicate)?;
    }
    Ok(())
}

fn of_instr<L: Library>(
    alloc: Global,
    library: &L,
    g: &Graph,
    instr: &Instr,
) -> Result<List<Pred>, Memory>
    requires graph { HasTypesOfTarget g.now }
    requires types { All IsTypeOfTarget (types_in instr.now) }
    ensures { IfOk result (λ list. list ≡ gen_instr (L.meaning library.now) g.now instr.now) }
{
    let mut list = reads(alloc, g, instr)?;
    let asked = asks(alloc, library, g, instr)?;
    add_all(&mut list, asked.as_slice())?;
    Ok(list)
}

/// The primary obligations of a node of a function, in the order in which they are checked; none where no such node is.
/// In time in the number of the node's operands times its logarithm, but for what the library takes.
pub fn obligations<L: Library>(
    alloc: Global,
    library: &L,
    p: &Project,
    f: FunNo,
    n: NodeNo,
) -> Result<List<Pred>, Memory>
    requires { AreTypesOfTarget p.now }
    ensures { IfOk result (λ list. list ≡ gen (L.meaning library.now) p.now f n) }
{
    match p.functions.get(f.0 as usize) {
        None => Ok(List::new(alloc)),
        Some(function) => match function.graph.nodes.get(n.0 as usize) {
            None => Ok(List::new(alloc)),
            Some(node) => of_instr(alloc, library, &function.graph, &node.instr),
        },
    }
}
