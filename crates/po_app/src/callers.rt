ghost use Rattle.std.specs.Prelude.{◌≡◌, ◌==◌, ◌<◌, ◌^◌, [], ◌∷◌, cond, length, replicate, IfOk, OnOk};
ghost use Rattle.po_app.specs.Book.{node_call, function_calls};
ghost use Rattle.po_app.specs.Callers.{AreCallers, Gains};
ghost use Rattle.po_app.specs.Ranges.{IsSmallProject};

use po_base::{FunNo, List, Memory, NodeNo};
use po_ir::{Callee, Function, Instr, Node, Project};
use std::alloc::Global;

/// The places of calls: the calling function and the node.
pub(crate) type Sites = List<(FunNo, NodeNo)>;

/// Notes a call of a function of the list.
fn add_call(callers: &mut Vec<Sites>, callee: FunNo, site: (FunNo, NodeNo)) -> Result<(), Memory>
    ensures { OnOk result (Gains callers.old.items callers.new.items (λ f. cond (callee.0 == f.0) (site ∷ []) [])) }
{
    let index = callee.0 as usize;
    if index < callers.len() {
        callers[index].push(site)?;
    }
    Ok(())
}

/// Notes the call of a node, where it is one.
fn add_node(callers: &mut Vec<Sites>, fun: FunNo, at: NodeNo, node: &Node) -> Result<(), Memory>
    ensures { OnOk result (Gains callers.old.items callers.new.items (λ f. node_call f fun.0 at.0 node.now)) }
{
    match node.instr {
        Instr::Call {
            callee: Callee::Fun(callee),
            ..
        } => add_call(callers, callee, (fun, at)),
        _ => Ok(()),
    }
}

/// Notes the calls of a function's nodes.
fn add_function(callers: &mut Vec<Sites>, fun: FunNo, function: &Function) -> Result<(), Memory>
    requires { length function.now.graph.nodes < 2 ^ 32 }
    ensures { OnOk result (Gains callers.old.items callers.new.items (λ f. function_calls f fun.0 function.now)) }
{
    let mut at = 0;
    for node in function.graph.nodes.as_slice() {
        add_node(callers, fun, NodeNo(at), node)?;
        at += 1;
    }
    Ok(())
}

/// So many empty lists.
fn no_calls(alloc: Global, count: usize) -> Result<Vec<Sites>, Memory>
    ensures { IfOk result (λ callers. callers.items ≡ replicate count []) }
{
    let mut callers = List::new(alloc);
    for _ in 0..count {
        callers.push(List::new(alloc))?;
    }
    Ok(callers.into_vec())
}

/// The calls of each function of a project, in one pass: the time is linear in the project.
pub(crate) fn callers(alloc: Global, project: &Project) -> Result<Vec<Sites>, Memory>
    requires { IsSmallProject project.now }
    ensures { IfOk result (λ callers. AreCallers project.now callers.items) }
{
    let mut callers = no_calls(alloc, project.functions.len())?;
    let mut fun = 0;
    for function in project.functions.as_slice() {
        add_function(&mut callers, FunNo(fun), function)?;
        fun += 1;
    }
    Ok(callers)
}
