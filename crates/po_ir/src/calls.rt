// The calls of a project, by the function that is called.
ghost use Rattle.std.specs.Prelude.{◌≡◌, ◌++◌, [], ◌∷◌, ◌==◌, cond, length, replicate, IfOk, OnOk};
ghost use Rattle.po_ir.specs.Calls.{node_call, function_calls};
ghost use Rattle.po_ir.specs.Calls as calls;
ghost use Rattle.po_ir.specs.Callers.{AreCallers, Gains};

use crate::graph::Node;
use crate::instr::{Callee, Instr};
use crate::project::{Function, Project};
use po_base::{FunNo, List, Memory, NodeNo};
use std::alloc::Global;

/// The places of calls: the calling function and the node.
pub(crate) type Sites = List<(FunNo, NodeNo)>;

/// A place in a list as a number of 32 bits. What they don't count is want of memory: a list of so many parts takes more than 2^36
/// bytes.
pub fn counted(place: usize) -> Result<u32, Memory>
    ensures { IfOk result (λ number. number ≡ place) }
{
    if place > 4_294_967_295 {
        return Err(Memory);
    }
    Ok(place as u32)
}

fn is_call_of(callee: FunNo, instr: &Instr) -> bool
    ensures { result ≡ calls.is_call_of callee instr.now }
{
    match instr {
        Instr::Call {
            callee: Callee::Fun(function),
            ..
        } => function.0 == callee.0,
        _ => false,
    }
}

fn add_site(
    sites: &mut Sites,
    callee: FunNo,
    fun: FunNo,
    at: NodeNo,
    node: &Node,
) -> Result<(), Memory>
    ensures { OnOk result (sites.new ≡ sites.old ++ node_call callee fun.0 at.0 node.now) }
{
    if is_call_of(callee, &node.instr) {
        sites.push((fun, at))?;
    }
    Ok(())
}

fn add_sites(
    sites: &mut Sites,
    callee: FunNo,
    fun: FunNo,
    function: &Function,
) -> Result<(), Memory>
    ensures { OnOk result (sites.new ≡ sites.old ++ function_calls callee fun.0 function.now) }
{
    for (place, node) in function.graph.nodes.as_slice().iter().enumerate() {
        let at = NodeNo(counted(place)?);
        add_site(sites, callee, fun, at, node)?;
    }
    Ok(())
}

/// The nodes at which a function of the project is called, by function and node. In time linear in the project.
pub fn call_sites(
    alloc: Global,
    project: &Project,
    callee: FunNo,
) -> Result<List<(FunNo, NodeNo)>, Memory>
    ensures { IfOk result (λ sites. sites ≡ calls.call_sites project.now callee) }
{
    let mut sites = List::new(alloc);
    for (place, function) in project.functions.as_slice().iter().enumerate() {
        let fun = FunNo(counted(place)?);
        add_sites(&mut sites, callee, fun, function)?;
    }
    Ok(sites)
}

/// Notes a call of a function of the list.
fn add_call(callers: &mut Vec<Sites>, callee: FunNo, site: (FunNo, NodeNo)) -> Result<(), Memory>
    ensures { OnOk result (Gains callers.old.items callers.new.items (λ f. cond (callee.0 == f.0) (site ∷ []) [])) }
{
    let index = callee.0 as usize;
    if index < callers.len() {
        callers[index].push(site)?;
    }
    Ok(())
}

/// Notes the call of a node, where it is one.
fn add_node(callers: &mut Vec<Sites>, fun: FunNo, at: NodeNo, node: &Node) -> Result<(), Memory>
    ensures { OnOk result (Gains callers.old.items callers.new.items (λ f. node_call f fun.0 at.0 node.now)) }
{
    match node.instr {
        Instr::Call {
            callee: Callee::Fun(callee),
            ..
        } => add_call(callers, callee, (fun, at)),
        _ => Ok(()),
    }
}

/// Notes the calls of a function's nodes.
fn add_function(callers: &mut Vec<Sites>, fun: FunNo, function: &Function) -> Result<(), Memory>
    ensures { OnOk result (Gains callers.old.items callers.new.items (λ f. function_calls f fun.0 function.now)) }
{
    for (place, node) in function.graph.nodes.as_slice().iter().enumerate() {
        let at = NodeNo(counted(place)?);
        add_node(callers, fun, at, node)?;
    }
    Ok(())
}

/// So many empty lists.
fn no_calls(alloc: Global, count: usize) -> Result<Vec<Sites>, Memory>
    ensures { IfOk result (λ callers. callers.items ≡ replicate count []) }
{
    let mut callers = List::new(alloc);
    for _ in 0..count {
        callers.push(List::new(alloc))?;
    }
    Ok(callers.into_vec())
}

/// The calls of each function of a project, in one pass: the time is linear in the project.
pub(crate) fn callers(alloc: Global, project: &Project) -> Result<Vec<Sites>, Memory>
    ensures { IfOk result (λ callers. AreCallers project.now callers.items) }
{
    let mut callers = no_calls(alloc, project.functions.len())?;
    for (place, function) in project.functions.as_slice().iter().enumerate() {
        let fun = FunNo(counted(place)?);
        add_function(&mut callers, fun, function)?;
    }
    Ok(callers)
}
