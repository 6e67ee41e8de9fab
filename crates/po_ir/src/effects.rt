// What each function may do to memory.
ghost use Rattle.std.specs.Prelude.{◌≡◌, ◌==◌, length, map, IfOk, slice_get};
ghost use Rattle.po_ir.specs.Reaching.{effects_in, does, AreReaching, AreEffects};
ghost use Rattle.po_ir.specs.Reaching as effect;
ghost use Rattle.po_ir.specs.Paired.{ArePaired};
ghost use Rattle.po_ir.specs.declared.instr.Instr.{Instr as Instruction};
ghost use Rattle.std.specs.Prelude.{Bool};

use crate::calls::callers;
use crate::instr::{Callee, Instr, Reason};
use crate::project::{Effects, Function, Project};
use crate::reach::reach;
use po_base::{LibNo, List, Memory};
use std::alloc::Global;
use std::collections::BTreeMap;

fn library_effects(library: &BTreeMap<u32, Effects>, lib: LibNo) -> Effects
    ensures { result ≡ effects_in library.now lib }
{
    match library.get(&lib.0) {
        Some(effects) => *effects,
        None => Effects {
            frees: true,
            writes: true,
        },
    }
}

fn frees_here(library: &BTreeMap<u32, Effects>, instr: &Instr) -> bool
    ensures { result ≡ effect.frees_here (effects_in library.now) instr.now }
{
    match instr {
        Instr::Lib { lib, .. } => library_effects(library, *lib).frees,
        Instr::Call {
            callee: Callee::Extern(_),
            ..
        } => true,
        Instr::Never {
            reason: Reason::Unread,
        } => true,
        _ => false,
    }
}

fn writes_here(library: &BTreeMap<u32, Effects>, instr: &Instr) -> bool
    ensures { result ≡ effect.writes_here (effects_in library.now) instr.now }
{
    match instr {
        Instr::Store { .. } => true,
        Instr::CopyBytes { .. } => true,
        Instr::Fill { .. } => true,
        Instr::Lib { lib, .. } => library_effects(library, *lib).writes,
        Instr::Call {
            callee: Callee::Extern(_),
            ..
        } => true,
        Instr::Never {
            reason: Reason::Unread,
        } => true,
        _ => false,
    }
}

fn frees_itself(library: &BTreeMap<u32, Effects>, function: &Function) -> bool
    ensures { result ≡ does (effect.frees_here (effects_in library.now)) function.now }
{
    let nodes = function.graph.nodes.as_slice();
    nodes.iter().any(|node| frees_here(library, &node.instr))
}

fn writes_itself(library: &BTreeMap<u32, Effects>, function: &Function) -> bool
    ensures { result ≡ does (effect.writes_here (effects_in library.now)) function.now }
{
    let nodes = function.graph.nodes.as_slice();
    nodes.iter().any(|node| writes_here(library, &node.instr))
}

/// Which functions free a block by themselves.
fn freeing(
    alloc: Global,
    library: &BTreeMap<u32, Effects>,
    functions: &[Function],
) -> Result<List<bool>, Memory>
    ensures { IfOk result (λ here. here ≡ map (does (effect.frees_here (effects_in library.now))) functions.now) }
{
    let mut here = List::new(alloc);
    for function in functions {
        here.push(frees_itself(library, function))?;
    }
    Ok(here)
}

/// Which functions write to a block by themselves.
fn writing(
    alloc: Global,
    library: &BTreeMap<u32, Effects>,
    functions: &[Function],
) -> Result<List<bool>, Memory>
    ensures { IfOk result (λ here. here ≡ map (does (effect.writes_here (effects_in library.now))) functions.now) }
{
    let mut here = List::new(alloc);
    for function in functions {
        here.push(writes_itself(library, function))?;
    }
    Ok(here)
}

/// Which functions' calls reach what these do by themselves.
fn reaching(alloc: Global, project: &Project, here: &List<bool>) -> Result<List<bool>, Memory>
    requires { length here.now ≡ length project.now.functions }
    ensures { IfOk result (λ marks. (test : Instruction → Bool) → here.now ≡ map (does test) project.now.functions → AreReaching project.now test marks) }
{
    let callers = callers(alloc, project)?;
    reach(alloc, &callers, here)
}

fn paired(alloc: Global, frees: &List<bool>, writes: &List<bool>) -> Result<List<Effects>, Memory>
    requires { length frees.now ≡ length writes.now }
    ensures { IfOk result (ArePaired frees.now writes.now) }
{
    let mut effects = List::new(alloc);
    for place in 0..frees.len() {
        effects.push(Effects {
            frees: frees.as_slice()[place],
            writes: writes.as_slice()[place],
        })?;
    }
    Ok(effects)
}

/// What each function of the project may do to memory, over the library functions of these effects: what its calls reach. In
/// time linear in the project but for the logarithm of the number of library functions.
pub fn function_effects(
    alloc: Global,
    library: &BTreeMap<u32, Effects>,
    project: &Project,
) -> Result<List<Effects>, Memory>
    ensures { IfOk result (AreEffects (effects_in library.now) project.now) }
{
    let functions = project.functions.as_slice();
    let freeing = freeing(alloc, library, functions)?;
    let frees = reaching(alloc, project, &freeing)?;
    let writing = writing(alloc, library, functions)?;
    let writes = reaching(alloc, project, &writing)?;
    paired(alloc, &frees, &writes)
}
