// Functions with the numbers of the project.
ghost use Rattle.std.specs.Prelude.{◌≡◌, ◌++◌, map, IfOk, OnOk};
ghost use Rattle.std.specs.Option.{option_map_or};
ghost use Rattle.po_ir.specs.declared.instr.Instr.TheVariants as instruction;
ghost use Rattle.po_ir.specs.declared.instr.Callee.TheVariants.{Fun};
ghost use Rattle.po_link.specs.Joined.{Naming, renamed, renamed_node, renamed_graph, joined_function};
ghost use Rattle.po_link.specs.Scoped.{IsScope};

use crate::scope::Scope;
use po_base::{FileNo, LibNo, List, Memory, Opnd, RegNo};
use po_ir::{Callee, Function, Graph, Instr, Node};
use std::alloc::Global;

/// A call of a library function, which is one of a function where a file defines it.
fn rename_lib(
    scope: &Scope<'_>,
    to: Option<RegNo>,
    lib: LibNo,
    args: List<Opnd>,
    strings: List<u32>,
) -> Instr
    ensures { (names : Naming) → IsScope scope.now names → result ≡ renamed names (instruction.Lib to lib args strings) }
{
    match scope.lib(lib) {
        Some(function) => Instr::Call {
            to,
            callee: Callee::Fun(function),
            args,
            strings,
        },
        None => Instr::Lib {
            to,
            lib,
            args,
            strings,
        },
    }
}

/// The instruction with the numbers of the project.
fn rename(scope: &Scope<'_>, instr: Instr) -> Result<Instr, Memory>
    ensures { (names : Naming) → IsScope scope.now names → IfOk result (λ i. i ≡ renamed names instr) }
{
    match instr {
        Instr::AddrGlobal { to, global } => Ok(Instr::AddrGlobal {
            to,
            global: scope.global(global),
        }),
        Instr::AddrStr { to, text } => Ok(Instr::AddrStr {
            to,
            text: scope.text(text)?,
        }),
        Instr::Call {
            to,
            callee,
            args,
            strings,
        } => Ok(Instr::Call {
            to,
            callee: scope.callee(callee),
            args,
            strings,
        }),
        Instr::Lib {
            to,
            lib,
            args,
            strings,
        } => Ok(rename_lib(scope, to, lib, args, strings)),
        other => Ok(other),
    }
}

fn rename_node(scope: &Scope<'_>, node: Node) -> Result<Node, Memory>
    ensures { (names : Naming) → IsScope scope.now names → IfOk result (λ n. n ≡ renamed_node names node) }
{
    let Node { instr, spot } = node;
    Ok(Node {
        instr: rename(scope, instr)?,
        spot,
    })
}

fn rename_nodes(alloc: Global, scope: &Scope<'_>, nodes: List<Node>) -> Result<List<Node>, Memory>
    ensures { (names : Naming) → IsScope scope.now names → IfOk result (λ all. all ≡ map (renamed_node names) nodes) }
{
    let mut all = List::new(alloc);
    for node in nodes.into_vec() {
        all.push(rename_node(scope, node)?)?;
    }
    Ok(all)
}

fn join_function(
    alloc: Global,
    scope: &Scope<'_>,
    file: FileNo,
    function: Function,
) -> Result<Function, Memory>
    ensures { (names : Naming) → IsScope scope.now names → IfOk result (λ f. f ≡ joined_function names file.0 function) }
{
    let Function {
        file: _,
        name,
        local,
        result,
        graph,
    } = function;
    let Graph {
        nodes,
        regs,
        slots,
        params,
    } = graph;
    Ok(Function {
        file,
        name,
        local,
        result,
        graph: Graph {
            nodes: rename_nodes(alloc, scope, nodes)?,
            regs,
            slots,
            params,
        },
    })
}

/// Adds the functions of a file as they are in the project.
pub(crate) fn join_functions(
    alloc: Global,
    scope: &Scope<'_>,
    file: FileNo,
    functions: List<Function>,
    all: &mut List<Function>,
) -> Result<(), Memory>
    ensures { (names : Naming) → IsScope scope.now names → OnOk result (all.new ≡ all.old ++ map (joined_function names file.0) functions) }
{
    for function in functions.into_vec() {
        all.push(join_function(alloc, scope, file, function)?)?;
    }
    Ok(())
}
