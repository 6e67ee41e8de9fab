//! Answers: a project or a refusal, piece by piece.

use po_base::{FileNo, FunNo, Memory, Text};
use po_ir::{Callee, Effects, Function, Global as Object, Instr, Node, Project, call_sites, valid};
use po_link::LinkFail;
use std::alloc::Global;

/// How many functions of a project, and nodes of a function, are written.
const SHOWN: usize = 8;

fn put(out: &mut Vec<u8>, bytes: &[u8]) -> Result<(), Memory> {
    out.extend_from_slice(bytes)?;
    Ok(())
}

fn put_number(alloc: Global, out: &mut Vec<u8>, number: u64) -> Result<(), Memory> {
    let text = format!(in alloc; "{number}")?;
    put(out, text.as_bytes())
}

/// Writes a sign and a number.
fn put_signed(alloc: Global, out: &mut Vec<u8>, sign: &[u8], number: u64) -> Result<(), Memory> {
    put(out, sign)?;
    put_number(alloc, out, number)
}

fn put_flag(out: &mut Vec<u8>, holds: bool, letter: &[u8]) -> Result<(), Memory> {
    if holds { put(out, letter) } else { Ok(()) }
}

/// What of a node linking changes: the function that it calls, by number or by name, the number of its object or literal.
fn show_node(alloc: Global, out: &mut Vec<u8>, node: &Node) -> Result<(), Memory> {
    match &node.instr {
        Instr::Call {
            callee: Callee::Fun(FunNo(number)),
            ..
        } => put_signed(alloc, out, b">", *number as u64),
        Instr::Call {
            callee: Callee::Extern(name),
            ..
        } => put(out, name.bytes()),
        Instr::Lib { lib, .. } => put_signed(alloc, out, b"%", lib.0 as u64),
        Instr::AddrGlobal { global, .. } => put_signed(alloc, out, b"&", global.0 as u64),
        Instr::AddrStr { text, .. } => put_signed(alloc, out, b"$", text.0 as u64),
        _ => put(out, b"."),
    }
}

fn show_nodes(alloc: Global, out: &mut Vec<u8>, nodes: &[Node]) -> Result<(), Memory> {
    for node in nodes.iter().take(SHOWN) {
        show_node(alloc, out, node)?;
    }
    Ok(())
}

fn show_effects(out: &mut Vec<u8>, effects: Option<&Effects>) -> Result<(), Memory> {
    match effects {
        Some(effects) => {
            put_flag(out, effects.frees, b"!f")?;
            put_flag(out, effects.writes, b"!w")
        }
        None => put(out, b"!"),
    }
}

/// The places at which the function is called, as `<FUNCTION.NODE`.
fn show_sites(
    alloc: Global,
    out: &mut Vec<u8>,
    project: &Project,
    fun: FunNo,
) -> Result<(), Memory> {
    let sites = call_sites(alloc, project, fun)?;
    for (fun, node) in sites.as_slice() {
        put_signed(alloc, out, b"<", fun.0 as u64)?;
        put_signed(alloc, out, b".", node.0 as u64)?;
    }
    Ok(())
}

/// `FILE/NAME!EFFECTS(NODES)`, and `*` where the graph is valid.
fn show_function(
    alloc: Global,
    out: &mut Vec<u8>,
    function: &Function,
    effects: Option<&Effects>,
) -> Result<(), Memory> {
    put_signed(alloc, out, b" ", function.file.0 as u64)?;
    put(out, b"/")?;
    put(out, function.name.bytes())?;
    show_effects(out, effects)?;
    put(out, b"(")?;
    show_nodes(alloc, out, function.graph.nodes.as_slice())?;
    put(out, b")")?;
    put_flag(out, valid(&function.graph), b"*")
}

fn show_functions(alloc: Global, out: &mut Vec<u8>, project: &Project) -> Result<(), Memory> {
    let functions = project.functions.as_slice().iter();
    for (place, function) in functions.enumerate().take(SHOWN) {
        show_function(alloc, out, function, project.effects.get(place))?;
        show_sites(alloc, out, project, FunNo(place as u32))?;
    }
    Ok(())
}

/// `NAME=SIZE/ALIGNMENT/FLAGS/TYPE`
fn show_object(alloc: Global, out: &mut Vec<u8>, object: &Object) -> Result<(), Memory> {
    put(out, b" ")?;
    put(out, object.name.bytes())?;
    put_signed(alloc, out, b"=", object.size)?;
    put_signed(alloc, out, b"/", object.align)?;
    put(out, b"/")?;
    put_flag(out, object.constant, b"c")?;
    put_flag(out, object.local, b"l")?;
    put_flag(out, object.defined, b"d")?;
    put(out, b"/")?;
    put(out, object.ty.text.bytes())
}

fn show_objects(alloc: Global, out: &mut Vec<u8>, objects: &[Object]) -> Result<(), Memory> {
    for object in objects {
        show_object(alloc, out, object)?;
    }
    Ok(())
}

fn show_texts(out: &mut Vec<u8>, sign: &[u8], texts: &[Text]) -> Result<(), Memory> {
    for text in texts {
        put(out, sign)?;
        put(out, text.bytes())?;
    }
    Ok(())
}

fn show_project(alloc: Global, out: &mut Vec<u8>, project: &Project) -> Result<(), Memory> {
    put_signed(alloc, out, b"files ", project.files.len() as u64)?;
    put_signed(alloc, out, b" functions ", project.functions.len() as u64)?;
    show_functions(alloc, out, project)?;
    show_objects(alloc, out, project.globals.as_slice())?;
    show_texts(out, b" ~", project.texts.as_slice())?;
    for spot in project.opaque.as_slice() {
        put_signed(alloc, out, b" ?", spot.line as u64)?;
    }
    Ok(())
}

fn show_pair(
    alloc: Global,
    out: &mut Vec<u8>,
    word: &[u8],
    name: &Text,
    a: FileNo,
    b: FileNo,
) -> Result<(), Memory> {
    put(out, word)?;
    put(out, name.bytes())?;
    put_signed(alloc, out, b" ", a.0 as u64)?;
    put_signed(alloc, out, b" ", b.0 as u64)
}

fn show_fail(alloc: Global, out: &mut Vec<u8>, fail: &LinkFail) -> Result<(), Memory> {
    match fail {
        LinkFail::TwoBodies { name, a, b } => show_pair(alloc, out, b"two-bodies ", name, *a, *b),
        LinkFail::Clash { name, a, b } => show_pair(alloc, out, b"clash ", name, *a, *b),
        LinkFail::TooLarge { count } => put_signed(alloc, out, b"too-large ", *count),
        LinkFail::Memory => put(out, b"memory"),
    }
}

/// Writes what linking answers.
pub(crate) fn show_outcome(
    alloc: Global,
    out: &mut Vec<u8>,
    outcome: &Result<Project, LinkFail>,
) -> Result<(), Memory> {
    match outcome {
        Ok(project) => show_project(alloc, out, project),
        Err(fail) => show_fail(alloc, out, fail),
    }
}
