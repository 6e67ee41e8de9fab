//! Files of cases, made word by word.

use po_base::{FileNo, GlobalNo, LibNo, List, Memory, Opnd, RegNo, Spot, StrNo, Text};
use po_ir::{
    Access, CTypeText, Callee, Effects, Function, Global as Object, Graph, Instr, LibUse, Node,
    Piece3, Reason, Reg, Ty, Unit,
};
use std::alloc::Global;

fn text(alloc: Global, word: &str) -> Result<Text, Memory> {
    Text::new(alloc, word.as_bytes())
}

fn number(word: &str) -> u32 {
    word.parse::<u32>().unwrap_or(0)
}

fn file(alloc: Global, name: &str) -> Result<Unit, Memory> {
    Ok(Unit {
        name: text(alloc, name)?,
        pieces: List::new(alloc),
        functions: List::new(alloc),
        globals: List::new(alloc),
        texts: List::new(alloc),
        declared: List::new(alloc),
        libs: List::new(alloc),
    })
}

fn function(alloc: Global, name: &str, local: bool) -> Result<Function, Memory> {
    Ok(Function {
        file: FileNo(0),
        name: text(alloc, name)?,
        local,
        result: CTypeText {
            text: text(alloc, "i32")?,
        },
        graph: Graph {
            nodes: List::new(alloc),
            regs: List::new(alloc),
            slots: List::new(alloc),
            params: 0,
        },
    })
}

fn add_function(
    alloc: Global,
    files: &mut List<Unit>,
    name: &str,
    local: bool,
) -> Result<(), Memory> {
    if let Some(mut last) = files.pop() {
        last.functions.push(function(alloc, name, local)?)?;
        files.push(last)?;
    }
    Ok(())
}

/// An object whose flags are among `c` (constant), `l` (local) and `d` (defined).
fn object(alloc: Global, name: &str, size: &str, flags: &str, ty: &str) -> Result<Object, Memory> {
    Ok(Object {
        name: text(alloc, name)?,
        size: number(size) as u64,
        align: 1 + number(size) as u64 % 8,
        constant: flags.as_bytes().contains(&b'c'),
        local: flags.as_bytes().contains(&b'l'),
        defined: flags.as_bytes().contains(&b'd'),
        ty: CTypeText {
            text: text(alloc, ty)?,
        },
    })
}

fn add_object(files: &mut List<Unit>, object: Object) -> Result<(), Memory> {
    if let Some(mut last) = files.pop() {
        last.globals.push(object)?;
        files.push(last)?;
    }
    Ok(())
}

fn add_declared(alloc: Global, files: &mut List<Unit>, name: &str, ty: &str) -> Result<(), Memory> {
    if let Some(mut last) = files.pop() {
        let ty = CTypeText {
            text: text(alloc, ty)?,
        };
        last.declared.push((text(alloc, name)?, ty))?;
        files.push(last)?;
    }
    Ok(())
}

fn add_literal(alloc: Global, files: &mut List<Unit>, literal: &str) -> Result<(), Memory> {
    if let Some(mut last) = files.pop() {
        last.texts.push(text(alloc, literal)?)?;
        files.push(last)?;
    }
    Ok(())
}

/// A function of the library, which may free where the flags have an `f`, and write where they have a `w`.
fn add_lib(
    alloc: Global,
    files: &mut List<Unit>,
    lib: &str,
    name: &str,
    flags: &str,
) -> Result<(), Memory> {
    if let Some(mut last) = files.pop() {
        last.libs.push(LibUse {
            lib: LibNo(number(lib)),
            name: text(alloc, name)?,
            effects: Effects {
                frees: flags.as_bytes().contains(&b'f'),
                writes: flags.as_bytes().contains(&b'w'),
            },
        })?;
        files.push(last)?;
    }
    Ok(())
}

/// A declaration of this line that isn't read.
fn add_opaque(alloc: Global, files: &mut List<Unit>, line: u32) -> Result<(), Memory> {
    if let Some(mut last) = files.pop() {
        let file = last.name.share()?;
        last.pieces.push(Piece3::Opaque(Spot { file, line }))?;
        files.push(last)?;
    }
    Ok(())
}

fn node(alloc: Global, instr: Instr) -> Result<Node, Memory> {
    Ok(Node {
        instr,
        spot: Spot {
            file: text(alloc, "")?,
            line: 1,
        },
    })
}

/// Adds a node to the last function of the last file.
fn add_node(alloc: Global, files: &mut List<Unit>, instr: Instr) -> Result<(), Memory> {
    if let Some(mut last) = files.pop() {
        if let Some(mut function) = last.functions.pop() {
            function.graph.nodes.push(node(alloc, instr)?)?;
            last.functions.push(function)?;
        }
        files.push(last)?;
    }
    Ok(())
}

/// Adds a register to the last function of the last file.
fn add_register(files: &mut List<Unit>) -> Result<(), Memory> {
    if let Some(mut last) = files.pop() {
        if let Some(mut function) = last.functions.pop() {
            function.graph.regs.push(Reg {
                name: None,
                ty: Ty::Ptr,
                param: false,
            })?;
            last.functions.push(function)?;
        }
        files.push(last)?;
    }
    Ok(())
}

fn call(alloc: Global, name: &str) -> Result<Instr, Memory> {
    Ok(Instr::Call {
        to: None,
        callee: Callee::Extern(text(alloc, name)?),
        args: List::new(alloc),
        strings: List::new(alloc),
    })
}

fn lib_call(alloc: Global, lib: u32) -> Instr {
    Instr::Lib {
        to: None,
        lib: LibNo(lib),
        args: List::new(alloc),
        strings: List::new(alloc),
    }
}

fn store() -> Instr {
    Instr::Store {
        at: Opnd::Num(0),
        value: Opnd::Num(0),
        access: Access {
            ty: Ty::Ptr,
            size: 8,
            align: 8,
        },
    }
}

/// The instruction that a word names: a call of a function, one of the library, the address of an object or of a literal, a
/// store, the end of what isn't read, or a return.
fn instruction(alloc: Global, kind: &str, argument: &str) -> Result<Instr, Memory> {
    match kind {
        "call" => call(alloc, argument),
        "lib" => Ok(lib_call(alloc, number(argument))),
        "object" => Ok(Instr::AddrGlobal {
            to: RegNo(0),
            global: GlobalNo(number(argument)),
        }),
        "literal" => Ok(Instr::AddrStr {
            to: RegNo(0),
            text: StrNo(number(argument)),
        }),
        "store" => Ok(store()),
        "unread" => Ok(Instr::Never {
            reason: Reason::Unread,
        }),
        _ => Ok(Instr::Return { value: None }),
    }
}

fn add_files(alloc: Global, files: &mut List<Unit>, count: u32) -> Result<(), Memory> {
    for _ in 0..count {
        files.push(file(alloc, "f")?)?;
    }
    Ok(())
}

fn add_functions(alloc: Global, files: &mut List<Unit>, count: u32) -> Result<(), Memory> {
    for _ in 0..count {
        add_function(alloc, files, "s", true)?;
    }
    Ok(())
}

fn add_nodes(alloc: Global, files: &mut List<Unit>, count: u32) -> Result<(), Memory> {
    for _ in 0..count {
        add_node(alloc, files, Instr::Return { value: None })?;
    }
    Ok(())
}

fn add_registers(files: &mut List<Unit>, count: u32) -> Result<(), Memory> {
    for _ in 0..count {
        add_register(files)?;
    }
    Ok(())
}

/// Adds what a word with two arguments or fewer says.
fn add_short(
    alloc: Global,
    files: &mut List<Unit>,
    kind: &str,
    first: &str,
    second: &str,
) -> Result<(), Memory> {
    match kind {
        "file" => files.push(file(alloc, first)?),
        "fun" => add_function(alloc, files, first, false),
        "static" => add_function(alloc, files, first, true),
        "type" => add_declared(alloc, files, first, second),
        "text" => add_literal(alloc, files, first),
        "opaque" => add_opaque(alloc, files, number(first)),
        "files" => add_files(alloc, files, number(first)),
        "statics" => add_functions(alloc, files, number(first)),
        "nodes" => add_nodes(alloc, files, number(first)),
        "registers" => add_registers(files, number(first)),
        _ => add_node(alloc, files, instruction(alloc, kind, first)?),
    }
}

/// Adds what a word says to the files so far, mostly to the last one.
fn add_word(alloc: Global, files: &mut List<Unit>, word: &str) -> Result<(), Memory> {
    let mut parts = word.split(':');
    let kind = parts.next().unwrap_or("");
    let first = parts.next().unwrap_or("");
    let second = parts.next().unwrap_or("");
    let third = parts.next().unwrap_or("");
    let fourth = parts.next().unwrap_or("");
    match kind {
        "global" => add_object(files, object(alloc, first, second, third, fourth)?),
        "uses" => add_lib(alloc, files, first, second, third),
        _ => add_short(alloc, files, kind, first, second),
    }
}

/// The files of a case.
pub(crate) fn read_files(alloc: Global, line: &str) -> Result<List<Unit>, Memory> {
    let mut files = List::new(alloc);
    for word in line.split(' ') {
        add_word(alloc, &mut files, word)?;
    }
    Ok(files)
}
