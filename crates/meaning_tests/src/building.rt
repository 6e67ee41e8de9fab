ghost use Rattle.std.specs.Prelude.{◌≡◌, true, All, IfOk, OnOk, [], ◌∷◌};
ghost use Rattle.po_ir.specs.declared.graph.Reg.{Reg as Register};
ghost use Rattle.po_arith.specs.Types.{IsIntType};
ghost use Rattle.po_ir.specs.IntTypes.{IsTypeOfTarget, types_in, HasTypesOfTarget, AreTypesOfTarget};

use po_arith::{IntType, Target};
use po_base::{FileNo, List, Memory, Spot, Text};
use po_ir::{CTypeText, Function, Graph, Instr, Node, Project, Reg, Ty};
use std::alloc::Global;

/// Whether the type is one of the target's.
fn is_int_type(t: IntType) -> bool
    ensures { result ≡ true → IsIntType t }
{
    match t.bits {
        1 => !t.signed,
        8 => true,
        16 => true,
        32 => true,
        64 => true,
        _ => false,
    }
}

fn is_type(ty: Ty) -> bool
    ensures { result ≡ true → IsTypeOfTarget ty }
{
    match ty {
        Ty::Int(t) => is_int_type(t),
        Ty::Ptr => true,
    }
}

/// Whether the types of an instruction are the target's.
pub(crate) fn has_types(instr: &Instr) -> bool
    ensures { result ≡ true → All IsTypeOfTarget (types_in instr.now) }
{
    match instr {
        Instr::Bin { ty, .. } => is_type(*ty),
        Instr::Un { ty, .. } => is_type(Ty::Int(*ty)),
        Instr::Conv { ty, .. } => is_type(*ty),
        Instr::Load { access, .. } => is_type(access.ty),
        Instr::Store { access, .. } => is_type(access.ty),
        Instr::If { ty, .. } => is_type(*ty),
        _ => true,
    }
}

/// Adds a register, where its type is one of the target's.
fn add_register(
    alloc: Global,
    regs: &mut List<Reg>,
    name: &[u8],
    ty: Ty,
    param: bool,
) -> Result<(), Memory>
    ensures { All (λ (r : Register). IsTypeOfTarget r.ty) regs.old → All (λ (r : Register). IsTypeOfTarget r.ty) regs.new }
{
    if !is_type(ty) {
        return Ok(());
    }
    let name = if name.is_empty() {
        None
    } else {
        Some(Text::new(alloc, name)?)
    };
    regs.push(Reg { name, ty, param })
}

/// An integer type.
pub(crate) const fn int(bits: u8, signed: bool) -> Ty {
    Ty::Int(IntType { bits, signed })
}

/// Two parameters, `p` and `n`; the variables `x`, `y`, `q`, `r`, `c`, `u`, `l`; two temporaries, an int and a long.
pub(crate) fn registers(alloc: Global) -> Result<List<Reg>, Memory>
    ensures { IfOk result (λ regs. All (λ (r : Register). IsTypeOfTarget r.ty) regs) }
{
    let rows: [(&[u8], Ty, bool); 11] = [
        (b"p", Ty::Ptr, true),
        (b"n", int(32, true), true),
        (b"x", int(32, true), false),
        (b"y", int(32, true), false),
        (b"q", Ty::Ptr, false),
        (b"r", Ty::Ptr, false),
        (b"c", int(8, true), false),
        (b"u", int(32, false), false),
        (b"l", int(64, true), false),
        (b"", int(32, true), false),
        (b"", int(64, true), false),
    ];
    let mut regs = List::new(alloc);
    for (name, ty, param) in rows {
        add_register(alloc, &mut regs, name, ty, param)?;
    }
    Ok(regs)
}

/// A project of one function of one node.
pub(crate) fn project(alloc: Global, regs: List<Reg>, instr: Instr) -> Result<Project, Memory>
    requires registers { All (λ (r : Register). IsTypeOfTarget r.ty) regs }
    requires types { All IsTypeOfTarget (types_in instr) }
    ensures { IfOk result (λ p. AreTypesOfTarget p) }
{
    let mut nodes = List::new(alloc);
    nodes.push(Node {
        instr,
        spot: Spot {
            file: Text::new(alloc, b"a.c")?,
            line: 1,
        },
    })?;
    let graph = Graph {
        nodes,
        regs,
        slots: List::new(alloc),
        params: 2,
    };
    let mut functions = List::new(alloc);
    functions.push(Function {
        file: FileNo(0),
        name: Text::new(alloc, b"f")?,
        local: false,
        result: CTypeText {
            text: Text::new(alloc, b"void")?,
        },
        graph,
    })?;
    Ok(Project {
        files: List::new(alloc),
        opaque: List::new(alloc),
        functions,
        globals: List::new(alloc),
        texts: List::new(alloc),
        effects: List::new(alloc),
        target: Target::L64,
    })
}
