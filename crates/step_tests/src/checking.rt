ghost use Rattle.std.specs.Prelude.{◌≡◌, ◌<◌, All, MatchOption, false, true, length, slice_get};
ghost use Rattle.po_ir.specs.declared.graph.Node.{Node as GraphNode};
ghost use Rattle.po_ir.specs.declared.instr.Ty.TheVariants.{Int};
ghost use Rattle.po_ir.specs.Types.{is_comparison, is_shift};
ghost use Rattle.step_tests.specs.Bare as bare;
ghost use Rattle.step_tests.specs.Bare.{int, int_access, AreMarks, CallsSome, FitsMarks, GivesInt, IsBare, IsInt, IsOfInt, IsOneInt, IsPointer, IsSlot, ReceivesInt, StaysInside};

use po_base::{Op, Opnd, RegNo};
use po_ir::{Access, Callee, Instr, Local, Node, Reason, Ty};

fn calls_some(callee: &Callee, functions: usize) -> bool
    ensures { result ≡ true → CallsSome functions callee.now }
{
    match callee {
        Callee::Fun(g) => (g.0 as usize) < functions,
        Callee::Extern(_) => false,
    }
}

fn is_int_type(ty: &Ty) -> bool
    ensures { result ≡ true → ty.now ≡ Int int }
{
    match ty {
        Ty::Int(t) => t.bits == 32 && t.signed,
        Ty::Ptr => false,
    }
}

fn is_of_int(r: &RegNo) -> bool
    ensures { result ≡ true → IsOfInt r.now }
{
    r.0 < 2
}

fn is_int(operand: &Opnd) -> bool
    ensures { result ≡ true → IsInt operand.now }
{
    match operand {
        Opnd::Reg(r) => r.0 < 2,
        Opnd::Num(v) => 0 <= *v && *v <= 1000,
    }
}

fn is_pointer(operand: &Opnd) -> bool
    ensures { result ≡ true → IsPointer operand.now }
{
    match operand {
        Opnd::Reg(r) => r.0 == 2,
        Opnd::Num(_) => false,
    }
}

/// Whether the operator subtracts or divides.
fn computes(op: Op) -> bool
    ensures { result ≡ true → (is_comparison op ≡ false) × (is_shift op ≡ false) }
{
    match op {
        Op::Sub | Op::Div => true,
        _ => false,
    }
}

fn receives_int(to: &Option<RegNo>) -> bool
    ensures { result ≡ true → ReceivesInt to.now }
{
    match to {
        Some(r) => r.0 < 2,
        None => false,
    }
}

fn gives_int(value: &Option<Opnd>) -> bool
    ensures { result ≡ true → GivesInt value.now }
{
    match value {
        Some(a) => is_int(a),
        None => false,
    }
}

fn is_one_int(args: &[Opnd]) -> bool
    ensures { result ≡ true → IsOneInt args.now }
{
    match args {
        [a] => is_int(a),
        _ => false,
    }
}

fn is_slot(what: &Local) -> bool
    ensures { result ≡ true → IsSlot what.now }
{
    match what {
        Local::Slot(s) => s.0 == 0,
        Local::Reg(_) => false,
    }
}

fn is_int_access(access: &Access) -> bool
    ensures { result ≡ true → access.now ≡ int_access }
{
    is_int_type(&access.ty) && access.size == 4 && access.align == 4
}

/// Whether an instruction enters the slot, takes its address, loads or stores an int at the pointer, or leaves the slot.
fn uses_memory(instr: &Instr, functions: usize, nodes: usize) -> bool
    ensures { result ≡ true → IsBare functions nodes instr.now }
{
    match instr {
        Instr::Enter { what } => is_slot(what),
        Instr::AddrSlot { to, slot } => to.0 == 2 && slot.0 == 0,
        Instr::Store { at, value, access } => {
            is_pointer(at) && is_int(value) && is_int_access(access)
        }
        Instr::Load { to, at, access } => is_of_int(to) && is_pointer(at) && is_int_access(access),
        Instr::Leave { slot } => slot.0 == 0,
        _ => false,
    }
}

/// Whether an instruction of so many nodes and functions is one of the few that are served here.
fn is_bare(instr: &Instr, functions: usize, nodes: usize) -> bool
    ensures { result ≡ true → IsBare functions nodes instr.now }
{
    match instr {
        Instr::Bin { to, op, ty, a, b } => {
            is_of_int(to) && computes(*op) && is_int_type(ty) && is_int(a) && is_int(b)
        }
        Instr::If {
            op: _,
            ty,
            a,
            b,
            yes,
            no,
        } => {
            is_int_type(ty)
                && is_int(a)
                && is_int(b)
                && (yes.0 as usize) < nodes
                && (no.0 as usize) < nodes
        }
        Instr::Jump { next } => (next.0 as usize) < nodes,
        Instr::Call {
            to,
            callee,
            args,
            strings,
        } => {
            receives_int(to)
                && calls_some(callee, functions)
                && is_one_int(args.as_slice())
                && strings.is_empty()
        }
        Instr::Return { value } => gives_int(value),
        Instr::Never { reason } => match reason {
            Reason::End => true,
            Reason::Unread => false,
        },
        _ => uses_memory(instr, functions, nodes),
    }
}

pub(crate) fn are_bare(nodes: &[Node], functions: usize) -> bool
    ensures { result ≡ true → All (λ (n : GraphNode). IsBare functions (length nodes.now) n.instr) nodes.now }
{
    for node in nodes {
        if !is_bare(&node.instr, functions, nodes.len()) {
            return false;
        }
    }
    true
}

/// Whether a `+` stands at the node's place.
fn is_marked(marks: &[u8], n: usize) -> bool
    ensures { result ≡ bare.is_marked marks.now n }
{
    match marks.get(n) {
        Some(sign) => *sign == b'+',
        None => false,
    }
}

fn stays_inside(marks: &[u8], n: usize, m: usize) -> bool
    ensures { result ≡ true → StaysInside marks.now n m }
{
    if is_marked(marks, m) {
        return is_marked(marks, n);
    }
    true
}

/// Whether the marks are right at a node with this instruction.
fn fits_marks(marks: &[u8], n: usize, instr: &Instr) -> bool
    requires { n < 1000 }
    ensures { result ≡ true → FitsMarks marks.now n instr.now }
{
    match instr {
        Instr::Enter { .. } => true,
        Instr::AddrSlot { .. } => is_marked(marks, n),
        Instr::Leave { .. } => is_marked(marks, n) && !is_marked(marks, n + 1),
        Instr::If { yes, no, .. } => {
            stays_inside(marks, n, yes.0 as usize) && stays_inside(marks, n, no.0 as usize)
        }
        Instr::Jump { next } => stays_inside(marks, n, next.0 as usize),
        Instr::Return { .. } => true,
        Instr::Never { .. } => true,
        Instr::Bin { .. } => stays_inside(marks, n, n + 1),
        Instr::Call { .. } => stays_inside(marks, n, n + 1),
        Instr::Load { .. } => stays_inside(marks, n, n + 1),
        Instr::Store { .. } => stays_inside(marks, n, n + 1),
        _ => false,
    }
}

fn fits_at(marks: &[u8], nodes: &[Node], n: usize) -> bool
    requires { n < 1000 }
    ensures { result ≡ true → MatchOption (slice_get nodes.now n) ⊥ (λ (x : GraphNode). FitsMarks marks.now n x.instr) }
{
    match nodes.get(n) {
        None => false,
        Some(node) => fits_marks(marks, n, &node.instr),
    }
}

fn starts_outside(marks: &[u8]) -> bool
    ensures { result ≡ true → bare.is_marked marks.now 0 ≡ false }
{
    !is_marked(marks, 0)
}

/// Whether the `+` of a text stand just where the slot is entered, on each way to the node.
pub(crate) fn are_marks(marks: &[u8], nodes: &[Node]) -> bool
    ensures { result ≡ true → AreMarks marks.now nodes.now }
{
    if !starts_outside(marks) {
        return false;
    }
    if nodes.len() > 1000 {
        return false;
    }
    for n in 0..nodes.len() {
        if !fits_at(marks, nodes, n) {
            return false;
        }
    }
    true
}
