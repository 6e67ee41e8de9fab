// What each instruction asks.
ghost use Rattle.std.specs.Prelude.{◌≡◌, All, IfOk};
ghost use Rattle.po_ir.specs.declared.graph.Reg.{Reg as Register};
ghost use Rattle.po_gen.specs.Asks as rules;
ghost use Rattle.po_ir.specs.IntTypes.{IsTypeOfTarget, types_in};

use crate::conversions::conversion;
use crate::library::Library;
use crate::numbers::{only, operator, sign};
use crate::places::place;
use crate::pointers::{comparison, copy, load, moving, pair, store};
use po_base::{List, Memory, Op, Opnd};
use po_ir::{Callee, Graph, Instr, Reason, Ty};
use po_pred::{Pred, Why};
use std::alloc::Global;

fn computation(alloc: Global, op: Op, ty: Ty, a: &Opnd, b: &Opnd) -> Result<List<Pred>, Memory>
    ensures { IfOk result (λ list. list ≡ rules.computation op ty (rules.place a.now) (rules.place b.now)) }
{
    match ty {
        Ty::Int(t) => operator(alloc, op, t, &place(a), &place(b)),
        Ty::Ptr => comparison(alloc, op, &place(a), &place(b)),
    }
}

fn test(alloc: Global, op: Op, ty: Ty, a: &Opnd, b: &Opnd) -> Result<List<Pred>, Memory>
    ensures { IfOk result (λ list. list ≡ rules.test op ty (rules.place a.now) (rules.place b.now)) }
{
    match ty {
        Ty::Int(_) => Ok(List::new(alloc)),
        Ty::Ptr => comparison(alloc, op, &place(a), &place(b)),
    }
}

fn call(alloc: Global, callee: &Callee) -> Result<List<Pred>, Memory>
    ensures { IfOk result (λ list. list ≡ rules.call callee.now) }
{
    match callee {
        Callee::Fun(_) => Ok(List::new(alloc)),
        Callee::Extern(_) => only(alloc, Pred::Never { why: Why::Extern }),
    }
}

fn why_never(reason: Reason) -> Why
    ensures { result ≡ rules.why_never reason }
{
    match reason {
        Reason::Unread => Why::Unread,
        Reason::End => Why::End,
    }
}

/// What an instruction asks, in its order. In constant time, but for what the library takes.
pub(crate) fn asks<L: Library>(
    alloc: Global,
    library: &L,
    g: &Graph,
    instr: &Instr,
) -> Result<List<Pred>, Memory>
    requires registers { All (λ (r : Register). IsTypeOfTarget r.ty) g.now.regs }
    requires types { All IsTypeOfTarget (types_in instr.now) }
    ensures { IfOk result (λ list. list ≡ rules.asks (L.meaning library.now) g.now instr.now) }
{
    match instr {
        Instr::Bin { op, ty, a, b, .. } => computation(alloc, *op, *ty, a, b),
        Instr::Un { op, ty, a, .. } => sign(alloc, *op, *ty, &place(a)),
        Instr::Conv {
            from,
            ty,
            align,
            ..
        } => conversion(alloc, g, from, *ty, *align),
        Instr::PtrAdd {
            base,
            index,
            factor,
            ..
        } => moving(alloc, &place(base), &place(index), *factor),
        Instr::PtrDiff { a, b, .. } => pair(alloc, &place(a), &place(b)),
        Instr::Load { at, access, .. } => load(alloc, &place(at), access),
        Instr::Store { at, access, .. } => store(alloc, &place(at), access),
        Instr::CopyBytes {
            to,
            from,
            size,
            align,
        } => copy(alloc, &place(to), &place(from), *size, *align),
        Instr::Call { callee, .. } => call(alloc, callee),
        Instr::Lib {
            lib,
            args,
            strings,
            ..
        } => library.required(alloc, *lib, args.as_slice(), strings.as_slice()),
        Instr::If { op, ty, a, b, .. } => test(alloc, *op, *ty, a, b),
        Instr::Never { reason } => only(
            alloc,
            Pred::Never {
                why: why_never(*reason),
            },
        ),
        _ => Ok(List::new(alloc)),
    }
}
