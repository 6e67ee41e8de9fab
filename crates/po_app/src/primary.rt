ghost use Rattle.std.specs.Prelude.{◌≡◌, ◌++◌, IfOk, OnOk};
ghost use Rattle.po_app.specs.Obligations.{place as place_of, overflow as overflow_of, division as division_of, operator_predicates as predicates_of_operator, predicates as predicates_of};

use po_arith::IntType;
use po_base::{List, Memory, Op, Opnd};
use po_ir::{Instr, Ty};
use po_pred::{Atom, Over, Place, Pred};
use std::alloc::Global;

fn place(operand: &Opnd) -> Place
    ensures { result ≡ place_of operand.now }
{
    match *operand {
        Opnd::Reg(register) => Place {
            atom: Some(Atom::Reg(register)),
            lo: 0,
            hi: 0,
        },
        Opnd::Num(number) => Place {
            atom: None,
            lo: number,
            hi: number,
        },
    }
}

/// Adds the overflow predicate of an operator, in signed types.
fn add_overflow(
    list: &mut List<Pred>,
    op: Over,
    ty: &IntType,
    a: &Place,
    b: &Place,
) -> Result<(), Memory>
    ensures { OnOk result (list.new ≡ list.old ++ overflow_of op ty.now a.now b.now) }
{
    if ty.signed {
        list.push(Pred::NoOver {
            op,
            bits: ty.bits,
            a: *a,
            b: Some(*b),
        })?;
    }
    Ok(())
}

/// The overflow predicate of an operator.
fn overflow(
    alloc: Global,
    op: Over,
    ty: &IntType,
    a: &Place,
    b: &Place,
) -> Result<List<Pred>, Memory>
    ensures { IfOk result (λ list. list ≡ overflow_of op ty.now a.now b.now) }
{
    let mut only = List::new(alloc);
    add_overflow(&mut only, op, ty, a, b)?;
    Ok(only)
}

/// The predicates of a division: that the divisor isn't 0, and the overflow predicate.
fn division(
    alloc: Global,
    op: Over,
    ty: &IntType,
    a: &Place,
    b: &Place,
) -> Result<List<Pred>, Memory>
    ensures { IfOk result (λ list. list ≡ division_of op ty.now a.now b.now) }
{
    let mut list = List::new(alloc);
    list.push(Pred::Nonzero { x: *b })?;
    add_overflow(&mut list, op, ty, a, b)?;
    Ok(list)
}

fn operator_predicates(
    alloc: Global,
    op: Op,
    ty: &IntType,
    a: &Place,
    b: &Place,
) -> Result<List<Pred>, Memory>
    ensures { IfOk result (λ list. list ≡ predicates_of_operator op ty.now a.now b.now) }
{
    match op {
        Op::Add => overflow(alloc, Over::Add, ty, a, b),
        Op::Sub => overflow(alloc, Over::Sub, ty, a, b),
        Op::Mul => overflow(alloc, Over::Mul, ty, a, b),
        Op::Div => division(alloc, Over::Div, ty, a, b),
        Op::Rem => division(alloc, Over::Rem, ty, a, b),
        _ => Ok(List::new(alloc)),
    }
}

/// The predicates that a node's operation asks for, in their order. In constant time.
pub(crate) fn predicates(alloc: Global, instr: &Instr) -> Result<List<Pred>, Memory>
    ensures { IfOk result (λ list. list ≡ predicates_of instr.now) }
{
    match instr {
        Instr::Bin {
            op,
            ty: Ty::Int(ty),
            a,
            b,
            ..
        } => { operator_predicates(alloc, *op, ty, &place(a), &place(b)) }
        _ => Ok(List::new(alloc)),
    }
}
