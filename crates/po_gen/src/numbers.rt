// What operators on numbers ask (C99 6.5).
ghost use Rattle.std.specs.Prelude.{◌≡◌, ◌++◌, [], ◌∷◌, IfOk, OnOk};
ghost use Rattle.po_pred.specs.declared.pred.Over.TheVariants as over;
ghost use Rattle.po_gen.specs.Asks as rules;

use po_arith::IntType;
use po_base::{List, Memory, Op, UnOp};
use po_pred::{Over, Place, Pred};
use std::alloc::Global;

/// Adds the overflow of an operator, in signed types.
fn add_overflow(
    list: &mut List<Pred>,
    op: Over,
    t: IntType,
    a: &Place,
    b: &Place,
) -> Result<(), Memory>
    ensures { OnOk result (list.new ≡ list.old ++ rules.overflow op t a.now b.now) }
{
    if t.signed {
        list.push(Pred::NoOver {
            op,
            bits: t.bits,
            a: *a,
            b: Some(*b),
        })?;
    }
    Ok(())
}

fn overflow(alloc: Global, op: Over, t: IntType, a: &Place, b: &Place) -> Result<List<Pred>, Memory>
    ensures { IfOk result (λ list. list ≡ rules.overflow op t a.now b.now) }
{
    let mut list = List::new(alloc);
    add_overflow(&mut list, op, t, a, b)?;
    Ok(list)
}

fn division(alloc: Global, op: Over, t: IntType, a: &Place, b: &Place) -> Result<List<Pred>, Memory>
    ensures { IfOk result (λ list. list ≡ rules.division op t a.now b.now) }
{
    let mut list = List::new(alloc);
    list.push(Pred::Nonzero { x: *b })?;
    add_overflow(&mut list, op, t, a, b)?;
    Ok(list)
}

fn count(t: IntType, b: &Place) -> Pred
    ensures { result ≡ rules.count t b.now }
{
    Pred::IntIn {
        x: *b,
        lo: 0,
        hi: i128::from(t.bits) - 1,
    }
}

fn shift_left(alloc: Global, t: IntType, a: &Place, b: &Place) -> Result<List<Pred>, Memory>
    ensures { IfOk result (λ list. list ≡ rules.count t b.now ∷ rules.overflow over.Shl t a.now b.now) }
{
    let mut list = List::new(alloc);
    list.push(count(t, b))?;
    add_overflow(&mut list, Over::Shl, t, a, b)?;
    Ok(list)
}

/// One predicate.
pub(crate) fn only(alloc: Global, predicate: Pred) -> Result<List<Pred>, Memory>
    ensures { IfOk result (λ list. list ≡ predicate ∷ []) }
{
    let mut list = List::new(alloc);
    list.push(predicate)?;
    Ok(list)
}

/// What an operator on numbers asks. In constant time.
pub(crate) fn operator(
    alloc: Global,
    op: Op,
    t: IntType,
    a: &Place,
    b: &Place,
) -> Result<List<Pred>, Memory>
    ensures { IfOk result (λ list. list ≡ rules.operator op t a.now b.now) }
{
    match op {
        Op::Add => overflow(alloc, Over::Add, t, a, b),
        Op::Sub => overflow(alloc, Over::Sub, t, a, b),
        Op::Mul => overflow(alloc, Over::Mul, t, a, b),
        Op::Div => division(alloc, Over::Div, t, a, b),
        Op::Rem => division(alloc, Over::Rem, t, a, b),
        Op::Shl => shift_left(alloc, t, a, b),
        Op::Shr => only(alloc, count(t, b)),
        _ => Ok(List::new(alloc)),
    }
}

/// What an operator on one number asks. In constant time.
pub(crate) fn sign(alloc: Global, op: UnOp, t: IntType, a: &Place) -> Result<List<Pred>, Memory>
    ensures { IfOk result (λ list. list ≡ rules.sign op t a.now) }
{
    match op {
        UnOp::Neg if t.signed => only(
            alloc,
            Pred::NoOver {
                op: Over::Neg,
                bits: t.bits,
                a: *a,
                b: None,
            },
        ),
        _ => Ok(List::new(alloc)),
    }
}
