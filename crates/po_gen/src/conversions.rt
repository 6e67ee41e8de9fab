// What conversions ask (C99 6.3.1.3).
ghost use Rattle.std.specs.Prelude.{◌≡◌, All, IfOk};
ghost use Rattle.po_arith.specs.Types.{IsIntType};
ghost use Rattle.po_ir.specs.declared.graph.Reg.{Reg as Register};
ghost use Rattle.po_gen.specs.Asks as rules;
ghost use Rattle.po_ir.specs.IntTypes.{IsTypeOfTarget};

use crate::places::place;
use po_arith::{IntType, limits};
use po_base::{List, Memory, Opnd};
use po_ir::{Graph, Ty};
use po_pred::{Place, Pred};
use std::alloc::Global;

fn is_of_type(t: IntType, v: i128) -> bool
    requires { IsIntType t }
    ensures { result ≡ rules.is_of_type t v }
{
    let numbers = limits(t);
    numbers.lo <= v && v <= numbers.hi
}

fn keeps_type(t: IntType, ty: Ty) -> bool
    requires target { IsIntType t }
    requires source { IsTypeOfTarget ty }
    ensures { result ≡ rules.keeps_type t ty }
{
    match ty {
        Ty::Int(source) => {
            let numbers = limits(source);
            is_of_type(t, numbers.lo) && is_of_type(t, numbers.hi)
        }
        Ty::Ptr => false,
    }
}

/// Whether every value of an operand is one of the type: by the type of its register, or by the number.
fn keeps(g: &Graph, t: IntType, operand: &Opnd) -> bool
    requires target { IsIntType t }
    requires registers { All (λ (r : Register). IsTypeOfTarget r.ty) g.now.regs }
    ensures { result ≡ rules.keeps g.now t operand.now }
{
    match *operand {
        Opnd::Reg(register) => match g.regs.get(register.0 as usize) {
            Some(found) => keeps_type(t, found.ty),
            None => false,
        },
        Opnd::Num(number) => is_of_type(t, number),
    }
}

fn in_type(t: IntType, a: &Place) -> Pred
    requires { IsIntType t }
    ensures { result ≡ rules.in_type t a.now }
{
    let numbers = limits(t);
    Pred::IntIn {
        x: *a,
        lo: numbers.lo,
        hi: numbers.hi,
    }
}

/// What a conversion asks. In constant time.
pub(crate) fn conversion(
    alloc: Global,
    g: &Graph,
    from: &Opnd,
    ty: Ty,
    align: u64,
) -> Result<List<Pred>, Memory>
    requires target { IsTypeOfTarget ty }
    requires registers { All (λ (r : Register). IsTypeOfTarget r.ty) g.now.regs }
    ensures { IfOk result (λ list. list ≡ rules.conversion g.now from.now ty align) }
{
    let mut list = List::new(alloc);
    match ty {
        Ty::Int(t) => {
            if t.signed && !keeps(g, t, from) {
                list.push(in_type(t, &place(from)))?;
            }
        }
        Ty::Ptr => list.push(Pred::Aligned {
            p: place(from),
            a: align,
        })?,
    }
    Ok(list)
}
