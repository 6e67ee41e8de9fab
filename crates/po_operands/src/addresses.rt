// Lvalues, and what has an address (C99 6.3.2.1, 6.5.3.2).
ghost use Rattle.std.specs.Prelude.{MatchBool};
ghost use Rattle.po_tree.specs.declared.expression.Exp.{out-Exp};
ghost use Rattle.po_typed.specs.Expressions.{IsLvalue, HasAddress};

use crate::names::{has_stored_address, is_object};
use po_scopes::Context;
use po_tree::Exp;

/// Whether an expression is an lvalue (C99 6.3.2.1p1, 6.5.1p2, p4, p5, 6.5.2.1p2, 6.5.2.3p3, p4, 6.5.3.2p4). Takes time in the parentheses and members around the operand
/// that decides it.
pub fn is_lvalue(context: &Context<'_>, x: &Exp) -> bool
    ensures { MatchBool result (IsLvalue context.now (out-Exp x.now)) (IsLvalue context.now (out-Exp x.now) → ⊥) }
{
    let mut inner = x;
    loop {
        match inner {
            Exp::Var(name) => return is_object(context, name).is_some(),
            Exp::Str(_) => return true,
            Exp::Index(_, _) => return true,
            Exp::Arrow(_, _) => return true,
            Exp::Deref(_) => return true,
            Exp::Paren(operand) => inner = operand.get(),
            Exp::Dot(operand, _) => inner = operand.get(),
            _ => return false,
        }
    }
}

/// Whether `&` takes an expression: an lvalue that no register holds, or what `*` gives (C99 6.5.3.2p1). Time as for `is_lvalue`.
pub fn has_address(context: &Context<'_>, x: &Exp) -> bool
    ensures { MatchBool result (HasAddress context.now (out-Exp x.now)) (HasAddress context.now (out-Exp x.now) → ⊥) }
{
    let mut inner = x;
    loop {
        match inner {
            Exp::Var(name) => return has_stored_address(context, name),
            Exp::Str(_) => return true,
            Exp::Index(_, _) => return true,
            Exp::Arrow(_, _) => return true,
            Exp::Deref(_) => return true,
            Exp::Paren(operand) => inner = operand.get(),
            Exp::Dot(operand, _) => inner = operand.get(),
            _ => return false,
        }
    }
}
