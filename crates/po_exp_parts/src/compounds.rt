// Expressions of their operands.
ghost use Rattle.std.specs.Prelude.{◌≡◌, IfOk};
ghost use Rattle.po_tree.specs.declared.expression.Exp.TheVariants as e;
ghost use Rattle.po_tree.specs.Operators as operators;

use po_base::{Boxed, List, Memory, Text};
use po_tree::{Exp, Infix, Postfix, Prefix, Selector, TypeName};
use std::alloc::Global;

/// Two operands with an operator between them (C99 6.5.5 to 6.5.14, 6.5.16, 6.5.17).
pub(crate) fn joined(alloc: Global, o: Infix, x: Exp, y: Exp) -> Result<Exp, Memory>
    ensures { IfOk result (λ z. z ≡ operators.joined o x y) }
{
    let x = Boxed::new(alloc, x)?;
    let y = Boxed::new(alloc, y)?;
    Ok(match o {
        Infix::Plain(op) => Exp::Binary(op, x, y),
        Infix::And => Exp::LogAnd(x, y),
        Infix::Or => Exp::LogOr(x, y),
        Infix::Set(op) => Exp::Assign(op, x, y),
        Infix::Comma => Exp::Comma(x, y),
    })
}

/// An operand with an operator before it (C99 6.5.3).
pub(crate) fn prefixed(alloc: Global, p: Prefix, x: Exp) -> Result<Exp, Memory>
    ensures { IfOk result (λ y. y ≡ operators.prefixed p x) }
{
    let x = Boxed::new(alloc, x)?;
    Ok(match p {
        Prefix::Increment => Exp::PreInc(x),
        Prefix::Decrement => Exp::PreDec(x),
        Prefix::Address => Exp::Addr(x),
        Prefix::Indirection => Exp::Deref(x),
        Prefix::Plus => Exp::Plus(x),
        Prefix::Minus => Exp::Minus(x),
        Prefix::Complement => Exp::Compl(x),
        Prefix::Not => Exp::Not(x),
        Prefix::Size => Exp::SizeExp(x),
    })
}

/// An operand with `++` or `--` behind it (C99 6.5.2.4).
pub(crate) fn postfixed(alloc: Global, q: Postfix, x: Exp) -> Result<Exp, Memory>
    ensures { IfOk result (λ y. y ≡ operators.postfixed q x) }
{
    let x = Boxed::new(alloc, x)?;
    Ok(match q {
        Postfix::Increment => Exp::PostInc(x),
        Postfix::Decrement => Exp::PostDec(x),
    })
}

/// A member of an operand (C99 6.5.2.3).
pub(crate) fn selected(alloc: Global, s: Selector, x: Exp, name: Text) -> Result<Exp, Memory>
    ensures { IfOk result (λ y. y ≡ operators.selected s x name) }
{
    let x = Boxed::new(alloc, x)?;
    Ok(match s {
        Selector::Dot => Exp::Dot(x, name),
        Selector::Arrow => Exp::Arrow(x, name),
    })
}

/// A conditional expression (C99 6.5.15).
pub(crate) fn chosen(alloc: Global, x: Exp, y: Exp, z: Exp) -> Result<Exp, Memory>
    ensures { IfOk result (λ w. w ≡ e.Cond x y z) }
{
    let x = Boxed::new(alloc, x)?;
    let y = Boxed::new(alloc, y)?;
    let z = Boxed::new(alloc, z)?;
    Ok(Exp::Cond(x, y, z))
}

/// A subscript (C99 6.5.2.1).
pub(crate) fn indexed(alloc: Global, x: Exp, y: Exp) -> Result<Exp, Memory>
    ensures { IfOk result (λ z. z ≡ e.Index x y) }
{
    let x = Boxed::new(alloc, x)?;
    let y = Boxed::new(alloc, y)?;
    Ok(Exp::Index(x, y))
}

/// A call (C99 6.5.2.2).
pub(crate) fn called(alloc: Global, x: Exp, xs: List<Exp>) -> Result<Exp, Memory>
    ensures { IfOk result (λ y. y ≡ e.Call x xs) }
{
    let x = Boxed::new(alloc, x)?;
    Ok(Exp::Call(x, xs))
}

/// An expression in parentheses (C99 6.5.1).
pub(crate) fn enclosed(alloc: Global, x: Exp) -> Result<Exp, Memory>
    ensures { IfOk result (λ y. y ≡ e.Paren x) }
{
    Ok(Exp::Paren(Boxed::new(alloc, x)?))
}

/// The size of a type (C99 6.5.3.4).
pub(crate) fn size_of(alloc: Global, t: TypeName) -> Result<Exp, Memory>
    ensures { IfOk result (λ y. y ≡ e.SizeType t) }
{
    Ok(Exp::SizeType(Boxed::new(alloc, t)?))
}

/// A cast (C99 6.5.4).
pub(crate) fn cast(alloc: Global, t: TypeName, x: Exp) -> Result<Exp, Memory>
    ensures { IfOk result (λ y. y ≡ e.Cast t x) }
{
    let t = Boxed::new(alloc, t)?;
    let x = Boxed::new(alloc, x)?;
    Ok(Exp::Cast(t, x))
}
