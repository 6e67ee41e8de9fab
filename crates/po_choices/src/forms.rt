// The form of an integer constant expression.
ghost use Rattle.std.specs.Prelude.{IfOk};
ghost use Rattle.po_tree.specs.declared.expression.Exp.{out-Exp};
ghost use Rattle.po_typed.specs.Expressions.{IsForm};
ghost use Rattle.po_choices.specs.Answering.{IsWhether};

use crate::zeros::{is_enumerator, is_integer_name};
use po_base::Memory;
use po_scopes::Context;
use po_tree::Exp;
use std::alloc::Global;

/// Whether an expression has the form of an integer constant expression (C99 6.6p3, p6): constants, `sizeof`, casts to integer types, and operators that only
/// compute. Takes time linear in the expression; a recursion goes into right operands alone.
pub fn is_form(alloc: Global, context: &Context<'_>, x: &Exp) -> Result<bool, Memory>
    ensures { IfOk result (IsWhether (IsForm context.now (out-Exp x.now))) }
{
    let mut inner = x;
    loop {
        match inner {
            Exp::Num(_) => return Ok(true),
            Exp::Chr(_) => return Ok(true),
            Exp::SizeExp(_) => return Ok(true),
            Exp::SizeType(_) => return Ok(true),
            Exp::Var(name) => return Ok(is_enumerator(context, name)),
            Exp::Paren(operand) => inner = operand.get(),
            Exp::Plus(operand) => inner = operand.get(),
            Exp::Minus(operand) => inner = operand.get(),
            Exp::Compl(operand) => inner = operand.get(),
            Exp::Not(operand) => inner = operand.get(),
            Exp::Cast(name, operand) => {
                if !is_integer_name(alloc, context, name.get())? {
                    return Ok(false);
                }
                inner = operand.get();
            }
            Exp::Binary(_, left, right) => {
                if !is_form(alloc, context, right.get())? {
                    return Ok(false);
                }
                inner = left.get();
            }
            Exp::LogAnd(left, right) => {
                if !is_form(alloc, context, right.get())? {
                    return Ok(false);
                }
                inner = left.get();
            }
            Exp::LogOr(left, right) => {
                if !is_form(alloc, context, right.get())? {
                    return Ok(false);
                }
                inner = left.get();
            }
            Exp::Cond(test, second, third) => {
                if !is_form(alloc, context, second.get())? {
                    return Ok(false);
                }
                if !is_form(alloc, context, third.get())? {
                    return Ok(false);
                }
                inner = test.get();
            }
            _ => return Ok(false),
        }
    }
}
