// Constants 0 and null pointers.
ghost use Rattle.std.specs.Prelude.{IfOk};
ghost use Rattle.po_tree.specs.declared.expression.Exp.{out-Exp};
ghost use Rattle.po_typed.specs.Expressions.{IsNull, IsNullPointer};
ghost use Rattle.po_choices.specs.Answering.{IsWhether};

use crate::zeros::{
    is_integer_name, is_void_pointer_name, is_zero_character, is_zero_enumerator, is_zero_number,
};
use po_base::Memory;
use po_scopes::Context;
use po_tree::Exp;
use std::alloc::Global;

/// Whether an expression is the constant 0: one number of value 0, in parentheses, under `+`, or under casts to integer types (C99 6.3.2.3p3). Takes time linear in
/// what stands around the operand that decides it, and in the type names of these casts.
pub fn is_null(alloc: Global, context: &Context<'_>, x: &Exp) -> Result<bool, Memory>
    ensures { IfOk result (IsWhether (IsNull context.now (out-Exp x.now))) }
{
    let mut inner = x;
    loop {
        match inner {
            Exp::Num(text) => return Ok(is_zero_number(context, text)),
            Exp::Chr(text) => return Ok(is_zero_character(text)),
            Exp::Var(name) => return Ok(is_zero_enumerator(context, name)),
            Exp::Paren(operand) => inner = operand.get(),
            Exp::Plus(operand) => inner = operand.get(),
            Exp::Cast(name, operand) => {
                if !is_integer_name(alloc, context, name.get())? {
                    return Ok(false);
                }
                inner = operand.get();
            }
            _ => return Ok(false),
        }
    }
}

/// Whether an expression is the constant 0 cast to a pointer to void, perhaps in parentheses (C99 6.3.2.3p3). Time as for `is_null`.
pub fn is_null_pointer(alloc: Global, context: &Context<'_>, x: &Exp) -> Result<bool, Memory>
    ensures { IfOk result (IsWhether (IsNullPointer context.now (out-Exp x.now))) }
{
    let mut inner = x;
    loop {
        match inner {
            Exp::Paren(operand) => inner = operand.get(),
            Exp::Cast(name, operand) => {
                if !is_void_pointer_name(alloc, context, name.get())? {
                    return Ok(false);
                }
                return is_null(alloc, context, operand.get());
            }
            _ => return Ok(false),
        }
    }
}
