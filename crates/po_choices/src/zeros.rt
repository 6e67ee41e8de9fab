// Operands without operands that are 0, and what type names of casts say.
ghost use Rattle.std.specs.Prelude.{IfOk};
ghost use Rattle.po_tree.specs.declared.expression.Exp.TheOpen.{Exp-F};
ghost use Rattle.po_types.specs.declared.ctype.CType.TheVariants as c;
ghost use Rattle.po_typed.specs.Scopes.{Context as Scope};
ghost use Rattle.po_typed.specs.Expressions.{IsNull, IsForm, IsPlainName};
ghost use Rattle.po_choices.specs.Answering.{IsWhether, IsIntegerName};

use po_base::{Memory, Text};
use po_constants::{character, number};
use po_operands::{integer_name, plain_name, value_of};
use po_scopes::Context;
use po_tree::TypeName;
use po_types::{is_void, pointee};
use std::alloc::Global;

/// Whether an integer constant is 0.
pub(crate) fn is_zero_number(context: &Context<'_>, text: &Text) -> bool
    ensures { IsWhether (IsNull context.now (Exp-F.Num text.now)) result }
{
    match number(text.bytes(), context.target()) {
        None => false,
        Some((_, value)) => value == 0,
    }
}

/// Whether a character constant is 0.
pub(crate) fn is_zero_character(text: &Text) -> bool
    ensures { (scope : Scope) → IsWhether (IsNull scope (Exp-F.Chr text.now)) result }
{
    match character(text.bytes()) {
        None => false,
        Some(value) => value == 0,
    }
}

/// Whether an identifier means an enumerator of the value 0.
pub(crate) fn is_zero_enumerator(context: &Context<'_>, name: &Text) -> bool
    ensures { IsWhether (IsNull context.now (Exp-F.Var name.now)) result }
{
    match value_of(context, name) {
        None => false,
        Some(value) => value == 0,
    }
}

/// Whether an identifier means an enumerator.
pub(crate) fn is_enumerator(context: &Context<'_>, name: &Text) -> bool
    ensures { IsWhether (IsForm context.now (Exp-F.Var name.now)) result }
{
    value_of(context, name).is_some()
}

/// Whether a type name says an integer type.
pub(crate) fn is_integer_name(
    alloc: Global,
    context: &Context<'_>,
    name: &TypeName,
) -> Result<bool, Memory>
    ensures { IfOk result (IsWhether (IsIntegerName context.now name.now)) }
{
    let found = integer_name(alloc, context, name)?;
    Ok(found.is_some())
}

/// Whether a type name says a pointer to void.
pub(crate) fn is_void_pointer_name(
    alloc: Global,
    context: &Context<'_>,
    name: &TypeName,
) -> Result<bool, Memory>
    ensures { IfOk result (IsWhether (IsPlainName context.now name.now (c.Ptr c.Void))) }
{
    match plain_name(alloc, context, name)? {
        None => Ok(false),
        Some(t) => match pointee(&t) {
            None => Ok(false),
            Some(to) => Ok(is_void(to)),
        },
    }
}
