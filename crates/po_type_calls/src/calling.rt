// Calls of functions whose arguments have known types.
ghost use Rattle.std.specs.Prelude.{◌≡◌, IfOk, codes, MatchOption};
ghost use Rattle.po_tree.specs.declared.expression.Exp.{out-Exp};
ghost use Rattle.po_tree.specs.declared.expression.Exp.TheOpen.{Exp-F};
ghost use Rattle.po_typed.specs.Expressions.{printf_type};
ghost use Rattle.po_constants.specs.Found.{Finds};
ghost use Rattle.po_choices.specs.Answering.{IsWhether};
ghost use Rattle.po_type_calls.specs.Calling.{Printed, CallsFunction, CallsPrintf, Calls};

use crate::passing::passes;
use crate::printing::prints;
use crate::reading::formats;
use po_arith::IntType;
use po_base::{List, Memory};
use po_scopes::Context;
use po_tree::Exp;
use po_type_parts::callee;
use po_types::{CHAR, CType, Shared, format_is_one, same};
use std::alloc::Global;

/// What a call gives.
#[derive(Drop)]
pub struct Called {
    /// The type of the function that is called.
    pub function: CType,
    /// The type of the call.
    pub result: CType,
    /// What each argument is converted to.
    pub conversions: Shared<List<CType>>,
}

/// The type of `printf` (C99 7.19.6.3).
fn printf(alloc: Global) -> Result<CType, Memory>
    ensures { IfOk result (λ t. t ≡ printf_type) }
{
    let mut parameters = List::new(alloc);
    parameters.push(CType::Ptr(Shared::new(alloc, CType::Int(CHAR))?))?;
    let result = Shared::new(alloc, CType::Int(IntType::INT))?;
    Ok(CType::Fun(result, Shared::new(alloc, parameters)?, true))
}

/// Whether an expression is the name `printf`.
fn is_named_printf(x: &Exp) -> bool
    ensures { IsWhether (out-Exp x.now ≡ Exp-F.Var (codes "printf")) result }
{
    match x {
        Exp::Var(name) => name.bytes() == b"printf".as_slice(),
        _ => false,
    }
}

/// What the call of a function gives that takes just its parameters.
fn calls_function(
    alloc: Global,
    context: &Context<'_>,
    function: &CType,
    xs: &[Exp],
    vs: &[CType],
) -> Result<Option<Called>, Memory>
    ensures { IfOk result (Finds (CallsFunction context.now function.now xs.now vs.now)) }
{
    match function {
        CType::Fun(to, parameters, more) => {
            if *more {
                return Ok(None);
            }
            if !passes(alloc, context, xs, vs, parameters.get().as_slice())? {
                return Ok(None);
            }
            Ok(Some(Called {
                function: function.share()?,
                result: to.get().share()?,
                conversions: parameters.share()?,
            }))
        }
        _ => Ok(None),
    }
}

/// Whether a function is `printf`.
fn is_printf(alloc: Global, x: &Exp, function: &CType) -> Result<bool, Memory>
    ensures { IfOk result (IsWhether ((out-Exp x.now ≡ Exp-F.Var (codes "printf")) × (function.now ≡ printf_type))) }
{
    if !is_named_printf(x) {
        return Ok(false);
    }
    Ok(same(function, &printf(alloc)?))
}

/// What arguments of `printf` are converted to.
fn printed(
    alloc: Global,
    context: &Context<'_>,
    xs: &[Exp],
    vs: &[CType],
) -> Result<Option<List<CType>>, Memory>
    ensures { IfOk result (Finds (Printed context.now xs.now vs.now)) }
{
    format_is_one();
    match formats(alloc, context.target(), xs)? {
        None => Ok(None),
        Some(specs) => prints(alloc, context.target(), specs.as_slice(), vs),
    }
}

/// What a call of `printf` gives.
fn calls_printf(
    alloc: Global,
    context: &Context<'_>,
    x: &Exp,
    function: &CType,
    xs: &[Exp],
    vs: &[CType],
) -> Result<Option<Called>, Memory>
    ensures { IfOk result (Finds (CallsPrintf context.now x.now function.now xs.now vs.now)) }
{
    if !is_printf(alloc, x, function)? {
        return Ok(None);
    }
    match printed(alloc, context, xs, vs)? {
        None => Ok(None),
        Some(conversions) => Ok(Some(Called {
            function: function.share()?,
            result: CType::Int(IntType::INT),
            conversions: Shared::new(alloc, conversions)?,
        })),
    }
}

/// What a call of `x` with the arguments `xs`, values of the types `vs`, gives, and what they are converted to (C99 6.5.2.2). None exactly where `x` names no function, or
/// its parameters don't take the arguments; of functions that take further arguments only `printf` is called, with a format that reads them. Takes the time of `callee`,
/// that of `passes` or, for `printf`, time in the length of the format.
pub fn calls(
    alloc: Global,
    context: &Context<'_>,
    x: &Exp,
    xs: &[Exp],
    vs: &[CType],
) -> Result<Option<Called>, Memory>
    ensures { IfOk result (Finds (Calls context.now x.now xs.now vs.now)) }
{
    match callee(context, x) {
        None => Ok(None),
        Some(function) => {
            match calls_function(alloc, context, function, xs, vs)? {
                Some(called) => return Ok(Some(called)),
                None => {}
            }
            calls_printf(alloc, context, x, function, xs, vs)
        }
    }
}
