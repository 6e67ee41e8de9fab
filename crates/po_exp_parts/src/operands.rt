// The first operand of an expression, of what was found inside it.
ghost use Rattle.std.specs.Prelude.{◌≡◌, ◌<◌, ◌+◌, ◌^◌, max, IfOk};
ghost use Rattle.po_tree.specs.declared.expression.Exp.TheVariants as e;
ghost use Rattle.po_tree.specs.Operators as operators;
ghost use Rattle.po_exp_parts.specs.Finding.{through, leveled};

use crate::compounds::{cast, enclosed, prefixed, size_of};
use crate::found::{Found, Leveled};
use crate::levels::{CAST, POSTFIX, UNARY};
use po_base::Memory;
use po_tree::{Exp, Prefix, TypeName};
use std::alloc::Global;

/// An operand as an expression, its level apart.
pub fn unleveled(operand: Found<Leveled>) -> Found<Exp>
    ensures { result ≡ through (λ o. o.value) 0 operand }
{
    let Found { value, height, end } = operand;
    let Leveled { value, level: _ } = value;
    Found { value, height, end }
}

/// An expression in parentheses (C99 6.5.1). `Memory` where memory is refused.
pub fn enclose(alloc: Global, inner: Found<Exp>) -> Result<Found<Leveled>, Memory>
    requires { inner.height < 2 ^ 31 }
    ensures { IfOk result (λ found. found ≡ through (λ x. leveled 15 (e.Paren x)) 1 inner) }
{
    Ok(Found {
        value: Leveled {
            value: enclosed(alloc, inner.value)?,
            level: POSTFIX,
        },
        height: inner.height + 1,
        end: inner.end,
    })
}

/// An operand with an operator before it (C99 6.5.3). `Memory` where memory is refused.
pub fn precede(alloc: Global, p: Prefix, inner: Found<Exp>) -> Result<Found<Leveled>, Memory>
    requires { inner.height < 2 ^ 31 }
    ensures { IfOk result (λ found. found ≡ through (λ x. leveled 14 (operators.prefixed p x)) 1 inner) }
{
    Ok(Found {
        value: Leveled {
            value: prefixed(alloc, p, inner.value)?,
            level: UNARY,
        },
        height: inner.height + 1,
        end: inner.end,
    })
}

/// The size of a type (C99 6.5.3.4). `Memory` where memory is refused.
pub fn measure(alloc: Global, name: Found<TypeName>) -> Result<Found<Leveled>, Memory>
    requires { name.height < 2 ^ 31 }
    ensures { IfOk result (λ found. found ≡ through (λ x. leveled 14 (e.SizeType x)) 1 name) }
{
    Ok(Found {
        value: Leveled {
            value: size_of(alloc, name.value)?,
            level: UNARY,
        },
        height: name.height + 1,
        end: name.end,
    })
}

/// A cast (C99 6.5.4). `Memory` where memory is refused.
pub fn convert(
    alloc: Global,
    name: Found<TypeName>,
    inner: Found<Exp>,
) -> Result<Found<Leveled>, Memory>
    requires { name.height + inner.height < 2 ^ 31 }
    ensures { IfOk result (λ found. found ≡ record { value = leveled 13 (e.Cast name.value inner.value); height = max name.height inner.height + 1; end = inner.end }) }
{
    let height = name.height.max(inner.height) + 1;
    Ok(Found {
        value: Leveled {
            value: cast(alloc, name.value, inner.value)?,
            level: CAST,
        },
        height,
        end: inner.end,
    })
}
