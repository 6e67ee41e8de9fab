// What stands behind the token that goes on with an operand, and the operand with it.
ghost use Rattle.std.specs.Prelude.{◌≡◌, ◌<◌, ◌+◌, ◌^◌, max, IfOk};
ghost use Rattle.po_exp_parts.specs.declared.found.Tail.TheVariants as t;
ghost use Rattle.po_exp_parts.specs.Continuing as continuing;
ghost use Rattle.po_exp_parts.specs.Finding.{through};

use crate::compounds::{called, chosen, indexed, joined, postfixed, selected};
use crate::found::{Found, Tail};
use po_base::{List, Memory};
use po_tree::{Exp, Infix};
use std::alloc::Global;

/// A right operand as what stands behind an operator (C99 6.5.5 to 6.5.17).
pub fn as_right(o: Infix, inner: Found<Exp>) -> Found<Tail>
    ensures { result ≡ through (λ x. t.Joined o x) 0 inner }
{
    let Found { value, height, end } = inner;
    Found {
        value: Tail::Joined(o, value),
        height,
        end,
    }
}

/// A subscript as what stands behind `[` (C99 6.5.2.1).
pub fn as_subscript(inner: Found<Exp>) -> Found<Tail>
    ensures { result ≡ through (λ x. t.Indexed x) 0 inner }
{
    let Found { value, height, end } = inner;
    Found {
        value: Tail::Indexed(value),
        height,
        end,
    }
}

/// Arguments as what stands behind `(` (C99 6.5.2.2).
pub fn as_arguments(inner: Found<List<Exp>>) -> Found<Tail>
    ensures { result ≡ through (λ xs. t.Called xs) 0 inner }
{
    let Found { value, height, end } = inner;
    Found {
        value: Tail::Called(value),
        height,
        end,
    }
}

/// Two operands as what stands behind `?` (C99 6.5.15). The two are as high as the higher one.
pub fn as_choice(middle: Found<Exp>, last: Found<Exp>) -> Found<Tail>
    ensures { result ≡ record { value = t.Chosen middle.value last.value; height = max middle.height last.height; end = last.end } }
{
    let height = middle.height.max(last.height);
    Found {
        value: Tail::Chosen(middle.value, last.value),
        height,
        end: last.end,
    }
}

/// An operand with what stands behind it.
fn grow(alloc: Global, x: Exp, tail: Tail) -> Result<Exp, Memory>
    ensures { IfOk result (λ y. y ≡ continuing.grow x tail) }
{
    match tail {
        Tail::Joined(o, y) => joined(alloc, o, x, y),
        Tail::Chosen(y, z) => chosen(alloc, x, y, z),
        Tail::Indexed(y) => indexed(alloc, x, y),
        Tail::Called(xs) => called(alloc, x, xs),
        Tail::Selected(s, name) => selected(alloc, s, x, name),
        Tail::Stepped(q) => postfixed(alloc, q, x),
    }
}

/// What was found with what was found behind it, one higher than the higher of the two; it ends where the tail ends.
/// `Memory` where memory is refused.
pub fn extend(alloc: Global, x: Found<Exp>, tail: Found<Tail>) -> Result<Found<Exp>, Memory>
    requires { x.height + tail.height < 2 ^ 31 }
    ensures { IfOk result (λ y. y ≡ record { value = continuing.grow x.value tail.value; height = max x.height tail.height + 1; end = tail.end }) }
{
    let height = x.height.max(tail.height) + 1;
    let end = tail.end;
    let value = grow(alloc, x.value, tail.value)?;
    Ok(Found { value, height, end })
}
