// Whether a predicate holds.
ghost use Rattle.std.specs.Prelude.{ℤ, ◌≡◌, ◌↔◌, ◌*ℤ◌, pos, IsTrue};
ghost use Rattle.po_memory.specs.Blocks.{IsFilled, IsNotNull, OnPointer, Spans};
ghost use Rattle.po_memory.specs.Holding.{Holds};
ghost use Rattle.po_memory.specs.Values.{EachNumber, EachPointer};

use crate::asking::{Ask, on_each, on_pointers};
use crate::choosing::{numbers_of, pointers_of, register_value};
use crate::over::{int_in, no_over, nonzero};
use crate::pairs::{apart, room_for, same_block};
use po_memory::{Frame, Memory2, Value};
use po_pred::{Place, Pred};

fn is_not_null(v: &Value) -> bool
    ensures { IsTrue result ↔ IsNotNull v.now }
{
    match v {
        Value::Number(_) => false,
        Value::Null => false,
        Value::Pointer { .. } => true,
        Value::Wild => true,
    }
}

fn not_null(f: &Frame, p: &Place) -> bool
    ensures { IsTrue result ↔ EachPointer f.now p.now IsNotNull }
{
    match pointers_of(f, p) {
        Err(answer) => answer,
        Ok(r) => is_not_null(&r.base),
    }
}

fn span(f: &Frame, m: &Memory2, p: &Place, factor: i64, lo: &Place, hi: &Place) -> bool
    ensures { IsTrue result ↔ EachPointer f.now p.now (λ v. EachNumber f.now lo.now (λ l. EachNumber f.now hi.now (λ h. OnPointer (Spans (factor *ℤ l) (factor *ℤ h)) m.now.blocks v))) }
{
    match pointers_of(f, p) {
        Err(answer) => answer,
        Ok(r) => match numbers_of(f, lo) {
            Err(answer) => answer,
            Ok(lo) => match numbers_of(f, hi) {
                Err(answer) => answer,
                Ok(hi) => on_pointers(m, &r, &Ask::Span { factor, lo, hi }),
            },
        },
    }
}

fn filled(f: &Frame, m: &Memory2, p: &Place, factor: i64, lo: &Place, hi: &Place) -> bool
    ensures { IsTrue result ↔ EachPointer f.now p.now (λ v. EachNumber f.now lo.now (λ l. EachNumber f.now hi.now (λ h. OnPointer (IsFilled (factor *ℤ l) (factor *ℤ h)) m.now.blocks v))) }
{
    match pointers_of(f, p) {
        Err(answer) => answer,
        Ok(r) => match numbers_of(f, lo) {
            Err(answer) => answer,
            Ok(lo) => match numbers_of(f, hi) {
                Err(answer) => answer,
                Ok(hi) => on_pointers(m, &r, &Ask::Filled { factor, lo, hi }),
            },
        },
    }
}

/// Whether a predicate holds: for each choice of its places, of which `lo` may also be greater than `hi` (then there is
/// none), and never where a place has no value. Takes no memory. In constant time, but for `filled`, `terminated` and
/// `room_for`, which take time linear in the size of a block; never in the number of choices.
pub fn holds(p: &Pred, f: &Frame, m: &Memory2) -> bool
    ensures { IsTrue result ↔ Holds f.now m.now.blocks p.now }
{
    match p {
        Pred::NotNull { p } => not_null(f, p),
        Pred::Live { p } => on_each(f, m, p, &Ask::Live),
        Pred::Span { p, factor, lo, hi } => span(f, m, p, *factor, lo, hi),
        Pred::Filled { p, factor, lo, hi } => filled(f, m, p, *factor, lo, hi),
        Pred::RegSet { v } => register_value(f, v.0 as usize).is_some(),
        Pred::Writable { p } => on_each(f, m, p, &Ask::Writable),
        Pred::Nonzero { x } => nonzero(f, x),
        Pred::NoOver { op, bits, a, b } => no_over(f, *op, *bits, a, b),
        Pred::IntIn { x, lo, hi } => int_in(f, x, lo, hi),
        Pred::Aligned { p, a } => on_each(f, m, p, &Ask::Aligned(*a)),
        Pred::SameBlock { p, q } => same_block(f, p, q),
        Pred::HeapStart { p } => on_each(f, m, p, &Ask::HeapStart),
        Pred::Terminated { p } => on_each(f, m, p, &Ask::Terminated),
        Pred::Apart { p, q, n } => apart(f, p, q, n),
        Pred::RoomFor { p, q } => room_for(f, m, p, q),
        Pred::Never { .. } => false,
    }
}
