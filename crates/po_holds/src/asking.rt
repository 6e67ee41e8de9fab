// What is asked of the bytes of a block.
ghost use Rattle.std.specs.Prelude.{ℤ, ◌%◌, ◌≡◌, ◌↔◌, ◌≤ℤ◌, ◌<ℤ◌, ◌+ℤ◌, ◌*ℤ◌, pos, IsTrue, length};
ghost use Rattle.po_memory.specs.Blocks.{HaveValues, IsAligned, IsFilled, IsMultiple, IsTerminated, OnPointer, Spans, StartsHeap};
ghost use Rattle.po_memory.specs.Values.{EachPointer};
ghost use Rattle.po_memory.specs.declared.value.Byte.TheVariants as byte;
ghost use Rattle.po_holds.specs.Choosing.{AreSome, EachMoved, IsOneOf, greatest, least};
ghost use Rattle.po_holds.specs.Asking.{Asks, EachAsks, EachInside, EachScaled, HasSome, IsGreatest, IsLeast, place_of};

use crate::choosing::{Numbers, Pointers, pointers_of};
use crate::exact::is_negative;
use crate::strings::{fit, places_of};
use po_memory::{Block, Byte, Frame, Memory2, Value};
use po_pred::Place;

/// What may be asked of a place of a block.
#[derive(Clone, Copy, Debug)]
pub(crate) enum Ask {
    Live,
    Writable,
    Aligned(u64),
    HeapStart,
    Terminated,
    Span {
        factor: i64,
        lo: Numbers,
        hi: Numbers,
    },
    Filled {
        factor: i64,
        lo: Numbers,
        hi: Numbers,
    },
}

/// The end of the numbers that is the least of them, so many times.
fn least_end(factor: i64, r: &Numbers) -> i128
    requires { AreSome r.now }
    ensures { IsLeast factor r.now result }
{
    if factor < 0 {
        return r.hi;
    }
    r.lo
}

fn greatest_end(factor: i64, r: &Numbers) -> i128
    requires { AreSome r.now }
    ensures { IsGreatest factor r.now result }
{
    if factor < 0 {
        return r.lo;
    }
    r.hi
}

/// Whether the block has so many times each number from each place on.
fn are_inside(c: &Block, at: &Numbers, factor: i64, r: &Numbers) -> bool
    requires at { AreSome at.now }
    requires numbers { AreSome r.now }
    ensures { IsTrue result ↔ EachInside factor at.now r.now c.now }
{
    let times = factor as i128;
    let low = least_end(factor, r);
    let high = greatest_end(factor, r);
    let size = c.bytes.len() as i128;
    if is_negative(&[(1, at.base), (1, at.lo), (times, r.base), (times, low)]) {
        return false;
    }
    !is_negative(&[
        (1, size),
        (-1, at.base),
        (-1, at.hi),
        (-times, r.base),
        (-times, high),
    ])
}

fn are_spanned(c: &Block, at: &Numbers, factor: i64, lo: &Numbers, hi: &Numbers) -> bool
    requires at { AreSome at.now }
    requires lo { AreSome lo.now }
    requires hi { AreSome hi.now }
    ensures { IsTrue result ↔ ((o : ℤ) → IsOneOf at.now o → EachScaled factor lo.now hi.now (λ from to. Spans from to o c.now)) }
{
    if !are_inside(c, at, factor, lo) {
        return false;
    }
    are_inside(c, at, factor, hi)
}

fn is_blank(b: &Byte) -> bool
    ensures { IsTrue result ↔ (b.now ≡ byte.Blank) }
{
    match b {
        Byte::Blank => true,
        Byte::Number(_) => false,
        Byte::Part { .. } => false,
    }
}

/// A place, of which bytes are told that lie so many times a number behind it.
#[derive(Clone, Copy, Debug)]
pub(crate) struct End {
    base: i128,
    moved: i128,
    factor: i64,
    number: i128,
    added: i128,
}

/// Whether the i-th byte lies before a place.
fn is_before(i: usize, end: &End) -> bool
    ensures { IsTrue result ↔ (pos i <ℤ place_of end.now) }
{
    let times = end.factor as i128;
    is_negative(&[
        (1, i as i128),
        (-1, end.base),
        (-1, end.moved),
        (-times, end.number),
        (-times, end.added),
    ])
}

fn lies_between(i: usize, from: &End, to: &End) -> bool
    ensures { IsTrue result ↔ ((place_of from.now ≤ℤ pos i) × (pos i <ℤ place_of to.now)) }
{
    if is_before(i, from) {
        return false;
    }
    is_before(i, to)
}

/// Whether the i-th byte has no value and lies from the one place on before the other.
fn is_hole(b: &Byte, i: usize, from: &End, to: &End) -> bool
    ensures { IsTrue result ↔ ((b.now ≡ byte.Blank) × (place_of from.now ≤ℤ pos i) × (pos i <ℤ place_of to.now)) }
{
    if !is_blank(b) {
        return false;
    }
    lies_between(i, from, to)
}

/// Whether each byte from the one place up to, not including, the other has a value.
fn have_values(bytes: &[Byte], from: &End, to: &End) -> bool
    ensures { IsTrue result ↔ HaveValues (place_of from.now) (place_of to.now) bytes.now }
{
    for i in 0..bytes.len() {
        if is_hole(&bytes[i], i, from, to) {
            return false;
        }
    }
    true
}

/// Whether all bytes have values from each place and so many times each of the one numbers on up to, not including, so
/// many times each of the other. In time linear in the number of bytes of the block.
fn are_filled(c: &Block, at: &Numbers, factor: i64, lo: &Numbers, hi: &Numbers) -> bool
    requires at { AreSome at.now }
    requires lo { AreSome lo.now }
    requires hi { AreSome hi.now }
    ensures { IsTrue result ↔ ((o : ℤ) → IsOneOf at.now o → EachScaled factor lo.now hi.now (λ from to. IsFilled from to o c.now)) }
{
    let times = factor as i128;
    let low = least_end(factor, lo);
    let high = greatest_end(factor, hi);
    if !is_negative(&[
        (times, lo.base),
        (times, low),
        (-times, hi.base),
        (-times, high),
    ]) {
        return true;
    }
    have_values(
        c.bytes.as_slice(),
        &End {
            base: at.base,
            moved: at.lo,
            factor,
            number: lo.base,
            added: low,
        },
        &End {
            base: at.base,
            moved: at.hi,
            factor,
            number: hi.base,
            added: high,
        },
    )
}

/// Whether the sum is a multiple of `align`.
fn is_multiple(base: &i128, moved: &i128, align: u64) -> bool
    ensures { IsTrue result ↔ IsMultiple align (base.now +ℤ moved.now) }
{
    match base.checked_add(*moved) {
        Some(place) => is_divided(place.unsigned_abs(), align),
        None => {
            if align == 0 {
                return false;
            }
            let divisor = align as u128;
            (base.unsigned_abs() % divisor + moved.unsigned_abs() % divisor) % divisor == 0
        }
    }
}

fn is_divided(size: u128, align: u64) -> bool
    ensures { IsTrue result ↔ (size % align ≡ 0) }
{
    if align == 0 {
        return size == 0;
    }
    size % align as u128 == 0
}

fn are_aligned(c: &Block, at: &Numbers, align: u64) -> bool
    requires { AreSome at.now }
    ensures { IsTrue result ↔ ((o : ℤ) → IsOneOf at.now o → IsAligned align o c.now) }
{
    if c.align < align {
        return false;
    }
    if at.lo < at.hi {
        return align == 1;
    }
    is_multiple(&at.base, &at.lo, align)
}

fn start_heap(c: &Block, at: &Numbers) -> bool
    requires { AreSome at.now }
    ensures { IsTrue result ↔ ((o : ℤ) → IsOneOf at.now o → StartsHeap o c.now) }
{
    match places_of(at, 1) {
        None => false,
        Some(_) => c.heap && c.alive,
    }
}

fn are_terminated(c: &Block, at: &Numbers) -> bool
    requires { AreSome at.now }
    ensures { IsTrue result ↔ ((o : ℤ) → IsOneOf at.now o → IsTerminated o c.now) }
{
    let size = c.bytes.len();
    match places_of(at, size) {
        None => false,
        Some(s) => fit(c.bytes.as_slice(), &s, size),
    }
}

/// Whether it is so of each place of the block.
fn in_block(c: &Block, at: &Numbers, ask: &Ask) -> bool
    requires at { AreSome at.now }
    requires ask { HasSome ask.now }
    ensures { IsTrue result ↔ EachAsks ask.now at.now c.now }
{
    match ask {
        Ask::Live => c.alive,
        Ask::Writable => c.writable,
        Ask::Aligned(align) => are_aligned(c, at, *align),
        Ask::HeapStart => start_heap(c, at),
        Ask::Terminated => are_terminated(c, at),
        Ask::Span { factor, lo, hi } => are_spanned(c, at, *factor, lo, hi),
        Ask::Filled { factor, lo, hi } => are_filled(c, at, *factor, lo, hi),
    }
}

/// Whether it is so of each of the pointers.
pub(crate) fn on_pointers(m: &Memory2, r: &Pointers, ask: &Ask) -> bool
    requires some { r.now.lo ≤ℤ r.now.hi }
    requires ask { HasSome ask.now }
    ensures { IsTrue result ↔ EachMoved r.now (λ v. OnPointer (Asks ask.now) m.now.blocks v) }
{
    match r.base {
        Value::Number(_) => false,
        Value::Null => true,
        Value::Pointer { block, offset } => match m.blocks.get(block as usize) {
            None => false,
            Some(c) => in_block(
                c,
                &Numbers {
                    base: offset,
                    lo: r.lo,
                    hi: r.hi,
                },
                ask,
            ),
        },
        Value::Wild => false,
    }
}

/// Whether it is so of each pointer of a place.
pub(crate) fn on_each(f: &Frame, m: &Memory2, p: &Place, ask: &Ask) -> bool
    requires { HasSome ask.now }
    ensures { IsTrue result ↔ EachPointer f.now p.now (λ v. OnPointer (Asks ask.now) m.now.blocks v) }
{
    match pointers_of(f, p) {
        Err(answer) => answer,
        Ok(r) => on_pointers(m, &r, ask),
    }
}
