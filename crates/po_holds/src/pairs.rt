// Predicates of two pointers.
ghost use Rattle.std.specs.Prelude.{ℤ, ◌≡◌, ◌↔◌, ◌⊎◌, ◌≤ℤ◌, ◌+ℤ◌, IsTrue, slice_get};
ghost use Rattle.po_memory.specs.Blocks.{AreApart, Fits, FitsOn, HasRoom, IntoOne, StandApart};
ghost use Rattle.po_memory.specs.Values.{EachNumber, EachPointer};
ghost use Rattle.po_memory.specs.declared.value.Value.TheVariants as value;
ghost use Rattle.po_holds.specs.Choosing.{AreSome, EachMoved, IsOneOf};
ghost use Rattle.po_holds.specs.Pairs.{EachAfter, EachApart, EachFits, MovedApart, MovedRoom, ReachesNone};

use crate::choosing::{Numbers, Pointers, is_pointer, numbers_of, pointers_of};
use crate::exact::is_negative;
use crate::strings::{fit, places_of};
use po_memory::{Block, Frame, Memory2, Value};
use po_pred::Place;

/// Whether two pointers point into one block, wherever they are moved.
fn into_one(v: &Value, w: &Value) -> bool
    ensures { IsTrue result ↔ IntoOne v.now w.now }
{
    match *v {
        Value::Number(_) => *w == Value::Null,
        Value::Null => true,
        Value::Pointer { block, .. } => match *w {
            Value::Number(_) => false,
            Value::Null => true,
            Value::Pointer { block: other, .. } => block == other,
            Value::Wild => false,
        },
        Value::Wild => *w == Value::Null,
    }
}

pub(crate) fn same_block(f: &Frame, p: &Place, q: &Place) -> bool
    ensures { IsTrue result ↔ EachPointer f.now p.now (λ v. EachPointer f.now q.now (λ w. IntoOne v w)) }
{
    match pointers_of(f, p) {
        Err(answer) => answer,
        Ok(v) => match pointers_of(f, q) {
            Err(answer) => answer,
            Ok(w) => into_one(&v.base, &w.base),
        },
    }
}

/// Whether each of the second numbers is greater than each of the first by each of `n` at least.
fn is_after(p: &Numbers, q: &Numbers, n: &Numbers) -> bool
    requires p { AreSome p.now }
    requires q { AreSome q.now }
    requires n { AreSome n.now }
    ensures { IsTrue result ↔ EachAfter p.now q.now n.now }
{
    !is_negative(&[
        (1, q.base),
        (1, q.lo),
        (-1, p.base),
        (-1, p.hi),
        (-1, n.base),
        (-1, n.hi),
    ])
}

/// Whether none of the numbers is greater than 0.
fn reaches_none(n: &Numbers) -> bool
    requires { AreSome n.now }
    ensures { IsTrue result ↔ ReachesNone n.now }
{
    !is_negative(&[(-1, n.base), (-1, n.hi)])
}

/// Whether the numbers differ by each of `n` at least.
fn differ(p: &Numbers, q: &Numbers, n: &Numbers) -> bool
    requires p { AreSome p.now }
    requires q { AreSome q.now }
    requires n { AreSome n.now }
    ensures { IsTrue result ↔ EachApart p.now q.now n.now }
{
    if reaches_none(n) {
        return true;
    }
    if is_after(p, q, n) {
        return true;
    }
    is_after(q, p, n)
}

/// The places of a block that pointers into it are.
fn offsets(base: &i128, r: &Pointers) -> Numbers
    ensures { (result.base ≡ base.now) × (result.lo ≡ r.now.lo) × (result.hi ≡ r.now.hi) }
{
    Numbers {
        base: *base,
        lo: r.lo,
        hi: r.hi,
    }
}

/// Whether bytes behind the one pointers lie apart from those behind the others.
fn are_apart(v: &Pointers, w: &Pointers, n: &Numbers) -> bool
    requires v { v.now.lo ≤ℤ v.now.hi }
    requires w { w.now.lo ≤ℤ w.now.hi }
    requires n { AreSome n.now }
    ensures { IsTrue result ↔ MovedApart v.now w.now n.now }
{
    match v.base {
        Value::Number(_) => false,
        Value::Null => is_pointer(&w.base),
        Value::Wild => is_pointer(&w.base),
        Value::Pointer { block, offset } => match w.base {
            Value::Number(_) => false,
            Value::Null => true,
            Value::Wild => true,
            Value::Pointer {
                block: other,
                offset: place,
            } => {
                if block != other {
                    return true;
                }
                differ(&offsets(&offset, v), &offsets(&place, w), n)
            }
        },
    }
}

pub(crate) fn apart(f: &Frame, p: &Place, q: &Place, n: &Place) -> bool
    ensures { IsTrue result ↔ EachPointer f.now p.now (λ v. EachPointer f.now q.now (λ w. EachNumber f.now n.now (λ z. AreApart z v w))) }
{
    match pointers_of(f, p) {
        Err(answer) => answer,
        Ok(v) => match pointers_of(f, q) {
            Err(answer) => answer,
            Ok(w) => match numbers_of(f, n) {
                Err(answer) => answer,
                Ok(n) => are_apart(&v, &w, &n),
            },
        },
    }
}

/// Whether the string from each of the one places fits behind each of the others.
fn fits(c: &Block, at: &Numbers, d: &Block, from: &Numbers) -> bool
    requires at { AreSome at.now }
    requires from { AreSome from.now }
    ensures { IsTrue result ↔ EachFits c.now at.now d.now from.now }
{
    let size = c.bytes.len();
    match places_of(at, size) {
        None => false,
        Some(target) => match places_of(from, d.bytes.len()) {
            None => false,
            Some(source) => fit(d.bytes.as_slice(), &source, size - target.last),
        },
    }
}

fn is_null(v: &Value) -> bool
    ensures { IsTrue result ↔ (v.now ≡ value.Null) }
{
    match v {
        Value::Number(_) => false,
        Value::Null => true,
        Value::Pointer { .. } => false,
        Value::Wild => false,
    }
}

fn has_room(m: &Memory2, v: &Pointers, w: &Pointers) -> bool
    requires v { v.now.lo ≤ℤ v.now.hi }
    requires w { w.now.lo ≤ℤ w.now.hi }
    ensures { IsTrue result ↔ MovedRoom m.now.blocks v.now w.now }
{
    match v.base {
        Value::Number(_) => is_null(&w.base),
        Value::Null => true,
        Value::Wild => is_null(&w.base),
        Value::Pointer { block, offset } => match w.base {
            Value::Number(_) => false,
            Value::Null => true,
            Value::Wild => false,
            Value::Pointer {
                block: other,
                offset: place,
            } => match m.blocks.get(block as usize) {
                None => false,
                Some(c) => match m.blocks.get(other as usize) {
                    None => false,
                    Some(d) => fits(c, &offsets(&offset, v), d, &offsets(&place, w)),
                },
            },
        },
    }
}

pub(crate) fn room_for(f: &Frame, m: &Memory2, p: &Place, q: &Place) -> bool
    ensures { IsTrue result ↔ EachPointer f.now p.now (λ v. EachPointer f.now q.now (λ w. HasRoom m.now.blocks v w)) }
{
    match pointers_of(f, p) {
        Err(answer) => answer,
        Ok(v) => match pointers_of(f, q) {
            Err(answer) => answer,
            Ok(w) => has_room(m, &v, &w),
        },
    }
}
