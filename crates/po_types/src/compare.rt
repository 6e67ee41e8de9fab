// Whether two types are the same.
ghost use Rattle.std.specs.Prelude.{◌≡◌, ◌↔◌, IsTrue};

use crate::ctype::CType;
use crate::kinds::{elements, integer, is_void, pointee, signature, structure};
use po_arith::IntType;

/// Whether two types are the same. Takes time in the length of the shorter one, and no recursion goes down pointers and arrays.
#[cycle(same)]
pub fn same(a: &CType, b: &CType) -> bool
    ensures { IsTrue result ↔ (a.now ≡ b.now) }
{
    let mut left = a;
    let mut right = b;
    loop {
        match left {
            CType::Void => return is_void(right),
            CType::Int(s) => {
                return match integer(right) {
                    None => false,
                    Some(t) => same_integer(*s, t),
                };
            }
            CType::Struct(m) => {
                return match structure(right) {
                    None => false,
                    Some(n) => *m == n,
                };
            }
            CType::Ptr(x) => match pointee(right) {
                None => return false,
                Some(y) => {
                    left = x.get();
                    right = y;
                }
            },
            CType::Array(x, m) => match elements(right) {
                None => return false,
                Some((y, n)) => {
                    if *m != n {
                        return false;
                    }
                    left = x.get();
                    right = y;
                }
            },
            CType::Fun(x, xs, more) => match signature(right) {
                None => return false,
                Some((y, ys, others)) => {
                    if *more != others {
                        return false;
                    }
                    if !all_same(xs.get().as_slice(), ys) {
                        return false;
                    }
                    left = x.get();
                    right = y;
                }
            },
        }
    }
}

/// The same of two integer types.
fn same_integer(s: IntType, t: IntType) -> bool
    ensures { IsTrue result ↔ (s ≡ t) }
{
    s == t
}

/// The same of two lists.
#[cycle(same)]
fn all_same(xs: &[CType], ys: &[CType]) -> bool
    ensures { IsTrue result ↔ (xs.now ≡ ys.now) }
{
    if xs.len() != ys.len() {
        return false;
    }
    for i in 0..xs.len() {
        if !same(&xs[i], &ys[i]) {
            return false;
        }
    }
    true
}
