// The common bytes of two ascending lists.
ghost use Rattle.std.specs.Prelude.{◌≡◌, ◌≤◌, ◌<◌, ◌+◌, ◌++◌, drop, false, length, IfOk, IfSome, IfNone};
ghost use Rattle.po_bases.specs.Filled as bytes;

use po_base::{List, Memory};
use std::alloc::Global;
use std::cmp::Ordering;

/// Puts the next byte of two ascending lists at the end of a list where it is the same, and says at which places
/// they go on.
fn step(
    list: &mut List<u16>,
    xs: &[u16],
    i: usize,
    ys: &[u16],
    j: usize,
) -> Result<(usize, usize), Memory>
    requires first { i < length xs.now }
    requires second { j < length ys.now }
    ensures within { IfOk result (λ at. (at.0 ≤ length xs.now) × (at.1 ≤ length ys.now) × (i + j < at.0 + at.1)) }
    ensures meets { IfOk result (λ at.
        list.new ++ bytes.common (drop at.0 xs.now) (drop at.1 ys.now)
        ≡ list.old ++ bytes.common (drop i xs.now) (drop j ys.now)) }
{
    match xs[i].cmp(&ys[j]) {
        Ordering::Less => Ok((i + 1, j)),
        Ordering::Equal => {
            list.push(xs[i])?;
            Ok((i + 1, j + 1))
        }
        Ordering::Greater => Ok((i, j + 1)),
    }
}

/// The bytes of both of two ascending lists. Time and memory are those of one copy of both.
pub fn common(alloc: Global, xs: &[u16], ys: &[u16]) -> Result<List<u16>, Memory>
    ensures { IfOk result (λ list. list ≡ bytes.common xs.now ys.now) }
{
    let mut list = List::new(alloc);
    let mut i = 0;
    let mut j = 0;
    while i < xs.len() && j < ys.len() {
        (i, j) = step(&mut list, xs, i, ys, j)?;
    }
    Ok(list)
}

/// The places at which the search for the bytes of the second list in the first goes on; none where the second
/// list's next byte isn't in the first.
fn next(xs: &[u16], i: usize, ys: &[u16], j: usize) -> Option<(usize, usize)>
    requires first { i < length xs.now }
    requires second { j < length ys.now }
    ensures within { IfSome result (λ at. (at.0 ≤ length xs.now) × (at.1 ≤ length ys.now) × (i + j < at.0 + at.1)) }
    ensures goes_on { IfSome result (λ at. bytes.has_all (drop i xs.now) (drop j ys.now) ≡ bytes.has_all (drop at.0 xs.now) (drop at.1 ys.now)) }
    ensures ends { IfNone result (bytes.has_all (drop i xs.now) (drop j ys.now) ≡ false) }
{
    match xs[i].cmp(&ys[j]) {
        Ordering::Less => Some((i + 1, j)),
        Ordering::Equal => Some((i + 1, j + 1)),
        Ordering::Greater => None,
    }
}

/// Whether each byte of the second of two ascending lists is one of the first. In linear time.
pub fn has_all(xs: &[u16], ys: &[u16]) -> bool
    ensures { result ≡ bytes.has_all xs.now ys.now }
{
    let mut i = 0;
    let mut j = 0;
    while i < xs.len() && j < ys.len() {
        match next(xs, i, ys, j) {
            Some((x, y)) => {
                i = x;
                j = y;
            }
            None => return false,
        }
    }
    j == ys.len()
}
