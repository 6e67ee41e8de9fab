// Two maps merged, entries of one key joined.
ghost use Rattle.std.specs.Prelude.{◌≡◌, ◌≤◌, ◌<◌, ◌+◌, ◌++◌, drop, length, IfOk, OnOk, OnErr};
ghost use Rattle.po_bases.specs.Maps.{merged};

use crate::keyed::Keyed;
use po_base::{List, Memory};
use std::alloc::Global;
use std::cmp::Ordering;

/// Puts the same entries once more at the end of a list.
fn append<E: Keyed + Drop>(list: &mut List<E>, entries: &[E]) -> Result<(), Memory>
    ensures { OnOk result (list.new ≡ list.old ++ entries.now) }
{
    for entry in entries {
        list.push(entry.share()?)?;
    }
    Ok(())
}

/// Puts the next entry of two maps at the end of a list, where each has one at its place, and says at which places
/// they go on.
fn step<E: Keyed + Drop>(
    alloc: Global,
    list: &mut List<E>,
    xs: &[E],
    i: usize,
    ys: &[E],
    j: usize,
) -> Result<(usize, usize), Memory>
    requires first { i < length xs.now }
    requires second { j < length ys.now }
    ensures within { IfOk result (λ at. (at.0 ≤ length xs.now) × (at.1 ≤ length ys.now) × (i + j < at.0 + at.1)) }
    ensures merges { IfOk result (λ at.
        list.new ++ merged E.key_order E.joined (drop at.0 xs.now) (drop at.1 ys.now)
        ≡ list.old ++ merged E.key_order E.joined (drop i xs.now) (drop j ys.now)) }
{
    let x = &xs[i];
    let y = &ys[j];
    match x.cmp_key(y) {
        Ordering::Less => {
            list.push(x.share()?)?;
            Ok((i + 1, j))
        }
        Ordering::Equal => {
            list.push(x.join(alloc, y)?)?;
            Ok((i + 1, j + 1))
        }
        Ordering::Greater => {
            list.push(y.share()?)?;
            Ok((i, j + 1))
        }
    }
}

/// The entries of two maps, and the join of two entries of one key. Time and memory are those of one copy of both.
pub fn merge<E: Keyed + Drop>(alloc: Global, xs: &[E], ys: &[E]) -> Result<List<E>, Memory>
    ensures { IfOk result (λ list. list ≡ merged E.key_order E.joined xs.now ys.now) }
{
    let mut list = List::new(alloc);
    let mut i = 0;
    let mut j = 0;
    while i < xs.len() && j < ys.len() {
        (i, j) = step(alloc, &mut list, xs, i, ys, j)?;
    }
    append(&mut list, &xs[i..])?;
    append(&mut list, &ys[j..])?;
    Ok(list)
}
