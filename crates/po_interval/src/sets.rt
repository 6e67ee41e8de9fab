// Small sets of numbers.
ghost use Rattle.std.specs.Prelude.{◌≡◌, IfOk};
ghost use Rattle.po_interval.specs.Sets as sets;

use crate::members::Members;
use po_base::{List, Memory, OrdList, SharedList};
use std::alloc::Global;

/// The most numbers that members list.
const MOST: usize = 8;

/// Whether a number is in a list.
fn has(numbers: &[i128], v: i128) -> bool
    ensures { result ≡ sets.has numbers.now v }
{
    numbers.contains(&v)
}

/// Whether all of some numbers are among others.
pub(crate) fn numbers_within(xs: &[i128], ys: &[i128]) -> bool
    ensures { result ≡ sets.numbers_within xs.now ys.now }
{
    xs.iter().all(|x| has(ys, *x))
}

/// Puts numbers into a set.
pub(crate) fn insert_all(numbers: &mut OrdList<i128>, more: &[i128]) -> Result<(), Memory>
    ensures { IfOk result (λ _. numbers.new ≡ sets.insert_all numbers.old more.now) }
{
    for v in more {
        numbers.insert(*v)?;
    }
    Ok(())
}

/// The numbers of a set as a list.
fn listed(alloc: Global, numbers: &OrdList<i128>) -> Result<SharedList<i128>, Memory>
    ensures { IfOk result (λ list. list ≡ numbers.now) }
{
    let mut list = List::new(alloc);
    for v in numbers.iter() {
        list.push(*v)?;
    }
    SharedList::from_list(list)
}

/// Members of the numbers of a set: these where they are at most eight, else any.
pub(crate) fn few(alloc: Global, numbers: &OrdList<i128>) -> Result<Members, Memory>
    ensures { IfOk result (λ m. m ≡ sets.few numbers.now) }
{
    if numbers.len() <= MOST {
        Ok(Members::Few(listed(alloc, numbers)?))
    } else {
        Ok(Members::Any)
    }
}
