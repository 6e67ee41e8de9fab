// Few numbers, or any: their order and joins.
ghost use Rattle.std.specs.Prelude.{◌≡◌, IfOk};
ghost use Rattle.po_interval.specs.Members as members;

use crate::sets::{few, insert_all, numbers_within};
use po_base::{Memory, OrdList, SharedList};
use std::alloc::Global;

/// The numbers that a value may be: at most eight, ascending and each once, or any.
///
/// The list is shared, so that members take 16 bytes and are copied without asking for memory.
#[derive(Debug, Drop, PartialEq, Eq)]
pub enum Members {
    Few(SharedList<i128>),
    Any,
}

impl Members {
    /// The same members once more, in constant time and without asking for memory. `Memory` where the count
    /// of the list's owners is full.
    pub fn share(&self) -> Result<Members, Memory>
        ensures { IfOk result (λ m. m ≡ self.now) }
    {
        match self {
            Members::Few(list) => Ok(Members::Few(list.share()?)),
            Members::Any => Ok(Members::Any),
        }
    }
}

/// Whether each number that `a` allows is one that `b` allows.
pub fn members_within(a: &Members, b: &Members) -> bool
    ensures { result ≡ members.members_within a.now b.now }
{
    match b {
        Members::Any => true,
        Members::Few(ys) => match a {
            Members::Any => false,
            Members::Few(xs) => numbers_within(xs.as_slice(), ys.as_slice()),
        },
    }
}

/// The numbers that one of two allows, where these are at most eight.
fn join_few(alloc: Global, xs: &[i128], ys: &[i128]) -> Result<Members, Memory>
    ensures { IfOk result (λ m. m ≡ members.join_few xs.now ys.now) }
{
    let mut numbers = OrdList::new(alloc);
    insert_all(&mut numbers, xs)?;
    insert_all(&mut numbers, ys)?;
    few(alloc, &numbers)
}

/// The least members that allow what `a` and what `b` allows: all numbers of both where these are at most
/// eight, else any.
pub fn join_members(alloc: Global, a: &Members, b: &Members) -> Result<Members, Memory>
    ensures { IfOk result (λ m. m ≡ members.join_members a.now b.now) }
{
    match a {
        Members::Any => Ok(Members::Any),
        Members::Few(xs) => match b {
            Members::Any => Ok(Members::Any),
            Members::Few(ys) => join_few(alloc, xs.as_slice(), ys.as_slice()),
        },
    }
}
