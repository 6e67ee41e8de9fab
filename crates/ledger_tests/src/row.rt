ghost use Rattle.std.specs.Prelude.{◌≡◌, ◌<◌, IfOk};
ghost use Rattle.ledger_tests.specs.Rows.{caller, delegated_as, sites, verdict_by};

use po_base::{FileNo, FunNo, List, Memory, NodeNo};
use po_core::{Cause, Obl, Rulebook, Verdict};
use std::alloc::Global;

/// A rulebook in small: functions that call each other in a chain or in a circle, dealt to some files in turn.
///
/// Each function is called by the next one, at node 1. Some functions ask three things by themselves: the first is passed on to the
/// callers as predicate 7, the second is closed, and the third is passed on as predicate 8. What is passed on to a call is passed on
/// again, but in one function, where it is open.
#[derive(Clone, Copy)]
pub struct Row {
    /// How many functions there are.
    pub functions: u32,
    /// How many files there are beside the first one.
    pub more_files: u16,
    /// Whether the first function calls the last one.
    pub is_circle: bool,
    /// Whether each call stands at node 2 once more.
    pub is_twice: bool,
    /// How many functions that ask nothing stand between two that ask.
    pub silent: u16,
    /// The function where all that is passed on is open.
    pub open_at: u32,
}

impl Rulebook for Row {
    ghost use Rattle.ledger_tests.specs.Rows.{book_of, book_lawful};

    type Pred = u8;

    type Rule = u8;

    type Table = u32;

    ghost meaning = { λ r. book_of r.functions r.more_files r.is_circle r.is_twice r.silent r.open_at };

    fn files(&self) -> u32 {
        u32::from(self.more_files) + 1
    }

    fn functions(&self) -> u32 {
        self.functions
    }

    fn file_of(&self, f: FunNo) -> FileNo {
        FileNo(f.0 % (u32::from(self.more_files) + 1))
    }

    fn primaries(&self, alloc: Global, f: FunNo) -> Result<List<(NodeNo, u32)>, Memory> {
        if f.0 % (u32::from(self.silent) + 1) == 0 {
            return list_of(alloc, &[(NodeNo(0), 0), (NodeNo(0), 1), (NodeNo(3), 2)]);
        }
        Ok(List::new(alloc))
    }

    fn call_sites(&self, alloc: Global, f: FunNo) -> Result<List<(FunNo, NodeNo)>, Memory> {
        sites(
            alloc,
            self.is_twice,
            caller(self.is_circle, self.functions, f.0),
        )
    }

    fn table(&self, _alloc: Global, f: FunNo) -> Result<u32, Memory> {
        Ok(f.0)
    }

    fn verdict(&self, _alloc: Global, o: &Obl<u8>, t: &u32) -> Result<Verdict<u8, u8>, Memory> {
        Ok(verdict_by(o.cause, *t == self.open_at))
    }

    ghost lawful = { λ r. book_lawful r.functions r.more_files r.is_circle r.is_twice r.silent r.open_at };
}

/// The function that calls another one.
fn caller(is_circle: bool, functions: u32, f: u32) -> Option<FunNo>
    requires { f < functions }
    ensures { result ≡ caller is_circle functions f }
{
    if f + 1 < functions {
        return Some(FunNo(f + 1));
    }
    if is_circle {
        return Some(FunNo(0));
    }
    None
}

/// The call sites in a function that calls, where there is one.
fn sites(
    alloc: Global,
    is_twice: bool,
    caller: Option<FunNo>,
) -> Result<List<(FunNo, NodeNo)>, Memory>
    ensures { IfOk result (λ list. list ≡ sites is_twice caller) }
{
    match (caller, is_twice) {
        (Some(g), true) => list_of(alloc, &[(g, NodeNo(1)), (g, NodeNo(2))]),
        (Some(g), false) => list_of(alloc, &[(g, NodeNo(1))]),
        (None, _) => Ok(List::new(alloc)),
    }
}

/// The list of these items.
fn list_of<T: Copy>(alloc: Global, items: &[T]) -> Result<List<T>, Memory>
    ensures { IfOk result (λ list. list ≡ items.now) }
{
    Ok(List::from_vec(Vec::from_slice(alloc, items)?))
}

/// The predicate as which a predicate is passed on.
fn delegated_as(q: u8) -> u8
    ensures { result ≡ delegated_as q }
{
    if q == 7 {
        return 7;
    }
    8
}

/// The verdict of what stands at a node for a cause, in the function where all that is passed on is open or in another one.
fn verdict_by(cause: Cause<u8>, is_open: bool) -> Verdict<u8, u8>
    ensures { result ≡ verdict_by cause is_open }
{
    match cause {
        Cause::Primary(0) => Verdict::Delegated(7),
        Cause::Primary(1) => Verdict::Closed(9),
        Cause::Primary(_) => Verdict::Delegated(8),
        Cause::Support(q) => {
            if is_open {
                return Verdict::Open;
            }
            Verdict::Delegated(delegated_as(q))
        }
    }
}
