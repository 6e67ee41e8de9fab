// Which functions' calls reach others.
ghost use Rattle.std.specs.Prelude.{false, true, ◌≡◌, ◌≢◌, ◌<◌, ◌++◌, ◌↔◌, Some, Contains, IfOk, OnOk, IsTrue, length, map, replicate, slice_get};
ghost use Rattle.po_ir.specs.Leading.{AreLeading, Visits, caller_of, start_of};
ghost use Rattle.po_ir.specs.General.{each_from};

use crate::calls::{Sites, counted};
use po_base::{FunNo, List, Memory, NodeNo};
use std::alloc::Global;

/// Puts the calling functions at the end of the list.
fn add_callers(stack: &mut List<FunNo>, sites: &[(FunNo, NodeNo)]) -> Result<(), Memory>
    ensures { OnOk result (stack.new ≡ stack.old ++ map caller_of sites.now) }
{
    for site in sites {
        stack.push(site.0)?;
    }
    Ok(())
}

/// Whether the function of this place is there and isn't marked yet.
fn is_unmarked(marks: &List<bool>, at: usize) -> bool
    ensures unmarked { IsTrue result ↔ (slice_get marks.now at ≡ Some false) }
    ensures within { IsTrue result → at < length marks.now }
{
    match marks.get(at) {
        Some(mark) => !*mark,
        None => false,
    }
}

/// Marks a function, where it isn't marked, and puts its callers at the end of the list.
fn visit(
    callers: &[Sites],
    fun: FunNo,
    marks: &mut List<bool>,
    stack: &mut List<FunNo>,
) -> Result<(), Memory>
    requires { length marks.old ≡ length callers.now }
    ensures { OnOk result (Visits callers.now fun marks.old marks.new stack.old stack.new) }
{
    let at = fun.0 as usize;
    if is_unmarked(marks, at) {
        add_callers(stack, callers[at].as_slice())?;
        marks.set(at, true);
    }
    Ok(())
}

fn add_marked(stack: &mut List<FunNo>, fun: FunNo, mark: bool) -> Result<(), Memory>
    ensures { OnOk result (stack.new ≡ stack.old ++ start_of fun.0 mark) }
{
    if mark {
        stack.push(fun)?;
    }
    Ok(())
}

/// The functions that are marked.
fn starting(alloc: Global, here: &List<bool>) -> Result<List<FunNo>, Memory>
    ensures { IfOk result (λ stack. stack ≡ each_from start_of 0 here.now) }
{
    let mut stack = List::new(alloc);
    for (place, mark) in here.as_slice().iter().enumerate() {
        let fun = FunNo(counted(place)?);
        add_marked(&mut stack, fun, *mark)?;
    }
    Ok(stack)
}

fn unmarked(alloc: Global, count: usize) -> Result<List<bool>, Memory>
    ensures { IfOk result (λ marks. marks ≡ replicate count false) }
{
    let mut marks = List::new(alloc);
    for _ in 0..count {
        marks.push(false)?;
    }
    Ok(marks)
}

/// Marks what leads to the marked functions over the lists of callers, in time linear in these lists: each function's
/// callers are visited once.
pub(crate) fn reach(
    alloc: Global,
    callers: &[Sites],
    here: &List<bool>,
) -> Result<List<bool>, Memory>
    requires { length here.now ≡ length callers.now }
    ensures { IfOk result (AreLeading callers.now here.now) }
{
    let mut stack = starting(alloc, here)?;
    let mut marks = unmarked(alloc, here.len())?;
    for _ in 0..u64::MAX {
        match stack.pop() {
            None => return Ok(marks),
            Some(fun) => visit(callers, fun, &mut marks, &mut stack)?,
        }
    }
    Err(Memory)
}
