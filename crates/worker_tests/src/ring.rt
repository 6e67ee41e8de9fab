ghost use Rattle.std.specs.Prelude.{◌≡◌, IfOk};
ghost use Rattle.worker_tests.specs.Ring.{caller, verdict_by};

use po_base::{FileNo, FunNo, List, Memory, NodeNo};
use po_core::{Cause, Obl, Report, Rulebook, Verdict};
use po_ledger::Naming;
use std::alloc::Global;
use std::sync::atomic::{AtomicU64, Ordering};

/// A rulebook in small: four functions, each in a file of its own, that call each other in a circle. The first and the third ask
/// something by themselves, which goes round the circle and is open where it comes to the first.
#[derive(Drop)]
pub(crate) struct Ring {
    /// Whether the next table is refused, as if memory were wanting.
    refuses: AtomicU64,
}

/// The name of the ring's book.
pub(crate) struct OfRing;

impl Naming<u8, u8, u32> for OfRing {
    ghost use Rattle.worker_tests.specs.Ring.{ring};

    ghost book = { ring };
}

impl Ring {
    /// A ring that refuses nothing yet.
    pub(crate) fn new() -> Ring {
        Ring {
            refuses: AtomicU64::new(0),
        }
    }

    /// Refuses the next table.
    pub(crate) fn refuse(&self) {
        self.refuses.store(1, Ordering::SeqCst);
    }

    /// Whether a table is still to be refused.
    pub(crate) fn refuses(&self) -> bool {
        self.refuses.load(Ordering::SeqCst) != 0
    }
}

impl Rulebook for Ring {
    ghost use Rattle.worker_tests.specs.Ring.{ring, ring_lawful};

    type Pred = u8;

    type Rule = u8;

    type Table = u32;

    ghost meaning = { λ _. ring };

    fn files(&self) -> u32 {
        4
    }

    fn functions(&self) -> u32 {
        4
    }

    fn file_of(&self, f: FunNo) -> FileNo {
        FileNo(f.0)
    }

    fn primaries(&self, alloc: Global, f: FunNo) -> Result<List<(NodeNo, u32)>, Memory> {
        match f.0 {
            0 => list_of(alloc, &[(NodeNo(0), 0)]),
            2 => list_of(alloc, &[(NodeNo(0), 0)]),
            _ => Ok(List::new(alloc)),
        }
    }

    fn call_sites(&self, alloc: Global, f: FunNo) -> Result<List<(FunNo, NodeNo)>, Memory> {
        list_of(alloc, &[(FunNo(caller(f.0)), NodeNo(1))])
    }

    fn table(&self, _alloc: Global, f: FunNo) -> Result<u32, Memory> {
        if self.refuses.swap(0, Ordering::SeqCst) != 0 {
            return Err(Memory);
        }
        Ok(f.0)
    }

    fn verdict(&self, _alloc: Global, o: &Obl<u8>, t: &u32) -> Result<Verdict<u8, u8>, Memory> {
        Ok(verdict_by(*t == 0 && o.node.0 == 1))
    }

    ghost lawful = { λ _. ring_lawful };
}

/// The function that calls another.
fn caller(f: u32) -> u32
    ensures { result ≡ caller f }
{
    match f {
        0 => 1,
        1 => 2,
        2 => 3,
        _ => 0,
    }
}

/// The list of these items.
fn list_of<T: Copy>(alloc: Global, items: &[T]) -> Result<List<T>, Memory>
    ensures { IfOk result (λ list. list ≡ items.now) }
{
    Ok(List::from_vec(Vec::from_slice(alloc, items)?))
}

/// What is asked at a call of the first function is open, and all else is passed on.
fn verdict_by(at_first: bool) -> Verdict<u8, u8>
    ensures { result ≡ verdict_by at_first }
{
    if at_first {
        return Verdict::Open;
    }
    Verdict::Delegated(7)
}

/// An obligation of the ring.
fn obligation(fun: u32, node: u32, cause: Cause<u8>) -> Obl<u8> {
    Obl {
        fun: FunNo(fun),
        node: NodeNo(node),
        cause,
    }
}

/// Whether a report is the ring's: what the first and the third ask is passed on from each function to the one that calls it,
/// so each is entered with it; where it comes to the first it is open.
pub(crate) fn is_of_ring(report: &Report<u8, u8>) -> bool {
    let own = Cause::Primary(0);
    let passed = Cause::Support(7);
    let lines = [
        (obligation(0, 0, own), Verdict::Delegated(7)),
        (obligation(0, 1, passed), Verdict::Open),
        (obligation(1, 1, passed), Verdict::Delegated(7)),
        (obligation(2, 0, own), Verdict::Delegated(7)),
        (obligation(2, 1, passed), Verdict::Delegated(7)),
        (obligation(3, 1, passed), Verdict::Delegated(7)),
    ];
    let assumptions = [
        (FunNo(0), 7_u8),
        (FunNo(1), 7_u8),
        (FunNo(2), 7_u8),
        (FunNo(3), 7_u8),
    ];
    report.lines.as_slice() == &lines[..] && report.assumptions.as_slice() == &assumptions[..]
}
