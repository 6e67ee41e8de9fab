ghost use Rattle.std.specs.Prelude.{◌≡◌, IfOk};
ghost use Rattle.core_tests.specs.Sample.{verdict_by};

use po_base::{FileNo, FunNo, List, Memory, NodeNo};
use po_core::{Obl, Rulebook, Verdict};
use po_ledger::Naming;
use std::alloc::Global;

/// A rulebook in small: three functions in two files that call each other in a circle. The first asks two things by
/// itself, and one of them is passed on to the callers, round the circle.
pub(crate) struct Sample;

/// The name of the sample's book.
pub(crate) struct OfSample;

impl Naming<u8, u8, u32> for OfSample {
    ghost use Rattle.core_tests.specs.Sample.{sample};

    ghost book = { sample };
}

impl Rulebook for Sample {
    ghost use Rattle.core_tests.specs.Sample.{sample, sample_lawful};

    type Pred = u8;

    type Rule = u8;

    type Table = u32;

    ghost meaning = { λ _. sample };

    fn files(&self) -> u32 {
        2
    }

    fn functions(&self) -> u32 {
        3
    }

    fn file_of(&self, f: FunNo) -> FileNo {
        if f.0 == 2 {
            return FileNo(1);
        }
        FileNo(0)
    }

    fn primaries(&self, alloc: Global, f: FunNo) -> Result<List<(NodeNo, u32)>, Memory> {
        match f.0 {
            0 => list_of(alloc, &[(NodeNo(0), 0), (NodeNo(3), 0)]),
            _ => Ok(List::new(alloc)),
        }
    }

    fn call_sites(&self, alloc: Global, f: FunNo) -> Result<List<(FunNo, NodeNo)>, Memory> {
        match f.0 {
            0 => list_of(alloc, &[(FunNo(1), NodeNo(4)), (FunNo(2), NodeNo(5))]),
            1 => list_of(alloc, &[(FunNo(0), NodeNo(0))]),
            2 => list_of(alloc, &[(FunNo(1), NodeNo(2))]),
            _ => Ok(List::new(alloc)),
        }
    }

    fn table(&self, _alloc: Global, f: FunNo) -> Result<u32, Memory> {
        Ok(f.0)
    }

    fn verdict(&self, _alloc: Global, o: &Obl<u8>, t: &u32) -> Result<Verdict<u8, u8>, Memory> {
        Ok(verdict_by(*t == 2, o.node.0 == 3))
    }

    ghost lawful = { λ _. sample_lawful };
}

/// The list of these items.
fn list_of<T: Copy>(alloc: Global, items: &[T]) -> Result<List<T>, Memory>
    ensures { IfOk result (λ list. list ≡ items.now) }
{
    Ok(List::from_vec(Vec::from_slice(alloc, items)?))
}

/// What is asked in the third function is open, what is asked at node 3 is closed, and all else is passed on.
fn verdict_by(in_third: bool, at_three: bool) -> Verdict<u8, u8>
    ensures { result ≡ verdict_by in_third at_three }
{
    if in_third {
        return Verdict::Open;
    }
    if at_three {
        return Verdict::Closed(1);
    }
    Verdict::Delegated(7)
}
