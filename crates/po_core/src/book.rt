// Rulebooks: what an analysis asks, and how it decides.
ghost use Rattle.std.specs.Prelude.{◌≡◌, ◌<◌, IfOk};
ghost use Rattle.po_core.specs.Book.{Book, IsBook};

use crate::obl::{Obl, Verdict};
use po_base::{FileNo, FunNo, List, Memory, NodeNo};
use std::alloc::Global;
use std::hash::Hash;

/// What an analysis asks about a program, and how it decides.
///
/// A rulebook has one meaning, a `Book`: its files and functions, which obligations each function has by
/// itself, where each function is called, and the verdict of each obligation. The laws say that the parts
/// that it names are there, that equal predicates are the same, and that verdicts delegate to finitely many
/// predicates. A verdict is a function of the obligation: neither the worker that asks nor the moment counts.
pub trait Rulebook {
    /// What has to hold at a node.
    type Pred: Copy + Ord + Hash;

    /// By what an obligation is closed.
    type Rule: Copy;

    /// What has to be worked out for a function before its obligations can be decided.
    type Table: Drop;

    ghost meaning: { Self → Book Self.Pred Self.Rule Self.Table };

    /// How many files there are.
    fn files(&self) -> u32
        ensures { result ≡ (meaning self.now).files };

    /// How many functions there are.
    fn functions(&self) -> u32
        ensures { result ≡ (meaning self.now).functions };

    /// The file that a function stands in.
    fn file_of(&self, f: FunNo) -> FileNo
        requires { f.0 < (meaning self.now).functions }
        ensures { result ≡ (meaning self.now).file_of f };

    /// The node and the place of each obligation that a function has by itself.
    fn primaries(&self, alloc: Global, f: FunNo) -> Result<List<(NodeNo, u32)>, Memory>
        requires { f.0 < (meaning self.now).functions }
        ensures { IfOk result (λ places. places ≡ (meaning self.now).primaries f) };

    /// The function and the node of each call of a function.
    fn call_sites(&self, alloc: Global, f: FunNo) -> Result<List<(FunNo, NodeNo)>, Memory>
        requires { f.0 < (meaning self.now).functions }
        ensures { IfOk result (λ sites. sites ≡ (meaning self.now).call_sites f) };

    /// What verdicts of a function's obligations are read from. This may take long; the other calls are short.
    fn table(&self, alloc: Global, f: FunNo) -> Result<Self::Table, Memory>
        requires { f.0 < (meaning self.now).functions }
        ensures { IfOk result (λ table. (meaning self.now).table_of f ≡ Some table) };

    /// The verdict of an obligation, read from its function's table.
    fn verdict(
        &self,
        alloc: Global,
        o: &Obl<Self::Pred>,
        t: &Self::Table,
    ) -> Result<Verdict<Self::Pred, Self::Rule>, Memory>
        requires { (meaning self.now).table_of o.now.fun ≡ Some t.now }
        ensures { IfOk result (λ verdict. verdict ≡ (meaning self.now).verdict_of o.now) };

    ghost lawful: { (b : Self) → IsBook Self.Pred.eq (meaning b) };
}
