// The least report of a rulebook, by many workers or alone.
ghost use Rattle.std.specs.Prelude.{◌≡◌, ◌≤◌, IfOk};
ghost use Rattle.std.specs.Thread.{IsSend, IsSync};
ghost use Rattle.po_core.specs.Core.{IsQuiet};
ghost use Rattle.po_core.specs.Least.{IsLeastReport};
ghost use Rattle.po_worker.specs.Alone.{NoneHeld};
ghost use Rattle.po_worker.specs.Work.{EndsQuiet};

use crate::alone::solve_alone;
use crate::gate::Gate;
use crate::locked::put_back_all;
use crate::shared::Shared;
use crate::working::work;
use po_base::Memory;
use po_core::{Journal, Report, Rulebook};
use po_ledger::{Ledger, Naming, ReportFail};
use std::alloc::Global;
use std::marker::Brand;
use std::sync::Wait;
use std::thread;
use std::thread::Threads;

/// The least report of a rulebook, and the journal of how it was found: by so many workers at once, numbered from 1, and
/// then by the caller alone, as worker 0, who does what they have left. A worker that ends early, or that can't be started,
/// leaves its work to the others and the caller. It returns where its workers do.
pub fn solve<R: Rulebook + Sync, T: Threads + Wait + Sync, G: Gate + Sync>(
    rt: &T,
    alloc: Global,
    book: &R,
    workers: u8,
    gate: &G,
) -> Result<(Report<R::Pred, R::Rule>, Journal<R::Pred, R::Rule>), Memory>
where
    R::Pred: Send,
    R::Rule: Send,
    R::Table: Send,
    requires { (1 ≤ workers) × (workers ≤ 64) }
    ensures report { IfOk result (λ found. IsLeastReport R.Pred.cmp (R.meaning book.now) found.0) }
    ensures journal { IfOk result (λ found. EndsQuiet (R.meaning book.now) found.1) }
{
    solve_named::<R, Brand, T, G>(rt, alloc, book, workers, gate)
}

/// The least report of a rulebook, and the journal of how it was found, by the caller alone. It waits for nobody and returns.
pub fn solve_book_alone<R: Rulebook>(
    alloc: Global,
    book: &R,
) -> Result<(Report<R::Pred, R::Rule>, Journal<R::Pred, R::Rule>), Memory>
    ensures report { IfOk result (λ found. IsLeastReport R.Pred.cmp (R.meaning book.now) found.0) }
    ensures journal { IfOk result (λ found. EndsQuiet (R.meaning book.now) found.1) }
{
    solve_named_alone::<R, Brand>(alloc, book)
}

/// The least report of the rulebook that a type names, and its journal.
fn solve_named<
    R: Rulebook + Sync,
    J: Naming<R::Pred, R::Rule, R::Table> + Send + Sync,
    T: Threads + Wait + Sync,
    G: Gate + Sync,
>(
    rt: &T,
    alloc: Global,
    book: &R,
    workers: u8,
    gate: &G,
) -> Result<(Report<R::Pred, R::Rule>, Journal<R::Pred, R::Rule>), Memory>
where
    R::Pred: Send,
    R::Rule: Send,
    R::Table: Send,
    requires { R.meaning book.now ≡ J.book }
    ensures report { IfOk result (λ found. IsLeastReport R.Pred.cmp J.book found.0) }
    ensures journal { IfOk result (λ found. EndsQuiet J.book found.1) }
{
    let shared: Shared<'_, R, J> = Shared::new(Ledger::new(alloc, book)?);
    run_workers(rt, alloc, &shared, workers, gate);
    let mut ledger = shared.into_ledger();
    put_back_all(&mut ledger);
    finish(alloc, ledger)
}

/// The least report of the rulebook that a type names, and its journal, by the caller alone.
fn solve_named_alone<R: Rulebook, J: Naming<R::Pred, R::Rule, R::Table>>(
    alloc: Global,
    book: &R,
) -> Result<(Report<R::Pred, R::Rule>, Journal<R::Pred, R::Rule>), Memory>
    requires { R.meaning book.now ≡ J.book }
    ensures report { IfOk result (λ found. IsLeastReport R.Pred.cmp J.book found.0) }
    ensures journal { IfOk result (λ found. EndsQuiet J.book found.1) }
{
    let ledger: Ledger<'_, R, J> = Ledger::new(alloc, book)?;
    finish(alloc, ledger)
}

/// Starts the workers and waits until each has ended, for whatever cause. No answer rests on what they did.
fn run_workers<
    R: Rulebook + Sync,
    J: Naming<R::Pred, R::Rule, R::Table> + Send + Sync,
    T: Threads + Wait + Sync,
    G: Gate + Sync,
>(rt: &T, alloc: Global, shared: &Shared<'_, R, J>, workers: u8, gate: &G)
where
    R::Pred: Send,
    R::Rule: Send,
    R::Table: Send,
{
    thread::scope(
        thread::scope_env(),
        rt,
        |scope|
            requires { IsSync T.row × IsSync G.row × IsSync R.row × IsSend J.row × IsSend R.Pred.row × IsSend R.Rule.row × IsSend R.Table.row }
        {
            for before in 0..workers {
                let worker = before + 1;
                let _started = scope.spawn(move || work(rt, alloc, shared, worker, gate));
            }
        },
    );
}

/// Does what is left of a ledger of which nobody holds a file, and answers its report and its journal.
fn finish<R: Rulebook, J: Naming<R::Pred, R::Rule, R::Table>>(
    alloc: Global,
    ledger: Ledger<'_, R, J>,
) -> Result<(Report<R::Pred, R::Rule>, Journal<R::Pred, R::Rule>), Memory>
    requires { NoneHeld ledger.state }
    ensures report { IfOk result (λ found. IsLeastReport R.Pred.cmp J.book found.0) }
    ensures journal { IfOk result (λ found. EndsQuiet J.book found.1) }
{
    let mut ledger = ledger;
    solve_alone(alloc, &mut ledger)?;
    report_and_close(alloc, ledger)
}

/// The report and the journal of a ledger that is quiet.
fn report_and_close<R: Rulebook, J: Naming<R::Pred, R::Rule, R::Table>>(
    alloc: Global,
    ledger: Ledger<'_, R, J>,
) -> Result<(Report<R::Pred, R::Rule>, Journal<R::Pred, R::Rule>), Memory>
    requires { IsQuiet ledger.state }
    ensures report { IfOk result (λ found. IsLeastReport R.Pred.cmp J.book found.0) }
    ensures journal { IfOk result (λ found. EndsQuiet J.book found.1) }
{
    ledger.keeps_its_facts();
    match ledger.report(alloc) {
        Ok(report) => Ok((report, ledger.close())),
        Err(ReportFail::NotQuiet { .. }) => unreachable!(),
        Err(ReportFail::Memory) => Err(Memory),
    }
}
