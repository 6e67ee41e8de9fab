ghost use Rattle.std.specs.Prelude.{◌≤◌};

use crate::gates::{Meeting, Stop};
use crate::ring::{OfRing, Ring, is_of_ring};
use po_core::{Event, Journal};
use po_ledger::{Ledger, Next, ReportFail};
use po_worker::{NoGate, Shared, put_back_all, solve, solve_alone, solve_book_alone, work};
use std::alloc::Global;
use std::sync::Wait;
use std::test::Fail;
use std::thread::Threads;

/// A ledger over the ring's book.
type RingLedger<'r> = Ledger<'r, Ring, OfRing>;

/// Whether so many workers find the ring's report.
fn find<T: Threads + Wait + Sync>(rt: &T, alloc: Global, workers: u8) -> bool
    requires { (1 ≤ workers) × (workers ≤ 64) }
{
    match solve(rt, alloc, &Ring::new(), workers, &NoGate) {
        Ok((report, _)) => is_of_ring(&report),
        Err(_) => false,
    }
}

/// Whether two workers took files before the first file was given free.
fn took_side_by_side(journal: &Journal<u8, u8>) -> bool {
    let mut first = 0;
    for event in journal.as_slice() {
        match event {
            Event::Take { worker, .. } => {
                if first == 0 {
                    first = *worker;
                } else if first != *worker {
                    return true;
                }
            }
            Event::Give { .. } => return false,
            _ => {}
        }
    }
    false
}

/// How often a worker took a file.
fn takes_of(journal: &Journal<u8, u8>, wanted: u8) -> u32 {
    let mut takes = 0_u32;
    for event in journal.as_slice() {
        if matches!(event, Event::Take { worker, .. } if *worker == wanted) {
            takes = takes.saturating_add(1);
        }
    }
    takes
}

/// Whether two workers that meet at the gate hold files at once, and find the ring's report.
fn meet<T: Threads + Wait + Sync>(rt: &T, alloc: Global) -> bool {
    let gate = Meeting::new();
    match solve(rt, alloc, &Ring::new(), 2, &gate) {
        Ok((report, journal)) => gate.met() && took_side_by_side(&journal) && is_of_ring(&report),
        Err(_) => false,
    }
}

/// Whether so many workers and the caller find the ring's report, where one of them stops at its first take.
fn find_after_a_stop<T: Threads + Wait + Sync>(rt: &T, alloc: Global, workers: u8) -> bool
    requires { (1 ≤ workers) × (workers ≤ 64) }
{
    let ring = Ring::new();
    let gate = Stop::new(&ring);
    match solve(rt, alloc, &ring, workers, &gate) {
        Ok((report, journal)) => {
            !ring.refuses() && is_of_ring(&report) && (workers != 1 || takes_of(&journal, 1) == 1)
        }
        Err(_) => false,
    }
}

/// Whether a ledger's report is the ring's.
fn reports(alloc: Global, ledger: &RingLedger<'_>) -> bool {
    match ledger.report(alloc) {
        Ok(report) => is_of_ring(&report),
        Err(_) => false,
    }
}

/// How many files a ledger holds and how many obligations are untaken, where it gives no report.
fn left(alloc: Global, ledger: &RingLedger<'_>) -> Option<(u32, u64)> {
    match ledger.report(alloc) {
        Err(ReportFail::NotQuiet { held, untaken }) => Some((held, untaken)),
        _ => None,
    }
}

// A circle of functions over several files: any number of workers finds the same report as one that is alone. Most of 64 workers
// wait for the bell, so without it this test wouldn't end.
#[test]
fn any_number_of_workers_finds_the_report(rt: HostRuntime) -> Result<(), Fail> {
    assert!(rt; solve_book_alone(rt.alloc(), &Ring::new()).is_ok_and(|found| is_of_ring(&found.0)));
    assert!(rt; find(&rt, rt.alloc(), 1));
    assert!(rt; find(&rt, rt.alloc(), 2));
    assert!(rt; find(&rt, rt.alloc(), 64));
    Ok(())
}

// The first worker at the gate waits there until another comes, so both have taken a file before one is given free.
#[test]
fn two_workers_hold_files_at_once(rt: HostRuntime) -> Result<(), Fail> {
    assert!(rt; meet(&rt, rt.alloc()));
    Ok(())
}

// A worker that stops leaves its file to others: a lone one took one file and no more.
#[test]
fn a_worker_that_stops_changes_no_report(rt: HostRuntime) -> Result<(), Fail> {
    assert!(rt; find_after_a_stop(&rt, rt.alloc(), 1));
    assert!(rt; find_after_a_stop(&rt, rt.alloc(), 2));
    Ok(())
}

// A worker does all there is before it ends.
#[test]
fn a_worker_leaves_nothing_untaken(rt: HostRuntime) -> Result<(), Fail> {
    let ring = Ring::new();
    let ledger: RingLedger<'_> = Ledger::new(rt.alloc(), &ring)?;
    let shared = Shared::new(ledger);
    work(&rt, rt.alloc(), &shared, 1, &NoGate)?;
    let ledger = shared.into_ledger();
    assert!(rt; ledger.quiet() && reports(rt.alloc(), &ledger));
    Ok(())
}

// A ticket whose file was put back fits no more. Nothing is held then and two obligations are untaken, so there is no report yet.
#[test]
fn a_file_that_is_put_back_is_left_to_others(rt: HostRuntime) -> Result<(), Fail> {
    let ring = Ring::new();
    let mut ledger: RingLedger<'_> = Ledger::new(rt.alloc(), &ring)?;
    let ticket = match ledger.take(rt.alloc(), 1)? {
        Next::Ticket(ticket) => Some(ticket),
        _ => None,
    };
    let ticket = ticket.expect(&rt, "a ticket");
    put_back_all(&mut ledger);
    assert!(rt; !ledger.fits(&ticket));
    assert_eq!(rt; left(rt.alloc(), &ledger), Some((0, 2)));
    solve_alone(rt.alloc(), &mut ledger)?;
    assert!(rt; reports(rt.alloc(), &ledger));
    Ok(())
}
