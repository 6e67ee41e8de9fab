//! The commands that are put to a ledger.

use crate::sample::{OfSample, Sample};
use crate::writing::{show_item, show_journal, show_report, show_truth};
use po_base::{FileNo, Memory};
use po_ledger::{Ledger, Next, ReportFail, Ticket};
use po_worker::{put_back_all, solve_alone};
use std::alloc::{AllocError, Global};
use std::{io, mem};

/// A ledger over the sample's book, and the tickets that it handed out.
#[derive(Drop)]
pub(crate) struct Desk<'r> {
    book: &'r Sample,
    ledger: Ledger<'r, Sample, OfSample>,
    tickets: Vec<Ticket<Sample, OfSample>>,
}

impl<'r> Desk<'r> {
    /// A new ledger and no tickets.
    pub(crate) fn new(alloc: Global, book: &'r Sample) -> Result<Desk<'r>, Memory> {
        Ok(Desk {
            book,
            ledger: Ledger::new(alloc, book)?,
            tickets: Vec::new(alloc),
        })
    }
}

/// Keeps a ticket, or says what the ledger said.
fn keep(
    rt: &impl Print,
    tickets: &mut Vec<Ticket<Sample, OfSample>>,
    next: Next<Sample, OfSample>,
) -> io::Result<()> {
    match next {
        Next::Ticket(ticket) => {
            tickets.push(ticket).map_err(AllocError::from)?;
            println!(rt; "ticket")
        }
        Next::Wait => println!(rt; "wait"),
        Next::Done => println!(rt; "done"),
    }
}

/// Asks for work.
fn take(rt: &(impl Print + AllocGlobal), desk: &mut Desk<'_>, worker: u8) -> io::Result<()> {
    match desk.ledger.take(rt.alloc(), worker) {
        Ok(next) => keep(rt, &mut desk.tickets, next),
        Err(Memory) => println!(rt; "no memory"),
    }
}

/// Tells whose a ticket is, of which file, and how many obligations it holds.
fn show_ticket(rt: &impl Print, desk: &Desk<'_>, at: usize) -> io::Result<()> {
    match desk.tickets.get(at) {
        Some(t) => {
            let (worker, file, len) = (t.worker(), t.file().0, t.len());
            println!(rt; "worker {worker} file {file} items {len}")
        }
        None => println!(rt; "no ticket"),
    }
}

/// Lists what a ticket holds.
fn show_items(rt: &impl Print, desk: &Desk<'_>, at: usize) -> io::Result<()> {
    match desk.tickets.get(at) {
        Some(t) => {
            for k in 0..t.len() {
                show_item(rt, t.item(k))?;
            }
            Ok(())
        }
        None => println!(rt; "no ticket"),
    }
}

/// Whether a ticket is still good.
fn fits(desk: &Desk<'_>, at: usize) -> bool {
    match desk.tickets.get(at) {
        Some(t) => desk.ledger.fits(t),
        None => false,
    }
}

/// Puts a file back, where it is held.
fn put_back(rt: &impl Print, desk: &mut Desk<'_>, file: FileNo) -> io::Result<()> {
    if desk.ledger.held(file) {
        desk.ledger.put_back(file);
        return println!(rt; "put back");
    }
    println!(rt; "not held")
}

/// Lists the report, where all is done.
fn report(rt: &(impl Print + AllocGlobal), desk: &Desk<'_>) -> io::Result<()> {
    match desk.ledger.report(rt.alloc()) {
        Ok(report) => show_report(rt, &report),
        Err(ReportFail::NotQuiet { held, untaken }) => println!(rt;
            "held {held} untaken {untaken}"
        ),
        Err(ReportFail::Memory) => println!(rt; "no memory"),
    }
}

/// Does what is left to do.
fn solve(rt: &(impl Print + AllocGlobal), desk: &mut Desk<'_>) -> io::Result<()> {
    put_back_all(&mut desk.ledger);
    match solve_alone(rt.alloc(), &mut desk.ledger) {
        Ok(()) => println!(rt; "solved"),
        Err(Memory) => println!(rt; "no memory"),
    }
}

/// Closes the ledger, and begins with a new one.
fn close(rt: &(impl Print + AllocGlobal), desk: &mut Desk<'_>) -> io::Result<()> {
    let Ok(new) = Desk::new(rt.alloc(), desk.book) else {
        return println!(rt; "no memory");
    };
    let Desk { ledger, .. } = mem::replace(desk, new);
    show_journal(rt, &ledger.close())
}

/// Follows a command.
pub(crate) fn follow(
    rt: &(impl Print + AllocGlobal),
    desk: &mut Desk<'_>,
    line: &str,
) -> io::Result<()> {
    let (verb, number) = line.split_once(' ').unwrap_or((line, "0"));
    let number = number.parse::<u8>().unwrap_or(0);
    match verb {
        "take" => take(rt, desk, number),
        "ticket" => show_ticket(rt, desk, number as usize),
        "items" => show_items(rt, desk, number as usize),
        "fits" => show_truth(rt, fits(desk, number as usize)),
        "held" => show_truth(rt, desk.ledger.held(FileNo(number as u32))),
        "quiet" => show_truth(rt, desk.ledger.quiet()),
        "back" => put_back(rt, desk, FileNo(number as u32)),
        "solve" => solve(rt, desk),
        "report" => report(rt, desk),
        "close" => close(rt, desk),
        _ => println!(rt; "?"),
    }
}
