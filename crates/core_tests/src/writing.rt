//! What is written of obligations, reports and what is left.

use po_base::FunNo;
use po_core::{Cause, Event, Journal, Obl, Report, Verdict};
use std::io;

/// Writes whether something is so.
pub(crate) fn show_truth(rt: &impl Print, is: bool) -> io::Result<()> {
    if is {
        return println!(rt; "yes");
    }
    println!(rt; "no")
}

/// Writes an obligation: its function, its node and its cause.
fn show_obligation(rt: &impl Print, o: &Obl<u8>) -> io::Result<()> {
    let (fun, node) = (o.fun.0, o.node.0);
    match o.cause {
        Cause::Primary(place) => print!(rt; "{fun} {node} own {place}"),
        Cause::Support(pred) => print!(rt; "{fun} {node} supports {pred}"),
    }
}

/// Writes an obligation of a hand on a line.
pub(crate) fn show_item(rt: &impl Print, o: &Obl<u8>) -> io::Result<()> {
    show_obligation(rt, o)?;
    println!(rt; "")
}

/// Writes an obligation and its verdict on a line.
fn show_line(rt: &impl Print, line: &(Obl<u8>, Verdict<u8, u8>)) -> io::Result<()> {
    show_obligation(rt, &line.0)?;
    match line.1 {
        Verdict::Closed(rule) => println!(rt; " closed {rule}"),
        Verdict::Delegated(pred) => println!(rt; " delegated {pred}"),
        Verdict::Open => println!(rt; " open"),
    }
}

/// Writes what a function is assumed to be entered with on a line.
fn show_assumption(rt: &impl Print, assumption: &(FunNo, u8)) -> io::Result<()> {
    let (fun, pred) = (assumption.0.0, assumption.1);
    println!(rt; "assumes {fun} {pred}")
}

/// Writes a report, a line for each obligation and then one for each assumption.
pub(crate) fn show_report(rt: &impl Print, report: &Report<u8, u8>) -> io::Result<()> {
    for line in report.lines.as_slice() {
        show_line(rt, line)?;
    }
    for assumption in report.assumptions.as_slice() {
        show_assumption(rt, assumption)?;
    }
    Ok(())
}

/// How many events of a journal settle an obligation.
fn settles(journal: &Journal<u8, u8>) -> u32 {
    let mut settled = 0_u32;
    for event in journal.as_slice() {
        if matches!(event, Event::Settle { .. }) {
            settled = settled.saturating_add(1);
        }
    }
    settled
}

/// Writes how many events a journal has, and how many of them settle.
pub(crate) fn show_journal(rt: &impl Print, journal: &Journal<u8, u8>) -> io::Result<()> {
    let (events, settled) = (journal.len(), settles(journal));
    println!(rt; "events {events} settled {settled}")
}
