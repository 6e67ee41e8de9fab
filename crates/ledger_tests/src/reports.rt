use crate::row::Row;
use crate::solving::solve_book_by_lists;
use po_base::{FunNo, NodeNo};
use po_core::{Cause, Obl, Report, Verdict};
use po_worker::solve_book_alone;
use std::alloc::Global;
use std::test::Fail;

/// A line of a report.
type Line = (Obl<u8>, Verdict<u8, u8>);

/// The report to which both ledgers come, where they agree.
fn agreed(alloc: Global, row: &Row) -> Option<Report<u8, u8>> {
    let Ok((found, _)) = solve_book_alone(alloc, row) else {
        return None;
    };
    let Ok(listed) = solve_book_by_lists(alloc, row) else {
        return None;
    };
    if found.lines.as_slice() == listed.lines.as_slice()
        && found.assumptions.as_slice() == listed.assumptions.as_slice()
    {
        return Some(found);
    }
    None
}

/// Whether both ledgers come to a report that was written by hand.
fn report(alloc: Global, row: &Row, lines: &[Line], assumptions: &[(FunNo, u8)]) -> bool {
    match agreed(alloc, row) {
        Some(found) => {
            found.lines.as_slice() == lines && found.assumptions.as_slice() == assumptions
        }
        None => false,
    }
}

/// Whether both ledgers come to one report, with so many lines and assumptions.
fn agree(alloc: Global, row: &Row, lines: usize, assumptions: usize) -> bool {
    match agreed(alloc, row) {
        Some(found) => found.lines.len() == lines && found.assumptions.len() == assumptions,
        None => false,
    }
}

/// A chain of functions that aren't open anywhere: of these functions, in one file more than this, where the first of each so many asks.
fn chain(functions: u32, more_files: u16, silent: u16) -> Row {
    Row {
        functions,
        more_files,
        is_circle: false,
        is_twice: false,
        silent,
        open_at: functions,
    }
}

/// The same functions in a circle.
fn circle(functions: u32, more_files: u16, silent: u16) -> Row {
    Row {
        is_circle: true,
        ..chain(functions, more_files, silent)
    }
}

/// A line of something that a function asks by itself.
fn own(fun: u32, node: u32, place: u32, verdict: Verdict<u8, u8>) -> Line {
    line(fun, node, Cause::Primary(place), verdict)
}

/// A line of a predicate that was passed on to a call.
fn passed(fun: u32, node: u32, pred: u8, verdict: Verdict<u8, u8>) -> Line {
    line(fun, node, Cause::Support(pred), verdict)
}

/// A line.
fn line(fun: u32, node: u32, cause: Cause<u8>, verdict: Verdict<u8, u8>) -> Line {
    let fun = FunNo(fun);
    let node = NodeNo(node);
    (Obl { fun, node, cause }, verdict)
}

// The first of three functions asks, and the second and the third pass it on; nobody calls the third.
#[test]
fn a_chain_passes_on_to_its_end(rt: HostRuntime) -> Result<(), Fail> {
    let (seven, eight) = (Verdict::Delegated(7), Verdict::Delegated(8));
    let lines = [
        own(0, 0, 0, seven),
        own(0, 0, 1, Verdict::Closed(9)),
        own(0, 3, 2, eight),
        passed(1, 1, 7, seven),
        passed(1, 1, 8, eight),
        passed(2, 1, 7, seven),
        passed(2, 1, 8, eight),
    ];
    let assumptions = [
        (FunNo(0), 7_u8),
        (FunNo(0), 8_u8),
        (FunNo(1), 7_u8),
        (FunNo(1), 8_u8),
        (FunNo(2), 7_u8),
        (FunNo(2), 8_u8),
    ];
    for more_files in [0, 1, 2, 5] {
        assert!(rt;
            report(
                rt.alloc(),
                &chain(3, more_files, 2),
                &lines[..],
                &assumptions[..]
            )
        );
    }
    Ok(())
}

// Two functions in a circle: the second, which calls the first at two nodes, passes nothing on, so no more is asked.
#[test]
fn a_circle_ends_where_it_is_open(rt: HostRuntime) -> Result<(), Fail> {
    let row = Row {
        is_twice: true,
        open_at: 1,
        ..circle(2, 1, 1)
    };
    let lines = [
        own(0, 0, 0, Verdict::Delegated(7)),
        own(0, 0, 1, Verdict::Closed(9)),
        own(0, 3, 2, Verdict::Delegated(8)),
        passed(1, 1, 7, Verdict::Open),
        passed(1, 1, 8, Verdict::Open),
        passed(1, 2, 7, Verdict::Open),
        passed(1, 2, 8, Verdict::Open),
    ];
    let assumptions = [(FunNo(0), 7_u8), (FunNo(0), 8_u8)];
    assert!(rt; report(rt.alloc(), &row, &lines[..], &assumptions[..]));
    Ok(())
}

// A function that calls itself is assumed to be entered with what it asks, and its call supports that.
#[test]
fn a_function_that_calls_itself_supports_itself(rt: HostRuntime) -> Result<(), Fail> {
    let lines = [
        own(0, 0, 0, Verdict::Delegated(7)),
        own(0, 0, 1, Verdict::Closed(9)),
        passed(0, 1, 7, Verdict::Delegated(7)),
        passed(0, 1, 8, Verdict::Delegated(8)),
        own(0, 3, 2, Verdict::Delegated(8)),
    ];
    let assumptions = [(FunNo(0), 7_u8), (FunNo(0), 8_u8)];
    assert!(rt; report(rt.alloc(), &circle(1, 3, 0), &lines[..], &assumptions[..]));
    assert!(rt; report(rt.alloc(), &chain(0, 3, 0), &[], &[]));
    Ok(())
}

// Where each function of a chain asks, each has three lines, and each but the first two more for what the one before it passes on; each is
// assumed to be entered with two predicates. In a circle the first has those lines too. A call that stands twice has them at both nodes.
#[test]
fn both_ledgers_agree_over_many_files(rt: HostRuntime) -> Result<(), Fail> {
    let twice = Row {
        is_twice: true,
        ..circle(24, 3, 0)
    };
    assert!(rt; agree(rt.alloc(), &chain(30, 6, 0), 3 * 30 + 2 * 29, 2 * 30));
    assert!(rt; agree(rt.alloc(), &circle(30, 6, 0), 5 * 30, 2 * 30));
    assert!(rt; agree(rt.alloc(), &circle(30, 40, 9), 3 * 3 + 2 * 30, 2 * 30));
    assert!(rt; agree(rt.alloc(), &twice, 7 * 24, 2 * 24));
    Ok(())
}
