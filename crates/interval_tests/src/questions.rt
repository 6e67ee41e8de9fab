use crate::few::answer_few;
use crate::words::{op_of, type_of};
use po_arith::Interval;
use po_base::{Memory, OrdList, SharedList, UnOp};
use po_interval::{
    Members, Thresholds, bin_interval, conv_interval, join_members, members_within, round,
    un_interval,
};
use std::alloc::{AllocError, Global};
use std::io;

/// The end that a word names, where `*` is none.
fn end(word: &str) -> Option<i128> {
    word.parse::<i128>().ok()
}

/// The interval of two words.
fn interval(lo: &str, hi: &str) -> Interval {
    Interval {
        lo: end(lo),
        hi: end(hi),
    }
}

/// Writes an end, where `*` is none.
fn show_end(rt: &impl Print, end: Option<i128>) -> io::Result<()> {
    match end {
        None => print!(rt; "*"),
        Some(v) => print!(rt; "{v}"),
    }
}

/// Writes an interval, or that there is none.
fn show(rt: &impl Print, answer: Option<Interval>) -> io::Result<()> {
    match answer {
        None => println!(rt; "none"),
        Some(a) => {
            show_end(rt, a.lo)?;
            print!(rt; "..")?;
            show_end(rt, a.hi)?;
            println!(rt; "")
        }
    }
}

/// Writes members.
pub(crate) fn show_members(rt: &impl Print, members: &Members) -> io::Result<()> {
    match members {
        Members::Any => println!(rt; "any"),
        Members::Few(list) => {
            for v in list.as_slice() {
                print!(rt; "{v} ")?;
            }
            println!(rt; "")
        }
    }
}

/// The members that words list: any, or numbers in ascending order.
pub(crate) fn members(alloc: Global, words: &[&str]) -> Result<Members, Memory> {
    let mut list = Vec::new(alloc);
    for word in words {
        match end(word) {
            None => return Ok(Members::Any),
            Some(v) => list.push(v).map_err(AllocError::from)?,
        }
    }
    Ok(Members::Few(SharedList::from_slice(alloc, list.as_slice())?))
}

/// The thresholds that words list.
fn thresholds(alloc: Global, words: &[&str]) -> Result<Thresholds, Memory> {
    let mut coarse = OrdList::new(alloc);
    for word in words {
        if let Some(v) = end(word) {
            coarse.insert(v)?;
        }
    }
    Ok(Thresholds { coarse })
}

/// Answers a question of two lists of members.
fn answer_members(rt: &(impl Print + AllocGlobal), verb: &str, words: &[&str]) -> io::Result<()> {
    let Some(at) = words.iter().position(|word| *word == "/") else {
        return println!(rt; "?");
    };
    let (Ok(a), Ok(b)) = (
        members(rt.alloc(), &words[..at]),
        members(rt.alloc(), &words[at + 1..]),
    ) else {
        return println!(rt; "no memory");
    };
    if verb == "within" {
        let within = members_within(&a, &b);
        return println!(rt; "{within}");
    }
    match join_members(rt.alloc(), &a, &b) {
        Err(Memory) => println!(rt; "no memory"),
        Ok(joined) => show_members(rt, &joined),
    }
}

/// Writes members that were shared.
fn answer_share(rt: &(impl Print + AllocGlobal), words: &[&str]) -> io::Result<()> {
    let Ok(a) = members(rt.alloc(), words) else {
        return println!(rt; "no memory");
    };
    match a.share() {
        Err(Memory) => println!(rt; "no memory"),
        Ok(b) => show_members(rt, &b),
    }
}

/// Answers a question of an interval and thresholds.
fn answer_round(rt: &(impl Print + AllocGlobal), words: &[&str]) -> io::Result<()> {
    let [place, lo, hi, more @ ..] = words else {
        return println!(rt; "?");
    };
    match thresholds(rt.alloc(), more) {
        Err(Memory) => println!(rt; "no memory"),
        Ok(th) => show(rt, Some(round(&interval(lo, hi), &th, *place == "head"))),
    }
}

/// Answers a question of intervals of numbers of a type.
fn answer_type(rt: &impl Print, verb: &str, words: &[&str]) -> io::Result<()> {
    let [kind, lo, hi, more @ ..] = words else {
        return println!(rt; "?");
    };
    let Some(t) = type_of(kind) else {
        return println!(rt; "?");
    };
    let a = interval(lo, hi);
    match verb {
        "neg" => show(rt, un_interval(UnOp::Neg, t, &a)),
        "not" => show(rt, un_interval(UnOp::Not, t, &a)),
        "conv" => show(rt, conv_interval(t, &a)),
        _ => match (op_of(verb), more) {
            (Some(op), [lo, hi]) => show(rt, bin_interval(op, t, &a, &interval(lo, hi))),
            _ => println!(rt; "?"),
        },
    }
}

/// Answers the question of a line.
pub(crate) fn answer(rt: &(impl Print + AllocGlobal), line: &str) -> io::Result<()> {
    let words: Vec<&str> = line.split_whitespace().collect(rt.alloc())?;
    match words.as_slice() {
        ["join", more @ ..] => answer_members(rt, "join", more),
        ["within", more @ ..] => answer_members(rt, "within", more),
        ["share", more @ ..] => answer_share(rt, more),
        ["few", more @ ..] => answer_few(rt, more),
        ["round", more @ ..] => answer_round(rt, more),
        [verb, more @ ..] => answer_type(rt, verb, more),
        [] => println!(rt; ""),
    }
}
