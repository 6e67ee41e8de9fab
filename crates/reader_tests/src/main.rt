//! Cases of the readers, one a line of the input: `KIND TIMES TEXT`. Each is answered with a line.
//!
//! In the text each second part between `@` stands as often as TIMES says, and a backquote with a letter stands for a byte
//! that isn't written in a line (`expand`). The kinds are those of `answer`.
#![tactic(auto)]

mod expand;
mod expressions;
mod lexing;
mod spelling;
mod straight;
mod trees;
mod writing;

use expand::expanded;
use expressions::{show_end, show_expression, show_range};
use lexing::{show_counts, show_kept, show_marks, show_pieces, show_tokens};
use po_base::Memory;
use std::alloc::Global;
use std::{io, str};
use straight::{show_definitions, show_value};
use trees::{show_dropping, show_tags};

/// Writes the answer to a case of this kind.
fn show(
    alloc: Global,
    out: &mut Vec<u8>,
    kind: &[u8],
    times: u32,
    text: &[u8],
) -> Result<(), Memory> {
    match kind {
        [b't'] => show_tokens(alloc, out, text),
        [b'm'] => show_marks(alloc, out, text),
        [b'k'] => show_kept(alloc, out, text),
        [b'p'] => show_pieces(alloc, out, text),
        [b'c'] => show_counts(alloc, out, text),
        [b'e'] => show_expression(alloc, out, text, 0, u32::MAX),
        [b'd'] => show_end(alloc, out, text),
        [b'r'] => show_range(alloc, out, text),
        [b's'] => show_definitions(alloc, out, text),
        [b'o'] => show_value(alloc, out, text),
        [b'b'] => show_dropping(alloc, out, times),
        [b'g'] => show_tags(alloc, out, times),
        _ => Ok(()),
    }
}

/// The answer to a case.
fn answer(alloc: Global, line: &str) -> Result<Vec<u8>, Memory> {
    let mut out = Vec::new(alloc);
    if let Some((kind, rest)) = line.split_once(' ')
        && let Some((times, text)) = rest.split_once(' ')
    {
        let times = times.parse::<u32>().unwrap_or(0);
        let text = expanded(alloc, times, text.as_bytes())?;
        show(alloc, &mut out, kind.as_bytes(), times, &text)?;
    }
    Ok(out)
}

/// A line of the output.
fn printed(answer: &Result<Vec<u8>, Memory>) -> &str {
    match answer {
        Ok(bytes) => str::from_utf8(bytes).unwrap_or("bytes"),
        Err(_) => "memory",
    }
}

fn main(rt: HostRuntime) -> io::Result<()> {
    for line in rt.lines(rt.alloc()) {
        let answer = answer(rt.alloc(), line?.as_str());
        println!(rt; "{}", printed(&answer))?;
    }
    Ok(())
}
