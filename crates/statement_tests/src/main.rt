//! Cases of the readers of statements and of definitions, one a line of the input: `KIND TIMES TEXT`. Each is answered with a line.
//!
//! In the text each second part between `@` stands as often as TIMES says, and a backquote with a letter stands for a byte
//! that isn't written in a line (`expand`). The kinds are those of `show`.
#![tactic(auto)]

mod bodies;
mod declarations;
mod definitions;
mod expand;
mod files;
mod lexing;
mod spelling;
mod statements;
mod writing;

use bodies::{show_body, show_end};
use definitions::{show_definition, show_kind, show_marks};
use expand::expanded;
use files::show_file;
use po_base::Memory;
use std::alloc::Global;
use std::{io, str};

/// Writes the answer to a case of this kind.
fn show(alloc: Global, out: &mut Vec<u8>, kind: &[u8], text: &[u8]) -> Result<(), Memory> {
    match kind {
        [b'b'] => show_body(alloc, out, text),
        [b'm'] => show_marks(alloc, out, text),
        [b'w'] => show_file(alloc, out, text),
        [b'e'] => show_end(alloc, out, text),
        [b'h'] => show_kind(alloc, out, text),
        [b'f'] => show_definition(alloc, out, text),
        _ => Ok(()),
    }
}

/// The answer to a case.
fn answer(alloc: Global, line: &str) -> Result<Vec<u8>, Memory> {
    let mut out = Vec::new(alloc);
    if let Some((kind, rest)) = line.split_once(' ')
        && let Some((times, text)) = rest.split_once(' ')
    {
        let times = times.parse::<u32>().unwrap_or(0);
        let text = expanded(alloc, times, text.as_bytes())?;
        show(alloc, &mut out, kind.as_bytes(), &text)?;
    }
    Ok(out)
}

/// A line of the output.
fn printed(answer: &Result<Vec<u8>, Memory>) -> &str {
    match answer {
        Ok(bytes) => str::from_utf8(bytes).unwrap_or("bytes"),
        Err(_) => "memory",
    }
}

fn main(rt: HostRuntime) -> io::Result<()> {
    for line in rt.lines(rt.alloc()) {
        let answer = answer(rt.alloc(), line?.as_str());
        println!(rt; "{}", printed(&answer))?;
    }
    Ok(())
}
