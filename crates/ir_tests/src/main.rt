//! Cases of linking, one a line of the input: the files, as words of the form `KIND:ARGUMENTS` (`files`). Each is answered with the
//! project, or with why there is none (`answers`).
#![tactic(auto)]

mod answers;
mod files;

use answers::show_outcome;
use files::read_files;
use po_arith::Target;
use po_base::Memory;
use po_link::link;
use std::alloc::Global;
use std::{io, str};

/// The answer to a case.
fn answer(alloc: Global, line: &str) -> Result<Vec<u8>, Memory> {
    let mut out = Vec::new(alloc);
    let files = read_files(alloc, line)?;
    show_outcome(alloc, &mut out, &link(alloc, files, Target::L64))?;
    Ok(out)
}

/// A line of the output.
fn printed(answer: &Result<Vec<u8>, Memory>) -> &str {
    match answer {
        Ok(bytes) => str::from_utf8(bytes).unwrap_or("bytes"),
        Err(_) => "memory",
    }
}

fn main(rt: HostRuntime) -> io::Result<()> {
    for line in rt.lines(rt.alloc()) {
        let answer = answer(rt.alloc(), line?.as_str());
        println!(rt; "{}", printed(&answer))?;
    }
    Ok(())
}
