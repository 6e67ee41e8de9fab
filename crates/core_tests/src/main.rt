//! Puts commands to a ledger over a rulebook in small, one a line of `stdin`, and writes what comes of each.
//!
//! `take 1` asks for work as worker 1, and a ticket that is handed out is kept; `ticket 0` tells whose the first ticket is and of which file,
//! `items 0` lists what it holds, and `fits 0` says whether it is still good. `held 0` says whether the first file is held, and `quiet`
//! whether all is done. `back 0` puts the first file back; `solve` puts all back and does what is left to do. `report` lists the report,
//! or says how many files are held and how many obligations are untaken. `close` closes the ledger, counts the events of its journal
//! and those that settle, and begins with a new ledger and no tickets.
#![tactic(auto)]

mod commands;
mod sample;
mod writing;

use commands::{Desk, follow};
use sample::Sample;
use std::io;

fn main(rt: HostRuntime) -> io::Result<()> {
    let Ok(mut desk) = Desk::new(rt.alloc(), &Sample) else {
        return println!(rt; "no memory");
    };
    for line in rt.lines(rt.alloc()) {
        follow(&rt, &mut desk, line?.as_str())?;
    }
    Ok(())
}
