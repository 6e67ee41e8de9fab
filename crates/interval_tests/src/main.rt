//! Reads questions to `po_interval`, one a line, and writes each answer on a line of its own.
//!
//! `add i32 1 5 -3 10` asks for the interval of the sums of numbers of 1..5 and of -3..10 at the type of 32 bits with a sign; `*` is a
//! missing end. `neg`, `not` and `conv` take one interval, `round head 3 9 0 4 8` and `round node ..` an interval and then thresholds,
//! `join` and `within` two lists of members, parted by `/`, and `share` one list, where `any` stands for any number.
//! `few add i32 1 2 / 3 4` asks for the members of the sums, `few neg i32 1 2` and `few conv u8 300` for those of one list.
#![tactic(auto)]

mod few;
mod questions;
mod words;

use std::io;

fn main(rt: HostRuntime) -> io::Result<()> {
    for line in rt.lines(rt.alloc()) {
        questions::answer(&rt, line?.as_str())?;
    }
    Ok(())
}
