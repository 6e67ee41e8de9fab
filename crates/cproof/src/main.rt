//! The program `cproof`: the words of its command line, the files of the system and standard output, handed to
//! the top call.
#![tactic(auto)]

#[cfg(test)]
mod tests;

use po_app::run;
use po_io::{DirFiles, StdSink};
use std::env;
use std::io::ErrorKind;
use std::process::ExitCode;

/// The exit status where the system doesn't hand over the words.
const NO_WORDS: u8 = 9;

/// The exit status where memory is wanting before the top call.
const NO_MEMORY: u8 = 6;

/// The exit status where the words weren't fetched for a cause of this kind.
fn unfetched(cause: ErrorKind) -> ExitCode {
    match cause {
        ErrorKind::OutOfMemory => ExitCode::from(NO_MEMORY),
        _ => ExitCode::from(NO_WORDS),
    }
}

fn main(rt: HostRuntime) -> ExitCode {
    let args = match env::args(&rt) {
        Ok(args) => args,
        Err(error) => return unfetched(error.kind()),
    };
    let mut words = Vec::new(rt.alloc());
    for word in args.skip(1) {
        if words.push(word).is_err() {
            return ExitCode::from(NO_MEMORY);
        }
    }
    let mut files = DirFiles::new(&rt);
    let mut out = StdSink::new(&rt);
    ExitCode::from(run(rt.alloc(), &words, &mut files, &mut out).code())
}
