//! The outside world of cproof: files that are read and a sink that is written to, as traits whose contracts
//! say what is held, what was written and when a call may fail; both in memory, for tests, and of the system;
//! and the two loops over them, which read a file whole and write a text whole.
//!
//! [`DirFiles`] and [`StdSink`] are trusted: of what the system gives or takes they tell nothing.
#![tactic(auto)]

mod count;
mod dir_files;
mod failed;
mod files;
mod mem_files;
mod mem_sink;
mod reading;
mod sink;
mod std_sink;
mod writing;

pub use count::count_rises;
pub use dir_files::DirFiles;
pub use failed::Failed;
pub use files::Files;
pub use mem_files::MemFiles;
pub use mem_sink::MemSink;
pub use reading::{ReadFail, read_file};
pub use sink::Sink;
pub use std_sink::StdSink;
pub use writing::{WriteFail, write_all};
