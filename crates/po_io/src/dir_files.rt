// The files of the system.
ghost use Rattle.std.specs.Prelude.{ℕ, ◌≡◌, ◌≤◌, length, None, IfOk};
ghost use Rattle.po_io.specs.Count.{risen};

use crate::count::rise;
use crate::failed::Failed;
use crate::files::Files;
use std::io::{Read, Seek, SeekFrom};
use std::{fs, io, rt};

/// The files of the system, by their paths. It tells nothing but its count: what a file holds is trusted.
#[derive(Drop)]
pub struct DirFiles<'a, T> {
    rt: &'a T,
    faults: u64,
}

impl<'a, T: rt::Files> DirFiles<'a, T> {
    /// The files that `rt` reaches. No fault is counted yet.
    pub fn new(rt: &'a T) -> DirFiles<'a, T>
        ensures { result.faults ≡ 0 }
    {
        DirFiles { rt, faults: 0 }
    }
}

impl<T: rt::Files> Files for DirFiles<'_, T> {
    ghost held = { λ f name. None };

    ghost faults = { λ f name. f.faults };

    /// Opens the file, seeks to `at`, and reads once. Each of the three may fail, which is a fault.
    fn read(&mut self, name: &str, at: u64, into: &mut [u8]) -> Result<usize, Failed> {
        match read_once(self.rt, name, at, into) {
            Ok(count) => Ok(count),
            Err(_) => {
                self.faults = rise(self.faults);
                Err(Failed)
            }
        }
    }
}

/// Opens a file, seeks to a place, and reads once.
fn read_once<T: rt::Files>(rt: &T, path: &str, at: u64, into: &mut [u8]) -> io::Result<usize>
    ensures { IfOk result (λ n. n ≤ length into.new) }
{
    let mut file = fs::open(rt, path)?;
    file.seek(SeekFrom::Start(at))?;
    file.read(into)
}
