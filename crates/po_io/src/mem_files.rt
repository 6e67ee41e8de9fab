// Files in memory, for tests.
ghost use Rattle.std.specs.Prelude.{ℕ, ◌≡◌, ◌≤◌, ◌-◌, ◌↔◌, ◌⊎◌, min, length, List as Items, IfOk, IfSome, IsErr, IsNone, OnErr, Contains, is_ok, if◌then◌else◌};
ghost use Rattle.std.specs.Option.{option_copied};
ghost use Rattle.po_io.specs.Count.{risen, Rose};
ghost use Rattle.po_io.specs.Reading.{Gives, GivesWhereTold};
ghost use Rattle.po_io.specs.Shelf.{bytes_of};

use crate::count::{is_listed, rise};
use crate::failed::Failed;
use crate::files::Files;
use po_base::{List, Text};

/// Files in memory, with faults that a test can choose. It tells everything.
#[derive(Drop)]
pub struct MemFiles {
    files: List<(Text, List<u8>)>,
    fail: List<u64>,
    calls: u64,
    faults: u64,
}

impl MemFiles {
    /// Files with these names and bytes; of files of one name the first counts. Calls of `read` are counted from
    /// 1, over all names: those whose numbers are in `fail` fail.
    pub fn new(files: List<(Text, List<u8>)>, fail: List<u64>) -> MemFiles
        ensures { result ≡ record { files = files; fail = fail; calls = 0; faults = 0 } }
    {
        MemFiles {
            files,
            fail,
            calls: 0,
            faults: 0,
        }
    }

    /// Counts a fault.
    fn fault(&mut self) -> Failed
        ensures risen { self.new ≡ record self.old { faults = risen self.old.faults } }
        ensures later { self.old.faults ≤ self.new.faults }
    {
        self.faults = rise(self.faults);
        Failed
    }
}

impl Files for MemFiles {
    ghost held = { λ m name. bytes_of m.files name };

    ghost faults = { λ m name. m.faults };

    /// Gives as many bytes as are left and fit. It fails where the call's number is one that is to fail, and
    /// where no file has the name.
    fn read(&mut self, name: &str, at: u64, into: &mut [u8]) -> Result<usize, Failed>
        ensures bound { IfOk result (λ n. n ≤ length into.old) }
        ensures bytes { GivesWhereTold (bytes_of self.old.files name.now) at into.old into.new result }
        ensures failed { OnErr result (Rose self.old.faults self.new.faults) }
        ensures held { (other : Items ℕ) → bytes_of self.new.files other ≡ bytes_of self.old.files other }
        ensures counts { (_other : Items ℕ) → self.old.faults ≤ self.new.faults }
        ensures gives { IfOk result (λ n. IfSome (bytes_of self.old.files name.now) (λ bytes. n ≡ min (length bytes - at) (length into.old))) }
        ensures fails { IsErr result ↔ (Contains self.old.fail (risen self.old.calls) ⊎ IsNone (bytes_of self.old.files name.now)) }
        ensures after { self.new ≡ record self.old { calls = risen self.old.calls; faults = (if is_ok result then self.old.faults else risen self.old.faults) } }
    {
        self.calls = rise(self.calls);
        if is_listed(self.fail.as_slice(), self.calls) {
            return Err(self.fault());
        }
        match find_file(self.files.as_slice(), name) {
            Some(bytes) => Ok(copy_from(bytes, at, into)),
            None => Err(self.fault()),
        }
    }
}

/// The bytes of the first file of a name.
fn find_file<'f>(files: &'f [(Text, List<u8>)], name: &str) -> Option<&'f [u8]>
    ensures { option_copied result ≡ bytes_of files.now name.now }
{
    let file = files.iter().find(|file| file.0.bytes() == name.as_bytes())?;
    Some(file.1.as_slice())
}

/// Copies as many bytes as are left from `at` on and fit to the front of a buffer, and says how many.
fn copy_from(bytes: &[u8], at: u64, into: &mut [u8]) -> usize
    ensures count { result ≡ min (length bytes.now - at) (length into.old) }
    ensures gives { Gives bytes.now at into.old into.new result }
{
    if bytes.len() as u64 <= at {
        return 0;
    }
    let left = &bytes[at as usize..];
    let count = left.len().min(into.len());
    into[..count].copy_from_slice(&left[..count]);
    count
}
