// Whole files, read piece by piece up to a limit.
ghost use Rattle.std.specs.Prelude.{ℕ, ◌≡◌, ◌<◌, ◌≤◌, length, List as Items, IfOk, IfErr, IfSome, IsErrOf, IsTrue, vec_len, false};
ghost use Rattle.po_io.specs.Count.{Rose};
ghost use Rattle.po_io.specs.Reading.{IsReadOf};
ghost use Rattle.po_io.specs.Progress.{IsFront, IsWhole};
ghost use Rattle.po_io.specs.declared.reading.ReadFail.TheVariants.{Failed as ReadFailed, Memory as NoMemory};

use crate::failed::Failed;
use crate::files::Files;
use po_base::List;
use std::alloc::{AllocError, Global};
use thiserror::Error;

/// How many bytes each read of [`read_file`] asks for.
const CHUNK: usize = 65_536;

/// Why a file wasn't read whole.
#[derive(Clone, Copy, Debug, PartialEq, Eq, Error)]
pub enum ReadFail {
    /// A read failed; a missing file is a failed read.
    #[error("a read failed")]
    Failed,
    /// The file has more bytes than the limit.
    #[error("the file is too long")]
    TooLong,
    /// Memory was wanting.
    #[error("out of memory")]
    Memory,
}

impl From<Failed> for ReadFail {
    ghost from_gives = { λ _ e. e ≡ ReadFailed };

    fn from(_failed: Failed) -> ReadFail {
        ReadFail::Failed
    }
}

impl From<AllocError> for ReadFail {
    ghost from_gives = { λ _ e. e ≡ NoMemory };

    fn from(_error: AllocError) -> ReadFail {
        ReadFail::Memory
    }
}

/// Reads a file of at most `limit` bytes whole. Time and memory are linear in the bytes read, of which there are
/// at most 65,536 over the limit.
///
/// # Errors
///
/// [`ReadFail::Failed`] only where the count of faults of `name` rose in this call. [`ReadFail::TooLong`], where
/// the file's bytes are told, exactly where they are more than `limit`.
pub fn read_file<F: Files>(
    alloc: Global,
    files: &mut F,
    name: &str,
    limit: u64,
) -> Result<List<u8>, ReadFail>
    ensures bytes { IfSome (F.held files.old name.now) (λ bytes. IsReadOf bytes limit result) }
    ensures within { IfOk result (λ read. length read ≤ limit) }
    ensures failed { IsErrOf result ReadFail.Failed → Rose (F.faults files.old name.now) (F.faults files.new name.now) }
    ensures held { (other : Items ℕ) → F.held files.new other ≡ F.held files.old other }
    ensures counts { (other : Items ℕ) → F.faults files.old other ≤ F.faults files.new other }
{
    let mut buffer = zeros(alloc, CHUNK)?;
    let mut read = Vec::new(alloc);
    while read.len() as u64 <= limit {
        if !read_more(files, name, &mut buffer, &mut read)? {
            return Ok(List::from_vec(read));
        }
    }
    Err(ReadFail::TooLong)
}

/// A buffer of this many zeros.
fn zeros(alloc: Global, len: usize) -> Result<Vec<u8>, ReadFail>
    ensures room { IfOk result (λ buffer. length buffer.items ≡ len) }
    ensures memory { IfErr result (λ e. e ≡ NoMemory) }
{
    let buffer = vec![in alloc; 0u8; len]?;
    Ok(buffer)
}

/// Reads once behind the bytes that were read so far, and says whether some came.
fn read_more<F: Files>(
    files: &mut F,
    name: &str,
    buffer: &mut [u8],
    read: &mut Vec<u8>,
) -> Result<bool, ReadFail>
    requires room { 0 < length buffer.old }
    requires front { IsFront (F.held files.old name.now) read.old.items }
    ensures front { IfOk result (λ _. IsFront (F.held files.new name.now) read.new.items) }
    ensures grows { IfOk result (λ some. IsTrue some → vec_len read.old < vec_len read.new) }
    ensures whole { IfOk result (λ some. some ≡ false → (read.new.items ≡ read.old.items) × IsWhole (F.held files.old name.now) read.new.items) }
    ensures failed { IsErrOf result ReadFail.Failed → Rose (F.faults files.old name.now) (F.faults files.new name.now) }
    ensures never { IsErrOf result ReadFail.TooLong → ⊥ }
    ensures held { (other : Items ℕ) → F.held files.new other ≡ F.held files.old other }
    ensures counts { (other : Items ℕ) → F.faults files.old other ≤ F.faults files.new other }
{
    let count = files.read(name, read.len() as u64, buffer)?;
    read.extend_from_slice(&buffer[..count])?;
    Ok(0 < count)
}
