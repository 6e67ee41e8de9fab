// Bytes written whole.
ghost use Rattle.std.specs.Prelude.{◌≡◌, ◌≤◌, OnOk, OnErr};
ghost use Rattle.po_io.specs.Count.{Rose};
ghost use Rattle.po_io.specs.Writing.{Adds, AddsPrefix};
ghost use Rattle.po_io.specs.declared.writing.WriteFail.TheVariants.{Failed as WriteFailed};

use crate::failed::Failed;
use crate::sink::Sink;
use thiserror::Error;

/// Why bytes weren't written whole.
#[derive(Clone, Copy, Debug, PartialEq, Eq, Error)]
pub enum WriteFail {
    /// A write failed.
    #[error("a write failed")]
    Failed,
}

impl From<Failed> for WriteFail {
    ghost from_gives = { λ _ e. e ≡ WriteFailed };

    fn from(_failed: Failed) -> WriteFail {
        WriteFail::Failed
    }
}

/// Writes all of `bytes`, in order and once. It takes no memory, and makes at most one call for each byte.
///
/// # Errors
///
/// [`WriteFail::Failed`] only where the sink's count of faults rose in this call; a prefix of `bytes` was then
/// written.
pub fn write_all<S: Sink>(sink: &mut S, bytes: &[u8]) -> Result<(), WriteFail>
    ensures whole { OnOk result (Adds (S.written sink.old) (S.written sink.new) bytes.now) }
    ensures prefix { AddsPrefix (S.written sink.old) (S.written sink.new) bytes.now }
    ensures failed { OnErr result (Rose (S.faults sink.old) (S.faults sink.new)) }
    ensures counts { S.faults sink.old ≤ S.faults sink.new }
{
    let mut at = 0usize;
    while at < bytes.len() {
        at += sink.write(&bytes[at..])?;
    }
    Ok(())
}
