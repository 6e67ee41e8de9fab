// What a ledger answers a worker that asks for work, and why it gives no report.
use crate::naming::Naming;
use crate::ticket::Ticket;
use po_base::Memory;
use po_core::Rulebook;
use thiserror::Error;

/// What a ledger answers a worker that asks for work.
#[derive(Drop)]
pub enum Next<R: Rulebook, J: Naming<R::Pred, R::Rule, R::Table>> {
    /// The file that it takes, with all that is untaken in it.
    Ticket(Ticket<R, J>),
    /// Some file is held, and nothing can be taken until more is posted or put back.
    Wait,
    /// No file is held and nothing is untaken: all is done.
    Done,
}

/// Why a ledger gives no report.
#[derive(Clone, Copy, Debug, PartialEq, Eq, Error)]
pub enum ReportFail {
    /// Work is left: how many files are held, and how many obligations are untaken.
    #[error("not all is done: {held} files are held, and {untaken} obligations are untaken")]
    NotQuiet { held: u32, untaken: u64 },
    /// Memory was wanting.
    #[error("out of memory")]
    Memory,
}

impl From<Memory> for ReportFail {
    ghost use Rattle.std.specs.Prelude.{◌≡◌};
    ghost use Rattle.po_ledger.specs.declared.next.ReportFail.TheVariants.{Memory as OutOfMemory};

    ghost from_gives = { λ _ fail. fail ≡ OutOfMemory };

    fn from(_error: Memory) -> ReportFail {
        ReportFail::Memory
    }
}
