// What workers do to the ledger they share, one event after the other, and how far obligations have come.
use crate::obl::{Obl, Verdict};
use po_base::{FileNo, List};

/// One step of a worker on what the workers share.
#[derive(Clone, Copy, Debug)]
pub enum Event<P, N> {
    /// The worker takes all untaken obligations of a file into its hand.
    Take {
        worker: u8,
        file: FileNo,
    },
    /// The predicate is assumed at the entry of the obligation's function, so each of its call sites has to
    /// support it.
    Post {
        file: FileNo,
        obl: Obl<P>,
        pred: P,
    },
    /// The obligation gets its verdict.
    Settle {
        file: FileNo,
        obl: Obl<P>,
        verdict: Verdict<P, N>,
    },
    /// The worker gives a file free, all of its hand settled.
    Give {
        worker: u8,
        file: FileNo,
    },
    /// A file is made free, whoever holds it, and what its hand hasn't settled is untaken again.
    PutBack {
        file: FileNo,
    },
    /// The worker asked for work and there was none: all is done, or it has to wait.
    Ask {
        worker: u8,
        done: bool,
    },
}

/// Events in the order in which they came.
pub type Journal<P, N> = List<Event<P, N>>;

/// How far a known obligation has come.
#[derive(Clone, Copy, Debug)]
pub enum Mark<P, N> {
    /// No hand has it, and it has no verdict.
    Untaken,
    /// A hand has it, and it has no verdict.
    Taken,
    /// It has this verdict.
    Settled(Verdict<P, N>),
}

/// Who holds a file, and what was taken with it.
#[derive(Debug, Drop)]
pub struct Hand<P> {
    pub worker: u8,
    pub items: List<Obl<P>>,
}
