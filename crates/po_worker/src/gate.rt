// The trait of what workers pass on their rounds.

/// A moment of a worker's round at which it doesn't hold the lock.
#[derive(Clone, Copy, Debug, PartialEq, Eq)]
pub enum Moment {
    /// It has taken a file.
    Taken,
    /// It has settled all of a file, and is about to give it free.
    Giving,
}

/// What workers pass on their rounds, each while it doesn't hold the lock. Workers share it.
pub trait Gate {
    /// A worker passes at a moment.
    fn at(&self, worker: u8, moment: Moment);
}

/// A gate that does nothing.
pub struct NoGate;

impl Gate for NoGate {
    fn at(&self, _worker: u8, _moment: Moment) {}
}
