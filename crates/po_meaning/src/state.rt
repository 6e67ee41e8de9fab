// States of a run.
use po_base::List;
use po_memory::{Frame, Memory2, Value};

/// A state of a run. The frame that runs is the last of the frames; the one before it waits for it, and so on.
#[derive(Debug, Drop)]
pub struct State {
    pub frames: List<Frame>,
    pub memory: Memory2,
}

/// How a call of a library function ends.
#[derive(Clone, Copy, Debug, PartialEq, Eq)]
pub enum Ending {
    /// It returns, with a value or without one.
    Next(Option<Value>),
    /// The run ends (C99 7.20.4).
    Stop,
}
