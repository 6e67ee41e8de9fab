// A read or a write that failed.
use thiserror::Error;

/// A read or a write failed. The cause is outside the program, and which it was isn't told.
#[derive(Clone, Copy, Debug, PartialEq, Eq, Error)]
#[error("a read or a write failed")]
pub struct Failed;
