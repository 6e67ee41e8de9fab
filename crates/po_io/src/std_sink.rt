// Standard output as a sink.
ghost use Rattle.std.specs.Prelude.{◌≡◌, ◌≤◌, None};

use crate::count::rise;
use crate::failed::Failed;
use crate::sink::Sink;

/// Standard output. It tells nothing but its count: what reaches the outside is trusted.
#[derive(Drop)]
pub struct StdSink<'a, T> {
    rt: &'a T,
    faults: u64,
}

impl<'a, T: Print> StdSink<'a, T> {
    /// The standard output of `rt`. No fault is counted yet.
    pub fn new(rt: &'a T) -> StdSink<'a, T>
        ensures { result.faults ≡ 0 }
    {
        StdSink { rt, faults: 0 }
    }
}

impl<T: Print> Sink for StdSink<'_, T> {
    ghost written = { λ s. None };

    ghost faults = { λ s. s.faults };

    /// One write to standard output. None taken of a piece that isn't empty is a fault.
    fn write(&mut self, bytes: &[u8]) -> Result<usize, Failed> {
        match self.rt.write_some(bytes) {
            Ok(count) if 0 < count || bytes.is_empty() => Ok(count),
            _ => {
                self.faults = rise(self.faults);
                Err(Failed)
            }
        }
    }
}
