use crate::ring::Ring;
use po_worker::{Gate, Moment};
use std::sync::atomic::{AtomicU64, Ordering};
use std::thread;

/// How many turns the first worker waits for another.
const TURNS: u32 = 1_000_000;

/// A gate that holds the first worker that comes until another comes too, for at most so many turns.
#[derive(Drop)]
pub(crate) struct Meeting {
    /// The first worker, 0 before one came.
    first: AtomicU64,
    /// Whether another came.
    other: AtomicU64,
}

impl Meeting {
    /// A gate to which nobody came yet.
    pub(crate) fn new() -> Meeting {
        Meeting {
            first: AtomicU64::new(0),
            other: AtomicU64::new(0),
        }
    }

    /// Whether two workers came.
    pub(crate) fn met(&self) -> bool {
        self.other.load(Ordering::SeqCst) != 0
    }
}

impl Gate for Meeting {
    fn at(&self, worker: u8, _moment: Moment) {
        match self
            .first
            .compare_exchange(0, worker as u64, Ordering::SeqCst, Ordering::SeqCst)
        {
            Ok(_) => {
                for _ in 0..TURNS {
                    if self.met() {
                        return;
                    }
                    thread::yield_now();
                }
            }
            Err(first) => {
                if first != worker as u64 {
                    self.other.store(1, Ordering::SeqCst);
                }
            }
        }
    }
}

/// A gate that lets the first worker that comes find memory wanting, so that it stops at its first take.
#[derive(Drop)]
pub(crate) struct Stop<'r> {
    ring: &'r Ring,
    came: AtomicU64,
}

impl<'r> Stop<'r> {
    /// A gate to which nobody came yet.
    pub(crate) fn new(ring: &'r Ring) -> Stop<'r> {
        Stop {
            ring,
            came: AtomicU64::new(0),
        }
    }
}

impl<'r> Gate for Stop<'r> {
    fn at(&self, _worker: u8, _moment: Moment) {
        if self.came.swap(1, Ordering::SeqCst) == 0 {
            self.ring.refuse();
        }
    }
}
