// A ledger behind a lock.
use po_core::Rulebook;
use po_ledger::{Ledger, Naming};
use std::sync::{Condvar, Mutex};

/// A ledger that workers share, and the bell that is rung when there may be work for one who waits, or all may be done.
#[derive(Drop)]
pub struct Shared<'r, R: Rulebook, J: Naming<R::Pred, R::Rule, R::Table>> {
    pub ledger: Mutex<Ledger<'r, R, J>>,
    pub bell: Condvar,
}

impl<'r, R: Rulebook, J: Naming<R::Pred, R::Rule, R::Table>> Shared<'r, R, J> {
    /// Puts a ledger behind a lock.
    pub fn new(ledger: Ledger<'r, R, J>) -> Shared<'r, R, J> {
        Shared {
            ledger: Mutex::new(ledger),
            bell: Condvar::new(),
        }
    }

    /// Takes the ledger out of the lock. What its type keeps is known of it, and no more.
    pub fn into_ledger(self) -> Ledger<'r, R, J> {
        let Shared { ledger, .. } = self;
        ledger.into_inner()
    }
}
