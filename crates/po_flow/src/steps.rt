// Counters of steps.
ghost use Rattle.std.specs.Prelude.{◌≡◌};
ghost use Rattle.po_flow.specs.Counting.{counted_on};

use std::marker::{Model, PhantomData};

/// A counter of steps, which contracts see as the number of steps counted so far. `L` names what is counted, so that
/// counters of different steps are of different types. At the greatest 64-bit number it stands still.
#[derive(Drop)]
pub struct Steps<L> {
    count: u64,
    of: PhantomData<L>,
}

impl<L> Model for Steps<L> {
    ghost use Rattle.std.specs.Prelude.{ℕ};

    ghost Value = { ℕ };

    ghost view = { λ steps. steps.count };
}

impl<L> Steps<L> {
    /// No step was counted yet.
    pub fn new() -> Steps<L>
        ensures { result ≡ 0 }
    {
        Steps {
            count: 0,
            of: PhantomData,
        }
    }

    /// How many steps were counted.
    pub fn count(&self) -> u64
        ensures { result ≡ self.now }
    {
        self.count
    }

    /// Counts one step.
    pub fn tick(&mut self)
        ensures { self.new ≡ counted_on self.old 1 }
    {
        self.count = self.count.saturating_add(1);
    }

    /// Counts the steps that another counter has counted.
    pub fn add(&mut self, more: &Steps<L>)
        ensures { self.new ≡ counted_on self.old more.now }
    {
        self.count = self.count.saturating_add(more.count);
    }
}
