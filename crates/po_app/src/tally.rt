ghost use Rattle.std.specs.Prelude.{◌≡◌, ◌+◌, ◌<◌, ◌^◌};
ghost use Rattle.po_app.specs.Tallied.{tally_of, counted};

use crate::rule::Rule;
use po_core::{Obl, Verdict};
use po_pred::Pred;

/// A line of a report: an obligation with its verdict.
pub(crate) type Line = (Obl<Pred>, Verdict<Pred, Rule>);

/// How many lines of a report have which verdict.
#[derive(Clone, Copy, Debug, PartialEq, Eq)]
pub(crate) struct Tally {
    pub(crate) closed: usize,
    pub(crate) delegated: usize,
    pub(crate) left_open: usize,
}

impl Tally {
    /// Counts lines, in time linear in them.
    pub(crate) fn of(lines: &[Line]) -> Tally
        ensures { result ≡ tally_of lines.now }
    {
        let mut tally = Tally {
            closed: 0,
            delegated: 0,
            left_open: 0,
        };
        for line in lines {
            tally.add(&line.1);
        }
        tally
    }

    fn add(&mut self, verdict: &Verdict<Pred, Rule>)
        requires closed { self.old.closed + 1 < 2 ^ 64 }
        requires delegated { self.old.delegated + 1 < 2 ^ 64 }
        requires left_open { self.old.left_open + 1 < 2 ^ 64 }
        ensures { self.new ≡ counted self.old verdict.now }
    {
        match verdict {
            Verdict::Closed(_) => self.closed += 1,
            Verdict::Delegated(_) => self.delegated += 1,
            Verdict::Open => self.left_open += 1,
        }
    }
}
