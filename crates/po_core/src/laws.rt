// Laws of lists of events and of least reports.
ghost use Rattle.std.specs.Prelude.{◌≡◌, ◌≤◌, List};
ghost use Rattle.po_core.specs.Core.{CoreState, IsQuiet, Replays};
ghost use Rattle.po_core.specs.Theorem.{IsLeast, IsOrderly, IsWithin, most_obligations, settle_count};
ghost use Rattle.po_core.specs.Least.{IsLeastReport};
ghost use Rattle.po_core.specs.declared.event.Event.{Event};
ghost use Rattle.po_core.specs.declared.report.Report.{Report};

use crate::book::Rulebook;

/// Every legal list of events stays within the least report: whatever is known is of it, whatever is assumed is
/// of it, and each verdict is the rulebook's. It does nothing.
pub fn legal_lists_stay_within<R: Rulebook>(book: &R)
    ensures { (es : List (Event R.Pred R.Rule)) (s : CoreState R.Pred R.Rule) → Replays (R.meaning book.now) es s → IsWithin (R.meaning book.now) s }
{
    let _book = book;
}

/// A legal list of events that ends quiet has found the least report, and settled each obligation once. It does
/// nothing.
pub fn quiet_lists_are_least<R: Rulebook>(book: &R)
    ensures { (es : List (Event R.Pred R.Rule)) (s : CoreState R.Pred R.Rule) → Replays (R.meaning book.now) es s → IsQuiet s → IsLeast (R.meaning book.now) es s }
{
    let _book = book;
}

/// Every legal list of events leads to a state in which hands and marks agree, and each call supports what is assumed of the
/// function that it calls. It does nothing.
pub fn legal_lists_are_orderly<R: Rulebook>(book: &R)
    ensures { (es : List (Event R.Pred R.Rule)) (s : CoreState R.Pred R.Rule) → Replays (R.meaning book.now) es s → IsOrderly (R.meaning book.now) s }
{
    let _book = book;
}

/// No legal list of events settles more obligations than the rulebook can ever ask. Nothing is said of how often a file
/// is taken and put back, or a worker asks. It does nothing.
pub fn settles_are_bounded<R: Rulebook>(book: &R)
    ensures { (es : List (Event R.Pred R.Rule)) (s : CoreState R.Pred R.Rule) → Replays (R.meaning book.now) es s → settle_count es ≤ most_obligations (R.meaning book.now) }
{
    let _book = book;
}

/// A rulebook has one least report at most, with one order of its lines. It does nothing.
pub fn least_report_is_one<R: Rulebook>(book: &R)
    ensures { (r s : Report R.Pred R.Rule) → IsLeastReport R.Pred.cmp (R.meaning book.now) r → IsLeastReport R.Pred.cmp (R.meaning book.now) s → r ≡ s }
{
    let _book = book;
}
