ghost use Rattle.std.specs.Prelude.{IfOk};
ghost use Rattle.po_core.specs.Least.{IsLeastReport};
ghost use Rattle.po_app.specs.Closed.{IsReport};
ghost use Rattle.po_app.specs.Ranges.{IsSmallProject};

use crate::book::ProjectBook;
use crate::rule::Rule;
use po_base::Memory;
use po_core::{Report, Rulebook};
use po_ir::Project;
use po_pred::Pred;
use po_worker::solve_book_alone;
use std::alloc::Global;

/// The least report of a rulebook, worked out alone.
fn least_report<R: Rulebook>(alloc: Global, book: &R) -> Result<Report<R::Pred, R::Rule>, Memory>
    ensures { IfOk result (IsLeastReport R.Pred.cmp (R.meaning book.now)) }
{
    let (report, _journal) = solve_book_alone(alloc, book)?;
    Ok(report)
}

/// The least report of a project. Time: that of the project's rulebook, and for each of its obligations the number of
/// those that are known, of the files and of the calls of its function.
pub(crate) fn report_of(alloc: Global, project: &Project) -> Result<Report<Pred, Rule>, Memory>
    requires { IsSmallProject project.now }
    ensures { IfOk result (IsReport project.now) }
{
    let book = ProjectBook::new(alloc, project)?;
    Ok(least_report(alloc, &book)?)
}
