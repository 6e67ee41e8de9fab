// Files joined to a project.
ghost use Rattle.po_link.specs.Outcome.{IsOutcome};

use crate::join::join_files;
use po_arith::Target;
use po_base::List;
use po_ir::{Project, Unit};
use po_symbols::{LinkFail, check_names, check_sizes};
use std::alloc::Global;

/// The project of these files, or why they can't be joined to one. Want of memory is the one answer that has no cause. In time linear
/// in the sizes of the files but for the logarithm of the number of names.
pub fn link(alloc: Global, units: List<Unit>, target: Target) -> Result<Project, LinkFail>
    ensures { IsOutcome units target result }
{
    check_names(alloc, units.as_slice())?;
    check_sizes(units.as_slice())?;
    Ok(join_files(alloc, units, target)?)
}
