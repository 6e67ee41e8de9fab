// Laws of joined files: one project, with its functions in order.
ghost use Rattle.po_link.specs.Joined.{OneProject, StandsByFile};
ghost use Rattle.po_link.specs.Outcome.{OneFunctionEach, OneOutcome};

/// Files are joined to one project at most.
pub fn joined_to_one()
    ensures { OneProject }
{}

/// The functions of a project stand by file, and then by place in the file.
pub fn functions_stand_by_file()
    ensures { StandsByFile }
{}

/// The same files have one outcome, but for want of memory.
pub fn outcome_is_one()
    ensures { OneOutcome }
{}

/// Each external name has one function, where no file shows two functions of one name.
pub fn name_has_one_function()
    ensures { OneFunctionEach }
{}
