// Laws of steps: what is violated first, and which states belong to a project.
ghost use Rattle.po_meaning.specs.Laws.{OneIsFirst, NoneIsFirst, EntryKeepsHolds, PlainStepsStay};
ghost use Rattle.po_meaning.specs.Following.{LibraryCallsPass, OneOrAll, StatesFollow};
ghost use Rattle.po_meaning.specs.Staying.{LibraryStepsStay, StepsStay};

use po_interval::{members_of_results_are_of_type, results_are_allowed};
use po_memory::{blocks_are_kept, subst_keeps_holds};

/// One obligation at most is violated first. It does nothing.
pub fn first_violated_is_one()
    ensures { OneIsFirst }
{}

/// Where all obligations hold none is violated first. It does nothing.
pub fn steps_violate_nothing()
    ensures { NoneIsFirst }
{}

/// Where a function is called, a predicate on its parameters holds of its entry exactly where it holds of the caller with the
/// arguments put in. It does nothing.
pub fn entry_keeps_holds()
    ensures { EntryKeepsHolds }
{
    subst_keeps_holds();
}

/// A step of an instruction that writes a register at most, and neither moves nor follows a pointer, leads from a state that
/// belongs to a whole project to one that belongs to it. It does nothing.
pub fn plain_steps_stay()
    ensures { PlainStepsStay }
{
    members_of_results_are_of_type();
    results_are_allowed();
}

/// A step that calls no library function, from a state that belongs to a whole project and in which all obligations hold,
/// leads to one that belongs to it. It does nothing.
pub fn steps_stay()
    ensures { StepsStay }
{
    members_of_results_are_of_type();
    results_are_allowed();
    blocks_are_kept();
}

/// A call of a library function that keeps what it has to keep leads from a state that belongs to a whole project to one that
/// belongs to it. It does nothing.
pub fn library_steps_stay()
    ensures { LibraryStepsStay }
{}

/// Where it is decided of each obligation whether it holds, one is violated first, or all hold. It does nothing.
pub fn one_or_all()
    ensures { OneOrAll }
{}

/// Where all obligations hold in a state that belongs to a whole project, and no library function is called, a state follows or
/// the run ends. It does nothing.
pub fn states_follow()
    ensures { StatesFollow }
{}

/// At a call of a library function in such a state the operands have values, at the types of its parameters. It does nothing.
pub fn library_calls_pass()
    ensures { LibraryCallsPass }
{}
