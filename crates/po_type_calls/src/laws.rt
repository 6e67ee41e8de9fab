// That typings of calls consist of typings of their arguments.
ghost use Rattle.po_type_calls.specs.Laws.{TypingsOfCalls};

use po_type_parts::typings_are_of_parts;

/// A typing of a call, and of its arguments, consists of typings of the arguments and of what their types make, and every such typing is one.
pub fn typings_of_calls()
    ensures { TypingsOfCalls }
{
    typings_are_of_parts();
}
