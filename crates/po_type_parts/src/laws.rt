// That typings of compound expressions consist of typings of their operands.
ghost use Rattle.po_type_parts.specs.Laws.{TypingsAreOfParts};

/// A typing of an assigned value, a cast, a subscript, a member, `+`, `-`, `~`, a binary operator, a compound assignment and a printed argument consists of typings of its
/// operands and of what their types make, and every such typing is one.
pub fn typings_are_of_parts()
    ensures { TypingsAreOfParts }
{}
