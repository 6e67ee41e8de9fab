// That typings of scalars' initialisers consist of typings of their expressions.
ghost use Rattle.po_type_inits.specs.Laws.{TypingsOfScalars};

use po_type_parts::typings_are_of_parts;

/// A typing of the initialiser of a scalar consists of a typing of its one expression, of what the types make, and of that it may stand there, and every such typing is one.
pub fn typings_of_scalars()
    ensures { TypingsOfScalars }
{
    typings_are_of_parts();
}
