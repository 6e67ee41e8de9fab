// Laws of lowering: each tree has one graph at most.
ghost use Rattle.po_lowering.specs.Same.{OneCondition, OneGraph, OneUnused, OneValue};

/// An expression has one value and one row of nodes at most. It does nothing.
pub fn one_value()
    ensures { OneValue }
{}

/// An expression whose value isn't used has one row of nodes at most. It does nothing.
pub fn one_unused()
    ensures { OneUnused }
{}

/// A condition with the same nodes to go to has one row of nodes at most. It does nothing.
pub fn one_condition()
    ensures { OneCondition }
{}

/// A typed definition has one graph at most, with one list of statics and one of literals. It does nothing.
pub fn one_graph()
    ensures { OneGraph }
{}
