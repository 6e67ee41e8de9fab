// Laws of constants: one value, one result, one type.
ghost use Rattle.po_constants.specs.Laws.{ConstantsHaveOneValue, OperatorsHaveOneResult, WordsHaveOneType};

/// An integer constant has one type and one value at most, and a character constant and string literals side by side have one value at most.
/// It does nothing.
pub fn constants_have_one_value()
    ensures { ConstantsHaveOneValue }
{}

/// A conversion, an operator, a shift and a comparison give constants one result at most. It does nothing.
pub fn operators_have_one_result()
    ensures { OperatorsHaveOneResult }
{}

/// Specifiers that are words have one type at most (C99 6.7.2p2). It does nothing.
pub fn words_have_one_type()
    ensures { WordsHaveOneType }
{}
