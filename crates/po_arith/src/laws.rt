// Laws of whole numbers: wrapping, division, rounding, bits, and ranges of results.
ghost use Rattle.po_arith.specs.Types.{OneWrapped};
ghost use Rattle.po_arith.specs.Division.{DivisionIsC99, OneDivision};
ghost use Rattle.po_arith.specs.Shifts.{OneShiftedRight};
ghost use Rattle.po_arith.specs.Bits.{BitsAreTelling, BitsAreLeast, BitwiseKeepsTypes};
ghost use Rattle.po_arith.specs.Ranges.{ResultsAreCovered, ResultsWiden};

/// A number is wrapped to one number at most. It does nothing.
pub fn one_number_is_congruent()
    ensures { OneWrapped }
{}

/// A quotient and a remainder are those of C99, and there is one of each. It does nothing.
pub fn division_is_that_of_c()
    ensures holds { DivisionIsC99 }
    ensures one { OneDivision }
{}

/// Rounding down gives one number at most. It does nothing.
pub fn one_number_is_rounded_down()
    ensures { OneShiftedRight }
{}

/// A number is known by its bits. It does nothing.
pub fn bits_tell_numbers_apart()
    ensures { BitsAreTelling }
{}

/// As many bits as a number needs hold it and no fewer do, and what is done bit by bit keeps the numbers of a signed type. It does nothing.
pub fn bits_hold_numbers()
    ensures least { BitsAreLeast }
    ensures kept { BitwiseKeepsTypes }
{}

/// Each result of numbers of two ranges lies in the range of results: products, quotients by divisors of one sign and shifts lie between
/// those at the corners. It does nothing.
pub fn results_lie_between_ends()
    ensures { ResultsAreCovered }
{}

/// Wider ranges have wider ranges of results. It does nothing.
pub fn wider_ranges_have_wider_results()
    ensures { ResultsWiden }
{}
