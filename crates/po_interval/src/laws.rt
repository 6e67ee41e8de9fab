// Laws of intervals and of members: their orders, joins, roundings and results.
ghost use Rattle.po_interval.specs.Within as within;
ghost use Rattle.po_interval.specs.Members as members;
ghost use Rattle.po_interval.specs.Rounding.{RoundsToNearest, RoundingWidens};
ghost use Rattle.po_interval.specs.Results.{BinCovers, UnCovers, ConvCovers, BinIsMonotone, UnIsMonotone, ConvIsMonotone, ModuloIsC99};
ghost use Rattle.po_interval.specs.Gathering.{BinMembersCover, UnMembersCover, ConvMembersCover, BinMembersAreMonotone, UnMembersAreMonotone, ConvMembersAreMonotone, ResultsAreOfType};
ghost use Rattle.po_base.specs.declared.operators.Op.{Op};
ghost use Rattle.po_base.specs.declared.operators.UnOp.{UnOp};

/// `interval_within` is exact, and an order by the ends whose least upper bound is the hull. It does nothing.
pub fn intervals_are_ordered()
    ensures exact { within.WithinIsExact }
    ensures ordered { within.EndsAreOrdered }
{}

/// `members_within` is exact, and an order. It does nothing.
pub fn members_are_ordered()
    ensures exact { members.WithinIsExact }
    ensures antisymmetric { members.OneOfAll }
{}

/// The join of members is their least upper bound within eight numbers; order, grouping and repetition don't
/// matter, and what it lists is listed by one of the two. It does nothing.
pub fn join_of_members_is_least()
    ensures least { members.JoinIsLeast }
    ensures of_sets { members.JoinIsOfSets }
    ensures of_both { members.JoinIsOfBoth }
{}

/// Each end is rounded to the nearest threshold. It does nothing.
pub fn rounding_is_to_the_nearest()
    ensures { RoundsToNearest }
{}

/// A rounded interval holds the interval, and rounding is monotone. It does nothing.
pub fn rounding_widens()
    ensures { RoundingWidens }
{}

/// Each result of a binary operation lies in the interval of results. It does nothing.
pub fn binary_results_are_covered()
    ensures { (op : Op) → BinCovers op }
{}

/// Each result of a unary operation, and of a conversion, lies in the interval of results. It does nothing.
pub fn unary_results_are_covered()
    ensures unary { (op : UnOp) → UnCovers op }
    ensures converted { ConvCovers }
{}

/// Wider operands have wider intervals of results. It does nothing.
pub fn wider_operands_have_wider_results()
    ensures binary { (op : Op) → BinIsMonotone op }
    ensures unary { (op : UnOp) → UnIsMonotone op }
    ensures converted { ConvIsMonotone }
{}

/// A conversion to an unsigned type is C's: the number modulo 2 to the width. It does nothing.
pub fn results_are_those_of_c()
    ensures { ModuloIsC99 }
{}

/// Members of results allow each result. It does nothing.
pub fn results_are_allowed()
    ensures binary { (op : Op) → BinMembersCover op }
    ensures unary { (op : UnOp) → UnMembersCover op }
    ensures converted { ConvMembersCover }
{}

/// Members of operands that allow more have results that allow more. It does nothing.
pub fn more_members_have_more_results()
    ensures binary { (op : Op) → BinMembersAreMonotone op }
    ensures unary { (op : UnOp) → UnMembersAreMonotone op }
    ensures converted { ConvMembersAreMonotone }
{}

/// Members of results are numbers of the type, and proper members. It does nothing.
pub fn members_of_results_are_of_type()
    ensures { ResultsAreOfType }
{}
