// Laws of types: one spelling, one layout, one format, and what conversions keep.
ghost use Rattle.po_types.specs.Laws.{OneSpelling, OneLayout, OneFormat, PromotionKeeps, CommonIsSymmetric};

/// A type has one spelling at most, so equal types have equal spellings. It does nothing.
pub fn spelling_is_one()
    ensures { OneSpelling }
{}

/// Members lie in one way at most. It does nothing.
pub fn layout_is_one()
    ensures { OneLayout }
{}

/// A `printf` format reads one list of things at most. It does nothing.
pub fn format_is_one()
    ensures { OneFormat }
{}

/// A promoted type holds each number of the type (C99 6.3.1.1p3). It does nothing.
pub fn promotion_keeps_numbers()
    ensures { PromotionKeeps }
{}

/// The usual arithmetic conversions don't depend on the order of the operands (C99 6.3.1.8). It does nothing.
pub fn common_type_is_symmetric()
    ensures { CommonIsSymmetric }
{}
