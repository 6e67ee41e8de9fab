// What declarators make of types: stars and `restrict` (C99 6.7.3, 6.7.5.1).
ghost use Rattle.std.specs.Prelude.{ℕ, List as Bytes, ◌≡◌, MatchBool, IfOk};
ghost use Rattle.po_typed.specs.BaseTypes as base;
ghost use Rattle.po_typed.specs.BaseTypes.{CanBeStarred, RestrictFits, ArePointers};

use crate::words::has_word;
use po_base::{List, Memory, Text};
use po_tree::Specifier;
use po_types::{CType, Shared, signature};
use std::alloc::Global;

/// One pointer for each `*` (C99 6.7.5.1). Time linear in the stars.
pub fn starred(alloc: Global, t: CType, stars: &[List<Text>]) -> Result<CType, Memory>
    ensures { IfOk result (λ u. u ≡ base.starred t stars.now) }
{
    let mut pointer = t;
    for _star in stars {
        pointer = CType::Ptr(Shared::new(alloc, pointer)?);
    }
    Ok(pointer)
}

/// Whether a type may stand before these stars: pointers to functions are left out.
pub fn can_be_starred(stars: &[List<Text>], t: &CType) -> bool
    ensures { MatchBool result (CanBeStarred stars.now t.now) (CanBeStarred stars.now t.now → ⊥) }
{
    stars.is_empty() || signature(t).is_none()
}

/// Whether a type is a pointer, or an array of them, however deep (C99 6.7.3p2, p8). Time linear in the depth of the arrays.
fn are_pointers(t: &CType) -> bool
    ensures { MatchBool result (ArePointers t.now) (ArePointers t.now → ⊥) }
{
    let mut inner = t;
    loop {
        match inner {
            CType::Ptr(_) => return true,
            CType::Array(element, _) => inner = element.get(),
            CType::Void => return false,
            CType::Int(_) => return false,
            CType::Struct(_) => return false,
            CType::Fun(_, _, _) => return false,
        }
    }
}

/// Whether `restrict` stands among specifiers only where it may qualify the type.
pub fn restrict_fits(specs: &[Specifier], t: &CType) -> bool
    ensures { MatchBool result (RestrictFits specs.now t.now) (RestrictFits specs.now t.now → ⊥) }
{
    if !has_word(specs, b"restrict") {
        return true;
    }
    are_pointers(t)
}
