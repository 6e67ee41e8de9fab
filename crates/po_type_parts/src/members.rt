// The types of what subscripts and members designate.
ghost use Rattle.std.specs.Prelude.{◌≡◌, MatchOption};
ghost use Rattle.po_types.specs.declared.ctype.CType.{CType as TypeOf};
ghost use Rattle.po_typed.specs.Operands.{IsComplete};
ghost use Rattle.po_type_parts.specs.Designating.{Subscripts, HasMember, HasArrowMember};

use po_base::Text;
use po_operands::is_complete;
use po_scopes::Context;
use po_types::CType;

/// A type, where an object may have it.
fn complete<'t>(context: &Context<'_>, t: &'t CType) -> Option<&'t CType>
    ensures { MatchOption result (IsComplete context.now t.now → ⊥) (λ u. IsComplete context.now t.now × (u.now ≡ t.now)) }
{
    if !is_complete(context, t) {
        return None;
    }
    Some(t)
}

/// The type of `x[y]`, where the values of `x` and `y` have the types `u` and `v` (C99 6.5.2.1). None exactly where these are no pointer to a complete object type and
/// a number, in any order. Takes time in the number of arrays that the pointer points to.
pub fn subscripts<'t>(context: &Context<'_>, u: &'t CType, v: &'t CType) -> Option<&'t CType>
    ensures { MatchOption result ((t : TypeOf) → Subscripts context.now u.now v.now t → ⊥) (λ t. Subscripts context.now u.now v.now t.now) }
{
    match u {
        CType::Ptr(to) => match v {
            CType::Int(_) => complete(context, to.get()),
            _ => None,
        },
        CType::Int(_) => match v {
            CType::Ptr(to) => complete(context, to.get()),
            _ => None,
        },
        _ => None,
    }
}

/// The type of the member of this name of an expression of the type `u` (C99 6.5.2.3p3). None exactly where `u` is no struct that has such a member. Constant time on the
/// average, as for `has_arrow_member`.
pub fn has_member<'a>(context: &Context<'a>, u: &CType, name: &Text) -> Option<&'a CType>
    ensures { MatchOption result ((t : TypeOf) → HasMember context.now u.now name.now t → ⊥) (λ t. HasMember context.now u.now name.now t.now) }
{
    match u {
        CType::Struct(n) => context.member(*n, name),
        _ => None,
    }
}

/// The type of the member of this name of what a value of the type `u` points to (C99 6.5.2.3p4). None exactly where `u` is no pointer to a struct that has such a member.
pub fn has_arrow_member<'a>(context: &Context<'a>, u: &CType, name: &Text) -> Option<&'a CType>
    ensures { MatchOption result ((t : TypeOf) → HasArrowMember context.now u.now name.now t → ⊥) (λ t. HasArrowMember context.now u.now name.now t.now) }
{
    match u {
        CType::Ptr(to) => has_member(context, to.get(), name),
        _ => None,
    }
}
