// Objects and enumerators that identifiers mean (C99 6.5.1).
ghost use Rattle.std.specs.Prelude.{◌≡◌, MatchBool, MatchOption, Some};
ghost use Rattle.po_tree.specs.declared.expression.Exp.TheOpen.{Exp-F};
ghost use Rattle.po_types.specs.declared.ctype.CType.{CType as TypeOf};
ghost use Rattle.po_typed.specs.Scopes.{meaning, constant};
ghost use Rattle.po_typed.specs.Expressions.{IsObject, HasAddress};
ghost use Rattle.po_constants.specs.Found.{Finds};

use po_base::Text;
use po_scopes::{Context, Meaning, Storage};
use po_types::{CType, is_void};

/// The type of the object that an identifier means; None exactly where it means none. Time as for `Context::meaning`, as in all calls here.
pub fn is_object<'a>(context: &Context<'a>, name: &Text) -> Option<&'a CType>
    ensures { MatchOption result ((t : TypeOf) → IsObject context.now name.now t → ⊥) (λ t. IsObject context.now name.now t.now) }
{
    match context.meaning(name) {
        None => None,
        Some(meaning) => match meaning {
            Meaning::Global(t, _) => Some(t),
            Meaning::Local(_, t) => Some(t),
            Meaning::Function(_) => None,
            Meaning::TypeName(_, _) => None,
            Meaning::Constant(_) => None,
        },
    }
}

/// Whether `&` takes an identifier: it means an object that no register holds (C99 6.5.3.2p1).
pub fn has_stored_address(context: &Context<'_>, name: &Text) -> bool
    ensures { MatchBool result (HasAddress context.now (Exp-F.Var name.now)) (HasAddress context.now (Exp-F.Var name.now) → ⊥) }
{
    match context.meaning(name) {
        None => false,
        Some(meaning) => match meaning {
            Meaning::Global(t, _) => {
                if is_void(t) {
                    return false;
                }
                true
            }
            Meaning::Local(storage, _) => match storage {
                Storage::Automatic => true,
                Storage::Register => false,
                Storage::Static => true,
            },
            Meaning::Function(_) => false,
            Meaning::TypeName(_, _) => false,
            Meaning::Constant(_) => false,
        },
    }
}

/// The value of the enumerator that an identifier means; None exactly where it means none (C99 6.4.4.3).
pub fn value_of(context: &Context<'_>, name: &Text) -> Option<i128>
    ensures { Finds (λ v. meaning context.now name.now ≡ Some (constant v)) result }
{
    match context.meaning(name) {
        None => None,
        Some(meaning) => match meaning {
            Meaning::Constant(value) => Some(value),
            Meaning::Global(_, _) => None,
            Meaning::Local(_, _) => None,
            Meaning::Function(_) => None,
            Meaning::TypeName(_, _) => None,
        },
    }
}
