// What an argument of `printf` is converted to.
ghost use Rattle.std.specs.Prelude.{◌≡◌, ◌⊎◌, IfOk};
ghost use Rattle.po_types.specs.Integers as integers;
ghost use Rattle.po_types.specs.declared.ctype.CType.TheVariants as c;
ghost use Rattle.po_typed.specs.Expressions as typed;
ghost use Rattle.po_constants.specs.Found.{Finds};
ghost use Rattle.po_choices.specs.Answering.{IsWhether};
ghost use Rattle.po_type_parts.specs.Converting.{PrintsAs, PromotesTo};

use po_arith::{IntType, Target};
use po_base::Memory;
use po_types::{CHAR, CType, Spec, difference_type, promoted, size_type};

/// The type `unsigned int`.
const UNSIGNED: IntType = IntType {
    bits: 32,
    signed: false,
};

/// Whether an integer type is one of two.
fn is_one_of(t: IntType, first: IntType, second: IntType) -> bool
    ensures { IsWhether ((first ≡ t) ⊎ (second ≡ t)) result }
{
    if first == t {
        return true;
    }
    second == t
}

/// What a number is promoted to, where that is one of two types.
fn promoted_to(v: &CType, first: IntType, second: IntType) -> Option<CType>
    ensures { Finds (PromotesTo first second v.now) result }
{
    match v {
        CType::Int(number) => {
            let wide = promoted(*number);
            if !is_one_of(wide, first, second) {
                return None;
            }
            Some(CType::Int(wide))
        }
        _ => None,
    }
}

/// Whether a type is `char*`.
fn is_pointer_to_char(v: &CType) -> bool
    ensures { IsWhether (v.now ≡ c.Ptr typed.char) result }
{
    match v {
        CType::Ptr(to) => match to.get() {
            CType::Int(number) => *number == CHAR,
            _ => false,
        },
        _ => false,
    }
}

/// What `%s` takes: `char*` as it is.
fn text(v: &CType) -> Result<Option<CType>, Memory>
    ensures { IfOk result (Finds (λ a. (v.now ≡ c.Ptr typed.char) × (a ≡ v.now))) }
{
    if !is_pointer_to_char(v) {
        return Ok(None);
    }
    Ok(Some(v.share()?))
}

/// What an argument, a value of type `v`, is converted to where a conversion of a `printf` format reads it (C99 6.5.2.2p6, 7.19.6.1p7, p8). None exactly where the
/// conversion takes no such value. Constant time.
pub fn prints_as(target: Target, spec: Spec, v: &CType) -> Result<Option<CType>, Memory>
    ensures { IfOk result (Finds (PrintsAs target spec v.now)) }
{
    match spec {
        Spec::Int => Ok(promoted_to(v, IntType::INT, UNSIGNED)),
        Spec::Long => Ok(promoted_to(v, difference_type(target), size_type(target))),
        Spec::Size => Ok(promoted_to(v, difference_type(target), size_type(target))),
        Spec::Text => text(v),
    }
}
