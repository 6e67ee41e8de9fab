// What the operand of a sign is converted to.
ghost use Rattle.po_constants.specs.Found.{Finds};
ghost use Rattle.po_type_parts.specs.Converting.{Promotes};

use po_types::{CType, promoted};

/// What the operand of `+`, `-` or `~` is converted to, which is the type of the result (C99 6.5.3.3p2 to p4). None exactly where its value, of type `v`, is no
/// number. Constant time.
pub fn promotes(v: &CType) -> Option<CType>
    ensures { Finds (Promotes v.now) result }
{
    match v {
        CType::Int(number) => Some(CType::Int(promoted(*number))),
        _ => None,
    }
}
