// Constants converted to types (C99 6.3.1).
ghost use Rattle.std.specs.Prelude.{◌≡◌, ◌≢◌, MatchBool, IfSome};
ghost use Rattle.po_arith.specs.Types.{IsIntType, IsOfType};
ghost use Rattle.po_types.specs.Integers.{bool_type};
ghost use Rattle.po_typed.specs.Constants.{Becomes, Kept};
ghost use Rattle.po_constants.specs.Found.{Finds};

use po_arith::{IntType, fits, wrap};

/// Whether the type is `_Bool`.
fn is_bool(t: IntType) -> bool
    ensures { MatchBool result (t ≡ bool_type) (t ≢ bool_type) }
{
    t.bits == 1 && !t.signed
}

/// What the exact result of an operation in the type gives: of a signed type the result where it fits, of an unsigned one the
/// number that is congruent to it (C99 6.2.5p9, 6.5p5). Constant time.
pub fn kept(t: IntType, v: i128) -> Option<i128>
    requires { IsIntType t }
    ensures exact { Finds (Kept t v) result }
    ensures of_type { IfSome result (IsOfType t) }
{
    if !t.signed {
        return Some(wrap(v, t));
    }
    if fits(v, t) { Some(v) } else { None }
}

/// What a constant is that is converted to the type: `_Bool` tells whether it is 0, an unsigned type takes it modulo, and a signed
/// one only where it fits (C99 6.3.1.2, 6.3.1.3). Constant time.
pub fn becomes(t: IntType, v: i128) -> Option<i128>
    requires { IsIntType t }
    ensures exact { Finds (Becomes t v) result }
    ensures of_type { IfSome result (IsOfType t) }
{
    if is_bool(t) {
        return Some(if v == 0 { 0 } else { 1 });
    }
    kept(t, v)
}
