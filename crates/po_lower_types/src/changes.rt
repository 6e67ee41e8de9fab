// What conversions do to values (C99 6.3).
ghost use Rattle.std.specs.Prelude.{◌≡◌, nat_lt};
ghost use Rattle.po_lowering.specs.Conversions as conversions;
ghost use Rattle.po_lowering.specs.Typed.{Typed};
ghost use Rattle.po_types.specs.declared.ctype.CType.{out-CType};
ghost use Rattle.po_types.specs.declared.ctype.CType.TheOpen.{CType-F};
ghost use Rattle.po_lower_types.specs.Measured.{IsMeasured};
ghost use Rattle.po_lower_types.specs.Changes.{from_address as change_from_address, told};

use crate::numbers::{fits, is_kept};
use crate::sizes::align;
use po_arith::IntType;
use po_base::Opnd;
use po_ir::Ty;
use po_types::{CType, Env};

/// What a conversion does to a value (C99 6.3).
#[derive(Clone, Copy, Debug, PartialEq, Eq)]
pub enum Conversion {
    /// The value stays as it is.
    Nothing,
    /// The value is compared with 0 in this type (C99 6.3.1.2).
    Comparison(Ty),
    /// A Conv to this type; a pointer's new type has this alignment, in bytes.
    Conv { ty: Ty, align: u64 },
}

/// Whether an operand is a number of a type.
fn number_fits(t: IntType, v: Opnd) -> bool
    ensures { result ≡ conversions.number_fits t v }
{
    match v {
        Opnd::Num(n) => fits(t, n),
        Opnd::Reg(_) => false,
    }
}

/// From an integer type to one.
fn to_integer(s: IntType, t: IntType, v: Opnd) -> Conversion
    ensures { told result ≡ conversions.to_integer s t v }
{
    if is_kept(s, t) {
        return Conversion::Nothing;
    }
    if number_fits(t, v) {
        return Conversion::Nothing;
    }
    if t.bits == 1 {
        return Conversion::Comparison(Ty::Int(s));
    }
    Conversion::Conv {
        ty: Ty::Int(t),
        align: 1,
    }
}

/// From a pointer to an integer type, which is _Bool.
fn to_bool(t: IntType, v: Opnd) -> Conversion
    ensures { told result ≡ conversions.to_bool t v }
{
    if number_fits(t, v) {
        return Conversion::Nothing;
    }
    Conversion::Comparison(Ty::Ptr)
}

/// From a pointer to one type to a pointer to another.
fn to_pointer(env: &Env, s: &CType, t: &CType) -> Conversion
    ensures { (f : Typed) → IsMeasured env.now f → told result ≡ conversions.to_pointer f s.now t.now }
{
    let wanted = align(env, t);
    if align(env, s) < wanted {
        return Conversion::Conv {
            ty: Ty::Ptr,
            align: wanted,
        };
    }
    Conversion::Nothing
}

/// From a pointer to a type, or an array of it, to another type.
fn from_address(env: &Env, s: &CType, to: &CType, v: Opnd) -> Conversion
    ensures { (f : Typed) → IsMeasured env.now f → told result ≡ change_from_address f s.now to.now v }
{
    match to {
        CType::Void => Conversion::Nothing,
        CType::Int(t) => to_bool(*t, v),
        CType::Ptr(t) => to_pointer(env, s, t.get()),
        CType::Array(_, _) => Conversion::Nothing,
        CType::Struct(_) => Conversion::Nothing,
        CType::Fun(_, _, _) => Conversion::Nothing,
    }
}

/// From an integer type to another type.
fn from_integer(s: IntType, to: &CType, v: Opnd) -> Conversion
    ensures { (f : Typed) → told result ≡ conversions.change_between f (CType-F.Int s) (out-CType to.now) v }
{
    match to {
        CType::Void => Conversion::Nothing,
        CType::Int(t) => to_integer(s, *t, v),
        CType::Ptr(_) => Conversion::Nothing,
        CType::Array(_, _) => Conversion::Nothing,
        CType::Struct(_) => Conversion::Nothing,
        CType::Fun(_, _, _) => Conversion::Nothing,
    }
}

/// What the conversion of a value from one type to another does (C99 6.3.1.2, 6.3.1.3, 6.3.2.3p7). Takes time in the number of arrays in the types.
pub fn change(env: &Env, from: &CType, to: &CType, v: Opnd) -> Conversion
    ensures { (f : Typed) → IsMeasured env.now f → told result ≡ conversions.change f from.now to.now v }
{
    match from {
        CType::Void => Conversion::Nothing,
        CType::Int(s) => from_integer(*s, to, v),
        CType::Ptr(s) => from_address(env, s.get(), to, v),
        CType::Array(s, _) => from_address(env, s.get(), to, v),
        CType::Struct(_) => Conversion::Nothing,
        CType::Fun(_, _, _) => Conversion::Nothing,
    }
}
