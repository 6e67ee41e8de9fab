// How values of a type are held.
ghost use Rattle.std.specs.Prelude.{◌≡◌, MatchOption, true, false};
ghost use Rattle.po_lowering.specs.Types as types;
ghost use Rattle.po_lowering.specs.Conversions as conversions;

use po_ir::Ty;
use po_types::{CType, promoted};

/// The type of the register that holds a value of a type: an integer is held by itself, anything else by an address (C99 6.2.5).
#[tactic(auto, using(crate::proofs::Held::register_by_form))]
pub fn register_type(t: &CType) -> Ty
    ensures { result ≡ types.register_type t.now }
{
    match t {
        CType::Void => Ty::Ptr,
        CType::Int(number) => Ty::Int(*number),
        CType::Ptr(_) => Ty::Ptr,
        CType::Array(_, _) => Ty::Ptr,
        CType::Struct(_) => Ty::Ptr,
        CType::Fun(_, _, _) => Ty::Ptr,
    }
}

/// The type in which a value of a type is compared with 0: that of the promoted integer, or a pointer (C99 6.3.1.1p2, 6.5.3.3p5).
#[tactic(auto, using(crate::proofs::Held::tested_by_form))]
pub fn tested(t: &CType) -> Ty
    ensures { result ≡ conversions.tested t.now }
{
    match t {
        CType::Void => Ty::Ptr,
        CType::Int(number) => Ty::Int(promoted(*number)),
        CType::Ptr(_) => Ty::Ptr,
        CType::Array(_, _) => Ty::Ptr,
        CType::Struct(_) => Ty::Ptr,
        CType::Fun(_, _, _) => Ty::Ptr,
    }
}

/// Whether a type is an integer or a pointer (C99 6.2.5p21).
pub fn is_scalar(t: &CType) -> bool
    ensures { result ≡ types.is_scalar t.now }
{
    match t {
        CType::Void => false,
        CType::Int(_) => true,
        CType::Ptr(_) => true,
        CType::Array(_, _) => false,
        CType::Struct(_) => false,
        CType::Fun(_, _, _) => false,
    }
}

/// Whether a type is void.
pub fn is_void(t: &CType) -> bool
    ensures { result ≡ types.is_void t.now }
{
    match t {
        CType::Void => true,
        CType::Int(_) => false,
        CType::Ptr(_) => false,
        CType::Array(_, _) => false,
        CType::Struct(_) => false,
        CType::Fun(_, _, _) => false,
    }
}

/// Whether a type is a struct.
pub fn is_struct(t: &CType) -> bool
    ensures { result ≡ types.is_struct t.now }
{
    match t {
        CType::Void => false,
        CType::Int(_) => false,
        CType::Ptr(_) => false,
        CType::Array(_, _) => false,
        CType::Struct(_) => true,
        CType::Fun(_, _, _) => false,
    }
}

/// Whether a type is a pointer, or an array, which becomes one (C99 6.3.2.1p3).
pub fn is_address(t: &CType) -> bool
    ensures { result ≡ types.is_address t.now }
{
    match t {
        CType::Void => false,
        CType::Int(_) => false,
        CType::Ptr(_) => true,
        CType::Array(_, _) => true,
        CType::Struct(_) => false,
        CType::Fun(_, _, _) => false,
    }
}

/// What a pointer points to, or an array consists of. None exactly where a type is neither.
pub fn referenced(t: &CType) -> Option<&CType>
    ensures { MatchOption result (types.is_address t.now ≡ false) (λ u. (types.is_address t.now ≡ true) × (u.now ≡ types.referenced t.now)) }
{
    match t {
        CType::Void => None,
        CType::Int(_) => None,
        CType::Ptr(to) => Some(to.get()),
        CType::Array(element, _) => Some(element.get()),
        CType::Struct(_) => None,
        CType::Fun(_, _, _) => None,
    }
}
