// What a type is: void, an integer, a pointer, an array, a struct or a function.
ghost use Rattle.std.specs.Prelude.{◌≡◌, ◌↔◌, IsTrue};
ghost use Rattle.std.specs.Option.{option_copied, option_map};
ghost use Rattle.po_types.specs.Types as types;
ghost use Rattle.po_types.specs.declared.ctype.CType.TheVariants as c;

use crate::ctype::CType;
use po_arith::IntType;

/// Whether a type is void.
#[tactic(auto, using(crate::proofs::TypesLaws::out_Void, crate::proofs::TypesLaws::out_Int, crate::proofs::TypesLaws::out_Ptr, crate::proofs::TypesLaws::out_Array, crate::proofs::TypesLaws::out_Struct, crate::proofs::TypesLaws::out_Fun))]
pub fn is_void(t: &CType) -> bool
    ensures { IsTrue result ↔ (t.now ≡ c.Void) }
{
    match t {
        CType::Void => true,
        CType::Int(_) => false,
        CType::Ptr(_) => false,
        CType::Array(_, _) => false,
        CType::Struct(_) => false,
        CType::Fun(_, _, _) => false,
    }
}

/// The integer type, where a type is one.
#[tactic(auto, using(crate::proofs::TypesLaws::out_Void, crate::proofs::TypesLaws::out_Int, crate::proofs::TypesLaws::out_Ptr, crate::proofs::TypesLaws::out_Array, crate::proofs::TypesLaws::out_Struct, crate::proofs::TypesLaws::out_Fun))]
pub fn integer(t: &CType) -> Option<IntType>
    ensures { result ≡ types.integer t.now }
{
    match t {
        CType::Void => None,
        CType::Int(number) => Some(*number),
        CType::Ptr(_) => None,
        CType::Array(_, _) => None,
        CType::Struct(_) => None,
        CType::Fun(_, _, _) => None,
    }
}

/// What a pointer points to, where a type is one.
#[tactic(auto, using(crate::proofs::TypesLaws::out_Void, crate::proofs::TypesLaws::out_Int, crate::proofs::TypesLaws::out_Ptr, crate::proofs::TypesLaws::out_Array, crate::proofs::TypesLaws::out_Struct, crate::proofs::TypesLaws::out_Fun))]
pub fn pointee(t: &CType) -> Option<&CType>
    ensures { option_copied result ≡ types.pointee t.now }
{
    match t {
        CType::Void => None,
        CType::Int(_) => None,
        CType::Ptr(to) => Some(to.get()),
        CType::Array(_, _) => None,
        CType::Struct(_) => None,
        CType::Fun(_, _, _) => None,
    }
}

/// The type of an array's elements and their count where it is known, where a type is one.
#[tactic(auto, using(crate::proofs::TypesLaws::out_Void, crate::proofs::TypesLaws::out_Int, crate::proofs::TypesLaws::out_Ptr, crate::proofs::TypesLaws::out_Array, crate::proofs::TypesLaws::out_Struct, crate::proofs::TypesLaws::out_Fun))]
pub fn elements(t: &CType) -> Option<(&CType, Option<u64>)>
    ensures { option_map (λ p. (p.0.now, p.1)) result ≡ types.elements t.now }
{
    match t {
        CType::Void => None,
        CType::Int(_) => None,
        CType::Ptr(_) => None,
        CType::Array(element, count) => Some((element.get(), *count)),
        CType::Struct(_) => None,
        CType::Fun(_, _, _) => None,
    }
}

/// The number of a struct, where a type is one.
#[tactic(auto, using(crate::proofs::TypesLaws::out_Void, crate::proofs::TypesLaws::out_Int, crate::proofs::TypesLaws::out_Ptr, crate::proofs::TypesLaws::out_Array, crate::proofs::TypesLaws::out_Struct, crate::proofs::TypesLaws::out_Fun))]
pub fn structure(t: &CType) -> Option<u32>
    ensures { result ≡ types.structure t.now }
{
    match t {
        CType::Void => None,
        CType::Int(_) => None,
        CType::Ptr(_) => None,
        CType::Array(_, _) => None,
        CType::Struct(n) => Some(*n),
        CType::Fun(_, _, _) => None,
    }
}

/// The result of a function, its parameters and whether it takes further arguments, where a type is one.
#[tactic(auto, using(crate::proofs::TypesLaws::out_Void, crate::proofs::TypesLaws::out_Int, crate::proofs::TypesLaws::out_Ptr, crate::proofs::TypesLaws::out_Array, crate::proofs::TypesLaws::out_Struct, crate::proofs::TypesLaws::out_Fun))]
pub fn signature(t: &CType) -> Option<(&CType, &[CType], bool)>
    ensures { option_map (λ p. (p.0.now, (p.1.now, p.2))) result ≡ types.signature t.now }
{
    match t {
        CType::Void => None,
        CType::Int(_) => None,
        CType::Ptr(_) => None,
        CType::Array(_, _) => None,
        CType::Struct(_) => None,
        CType::Fun(to, params, more) => Some((to.get(), params.get().as_slice(), *more)),
    }
}
