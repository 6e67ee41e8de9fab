// Arrays as pointers, and types of declarations that agree (C99 6.3.2.1, 6.2.7).
ghost use Rattle.std.specs.Prelude.{◌≡◌, IfOk};
ghost use Rattle.po_types.specs.Types as types;

use crate::ctype::CType;
use po_base::Memory;

/// A type, or the pointer to the first element where it is an array (C99 6.3.2.1p3), in constant time.
#[tactic(auto, using(crate::proofs::TypesLaws::out_Void, crate::proofs::TypesLaws::out_Int, crate::proofs::TypesLaws::out_Ptr, crate::proofs::TypesLaws::out_Array, crate::proofs::TypesLaws::out_Struct, crate::proofs::TypesLaws::out_Fun))]
pub fn decayed(t: &CType) -> Result<CType, Memory>
    ensures { IfOk result (λ u. u ≡ types.decayed t.now) }
{
    match t {
        CType::Void => Ok(CType::Void),
        CType::Int(number) => Ok(CType::Int(*number)),
        CType::Ptr(to) => Ok(CType::Ptr(to.share()?)),
        CType::Array(element, _) => Ok(CType::Ptr(element.share()?)),
        CType::Struct(n) => Ok(CType::Struct(*n)),
        CType::Fun(to, params, more) => Ok(CType::Fun(to.share()?, params.share()?, *more)),
    }
}

/// What two declarations that agree together say of a type: its size, where one of them has it (C99 6.2.7p3), in constant time.
#[tactic(auto, using(crate::proofs::TypesLaws::out_Void, crate::proofs::TypesLaws::out_Int, crate::proofs::TypesLaws::out_Ptr, crate::proofs::TypesLaws::out_Array, crate::proofs::TypesLaws::out_Struct, crate::proofs::TypesLaws::out_Fun))]
pub fn composite(t: &CType, u: &CType) -> Result<CType, Memory>
    ensures { IfOk result (λ v. v ≡ types.composite t.now u.now) }
{
    match t {
        CType::Void => Ok(CType::Void),
        CType::Int(number) => Ok(CType::Int(*number)),
        CType::Ptr(to) => Ok(CType::Ptr(to.share()?)),
        CType::Array(element, count) => match count {
            None => Ok(u.share()?),
            Some(count) => Ok(CType::Array(element.share()?, Some(*count))),
        },
        CType::Struct(n) => Ok(CType::Struct(*n)),
        CType::Fun(to, params, more) => Ok(CType::Fun(to.share()?, params.share()?, *more)),
    }
}
