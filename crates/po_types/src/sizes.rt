// Sizes and alignments of types (C99 6.5.3.4).
ghost use Rattle.std.specs.Prelude.{◌≡◌, ◌*◌};
ghost use Rattle.std.specs.Option.{option_copied};
ghost use Rattle.po_types.specs.Types as types;

use crate::ctype::CType;
use crate::integers::{int_bytes, most_bytes, word_bytes};
use crate::layout::Layout;
use po_arith::Target;

/// The layout of a struct by its number; None of an incomplete one.
pub fn layout_of(structs: &[Option<Layout>], n: u32) -> Option<&Layout>
    ensures { option_copied result ≡ types.layout_of structs.now n }
{
    match structs.get(n as usize) {
        None => None,
        Some(layout) => layout.as_ref(),
    }
}

/// The size of an object of the type: None where the type isn't complete, has no bytes, or more than an object may have.
/// Takes time in the number of its arrays.
#[tactic(auto, using(crate::proofs::TypesLaws::bytes_Array, crate::proofs::TypesLaws::bytes_Void, crate::proofs::TypesLaws::bytes_Int, crate::proofs::TypesLaws::bytes_Ptr, crate::proofs::TypesLaws::bytes_Struct, crate::proofs::TypesLaws::bytes_Fun))]
pub fn size_of(target: Target, structs: &[Option<Layout>], t: &CType) -> Option<u64>
    ensures { result ≡ types.size_of target structs.now t.now }
{
    let mut inner = t;
    let mut times: u64 = 1;
    loop {
        match inner {
            CType::Void => return None,
            CType::Int(t) => return object_of(target, times, int_bytes(*t)),
            CType::Ptr(_) => return object_of(target, times, word_bytes(target)),
            CType::Array(element, count) => match count {
                None => return None,
                Some(count) => match times.checked_mul(*count) {
                    None => return None,
                    Some(product) => {
                        times = product;
                        inner = element.get();
                    }
                },
            },
            CType::Struct(n) => {
                return match layout_of(structs, *n) {
                    None => None,
                    Some(layout) => object_of(target, times, layout.size),
                };
            }
            CType::Fun(_, _, _) => return None,
        }
    }
}

/// So many times a number of bytes, where an object may have so many.
#[tactic(auto, using(crate::proofs::Large::too_large))]
fn object_of(target: Target, times: u64, bytes: u64) -> Option<u64>
    ensures { result ≡ types.as_object target (times * bytes) }
{
    match times.checked_mul(bytes) {
        None => None,
        Some(product) => as_object(target, product),
    }
}

/// A number of bytes, where an object may have so many.
pub fn as_object(target: Target, bytes: u64) -> Option<u64>
    ensures { result ≡ types.as_object target bytes }
{
    if 1 <= bytes && bytes <= most_bytes(target) {
        return Some(bytes);
    }
    None
}

/// The alignment of a type, where void and an incomplete struct count as 1. Takes time in the number of its arrays.
#[tactic(auto, using(crate::proofs::TypesLaws::align_Array, crate::proofs::TypesLaws::align_Void, crate::proofs::TypesLaws::align_Int, crate::proofs::TypesLaws::align_Ptr, crate::proofs::TypesLaws::align_Struct, crate::proofs::TypesLaws::align_Fun))]
pub fn align_of(target: Target, structs: &[Option<Layout>], t: &CType) -> u64
    ensures { result ≡ types.align_of target structs.now t.now }
{
    let mut inner = t;
    loop {
        match inner {
            CType::Void => return 1,
            CType::Int(t) => return int_bytes(*t),
            CType::Ptr(_) => return word_bytes(target),
            CType::Array(element, _) => inner = element.get(),
            CType::Struct(n) => {
                return match layout_of(structs, *n) {
                    None => 1,
                    Some(layout) => layout.align,
                };
            }
            CType::Fun(_, _, _) => return 1,
        }
    }
}
