// Sizes, alignments and accesses of types.
ghost use Rattle.std.specs.Prelude.{◌≡◌, ◌<◌, ◌^◌, ◌≤ℤ◌, pos};
ghost use Rattle.po_lowering.specs.Types as types;
ghost use Rattle.po_lowering.specs.Conversions as conversions;
ghost use Rattle.po_lowering.specs.Typed.{Typed};
ghost use Rattle.po_lower_types.specs.Measured.{align_in, bytes_in, IsMeasured};

use crate::kinds::{referenced, register_type};
use po_ir::Access;
use po_types::{CType, Env, align_of, size_of};

/// The size of a type, in bytes; 0 where it has none. Takes time in the number of its arrays.
pub fn size(env: &Env, t: &CType) -> u64
    ensures size { result ≡ bytes_in env.now t.now }
    ensures small { result < 2 ^ 63 }
{
    match size_of(env.target, env.structs.as_slice(), t) {
        Some(bytes) => bytes,
        None => 0,
    }
}

/// The alignment of a type, in bytes; void and an incomplete struct count as 1. Takes time in the number of its arrays.
pub fn align(env: &Env, t: &CType) -> u64
    ensures { result ≡ align_in env.now t.now }
{
    align_of(env.target, env.structs.as_slice(), t)
}

/// How memory is read and written as values of a type. Takes time in the number of its arrays.
pub fn access_of(env: &Env, t: &CType) -> Access
    ensures { (f : Typed) → IsMeasured env.now f → result ≡ types.access_of f t.now }
{
    Access {
        ty: register_type(t),
        size: size(env, t),
        align: align(env, t),
    }
}

/// The size of what a pointer points to or an array consists of, in bytes. Takes time in the number of its arrays.
pub(crate) fn element_size(env: &Env, t: &CType) -> u64
    ensures size { result ≡ bytes_in env.now (types.referenced t.now) }
    ensures small { result < 2 ^ 63 }
{
    match referenced(t) {
        Some(u) => size(env, u),
        None => 0,
    }
}

/// The same as a signed number.
pub(crate) fn step_size(env: &Env, t: &CType) -> i64
    ensures size { (f : Typed) → IsMeasured env.now f → result ≡ conversions.step_size f t.now }
    ensures positive { pos 0 ≤ℤ result }
{
    element_size(env, t) as i64
}
