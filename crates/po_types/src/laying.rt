// Layouts of structs (C99 6.7.2.1).
ghost use Rattle.std.specs.Prelude.{◌≡◌, ◌≤◌, ◌+◌, ◌^◌, ◌++◌, ◌∷◌, [], ℕ, max, IfOk, MatchOption};
ghost use Rattle.po_types.specs.Layouts.{IsNext, HasLayout, HasNoLayout};

use crate::layout::{Extent, Layout};
use crate::sizes::as_object;
use po_arith::Target;
use po_base::{List, Memory};
use std::alloc::Global;

/// How members lie in a struct (C99 6.7.2.1); None exactly where such a struct would have no bytes, or more than an object may have.
/// Takes time in the number of members.
#[tactic(auto, using(crate::proofs::Lays::laid_none, crate::proofs::Lays::laid_more, crate::proofs::Lays::laid_too_far, crate::proofs::Lays::laid_too_large, crate::proofs::Lays::laid_layout, crate::proofs::Lays::large_words, crate::proofs::Lays::other_object))]
pub fn lay_out(alloc: Global, target: Target, members: &[Extent]) -> Result<Option<Layout>, Memory>
    ensures { IfOk result (λ found. MatchOption found (HasNoLayout target members.now) (HasLayout target members.now)) }
{
    let mut offsets = List::new(alloc);
    let mut end: u64 = 0;
    let mut align: u64 = 1;
    for i in 0..members.len() {
        let x = members[i];
        match place(&mut offsets, end, x)? {
            None => return Ok(None),
            Some(behind) => {
                end = behind;
                align = greater(align, x.align);
            }
        }
    }
    match next(align, end) {
        None => Ok(None),
        Some(size) => match as_object(target, size) {
            None => Ok(None),
            Some(size) => Ok(Some(Layout {
                size,
                align,
                offsets,
            })),
        },
    }
}

/// Lays a member behind others that end there, and gives where it ends; None where that is past a machine word.
fn place(offsets: &mut List<u64>, end: u64, x: Extent) -> Result<Option<u64>, Memory>
    ensures { IfOk result (λ found. MatchOption found
        ((o : ℕ) → IsNext x.align end o → 2 ^ 64 ≤ o + x.size)
        (λ behind. (o : ℕ) × IsNext x.align end o × (offsets.new ≡ offsets.old ++ o ∷ []) × (behind ≡ o + x.size))) }
{
    match next(x.align, end) {
        None => Ok(None),
        Some(offset) => {
            offsets.push(offset)?;
            Ok(offset.checked_add(x.size))
        }
    }
}

/// The least multiple of an alignment that is at least a number; None where it is past a machine word.
fn next(align: u64, at: u64) -> Option<u64>
    ensures { MatchOption result ((m : ℕ) → IsNext align at m → 2 ^ 64 ≤ m) (λ m. IsNext align at m) }
{
    if align == 0 {
        return if at == 0 { Some(0) } else { None };
    }
    let rest = at % align;
    if rest == 0 {
        return Some(at);
    }
    match at.checked_add(align - rest) {
        None => None,
        Some(m) => Some(m),
    }
}

/// The greater of two numbers.
fn greater(a: u64, b: u64) -> u64
    ensures { result ≡ max a b }
{
    if a < b { b } else { a }
}
