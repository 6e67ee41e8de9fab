// Sizes of arrays (C99 6.7.5.2).
ghost use Rattle.std.specs.Prelude.{ℕ, ◌≤◌, length, IfOk, IfSome, IfNone, List as Sequence};
ghost use Rattle.po_tree.specs.NameSets.{AreSame};
ghost use Rattle.po_exp_parts.specs.Places.{signs_between};
ghost use Rattle.po_decl_parts.specs.Sizes.{SizesRead};

use crate::constants::constant_at;
use po_base::{List, Memory, Tokens};
use po_exp_parts::ranges::stands;
use po_tree::{Exp, Names};
use std::alloc::Global;

/// All sizes of arrays at a place, each in its brackets and missing where nothing stands between them (C99 6.7.5.2), and the place
/// behind them; None exactly where a bracket stands there that none of these begins with. Time is linear in their tokens, but for the
/// search of names.
pub fn sizes_at(
    alloc: Global,
    tokens: &Tokens,
    at: u32,
    to: u32,
    names: &Names,
) -> Result<Option<(List<Option<Exp>>, u32)>, Memory>
    ensures found { (types : Sequence (Sequence ℕ)) → AreSame types names.now.typedefs → IfOk result (λ found. IfSome found (λ p. SizesRead types (signs_between tokens.now.list at to) p.0 (signs_between tokens.now.list p.1 to))) }
    ensures after { IfOk result (λ found. IfSome found (λ p. at ≤ p.1)) }
    ensures within { at ≤ to → at ≤ length tokens.now.list → IfOk result (λ found. IfSome found (λ p. (p.1 ≤ to) × (p.1 ≤ length tokens.now.list))) }
    ensures none { (types : Sequence (Sequence ℕ)) → AreSame types names.now.typedefs → IfOk result (λ found. IfNone found ((sizes : _) (left : _) → SizesRead types (signs_between tokens.now.list at to) sizes left → ⊥)) }
{
    let mut sizes = List::new(alloc);
    let mut next = at;
    while stands(tokens, next, to, b"[") {
        let inside = next + 1;
        if stands(tokens, inside, to, b"]") {
            sizes.push(None)?;
            next = inside + 1;
            continue;
        }
        let Some((size, end)) = constant_at(alloc, tokens, inside, to, names)? else {
            return Ok(None);
        };
        if !stands(tokens, end, to, b"]") {
            return Ok(None);
        }
        sizes.push(Some(size))?;
        next = end + 1;
    }
    Ok(Some((sizes, next)))
}
