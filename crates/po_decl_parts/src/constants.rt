// Constants before an end (C99 6.6).
ghost use Rattle.std.specs.Prelude.{ℕ, ◌≤◌, length, IfOk, IfSome, IfNone, List as Sequence};
ghost use Rattle.po_tree.specs.NameSets.{AreSame};
ghost use Rattle.po_exp_parts.specs.Places.{signs_between};
ghost use Rattle.po_decl_parts.specs.Constants.{ConstantStands};

use po_base::{Memory, Tokens};
use po_exp_parts::ranges::ends;
use po_exp_read::{Level, read_exp_at};
use po_tree::{Exp, Names};
use std::alloc::Global;

/// The conditional expression (C99 6.5.15, 6.6) that stands at a place with an end behind it, which is a comma, a semicolon, a colon
/// or a closing bracket before `to`, and the place of that end; None exactly where none stands there. Time as for `read_exp_at`.
pub fn constant_at(
    alloc: Global,
    tokens: &Tokens,
    at: u32,
    to: u32,
    names: &Names,
) -> Result<Option<(Exp, u32)>, Memory>
    ensures found { (types : Sequence (Sequence ℕ)) → AreSame types names.now.typedefs → IfOk result (λ found. IfSome found (λ p. ConstantStands types (signs_between tokens.now.list at to) p.0 (signs_between tokens.now.list p.1 to))) }
    ensures within { IfOk result (λ found. IfSome found (λ p. (at ≤ p.1) × (p.1 ≤ to) × (p.1 ≤ length tokens.now.list))) }
    ensures none { (types : Sequence (Sequence ℕ)) → AreSame types names.now.typedefs → IfOk result (λ found. IfNone found ((x : _) (left : _) → ConstantStands types (signs_between tokens.now.list at to) x left → ⊥)) }
{
    let Some((x, end)) = read_exp_at(alloc, tokens, at, to, names, Level::Conditional)? else {
        return Ok(None);
    };
    if !ends(tokens, end, to) {
        return Ok(None);
    }
    Ok(Some((x, end)))
}
