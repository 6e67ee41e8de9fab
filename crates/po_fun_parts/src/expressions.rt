// Expressions with the sign that ends them in a statement.
ghost use Rattle.std.specs.Prelude.{ℕ, ◌≡◌, ◌≤◌, ◌<◌, ◌+◌, ◌∷◌, ◌↔◌, IsTrue, length, IfOk, IfSome, IfNone, MatchBool, List as Sequence};
ghost use Rattle.po_tree.specs.NameSets.{AreSame};
ghost use Rattle.po_exp_parts.specs.Places.{signs_between, Begins};
ghost use Rattle.po_exp_read.specs.Longest.{StandsBefore};
ghost use Rattle.po_fun_parts.specs.Stops.{stop_sign, OptionalStands};

use po_base::{Memory, Tokens};
use po_exp_parts::ranges::stands;
use po_exp_read::read_exp;
use po_tree::{Exp, Names};
use std::alloc::Global;

/// What ends an expression in a statement (C99 6.8.3 to 6.8.6).
#[derive(Clone, Copy)]
pub enum Stop {
    /// `;`
    Semicolon,
    /// `)`
    Parenthesis,
}

/// Whether such a sign stands at a place before `to`.
fn stops(tokens: &Tokens, at: u32, to: u32, stop: Stop) -> bool
    ensures first { IsTrue result ↔ Begins (stop_sign stop) (signs_between tokens.now.list at to) }
    ensures within { MatchBool result ((at < to) × (at < length tokens.now.list)) (Unit {0}) }
    ensures behind { MatchBool result (signs_between tokens.now.list at to ≡ stop_sign stop ∷ signs_between tokens.now.list (at + 1) to) (Unit {0}) }
{
    match stop {
        Stop::Semicolon => stands(tokens, at, to, b";"),
        Stop::Parenthesis => stands(tokens, at, to, b")"),
    }
}

/// The expression that stands at a place with this sign behind it before `to` (C99 6.5.17), and the place behind the sign; None exactly where none
/// stands there. Time as for `read_exp`.
pub fn expression_before(
    alloc: Global,
    tokens: &Tokens,
    at: u32,
    to: u32,
    names: &Names,
    stop: Stop,
) -> Result<Option<(Exp, u32)>, Memory>
    ensures found { (types : Sequence (Sequence ℕ)) → AreSame types names.now.typedefs → IfOk result (λ found. IfSome found (λ p. StandsBefore types (signs_between tokens.now.list at to) p.0 (stop_sign stop ∷ signs_between tokens.now.list p.1 to))) }
    ensures within { IfOk result (λ found. IfSome found (λ p. (at < p.1) × (p.1 ≤ to) × (p.1 ≤ length tokens.now.list))) }
    ensures none { (types : Sequence (Sequence ℕ)) → AreSame types names.now.typedefs → IfOk result (λ found. IfNone found ((x : _) (left : _) → StandsBefore types (signs_between tokens.now.list at to) x (stop_sign stop ∷ left) → ⊥)) }
{
    let Some((x, end)) = read_exp(alloc, tokens, at, to, names)? else {
        return Ok(None);
    };
    if !stops(tokens, end, to, stop) {
        return Ok(None);
    }
    Ok(Some((x, end + 1)))
}

/// The same of an expression that may be missing, as in a `for` or behind `return`: then the sign alone stands there.
pub fn optional_before(
    alloc: Global,
    tokens: &Tokens,
    at: u32,
    to: u32,
    names: &Names,
    stop: Stop,
) -> Result<Option<(Option<Exp>, u32)>, Memory>
    ensures found { (types : Sequence (Sequence ℕ)) → AreSame types names.now.typedefs → IfOk result (λ found. IfSome found (λ p. OptionalStands types (stop_sign stop) (signs_between tokens.now.list at to) p.0 (signs_between tokens.now.list p.1 to))) }
    ensures within { IfOk result (λ found. IfSome found (λ p. (at < p.1) × (p.1 ≤ to) × (p.1 ≤ length tokens.now.list))) }
    ensures none { (types : Sequence (Sequence ℕ)) → AreSame types names.now.typedefs → IfOk result (λ found. IfNone found ((x : _) (left : _) → OptionalStands types (stop_sign stop) (signs_between tokens.now.list at to) x left → ⊥)) }
{
    if stops(tokens, at, to, stop) {
        return Ok(Some((None, at + 1)));
    }
    let Some((x, end)) = expression_before(alloc, tokens, at, to, names, stop)? else {
        return Ok(None);
    };
    Ok(Some((Some(x), end)))
}
