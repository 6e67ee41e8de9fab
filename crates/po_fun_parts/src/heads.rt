// What stands in the parentheses of a statement.
ghost use Rattle.std.specs.Prelude.{ℕ, ◌≤◌, ◌<◌, length, IfOk, IfSome, IfNone, List as Sequence};
ghost use Rattle.po_tree.specs.NameSets.{AreSame};
ghost use Rattle.po_exp_parts.specs.Places.{signs_between};
ghost use Rattle.po_fun_parts.specs.Heads.{ParenthesisedStands, StepsStand, TestStands};

use crate::expressions::{Stop, expression_before, optional_before};
use crate::keywords::word_stands;
use po_base::{Memory, Tokens};
use po_exp_parts::ranges::stands;
use po_tree::{Exp, Names};
use std::alloc::Global;

/// The expression in parentheses that stands at a place, and the place behind them; None exactly where none stands there.
pub(crate) fn parenthesised_at(
    alloc: Global,
    tokens: &Tokens,
    at: u32,
    to: u32,
    names: &Names,
) -> Result<Option<(Exp, u32)>, Memory>
    ensures found { (types : Sequence (Sequence ℕ)) → AreSame types names.now.typedefs → IfOk result (λ found. IfSome found (λ p. ParenthesisedStands types (signs_between tokens.now.list at to) p.0 (signs_between tokens.now.list p.1 to))) }
    ensures within { IfOk result (λ found. IfSome found (λ p. (at < p.1) × (p.1 ≤ to) × (p.1 ≤ length tokens.now.list))) }
    ensures none { (types : Sequence (Sequence ℕ)) → AreSame types names.now.typedefs → IfOk result (λ found. IfNone found ((x : _) (left : _) → ParenthesisedStands types (signs_between tokens.now.list at to) x left → ⊥)) }
{
    if !stands(tokens, at, to, b"(") {
        return Ok(None);
    }
    let inside = at + 1;
    let Some((x, end)) = expression_before(alloc, tokens, inside, to, names, Stop::Parenthesis)?
    else {
        return Ok(None);
    };
    Ok(Some((x, end)))
}

/// The condition and the step of a `for`, each of which may be missing, that stand at a place with the semicolon between them and the parenthesis
/// behind them, and the place behind that (C99 6.8.5.3); None exactly where none stand there. Behind a declaration that stands first, `names` are
/// those in force behind it.
pub fn steps_at(
    alloc: Global,
    tokens: &Tokens,
    at: u32,
    to: u32,
    names: &Names,
) -> Result<Option<(Option<Exp>, Option<Exp>, u32)>, Memory>
    ensures found { (types : Sequence (Sequence ℕ)) → AreSame types names.now.typedefs → IfOk result (λ found. IfSome found (λ p. StepsStand types (signs_between tokens.now.list at to) p.0 p.1 (signs_between tokens.now.list p.2 to))) }
    ensures within { IfOk result (λ found. IfSome found (λ p. (at < p.2) × (p.2 ≤ to) × (p.2 ≤ length tokens.now.list))) }
    ensures none { (types : Sequence (Sequence ℕ)) → AreSame types names.now.typedefs → IfOk result (λ found. IfNone found ((test : _) (step : _) (left : _) → StepsStand types (signs_between tokens.now.list at to) test step left → ⊥)) }
{
    let Some((test, between)) = optional_before(alloc, tokens, at, to, names, Stop::Semicolon)?
    else {
        return Ok(None);
    };
    let Some((step, end)) = optional_before(alloc, tokens, between, to, names, Stop::Parenthesis)?
    else {
        return Ok(None);
    };
    Ok(Some((test, step, end)))
}

/// The `while` with its test and its semicolon that stand at a place behind the statement of a `do`, and the place behind the semicolon
/// (C99 6.8.5.2); None exactly where none stands there.
pub fn test_at(
    alloc: Global,
    tokens: &Tokens,
    at: u32,
    to: u32,
    names: &Names,
) -> Result<Option<(Exp, u32)>, Memory>
    ensures found { (types : Sequence (Sequence ℕ)) → AreSame types names.now.typedefs → IfOk result (λ found. IfSome found (λ p. TestStands types (signs_between tokens.now.list at to) p.0 (signs_between tokens.now.list p.1 to))) }
    ensures within { IfOk result (λ found. IfSome found (λ p. (at < p.1) × (p.1 ≤ to) × (p.1 ≤ length tokens.now.list))) }
    ensures none { (types : Sequence (Sequence ℕ)) → AreSame types names.now.typedefs → IfOk result (λ found. IfNone found ((x : _) (left : _) → TestStands types (signs_between tokens.now.list at to) x left → ⊥)) }
{
    if !word_stands(tokens, at, to, b"while") {
        return Ok(None);
    }
    let Some((x, end)) = parenthesised_at(alloc, tokens, at + 1, to, names)? else {
        return Ok(None);
    };
    if !stands(tokens, end, to, b";") {
        return Ok(None);
    }
    Ok(Some((x, end + 1)))
}
