// What a statement begins with, read behind its keyword.
ghost use Rattle.std.specs.Prelude.{ℕ, ◌≡◌, ◌≤◌, ◌∷◌, length, IfOk, IfSome, IfNone, List as Sequence};
ghost use Rattle.po_tree.specs.NameSets.{AreSame};
ghost use Rattle.po_tree.specs.Signs.{punct};
ghost use Rattle.po_exp_parts.specs.Places.{signs_between, Begins};
ghost use Rattle.po_fun_parts.specs.declared.keywords.Keyword.TheVariants as keyword;
ghost use Rattle.po_fun_parts.specs.Starting.{StartsBehind};

use crate::expressions::{Stop, optional_before};
use crate::heads::{parenthesised_at, steps_at};
use crate::keywords::Keyword;
use crate::starts::Start;
use po_base::{Memory, Tokens};
use po_decl_parts::constant_at;
use po_exp_parts::ranges::{name_at, stands};
use po_tree::{Names, Stmt};
use std::alloc::Global;

/// What stands behind `if` (C99 6.8.4.1).
fn if_start(
    alloc: Global,
    tokens: &Tokens,
    at: u32,
    to: u32,
    names: &Names,
) -> Result<Option<(Start, u32)>, Memory>
    ensures found { (types : Sequence (Sequence ℕ)) → AreSame types names.now.typedefs → IfOk result (λ found. IfSome found (λ p. StartsBehind keyword.If types (signs_between tokens.now.list at to) p.0 (signs_between tokens.now.list p.1 to))) }
    ensures within { at ≤ to → at ≤ length tokens.now.list → IfOk result (λ found. IfSome found (λ p. (at ≤ p.1) × (p.1 ≤ to) × (p.1 ≤ length tokens.now.list))) }
    ensures none { (types : Sequence (Sequence ℕ)) → AreSame types names.now.typedefs → IfOk result (λ found. IfNone found ((begun : _) (left : _) → StartsBehind keyword.If types (signs_between tokens.now.list at to) begun left → ⊥)) }
{
    let Some((x, end)) = parenthesised_at(alloc, tokens, at, to, names)? else {
        return Ok(None);
    };
    Ok(Some((Start::If(x), end)))
}

/// What stands behind `while` (C99 6.8.5.1).
fn while_start(
    alloc: Global,
    tokens: &Tokens,
    at: u32,
    to: u32,
    names: &Names,
) -> Result<Option<(Start, u32)>, Memory>
    ensures found { (types : Sequence (Sequence ℕ)) → AreSame types names.now.typedefs → IfOk result (λ found. IfSome found (λ p. StartsBehind keyword.While types (signs_between tokens.now.list at to) p.0 (signs_between tokens.now.list p.1 to))) }
    ensures within { at ≤ to → at ≤ length tokens.now.list → IfOk result (λ found. IfSome found (λ p. (at ≤ p.1) × (p.1 ≤ to) × (p.1 ≤ length tokens.now.list))) }
    ensures none { (types : Sequence (Sequence ℕ)) → AreSame types names.now.typedefs → IfOk result (λ found. IfNone found ((begun : _) (left : _) → StartsBehind keyword.While types (signs_between tokens.now.list at to) begun left → ⊥)) }
{
    let Some((x, end)) = parenthesised_at(alloc, tokens, at, to, names)? else {
        return Ok(None);
    };
    Ok(Some((Start::While(x), end)))
}

/// What stands behind `switch` (C99 6.8.4.2).
fn switch_start(
    alloc: Global,
    tokens: &Tokens,
    at: u32,
    to: u32,
    names: &Names,
) -> Result<Option<(Start, u32)>, Memory>
    ensures found { (types : Sequence (Sequence ℕ)) → AreSame types names.now.typedefs → IfOk result (λ found. IfSome found (λ p. StartsBehind keyword.Switch types (signs_between tokens.now.list at to) p.0 (signs_between tokens.now.list p.1 to))) }
    ensures within { at ≤ to → at ≤ length tokens.now.list → IfOk result (λ found. IfSome found (λ p. (at ≤ p.1) × (p.1 ≤ to) × (p.1 ≤ length tokens.now.list))) }
    ensures none { (types : Sequence (Sequence ℕ)) → AreSame types names.now.typedefs → IfOk result (λ found. IfNone found ((begun : _) (left : _) → StartsBehind keyword.Switch types (signs_between tokens.now.list at to) begun left → ⊥)) }
{
    let Some((x, end)) = parenthesised_at(alloc, tokens, at, to, names)? else {
        return Ok(None);
    };
    Ok(Some((Start::Switch(x), end)))
}

/// What stands behind `for` (C99 6.8.5.3).
fn for_start(
    alloc: Global,
    tokens: &Tokens,
    at: u32,
    to: u32,
    names: &Names,
) -> Result<Option<(Start, u32)>, Memory>
    ensures found { (types : Sequence (Sequence ℕ)) → AreSame types names.now.typedefs → IfOk result (λ found. IfSome found (λ p. StartsBehind keyword.For types (signs_between tokens.now.list at to) p.0 (signs_between tokens.now.list p.1 to))) }
    ensures within { at ≤ to → at ≤ length tokens.now.list → IfOk result (λ found. IfSome found (λ p. (at ≤ p.1) × (p.1 ≤ to) × (p.1 ≤ length tokens.now.list))) }
    ensures none { (types : Sequence (Sequence ℕ)) → AreSame types names.now.typedefs → IfOk result (λ found. IfNone found ((begun : _) (left : _) → StartsBehind keyword.For types (signs_between tokens.now.list at to) begun left → ⊥)) }
{
    if !stands(tokens, at, to, b"(") {
        return Ok(None);
    }
    let inside = at + 1;
    let Some((first, behind)) = optional_before(alloc, tokens, inside, to, names, Stop::Semicolon)?
    else {
        return Ok(Some((Start::ForVariables, inside)));
    };
    let Some((test, step, end)) = steps_at(alloc, tokens, behind, to, names)? else {
        return Ok(None);
    };
    Ok(Some((Start::For(first, test, step), end)))
}

/// The constant and the colon behind `case` (C99 6.8.1).
fn case_start(
    alloc: Global,
    tokens: &Tokens,
    at: u32,
    to: u32,
    names: &Names,
) -> Result<Option<(Start, u32)>, Memory>
    ensures found { (types : Sequence (Sequence ℕ)) → AreSame types names.now.typedefs → IfOk result (λ found. IfSome found (λ p. StartsBehind keyword.Case types (signs_between tokens.now.list at to) p.0 (signs_between tokens.now.list p.1 to))) }
    ensures within { at ≤ to → at ≤ length tokens.now.list → IfOk result (λ found. IfSome found (λ p. (at ≤ p.1) × (p.1 ≤ to) × (p.1 ≤ length tokens.now.list))) }
    ensures none { (types : Sequence (Sequence ℕ)) → AreSame types names.now.typedefs → IfOk result (λ found. IfNone found ((begun : _) (left : _) → StartsBehind keyword.Case types (signs_between tokens.now.list at to) begun left → ⊥)) }
{
    let Some((x, end)) = constant_at(alloc, tokens, at, to, names)? else {
        return Ok(None);
    };
    if !stands(tokens, end, to, b":") {
        return Ok(None);
    }
    Ok(Some((Start::Case(x), end + 1)))
}

/// The value, which may be missing, and the semicolon behind `return` (C99 6.8.6.4).
fn return_start(
    alloc: Global,
    tokens: &Tokens,
    at: u32,
    to: u32,
    names: &Names,
) -> Result<Option<(Start, u32)>, Memory>
    ensures found { (types : Sequence (Sequence ℕ)) → AreSame types names.now.typedefs → IfOk result (λ found. IfSome found (λ p. StartsBehind keyword.Return types (signs_between tokens.now.list at to) p.0 (signs_between tokens.now.list p.1 to))) }
    ensures within { at ≤ to → at ≤ length tokens.now.list → IfOk result (λ found. IfSome found (λ p. (at ≤ p.1) × (p.1 ≤ to) × (p.1 ≤ length tokens.now.list))) }
    ensures none { (types : Sequence (Sequence ℕ)) → AreSame types names.now.typedefs → IfOk result (λ found. IfNone found ((begun : _) (left : _) → StartsBehind keyword.Return types (signs_between tokens.now.list at to) begun left → ⊥)) }
{
    let Some((x, end)) = optional_before(alloc, tokens, at, to, names, Stop::Semicolon)? else {
        return Ok(None);
    };
    Ok(Some((Start::Whole(Stmt::Return(x)), end)))
}

/// The name and the semicolon behind `goto` (C99 6.8.6.1).
fn goto_start(tokens: &Tokens, at: u32, to: u32) -> Result<Option<(Start, u32)>, Memory>
    ensures found { (types : Sequence (Sequence ℕ)) → IfOk result (λ found. IfSome found (λ p. StartsBehind keyword.Goto types (signs_between tokens.now.list at to) p.0 (signs_between tokens.now.list p.1 to))) }
    ensures within { IfOk result (λ found. IfSome found (λ p. (at ≤ p.1) × (p.1 ≤ to) × (p.1 ≤ length tokens.now.list))) }
    ensures none { (types : Sequence (Sequence ℕ)) → IfOk result (λ found. IfNone found ((begun : _) (left : _) → StartsBehind keyword.Goto types (signs_between tokens.now.list at to) begun left → ⊥)) }
{
    let Some(name) = name_at(tokens, at, to) else {
        return Ok(None);
    };
    let behind = at + 1;
    if !stands(tokens, behind, to, b";") {
        return Ok(None);
    }
    Ok(Some((Start::Whole(Stmt::Goto(name.share()?)), behind + 1)))
}

/// What begins with a keyword and this punctuator behind it.
fn before_sign(tokens: &Tokens, at: u32, to: u32, text: &[u8], begun: Start) -> Option<(Start, u32)>
    ensures found { IfSome result (λ p. (p.0 ≡ begun) × (signs_between tokens.now.list at to ≡ punct text.now ∷ signs_between tokens.now.list p.1 to)) }
    ensures within { IfSome result (λ p. (at ≤ p.1) × (p.1 ≤ to) × (p.1 ≤ length tokens.now.list)) }
    ensures none { IfNone result (Begins (punct text.now) (signs_between tokens.now.list at to) → ⊥) }
{
    if !stands(tokens, at, to, text) {
        return None;
    }
    Some((begun, at + 1))
}

/// What stands behind a keyword with which a statement begins, and the place behind it; None exactly where nothing stands there that goes on with
/// such a statement.
pub(crate) fn behind_keyword(
    alloc: Global,
    tokens: &Tokens,
    keyword: Keyword,
    at: u32,
    to: u32,
    names: &Names,
) -> Result<Option<(Start, u32)>, Memory>
    ensures found { (types : Sequence (Sequence ℕ)) → AreSame types names.now.typedefs → IfOk result (λ found. IfSome found (λ p. StartsBehind keyword types (signs_between tokens.now.list at to) p.0 (signs_between tokens.now.list p.1 to))) }
    ensures within { at ≤ to → at ≤ length tokens.now.list → IfOk result (λ found. IfSome found (λ p. (at ≤ p.1) × (p.1 ≤ to) × (p.1 ≤ length tokens.now.list))) }
    ensures none { (types : Sequence (Sequence ℕ)) → AreSame types names.now.typedefs → IfOk result (λ found. IfNone found ((begun : _) (left : _) → StartsBehind keyword types (signs_between tokens.now.list at to) begun left → ⊥)) }
{
    match keyword {
        Keyword::If => if_start(alloc, tokens, at, to, names),
        Keyword::While => while_start(alloc, tokens, at, to, names),
        Keyword::Do => Ok(Some((Start::Do, at))),
        Keyword::For => for_start(alloc, tokens, at, to, names),
        Keyword::Switch => switch_start(alloc, tokens, at, to, names),
        Keyword::Case => case_start(alloc, tokens, at, to, names),
        Keyword::Default => Ok(before_sign(tokens, at, to, b":", Start::Default)),
        Keyword::Goto => goto_start(tokens, at, to),
        Keyword::Break => Ok(before_sign(tokens, at, to, b";", Start::Whole(Stmt::Break))),
        Keyword::Continue => Ok(before_sign(tokens, at, to, b";", Start::Whole(Stmt::Continue))),
        Keyword::Return => return_start(alloc, tokens, at, to, names),
    }
}
