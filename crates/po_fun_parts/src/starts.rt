// What a statement begins with.
ghost use Rattle.std.specs.Prelude.{ℕ, ◌≡◌, ◌≤◌, ◌<◌, ◌+◌, ◌∷◌, ◌↔◌, IsTrue, length, IfOk, IfSome, IfNone, MatchBool, List as Sequence};
ghost use Rattle.po_tree.specs.NameSets.{AreSame};
ghost use Rattle.po_tree.specs.Signs.{word, colon};
ghost use Rattle.po_tree.specs.Words.{IsName};
ghost use Rattle.po_exp_parts.specs.Places.{signs_between, Begins};
ghost use Rattle.po_fun_parts.specs.declared.keywords.Keyword.{Keyword as Spelled};
ghost use Rattle.po_fun_parts.specs.Keywords.{spelling};
ghost use Rattle.po_fun_parts.specs.Starting.{StatementStarts, NoStart, NoExpression};

use crate::behind_keywords::behind_keyword;
use crate::expressions::{Stop, expression_before};
use crate::keywords::{Keyword, keyword_of};
use po_base::{Memory, Text, Tokens};
use po_exp_parts::ranges::{stands, word_at};
use po_exp_parts::words::is_name;
use po_tree::{Exp, Names, Stmt};
use std::alloc::Global;

/// What a statement begins with: all of it that stands before the first statement inside, or before the declaration in a `for` (C99 6.8).
#[derive(Drop)]
pub enum Start {
    /// A whole statement that holds no other: an expression, a lone semicolon or a jump.
    Whole(Stmt),
    /// `if (x)`
    If(Exp),
    /// `while (x)`
    While(Exp),
    /// `do`
    Do,
    /// `for (x; y; z)`, each of which may be missing.
    For(Option<Exp>, Option<Exp>, Option<Exp>),
    /// `for (` where neither an expression nor nothing is first, so that only a declaration can be.
    ForVariables,
    /// `switch (x)`
    Switch(Exp),
    /// `case x:`
    Case(Exp),
    /// `default:`
    Default,
    /// `name:`
    Label(Text),
    /// `{`
    Block,
}

/// The expression with its semicolon at a place (C99 6.8.3).
fn expression_start(
    alloc: Global,
    tokens: &Tokens,
    at: u32,
    to: u32,
    names: &Names,
) -> Result<Option<(Start, u32)>, Memory>
    ensures found { (types : Sequence (Sequence ℕ)) → AreSame types names.now.typedefs → IfOk result (λ found. IfSome found (λ p. StatementStarts types (signs_between tokens.now.list at to) p.0 (signs_between tokens.now.list p.1 to))) }
    ensures within { IfOk result (λ found. IfSome found (λ p. (at < p.1) × (p.1 ≤ to) × (p.1 ≤ length tokens.now.list))) }
    ensures none { (types : Sequence (Sequence ℕ)) → AreSame types names.now.typedefs → IfOk result (λ found. IfNone found (NoExpression types (signs_between tokens.now.list at to))) }
{
    let Some((x, end)) = expression_before(alloc, tokens, at, to, names, Stop::Semicolon)? else {
        return Ok(None);
    };
    Ok(Some((Start::Whole(Stmt::ExpS(x)), end)))
}

/// What begins with the keyword at a place.
fn keyword_start(
    alloc: Global,
    tokens: &Tokens,
    keyword: Keyword,
    at: u32,
    to: u32,
    names: &Names,
) -> Result<Option<(Start, u32)>, Memory>
    requires inside { (at < to) × (at < length tokens.now.list) }
    requires first { signs_between tokens.now.list at to ≡ word (spelling keyword) ∷ signs_between tokens.now.list (at + 1) to }
    ensures found { (types : Sequence (Sequence ℕ)) → AreSame types names.now.typedefs → IfOk result (λ found. IfSome found (λ p. StatementStarts types (signs_between tokens.now.list at to) p.0 (signs_between tokens.now.list p.1 to))) }
    ensures within { IfOk result (λ found. IfSome found (λ p. (at < p.1) × (p.1 ≤ to) × (p.1 ≤ length tokens.now.list))) }
    ensures none { (types : Sequence (Sequence ℕ)) → AreSame types names.now.typedefs → IfOk result (λ found. IfNone found (NoStart types (signs_between tokens.now.list at to))) }
{
    let Some((begun, end)) = behind_keyword(alloc, tokens, keyword, at + 1, to, names)? else {
        return Ok(None);
    };
    Ok(Some((begun, end)))
}

/// Whether a word before a place is a label's name: a colon stands behind it.
fn is_label(tokens: &Tokens, text: &Text, at: u32, to: u32) -> bool
    ensures named { IsTrue result ↔ (IsName text.now × Begins colon (signs_between tokens.now.list at to)) }
    ensures within { MatchBool result ((at < to) × (at < length tokens.now.list)) (Unit {0}) }
    ensures behind { MatchBool result (signs_between tokens.now.list at to ≡ colon ∷ signs_between tokens.now.list (at + 1) to) (Unit {0}) }
{
    if !is_name(text.bytes()) {
        return false;
    }
    stands(tokens, at, to, b":")
}

/// What begins with the word at a place that is no keyword of a statement: a label, or an expression.
fn other_start(
    alloc: Global,
    tokens: &Tokens,
    text: &Text,
    at: u32,
    to: u32,
    names: &Names,
) -> Result<Option<(Start, u32)>, Memory>
    requires inside { (at < to) × (at < length tokens.now.list) }
    requires first { signs_between tokens.now.list at to ≡ word text.now ∷ signs_between tokens.now.list (at + 1) to }
    requires other { (w : Spelled) → text.now ≡ spelling w → ⊥ }
    ensures found { (types : Sequence (Sequence ℕ)) → AreSame types names.now.typedefs → IfOk result (λ found. IfSome found (λ p. StatementStarts types (signs_between tokens.now.list at to) p.0 (signs_between tokens.now.list p.1 to))) }
    ensures within { IfOk result (λ found. IfSome found (λ p. (at < p.1) × (p.1 ≤ to) × (p.1 ≤ length tokens.now.list))) }
    ensures none { (types : Sequence (Sequence ℕ)) → AreSame types names.now.typedefs → IfOk result (λ found. IfNone found (NoStart types (signs_between tokens.now.list at to))) }
{
    let behind = at + 1;
    if is_label(tokens, text, behind, to) {
        return Ok(Some((Start::Label(text.share()?), behind + 1)));
    }
    let Some((begun, end)) = expression_start(alloc, tokens, at, to, names)? else {
        return Ok(None);
    };
    Ok(Some((begun, end)))
}

/// What the word at a place begins: a statement of a keyword, a label, or an expression.
fn word_start(
    alloc: Global,
    tokens: &Tokens,
    text: &Text,
    at: u32,
    to: u32,
    names: &Names,
) -> Result<Option<(Start, u32)>, Memory>
    requires inside { (at < to) × (at < length tokens.now.list) }
    requires first { signs_between tokens.now.list at to ≡ word text.now ∷ signs_between tokens.now.list (at + 1) to }
    ensures found { (types : Sequence (Sequence ℕ)) → AreSame types names.now.typedefs → IfOk result (λ found. IfSome found (λ p. StatementStarts types (signs_between tokens.now.list at to) p.0 (signs_between tokens.now.list p.1 to))) }
    ensures within { IfOk result (λ found. IfSome found (λ p. (at < p.1) × (p.1 ≤ to) × (p.1 ≤ length tokens.now.list))) }
    ensures none { (types : Sequence (Sequence ℕ)) → AreSame types names.now.typedefs → IfOk result (λ found. IfNone found (NoStart types (signs_between tokens.now.list at to))) }
{
    match keyword_of(text) {
        Some(keyword) => keyword_start(alloc, tokens, keyword, at, to, names),
        None => other_start(alloc, tokens, text, at, to, names),
    }
}

/// What the statement begins with that stands at a place before `to`, and the place behind it; None exactly where no statement begins there.
/// `names` are the names in force: behind a word and a colon a label stands also where the word is a typedef name.
///
/// No path of an expression has more than 256 expressions; how deep statements nest is for the caller to count. Time is linear in the tokens of the
/// start, but for the search of names, as in `read_exp`. `Memory` where memory is refused.
pub fn start_at(
    alloc: Global,
    tokens: &Tokens,
    at: u32,
    to: u32,
    names: &Names,
) -> Result<Option<(Start, u32)>, Memory>
    ensures found { (types : Sequence (Sequence ℕ)) → AreSame types names.now.typedefs → IfOk result (λ found. IfSome found (λ p. StatementStarts types (signs_between tokens.now.list at to) p.0 (signs_between tokens.now.list p.1 to))) }
    ensures within { IfOk result (λ found. IfSome found (λ p. (at < p.1) × (p.1 ≤ to) × (p.1 ≤ length tokens.now.list))) }
    ensures none { (types : Sequence (Sequence ℕ)) → AreSame types names.now.typedefs → IfOk result (λ found. IfNone found (NoStart types (signs_between tokens.now.list at to))) }
{
    if stands(tokens, at, to, b"{") {
        return Ok(Some((Start::Block, at + 1)));
    }
    if stands(tokens, at, to, b";") {
        return Ok(Some((Start::Whole(Stmt::Empty), at + 1)));
    }
    let Some(text) = word_at(tokens, at, to) else {
        let Some((begun, end)) = expression_start(alloc, tokens, at, to, names)? else {
            return Ok(None);
        };
        return Ok(Some((begun, end)));
    };
    word_start(alloc, tokens, text, at, to, names)
}
