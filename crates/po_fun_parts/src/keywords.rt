// The keywords with which statements begin.
ghost use Rattle.std.specs.Prelude.{◌≡◌, ◌<◌, ◌+◌, ◌∷◌, ◌↔◌, IsTrue, length, MatchBool, MatchOption};
ghost use Rattle.po_tree.specs.Signs.{word};
ghost use Rattle.po_exp_parts.specs.Places.{signs_between, Begins};
ghost use Rattle.po_fun_parts.specs.declared.keywords.Keyword.{Keyword as Spelled};
ghost use Rattle.po_fun_parts.specs.Keywords.{spelling, IsLabelOrJump};

use po_base::{Text, Tokens};
use po_exp_parts::ranges::word_at;

/// A keyword with which a statement begins (C99 6.8.1, 6.8.4 to 6.8.6).
#[derive(Clone, Copy)]
pub enum Keyword {
    /// `if`
    If,
    /// `while`
    While,
    /// `do`
    Do,
    /// `for`
    For,
    /// `switch`
    Switch,
    /// `case`
    Case,
    /// `default`
    Default,
    /// `goto`
    Goto,
    /// `break`
    Break,
    /// `continue`
    Continue,
    /// `return`
    Return,
}

/// Whether a word has these bytes.
fn is_word(text: &Text, bytes: &[u8]) -> bool
    ensures { IsTrue result ↔ (text.now ≡ bytes.now) }
{
    text.bytes() == bytes
}

/// Whether this word stands at a place before `to`, as `else` or `while` behind a statement.
pub fn word_stands(tokens: &Tokens, at: u32, to: u32, text: &[u8]) -> bool
    ensures first { IsTrue result ↔ Begins (word text.now) (signs_between tokens.now.list at to) }
    ensures within { MatchBool result ((at < to) × (at < length tokens.now.list)) (Unit {0}) }
    ensures behind { MatchBool result (signs_between tokens.now.list at to ≡ word text.now ∷ signs_between tokens.now.list (at + 1) to) (Unit {0}) }
{
    match word_at(tokens, at, to) {
        Some(found) => is_word(found, text),
        None => false,
    }
}

/// The keyword that a word is, where a label or a jump begins with it (C99 6.8.1, 6.8.6).
fn label_or_jump(text: &Text) -> Option<Keyword>
    ensures { MatchOption result ((k : Spelled) → IsLabelOrJump k → text.now ≡ spelling k → ⊥) (λ k. text.now ≡ spelling k) }
{
    if is_word(text, b"case") {
        return Some(Keyword::Case);
    }
    if is_word(text, b"default") {
        return Some(Keyword::Default);
    }
    if is_word(text, b"goto") {
        return Some(Keyword::Goto);
    }
    if is_word(text, b"break") {
        return Some(Keyword::Break);
    }
    if is_word(text, b"continue") {
        return Some(Keyword::Continue);
    }
    if is_word(text, b"return") {
        return Some(Keyword::Return);
    }
    None
}

/// The keyword that a word is, where a statement begins with it.
pub(crate) fn keyword_of(text: &Text) -> Option<Keyword>
    ensures { MatchOption result ((k : Spelled) → text.now ≡ spelling k → ⊥) (λ k. text.now ≡ spelling k) }
{
    if is_word(text, b"if") {
        return Some(Keyword::If);
    }
    if is_word(text, b"while") {
        return Some(Keyword::While);
    }
    if is_word(text, b"do") {
        return Some(Keyword::Do);
    }
    if is_word(text, b"for") {
        return Some(Keyword::For);
    }
    if is_word(text, b"switch") {
        return Some(Keyword::Switch);
    }
    label_or_jump(text)
}
