// Small tests of what stands at a place, and of what was read.
ghost use Rattle.std.specs.Prelude.{ℕ, ◌≡◌, ◌↔◌, ◌∷◌, IsTrue, codes, List as Sequence};
ghost use Rattle.po_base.specs.declared.token.TokenKind.TheVariants as k;
ghost use Rattle.po_tree.specs.Words.{IsName};
ghost use Rattle.po_tree.specs.Declarations.{IsDeclared, IsTypedef};
ghost use Rattle.po_tree.specs.NameSets.{AreSame};
ghost use Rattle.po_exp_parts.specs.Places.{signs_between};
ghost use Rattle.po_exp_parts.specs.Seen.{typed};
ghost use Rattle.po_decl_laws.specs.Fronts.{EndsSpecifiers};
ghost use Rattle.po_decl_steps.specs.Completing.{is_outer as outside_structs, is_parameter as in_lists};
ghost use Rattle.po_tree.specs.Gathering.{IsTypedefWord};
ghost use Rattle.po_tree.specs.Signs.{Sign, sign_of};

use po_base::{Text, Token, TokenKind, Tokens};
use po_decl_parts::Seen;
use po_decl_steps::Owner;
use po_exp_parts::ranges::token_before;
use po_exp_parts::seen::is_untyped;
use po_exp_parts::words::is_name;
use po_tree::{Names, Specifier};

/// Whether a word is a name: no keyword (C99 6.4.2).
fn is_named(text: &Text) -> bool
    ensures { IsTrue result ↔ IsName text.now }
{
    is_name(text.bytes())
}

/// Whether a word may be declared behind such type specifiers: a typedef name only behind one (C99 6.7.5).
pub fn is_declared(text: &Text, seen: Seen, names: &Names) -> bool
    ensures { (types : Sequence (Sequence ℕ)) → AreSame types names.now.typedefs → IsTrue result ↔ IsDeclared types (typed seen) text.now }
{
    if !is_named(text) {
        return false;
    }
    if !is_untyped(seen) {
        return true;
    }
    !names.is_type(text)
}

/// Whether a specifier is the word `typedef`.
fn is_typedef_word(spec: &Specifier) -> bool
    ensures { IsTrue result ↔ IsTypedefWord spec.now }
{
    match spec {
        Specifier::Word(text) => text.bytes() == b"typedef".as_slice(),
        Specifier::Named(_) => false,
        Specifier::Struct(_, _) => false,
        Specifier::Enum(_, _, _) => false,
    }
}

/// Whether specifiers say that the declared words are typedef names (C99 6.7.7). Time linear in their number.
pub fn is_typedef(specs: &[Specifier]) -> bool
    ensures { IsTrue result ↔ IsTypedef specs.now }
{
    for spec in specs {
        if is_typedef_word(spec) {
            return true;
        }
    }
    false
}

/// Whether a flag tells whether specifiers say that the declared words are typedef names. Time linear in their number.
pub fn agrees(specs: &[Specifier], typedef: bool) -> bool
    ensures { IsTrue result ↔ (IsTrue typedef ↔ IsTypedef specs.now) }
{
    let told = is_typedef(specs);
    if typedef {
        return told;
    }
    !told
}

/// Whether what begins with specifiers is no member of a struct, where neither a storage class nor `inline` stands.
pub fn is_outer(owner: &Owner) -> bool
    ensures { result ≡ outside_structs owner.now }
{
    match owner {
        Owner::Declaration(_, _) => true,
        Owner::Member(_, _, _) => false,
        Owner::Param(_, _, _) => true,
    }
}

/// Whether it is a parameter, whose word may be missing.
pub fn is_parameter(owner: &Owner) -> bool
    ensures { result ≡ in_lists owner.now }
{
    match owner {
        Owner::Declaration(_, _) => false,
        Owner::Member(_, _, _) => false,
        Owner::Param(_, _, _) => true,
    }
}

/// Whether a token is a punctuator.
fn is_punctuator(token: &Token) -> bool
    ensures { IsTrue result ↔ (token.now.kind ≡ k.Punct) }
{
    token.kind == TokenKind::Punct
}

/// Whether a token is a word.
fn is_word(token: &Token) -> bool
    ensures { IsTrue result ↔ (token.now.kind ≡ k.Word) }
{
    token.kind == TokenKind::Word
}

/// Whether a text is an opening brace.
fn is_brace(text: &Text) -> bool
    ensures { IsTrue result ↔ (text.now ≡ codes "{") }
{
    text.bytes() == b"{".as_slice()
}

/// Whether a token may stand behind specifiers with such type specifiers: a punctuator other than an opening brace, or a word that may be
/// declared.
fn may_follow(token: &Token, seen: Seen, names: &Names) -> bool
    ensures { (types : Sequence (Sequence ℕ)) → AreSame types names.now.typedefs → (signs : Sequence Sign) → IsTrue result ↔ EndsSpecifiers types (typed seen) (sign_of token.now ∷ signs) }
{
    if is_punctuator(token) {
        return !is_brace(&token.text);
    }
    if !is_word(token) {
        return false;
    }
    is_declared(&token.text, seen, names)
}

/// Whether what stands at a place may stand behind such specifiers.
pub fn ends_specifiers(tokens: &Tokens, at: u32, to: u32, seen: Seen, names: &Names) -> bool
    ensures { (types : Sequence (Sequence ℕ)) → AreSame types names.now.typedefs → IsTrue result ↔ EndsSpecifiers types (typed seen) (signs_between tokens.now.list at to) }
{
    match token_before(tokens, at, to) {
        Some(token) => may_follow(token, seen, names),
        None => false,
    }
}
