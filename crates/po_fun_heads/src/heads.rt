// The reader of the head of a function definition (C99 6.9.1).
ghost use Rattle.std.specs.Prelude.{ℕ, ◌≡◌, ◌≤◌, ◌<◌, ◌+◌, ◌∷◌, ◌++◌, [], map, length, IfOk, IfSome, IfNone, MatchOption, Some, None, List as Sequence, Bool};
ghost use Rattle.po_tree.specs.declared.declaration.Decl.{Decl as Tree};
ghost use Rattle.po_tree.specs.declared.expression.Declarator.{Declarator as Declared};
ghost use Rattle.po_tree.specs.declared.expression.Specifier.{Specifier as Spec};
ghost use Rattle.po_tree.specs.declared.expression.Param.{Param as Parameter};
ghost use Rattle.po_tree.specs.Signs.{Sign, sign_of, semicolon};
ghost use Rattle.po_exp_parts.specs.Places.{signs_between};
ghost use Rattle.po_decl_steps.specs.Standing.{DeclarationStands};
ghost use Rattle.po_fun_heads.specs.Heads.{HeadStands, Enters, as_declaration, function_declarator};

use crate::braces::head_tokens;
use crate::scopes::hide_of_head;
use po_base::{List, Memory, Text, Token, TokenKind, Tokens};
use po_decl_read::read_decl_at;
use po_tree::{Decl, Declarator, Init, Names, Param, Specifier, Suffix};
use std::alloc::Global;

/// The head of a function definition (C99 6.9.1): specifiers, and a declarator with parameters.
#[derive(Drop)]
pub struct Head {
    pub specs: List<Specifier>,
    pub declarator: Declarator,
}

/// The declarator of a function, taken apart.
#[derive(Drop)]
struct Function {
    stars: List<List<Text>>,
    name: Text,
    params: List<Param>,
    more: bool,
}

/// The parts of a declarator that has a word and parameters.
fn function_of(declarator: Declarator) -> Option<Function>
    ensures { MatchOption result ((stars : Sequence (Sequence (Sequence ℕ))) (name : Sequence ℕ) (params : Sequence Parameter) (more : Bool) → declarator ≡ function_declarator stars name params more → ⊥) (λ f. declarator ≡ function_declarator f.stars f.name f.params f.more) }
{
    let Declarator {
        stars,
        name,
        suffix,
    } = declarator;
    let Some(name) = name else {
        return None;
    };
    match suffix {
        Suffix::Params(params, more) => Some(Function {
            stars,
            name,
            params,
            more,
        }),
        Suffix::Plain => None,
        Suffix::Arrays(_) => None,
    }
}

/// The one declarator without an initialiser, where there is nothing else.
fn only_declarator(parts: List<(Declarator, Option<Init>)>) -> Option<Declarator>
    ensures { MatchOption result ((d : Declared) → parts ≡ (d, None) ∷ [] → ⊥) (λ d. parts ≡ (d, None) ∷ []) }
{
    let mut parts = parts;
    let Some((declarator, init)) = parts.pop() else {
        return None;
    };
    if !parts.is_empty() {
        return None;
    }
    match init {
        Some(_) => None,
        None => Some(declarator),
    }
}

/// A semicolon.
fn semicolon(alloc: Global) -> Result<Token, Memory>
    ensures { IfOk result (λ token. sign_of token ≡ semicolon) }
{
    Ok(Token {
        kind: TokenKind::Punct,
        text: Text::new(alloc, b";")?,
        file: 0,
        line: 0,
        own_line: 0,
    })
}

/// The declaration that these tokens are with a semicolon behind them; `count` is how many there are then. None exactly where they are none.
fn read_as_declaration(
    alloc: Global,
    head: List<Token>,
    count: u32,
    names: &mut Names,
) -> Result<Option<Decl>, Memory>
    requires { count ≡ length head + 1 }
    ensures found { IfOk result (λ found. IfSome found (λ d. DeclarationStands names.old.typedefs (map sign_of head ++ semicolon ∷ []) d [])) }
    ensures none { IfOk result (λ found. IfNone found ((d : Tree) → DeclarationStands names.old.typedefs (map sign_of head ++ semicolon ∷ []) d [] → ⊥)) }
    ensures kept { IfOk result (λ _. names.new ≡ names.old) }
{
    let mut list = head;
    list.push(semicolon(alloc)?)?;
    let tokens = Tokens {
        list,
        names: List::new(alloc),
    };
    let Some((d, end)) = read_decl_at(alloc, &tokens, 0, count, names)? else {
        return Ok(None);
    };
    if end < count {
        return Ok(None);
    }
    Ok(Some(d))
}

/// The specifiers and the declarator, taken apart, of which these tokens are the head of a definition; `count` is one more than there are. None
/// exactly where they are no declaration of one function without an initialiser, with a semicolon behind it.
fn head_parts(
    alloc: Global,
    head: List<Token>,
    count: u32,
    names: &mut Names,
) -> Result<Option<(List<Specifier>, Function)>, Memory>
    requires { count ≡ length head + 1 }
    ensures found { IfOk result (λ found. IfSome found (λ p. DeclarationStands names.old.typedefs (map sign_of head ++ semicolon ∷ []) (as_declaration p.0 (function_declarator p.1.stars p.1.name p.1.params p.1.more)) [])) }
    ensures none { IfOk result (λ found. IfNone found ((specs : Sequence Spec) (stars : Sequence (Sequence (Sequence ℕ))) (name : Sequence ℕ) (params : Sequence Parameter) (more : Bool) → DeclarationStands names.old.typedefs (map sign_of head ++ semicolon ∷ []) (as_declaration specs (function_declarator stars name params more)) [] → ⊥)) }
    ensures kept { IfOk result (λ _. names.new ≡ names.old) }
{
    let Some(declaration) = read_as_declaration(alloc, head, count, names)? else {
        return Ok(None);
    };
    let Decl { specs, parts } = declaration;
    let Some(declarator) = only_declarator(parts) else {
        return Ok(None);
    };
    let Some(function) = function_of(declarator) else {
        return Ok(None);
    };
    Ok(Some((specs, function)))
}

/// The head of a function definition that stands in `tokens` from the place `from` on, with the brace that opens its body before the place `to`
/// (C99 6.9.1), and the place behind the brace; None exactly where none stands there. None of its paths has more than 256 expressions.
///
/// Where a head stands, a scope is open in `names`, the names in force: there its name, its parameters and its enumerators hide typedef names.
/// The caller closes it. Behind None the names are as before. After `Memory` they are to be given up. Time is linear in the tokens up to the
/// brace, but for the search of names.
pub fn read_head(
    alloc: Global,
    tokens: &Tokens,
    from: u32,
    to: u32,
    names: &mut Names,
) -> Result<Option<(Head, u32)>, Memory>
    ensures found { IfOk result (λ found. IfSome found (λ p. Enters names.old (signs_between tokens.now.list from to) p.0.specs p.0.declarator (signs_between tokens.now.list p.1 to) names.new)) }
    ensures within { IfOk result (λ found. IfSome found (λ p. (from < p.1) × (p.1 ≤ to) × (p.1 ≤ length tokens.now.list))) }
    ensures none { IfOk result (λ found. IfNone found ((specs : Sequence Spec) (declarator : Declared) (inside : Sequence (Sequence ℕ)) (left : Sequence Sign) → HeadStands names.old.typedefs (signs_between tokens.now.list from to) specs declarator inside left → ⊥)) }
    ensures kept { IfOk result (λ found. IfNone found (names.new ≡ names.old)) }
{
    let Some((head, at)) = head_tokens(alloc, tokens, from, to)? else {
        return Ok(None);
    };
    let Some((specs, function)) = head_parts(alloc, head, at - from, names)? else {
        return Ok(None);
    };
    let Function {
        stars,
        name,
        params,
        more,
    } = function;
    names.open_scope()?;
    let (specs, params) = hide_of_head(alloc, names, specs, &name, params)?;
    let declarator = Declarator {
        stars,
        name: Some(name),
        suffix: Suffix::Params(params, more),
    };
    Ok(Some((Head { specs, declarator }, at)))
}
