// The reader of a whole piece of a file: a declaration, or a lone semicolon.
ghost use Rattle.std.specs.Prelude.{◌≡◌, ◌∷◌, ◌↔◌, [], IsTrue, IfOk, IfSome, IfNone};
ghost use Rattle.po_tree.specs.declared.declaration.Decl.{Decl as Tree};
ghost use Rattle.po_tree.specs.Signs.{semicolon};
ghost use Rattle.po_exp_parts.specs.Places.{signs_between};
ghost use Rattle.po_decl_read.specs.Whole.{PieceIs};

use crate::read::read_decl_at;
use po_base::{List, Memory, Tokens};
use po_decl_laws::one_declaration;
use po_exp_parts::ranges::{stands, token_before};
use po_tree::{Decl, Names};
use std::alloc::Global;

/// Whether no token stands at a place before `to`.
fn is_behind(tokens: &Tokens, at: u32, to: u32) -> bool
    ensures { IsTrue result ↔ (signs_between tokens.now.list at to ≡ []) }
{
    token_before(tokens, at, to).is_none()
}

/// Whether the tokens from a place to another are a lone semicolon.
fn is_lone(tokens: &Tokens, from: u32, to: u32) -> bool
    ensures { IsTrue result ↔ (signs_between tokens.now.list from to ≡ semicolon ∷ []) }
{
    if !stands(tokens, from, to, b";") {
        return false;
    }
    is_behind(tokens, from + 1, to)
}

/// The tree of a lone semicolon.
fn lone(alloc: Global) -> Decl
    ensures { result ≡ record { specs = []; parts = [] } }
{
    Decl {
        specs: List::new(alloc),
        parts: List::new(alloc),
    }
}

/// The declaration at file level, or the lone semicolon, that the tokens from the place `from` up to the place `to` are; None exactly where they
/// are none. A piece of a file that ends with no body is such a range (C99 6.7, 6.9). `names` are the names in force; they are as before, also
/// behind None: the caller declares what the declaration does. Nothing is read twice, and the stack doesn't grow with the nesting.
///
/// # Errors
///
/// `Memory` where memory is wanting; the names are then to be given up.
pub fn read_decl(
    alloc: Global,
    tokens: &Tokens,
    from: u32,
    to: u32,
    names: &mut Names,
) -> Result<Option<Decl>, Memory>
    ensures found { IfOk result (λ found. IfSome found (λ d. PieceIs names.old.typedefs (signs_between tokens.now.list from to) d)) }
    ensures none { IfOk result (λ found. IfNone found ((d : Tree) → PieceIs names.old.typedefs (signs_between tokens.now.list from to) d → ⊥)) }
    ensures kept { IfOk result (λ _. names.new ≡ names.old) }
{
    one_declaration();
    if is_lone(tokens, from, to) {
        return Ok(Some(lone(alloc)));
    }
    let Some((d, end)) = read_decl_at(alloc, tokens, from, to, names)? else {
        return Ok(None);
    };
    if !is_behind(tokens, end, to) {
        return Ok(None);
    }
    Ok(Some(d))
}
