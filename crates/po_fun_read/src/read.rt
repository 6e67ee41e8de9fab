// The reader of a function definition: its head, its body, and its marks.
ghost use Rattle.std.specs.Prelude.{◌≡◌, IfOk, IfSome, IfNone, List as Sequence};
ghost use Rattle.po_tree.specs.declared.expression.Declarator.{Declarator as Declared};
ghost use Rattle.po_tree.specs.declared.expression.Specifier.{Specifier as Spec};
ghost use Rattle.po_tree.specs.declared.statement.Stmt.{Stmt as Statement};
ghost use Rattle.po_tree.specs.declared.function.FunTree.{FunTree as Definition};
ghost use Rattle.po_exp_parts.specs.Places.{signs_between};
ghost use Rattle.po_fun_read.specs.Standing.{FunctionStands, DefinitionStands};

use po_base::{List, Memory, Tokens};
use po_exp_parts::ranges::token_before;
use po_fun_heads::{Head, marks_of, read_head};
use po_stmt_read::read_body;
use po_tree::{FunTree, Names, Stmt};
use std::alloc::Global;

/// The head and the body of which the tokens from one place to another are.
fn read_parts(
    alloc: Global,
    tokens: &Tokens,
    from: u32,
    to: u32,
    names: &mut Names,
) -> Result<Option<(Head, List<Stmt>)>, Memory>
    ensures found { IfOk result (λ found. IfSome found (λ p. FunctionStands names.old.typedefs (signs_between tokens.now.list from to) p.0.specs p.0.declarator p.1)) }
    ensures none { IfOk result (λ found. IfNone found ((specs : Sequence Spec) (declarator : Declared) (body : Sequence Statement) → FunctionStands names.old.typedefs (signs_between tokens.now.list from to) specs declarator body → ⊥)) }
    ensures kept { IfOk result (λ _. names.new ≡ names.old) }
{
    let Some((head, at)) = read_head(alloc, tokens, from, to, names)? else {
        return Ok(None);
    };
    let found = read_body(alloc, tokens, at, to, names)?;
    names.close_scope()?;
    let Some((body, end)) = found else {
        return Ok(None);
    };
    match token_before(tokens, end, to) {
        Some(_) => Ok(None),
        None => Ok(Some((head, body))),
    }
}

/// The function definition that the tokens from the place `from` on up to the place `to` are, with the files and lines of its tokens
/// (C99 6.9.1); None exactly where they are none. `names` are the names in force; they are as before, also behind None: the caller
/// declares. After `Memory` they are to be given up.
///
/// No path of the definition has more than 256 expressions or 256 statements. Time is that of `read_head`, of `read_body` and of
/// `marks_of`.
pub fn read_fun(
    alloc: Global,
    tokens: &Tokens,
    from: u32,
    to: u32,
    names: &mut Names,
) -> Result<Option<FunTree>, Memory>
    ensures found { IfOk result (λ found. IfSome found (λ g. DefinitionStands names.old.typedefs tokens.now from to g)) }
    ensures none { IfOk result (λ found. IfNone found ((g : Definition) → DefinitionStands names.old.typedefs tokens.now from to g → ⊥)) }
    ensures kept { IfOk result (λ _. names.new ≡ names.old) }
{
    let Some((head, body)) = read_parts(alloc, tokens, from, to, names)? else {
        return Ok(None);
    };
    let (marks, files) = marks_of(alloc, tokens, from, to)?;
    let Head { specs, declarator } = head;
    Ok(Some(FunTree {
        specs,
        declarator,
        body,
        marks,
        names: files,
    }))
}
