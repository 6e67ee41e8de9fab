// The reader of statements: one cycle of functions, as deep as there is room for statements on a path.
ghost use Rattle.std.specs.Prelude.{ℕ, ◌≡◌, ◌≤◌, ◌<◌, length, IfOk, IfSome, IfNone, List as Sequence};
ghost use Rattle.po_tree.specs.declared.statement.Stmt.{Stmt as Statement};
ghost use Rattle.po_tree.specs.declared.statement.Stmt.TheVariants as st;
ghost use Rattle.po_tree.specs.NameSets.{AreSame};
ghost use Rattle.po_tree.specs.Signs.{Sign};
ghost use Rattle.po_exp_parts.specs.Places.{signs_between};
ghost use Rattle.po_fun_parts.specs.Standing.{first_of};
ghost use Rattle.po_stmt_laws.specs.Reading.{StatementReads, ItemsRead, BodyStands};
ghost use Rattle.po_stmt_laws.specs.Continuing.{BodyReads, BranchesRead, RepeatedReads, VariablesRead, BlockReads, ReadsOn};
ghost use Rattle.po_stmt_read.specs.Reads.{IsRead, IsItemRead, ElseReads, LoopReads};

use po_base::{Boxed, List, Memory, Text, Tokens};
use po_decl_read::read_decl_at;
use po_exp_parts::ranges::stands;
use po_fun_parts::{Start, start_at, steps_at, test_at, word_stands};
use po_tree::{Decl, Exp, First, Names, Stmt};
use std::alloc::Global;

/// The most statements on a path of a function's body (C99 5.2.4.1 asks for 127).
const MOST_NESTED: u32 = 256;

/// What stands first in a `for`, where it is an expression or nothing.
fn first_of(x: Option<Exp>) -> First
    ensures { result ≡ first_of x }
{
    match x {
        Some(x) => First::Value(x),
        None => First::Nothing,
    }
}

/// The head of a `for` (C99 6.8.5.3). It is on the heap while its statement is read, so that statements in statements take little of the stack.
#[derive(Drop)]
struct ForHead {
    first: First,
    test: Option<Exp>,
    step: Option<Exp>,
}

/// The head of a `for` of its parts.
fn for_head(
    alloc: Global,
    first: First,
    test: Option<Exp>,
    step: Option<Exp>,
) -> Result<Boxed<ForHead>, Memory>
    ensures { IfOk result (λ head. head ≡ record { first = first; test = test; step = step }) }
{
    Boxed::new(alloc, ForHead { first, test, step })
}

/// A `for` of its head and its statement.
fn with_body(head: Boxed<ForHead>, body: Boxed<Stmt>) -> Stmt
    ensures { result ≡ st.For head.first head.test head.step body }
{
    let ForHead { first, test, step } = head.into_inner();
    Stmt::For(first, test, step, body)
}

/// The statement that stands at a place, none of whose paths has more statements than there is room for.
#[cycle(statements)]
fn statement(
    alloc: Global,
    tokens: &Tokens,
    at: u32,
    to: u32,
    names: &mut Names,
    room: u32,
) -> Result<Option<(Stmt, u32)>, Memory>
    ensures read { (types : Sequence (Sequence ℕ)) → AreSame types names.old.typedefs → IfOk result (λ found. IsRead (StatementReads types room) tokens.now.list at to found) }
    ensures within { IfOk result (λ found. IfSome found (λ p. (at < p.1) × (p.1 ≤ to) × (p.1 ≤ length tokens.now.list))) }
    ensures kept { IfOk result (λ _. names.new ≡ names.old) }
{
    if room == 0 {
        return Ok(None);
    }
    let Some((begun, behind)) = start_at(alloc, tokens, at, to, names)? else {
        return Ok(None);
    };
    read_on(alloc, tokens, begun, behind, to, names, room - 1)
}

/// What a statement is whose start is known, from the place behind its start.
#[cycle(statements)]
fn read_on(
    alloc: Global,
    tokens: &Tokens,
    begun: Start,
    at: u32,
    to: u32,
    names: &mut Names,
    room: u32,
) -> Result<Option<(Stmt, u32)>, Memory>
    requires { (at ≤ to) × (at ≤ length tokens.now.list) }
    ensures read { (types : Sequence (Sequence ℕ)) → AreSame types names.old.typedefs → IfOk result (λ found. IsRead (ReadsOn types room begun) tokens.now.list at to found) }
    ensures within { IfOk result (λ found. IfSome found (λ p. (at ≤ p.1) × (p.1 ≤ to) × (p.1 ≤ length tokens.now.list))) }
    ensures kept { IfOk result (λ _. names.new ≡ names.old) }
{
    match begun {
        Start::Whole(s) => Ok(Some((s, at))),
        Start::If(x) => branches(alloc, tokens, x, at, to, names, room),
        Start::While(x) => while_loop(alloc, tokens, x, at, to, names, room),
        Start::Do => do_loop(alloc, tokens, at, to, names, room),
        Start::For(x, y, z) => plain_for(alloc, tokens, x, y, z, at, to, names, room),
        Start::ForVariables => variables(alloc, tokens, at, to, names, room),
        Start::Switch(x) => switch_statement(alloc, tokens, x, at, to, names, room),
        Start::Case(x) => case_statement(alloc, tokens, x, at, to, names, room),
        Start::Default => default_statement(alloc, tokens, at, to, names, room),
        Start::Label(name) => labelled_statement(alloc, tokens, name, at, to, names, room),
        Start::Block => block(alloc, tokens, at, to, names, room),
    }
}

/// The statement at a place, as a part of another one.
#[cycle(statements)]
fn part(
    alloc: Global,
    tokens: &Tokens,
    at: u32,
    to: u32,
    names: &mut Names,
    room: u32,
) -> Result<Option<(Boxed<Stmt>, u32)>, Memory>
    ensures read { (types : Sequence (Sequence ℕ)) → AreSame types names.old.typedefs → IfOk result (λ found. IsRead (StatementReads types room) tokens.now.list at to found) }
    ensures within { IfOk result (λ found. IfSome found (λ p. (at < p.1) × (p.1 ≤ to) × (p.1 ≤ length tokens.now.list))) }
    ensures kept { IfOk result (λ _. names.new ≡ names.old) }
{
    let Some((s, end)) = statement(alloc, tokens, at, to, names, room)? else {
        return Ok(None);
    };
    Ok(Some((Boxed::new(alloc, s)?, end)))
}

/// The statement behind `while (x)` (C99 6.8.5.1).
#[cycle(statements)]
fn while_loop(
    alloc: Global,
    tokens: &Tokens,
    x: Exp,
    at: u32,
    to: u32,
    names: &mut Names,
    room: u32,
) -> Result<Option<(Stmt, u32)>, Memory>
    ensures read { (types : Sequence (Sequence ℕ)) → AreSame types names.old.typedefs → IfOk result (λ found. IsRead (BodyReads (st.While x) types room) tokens.now.list at to found) }
    ensures within { IfOk result (λ found. IfSome found (λ p. (at < p.1) × (p.1 ≤ to) × (p.1 ≤ length tokens.now.list))) }
    ensures kept { IfOk result (λ _. names.new ≡ names.old) }
{
    let Some((body, end)) = part(alloc, tokens, at, to, names, room)? else {
        return Ok(None);
    };
    Ok(Some((Stmt::While(x, body), end)))
}

/// The statement behind the head of a `for` with expressions, or none (C99 6.8.5.3).
#[cycle(statements)]
fn plain_for(
    alloc: Global,
    tokens: &Tokens,
    first: Option<Exp>,
    test: Option<Exp>,
    step: Option<Exp>,
    at: u32,
    to: u32,
    names: &mut Names,
    room: u32,
) -> Result<Option<(Stmt, u32)>, Memory>
    ensures read { (types : Sequence (Sequence ℕ)) → AreSame types names.old.typedefs → IfOk result (λ found. IsRead (BodyReads (st.For (first_of first) test step) types room) tokens.now.list at to found) }
    ensures within { IfOk result (λ found. IfSome found (λ p. (at < p.1) × (p.1 ≤ to) × (p.1 ≤ length tokens.now.list))) }
    ensures kept { IfOk result (λ _. names.new ≡ names.old) }
{
    let head = for_head(alloc, first_of(first), test, step)?;
    for_loop(alloc, tokens, head, at, to, names, room)
}

/// The statement behind the head of a `for` (C99 6.8.5.3).
#[cycle(statements)]
fn for_loop(
    alloc: Global,
    tokens: &Tokens,
    head: Boxed<ForHead>,
    at: u32,
    to: u32,
    names: &mut Names,
    room: u32,
) -> Result<Option<(Stmt, u32)>, Memory>
    ensures read { (types : Sequence (Sequence ℕ)) → AreSame types names.old.typedefs → IfOk result (λ found. IsRead (BodyReads (st.For head.first head.test head.step) types room) tokens.now.list at to found) }
    ensures within { IfOk result (λ found. IfSome found (λ p. (at < p.1) × (p.1 ≤ to) × (p.1 ≤ length tokens.now.list))) }
    ensures kept { IfOk result (λ _. names.new ≡ names.old) }
{
    let Some((body, end)) = part(alloc, tokens, at, to, names, room)? else {
        return Ok(None);
    };
    Ok(Some((with_body(head, body), end)))
}

/// The statement behind `switch (x)` (C99 6.8.4.2).
#[cycle(statements)]
fn switch_statement(
    alloc: Global,
    tokens: &Tokens,
    x: Exp,
    at: u32,
    to: u32,
    names: &mut Names,
    room: u32,
) -> Result<Option<(Stmt, u32)>, Memory>
    ensures read { (types : Sequence (Sequence ℕ)) → AreSame types names.old.typedefs → IfOk result (λ found. IsRead (BodyReads (st.Switch x) types room) tokens.now.list at to found) }
    ensures within { IfOk result (λ found. IfSome found (λ p. (at < p.1) × (p.1 ≤ to) × (p.1 ≤ length tokens.now.list))) }
    ensures kept { IfOk result (λ _. names.new ≡ names.old) }
{
    let Some((body, end)) = part(alloc, tokens, at, to, names, room)? else {
        return Ok(None);
    };
    Ok(Some((Stmt::Switch(x, body), end)))
}

/// The statement behind `case x:` (C99 6.8.1).
#[cycle(statements)]
fn case_statement(
    alloc: Global,
    tokens: &Tokens,
    x: Exp,
    at: u32,
    to: u32,
    names: &mut Names,
    room: u32,
) -> Result<Option<(Stmt, u32)>, Memory>
    ensures read { (types : Sequence (Sequence ℕ)) → AreSame types names.old.typedefs → IfOk result (λ found. IsRead (BodyReads (st.Case x) types room) tokens.now.list at to found) }
    ensures within { IfOk result (λ found. IfSome found (λ p. (at < p.1) × (p.1 ≤ to) × (p.1 ≤ length tokens.now.list))) }
    ensures kept { IfOk result (λ _. names.new ≡ names.old) }
{
    let Some((body, end)) = part(alloc, tokens, at, to, names, room)? else {
        return Ok(None);
    };
    Ok(Some((Stmt::Case(x, body), end)))
}

/// The statement behind `default:` (C99 6.8.1).
#[cycle(statements)]
fn default_statement(
    alloc: Global,
    tokens: &Tokens,
    at: u32,
    to: u32,
    names: &mut Names,
    room: u32,
) -> Result<Option<(Stmt, u32)>, Memory>
    ensures read { (types : Sequence (Sequence ℕ)) → AreSame types names.old.typedefs → IfOk result (λ found. IsRead (BodyReads st.Default types room) tokens.now.list at to found) }
    ensures within { IfOk result (λ found. IfSome found (λ p. (at < p.1) × (p.1 ≤ to) × (p.1 ≤ length tokens.now.list))) }
    ensures kept { IfOk result (λ _. names.new ≡ names.old) }
{
    let Some((body, end)) = part(alloc, tokens, at, to, names, room)? else {
        return Ok(None);
    };
    Ok(Some((Stmt::Default(body), end)))
}

/// The statement behind a label (C99 6.8.1).
#[cycle(statements)]
fn labelled_statement(
    alloc: Global,
    tokens: &Tokens,
    name: Text,
    at: u32,
    to: u32,
    names: &mut Names,
    room: u32,
) -> Result<Option<(Stmt, u32)>, Memory>
    ensures read { (types : Sequence (Sequence ℕ)) → AreSame types names.old.typedefs → IfOk result (λ found. IsRead (BodyReads (st.Label name) types room) tokens.now.list at to found) }
    ensures within { IfOk result (λ found. IfSome found (λ p. (at < p.1) × (p.1 ≤ to) × (p.1 ≤ length tokens.now.list))) }
    ensures kept { IfOk result (λ _. names.new ≡ names.old) }
{
    let Some((body, end)) = part(alloc, tokens, at, to, names, room)? else {
        return Ok(None);
    };
    Ok(Some((Stmt::Label(name, body), end)))
}

/// The statements of an `if`, from behind its parentheses: an `else` belongs to the nearest `if` (C99 6.8.4.1p3).
#[cycle(statements)]
fn branches(
    alloc: Global,
    tokens: &Tokens,
    x: Exp,
    at: u32,
    to: u32,
    names: &mut Names,
    room: u32,
) -> Result<Option<(Stmt, u32)>, Memory>
    ensures read { (types : Sequence (Sequence ℕ)) → AreSame types names.old.typedefs → IfOk result (λ found. IsRead (BranchesRead types room x) tokens.now.list at to found) }
    ensures within { IfOk result (λ found. IfSome found (λ p. (at < p.1) × (p.1 ≤ to) × (p.1 ≤ length tokens.now.list))) }
    ensures kept { IfOk result (λ _. names.new ≡ names.old) }
{
    let Some((body, between)) = part(alloc, tokens, at, to, names, room)? else {
        return Ok(None);
    };
    if !word_stands(tokens, between, to, b"else") {
        return Ok(Some((Stmt::If(x, body, None), between)));
    }
    behind_else(alloc, tokens, x, body, between + 1, to, names, room)
}

/// The statement behind the `else` of an `if` (C99 6.8.4.1).
#[cycle(statements)]
fn behind_else(
    alloc: Global,
    tokens: &Tokens,
    x: Exp,
    body: Boxed<Stmt>,
    at: u32,
    to: u32,
    names: &mut Names,
    room: u32,
) -> Result<Option<(Stmt, u32)>, Memory>
    ensures read { (types : Sequence (Sequence ℕ)) → AreSame types names.old.typedefs → IfOk result (λ found. IsRead (ElseReads types room x body) tokens.now.list at to found) }
    ensures within { IfOk result (λ found. IfSome found (λ p. (at < p.1) × (p.1 ≤ to) × (p.1 ≤ length tokens.now.list))) }
    ensures kept { IfOk result (λ _. names.new ≡ names.old) }
{
    let Some((other, end)) = part(alloc, tokens, at, to, names, room)? else {
        return Ok(None);
    };
    Ok(Some((Stmt::If(x, body, Some(other)), end)))
}

/// The statement of a `do`, and its test (C99 6.8.5.2).
#[cycle(statements)]
fn do_loop(
    alloc: Global,
    tokens: &Tokens,
    at: u32,
    to: u32,
    names: &mut Names,
    room: u32,
) -> Result<Option<(Stmt, u32)>, Memory>
    ensures read { (types : Sequence (Sequence ℕ)) → AreSame types names.old.typedefs → IfOk result (λ found. IsRead (RepeatedReads types room) tokens.now.list at to found) }
    ensures within { IfOk result (λ found. IfSome found (λ p. (at < p.1) × (p.1 ≤ to) × (p.1 ≤ length tokens.now.list))) }
    ensures kept { IfOk result (λ _. names.new ≡ names.old) }
{
    let Some((body, between)) = part(alloc, tokens, at, to, names, room)? else {
        return Ok(None);
    };
    let Some((x, end)) = test_at(alloc, tokens, between, to, names)? else {
        return Ok(None);
    };
    Ok(Some((Stmt::Do(body, x), end)))
}

/// What stands behind the parenthesis of a `for` that declares variables (C99 6.8.5.3): they are in force up to its end.
#[cycle(statements)]
fn variables(
    alloc: Global,
    tokens: &Tokens,
    at: u32,
    to: u32,
    names: &mut Names,
    room: u32,
) -> Result<Option<(Stmt, u32)>, Memory>
    ensures read { (types : Sequence (Sequence ℕ)) → AreSame types names.old.typedefs → IfOk result (λ found. IsRead (VariablesRead types room) tokens.now.list at to found) }
    ensures within { IfOk result (λ found. IfSome found (λ p. (at < p.1) × (p.1 ≤ to) × (p.1 ≤ length tokens.now.list))) }
    ensures kept { IfOk result (λ _. names.new ≡ names.old) }
{
    names.open_scope()?;
    let found = variables_inside(alloc, tokens, at, to, names, room)?;
    names.close_scope()?;
    Ok(found)
}

/// The same in the scope of the variables.
#[cycle(statements)]
fn variables_inside(
    alloc: Global,
    tokens: &Tokens,
    at: u32,
    to: u32,
    names: &mut Names,
    room: u32,
) -> Result<Option<(Stmt, u32)>, Memory>
    ensures read { (types : Sequence (Sequence ℕ)) → AreSame types names.old.typedefs → IfOk result (λ found. IsRead (VariablesRead types room) tokens.now.list at to found) }
    ensures within { IfOk result (λ found. IfSome found (λ p. (at < p.1) × (p.1 ≤ to) × (p.1 ≤ length tokens.now.list))) }
    ensures kept { IfOk result (λ _. names.new.outer ≡ names.old.outer) }
{
    let Some((d, behind)) = read_decl_at(alloc, tokens, at, to, names)? else {
        return Ok(None);
    };
    names.declare(alloc, &d)?;
    behind_variables(alloc, tokens, d, behind, to, names, room)
}

/// What stands behind the declaration of a `for`, whose names are in force (C99 6.8.5.3).
#[cycle(statements)]
fn behind_variables(
    alloc: Global,
    tokens: &Tokens,
    d: Decl,
    at: u32,
    to: u32,
    names: &mut Names,
    room: u32,
) -> Result<Option<(Stmt, u32)>, Memory>
    ensures read { (types : Sequence (Sequence ℕ)) → AreSame types names.old.typedefs → IfOk result (λ found. IsRead (LoopReads types room d) tokens.now.list at to found) }
    ensures within { IfOk result (λ found. IfSome found (λ p. (at < p.1) × (p.1 ≤ to) × (p.1 ≤ length tokens.now.list))) }
    ensures kept { IfOk result (λ _. names.new ≡ names.old) }
{
    let Some((test, step, last)) = steps_at(alloc, tokens, at, to, names)? else {
        return Ok(None);
    };
    let head = for_head(alloc, First::Variables(d), test, step)?;
    for_loop(alloc, tokens, head, last, to, names, room)
}

/// The block at a place behind its opening brace (C99 6.8.2).
#[cycle(statements)]
fn block(
    alloc: Global,
    tokens: &Tokens,
    at: u32,
    to: u32,
    names: &mut Names,
    room: u32,
) -> Result<Option<(Stmt, u32)>, Memory>
    ensures read { (types : Sequence (Sequence ℕ)) → AreSame types names.old.typedefs → IfOk result (λ found. IsRead (BlockReads types room) tokens.now.list at to found) }
    ensures within { IfOk result (λ found. IfSome found (λ p. (at < p.1) × (p.1 ≤ to) × (p.1 ≤ length tokens.now.list))) }
    ensures kept { IfOk result (λ _. names.new ≡ names.old) }
{
    let Some((xs, end)) = items(alloc, tokens, at, to, names, room)? else {
        return Ok(None);
    };
    Ok(Some((Stmt::Block(xs), end)))
}

/// The items of a block at a place, and its closing brace; what they declare is in force up to there.
#[cycle(statements)]
fn items(
    alloc: Global,
    tokens: &Tokens,
    at: u32,
    to: u32,
    names: &mut Names,
    room: u32,
) -> Result<Option<(List<Stmt>, u32)>, Memory>
    ensures read { (types : Sequence (Sequence ℕ)) → AreSame types names.old.typedefs → IfOk result (λ found. IsRead (ItemsRead types room) tokens.now.list at to found) }
    ensures within { IfOk result (λ found. IfSome found (λ p. (at < p.1) × (p.1 ≤ to) × (p.1 ≤ length tokens.now.list))) }
    ensures kept { IfOk result (λ _. names.new ≡ names.old) }
{
    names.open_scope()?;
    let found = items_inside(alloc, tokens, at, to, names, room)?;
    names.close_scope()?;
    Ok(found)
}

/// The same in the scope of the block.
#[cycle(statements)]
fn items_inside(
    alloc: Global,
    tokens: &Tokens,
    at: u32,
    to: u32,
    names: &mut Names,
    room: u32,
) -> Result<Option<(List<Stmt>, u32)>, Memory>
    ensures read { (types : Sequence (Sequence ℕ)) → AreSame types names.old.typedefs → IfOk result (λ found. IsRead (ItemsRead types room) tokens.now.list at to found) }
    ensures within { IfOk result (λ found. IfSome found (λ p. (at < p.1) × (p.1 ≤ to) × (p.1 ≤ length tokens.now.list))) }
    ensures kept { IfOk result (λ _. names.new.outer ≡ names.old.outer) }
{
    let mut xs = List::new(alloc);
    let mut place = at;
    while !stands(tokens, place, to, b"}") {
        let Some((x, end)) = item(alloc, tokens, place, to, names, room)? else {
            return Ok(None);
        };
        xs.push(x)?;
        place = end;
    }
    Ok(Some((xs, place + 1)))
}

/// The item of a block at a place: a declaration, whose names are in force from there on, or a statement (C99 6.8.2).
#[cycle(statements)]
fn item(
    alloc: Global,
    tokens: &Tokens,
    at: u32,
    to: u32,
    names: &mut Names,
    room: u32,
) -> Result<Option<(Stmt, u32)>, Memory>
    ensures read { (types : Sequence (Sequence ℕ)) → AreSame types names.old.typedefs → IfOk result (λ found. IsItemRead types room tokens.now.list at to names.new.typedefs found) }
    ensures within { IfOk result (λ found. IfSome found (λ p. (at < p.1) × (p.1 ≤ to) × (p.1 ≤ length tokens.now.list))) }
    ensures kept { IfOk result (λ _. names.new.outer ≡ names.old.outer) }
{
    if room == 0 {
        return Ok(None);
    }
    let Some((d, end)) = read_decl_at(alloc, tokens, at, to, names)? else {
        return statement(alloc, tokens, at, to, names, room);
    };
    names.declare(alloc, &d)?;
    Ok(Some((Stmt::Declare(d), end)))
}

/// The body of a function at a place of `tokens` behind its opening brace (C99 6.9.1): its statements and declarations, with the closing brace before the
/// place `to`, and the place behind that; None exactly where none stands there. `names` are the names in force, the parameters included; they are as before,
/// also behind None.
///
/// No path of the body has more than 256 statements, so the stack doesn't grow further; a declaration counts as one. Time is linear in the tokens, but for
/// the search of names, and for the start of an item, which may be read as a declaration first. `Memory` where memory is refused; then the names are to be
/// given up.
pub fn read_body(
    alloc: Global,
    tokens: &Tokens,
    at: u32,
    to: u32,
    names: &mut Names,
) -> Result<Option<(List<Stmt>, u32)>, Memory>
    ensures found { (types : Sequence (Sequence ℕ)) → AreSame types names.old.typedefs → IfOk result (λ found. IfSome found (λ p. BodyStands types (signs_between tokens.now.list at to) p.0 (signs_between tokens.now.list p.1 to))) }
    ensures within { IfOk result (λ found. IfSome found (λ p. (at < p.1) × (p.1 ≤ to) × (p.1 ≤ length tokens.now.list))) }
    ensures none { (types : Sequence (Sequence ℕ)) → AreSame types names.old.typedefs → IfOk result (λ found. IfNone found ((xs : Sequence Statement) (left : Sequence Sign) → BodyStands types (signs_between tokens.now.list at to) xs left → ⊥)) }
    ensures kept { IfOk result (λ _. names.new ≡ names.old) }
{
    items(alloc, tokens, at, to, names, MOST_NESTED)
}
