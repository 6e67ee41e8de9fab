// The reader of expressions (C99 6.5): the cycle of its functions.
ghost use Rattle.std.specs.Prelude.{ℕ, ◌≡◌, ◌≤◌, ◌<◌, ◌+◌, ◌^◌, ◌∷◌, [], ◌↔◌, IsTrue, length, IfOk, IfSome, IfNone};
ghost use Rattle.std.specs.Prelude.{List as Sequence};
ghost use Rattle.po_tree.specs.declared.expression.Exp.{Exp as Tree};
ghost use Rattle.po_tree.specs.declared.operator.Prefix.TheVariants as p;
ghost use Rattle.po_tree.specs.Heights.{height as height_of, type_height};
ghost use Rattle.po_tree.specs.Signs.{Sign, punct, opening};
ghost use Rattle.po_tree.specs.Operators.{prefix_sign};
ghost use Rattle.po_exp_parts.specs.declared.continuation.Continuation.TheVariants as c;
ghost use Rattle.po_exp_parts.specs.Continuing.{tail_height};
ghost use Rattle.po_exp_parts.specs.Places.{Begins, signs_from, signs_between, IsEnd};
ghost use Rattle.po_exp_parts.specs.TypeWords.{StartsType};
ghost use Rattle.po_exp_parts.specs.Reading.{Reads, Follows, Arguments, Items, SizesRead};
ghost use Rattle.po_exp_parts.specs.Finding.{Finds, operand_height, StandsAsOperand};
ghost use Rattle.po_exp_read.specs.Enclosed.{list_height, sizes_height, StandsClosed, StandsEnclosed, Closes};
ghost use Rattle.po_exp_parts.specs.Levels.{least_of};
ghost use Rattle.po_exp_read.specs.Longest.{IsLongest, IsLongestAt, NothingStands, NothingStandsAt, StandsAt, StandsBefore};

use po_base::{List, Memory, Token, TokenKind, Tokens};
use po_exp_parts::continuation::Continuation;
use po_exp_parts::found::{Found, Leveled, Tail};
use po_exp_parts::leaves::{continuation_at, leaf_at, selected_at, strings_at};
use po_exp_parts::levels::{ASSIGNMENT, CAST, COMMA, CONDITIONAL, Level};
use po_exp_parts::operands::{convert, enclose, measure, precede, unleveled};
use po_exp_parts::operators::{least_operand, least_right, level_of, prefix_of};
use po_exp_parts::places::stands;
use po_exp_parts::stars::stars_at;
use po_exp_parts::tails::{as_arguments, as_choice, as_right, as_subscript, extend};
use po_exp_parts::type_names::named;
use po_exp_parts::type_words::{specs_at, starts_type};
use po_tree::{Exp, Infix, Names, Prefix, TypeName};
use std::alloc::Global;

/// The most expressions on a path from the root of a tree to a leaf.
const MOST_NESTED: u32 = 256;

/// Whether an operator before its operand is `sizeof`.
fn is_size(operator: Prefix) -> bool
    ensures { IsTrue result ↔ (operator ≡ p.Size) }
{
    matches!(operator, Prefix::Size)
}

/// Whether an operator is `sizeof` and a type name in parentheses begins at a place behind it.
fn measures_type(tokens: &[Token], names: &Names, at: usize, operator: Prefix) -> bool
    ensures { IsTrue result ↔ ((operator ≡ p.Size) × Begins opening (signs_from tokens.now at) × StartsType names.now.typedefs (signs_from tokens.now (at + 1))) }
{
    if !is_size(operator) {
        return false;
    }
    if !stands(tokens, at, TokenKind::Punct, b"(") {
        return false;
    }
    starts_type(tokens, at + 1, names)
}

/// The expression of level `least` or a higher one that stands at a place, the longest that is no higher than `depth`:
/// its first operand, and then one after the other what goes on with it.
#[cycle(reader)]
fn expression(
    alloc: Global,
    tokens: &[Token],
    names: &Names,
    at: usize,
    least: u8,
    depth: u32,
) -> Result<Option<Found<Exp>>, Memory>
    requires shallow { depth < 2 ^ 16 }
    requires low { least ≤ 14 }
    ensures { IfOk result (λ found. Finds height_of (Reads names.now.typedefs least (signs_from tokens.now at)) depth at tokens.now found) }
{
    let Some(first) = operand(alloc, tokens, names, at, least, depth)? else {
        return Ok(None);
    };
    let mut own = first.value.level;
    let mut found = unleveled(first);
    while let Some(next) = continuation_at(tokens, found.end, least, own) {
        if found.height >= depth {
            return Ok(Some(found));
        }
        let start = found.end + 1;
        let Some(tail) = tail(alloc, tokens, names, start, next, depth - 1)? else {
            return Ok(Some(found));
        };
        found = extend(alloc, found, tail)?;
        own = level_of(next);
    }
    Ok(Some(found))
}

/// The expression of level `least` or a higher one at a place that this token closes. It ends behind the token.
#[cycle(reader)]
fn closed(
    alloc: Global,
    tokens: &[Token],
    names: &Names,
    at: usize,
    least: u8,
    depth: u32,
    last: &[u8],
) -> Result<Option<Found<Exp>>, Memory>
    requires shallow { depth < 2 ^ 16 }
    requires low { least ≤ 14 }
    requires closes { Closes least (punct last.now) }
    ensures { IfOk result (λ found. Finds height_of (StandsClosed names.now.typedefs least (punct last.now) (signs_from tokens.now at)) depth at tokens.now found) }
{
    let Some(inner) = expression(alloc, tokens, names, at, least, depth)? else {
        return Ok(None);
    };
    if !stands(tokens, inner.end, TokenKind::Punct, last) {
        return Ok(None);
    }
    Ok(Some(Found {
        value: inner.value,
        height: inner.height,
        end: inner.end + 1,
    }))
}

/// The first operand of an expression of level `least` or a higher one at a place, the longest that is no higher than
/// `depth`.
#[cycle(reader)]
fn operand(
    alloc: Global,
    tokens: &[Token],
    names: &Names,
    at: usize,
    least: u8,
    depth: u32,
) -> Result<Option<Found<Leveled>>, Memory>
    requires shallow { depth < 2 ^ 16 }
    requires low { least ≤ 14 }
    ensures { IfOk result (λ found. Finds operand_height (StandsAsOperand names.now.typedefs least (signs_from tokens.now at)) depth at tokens.now found) }
{
    if depth == 0 {
        return Ok(None);
    }
    if at >= tokens.len() {
        return Ok(None);
    }
    if tokens[at].kind == TokenKind::Str {
        return strings_at(alloc, tokens, at);
    }
    if stands(tokens, at, TokenKind::Punct, b"(") {
        return parenthesised_at(alloc, tokens, names, at, least, depth);
    }
    match prefix_of(&tokens[at]) {
        Some(p) => unary_at(alloc, tokens, names, at, p, depth),
        None => leaf_at(tokens, names, at),
    }
}

/// The expression in parentheses or the cast at a place.
#[cycle(reader)]
fn parenthesised_at(
    alloc: Global,
    tokens: &[Token],
    names: &Names,
    at: usize,
    least: u8,
    depth: u32,
) -> Result<Option<Found<Leveled>>, Memory>
    requires shallow { depth < 2 ^ 16 }
    requires low { least ≤ 14 }
    requires some { 0 < depth }
    requires inside { at < length tokens.now }
    requires here { signs_from tokens.now at ≡ opening ∷ signs_from tokens.now (at + 1) }
    ensures { IfOk result (λ found. Finds operand_height (StandsAsOperand names.now.typedefs least (signs_from tokens.now at)) depth at tokens.now found) }
{
    let inside = at + 1;
    if starts_type(tokens, inside, names) {
        if least > CAST {
            return Ok(None);
        }
        return cast_at(alloc, tokens, names, at, least, depth);
    }
    match closed(alloc, tokens, names, inside, COMMA, depth - 1, b")")? {
        Some(inner) => Ok(Some(enclose(alloc, inner)?)),
        None => Ok(None),
    }
}

/// The cast at a place.
#[cycle(reader)]
fn cast_at(
    alloc: Global,
    tokens: &[Token],
    names: &Names,
    at: usize,
    least: u8,
    depth: u32,
) -> Result<Option<Found<Leveled>>, Memory>
    requires shallow { depth < 2 ^ 16 }
    requires low { least ≤ 13 }
    requires some { 0 < depth }
    requires inside { at < length tokens.now }
    requires here { signs_from tokens.now at ≡ opening ∷ signs_from tokens.now (at + 1) }
    requires named { StartsType names.now.typedefs (signs_from tokens.now (at + 1)) }
    ensures { IfOk result (λ found. Finds operand_height (StandsAsOperand names.now.typedefs least (signs_from tokens.now at)) depth at tokens.now found) }
{
    let Some(name) = type_at(alloc, tokens, names, at + 1, depth - 1)? else {
        return Ok(None);
    };
    let Some(inner) = expression(alloc, tokens, names, name.end, CAST, depth - 1)? else {
        return Ok(None);
    };
    Ok(Some(convert(alloc, name, inner)?))
}

/// The prefix operator or `sizeof` at a place with its operand.
#[cycle(reader)]
fn unary_at(
    alloc: Global,
    tokens: &[Token],
    names: &Names,
    at: usize,
    p: Prefix,
    depth: u32,
) -> Result<Option<Found<Leveled>>, Memory>
    requires shallow { depth < 2 ^ 16 }
    requires some { 0 < depth }
    requires inside { at < length tokens.now }
    requires here { signs_from tokens.now at ≡ prefix_sign p ∷ signs_from tokens.now (at + 1) }
    ensures { (least : ℕ) → least ≤ 14 → IfOk result (λ found. Finds operand_height (StandsAsOperand names.now.typedefs least (signs_from tokens.now at)) depth at tokens.now found) }
{
    let next = at + 1;
    if measures_type(tokens, names, next, p) {
        return match type_at(alloc, tokens, names, next + 1, depth - 1)? {
            Some(name) => Ok(Some(measure(alloc, name)?)),
            None => Ok(None),
        };
    }
    match expression(alloc, tokens, names, next, least_operand(p), depth - 1)? {
        Some(inner) => Ok(Some(precede(alloc, p, inner)?)),
        None => Ok(None),
    }
}

/// What stands behind a token that goes on with an operand.
#[cycle(reader)]
fn tail(
    alloc: Global,
    tokens: &[Token],
    names: &Names,
    at: usize,
    next: Continuation,
    depth: u32,
) -> Result<Option<Found<Tail>>, Memory>
    requires shallow { depth < 2 ^ 16 }
    requires inside { at ≤ length tokens.now }
    ensures { IfOk result (λ found. Finds tail_height (Follows names.now.typedefs next (signs_from tokens.now at)) depth at tokens.now found) }
{
    match next {
        Continuation::Infix(o) => right_at(alloc, tokens, names, at, o, depth),
        Continuation::Question => chosen_at(alloc, tokens, names, at, depth),
        Continuation::Bracket => match closed(alloc, tokens, names, at, COMMA, depth, b"]")? {
            Some(inner) => Ok(Some(as_subscript(inner))),
            None => Ok(None),
        },
        Continuation::Parenthesis => match arguments_at(alloc, tokens, names, at, depth)? {
            Some(inner) => Ok(Some(as_arguments(inner))),
            None => Ok(None),
        },
        Continuation::Select(s) => selected_at(tokens, at, s),
        Continuation::Step(q) => Ok(Some(Found {
            value: Tail::Stepped(q),
            height: 0,
            end: at,
        })),
    }
}

/// The right operand at a place.
#[cycle(reader)]
fn right_at(
    alloc: Global,
    tokens: &[Token],
    names: &Names,
    at: usize,
    o: Infix,
    depth: u32,
) -> Result<Option<Found<Tail>>, Memory>
    requires shallow { depth < 2 ^ 16 }
    ensures { IfOk result (λ found. Finds tail_height (Follows names.now.typedefs (c.Infix o) (signs_from tokens.now at)) depth at tokens.now found) }
{
    match expression(alloc, tokens, names, at, least_right(o), depth)? {
        Some(inner) => Ok(Some(as_right(o, inner))),
        None => Ok(None),
    }
}

/// The second and third operands of `?:` at a place.
#[cycle(reader)]
fn chosen_at(
    alloc: Global,
    tokens: &[Token],
    names: &Names,
    at: usize,
    depth: u32,
) -> Result<Option<Found<Tail>>, Memory>
    requires shallow { depth < 2 ^ 16 }
    ensures { IfOk result (λ found. Finds tail_height (Follows names.now.typedefs c.Question (signs_from tokens.now at)) depth at tokens.now found) }
{
    let Some(middle) = closed(alloc, tokens, names, at, COMMA, depth, b":")? else {
        return Ok(None);
    };
    let Some(last) = expression(alloc, tokens, names, middle.end, CONDITIONAL, depth)? else {
        return Ok(None);
    };
    Ok(Some(as_choice(middle, last)))
}

/// The arguments of a call at a place, behind its parenthesis, with the parenthesis that closes it.
#[cycle(reader)]
fn arguments_at(
    alloc: Global,
    tokens: &[Token],
    names: &Names,
    at: usize,
    depth: u32,
) -> Result<Option<Found<List<Exp>>>, Memory>
    requires shallow { depth < 2 ^ 16 }
    ensures { IfOk result (λ found. Finds list_height (Arguments names.now.typedefs (signs_from tokens.now at)) depth at tokens.now found) }
{
    if stands(tokens, at, TokenKind::Punct, b")") {
        return Ok(Some(Found {
            value: List::new(alloc),
            height: 0,
            end: at + 1,
        }));
    }
    items_at(alloc, tokens, names, at, depth)
}

/// The same of one argument or more.
#[cycle(reader)]
fn items_at(
    alloc: Global,
    tokens: &[Token],
    names: &Names,
    at: usize,
    depth: u32,
) -> Result<Option<Found<List<Exp>>>, Memory>
    requires shallow { depth < 2 ^ 16 }
    ensures { IfOk result (λ found. Finds list_height (Items names.now.typedefs (signs_from tokens.now at)) depth at tokens.now found) }
{
    let mut values = List::new(alloc);
    let mut height = 0u32;
    let mut next = at;
    loop {
        let Some(argument) = expression(alloc, tokens, names, next, ASSIGNMENT, depth)? else {
            return Ok(None);
        };
        height = height.max(argument.height);
        values.push(argument.value)?;
        next = argument.end + 1;
        if stands(tokens, argument.end, TokenKind::Punct, b")") {
            return Ok(Some(Found {
                value: values,
                height,
                end: next,
            }));
        }
        if !stands(tokens, argument.end, TokenKind::Punct, b",") {
            return Ok(None);
        }
    }
}

/// The type name at a place that a parenthesis closes. It ends behind the parenthesis.
#[cycle(reader)]
fn type_at(
    alloc: Global,
    tokens: &[Token],
    names: &Names,
    at: usize,
    depth: u32,
) -> Result<Option<Found<TypeName>>, Memory>
    requires shallow { depth < 2 ^ 16 }
    requires inside { at ≤ length tokens.now }
    ensures { IfOk result (λ found. Finds type_height (StandsEnclosed names.now.typedefs (signs_from tokens.now at)) depth at tokens.now found) }
{
    let Some((specs, specs_end)) = specs_at(alloc, tokens, at, names)? else {
        return Ok(None);
    };
    if specs.is_empty() {
        return Ok(None);
    }
    let (stars, stars_end) = stars_at(alloc, tokens, specs_end)?;
    let Some(sizes) = sizes_at(alloc, tokens, names, stars_end, depth)? else {
        return Ok(None);
    };
    if !stands(tokens, sizes.end, TokenKind::Punct, b")") {
        return Ok(None);
    }
    Ok(Some(named(specs, stars, sizes)))
}

/// All sizes of arrays at a place.
#[cycle(reader)]
fn sizes_at(
    alloc: Global,
    tokens: &[Token],
    names: &Names,
    at: usize,
    depth: u32,
) -> Result<Option<Found<List<Option<Exp>>>>, Memory>
    requires shallow { depth < 2 ^ 16 }
    requires inside { at ≤ length tokens.now }
    ensures { IfOk result (λ found. Finds sizes_height (SizesRead names.now.typedefs (signs_from tokens.now at)) depth at tokens.now found) }
{
    let mut sizes = List::new(alloc);
    let mut height = 0u32;
    let mut end = at;
    while stands(tokens, end, TokenKind::Punct, b"[") {
        let inside = end + 1;
        if stands(tokens, inside, TokenKind::Punct, b"]") {
            sizes.push(None)?;
            end = inside + 1;
            continue;
        }
        let Some(size) = closed(alloc, tokens, names, inside, CONDITIONAL, depth, b"]")? else {
            return Ok(None);
        };
        height = height.max(size.height);
        sizes.push(Some(size.value))?;
        end = size.end;
    }
    Ok(Some(Found {
        value: sizes,
        height,
        end,
    }))
}

/// The longest well-formed expression that stands in `tokens` from the place `from` on and ends at `to` or before it, and
/// the place behind it; None exactly where none stands there. `names` are the names in force.
///
/// No path from the root of the tree to a leaf has more than 256 expressions. Time is linear in the tokens that are looked
/// at, but for the search of each name among the typedef names: an operand begins at each of them once at most, since what
/// stands before a token tells what is read there, and a reading that failed isn't tried again at another level. The stack
/// is that of 256 nested expressions at most. `Memory` where memory is refused.
pub fn read_exp(
    alloc: Global,
    tokens: &Tokens,
    from: u32,
    to: u32,
    names: &Names,
) -> Result<Option<(Exp, u32)>, Memory>
    ensures found { IfOk result (λ found. IfSome found (λ p. IsLongest names.now.typedefs (signs_between tokens.now.list from to) p.0 (signs_between tokens.now.list p.1 to))) }
    ensures within { IfOk result (λ found. IfSome found (λ p. (from ≤ p.1) × (p.1 ≤ to) × (p.1 ≤ length tokens.now.list))) }
    ensures none { IfOk result (λ found. IfNone found (NothingStands names.now.typedefs (signs_between tokens.now.list from to))) }
{
    let all = tokens.list.as_slice();
    let end = (to as usize).min(all.len());
    let range = &all[..end];
    match expression(alloc, range, names, from as usize, COMMA, MOST_NESTED)? {
        Some(found) => Ok(Some((found.value, found.end as u32))),
        None => Ok(None),
    }
}

/// The longest well-formed expression of this level or a higher one that stands in `tokens` from the place `from` on and ends
/// at `to` or before it, and the place behind it; None exactly where none stands there. As `read_exp` otherwise.
pub fn read_exp_at(
    alloc: Global,
    tokens: &Tokens,
    from: u32,
    to: u32,
    names: &Names,
    level: Level,
) -> Result<Option<(Exp, u32)>, Memory>
    ensures found { IfOk result (λ found. IfSome found (λ p. IsLongestAt (least_of level) names.now.typedefs (signs_between tokens.now.list from to) p.0 (signs_between tokens.now.list p.1 to))) }
    ensures within { IfOk result (λ found. IfSome found (λ p. (from ≤ p.1) × (p.1 ≤ to) × (p.1 ≤ length tokens.now.list))) }
    ensures none { IfOk result (λ found. IfNone found (NothingStandsAt (least_of level) names.now.typedefs (signs_between tokens.now.list from to))) }
{
    let all = tokens.list.as_slice();
    let end = (to as usize).min(all.len());
    let range = &all[..end];
    let least = level.least_of();
    match expression(alloc, range, names, from as usize, least, MOST_NESTED)? {
        Some(found) => Ok(Some((found.value, found.end as u32))),
        None => Ok(None),
    }
}

/// Tokens are those of one well-formed expression at most, under the same typedef names.
pub fn one_tree()
    ensures { (types : Sequence (Sequence ℕ)) (signs : Sequence Sign) (x y : Tree) → StandsBefore types signs x [] → StandsBefore types signs y [] → x ≡ y }
{}

/// Of two expressions that are no comma expressions and stand at the front of the same tokens, each with an end behind it, as a
/// comma or a closing bracket, one is the other.
pub fn one_tree_before_an_end()
    ensures { (types : Sequence (Sequence ℕ)) (least : ℕ) (signs us vs : Sequence Sign) (x y : Tree) (a b : Sign) → 1 ≤ least → IsEnd a → IsEnd b → StandsAt least types signs x (a ∷ us) → StandsAt least types signs y (b ∷ vs) → (x ≡ y) × (a ∷ us ≡ b ∷ vs) }
{}
