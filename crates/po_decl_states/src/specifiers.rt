// Steps among the specifiers of a declaration, of a member or of a parameter (C99 6.7, 6.7.2.1).
ghost use Rattle.std.specs.Prelude.{ℕ, ◌≡◌, ◌≤◌, ◌<◌, ◌+◌, ◌*◌, ◌-◌, [], reverse, length, IfOk, IfSome, IfNone, Option as Maybe, List as Sequence};
ghost use Rattle.po_tree.specs.Expressions.{untyped};
ghost use Rattle.po_tree.specs.InForce.{InForce};
ghost use Rattle.po_tree.specs.NameSets.{AreSame};
ghost use Rattle.po_exp_parts.specs.Places.{signs_between};
ghost use Rattle.po_exp_parts.specs.Seen.{typed};
ghost use Rattle.po_base.specs.declared.token.Token.{Token};
ghost use Rattle.po_decl_parts.specs.Specifiers.{Opens, SpecifierStands};
ghost use Rattle.po_decl_steps.specs.Completing.{is_outer as outside_structs};
ghost use Rattle.po_decl_laws.specs.Fronts.{EndsSpecifiers};
ghost use Rattle.po_decl_steps.specs.declared.levels.Owner.TheVariants as of;
ghost use Rattle.po_decl_steps.specs.declared.levels.Focus.TheVariants as wanted;
ghost use Rattle.po_decl_steps.specs.Steps.{NoBody};
ghost use Rattle.po_decl_states.specs.Going.{Goes, GetsOn, Completed, remaining};

use crate::state::{State, Step};
use crate::words::{ends_specifiers, is_outer, is_typedef};
use po_base::{List, Memory, Text, Tokens};
use po_decl_parts::{Found, Seen, opening_at, specifier_at, stands};
use po_decl_steps::{Focus, Level, Owner};
use po_exp_parts::seen::is_untyped;
use po_tree::{Decl, Declarator, Init, Names, Specifier};
use std::alloc::Global;

/// Ends the specifiers of a declaration: it is whole, or its first declarator is wanted.
fn end_declaration(
    tokens: &Tokens,
    to: u32,
    below: List<Level>,
    specs: List<Specifier>,
    free: bool,
    seen: Seen,
    typedef: bool,
    parts: List<(Declarator, Option<Init>)>,
    at: u32,
    lists: u32,
) -> Step
    requires { specs ≡ [] → ⊥ }
    ensures goes { (names : InForce) → ((types : Sequence (Sequence ℕ)) → AreSame types names.typedefs → EndsSpecifiers types (typed seen) (signs_between tokens.now.list at to)) → Goes (Completed tokens.now.list to (record { below = below; level = record { specs = specs; free = free; seen = seen; owner = of.Declaration typedef parts }; focus = wanted.Specifiers; at = at; lists = lists })) tokens.now.list to lists names names result }
    ensures on { GetsOn tokens.now.list to at lists (3 * (length tokens.now.list - at) + 2) result }
{
    if stands(tokens, at, to, b";") {
        return Step::Whole(Decl { specs, parts }, at + 1);
    }
    let flag = is_typedef(specs.as_slice());
    Step::Next(State {
        below,
        level: Level {
            specs,
            free,
            seen,
            owner: Owner::Declaration(flag, parts),
        },
        focus: Focus::Declarator,
        at,
        lists,
    })
}

/// Ends specifiers: a declarator is wanted, or the declaration is whole.
fn end_specifiers(
    tokens: &Tokens,
    to: u32,
    below: List<Level>,
    level: Level,
    at: u32,
    lists: u32,
) -> Step
    ensures goes { (names : InForce) → ((types : Sequence (Sequence ℕ)) → AreSame types names.typedefs → EndsSpecifiers types (typed level.seen) (signs_between tokens.now.list at to)) → Goes (Completed tokens.now.list to (record { below = below; level = level; focus = wanted.Specifiers; at = at; lists = lists })) tokens.now.list to lists names names result }
    ensures on { GetsOn tokens.now.list to at lists (3 * (length tokens.now.list - at) + 2) result }
{
    let Level {
        specs,
        free,
        seen,
        owner,
    } = level;
    if specs.is_empty() {
        return Step::Stuck;
    }
    match owner {
        Owner::Declaration(typedef, parts) => end_declaration(
            tokens, to, below, specs, free, seen, typedef, parts, at, lists,
        ),
        Owner::Member(tag, members, declarators) => Step::Next(State {
            below,
            level: Level {
                specs,
                free,
                seen,
                owner: Owner::Member(tag, members, declarators),
            },
            focus: Focus::Declarator,
            at,
            lists,
        }),
        Owner::Param(stars, word, params) => Step::Next(State {
            below,
            level: Level {
                specs,
                free,
                seen,
                owner: Owner::Param(stars, word, params),
            },
            focus: Focus::Declarator,
            at,
            lists,
        }),
    }
}

/// The beginning of a struct's body behind such type specifiers, with its tag where one is written, and the place behind its brace.
fn body_at(
    tokens: &Tokens,
    at: u32,
    to: u32,
    seen: Seen,
) -> Result<Option<(Option<Text>, u32)>, Memory>
    ensures found { IfOk result (λ found. IfSome found (λ p. (typed seen ≡ untyped) × Opens (signs_between tokens.now.list at to) p.0 (signs_between tokens.now.list p.1 to))) }
    ensures within { IfOk result (λ found. IfSome found (λ p. (at < p.1) × (p.1 ≤ to) × (p.1 ≤ length tokens.now.list))) }
    ensures none { IfOk result (λ found. IfNone found (NoBody (typed seen) (signs_between tokens.now.list at to))) }
{
    if !is_untyped(seen) {
        return Ok(None);
    }
    let Some((tag, end)) = opening_at(tokens, at, to)? else {
        return Ok(None);
    };
    Ok(Some((tag, end)))
}

/// Opens the body of a struct: its first member is wanted.
fn open_body(
    alloc: Global,
    below: List<Level>,
    level: Level,
    tag: Option<Text>,
    end: u32,
    lists: u32,
) -> Result<Step, Memory>
    ensures goes { (tokens : Sequence Token) (at to : ℕ) (names : InForce) → typed level.seen ≡ untyped → Opens (signs_between tokens at to) tag (signs_between tokens end to) → IfOk result (Goes (Completed tokens to (record { below = below; level = level; focus = wanted.Specifiers; at = at; lists = lists })) tokens to lists names names) }
    ensures on { (tokens : Sequence Token) (at to : ℕ) → at < end → end ≤ length tokens → IfOk result (GetsOn tokens to at lists (3 * (length tokens - at) + 2)) }
{
    let mut below = below;
    below.push(level)?;
    Ok(Step::Next(State {
        below,
        level: Level {
            specs: List::new(alloc),
            free: false,
            seen: Seen::Nothing,
            owner: Owner::Member(tag, List::new(alloc), List::new(alloc)),
        },
        focus: Focus::Specifiers,
        at: end,
        lists,
    }))
}

/// Puts a specifier that was read behind those of a level.
fn put_specifier(below: List<Level>, level: Level, found: Found, lists: u32) -> Result<Step, Memory>
    ensures goes { (tokens : Sequence Token) (at to : ℕ) (before behind : InForce) → before.tags ≡ behind.tags → before.outer ≡ behind.outer → ((types : Sequence (Sequence ℕ)) → AreSame types before.typedefs → (after : Sequence (Sequence ℕ)) × SpecifierStands (outside_structs level.owner) level.free types (typed level.seen) (signs_between tokens at to) found.specifier found.free after (typed found.seen) (signs_between tokens found.end to) × AreSame after behind.typedefs) → IfOk result (Goes (Completed tokens to (record { below = below; level = level; focus = wanted.Specifiers; at = at; lists = lists })) tokens to lists before behind) }
    ensures on { (tokens : Sequence Token) (at to : ℕ) → at < found.end → found.end ≤ length tokens → IfOk result (GetsOn tokens to at lists (3 * (length tokens - at) + 2)) }
{
    let Found {
        specifier,
        free,
        seen,
        end,
    } = found;
    let Level { specs, owner, .. } = level;
    let mut specs = specs;
    specs.push(specifier)?;
    Ok(Step::Next(State {
        below,
        level: Level {
            specs,
            free,
            seen,
            owner,
        },
        focus: Focus::Specifiers,
        at: end,
        lists,
    }))
}

/// Reads the specifier at a place, where neither they end nor a body opens.
fn read_specifier(
    alloc: Global,
    tokens: &Tokens,
    to: u32,
    names: &mut Names,
    below: List<Level>,
    level: Level,
    at: u32,
    lists: u32,
) -> Result<Step, Memory>
    ensures goes { NoBody (typed level.seen) (signs_between tokens.now.list at to) → ((types : Sequence (Sequence ℕ)) → AreSame types names.old.typedefs → EndsSpecifiers types (typed level.seen) (signs_between tokens.now.list at to) → ⊥) → IfOk result (Goes (Completed tokens.now.list to (record { below = below; level = level; focus = wanted.Specifiers; at = at; lists = lists })) tokens.now.list to lists names.old names.new) }
    ensures on { IfOk result (GetsOn tokens.now.list to at lists (3 * (length tokens.now.list - at) + 2)) }
{
    let outer = is_outer(&level.owner);
    let found = specifier_at(alloc, tokens, at, to, outer, level.free, level.seen, names)?;
    match found {
        Some(found) => put_specifier(below, level, found, lists),
        None => Ok(Step::Stuck),
    }
}

/// Takes a step among specifiers: they end, a body opens, or one more is read.
pub fn take_specifier(
    alloc: Global,
    tokens: &Tokens,
    to: u32,
    names: &mut Names,
    below: List<Level>,
    level: Level,
    at: u32,
    lists: u32,
) -> Result<Step, Memory>
    ensures goes { IfOk result (Goes (Completed tokens.now.list to (record { below = below; level = level; focus = wanted.Specifiers; at = at; lists = lists })) tokens.now.list to lists names.old names.new) }
    ensures on { IfOk result (GetsOn tokens.now.list to at lists (3 * (length tokens.now.list - at) + 2)) }
{
    if ends_specifiers(tokens, at, to, level.seen, names) {
        return Ok(end_specifiers(tokens, to, below, level, at, lists));
    }
    if let Some((tag, end)) = body_at(tokens, at, to, level.seen)? {
        return open_body(alloc, below, level, tag, end, lists);
    }
    read_specifier(alloc, tokens, to, names, below, level, at, lists)
}
