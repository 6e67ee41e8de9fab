// Steps behind a declarator of a member: further declarators, further members, and the end of their struct's body (C99 6.7.2.1).
ghost use Rattle.std.specs.Prelude.{ℕ, ◌≡◌, ◌≤◌, ◌<◌, ◌+◌, ◌*◌, ◌-◌, reverse, length, IfOk, List as Sequence};
ghost use Rattle.po_base.specs.declared.token.Token.{Token};
ghost use Rattle.po_tree.specs.InForce.{InForce};
ghost use Rattle.po_exp_parts.specs.Places.{signs_between};
ghost use Rattle.po_decl_steps.specs.declared.levels.Owner.TheVariants as of;
ghost use Rattle.po_decl_steps.specs.declared.levels.Focus.TheVariants as wanted;
ghost use Rattle.po_decl_steps.specs.Completing.{Outside, body};
ghost use Rattle.po_decl_steps.specs.Steps.{MembersWanted};
ghost use Rattle.po_decl_states.specs.Going.{Goes, GetsOn, Completed};

use crate::state::{State, Step};
use po_base::{List, Memory, Text, Tokens};
use po_decl_parts::{Seen, stands};
use po_decl_steps::{Focus, Level, Owner};
use po_tree::{Declarator, Member, Specifier};
use std::alloc::Global;

/// Closes the body of a struct, which is a specifier of the level around it.
fn close_body(
    below: List<Level>,
    tag: Option<Text>,
    members: List<Member>,
    at: u32,
    lists: u32,
) -> Result<Step, Memory>
    ensures goes { (tokens : Sequence Token) (to : ℕ) (names : InForce) → IfOk result (Goes (λ outers types y left. Outside y left (reverse below) outers (body tag members types) (signs_between tokens at to)) tokens to lists names names) }
    ensures on { (tokens : Sequence Token) (to : ℕ) → IfOk result (GetsOn tokens to at lists (3 * (length tokens - at) + 3)) }
{
    let mut below = below;
    let Some(level) = below.pop() else {
        return Ok(Step::Stuck);
    };
    let Level {
        specs,
        free,
        owner,
        ..
    } = level;
    let mut specs = specs;
    specs.push(Specifier::Struct(tag, Some(members)))?;
    Ok(Step::Next(State {
        below,
        level: Level {
            specs,
            free,
            seen: Seen::Name,
            owner,
        },
        focus: Focus::Specifiers,
        at,
        lists,
    }))
}

/// Goes on behind a whole member: a further one is wanted, or the body closes.
fn go_past_member(
    alloc: Global,
    tokens: &Tokens,
    to: u32,
    below: List<Level>,
    tag: Option<Text>,
    members: List<Member>,
    at: u32,
    lists: u32,
) -> Result<Step, Memory>
    ensures goes { (names : InForce) → IfOk result (Goes (λ outers types. MembersWanted (reverse below) outers tag members types (signs_between tokens.now.list at to)) tokens.now.list to lists names names) }
    ensures on { IfOk result (GetsOn tokens.now.list to at lists (3 * (length tokens.now.list - at) + 3)) }
{
    if stands(tokens, at, to, b"}") {
        return close_body(below, tag, members, at + 1, lists);
    }
    Ok(Step::Next(State {
        below,
        level: Level {
            specs: List::new(alloc),
            free: false,
            seen: Seen::Nothing,
            owner: Owner::Member(tag, members, List::new(alloc)),
        },
        focus: Focus::Specifiers,
        at,
        lists,
    }))
}

/// Takes a step behind a declarator of a member.
pub fn take_member(
    alloc: Global,
    tokens: &Tokens,
    to: u32,
    below: List<Level>,
    specs: List<Specifier>,
    free: bool,
    seen: Seen,
    tag: Option<Text>,
    members: List<Member>,
    declarators: List<Declarator>,
    item: Declarator,
    at: u32,
    lists: u32,
) -> Result<Step, Memory>
    ensures goes { (names : InForce) → IfOk result (Goes (Completed tokens.now.list to (record { below = below; level = record { specs = specs; free = free; seen = seen; owner = of.Member tag members declarators }; focus = wanted.Behind item; at = at; lists = lists })) tokens.now.list to lists names names) }
    ensures on { IfOk result (GetsOn tokens.now.list to at lists (3 * (length tokens.now.list - at))) }
{
    let mut declarators = declarators;
    declarators.push(item)?;
    if stands(tokens, at, to, b",") {
        return Ok(Step::Next(State {
            below,
            level: Level {
                specs,
                free,
                seen,
                owner: Owner::Member(tag, members, declarators),
            },
            focus: Focus::Declarator,
            at: at + 1,
            lists,
        }));
    }
    if !stands(tokens, at, to, b";") {
        return Ok(Step::Stuck);
    }
    let mut members = members;
    members.push(Member { specs, declarators })?;
    go_past_member(alloc, tokens, to, below, tag, members, at + 1, lists)
}
