// One step of the reader of a declaration.
ghost use Rattle.std.specs.Prelude.{◌≡◌, ◌≤◌, ◌*◌, ◌-◌, [], length, IfOk};
ghost use Rattle.po_decl_steps.specs.declared.levels.Focus.TheVariants as wanted;
ghost use Rattle.po_decl_states.specs.Going.{Goes, GetsOn, Completed, remaining};

use crate::declarators::take_declarator;
use crate::members::take_member;
use crate::params::take_param;
use crate::parts::take_part;
use crate::specifiers::take_specifier;
use crate::state::{State, Step};
use po_base::{List, Memory, Tokens};
use po_decl_steps::{Focus, Level, Owner};
use po_tree::{Declarator, Names};
use std::alloc::Global;

/// Takes a step behind a declarator.
fn go_past_declarator(
    alloc: Global,
    tokens: &Tokens,
    to: u32,
    names: &mut Names,
    below: List<Level>,
    level: Level,
    item: Declarator,
    at: u32,
    lists: u32,
) -> Result<Step, Memory>
    requires { names.old.outer ≡ [] → ⊥ }
    ensures goes { IfOk result (Goes (Completed tokens.now.list to (record { below = below; level = level; focus = wanted.Behind item; at = at; lists = lists })) tokens.now.list to lists names.old names.new) }
    ensures on { IfOk result (GetsOn tokens.now.list to at lists (3 * (length tokens.now.list - at))) }
{
    let Level {
        specs,
        free,
        seen,
        owner,
    } = level;
    match owner {
        Owner::Declaration(typedef, parts) => take_part(
            alloc, tokens, to, names, below, specs, free, seen, typedef, parts, item, at, lists,
        ),
        Owner::Member(tag, members, declarators) => take_member(
            alloc,
            tokens,
            to,
            below,
            specs,
            free,
            seen,
            tag,
            members,
            declarators,
            item,
            at,
            lists,
        ),
        Owner::Param(stars, word, params) => take_param(
            alloc, tokens, to, names, below, specs, free, seen, stars, word, params, item, at,
            lists,
        ),
    }
}

/// Takes a step: what goes on from the state is what goes on from the state behind it, a declaration is whole, or nothing goes on. A list of
/// parameters that opens opens a scope of the names, and one that closes closes it.
///
/// Each step leaves fewer. Time is linear in the tokens that it passes, but for the search of names. After `Memory` the names are to be given
/// up; so they are after the others but for their scopes.
pub fn take_step(
    alloc: Global,
    tokens: &Tokens,
    to: u32,
    names: &mut Names,
    state: State,
) -> Result<Step, Memory>
    requires { (names.old.outer ≡ [] → ⊥) × (state.lists ≤ state.at) }
    ensures goes { IfOk result (Goes (Completed tokens.now.list to state) tokens.now.list to state.lists names.old names.new) }
    ensures on { IfOk result (GetsOn tokens.now.list to state.at state.lists (remaining tokens.now.list state)) }
{
    let State {
        below,
        level,
        focus,
        at,
        lists,
    } = state;
    match focus {
        Focus::Specifiers => take_specifier(alloc, tokens, to, names, below, level, at, lists),
        Focus::Declarator => take_declarator(alloc, tokens, to, names, below, level, at, lists),
        Focus::Behind(item) => {
            go_past_declarator(alloc, tokens, to, names, below, level, item, at, lists)
        }
    }
}
