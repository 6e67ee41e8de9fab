// Steps behind a parameter: further parameters, and the end of their list (C99 6.7.5.3).
ghost use Rattle.std.specs.Prelude.{ℕ, ◌≡◌, ◌≤◌, ◌<◌, ◌+◌, ◌*◌, ◌-◌, [], ◌∷◌, Bool, reverse, length, IfOk, List as Sequence};
ghost use Rattle.po_base.specs.declared.token.Token.{Token};
ghost use Rattle.po_tree.specs.NameSets.{AreSame};
ghost use Rattle.po_tree.specs.Signs.{comma};
ghost use Rattle.po_exp_parts.specs.Places.{signs_between};
ghost use Rattle.po_decl_steps.specs.declared.levels.Owner.TheVariants as of;
ghost use Rattle.po_decl_steps.specs.declared.levels.Focus.TheVariants as wanted;
ghost use Rattle.po_decl_steps.specs.Completing.{Outside, list, hidden};
ghost use Rattle.po_decl_steps.specs.Steps.{ParamsWanted};
ghost use Rattle.po_decl_states.specs.Going.{Goes, GetsOn, Completed};

use crate::state::{State, Step};
use po_base::{List, Memory, Text, Tokens};
use po_decl_parts::{Seen, stands};
use po_decl_steps::{Focus, Level, Owner};
use po_tree::{Declarator, Names, Param, Specifier, Suffix};
use std::alloc::Global;

/// Hides a typedef name that a parameter's word is, where it has one.
fn hide_word(names: &mut Names, word: &Option<Text>) -> Result<(), Memory>
    ensures same { (types : Sequence (Sequence ℕ)) → AreSame types names.old.typedefs → IfOk result (λ _. AreSame (hidden word.now types) names.new.typedefs) }
    ensures kept { IfOk result (λ _. (names.new.tags ≡ names.old.tags) × (names.new.outer ≡ names.old.outer)) }
{
    match word {
        Some(word) => names.hide(word),
        None => Ok(()),
    }
}

/// Closes a list of parameters with its scope: it ends the declarator that it belongs to.
fn close_list(
    names: &mut Names,
    below: List<Level>,
    stars: List<List<Text>>,
    word: Option<Text>,
    params: List<Param>,
    more: bool,
    at: u32,
    lists: u32,
) -> Result<Step, Memory>
    requires { names.old.outer ≡ [] → ⊥ }
    ensures goes { (tokens : Sequence Token) (to : ℕ) → IfOk result (Goes (λ outers types y left. Outside y left (reverse below) outers (list stars word params more) (signs_between tokens at to)) tokens to lists names.old names.new) }
    ensures on { (tokens : Sequence Token) (to : ℕ) → IfOk result (GetsOn tokens to at lists (3 * (length tokens - at) + 1)) }
{
    if lists == 0 {
        return Ok(Step::Stuck);
    }
    let mut below = below;
    let Some(level) = below.pop() else {
        return Ok(Step::Stuck);
    };
    names.close_scope()?;
    Ok(Step::Next(State {
        below,
        level,
        focus: Focus::Behind(Declarator {
            stars,
            name: word,
            suffix: Suffix::Params(params, more),
        }),
        at,
        lists: lists - 1,
    }))
}

/// Goes on behind a comma between parameters: a further one is wanted, or dots stand there and the list closes.
fn go_past_comma(
    alloc: Global,
    tokens: &Tokens,
    to: u32,
    names: &mut Names,
    below: List<Level>,
    stars: List<List<Text>>,
    word: Option<Text>,
    params: List<Param>,
    at: u32,
    lists: u32,
) -> Result<Step, Memory>
    requires { names.old.outer ≡ [] → ⊥ }
    ensures goes { IfOk result (Goes (λ outers types. ParamsWanted (reverse below) outers stars word params types (comma ∷ signs_between tokens.now.list at to)) tokens.now.list to lists names.old names.new) }
    ensures on { IfOk result (GetsOn tokens.now.list to at lists (3 * (length tokens.now.list - at) + 3)) }
{
    if !stands(tokens, at, to, b"...") {
        return Ok(Step::Next(State {
            below,
            level: Level {
                specs: List::new(alloc),
                free: true,
                seen: Seen::Nothing,
                owner: Owner::Param(stars, word, params),
            },
            focus: Focus::Specifiers,
            at,
            lists,
        }));
    }
    let behind = at + 1;
    if !stands(tokens, behind, to, b")") {
        return Ok(Step::Stuck);
    }
    close_list(names, below, stars, word, params, true, behind + 1, lists)
}

/// Goes on behind a whole parameter: the list closes, or a comma stands there.
fn go_past_param(
    alloc: Global,
    tokens: &Tokens,
    to: u32,
    names: &mut Names,
    below: List<Level>,
    stars: List<List<Text>>,
    word: Option<Text>,
    params: List<Param>,
    at: u32,
    lists: u32,
) -> Result<Step, Memory>
    requires { names.old.outer ≡ [] → ⊥ }
    ensures goes { IfOk result (Goes (λ outers types. ParamsWanted (reverse below) outers stars word params types (signs_between tokens.now.list at to)) tokens.now.list to lists names.old names.new) }
    ensures on { IfOk result (GetsOn tokens.now.list to at lists (3 * (length tokens.now.list - at))) }
{
    if stands(tokens, at, to, b")") {
        return close_list(names, below, stars, word, params, false, at + 1, lists);
    }
    if !stands(tokens, at, to, b",") {
        return Ok(Step::Stuck);
    }
    let behind = at + 1;
    go_past_comma(
        alloc, tokens, to, names, below, stars, word, params, behind, lists,
    )
}

/// Takes a step behind the declarator of a parameter.
pub fn take_param(
    alloc: Global,
    tokens: &Tokens,
    to: u32,
    names: &mut Names,
    below: List<Level>,
    specs: List<Specifier>,
    free: bool,
    seen: Seen,
    stars: List<List<Text>>,
    word: Option<Text>,
    params: List<Param>,
    item: Declarator,
    at: u32,
    lists: u32,
) -> Result<Step, Memory>
    requires { names.old.outer ≡ [] → ⊥ }
    ensures goes { IfOk result (Goes (Completed tokens.now.list to (record { below = below; level = record { specs = specs; free = free; seen = seen; owner = of.Param stars word params }; focus = wanted.Behind item; at = at; lists = lists })) tokens.now.list to lists names.old names.new) }
    ensures on { IfOk result (GetsOn tokens.now.list to at lists (3 * (length tokens.now.list - at))) }
{
    hide_word(names, &item.name)?;
    let mut params = params;
    params.push(Param {
        specs,
        declarator: item,
    })?;
    go_past_param(
        alloc, tokens, to, names, below, stars, word, params, at, lists,
    )
}
