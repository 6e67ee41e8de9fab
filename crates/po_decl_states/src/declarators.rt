// Steps through a declarator: its stars, its word, its sizes or its list of parameters (C99 6.7.5).
ghost use Rattle.std.specs.Prelude.{ℕ, ◌≡◌, ◌≤◌, ◌<◌, ◌+◌, ◌*◌, ◌-◌, ◌∷◌, [], reverse, length, IfOk, List as Sequence};
ghost use Rattle.po_base.specs.declared.token.Token.{Token};
ghost use Rattle.po_tree.specs.Signs.{opening, closing};
ghost use Rattle.po_exp_parts.specs.Finding.{suffix_of};
ghost use Rattle.po_exp_parts.specs.Places.{signs_between, Begins, BeginsName};
ghost use Rattle.po_decl_steps.specs.declared.levels.Focus.TheVariants as wanted;
ghost use Rattle.po_decl_steps.specs.Steps.{WordWanted, SuffixWanted};
ghost use Rattle.po_decl_states.specs.Going.{Goes, GetsOn, Completed};

use crate::state::{State, Step};
use crate::words::{is_declared, is_parameter};
use po_base::{List, Memory, Text, Tokens};
use po_decl_parts::{Seen, name_at, sizes_at, stands, stars_at};
use po_decl_steps::{Focus, Level, Owner};
use po_tree::{Declarator, Exp, Names, Suffix};
use std::alloc::Global;

/// What stands behind a declarator's word where no list of parameters opens: sizes, or nothing.
fn suffix(sizes: List<Option<Exp>>) -> Suffix
    ensures { result ≡ suffix_of sizes }
{
    if sizes.is_empty() {
        return Suffix::Plain;
    }
    Suffix::Arrays(sizes)
}

/// Reads the sizes behind a declarator's word, which end the declarator (C99 6.7.5.2).
fn read_sizes(
    alloc: Global,
    tokens: &Tokens,
    to: u32,
    names: &Names,
    below: List<Level>,
    level: Level,
    stars: List<List<Text>>,
    word: Option<Text>,
    at: u32,
    lists: u32,
) -> Result<Step, Memory>
    ensures goes { (Begins opening (signs_between tokens.now.list at to) → ⊥) → IfOk result (Goes (λ outers types. SuffixWanted (reverse below) level stars word outers types (signs_between tokens.now.list at to)) tokens.now.list to lists names.now names.now) }
    ensures on { IfOk result (GetsOn tokens.now.list to at lists (3 * (length tokens.now.list - at) + 1)) }
{
    let Some((sizes, end)) = sizes_at(alloc, tokens, at, to, names)? else {
        return Ok(Step::Stuck);
    };
    Ok(Step::Next(State {
        below,
        level,
        focus: Focus::Behind(Declarator {
            stars,
            name: word,
            suffix: suffix(sizes),
        }),
        at: end,
        lists,
    }))
}

/// Opens a list of parameters, with a scope of its own (C99 6.2.1, 6.7.5.3): its first parameter is wanted.
fn open_list(
    alloc: Global,
    names: &mut Names,
    below: List<Level>,
    level: Level,
    stars: List<List<Text>>,
    word: Option<Text>,
    at: u32,
    lists: u32,
) -> Result<Step, Memory>
    requires { lists < at }
    ensures goes { (tokens : Sequence Token) (to : ℕ) → (Begins closing (signs_between tokens at to) → ⊥) → IfOk result (Goes (λ outers types. SuffixWanted (reverse below) level stars word outers types (opening ∷ signs_between tokens at to)) tokens to lists names.old names.new) }
    ensures on { (tokens : Sequence Token) (to : ℕ) → at ≤ length tokens → IfOk result (GetsOn tokens to (at - 1) lists (3 * (length tokens - at) + 4)) }
{
    names.open_scope()?;
    let mut below = below;
    below.push(level)?;
    Ok(Step::Next(State {
        below,
        level: Level {
            specs: List::new(alloc),
            free: true,
            seen: Seen::Nothing,
            owner: Owner::Param(stars, word, List::new(alloc)),
        },
        focus: Focus::Specifiers,
        at,
        lists: lists + 1,
    }))
}

/// Reads what stands behind a declarator's word: sizes, an empty list of parameters, or the opening of a list.
fn read_suffix(
    alloc: Global,
    tokens: &Tokens,
    to: u32,
    names: &mut Names,
    below: List<Level>,
    level: Level,
    stars: List<List<Text>>,
    word: Option<Text>,
    at: u32,
    lists: u32,
) -> Result<Step, Memory>
    requires { lists ≤ at }
    ensures goes { IfOk result (Goes (λ outers types. SuffixWanted (reverse below) level stars word outers types (signs_between tokens.now.list at to)) tokens.now.list to lists names.old names.new) }
    ensures on { IfOk result (GetsOn tokens.now.list to at lists (3 * (length tokens.now.list - at) + 1)) }
{
    if !stands(tokens, at, to, b"(") {
        return read_sizes(
            alloc, tokens, to, names, below, level, stars, word, at, lists,
        );
    }
    let inside = at + 1;
    if !stands(tokens, inside, to, b")") {
        return open_list(alloc, names, below, level, stars, word, inside, lists);
    }
    Ok(Step::Next(State {
        below,
        level,
        focus: Focus::Behind(Declarator {
            stars,
            name: word,
            suffix: Suffix::Params(List::new(alloc), false),
        }),
        at: inside + 1,
        lists,
    }))
}

/// Reads a declarator behind its stars where no word stands, which may be missing in a parameter.
fn read_unnamed(
    alloc: Global,
    tokens: &Tokens,
    to: u32,
    names: &mut Names,
    below: List<Level>,
    level: Level,
    stars: List<List<Text>>,
    at: u32,
    lists: u32,
) -> Result<Step, Memory>
    requires { lists ≤ at }
    ensures goes { ((text : Sequence ℕ) → BeginsName text (signs_between tokens.now.list at to) → ⊥) → IfOk result (Goes (λ outers types. WordWanted (reverse below) level stars outers types (signs_between tokens.now.list at to)) tokens.now.list to lists names.old names.new) }
    ensures on { IfOk result (GetsOn tokens.now.list to at lists (3 * (length tokens.now.list - at) + 1)) }
{
    if !is_parameter(&level.owner) {
        return Ok(Step::Stuck);
    }
    read_suffix(
        alloc, tokens, to, names, below, level, stars, None, at, lists,
    )
}

/// Reads a declarator behind its stars: its word, where it may be declared, and what stands behind it.
fn read_word(
    alloc: Global,
    tokens: &Tokens,
    to: u32,
    names: &mut Names,
    below: List<Level>,
    level: Level,
    stars: List<List<Text>>,
    at: u32,
    lists: u32,
) -> Result<Step, Memory>
    requires { lists ≤ at }
    ensures goes { IfOk result (Goes (λ outers types. WordWanted (reverse below) level stars outers types (signs_between tokens.now.list at to)) tokens.now.list to lists names.old names.new) }
    ensures on { IfOk result (GetsOn tokens.now.list to at lists (3 * (length tokens.now.list - at) + 1)) }
{
    let Some(text) = name_at(tokens, at, to) else {
        return read_unnamed(alloc, tokens, to, names, below, level, stars, at, lists);
    };
    if !is_declared(text, level.seen, names) {
        return Ok(Step::Stuck);
    }
    let word = Some(text.share()?);
    let behind = at + 1;
    read_suffix(
        alloc, tokens, to, names, below, level, stars, word, behind, lists,
    )
}

/// Takes a step through a declarator: to its end, or into its list of parameters.
pub fn take_declarator(
    alloc: Global,
    tokens: &Tokens,
    to: u32,
    names: &mut Names,
    below: List<Level>,
    level: Level,
    at: u32,
    lists: u32,
) -> Result<Step, Memory>
    requires { lists ≤ at }
    ensures goes { IfOk result (Goes (Completed tokens.now.list to (record { below = below; level = level; focus = wanted.Declarator; at = at; lists = lists })) tokens.now.list to lists names.old names.new) }
    ensures on { IfOk result (GetsOn tokens.now.list to at lists (3 * (length tokens.now.list - at) + 1)) }
{
    let (stars, behind) = stars_at(alloc, tokens, at, to)?;
    read_word(alloc, tokens, to, names, below, level, stars, behind, lists)
}
