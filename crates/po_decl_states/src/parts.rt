// Steps behind a declarator of a declaration: its word, its initialiser, and what separates or ends declarators (C99 6.7).
ghost use Rattle.std.specs.Prelude.{ℕ, ◌≡◌, ◌≤◌, ◌<◌, ◌+◌, ◌*◌, ◌-◌, ◌∷◌, ◌++◌, [], Bool, reverse, length, IfOk, IfSome, IfNone, List as Sequence};
ghost use Rattle.po_tree.specs.declared.declaration.Decl.{Decl as Tree};
ghost use Rattle.po_tree.specs.declared.declaration.Init.{Init as Value};
ghost use Rattle.po_tree.specs.declared.expression.Declarator.{Declarator as Item};
ghost use Rattle.po_tree.specs.declared.expression.Specifier.{Specifier as Spec};
ghost use Rattle.po_tree.specs.Expressions.{Typed};
ghost use Rattle.po_tree.specs.InForce.{InForce};
ghost use Rattle.po_tree.specs.NameSets.{AreSame};
ghost use Rattle.po_tree.specs.Signs.{Sign};
ghost use Rattle.po_exp_parts.specs.Places.{signs_between};
ghost use Rattle.po_exp_parts.specs.Seen.{typed};
ghost use Rattle.po_decl_steps.specs.declared.levels.Owner.TheVariants as of;
ghost use Rattle.po_decl_steps.specs.declared.levels.Focus.TheVariants as wanted;
ghost use Rattle.po_decl_steps.specs.Completing.{declares};
ghost use Rattle.po_decl_steps.specs.Steps.{ValueWanted, PartsWanted};
ghost use Rattle.po_decl_states.specs.Going.{Goes, GetsOn, Completed};
ghost use Rattle.po_decl_states.specs.Values.{ValueRead, NoValue};

use crate::state::{State, Step};
use crate::words::agrees;
use po_base::{List, Memory, Text, Tokens};
use po_decl_parts::{Seen, stands};
use po_decl_steps::{Focus, Level, Owner};
use po_init_read::{one_initialiser_before_an_end, read_init};
use po_tree::{Decl, Declarator, Init, Names, Specifier};
use std::alloc::Global;

/// Brings a declared word into force, as a typedef name or as one that hides a typedef name (C99 6.2.1p7).
fn declare_word(names: &mut Names, typedef: bool, word: &Text) -> Result<(), Memory>
    ensures same { (types : Sequence (Sequence ℕ)) → AreSame types names.old.typedefs → IfOk result (λ _. AreSame (declares typedef word.now types) names.new.typedefs) }
    ensures kept { IfOk result (λ _. (names.new.tags ≡ names.old.tags) × (names.new.outer ≡ names.old.outer)) }
{
    if typedef {
        return names.declare_type(word);
    }
    names.hide(word)
}

/// The initialiser at a place where one is written there, and the place behind it; None where `=` stands and no initialiser (C99 6.7.8).
fn value_at(
    alloc: Global,
    tokens: &Tokens,
    at: u32,
    to: u32,
    names: &Names,
) -> Result<Option<(Option<Init>, u32)>, Memory>
    ensures found { (types : Sequence (Sequence ℕ)) → AreSame types names.now.typedefs → IfOk result (λ found. IfSome found (λ p. ValueRead types (signs_between tokens.now.list at to) p.0 (signs_between tokens.now.list p.1 to))) }
    ensures within { IfOk result (λ found. IfSome found (λ p. at ≤ p.1)) }
    ensures none { (types : Sequence (Sequence ℕ)) → AreSame types names.now.typedefs → IfOk result (λ found. IfNone found (NoValue types (signs_between tokens.now.list at to))) }
{
    if !stands(tokens, at, to, b"=") {
        return Ok(Some((None, at)));
    }
    let Some((value, end)) = read_init(alloc, tokens, at + 1, to, names)? else {
        return Ok(None);
    };
    Ok(Some((Some(value), end)))
}

/// Goes on behind the parts of a declaration so far: a further declarator is wanted, or the declaration is whole.
fn go_past_part(
    tokens: &Tokens,
    to: u32,
    below: List<Level>,
    specs: List<Specifier>,
    free: bool,
    seen: Seen,
    typedef: bool,
    parts: List<(Declarator, Option<Init>)>,
    at: u32,
    lists: u32,
) -> Step
    ensures goes { (names : InForce) → Goes (λ outers types. PartsWanted specs (typed seen) typedef parts types (signs_between tokens.now.list at to)) tokens.now.list to lists names names result }
    ensures on { GetsOn tokens.now.list to at lists (3 * (length tokens.now.list - at)) result }
{
    if stands(tokens, at, to, b",") {
        return Step::Next(State {
            below,
            level: Level {
                specs,
                free,
                seen,
                owner: Owner::Declaration(typedef, parts),
            },
            focus: Focus::Declarator,
            at: at + 1,
            lists,
        });
    }
    if !stands(tokens, at, to, b";") {
        return Step::Stuck;
    }
    if !agrees(specs.as_slice(), typedef) {
        return Step::Stuck;
    }
    Step::Whole(Decl { specs, parts }, at + 1)
}

/// Reads what stands behind a declarator of a declaration whose word is in force.
fn read_part(
    alloc: Global,
    tokens: &Tokens,
    to: u32,
    names: &Names,
    below: List<Level>,
    specs: List<Specifier>,
    free: bool,
    seen: Seen,
    typedef: bool,
    parts: List<(Declarator, Option<Init>)>,
    item: Declarator,
    at: u32,
    lists: u32,
) -> Result<Step, Memory>
    ensures goes { IfOk result (Goes (λ outers types. ValueWanted specs (typed seen) typedef parts item types (signs_between tokens.now.list at to)) tokens.now.list to lists names.now names.now) }
    ensures on { IfOk result (GetsOn tokens.now.list to at lists (3 * (length tokens.now.list - at))) }
{
    one_initialiser_before_an_end();
    let Some((value, end)) = value_at(alloc, tokens, at, to, names)? else {
        return Ok(Step::Stuck);
    };
    let mut parts = parts;
    parts.push((item, value))?;
    Ok(go_past_part(
        tokens, to, below, specs, free, seen, typedef, parts, end, lists,
    ))
}

/// Takes a step behind a declarator of a declaration.
pub fn take_part(
    alloc: Global,
    tokens: &Tokens,
    to: u32,
    names: &mut Names,
    below: List<Level>,
    specs: List<Specifier>,
    free: bool,
    seen: Seen,
    typedef: bool,
    parts: List<(Declarator, Option<Init>)>,
    item: Declarator,
    at: u32,
    lists: u32,
) -> Result<Step, Memory>
    ensures goes { IfOk result (Goes (Completed tokens.now.list to (record { below = below; level = record { specs = specs; free = free; seen = seen; owner = of.Declaration typedef parts }; focus = wanted.Behind item; at = at; lists = lists })) tokens.now.list to lists names.old names.new) }
    ensures on { IfOk result (GetsOn tokens.now.list to at lists (3 * (length tokens.now.list - at))) }
{
    let Some(word) = &item.name else {
        return Ok(Step::Stuck);
    };
    declare_word(names, typedef, word)?;
    read_part(
        alloc, tokens, to, names, below, specs, free, seen, typedef, parts, item, at, lists,
    )
}
