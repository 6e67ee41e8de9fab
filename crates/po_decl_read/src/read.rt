// The reader of a declaration: one step after the other.
ghost use Rattle.std.specs.Prelude.{ℕ, ◌≡◌, ◌≤◌, ◌<◌, [], true, false, length, drop, IfOk, IfSome, IfNone, List as Sequence};
ghost use Rattle.po_tree.specs.declared.declaration.Decl.{Decl as Tree};
ghost use Rattle.po_tree.specs.Signs.{Sign};
ghost use Rattle.po_exp_parts.specs.Places.{signs_between};
ghost use Rattle.po_exp_parts.specs.declared.seen.Seen.TheVariants as seen;
ghost use Rattle.po_decl_steps.specs.declared.levels.Owner.TheVariants as of;
ghost use Rattle.po_decl_steps.specs.declared.levels.Focus.TheVariants as wanted;
ghost use Rattle.po_decl_steps.specs.Standing.{DeclarationStands};

use po_base::{List, Memory, Tokens};
use po_decl_parts::Seen;
use po_decl_states::{State, Step, take_step};
use po_decl_steps::{Focus, Level, Owner, nothing_read_is_completed};
use po_tree::{Decl, Names};
use std::alloc::Global;

/// Closes the innermost scopes, as many as there are lists of parameters.
fn close_lists(names: &mut Names, lists: u32) -> Result<(), Memory>
    requires { lists ≤ length names.old.outer }
    ensures { IfOk result (λ _. names.new.outer ≡ drop lists names.old.outer) }
{
    let mut left = lists;
    while left > 0 {
        names.close_scope()?;
        left = left - 1;
    }
    Ok(())
}

/// The state where nothing was read.
fn begin(alloc: Global, at: u32) -> State
    ensures { result ≡ record { below = []; level = record { specs = []; free = true; seen = seen.Nothing; owner = of.Declaration false [] }; focus = wanted.Specifiers; at = at; lists = 0 } }
{
    State {
        below: List::new(alloc),
        level: Level {
            specs: List::new(alloc),
            free: true,
            seen: Seen::Nothing,
            owner: Owner::Declaration(false, List::new(alloc)),
        },
        focus: Focus::Specifiers,
        at,
        lists: 0,
    }
}

/// Takes steps to the end, and closes the scopes of the lists of parameters that are still open there.
fn read_inside(
    alloc: Global,
    tokens: &Tokens,
    from: u32,
    to: u32,
    names: &mut Names,
) -> Result<Option<(Decl, u32)>, Memory>
    requires { names.old.outer ≡ [] → ⊥ }
    ensures found { IfOk result (λ found. IfSome found (λ p. DeclarationStands names.old.typedefs (signs_between tokens.now.list from to) p.0 (signs_between tokens.now.list p.1 to))) }
    ensures within { IfOk result (λ found. IfSome found (λ p. (from < p.1) × (p.1 ≤ to) × (p.1 ≤ length tokens.now.list))) }
    ensures none { IfOk result (λ found. IfNone found ((d : Tree) (left : Sequence Sign) → DeclarationStands names.old.typedefs (signs_between tokens.now.list from to) d left → ⊥)) }
    ensures kept { IfOk result (λ _. names.new.outer ≡ names.old.outer) }
{
    nothing_read_is_completed();
    let mut state = begin(alloc, from);
    loop {
        let open = state.lists;
        match take_step(alloc, tokens, to, names, state)? {
            Step::Next(next) => state = next,
            Step::Whole(d, end) => {
                close_lists(names, open)?;
                return Ok(Some((d, end)));
            }
            Step::Stuck => {
                close_lists(names, open)?;
                return Ok(None);
            }
        }
    }
}

/// The declaration that stands in `tokens` from the place `from` on, with its semicolon before the place `to`, and the place behind it;
/// None exactly where none stands there. `names` are the names in force; they are as before, also behind None.
pub fn read_decl_at(
    alloc: Global,
    tokens: &Tokens,
    from: u32,
    to: u32,
    names: &mut Names,
) -> Result<Option<(Decl, u32)>, Memory>
    ensures found { IfOk result (λ found. IfSome found (λ p. DeclarationStands names.old.typedefs (signs_between tokens.now.list from to) p.0 (signs_between tokens.now.list p.1 to))) }
    ensures within { IfOk result (λ found. IfSome found (λ p. (from < p.1) × (p.1 ≤ to) × (p.1 ≤ length tokens.now.list))) }
    ensures none { IfOk result (λ found. IfNone found ((d : Tree) (left : Sequence Sign) → DeclarationStands names.old.typedefs (signs_between tokens.now.list from to) d left → ⊥)) }
    ensures kept { IfOk result (λ _. names.new ≡ names.old) }
{
    names.open_scope()?;
    let found = read_inside(alloc, tokens, from, to, names)?;
    names.close_scope()?;
    Ok(found)
}
