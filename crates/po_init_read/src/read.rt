// The reader of initialisers (C99 6.7.8): a loop over its steps, without recursion.
ghost use Rattle.std.specs.Prelude.{ℕ, ◌≡◌, ◌≤◌, ◌∷◌, ◌++◌, [], length, IfOk, IfSome, IfNone, Some, None, List as Sequence};
ghost use Rattle.po_tree.specs.declared.declaration.Init.{Init as Tree};
ghost use Rattle.po_tree.specs.Signs.{Sign};
ghost use Rattle.po_exp_parts.specs.Places.{signs_between};
ghost use Rattle.po_init_read.specs.Initialisers.{StandsEnded, NoneStandsEnded};
ghost use Rattle.po_init_read.specs.Completing.{Goes};

use po_base::{List, Memory, Tokens};
use po_exp_parts::ranges::{ends, stands};
use po_exp_read::{Level, one_tree_before_an_end, read_exp_at};
use po_tree::{Init, Names};
use std::alloc::Global;

/// Where the reader stands.
#[derive(Drop)]
struct State {
    /// The items so far of each open brace, the innermost last.
    braces: List<List<Init>>,
    /// The initialiser that was read last; None where one is wanted.
    last: Option<Init>,
    /// The place of the next token.
    at: u32,
}

/// What a step comes to.
#[derive(Drop)]
enum Step {
    Next(State),
    /// The whole initialiser, and the place of its end.
    Whole(Init, u32),
    Stuck,
}

/// Opens a brace, or reads the expression at a place.
fn begin(
    alloc: Global,
    tokens: &Tokens,
    to: u32,
    names: &Names,
    braces: List<List<Init>>,
    at: u32,
) -> Result<Step, Memory>
    ensures { IfOk result (λ step. Goes names.now.typedefs tokens.now.list to (record { braces = braces; last = None; at = at }) step) }
{
    if stands(tokens, at, to, b"{") {
        let mut braces = braces;
        braces.push(List::new(alloc))?;
        return Ok(Step::Next(State {
            braces,
            last: None,
            at: at + 1,
        }));
    }
    one_tree_before_an_end();
    match read_exp_at(alloc, tokens, at, to, names, Level::Assignment)? {
        Some((x, end)) => Ok(Step::Next(State {
            braces,
            last: Some(Init::One(x)),
            at: end,
        })),
        None => Ok(Step::Stuck),
    }
}

/// Goes on in braces whose last item was read: closes them, or goes past a comma.
fn go_on_inside(
    tokens: &Tokens,
    to: u32,
    braces: List<List<Init>>,
    items: List<Init>,
    at: u32,
) -> Result<Step, Memory>
    ensures { (types : Sequence (Sequence ℕ)) (before : Sequence Tree) (x : Tree) → items ≡ before ++ x ∷ [] → IfOk result (λ step. Goes types tokens.now.list to (record { braces = braces ++ before ∷ []; last = Some x; at = at }) step) }
{
    if stands(tokens, at, to, b"}") {
        return Ok(Step::Next(State {
            braces,
            last: Some(Init::Many(items, false)),
            at: at + 1,
        }));
    }
    if !stands(tokens, at, to, b",") {
        return Ok(Step::Stuck);
    }
    if stands(tokens, at + 1, to, b"}") {
        return Ok(Step::Next(State {
            braces,
            last: Some(Init::Many(items, true)),
            at: at + 2,
        }));
    }
    let mut braces = braces;
    braces.push(items)?;
    Ok(Step::Next(State {
        braces,
        last: None,
        at: at + 1,
    }))
}

/// Takes an initialiser that was read into the innermost brace; where none is open it is whole before an end.
fn go_on(
    tokens: &Tokens,
    to: u32,
    braces: List<List<Init>>,
    x: Init,
    at: u32,
) -> Result<Step, Memory>
    ensures { (types : Sequence (Sequence ℕ)) → IfOk result (λ step. Goes types tokens.now.list to (record { braces = braces; last = Some x; at = at }) step) }
{
    let mut braces = braces;
    match braces.pop() {
        Some(items) => {
            let mut items = items;
            items.push(x)?;
            go_on_inside(tokens, to, braces, items, at)
        }
        None => {
            if !ends(tokens, at, to) {
                return Ok(Step::Stuck);
            }
            Ok(Step::Whole(x, at))
        }
    }
}

/// Takes a step.
fn take_step(
    alloc: Global,
    tokens: &Tokens,
    to: u32,
    names: &Names,
    state: State,
) -> Result<Step, Memory>
    ensures { IfOk result (λ step. Goes names.now.typedefs tokens.now.list to state step) }
{
    let State { braces, last, at } = state;
    match last {
        Some(x) => go_on(tokens, to, braces, x, at),
        None => begin(alloc, tokens, to, names, braces, at),
    }
}

/// The well-formed initialiser that stands in `tokens` from the place `from` on with an end behind it, which is a comma, a
/// semicolon, a colon or a closing parenthesis, bracket or brace before the place `to`, and the place of that end; None exactly
/// where none stands there. `names` are the names in force.
///
/// No path of the tree has more than 256 expressions; braces aren't counted. Time is linear in the tokens that are looked at, but for
/// the search of names, as in [`read_exp_at`]. The stack doesn't grow with the braces. `Memory` where memory is refused.
pub fn read_init(
    alloc: Global,
    tokens: &Tokens,
    from: u32,
    to: u32,
    names: &Names,
) -> Result<Option<(Init, u32)>, Memory>
    ensures found { IfOk result (λ found. IfSome found (λ p. StandsEnded names.now.typedefs (signs_between tokens.now.list from to) p.0 (signs_between tokens.now.list p.1 to))) }
    ensures within { IfOk result (λ found. IfSome found (λ p. (from ≤ p.1) × (p.1 ≤ to) × (p.1 ≤ length tokens.now.list))) }
    ensures none { IfOk result (λ found. IfNone found (NoneStandsEnded names.now.typedefs (signs_between tokens.now.list from to))) }
{
    let mut state = State {
        braces: List::new(alloc),
        last: None,
        at: from,
    };
    loop {
        match take_step(alloc, tokens, to, names, state)? {
            Step::Next(next) => state = next,
            Step::Whole(x, end) => return Ok(Some((x, end))),
            Step::Stuck => return Ok(None),
        }
    }
}

/// Of two initialisers that stand at the front of the same tokens, each with an end behind it, as a comma or a closing brace,
/// one is the other. It does nothing.
pub fn one_initialiser_before_an_end()
    ensures { (types : Sequence (Sequence ℕ)) (signs us vs : Sequence Sign) (x y : Tree) → StandsEnded types signs x us → StandsEnded types signs y vs → (x ≡ y) × (us ≡ vs) }
{
    one_tree_before_an_end();
}
