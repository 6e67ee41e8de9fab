// How initialisers are dropped, however deep their braces are nested: in a loop that takes no new memory. Where it goes into braces, the way
// back is kept in their place.
ghost use Rattle.std.specs.Prelude.{◌≡◌, ◌<◌, ◌+◌, vec_len, vec_capacity, Some, None};
ghost use Rattle.po_tree.specs.DroppingInitialisers.{Goes, way_weight, total_weight};

use crate::declaration::{Init, InitParts};
use crate::dropping::put_back;
use crate::expression::Exp;
use po_base::List;

/// Initialisers that the loop has come from, and whether the last of them keeps those that it came from before.
struct Way {
    inits: List<Init>,
    linked: bool,
}

/// What is dropped behind a step.
enum Leaf {
    Nothing,
    Value(Exp),
    Inits(List<Init>),
}

/// A step: the initialisers at which the loop is behind it, the way back from them, and what is dropped.
enum Step {
    Done,
    Next(Option<List<Init>>, Option<Way>, Leaf),
}

/// Drops initialisers, and what is nested in them.
#[cycle(dropping_initialisers)]
pub(crate) fn drop_initialisers(inits: List<Init>) {
    let mut here = Some(inits);
    let mut way = None;
    loop {
        match take_step(here, way) {
            Step::Done => return,
            Step::Next(next, back, leaf) => {
                here = next;
                way = back;
                match leaf {
                    Leaf::Nothing => {}
                    Leaf::Value(x) => drop(x),
                    Leaf::Inits(list) => drop(list),
                }
            }
        }
    }
}

/// Takes one step, which drops nothing.
fn take_step(here: Option<List<Init>>, way: Option<Way>) -> Step
    ensures { Goes here way result }
{
    match here {
        Some(here) => go_on(here, way),
        None => match way {
            Some(way) => go_back(way),
            None => Step::Done,
        },
    }
}

/// Goes past the last initialiser, or into its braces.
fn go_on(here: List<Init>, way: Option<Way>) -> Step
    ensures { Goes (Some here) way result }
{
    let mut here = here.into_vec();
    match here.pop() {
        None => Step::Next(None, way, Leaf::Inits(List::from_vec(here))),
        Some(init) => match init.into_parts() {
            InitParts::Value(x) => Step::Next(Some(List::from_vec(here)), way, Leaf::Value(x)),
            InitParts::Braces(inside, _) => {
                Step::Next(Some(inside), Some(way_back(here, way)), Leaf::Nothing)
            }
        },
    }
}

/// The way back to initialisers from the braces that were the last of them.
fn way_back(rest: Vec<Init>, way: Option<Way>) -> Way
    requires { vec_len rest < vec_capacity rest }
    ensures { total_weight result.inits ≡ total_weight rest.items + way_weight way }
{
    match way {
        None => Way {
            inits: List::from_vec(rest),
            linked: false,
        },
        Some(Way { inits, linked }) => Way {
            inits: put_back(rest, Init::Many(inits, linked)),
            linked: true,
        },
    }
}

/// Goes back to the initialisers that the loop has come from.
fn go_back(way: Way) -> Step
    ensures { Goes None (Some way) result }
{
    let Way { inits, linked } = way;
    if !linked {
        return Step::Next(Some(inits), None, Leaf::Nothing);
    }
    let mut inits = inits.into_vec();
    match inits.pop() {
        None => Step::Next(None, None, Leaf::Inits(List::from_vec(inits))),
        Some(init) => match init.into_parts() {
            InitParts::Value(x) => Step::Next(Some(List::from_vec(inits)), None, Leaf::Value(x)),
            InitParts::Braces(further, linked) => {
                let way = Way {
                    inits: further,
                    linked,
                };
                Step::Next(Some(List::from_vec(inits)), Some(way), Leaf::Nothing)
            }
        },
    }
}
