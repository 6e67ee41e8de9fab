// How struct bodies and parameter lists are dropped, however deep they are nested in one another: in a loop that takes no new memory. Where
// it goes into a body, the way back is kept in the place of that body. Parameter lists wait until no member is left: each is kept in the
// place of the suffix of the last parameter of the one before it.
ghost use Rattle.std.specs.Prelude.{◌≡◌, ◌<◌, ◌∷◌, ◌++◌, [], vec_len, vec_capacity, MatchOption, Option, Some, None};
ghost use Rattle.po_tree.specs.declared.expression.Member.{Member as Declaration, out-Member};
ghost use Rattle.po_tree.specs.declared.expression.Param.{Param as Parameter, out-Param};
ghost use Rattle.po_tree.specs.Dropping.{Finds, Splits, SplitsParams, Parts, Goes, Passes, kept_suffix};

use crate::expression::{Declarator, Member, Param, Specifier, Suffix};
use po_base::{List, Text};

/// Whether a specifier has a body.
enum Found {
    Body(Option<Text>, List<Member>),
    Other(Specifier),
}

/// Members without the last specifier of the last one. There is room for what was taken.
enum Split {
    Nothing(List<Member>),
    Bare(Vec<Member>, List<Specifier>, List<Declarator>),
    Last(Vec<Member>, Vec<Specifier>, List<Declarator>, Specifier),
}

/// Parameters without the last one, which is taken apart. There is room for it.
enum SplitParams {
    Nothing(List<Param>),
    Last(Vec<Param>, List<Specifier>, Declarator),
}

/// What is left to be dropped.
struct Left {
    /// The members at which the loop is.
    here: Option<List<Member>>,
    /// The members that it has come from.
    way: Option<List<Member>>,
    /// Parameters that are to wait before the others.
    coming: Option<List<Param>>,
    /// Parameters that wait.
    waiting: Option<List<Param>>,
}

/// What is dropped behind a step. No body and no parameter list is inside.
enum Leaf {
    Nothing,
    Specifier(Specifier),
    Suffix(Suffix),
    Member(List<Specifier>, List<Declarator>),
    Param(List<Specifier>, Suffix),
    Members(List<Member>),
    Params(List<Param>),
}

/// A step: what is left behind it, and what is dropped.
enum Step {
    Done,
    Next(Left, Leaf),
}

/// Drops specifiers.
#[cycle(dropping)]
pub(crate) fn drop_specifiers(specs: List<Specifier>) {
    let mut left = specs;
    loop {
        let (rest, last) = take_last(left);
        match last {
            None => {
                drop(rest);
                return;
            }
            Some(spec) => {
                left = rest;
                match body_of(spec) {
                    Found::Body(_tag, members) => drop_members(members),
                    Found::Other(spec) => drop(spec),
                }
            }
        }
    }
}

/// Drops a declarator.
#[cycle(dropping)]
pub(crate) fn drop_declarator(declarator: Declarator) {
    let Declarator {
        stars: _,
        name: _,
        suffix,
    } = declarator;
    match suffix {
        Suffix::Plain => {}
        Suffix::Arrays(sizes) => drop(sizes),
        Suffix::Params(params, _) => drop_params(params),
    }
}

/// Drops members, and what is nested in them.
#[cycle(dropping)]
fn drop_members(members: List<Member>) {
    let mut left = Left {
        here: Some(members),
        way: None,
        coming: None,
        waiting: None,
    };
    loop {
        match take_step(left) {
            Step::Done => return,
            Step::Next(next, leaf) => {
                left = next;
                match leaf {
                    Leaf::Nothing => {}
                    Leaf::Specifier(spec) => drop(spec),
                    Leaf::Suffix(suffix) => drop(suffix),
                    Leaf::Member(specs, declarators) => {
                        drop(specs);
                        drop(declarators);
                    }
                    Leaf::Param(specs, suffix) => {
                        drop(specs);
                        drop(suffix);
                    }
                    Leaf::Members(list) => drop(list),
                    Leaf::Params(list) => drop(list),
                }
            }
        }
    }
}

/// Drops parameters, and what is nested in them.
#[cycle(dropping)]
fn drop_params(params: List<Param>) {
    let mut left = Left {
        here: None,
        way: None,
        coming: Some(params),
        waiting: None,
    };
    loop {
        match take_step(left) {
            Step::Done => return,
            Step::Next(next, leaf) => {
                left = next;
                match leaf {
                    Leaf::Nothing => {}
                    Leaf::Specifier(spec) => drop(spec),
                    Leaf::Suffix(suffix) => drop(suffix),
                    Leaf::Member(specs, declarators) => {
                        drop(specs);
                        drop(declarators);
                    }
                    Leaf::Param(specs, suffix) => {
                        drop(specs);
                        drop(suffix);
                    }
                    Leaf::Members(list) => drop(list),
                    Leaf::Params(list) => drop(list),
                }
            }
        }
    }
}

/// Takes one step, which drops nothing of a tree.
fn take_step(left: Left) -> Step
    ensures { Goes left result }
{
    let Left {
        here,
        way,
        coming,
        waiting,
    } = left;
    match coming {
        Some(list) => let_wait(here, way, list, waiting),
        None => match here {
            Some(list) => go_on(list, way, waiting),
            None => match way {
                Some(way) => go_back(way, waiting),
                None => match waiting {
                    Some(list) => go_into(list),
                    None => Step::Done,
                },
            },
        },
    }
}

/// Goes on at members: into the last body, or past the last part.
fn go_on(here: List<Member>, way: Option<List<Member>>, waiting: Option<List<Param>>) -> Step
    ensures { Goes (record { here = Some here; way = way; coming = None; waiting = waiting }) result }
{
    match take_apart(here) {
        Split::Nothing(empty) => Step::Next(
            Left {
                here: None,
                way,
                coming: None,
                waiting,
            },
            Leaf::Members(empty),
        ),
        Split::Bare(rest, specs, declarators) => go_out(rest, specs, declarators, way, waiting),
        Split::Last(rest, specs, declarators, spec) => match body_of(spec) {
            Found::Body(tag, body) => {
                let specs = put_back(specs, Specifier::Struct(tag, way));
                let way = put_back(rest, Member { specs, declarators });
                Step::Next(
                    Left {
                        here: Some(body),
                        way: Some(way),
                        coming: None,
                        waiting,
                    },
                    Leaf::Nothing,
                )
            }
            Found::Other(spec) => {
                let specs = List::from_vec(specs);
                let here = put_back(rest, Member { specs, declarators });
                Step::Next(
                    Left {
                        here: Some(here),
                        way,
                        coming: None,
                        waiting,
                    },
                    Leaf::Specifier(spec),
                )
            }
        },
    }
}

/// Goes past the last declarator of the last member, which has no specifiers left, or past that member. A parameter list comes to wait.
fn go_out(
    rest: Vec<Member>,
    specs: List<Specifier>,
    declarators: List<Declarator>,
    way: Option<List<Member>>,
    waiting: Option<List<Param>>,
) -> Step
    requires { vec_len rest < vec_capacity rest }
    ensures { (m : Declaration) → (out-Member m).specs ≡ specs → specs ≡ [] → (out-Member m).declarators ≡ declarators → Passes (record { here = Some (rest.items ++ m ∷ []); way = way; coming = None; waiting = waiting }) result }
{
    let mut declarators = declarators.into_vec();
    match declarators.pop() {
        None => {
            let leaf = Leaf::Member(specs, List::from_vec(declarators));
            Step::Next(
                Left {
                    here: Some(List::from_vec(rest)),
                    way,
                    coming: None,
                    waiting,
                },
                leaf,
            )
        }
        Some(declarator) => {
            let Declarator {
                stars: _,
                name: _,
                suffix,
            } = declarator;
            let (coming, leaf) = parts_of(suffix);
            let declarators = List::from_vec(declarators);
            let here = put_back(rest, Member { specs, declarators });
            Step::Next(
                Left {
                    here: Some(here),
                    way,
                    coming,
                    waiting,
                },
                leaf,
            )
        }
    }
}

/// Goes back from a body of which nothing is left to the members that it stands in.
fn go_back(way: List<Member>, waiting: Option<List<Param>>) -> Step
    ensures { Goes (record { here = None; way = Some way; coming = None; waiting = waiting }) result }
{
    match take_apart(way) {
        Split::Nothing(empty) => Step::Next(
            Left {
                here: None,
                way: None,
                coming: None,
                waiting,
            },
            Leaf::Members(empty),
        ),
        Split::Bare(rest, specs, declarators) => go_out(rest, specs, declarators, None, waiting),
        Split::Last(rest, specs, declarators, spec) => {
            let specs = List::from_vec(specs);
            let here = put_back(rest, Member { specs, declarators });
            match body_of(spec) {
                Found::Body(_tag, way) => {
                    Step::Next(
                        Left {
                            here: Some(here),
                            way: Some(way),
                            coming: None,
                            waiting,
                        },
                        Leaf::Nothing,
                    )
                }
                Found::Other(spec) => {
                    Step::Next(
                        Left {
                            here: Some(here),
                            way: None,
                            coming: None,
                            waiting,
                        },
                        Leaf::Specifier(spec),
                    )
                }
            }
        }
    }
}

/// Goes into the body that is last among the specifiers of the last parameter, or past a part of it.
fn go_into(waiting: List<Param>) -> Step
    ensures { Goes (record { here = None; way = None; coming = None; waiting = Some waiting }) result }
{
    match take_param(waiting) {
        SplitParams::Nothing(empty) => Step::Next(
            Left {
                here: None,
                way: None,
                coming: None,
                waiting: None,
            },
            Leaf::Params(empty),
        ),
        SplitParams::Last(rest, specs, declarator) => {
            let mut specs = specs.into_vec();
            match specs.pop() {
                None => go_past(rest, List::from_vec(specs), declarator),
                Some(spec) => {
                    let specs = List::from_vec(specs);
                    let waiting = put_back(rest, Param { specs, declarator });
                    match body_of(spec) {
                        Found::Body(_tag, body) => Step::Next(
                            Left {
                                here: Some(body),
                                way: None,
                                coming: None,
                                waiting: Some(waiting),
                            },
                            Leaf::Nothing,
                        ),
                        Found::Other(spec) => Step::Next(
                            Left {
                                here: None,
                                way: None,
                                coming: None,
                                waiting: Some(waiting),
                            },
                            Leaf::Specifier(spec),
                        ),
                    }
                }
            }
        }
    }
}

/// Goes past the last parameter, which has no specifiers left. Those before it come to wait before those behind it.
fn go_past(rest: Vec<Param>, specs: List<Specifier>, declarator: Declarator) -> Step
    ensures { (p : Parameter) → (out-Param p).specs ≡ specs → specs ≡ [] → (out-Param p).declarator ≡ declarator → Goes (record { here = None; way = None; coming = None; waiting = Some (rest.items ++ p ∷ []) }) result }
{
    let coming = Some(List::from_vec(rest));
    let Declarator {
        stars: _,
        name: _,
        suffix,
    } = declarator;
    match suffix {
        Suffix::Plain => Step::Next(
            Left {
                here: None,
                way: None,
                coming,
                waiting: None,
            },
            Leaf::Param(specs, Suffix::Plain),
        ),
        Suffix::Arrays(sizes) => Step::Next(
            Left {
                here: None,
                way: None,
                coming,
                waiting: None,
            },
            Leaf::Param(specs, Suffix::Arrays(sizes)),
        ),
        Suffix::Params(waiting, _) => Step::Next(
            Left {
                here: None,
                way: None,
                coming,
                waiting: Some(waiting),
            },
            Leaf::Param(specs, Suffix::Plain),
        ),
    }
}

/// Lets parameters wait before others, which are kept in place of the suffix of the last parameter. The parameters in that suffix come next.
fn let_wait(
    here: Option<List<Member>>,
    way: Option<List<Member>>,
    coming: List<Param>,
    waiting: Option<List<Param>>,
) -> Step
    ensures { Goes (record { here = here; way = way; coming = Some coming; waiting = waiting }) result }
{
    match take_param(coming) {
        SplitParams::Nothing(empty) => Step::Next(
            Left {
                here,
                way,
                coming: None,
                waiting,
            },
            Leaf::Params(empty),
        ),
        SplitParams::Last(rest, specs, declarator) => {
            let Declarator {
                stars,
                name,
                suffix,
            } = declarator;
            let (coming, leaf) = parts_of(suffix);
            let suffix = kept_in_suffix(waiting);
            let declarator = Declarator {
                stars,
                name,
                suffix,
            };
            let waiting = Some(put_back(rest, Param { specs, declarator }));
            Step::Next(
                Left {
                    here,
                    way,
                    coming,
                    waiting,
                },
                leaf,
            )
        }
    }
}

/// The suffix in which parameters are kept.
fn kept_in_suffix(params: Option<List<Param>>) -> Suffix
    ensures { result ≡ kept_suffix params }
{
    match params {
        Some(params) => Suffix::Params(params, false),
        None => Suffix::Plain,
    }
}

/// The parameters of a suffix, where it has any, and else what is dropped of it.
fn parts_of(suffix: Suffix) -> (Option<List<Param>>, Leaf)
    ensures { Parts suffix result }
{
    match suffix {
        Suffix::Plain => (None, Leaf::Nothing),
        Suffix::Arrays(sizes) => (None, Leaf::Suffix(Suffix::Arrays(sizes))),
        Suffix::Params(params, _) => (Some(params), Leaf::Nothing),
    }
}

/// Takes the last parameter out, as its parts.
fn take_param(params: List<Param>) -> SplitParams
    ensures { SplitsParams params result }
{
    let mut params = params.into_vec();
    match params.pop() {
        None => SplitParams::Nothing(List::from_vec(params)),
        Some(param) => {
            let (specs, declarator) = param.into_parts();
            SplitParams::Last(params, specs, declarator)
        }
    }
}

/// Takes the last specifier of the last member out.
fn take_apart(members: List<Member>) -> Split
    ensures { Splits members result }
{
    let mut members = members.into_vec();
    match members.pop() {
        None => Split::Nothing(List::from_vec(members)),
        Some(member) => {
            let (specs, declarators) = member.into_parts();
            let mut specs = specs.into_vec();
            match specs.pop() {
                None => Split::Bare(members, List::from_vec(specs), declarators),
                Some(spec) => Split::Last(members, specs, declarators, spec),
            }
        }
    }
}

/// The body of a specifier, where it has one.
fn body_of(spec: Specifier) -> Found
    ensures { Finds spec result }
{
    match spec {
        Specifier::Struct(tag, members) => match members {
            Some(members) => Found::Body(tag, members),
            None => Found::Other(Specifier::Struct(tag, None)),
        },
        Specifier::Word(text) => Found::Other(Specifier::Word(text)),
        Specifier::Named(name) => Found::Other(Specifier::Named(name)),
        Specifier::Enum(tag, items, more) => Found::Other(Specifier::Enum(tag, items, more)),
    }
}

/// A list without its last item, and that item.
fn take_last<T>(list: List<T>) -> (List<T>, Option<T>)
    ensures { MatchOption result.1 ((list ≡ []) × (result.0 ≡ [])) (λ last. list ≡ result.0 ++ last ∷ []) }
{
    let mut items = list.into_vec();
    let last = items.pop();
    (List::from_vec(items), last)
}

/// Puts an item where one was taken, so that there is room.
pub(crate) fn put_back<T>(items: Vec<T>, item: T) -> List<T>
    requires { vec_len items < vec_capacity items }
    ensures { result ≡ items.items ++ item ∷ [] }
{
    let mut items = items;
    match items.push(item) {
        Ok(()) => List::from_vec(items),
        Err(_full) => unreachable!(),
    }
}
