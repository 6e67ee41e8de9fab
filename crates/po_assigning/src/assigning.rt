// The names that an expression assigns.
ghost use Rattle.std.specs.Prelude.{◌∷◌, [], IfOk, OnOk};
ghost use Rattle.po_assigning.specs.Gathering.{AddsNames, Gathers, GathersMore, assigns_name};

use crate::naming::name_of;
use po_base::{List, Memory, Text};
use po_tree::Exp;
use std::alloc::Global;

/// Puts the name that an expression is behind the others, if it is one.
fn add_name(x: &Exp, names: &mut List<Text>) -> Result<(), Memory>
    ensures { OnOk result (AddsNames (λ is_one. assigns_name is_one x.now) names.old names.new) }
{
    if let Some(name) = name_of(x) {
        names.push(name.share()?)?;
    }
    Ok(())
}

/// The names that an expression assigns, behind the others.
#[cycle(assigning)]
fn gather_more(x: &Exp, names: &mut List<Text>) -> Result<(), Memory>
    ensures { OnOk result (GathersMore (x.now ∷ []) names.old names.new) }
{
    match x {
        Exp::Var(_)
        | Exp::Num(_)
        | Exp::Chr(_)
        | Exp::Str(_)
        | Exp::SizeExp(_)
        | Exp::SizeType(_) => {}
        Exp::Paren(x)
        | Exp::Dot(x, _)
        | Exp::Arrow(x, _)
        | Exp::Addr(x)
        | Exp::Deref(x)
        | Exp::Plus(x)
        | Exp::Minus(x)
        | Exp::Compl(x)
        | Exp::Not(x)
        | Exp::Cast(_, x) => gather_more(x.get(), names)?,
        Exp::PostInc(x) | Exp::PostDec(x) | Exp::PreInc(x) | Exp::PreDec(x) => {
            add_name(x.get(), names)?;
            gather_more(x.get(), names)?;
        }
        Exp::Index(x, y)
        | Exp::Binary(_, x, y)
        | Exp::LogAnd(x, y)
        | Exp::LogOr(x, y)
        | Exp::Comma(x, y) => {
            gather_more(x.get(), names)?;
            gather_more(y.get(), names)?;
        }
        Exp::Assign(_, x, y) => {
            add_name(x.get(), names)?;
            gather_more(x.get(), names)?;
            gather_more(y.get(), names)?;
        }
        Exp::Cond(x, y, z) => {
            gather_more(x.get(), names)?;
            gather_more(y.get(), names)?;
            gather_more(z.get(), names)?;
        }
        Exp::Call(_, xs) => gather_each(xs.as_slice(), names)?,
    }
    Ok(())
}

/// The names that several expressions assign, behind the others.
#[cycle(assigning)]
fn gather_each(xs: &[Exp], names: &mut List<Text>) -> Result<(), Memory>
    ensures { OnOk result (GathersMore xs.now names.old names.new) }
{
    for x in xs {
        gather_more(x, names)?;
    }
    Ok(())
}

/// The names that an expression assigns, by `=` and the like or by `++` and `--`, but for what stands inside a sizeof: a variable of a name is
/// assigned exactly where its name is among them (C99 6.5.16, 6.5.2.4, 6.5.3.1, 6.5.3.4p2). In time linear in the tree; `Memory` is the one
/// other answer.
pub fn gather(alloc: Global, x: &Exp) -> Result<List<Text>, Memory>
    ensures { IfOk result (λ names. Gathers (x.now ∷ []) names) }
{
    let mut names = List::new(alloc);
    gather_more(x, &mut names)?;
    Ok(names)
}

/// The names that one of the expressions assigns, as for `gather`.
pub fn gather_all(alloc: Global, xs: &[Exp]) -> Result<List<Text>, Memory>
    ensures { IfOk result (λ names. Gathers xs.now names) }
{
    let mut names = List::new(alloc);
    gather_each(xs, &mut names)?;
    Ok(names)
}
