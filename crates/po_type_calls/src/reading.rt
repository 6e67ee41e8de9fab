// The format of a call of `printf`.
ghost use Rattle.std.specs.Prelude.{◌≡◌, ◌∷◌, IfOk, MatchOption, List as Bytes, ℕ};
ghost use Rattle.po_tree.specs.declared.expression.Exp.{out-Exp};
ghost use Rattle.po_tree.specs.declared.expression.Exp.TheOpen.{Exp-F};
ghost use Rattle.po_types.specs.declared.format.Spec.TheVariants as f;
ghost use Rattle.po_constants.specs.Found.{Finds};
ghost use Rattle.po_type_calls.specs.Calling.{IsFormatOf, Formats};

use po_arith::Target;
use po_base::{List, Memory, Text};
use po_constants::strings;
use po_tree::Exp;
use po_types::{Spec, format_of};
use std::alloc::Global;

/// String literals side by side, where an expression is these.
fn literals(x: &Exp) -> Option<&[Text]>
    ensures { MatchOption result ((texts : Bytes (Bytes ℕ)) → out-Exp x.now ≡ Exp-F.Str texts → ⊥) (λ texts. out-Exp x.now ≡ Exp-F.Str texts.now) }
{
    match x {
        Exp::Str(texts) => Some(texts.as_slice()),
        _ => None,
    }
}

/// What string literals read, where they are a format.
fn reads(alloc: Global, target: Target, x: &Exp) -> Result<Option<List<Spec>>, Memory>
    ensures { IfOk result (Finds (IsFormatOf target x.now)) }
{
    match literals(x) {
        None => Ok(None),
        Some(texts) => match strings(alloc, texts)? {
            None => Ok(None),
            Some(values) => format_of(alloc, values.as_slice(), target),
        },
    }
}

/// What a format reads, behind the format itself, which is read as a text.
fn behind_text(alloc: Global, specs: &[Spec]) -> Result<List<Spec>, Memory>
    ensures { IfOk result (λ all. all ≡ f.Text ∷ specs.now) }
{
    let mut all = List::new(alloc);
    all.push(Spec::Text)?;
    for spec in specs {
        all.push(*spec)?;
    }
    Ok(all)
}

/// What `printf` reads, called with the arguments `xs`: its format, as a text, and then what that reads (C99 7.19.6.1, 7.19.6.3). None exactly where the first argument is
/// no string literals, or these are no format. Takes time in the length of the format.
pub fn formats(alloc: Global, target: Target, xs: &[Exp]) -> Result<Option<List<Spec>>, Memory>
    ensures { IfOk result (Finds (Formats target xs.now)) }
{
    if xs.is_empty() {
        return Ok(None);
    }
    match reads(alloc, target, &xs[0])? {
        None => Ok(None),
        Some(specs) => Ok(Some(behind_text(alloc, specs.as_slice())?)),
    }
}
