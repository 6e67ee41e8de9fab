// The names in force in the body of a definition: what its head declares hides typedef names.
ghost use Rattle.std.specs.Prelude.{◌≡◌, ◌∷◌, IfOk, Some};
ghost use Rattle.po_fun_heads.specs.Inside.{IsEnumerator, IsOfParameter, IsOfParameters, IsOfHead, HidesNames};

use po_base::{List, Memory, Text};
use po_tree::{Decl, Names, Param, Specifier};
use std::alloc::Global;

/// Hides the names of the enumerators that specifiers declare; the specifiers are given back.
fn hide_enumerators(
    alloc: Global,
    names: &mut Names,
    specs: List<Specifier>,
) -> Result<List<Specifier>, Memory>
    ensures same { IfOk result (λ all. all ≡ specs) }
    ensures hides { IfOk result (λ _. HidesNames (IsEnumerator specs) names.old names.new) }
{
    let declaration = Decl {
        specs,
        parts: List::new(alloc),
    };
    names.declare(alloc, &declaration)?;
    let Decl { specs, parts: _ } = declaration;
    Ok(specs)
}

/// Hides a name, where there is one.
fn hide_word(names: &mut Names, name: &Option<Text>) -> Result<(), Memory>
    ensures { IfOk result (λ _. HidesNames (λ x. name.now ≡ Some x) names.old names.new) }
{
    match name {
        Some(name) => names.hide(name),
        None => Ok(()),
    }
}

/// Hides what a parameter declares: its enumerators and its word.
fn hide_parameter(alloc: Global, names: &mut Names, param: Param) -> Result<Param, Memory>
    ensures same { IfOk result (λ x. x ≡ param) }
    ensures hides { IfOk result (λ _. HidesNames (IsOfParameter param) names.old names.new) }
{
    let (specs, declarator) = param.into_parts();
    let specs = hide_enumerators(alloc, names, specs)?;
    hide_word(names, &declarator.name)?;
    Ok(Param { specs, declarator })
}

/// Hides what parameters declare.
fn hide_parameters(
    alloc: Global,
    names: &mut Names,
    params: List<Param>,
) -> Result<List<Param>, Memory>
    ensures same { IfOk result (λ all. all ≡ params) }
    ensures hides { IfOk result (λ _. HidesNames (IsOfParameters params) names.old names.new) }
{
    let mut hidden = List::new(alloc);
    for param in params.into_vec() {
        hidden.push(hide_parameter(alloc, names, param)?)?;
    }
    Ok(hidden)
}

/// Hides what a head declares: the enumerators of its specifiers, what its parameters declare, and the function's name. The specifiers and the
/// parameters are given back.
pub(crate) fn hide_of_head(
    alloc: Global,
    names: &mut Names,
    specs: List<Specifier>,
    name: &Text,
    params: List<Param>,
) -> Result<(List<Specifier>, List<Param>), Memory>
    ensures same { IfOk result (λ p. (p.0 ≡ specs) × (p.1 ≡ params)) }
    ensures hides { IfOk result (λ _. HidesNames (IsOfHead specs name.now params) names.old names.new) }
{
    let specs = hide_enumerators(alloc, names, specs)?;
    let params = hide_parameters(alloc, names, params)?;
    names.hide(name)?;
    Ok((specs, params))
}
