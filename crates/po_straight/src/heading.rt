ghost use Rattle.std.specs.Prelude.{ℕ, ◌≡◌, ◌≤◌, ◌<◌, ◌+◌, ◌^◌, ◌↔◌, [], ◌∷◌, ◌++◌, IsTrue, length, drop, IfOk, IfSome, IfNone};
ghost use Rattle.std.specs.Prelude.{List as Sequence};
ghost use Rattle.po_straight.specs.declared.lexeme.Sign.{Sign as Written};
ghost use Rattle.po_straight.specs.declared.lexeme.Sign.TheVariants as s;
ghost use Rattle.po_straight.specs.Distinct.{AllDiffer};
ghost use Rattle.po_straight.specs.Definitions.{signs, parameter_signs, heading_signs};
ghost use Rattle.po_straight.specs.Outline.{Begins, Leads};

use crate::lexeme::{Lexeme, Sign};
use crate::names::Parameters;
use po_base::{Memory, Text};
use std::alloc::Global;

/// What stands before the body of a definition.
#[derive(Drop)]
pub(crate) struct Heading {
    pub name: Text,
    pub parameters: Parameters,
    /// Where the body begins.
    pub end: usize,
}

/// Whether two signs are the same.
fn is_same(x: &Sign, y: &Sign) -> bool
    ensures { IsTrue result ↔ (x.now ≡ y.now) }
{
    *x == *y
}

/// Whether a sign stands at a place.
pub(crate) fn stands(lexemes: &[Lexeme], at: usize, sign: &Sign) -> bool
    ensures { IsTrue result ↔ Begins sign.now (drop at lexemes.now) }
{
    match lexemes.get(at) {
        Some(lexeme) => is_same(&lexeme.sign, sign),
        None => false,
    }
}

/// The name that stands at a place.
fn name_at(lexemes: &[Lexeme], at: usize) -> Result<Option<Text>, Memory>
    ensures found { IfOk result (λ found. IfSome found (λ name. Begins (s.Name name) (drop at lexemes.now))) }
    ensures none { IfOk result (λ found. IfNone found ((name : Sequence ℕ) → Begins (s.Name name) (drop at lexemes.now) → ⊥)) }
{
    match lexemes.get(at) {
        Some(lexeme) => match &lexeme.sign {
            Sign::Name(name) => Ok(Some(name.share()?)),
            _ => Ok(None),
        },
        None => Ok(None),
    }
}

/// The name of `int NAME`, where this stands at a place.
fn declared_at(lexemes: &[Lexeme], at: usize) -> Result<Option<Text>, Memory>
    ensures found { IfOk result (λ found. IfSome found (λ name. Leads (s.Int ∷ (s.Name name ∷ [])) (drop at lexemes.now) (drop (at + 2) lexemes.now))) }
    ensures within { IfOk result (λ found. IfSome found (λ name. at + 2 ≤ length lexemes.now)) }
    ensures none { IfOk result (λ found. IfNone found ((name : Sequence ℕ) (left : Sequence Written) → signs (drop at lexemes.now) ≡ s.Int ∷ (s.Name name ∷ left) → ⊥)) }
{
    if !stands(lexemes, at, &Sign::Int) {
        return Ok(None);
    }
    match name_at(lexemes, at + 1)? {
        Some(name) => Ok(Some(name)),
        None => Ok(None),
    }
}

/// The parameters that are declared at a place, and where they end. Time linear in them but for the logarithm
/// of their number.
fn parameters_at(
    alloc: Global,
    lexemes: &[Lexeme],
    start: usize,
) -> Result<Option<(Parameters, usize)>, Memory>
    requires short { length lexemes.now ≤ 2 ^ 24 }
    requires inside { start ≤ length lexemes.now }
    ensures found { IfOk result (λ found. IfSome found (λ p. Leads (parameter_signs p.0) (drop start lexemes.now) (drop p.1 lexemes.now))) }
    ensures within { IfOk result (λ found. IfSome found (λ p. p.1 ≤ length lexemes.now)) }
    ensures differ { IfOk result (λ found. IfSome found (λ p. AllDiffer p.0)) }
    ensures last { IfOk result (λ found. IfSome found (λ p. Begins s.Comma (drop p.1 lexemes.now) → ⊥)) }
    ensures none { IfOk result (λ found. IfNone found ((ps : Sequence (Sequence ℕ)) (left : Sequence Written) → AllDiffer ps → signs (drop start lexemes.now) ≡ parameter_signs ps ++ (s.Close ∷ left) → ⊥)) }
{
    let mut parameters = Parameters::new(alloc);
    if stands(lexemes, start, &Sign::Void) {
        if stands(lexemes, start + 1, &Sign::Comma) {
            return Ok(None);
        }
        return Ok(Some((parameters, start + 1)));
    }
    let mut at = start;
    loop {
        let Some(name) = declared_at(lexemes, at)? else {
            return Ok(None);
        };
        if !parameters.insert(name)? {
            return Ok(None);
        }
        at += 2;
        if !stands(lexemes, at, &Sign::Comma) {
            return Ok(Some((parameters, at)));
        }
        at += 1;
    }
}

/// The heading `int NAME(PARAMETERS){` at a place. Time linear in it but for the logarithm of the number of
/// parameters.
pub(crate) fn heading_at(
    alloc: Global,
    lexemes: &[Lexeme],
    at: usize,
) -> Result<Option<Heading>, Memory>
    requires { length lexemes.now ≤ 2 ^ 24 }
    ensures found { IfOk result (λ found. IfSome found (λ h. Leads (heading_signs h.name h.parameters) (drop at lexemes.now) (drop h.end lexemes.now))) }
    ensures within { IfOk result (λ found. IfSome found (λ h. h.end ≤ length lexemes.now)) }
    ensures differ { IfOk result (λ found. IfSome found (λ h. AllDiffer h.parameters)) }
    ensures none { IfOk result (λ found. IfNone found ((name : Sequence ℕ) (ps : Sequence (Sequence ℕ)) (left : Sequence Written) → AllDiffer ps → signs (drop at lexemes.now) ≡ heading_signs name ps ++ left → ⊥)) }
{
    let Some(name) = declared_at(lexemes, at)? else {
        return Ok(None);
    };
    if !stands(lexemes, at + 2, &Sign::Open) {
        return Ok(None);
    }
    let Some((parameters, end)) = parameters_at(alloc, lexemes, at + 3)? else {
        return Ok(None);
    };
    if !stands(lexemes, end, &Sign::Close) {
        return Ok(None);
    }
    if !stands(lexemes, end + 1, &Sign::OpenBrace) {
        return Ok(None);
    }
    Ok(Some(Heading {
        name,
        parameters,
        end: end + 2,
    }))
}
