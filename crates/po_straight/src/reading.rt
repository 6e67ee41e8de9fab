ghost use Rattle.std.specs.Prelude.{ℕ, ◌≡◌, ◌≤◌, ◌<◌, ◌^◌, [], length, drop, map, Contains, IfOk, IfSome, IfNone};
ghost use Rattle.std.specs.Prelude.{List as Sequence};
ghost use Rattle.po_straight.specs.declared.lexeme.Lexeme.{Lexeme as Placed};
ghost use Rattle.po_straight.specs.declared.definition.Definition.{Definition as Tree};
ghost use Rattle.po_straight.specs.Distinct.{AllDiffer};
ghost use Rattle.po_straight.specs.Definitions.{IsFile, graph_size, known_with, AreServed};
ghost use Rattle.po_straight.specs.Outline.{Starts};

use crate::body::{Body, body_at, graph_size_of};
use crate::definition::Definition;
use crate::heading::{Heading, heading_at};
use crate::lexeme::Lexeme;
use crate::lexing::lexemes;
use crate::scope::{Functions, Scope};
use po_base::{List, Memory};
use std::alloc::Global;

/// The most functions of a file that is served.
const MOST_FUNCTIONS: usize = 65535;

/// The most nodes times registers of all functions of a file that is served.
const MOST_FILE_SIZE: u64 = 1 << 24;

/// The definition that stands at a place behind those of these functions, and the place behind it; its function is
/// then among them. None where there is none, and where its name is that of one of the functions. Time linear in its
/// signs but for the logarithm of the number of its parameters and of the functions.
fn definition_at(
    alloc: Global,
    lexemes: &[Lexeme],
    at: usize,
    functions: &mut Functions,
) -> Result<Option<(Definition, usize)>, Memory>
    requires short { length lexemes.now ≤ 2 ^ 24 }
    requires few { length functions.old < 2 ^ 31 }
    requires differ { AllDiffer (map (λ f. f.name) functions.old) }
    ensures found { IfOk result (λ found. IfSome found (λ p. Starts functions.old p.0 (drop at lexemes.now) (drop p.1 lexemes.now))) }
    ensures known { IfOk result (λ found. IfSome found (λ p. functions.new ≡ known_with functions.old p.0)) }
    ensures fresh { IfOk result (λ found. IfSome found (λ p. Contains (map (λ f. f.name) functions.old) p.0.name → ⊥)) }
    ensures within { IfOk result (λ found. IfSome found (λ p. (at < p.1) × (p.1 ≤ length lexemes.now))) }
    ensures none { IfOk result (λ found. IfNone found ((d : Tree) (left : Sequence Placed) → Starts functions.old d (drop at lexemes.now) left → Contains (map (λ f. f.name) functions.old) d.name)) }
{
    let Some(heading) = heading_at(alloc, lexemes, at)? else {
        return Ok(None);
    };
    if !functions.insert(heading.name.share()?, heading.parameters.len() as u32)? {
        return Ok(None);
    }
    let scope = Scope::new(&heading.parameters, functions);
    let Some(body) = body_at(alloc, lexemes, heading.end, &scope)? else {
        return Ok(None);
    };
    let definition = Definition {
        name: heading.name,
        parameters: heading.parameters.into_names(),
        line: body.line,
        value: body.value,
    };
    Ok(Some((definition, body.end)))
}

/// How many nodes times registers the graph of a definition has.
fn size_of(definition: &Definition) -> u64
    requires { graph_size definition.now ≤ 2 ^ 22 }
    ensures { result ≡ graph_size definition.now }
{
    graph_size_of(definition.parameters.len(), &definition.value)
}

/// The definitions that the signs are, one after the other, within the limits on a file; None where they are
/// none. Time linear in the signs but for the logarithm of the number of names.
fn definitions(alloc: Global, lexemes: &[Lexeme]) -> Result<Option<List<Definition>>, Memory>
    requires { length lexemes.now ≤ 2 ^ 24 }
    ensures found { IfOk result (λ found. IfSome found (λ ds. AreServed ds lexemes.now)) }
    ensures none { IfOk result (λ found. IfNone found ((ds : Sequence Tree) → AreServed ds lexemes.now → ⊥)) }
{
    let mut definitions = List::new(alloc);
    let mut functions = Functions::new(alloc);
    let mut size = 0u64;
    let mut at = 0usize;
    while at < lexemes.len() {
        let Some((definition, end)) = definition_at(alloc, lexemes, at, &mut functions)? else {
            return Ok(None);
        };
        if definitions.len() == MOST_FUNCTIONS {
            return Ok(None);
        }
        size += size_of(&definition);
        if size > MOST_FILE_SIZE {
            return Ok(None);
        }
        definitions.push(definition)?;
        at = end;
    }
    Ok(Some(definitions))
}

/// The definitions of a file of straight integer functions; None where the bytes are no such file. Time linear
/// in the bytes but for the logarithm of the number of names.
pub fn read_definitions(alloc: Global, bytes: &[u8]) -> Result<Option<List<Definition>>, Memory>
    requires { length bytes.now ≤ 2 ^ 24 }
    ensures found { IfOk result (λ found. IfSome found (λ ds. IsFile ds bytes.now)) }
    ensures none { IfOk result (λ found. IfNone found ((ds : Sequence Tree) → IsFile ds bytes.now → ⊥)) }
{
    match lexemes(alloc, bytes)? {
        Some(lexemes) => match definitions(alloc, lexemes.as_slice())? {
            Some(definitions) => Ok(Some(definitions)),
            None => Ok(None),
        },
        None => Ok(None),
    }
}

/// No bytes are files of two lists of definitions.
pub fn file_has_one_reading()
    ensures { (ds es : Sequence Tree) (bytes : Sequence ℕ) → IsFile ds bytes → IsFile es bytes → ds ≡ es }
{}
