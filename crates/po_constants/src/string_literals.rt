// The characters of string literals (C99 6.4.5).
ghost use Rattle.std.specs.Prelude.{ℕ, List as Bytes, MatchBool, ◌≡◌, ◌<◌, ◌≤◌, ◌∷◌, ◌++◌, MatchOption, IfOk, length};
ghost use Rattle.po_tree.specs.Literals.{Characters};
ghost use Rattle.po_typed.specs.Constants.{AreStrings};
ghost use Rattle.po_constants.specs.Found.{Finds};
ghost use Rattle.po_constants.specs.Strings.{IsStringOf};

use po_base::{List, Memory, Text};
use po_exp_parts::characters::{begins, first_character, is_closed};
use std::alloc::Global;

/// Adds the characters of a string literal; false where the text is none, and then the bytes are given up.
fn add_string(text: &[u8], bytes: &mut List<u8>) -> Result<bool, Memory>
    ensures { IfOk result (λ found. MatchBool found ((values : Bytes ℕ) × IsStringOf text.now values × (bytes.new ≡ bytes.old ++ values)) ((values : Bytes ℕ) → IsStringOf text.now values → ⊥)) }
{
    if !begins(text, b'"') {
        return Ok(false);
    }
    let mut end = 1;
    while let Some(character) = first_character(text, end, b'"') {
        bytes.push(character.value)?;
        end = character.end;
    }
    Ok(is_closed(text, end, b'"'))
}

/// The characters of string literals side by side (C99 6.4.5p4), without the 0 behind them; None exactly where a text is no string literal.
/// Time linear in the texts.
pub fn strings(alloc: Global, texts: &[Text]) -> Result<Option<List<u8>>, Memory>
    ensures { IfOk result (Finds (AreStrings texts.now)) }
{
    let mut bytes = List::new(alloc);
    for text in texts {
        if !add_string(text.bytes(), &mut bytes)? {
            return Ok(None);
        }
    }
    Ok(Some(bytes))
}

/// How many characters a string literal has, where the text is one.
fn one_length(text: &[u8]) -> Option<usize>
    ensures { MatchOption result ((values : Bytes ℕ) → IsStringOf text.now values → ⊥) (λ n. (n ≤ length text.now) × (values : Bytes ℕ) × IsStringOf text.now values × (n ≡ length values)) }
{
    if !begins(text, b'"') {
        return None;
    }
    let mut count = 0;
    let mut end = 1;
    while let Some(character) = first_character(text, end, b'"') {
        count += 1;
        end = character.end;
    }
    if is_closed(text, end, b'"') {
        Some(count)
    } else {
        None
    }
}

/// How many characters string literals side by side have (C99 6.4.5p4), without the 0 behind them; None exactly where a text is no string
/// literal. It takes no memory. Time linear in the texts.
pub fn string_length(texts: &[Text]) -> Option<u128>
    ensures { MatchOption result ((values : Bytes ℕ) → AreStrings texts.now values → ⊥) (λ n. (values : Bytes ℕ) × AreStrings texts.now values × (n ≡ length values)) }
{
    let mut count = 0u128;
    for text in texts {
        count += one_length(text.bytes())? as u128;
    }
    Some(count)
}
