// The marks of tokens: for each the place of its file's name among the names of files, and its line.
ghost use Rattle.std.specs.Prelude.{◌≡◌, ◌<◌, ◌+◌, ◌^◌, ◌∷◌, ◌↔◌, [], IsTrue, length, map, take, drop, get_or, Contains, IfOk, MatchOption};
ghost use Rattle.po_fun_heads.specs.Marks.{spots_between, IsPlaceOf, Marking};

use po_base::{List, Memory, Text, Token, Tokens};
use std::alloc::Global;

/// The token at a place before `to`, where one stands there.
fn token_at(tokens: &Tokens, at: u32, to: u32) -> Option<&Token>
    ensures { MatchOption result (drop at (take to tokens.now.list) ≡ []) (λ token. (at < to) × (drop at (take to tokens.now.list) ≡ token.now ∷ drop (at + 1) (take to tokens.now.list))) }
{
    let all = tokens.list.as_slice();
    let place = at as usize;
    if at >= to {
        return None;
    }
    if place >= all.len() {
        return None;
    }
    Some(&all[place])
}

/// The name at a place, which is empty where there is none.
fn name_of(alloc: Global, names: &[Text], place: u32) -> Result<Text, Memory>
    ensures { IfOk result (λ name. name ≡ get_or names.now place []) }
{
    let at = place as usize;
    if at >= names.len() {
        return Text::new(alloc, b"");
    }
    names[at].share()
}

/// Whether two texts have the same bytes.
fn is_same(text: &Text, other: &Text) -> bool
    ensures { IsTrue result ↔ (text.now ≡ other.now) }
{
    text.bytes() == other.bytes()
}

/// The first place at which a name stands.
fn place_in(names: &[Text], name: &Text) -> Option<u32>
    requires { length names.now < 2 ^ 32 }
    ensures { MatchOption result (Contains names.now name.now → ⊥) (λ n. (n < length names.now) × (get_or names.now n [] ≡ name.now)) }
{
    let mut at: usize = 0;
    while at < names.len() {
        if is_same(&names[at], name) {
            return Some(at as u32);
        }
        at = at + 1;
    }
    None
}

/// The place of a name among names; a new one is put behind them.
fn place_of(names: &mut List<Text>, name: Text) -> Result<u32, Memory>
    requires { length names.old < 2 ^ 32 }
    ensures { IfOk result (λ place. IsPlaceOf names.old name place names.new) }
{
    if let Some(place) = place_in(names.as_slice(), &name) {
        return Ok(place);
    }
    let place = names.len() as u32;
    names.push(name)?;
    Ok(place)
}

/// For each of the tokens from a place on up to another the place of its file's name, and its line; and the names of these files, in the order of
/// first appearance, no name twice (C99 6.10.4). Time is linear in the tokens for each of these names.
pub fn marks_of(
    alloc: Global,
    tokens: &Tokens,
    from: u32,
    to: u32,
) -> Result<(List<(u32, u32)>, List<Text>), Memory>
    ensures { IfOk result (λ p. Marking (spots_between tokens.now from to) p.0 p.1 []) }
{
    let mut marks = List::new(alloc);
    let mut names = List::new(alloc);
    let mut at = from;
    while let Some(token) = token_at(tokens, at, to) {
        let name = name_of(alloc, tokens.names.as_slice(), token.file)?;
        let place = place_of(&mut names, name)?;
        marks.push((place, token.line))?;
        at = at + 1;
    }
    Ok((marks, names))
}
