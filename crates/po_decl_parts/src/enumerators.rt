// Enumerators between braces (C99 6.7.2.2).
ghost use Rattle.std.specs.Prelude.{ℕ, ◌≡◌, ◌≤◌, length, IfOk, IfSome, IfNone, List as Sequence};
ghost use Rattle.po_tree.specs.NameSets.{AreSame};
ghost use Rattle.po_exp_parts.specs.Places.{signs_between};
ghost use Rattle.po_decl_parts.specs.Enumerators.{EnumeratorRead, EnumeratorsRead};

use crate::constants::constant_at;
use po_base::{List, Memory, Text, Tokens};
use po_exp_parts::ranges::{name_at, stands};
use po_tree::{Exp, Names};
use std::alloc::Global;

/// The enumerators between two braces.
#[derive(Drop)]
pub struct Enumeration {
    /// Each with its value where one is written.
    pub items: List<(Text, Option<Exp>)>,
    /// Whether a comma stands behind the last.
    pub more: bool,
    /// The place behind the closing brace.
    pub end: u32,
}

/// The enumerator at a place, with the place behind it.
fn enumerator_at(
    alloc: Global,
    tokens: &Tokens,
    at: u32,
    to: u32,
    names: &Names,
) -> Result<Option<(Text, Option<Exp>, u32)>, Memory>
    ensures found { (types : Sequence (Sequence ℕ)) → AreSame types names.now.typedefs → IfOk result (λ found. IfSome found (λ p. EnumeratorRead types (signs_between tokens.now.list at to) (p.0, p.1) (signs_between tokens.now.list p.2 to))) }
    ensures within { IfOk result (λ found. IfSome found (λ p. (at ≤ p.2) × (p.2 ≤ to) × (p.2 ≤ length tokens.now.list))) }
    ensures none { (types : Sequence (Sequence ℕ)) → AreSame types names.now.typedefs → IfOk result (λ found. IfNone found ((item : _) (left : _) → EnumeratorRead types (signs_between tokens.now.list at to) item left → ⊥)) }
{
    let Some(name) = name_at(tokens, at, to) else {
        return Ok(None);
    };
    let behind = at + 1;
    if !stands(tokens, behind, to, b"=") {
        return Ok(Some((name.share()?, None, behind)));
    }
    let Some((value, end)) = constant_at(alloc, tokens, behind + 1, to, names)? else {
        return Ok(None);
    };
    Ok(Some((name.share()?, Some(value), end)))
}

/// The enumerators that stand at a place behind the brace that opens them, with the brace that closes them (C99 6.7.2.2); None exactly
/// where none stand there. From its own end on each hides a typedef name, so the names are those behind them all. After None and after
/// `Memory` they are to be given up. Time is linear in the tokens, but for a logarithm.
pub fn enumerators_at(
    alloc: Global,
    tokens: &Tokens,
    at: u32,
    to: u32,
    names: &mut Names,
) -> Result<Option<Enumeration>, Memory>
    ensures found { (types : Sequence (Sequence ℕ)) → AreSame types names.old.typedefs → IfOk result (λ found. IfSome found (λ p. (behind : Sequence (Sequence ℕ)) × EnumeratorsRead types (signs_between tokens.now.list at to) p.items p.more behind (signs_between tokens.now.list p.end to) × AreSame behind names.new.typedefs)) }
    ensures kept { IfOk result (λ _. (names.new.tags ≡ names.old.tags) × (names.new.outer ≡ names.old.outer)) }
    ensures within { IfOk result (λ found. IfSome found (λ p. (at ≤ p.end) × (p.end ≤ to) × (p.end ≤ length tokens.now.list))) }
    ensures none { (types : Sequence (Sequence ℕ)) → AreSame types names.old.typedefs → IfOk result (λ found. IfNone found ((items : _) (more : _) (behind : _) (left : _) → EnumeratorsRead types (signs_between tokens.now.list at to) items more behind left → ⊥)) }
{
    let mut items = List::new(alloc);
    let mut next = at;
    loop {
        let Some((name, value, end)) = enumerator_at(alloc, tokens, next, to, names)? else {
            return Ok(None);
        };
        names.hide(&name)?;
        items.push((name, value))?;
        if stands(tokens, end, to, b"}") {
            return Ok(Some(Enumeration {
                items,
                more: false,
                end: end + 1,
            }));
        }
        if !stands(tokens, end, to, b",") {
            return Ok(None);
        }
        next = end + 1;
        if stands(tokens, next, to, b"}") {
            return Ok(Some(Enumeration {
                items,
                more: true,
                end: next + 1,
            }));
        }
    }
}
