// Stars with their qualifiers (C99 6.7.5.1).
ghost use Rattle.std.specs.Prelude.{◌≤◌, length, IfOk};
ghost use Rattle.po_exp_parts.specs.Places.{signs_between};
ghost use Rattle.po_exp_parts.specs.Stars.{StarsRead};

use po_base::{List, Memory, Text, Tokens};
use po_exp_parts::stars;
use std::alloc::Global;

/// All stars at a place, each with all qualifiers behind it (C99 6.7.5.1), and the place behind them. Time is linear in them. `Memory`
/// where memory is refused.
pub fn stars_at(
    alloc: Global,
    tokens: &Tokens,
    at: u32,
    to: u32,
) -> Result<(List<List<Text>>, u32), Memory>
    ensures found { IfOk result (λ p. StarsRead (signs_between tokens.now.list at to) p.0 (signs_between tokens.now.list p.1 to)) }
    ensures after { IfOk result (λ p. at ≤ p.1) }
    ensures within { at ≤ to → at ≤ length tokens.now.list → IfOk result (λ p. (p.1 ≤ to) × (p.1 ≤ length tokens.now.list)) }
{
    let all = tokens.list.as_slice();
    let last = (to as usize).min(all.len());
    let (stars, end) = stars::stars_at(alloc, &all[..last], at as usize)?;
    Ok((stars, end as u32))
}
