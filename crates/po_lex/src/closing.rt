// How many tokens the parentheses have that begin at each token, told on the way back from the end.
ghost use Rattle.std.specs.Prelude.{◌≡◌, ◌<◌, ◌^◌, ◌+◌, ◌∷◌, [], length, reverse, IfOk, OnOk};
ghost use Rattle.po_lex.specs.Closings.{closings, met, opened, parens_from_each, width};

use crate::nesting::{closer, is_closer, mark};
use po_base::{List, Memory, Token};
use std::alloc::Global;

/// A closing bracket that none of the tokens seen so far opens.
#[derive(Clone, Copy, Debug)]
pub(crate) struct Closing {
    /// The byte of the bracket.
    pub byte: u8,
    /// How many tokens stand behind it.
    pub behind: u32,
}

/// Takes the nearest closing bracket away for an opening one that asks for `close`; all of them where they don't match.
fn take_nearest(alloc: Global, closings: &mut List<Closing>, close: u8)
    ensures { reverse closings.new ≡ opened close (reverse closings.old) }
{
    if let Some(nearest) = closings.pop() {
        if close != nearest.byte {
            *closings = List::new(alloc);
        }
    }
}

/// Goes back over a token with this mark, which stands before `behind` others. Constant time on the average.
fn meet(alloc: Global, closings: &mut List<Closing>, byte: u8, behind: u32) -> Result<(), Memory>
    ensures { OnOk result (reverse closings.new ≡ met byte behind (reverse closings.old)) }
{
    if is_closer(byte) {
        return closings.push(Closing { byte, behind });
    }
    let close = closer(byte);
    if close != 0 {
        take_nearest(alloc, closings, close);
    }
    Ok(())
}

/// How many tokens the parentheses have that a token with this mark opens, before `behind` others; 0 where it opens none
/// that are closed.
fn width(closings: &List<Closing>, byte: u8, behind: u32) -> u32
    requires { behind < 2 ^ 31 }
    ensures { result ≡ width byte behind (reverse closings.now) }
{
    let closings = closings.as_slice();
    if closings.len() == 0 {
        return 0;
    }
    let nearest = closings[closings.len() - 1];
    if byte == b'(' && nearest.byte == b')' {
        (behind + 1).saturating_sub(nearest.behind)
    } else {
        0
    }
}

/// For each token, how many tokens the parentheses have that stand first from it on; 0 where none stand there. Goes from
/// the last token back to the first, once: time and memory are linear in the tokens, whatever they are.
pub(crate) fn parens_from_each(alloc: Global, tokens: &[Token]) -> Result<List<u32>, Memory>
    requires { length tokens.now < 2 ^ 31 }
    ensures directive_effect_at { IfOk result (λ widths. widths ≡ parens_from_each tokens.now) }
    ensures many { IfOk result (λ widths. length widths ≡ length tokens.now) }
{
    let mut widths = List::from_vec(vec![in alloc; 0; tokens.len()]?);
    let mut closings = List::new(alloc);
    for behind in 0..tokens.len() {
        let at = tokens.len() - 1 - behind;
        let byte = mark(&tokens[at]);
        widths.set(at, width(&closings, byte, behind as u32));
        meet(alloc, &mut closings, byte, behind as u32)?;
    }
    Ok(widths)
}
