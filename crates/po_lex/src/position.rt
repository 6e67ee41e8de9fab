// Places in a file, with what the line markers before them said.
ghost use Rattle.std.specs.Prelude.{◌≡◌, ◌+◌, ◌<◌, ◌≤◌, ◌^◌, ◌∷◌, [], length};
ghost use Rattle.po_lex.specs.Bytes.{newlines};
ghost use Rattle.po_lex.specs.Division.{freshly, moved, next_line};

use crate::bytes::is_gap;
use crate::effect::Effect;

/// Where a reader stands in a file, and what the line markers before it said.
#[derive(Clone, Copy, Debug)]
pub struct Position {
    /// Whether only spaces and tabs stand before it on its line.
    pub fresh: bool,
    /// The number of the line after this one, as the line markers count.
    pub next: u32,
    /// The number of this line in the file itself, from 1.
    pub own: u32,
    /// How many line markers have given a name.
    pub named: u32,
}

/// Whether only spaces and tabs stand on the line up to the end of these bytes. Goes back from their end to the byte that
/// decides it.
fn freshly(fresh: bool, text: &[u8]) -> bool
    ensures { result ≡ freshly fresh text.now }
{
    let mut end = text.len();
    while end > 0 {
        let byte = text[end - 1];
        if byte == b'\n' {
            return true;
        }
        if !is_gap(byte) {
            return false;
        }
        end -= 1;
    }
    fresh
}

impl Position {
    /// The place behind a blank of this byte. Constant time.
    pub(crate) fn past_blank(&self, byte: u8) -> Position
        requires own { self.now.own ≤ 2 ^ 25 }
        requires next { self.now.next ≤ 2 ^ 31 + 2 ^ 25 }
        ensures { result ≡ moved self.now (byte ∷ []) Effect.Silent }
    {
        if byte == b'\n' {
            return Position {
                fresh: true,
                next: self.next + 1,
                own: self.own + 1,
                named: self.named,
            };
        }
        Position {
            fresh: is_gap(byte) && self.fresh,
            next: self.next,
            own: self.own,
            named: self.named,
        }
    }

    /// The place behind a part with these bytes, in which so many lines end, and which says this. Constant time, but for the
    /// spaces and tabs at its end.
    pub(crate) fn moved(&self, text: &[u8], lines: u32, effect: &Effect) -> Position
        requires short { length text.now ≤ 2 ^ 24 }
        requires lines { lines ≡ newlines text.now }
        requires own { self.now.own ≤ 2 ^ 25 }
        requires named { self.now.named ≤ 2 ^ 25 }
        requires next { next_line effect.now self.now.next ≤ 2 ^ 31 + 2 ^ 25 }
        ensures { result ≡ moved self.now text.now effect.now }
    {
        let fresh = freshly(self.fresh, text);
        let own = self.own + lines;
        match effect {
            Effect::Silent => Position {
                fresh,
                next: self.next + lines,
                own,
                named: self.named,
            },
            Effect::Line(number) => Position {
                fresh,
                next: *number + lines,
                own,
                named: self.named,
            },
            Effect::Named(number, _) => Position {
                fresh,
                next: *number + lines,
                own,
                named: self.named + 1,
            },
        }
    }
}
