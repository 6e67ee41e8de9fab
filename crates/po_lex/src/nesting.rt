// The brackets that are open at a place among tokens.
ghost use Rattle.std.specs.Prelude.{ℕ, ◌≡◌, ◌∷◌, [], cond, IfOk, IfErr, IsTrue, true, false, reverse};
ghost use Rattle.po_lex.specs.Brackets.{closer, ends, ends_in, is_closer, is_punct, is_word, lone, mark, outset, pop, state_of, step};

use po_base::{List, Memory, Token, TokenKind};
use std::alloc::Global;

/// A bracket that is open.
#[derive(Clone, Copy, Debug)]
pub struct Open {
    /// The byte of the bracket that closes it.
    pub close: u8,
    /// The line of the file on which it stands.
    pub line: u32,
    /// Whether it is a `{` that stands first in its piece or follows a `)`.
    pub body: bool,
}

/// What a walk over tokens has come to: the brackets that are open, the innermost last.
#[derive(Debug, Drop)]
pub(crate) struct Nesting {
    pub open: List<Open>,
    /// Whether a `{` here would stand first in its piece or follow a `)`.
    pub begins: bool,
}

/// Whether the token is a punctuator.
pub(crate) fn is_punct(kind: TokenKind) -> bool
    ensures { result ≡ is_punct kind }
{
    match kind {
        TokenKind::Punct => true,
        TokenKind::Word | TokenKind::Number | TokenKind::Char | TokenKind::Str => false,
    }
}

/// Whether the token is a word.
pub(crate) fn is_word(kind: TokenKind) -> bool
    ensures { result ≡ is_word kind }
{
    match kind {
        TokenKind::Word => true,
        TokenKind::Punct | TokenKind::Number | TokenKind::Char | TokenKind::Str => false,
    }
}

/// The one byte of a text, or 0 where it has none or several.
fn lone(text: &[u8]) -> u8
    ensures { result ≡ lone text.now }
{
    if text.len() == 1 { text[0] } else { 0 }
}

/// The byte of a punctuator that has one, or 0.
pub(crate) fn mark(token: &Token) -> u8
    ensures { result ≡ mark token.now }
{
    if is_punct(token.kind) {
        lone(token.text.bytes())
    } else {
        0
    }
}

/// The byte of the bracket that closes an opening one, or 0.
pub(crate) fn closer(byte: u8) -> u8
    ensures { result ≡ closer byte }
{
    match byte {
        b'(' => b')',
        b'[' => b']',
        b'{' => b'}',
        _ => 0,
    }
}

/// Whether a byte is a closing bracket.
pub(crate) fn is_closer(byte: u8) -> bool
    ensures { result ≡ is_closer byte }
{
    byte == b')' || byte == b']' || byte == b'}'
}

impl Nesting {
    /// The walk before the first token of a piece.
    pub(crate) fn new(alloc: Global) -> Nesting
        ensures { state_of result ≡ outset }
    {
        Nesting {
            open: List::new(alloc),
            begins: true,
        }
    }

    /// Whether a piece ends with this token, which comes next.
    pub(crate) fn ends(&self, token: &Token) -> bool
        ensures { result ≡ ends (state_of self.now) token.now }
    {
        let open = self.open.as_slice();
        if open.len() == 0 {
            return mark(token) == b';';
        }
        open.len() == 1 && open[0].body && mark(token) == b'}'
    }

    /// Takes the innermost open bracket away, and says whether this byte closes it.
    fn close(&mut self, byte: u8) -> bool
        ensures closed { result ≡ true → pop byte (reverse self.old.open) ≡ Some (reverse self.new.open) }
        ensures other { result ≡ false → pop byte (reverse self.old.open) ≡ None }
        ensures begins { self.new.begins ≡ self.old.begins }
    {
        match self.open.pop() {
            Some(open) => open.close == byte,
            None => false,
        }
    }

    /// Goes on over a token, and says whether it is no closing bracket that fails to match the innermost open one.
    /// Constant time on the average.
    pub(crate) fn step(&mut self, token: &Token) -> Result<bool, Memory>
        ensures on { IfOk result (λ on. on ≡ true → step (state_of self.old) token.now ≡ Some (state_of self.new)) }
        ensures stuck { IfOk result (λ on. on ≡ false → step (state_of self.old) token.now ≡ None) }
    {
        let byte = mark(token);
        if is_closer(byte) {
            let closed = self.close(byte);
            self.begins = byte == b')';
            return Ok(closed);
        }
        let close = closer(byte);
        if close != 0 {
            self.open.push(Open {
                close,
                line: token.own_line,
                body: byte == b'{' && self.begins,
            })?;
        }
        self.begins = byte == b')';
        Ok(true)
    }
}
