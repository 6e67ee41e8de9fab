// The tokens of a file's bytes.
ghost use Rattle.std.specs.Prelude.{ℕ, ◌≡◌, ◌+◌, ◌-◌, ◌<◌, ◌≤◌, ◌^◌, ◌++◌, ◌∷◌, [], ◌≢◌, length, take, drop, slice_index, IfOk, IfErr, OnOk, List as Items};
ghost use Rattle.po_base.specs.declared.token.Token.{Token as Placed};
ghost use Rattle.po_lex.specs.Bytes.{newlines};
ghost use Rattle.po_lex.specs.PartKinds.{token_kind_of};
ghost use Rattle.po_lex.specs.Division.{Part, AreTokens, ArePlaced, Divides, Fails, HasTooMany, as_token, is_directive, moved, named_by, next_line, start, tokens_of};
ghost use Rattle.po_lex.specs.Lexing.{IsKept, IsRead, HasCause, failure};
ghost use Rattle.po_lex.specs.declared.lexing.LexFail.TheVariants.{Memory as NoMemory};

use crate::bytes::is_blank;
use crate::effect::Effect;
use crate::part::{FoundPart, part_of, rest_of};
use crate::part_kind::PartKind;
use crate::position::Position;
use po_base::{List, Memory, Text, Token, TokenKind, Tokens};
use std::alloc::Global;
use thiserror::Error;

/// The most tokens that a file may have.
const MOST_TOKENS: usize = 1 << 22;

/// Why a file has no tokens.
#[derive(Clone, Copy, Debug, PartialEq, Eq, Error)]
pub enum LexFail {
    /// On this line of the file nothing stands that a token, a blank or a comment could be.
    #[error("no token stands on line {line}")]
    Lex { line: u32 },
    /// On this line of the file a directive stands that isn't allowed.
    #[error("the directive on line {line} is not allowed")]
    Directive { line: u32 },
    /// The file has more than 2^22 tokens.
    #[error("too many tokens")]
    TooMany,
    /// Memory was wanting.
    #[error("out of memory")]
    Memory,
}

impl From<Memory> for LexFail {
    ghost from_gives = { λ _ e. e ≡ NoMemory };

    fn from(_error: Memory) -> LexFail {
        LexFail::Memory
    }
}

/// Puts a token at the end, and says whether there are more than 2^22 now; `excess` says whether there were. Those past
/// 2^22 are counted and not put.
fn put(list: &mut List<Token>, excess: bool, token: Token) -> Result<bool, Memory>
    ensures { IfOk result (λ now. (tokens : Items Placed) → IsKept excess list.old tokens → IsKept now list.new (tokens ++ token ∷ [])) }
{
    if excess {
        return Ok(true);
    }
    if list.len() == MOST_TOKENS {
        return Ok(true);
    }
    list.push(token)?;
    Ok(false)
}

/// So many bytes of a file from a place on.
fn text_at(file: &Text, at: usize, count: usize) -> &[u8]
    requires { at + count ≤ length file.now }
    ensures { result.now ≡ take count (drop at file.now) }
{
    &file.bytes()[at..at + count]
}

/// So many bytes of a file from a place on, as a text that shares them. Constant time.
fn shared_text_at(file: &Text, at: usize, count: usize) -> Result<Text, Memory>
    requires { at + count ≤ length file.now }
    ensures { IfOk result (λ text. text ≡ take count (drop at file.now)) }
{
    let _bytes = file.bytes();
    file.part(at, at + count)
}

/// Puts the token of a part, where it is one, at the end as `put` does. The part has `count` bytes of the file from `at`
/// on, which the token shares. Constant time on the average.
fn put_part(
    list: &mut List<Token>,
    excess: bool,
    kind: Option<TokenKind>,
    position: &Position,
    file: &Text,
    at: usize,
    count: usize,
) -> Result<bool, Memory>
    requires { at + count ≤ length file.now }
    ensures { IfOk result (λ now. (tokens : Items Placed) → IsKept excess list.old tokens → IsKept now list.new (tokens ++ as_token kind position.now (take count (drop at file.now)))) }
{
    match kind {
        Some(kind) => {
            let token = Token {
                kind,
                text: shared_text_at(file, at, count)?,
                file: position.named,
                line: position.next.saturating_sub(1),
                own_line: position.own,
            };
            put(list, excess, token)
        }
        None => Ok(excess),
    }
}

/// Puts the name that a part gives to the file, where it gives one, at the end.
fn put_name(names: &mut List<Text>, effect: Effect) -> Result<(), Memory>
    ensures { OnOk result (names.new ≡ names.old ++ named_by effect) }
{
    match effect {
        Effect::Silent => Ok(()),
        Effect::Line(_) => Ok(()),
        Effect::Named(_, name) => names.push(name),
    }
}

/// What was read of a file up to a place.
#[derive(Debug, Drop)]
struct Lexer {
    list: List<Token>,
    /// Whether the file has more tokens than the list may have.
    excess: bool,
    names: List<Text>,
    position: Position,
}

impl Lexer {
    /// Nothing of a file of this name.
    fn new(alloc: Global, name: &Text) -> Result<Lexer, Memory>
        ensures { IfOk result (λ lexer. IsRead name.now [] lexer) }
    {
        let mut names = List::new(alloc);
        names.push(name.share()?)?;
        Ok(Lexer {
            list: List::new(alloc),
            excess: false,
            names,
            position: Position {
                fresh: true,
                next: 2,
                own: 1,
                named: 0,
            },
        })
    }

    /// Reads a blank of this byte. Constant time.
    fn read_blank(&mut self, byte: u8)
        requires own { self.old.position.own ≤ 2 ^ 25 }
        requires next { self.old.position.next ≤ 2 ^ 31 + 2 ^ 25 }
        ensures read { (name : Items ℕ) (front : Items Part) → IsRead name front self.old → IsRead name (front ++ record { part_kind = PartKind.Blank; text = byte ∷ []; effect = Effect.Silent } ∷ []) self.new }
        ensures position { self.new.position ≡ moved self.old.position (byte ∷ []) Effect.Silent }
    {
        self.position = self.position.past_blank(byte);
    }

    /// Reads a part that stands in the file from `at` on. Constant time, but for the blanks at its end.
    fn read(&mut self, file: &Text, at: usize, part: FoundPart) -> Result<(), Memory>
        requires within { at + part.end ≤ length file.now }
        requires short { part.end ≤ 2 ^ 24 }
        requires lines { part.lines ≡ newlines (take part.end (drop at file.now)) }
        requires own { self.old.position.own ≤ 2 ^ 25 }
        requires named { self.old.position.named ≤ 2 ^ 25 }
        requires next { next_line part.effect self.old.position.next ≤ 2 ^ 31 + 2 ^ 25 }
        ensures read { OnOk result ((name : Items ℕ) (front : Items Part) → IsRead name front self.old → IsRead name (front ++ record { part_kind = part.part_kind; text = take part.end (drop at file.now); effect = part.effect } ∷ []) self.new) }
        ensures position { OnOk result (self.new.position ≡ moved self.old.position (take part.end (drop at file.now)) part.effect) }
    {
        self.excess = put_part(
            &mut self.list,
            self.excess,
            part.part_kind.token_kind_of(),
            &self.position,
            file,
            at,
            part.end,
        )?;
        let text = text_at(file, at, part.end);
        self.position = self.position.moved(text, part.lines, &part.effect);
        put_name(&mut self.names, part.effect)
    }

    /// The tokens that were read, or that they are too many.
    fn finish(self) -> Result<Tokens, LexFail>
        ensures tokens { IfOk result (λ tokens. (name : Items ℕ) (front : Items Part) → IsRead name front self → (tokens.list ≡ tokens_of start front) × (length tokens.list ≤ 2 ^ 22) × (tokens.names ≡ self.names)) }
        ensures fail { IfErr result (λ fail. (fail ≡ LexFail.TooMany) × ((name : Items ℕ) (front : Items Part) → IsRead name front self → 2 ^ 22 < length (tokens_of start front))) }
    {
        if self.excess {
            return Err(LexFail::TooMany);
        }
        Ok(Tokens {
            list: self.list,
            names: self.names,
        })
    }
}

/// Why no part stands at a place.
fn no_part(position: &Position, bytes: &[u8]) -> LexFail
    requires { 0 < length bytes.now }
    ensures { result ≡ failure (is_directive position.now.fresh bytes.now) position.now.own }
{
    if position.fresh && bytes[0] == b'#' {
        LexFail::Directive { line: position.own }
    } else {
        LexFail::Lex { line: position.own }
    }
}

/// The byte at a place of a file.
fn byte_at(file: &Text, at: usize) -> u8
    requires { at < length file.now }
    ensures { result ≡ slice_index file.now at }
{
    file.bytes()[at]
}

/// The tokens of a file of at most 2^24 bytes, which the tokens share. Time linear in the bytes.
fn tokens_of_file(alloc: Global, name: &Text, file: &Text) -> Result<Tokens, LexFail>
    requires { length file.now ≤ 2 ^ 24 }
    ensures tokens { IfOk result (λ tokens. AreTokens name.now file.now tokens) }
    ensures fail { IfErr result (λ fail. HasCause file.now fail) }
{
    let count = file.bytes().len();
    let mut lexer = Lexer::new(alloc, name)?;
    let mut at = 0;
    while at < count {
        let byte = byte_at(file, at);
        if is_blank(byte) {
            lexer.read_blank(byte);
            at += 1;
            continue;
        }
        match part_of(alloc, file, at, lexer.position.fresh)? {
            Some(part) => {
                let end = part.end;
                lexer.read(file, at, part)?;
                at += end;
            }
            None => return Err(no_part(&lexer.position, rest_of(file, at))),
        }
    }
    lexer.finish()
}

/// The tokens of a file of at most 2^24 bytes that a C preprocessor wrote, in the one division of its bytes into
/// longest parts. The first name is the file's own, and each line marker that gives a name adds one. Time is linear in
/// the bytes. Memory is one copy of the bytes, which the tokens share, and for each token its place in the list; each name is
/// kept once for a marker that gives it.
///
/// # Errors
///
/// [`LexFail::Lex`] and [`LexFail::Directive`] exactly where the bytes have no division, with the line of the file on
/// which the first place stands at which no part does. [`LexFail::TooMany`] exactly where the division has more than 2^22
/// tokens.
pub fn tokens(alloc: Global, name: &Text, bytes: &[u8]) -> Result<Tokens, LexFail>
    requires { length bytes.now ≤ 2 ^ 24 }
    ensures tokens { IfOk result (λ tokens. AreTokens name.now bytes.now tokens) }
    ensures placed { IfOk result (λ tokens. ArePlaced tokens) }
    ensures fail { IfErr result (λ fail. HasCause bytes.now fail) }
{
    let file = Text::new(alloc, bytes)?;
    tokens_of_file(alloc, name, &file)
}
