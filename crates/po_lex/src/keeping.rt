// The tokens that are kept.
ghost use Rattle.std.specs.Prelude.{ℕ, ◌≡◌, ◌≤◌, ◌<◌, ◌+◌, ◌-◌, ◌^◌, ◌++◌, ◌==◌, ◌&&◌, length, take, drop, map, slice_index, IfOk, OnOk, List as Items};
ghost use Rattle.po_base.specs.declared.token.Token.{Token as Placed};
ghost use Rattle.po_lex.specs.Brackets.{closer, is_closer, mark};
ghost use Rattle.po_lex.specs.Closings.{parens_from_each};
ghost use Rattle.po_lex.specs.Keeping.{advance, at_start, deeper, double_parens, kept_as, may_end, renamed_as, size_as, AreSelected, AreReplacements, Keeps};
ghost use Rattle.po_lex.specs.Division.{ArePlaced};

use crate::closing::parens_from_each;
use crate::extension::{Extension, extension_of, tells};
use crate::nesting::{closer, is_closer, is_word, mark};
use po_base::{List, Memory, Text, Token, Tokens};
use std::alloc::Global;

/// What stands before a place among the tokens of a file as they were read.
#[derive(Clone, Copy, Debug)]
pub struct Context {
    /// How many brackets are open.
    pub depth: u32,
    /// Whether a word, a `)` or a `]` stands directly before.
    pub after: bool,
}

/// How many tokens the parentheses have that stand first from a place on, as `widths` tells; 0 behind the last.
fn width_at(widths: &[u32], at: usize) -> usize
    ensures value { result ≡ slice_index widths.now at }
    ensures few { result < 2 ^ 32 }
{
    if at < widths.len() {
        widths[at] as usize
    } else {
        0
    }
}

/// How many tokens the double parentheses have that stand first; 0 where none stand there. `widths` tells how many the
/// parentheses have from each token on. Constant time.
fn double_parens(widths: &[u32]) -> usize
    ensures value { (tokens : Items Placed) → widths.now ≡ parens_from_each tokens → result ≡ double_parens tokens }
    ensures few { result < 2 ^ 32 }
{
    let outer = width_at(widths, 0);
    let inner = width_at(widths, 1);
    if inner != 0 && inner + 2 == outer {
        outer
    } else {
        0
    }
}

/// How many brackets are open behind a token.
fn deeper(depth: u32, token: &Token) -> u32
    requires { depth < 2 ^ 31 }
    ensures value { result ≡ deeper depth token.now }
    ensures few { result ≤ depth + 1 }
{
    let byte = mark(token);
    if is_closer(byte) {
        return depth.saturating_sub(1);
    }
    if closer(byte) == 0 {
        return depth;
    }
    depth + 1
}

/// Whether a declarator may end with a token.
fn may_end(token: &Token) -> bool
    ensures { result ≡ may_end token.now }
{
    is_word(token.kind) || mark(token) == b')' || mark(token) == b']'
}

impl Context {
    /// What stands before the place behind these tokens. Time linear in their number.
    fn advance(self, tokens: &[Token]) -> Context
        requires { self.depth + length tokens.now < 2 ^ 31 }
        ensures value { result ≡ advance self tokens.now }
        ensures few { result.depth ≤ self.depth + length tokens.now }
    {
        let mut context = self;
        for token in tokens {
            context = Context {
                depth: deeper(context.depth, token),
                after: may_end(token),
            };
        }
        context
    }

    /// How many tokens are judged at once from one on that is this word. `widths` tells how many the parentheses have from
    /// each token behind it on. Constant time.
    fn size(self, extension: Extension, widths: &[u32]) -> usize
        ensures value { (others : Items Placed) → widths.now ≡ parens_from_each others → result ≡ size_as extension self others }
        ensures some { 0 < result }
        ensures few { result ≤ 2 ^ 32 }
    {
        match extension {
            Extension::Attribute => double_parens(widths) + 1,
            Extension::Assembler => self.assembler_size(widths),
            Extension::Other | Extension::Dropped | Extension::Inline | Extension::Const => 1,
        }
    }

    /// How many tokens are judged at once from an `__asm__` on.
    fn assembler_size(self, widths: &[u32]) -> usize
        ensures value { (others : Items Placed) → widths.now ≡ parens_from_each others → result ≡ size_as Extension.Assembler self others }
        ensures some { 0 < result }
        ensures few { result ≤ 2 ^ 32 }
    {
        if self.after && self.depth == 0 {
            width_at(widths, 0) + 1
        } else {
            1
        }
    }
}

/// The same token, whose text isn't copied.
fn same(token: &Token) -> Result<Token, Memory>
    ensures { IfOk result (λ copy. copy ≡ token.now) }
{
    Ok(Token {
        kind: token.kind,
        text: token.text.share()?,
        file: token.file,
        line: token.line,
        own_line: token.own_line,
    })
}

/// The token with this text, which isn't copied.
fn with_text(token: &Token, text: &Text) -> Result<Token, Memory>
    ensures { IfOk result (λ other. other ≡ record token.now { text = text.now }) }
{
    Ok(Token {
        kind: token.kind,
        text: text.share()?,
        file: token.file,
        line: token.line,
        own_line: token.own_line,
    })
}

/// The words as which others are read, once for all tokens of a file.
#[derive(Debug, Drop)]
struct Replacements {
    inline: Text,
    constant: Text,
}

impl Replacements {
    /// `inline` and `const`.
    fn new(alloc: Global) -> Result<Replacements, Memory>
        ensures { IfOk result (λ replacements. AreReplacements replacements) }
    {
        Ok(Replacements {
            inline: Text::new(alloc, b"inline")?,
            constant: Text::new(alloc, b"const")?,
        })
    }

    /// The token, which is this word, with the word as which it is read.
    fn renamed(&self, extension: Extension, token: &Token) -> Result<Token, Memory>
        requires { AreReplacements self.now }
        ensures { IfOk result (λ other. other ≡ renamed_as extension token.now) }
    {
        match extension {
            Extension::Inline => with_text(token, &self.inline),
            Extension::Const => with_text(token, &self.constant),
            Extension::Other | Extension::Dropped | Extension::Attribute | Extension::Assembler =>
                same(token),
        }
    }
}

/// Puts copies of these tokens at the end, without copies of their texts. Time linear in their number.
fn put_all(list: &mut List<Token>, tokens: &[Token]) -> Result<(), Memory>
    ensures { OnOk result (list.new ≡ list.old ++ tokens.now) }
{
    for token in tokens {
        list.push(same(token)?)?;
    }
    Ok(())
}

/// Puts what is kept of `first`, which is this word, and of the tokens `held` behind it, which are judged at once, at the
/// end. Time linear in their number.
fn put_kept(
    list: &mut List<Token>,
    replacements: &Replacements,
    extension: Extension,
    first: &Token,
    held: &[Token],
) -> Result<(), Memory>
    requires { AreReplacements replacements.now }
    ensures { OnOk result (list.new ≡ list.old ++ kept_as extension first.now held.now) }
{
    match extension {
        Extension::Dropped => Ok(()),
        Extension::Attribute => put_attribute(list, first, held),
        Extension::Assembler => put_assembler(list, first, held),
        Extension::Other | Extension::Inline | Extension::Const => {
            list.push(replacements.renamed(extension, first)?)
        }
    }
}

/// Puts what is kept of an attribute at the end.
fn put_attribute(list: &mut List<Token>, first: &Token, held: &[Token]) -> Result<(), Memory>
    ensures { OnOk result (list.new ≡ list.old ++ kept_as Extension.Attribute first.now held.now) }
{
    if held.is_empty() || tells(held) {
        list.push(same(first)?)?;
        put_all(list, held)?;
    }
    Ok(())
}

/// Puts what is kept of an `__asm__` at the end.
fn put_assembler(list: &mut List<Token>, first: &Token, held: &[Token]) -> Result<(), Memory>
    ensures { OnOk result (list.new ≡ list.old ++ kept_as Extension.Assembler first.now held.now) }
{
    if held.is_empty() {
        list.push(same(first)?)?;
    }
    Ok(())
}

/// The same names, whose bytes aren't copied. Time linear in their number.
fn same_names(alloc: Global, names: &List<Text>) -> Result<List<Text>, Memory>
    ensures { IfOk result (λ copy. copy ≡ names.now) }
{
    let names = names.as_slice();
    let mut copy = List::new(alloc);
    for name in names {
        copy.push(name.share()?)?;
    }
    Ok(copy)
}

/// The kept tokens of a file, and its names: `__extension__`, `__restrict` and `__restrict__` are dropped, and so are
/// `__attribute__` with its double parentheses, unless they hold a word that changes a layout or a type, and outside
/// brackets `__asm__` with its parentheses behind a word, a `)` or a `]`. `__inline` and `__inline__` are read as
/// `inline`, `__const` as `const`. No token is made that wasn't there, and texts are handed on and not copied. Time and
/// memory are linear in the tokens, whether brackets match or not.
pub fn kept(alloc: Global, tokens: &Tokens) -> Result<Tokens, Memory>
    requires { length tokens.now.list < 2 ^ 31 }
    ensures kept { IfOk result (λ kept. Keeps at_start tokens.now.list kept.list) }
    ensures names { IfOk result (λ kept. kept.names ≡ tokens.now.names) }
    ensures selected { IfOk result (λ kept. AreSelected tokens.now.list kept.list) }
    ensures few { IfOk result (λ kept. length kept.list ≤ length tokens.now.list) }
    ensures placed { IfOk result (λ kept. ArePlaced tokens.now → ArePlaced kept) }
{
    let read = tokens.list.as_slice();
    let replacements = Replacements::new(alloc)?;
    let mut list = List::new(alloc);
    let mut context = Context {
        depth: 0,
        after: false,
    };
    let widths = parens_from_each(alloc, read)?;
    let widths = widths.as_slice();
    let mut at = 0;
    while at < read.len() {
        let first = &read[at];
        let word = extension_of(first);
        let end = at + context.size(word, &widths[at + 1..]);
        put_kept(&mut list, &replacements, word, first, &read[at + 1..end])?;
        context = context.advance(&read[at..end]);
        at = end;
    }
    let names = same_names(alloc, &tokens.names)?;
    Ok(Tokens { list, names })
}
