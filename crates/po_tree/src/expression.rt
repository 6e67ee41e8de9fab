// Expressions, specifiers and declarators (C99 6.5, 6.7).
ghost use Rattle.std.specs.Prelude.{◌≡◌};
ghost use Rattle.po_tree.specs.declared.expression.Member.{out-Member};
ghost use Rattle.po_tree.specs.declared.expression.Param.{out-Param};

use crate::dropping::{drop_declarator, drop_specifiers};
use po_base::{Boxed, List, Op, Text};

/// An expression (C99 6.5). Parentheses are nodes.
#[cycle(tree)]
#[derive(Drop)]
pub enum Exp {
    /// An identifier that is no typedef name.
    Var(Text),
    /// An integer constant, as it is written.
    Num(Text),
    /// A character constant, as it is written.
    Chr(Text),
    /// String literals side by side, as they are written.
    Str(List<Text>),
    /// `(x)`
    Paren(Boxed<Exp>),
    /// `x[y]`
    Index(Boxed<Exp>, Boxed<Exp>),
    /// `f(x, y)`
    Call(Boxed<Exp>, List<Exp>),
    /// `x.member`
    Dot(Boxed<Exp>, Text),
    /// `x->member`
    Arrow(Boxed<Exp>, Text),
    /// `x++`
    PostInc(Boxed<Exp>),
    /// `x--`
    PostDec(Boxed<Exp>),
    /// `++x`
    PreInc(Boxed<Exp>),
    /// `--x`
    PreDec(Boxed<Exp>),
    /// `&x`
    Addr(Boxed<Exp>),
    /// `*x`
    Deref(Boxed<Exp>),
    /// `+x`
    Plus(Boxed<Exp>),
    /// `-x`
    Minus(Boxed<Exp>),
    /// `~x`
    Compl(Boxed<Exp>),
    /// `!x`
    Not(Boxed<Exp>),
    /// `sizeof x`
    SizeExp(Boxed<Exp>),
    /// `sizeof(type)`
    SizeType(Boxed<TypeName>),
    /// `(type)x`
    Cast(Boxed<TypeName>, Boxed<Exp>),
    /// A binary operator with its operands; `&&`, `||`, `=` and `,` are apart.
    Binary(Op, Boxed<Exp>, Boxed<Exp>),
    /// `x && y`
    LogAnd(Boxed<Exp>, Boxed<Exp>),
    /// `x || y`
    LogOr(Boxed<Exp>, Boxed<Exp>),
    /// `x ? y : z`
    Cond(Boxed<Exp>, Boxed<Exp>, Boxed<Exp>),
    /// `x = y` where there is no operator, else `x += y` and the like.
    Assign(Option<Op>, Boxed<Exp>, Boxed<Exp>),
    /// `x, y`
    Comma(Boxed<Exp>, Boxed<Exp>),
}

/// The name of a type in a cast or in `sizeof` (C99 6.7.6).
#[cycle(tree)]
#[derive(Drop)]
pub struct TypeName {
    pub specs: List<Specifier>,
    pub declarator: Declarator,
}

/// A declaration specifier (C99 6.7).
#[cycle(tree)]
#[derive(Drop)]
pub enum Specifier {
    /// A keyword: a storage class, a qualifier, `inline`, or a word of a type.
    Word(Text),
    /// A typedef name.
    Named(Text),
    /// A struct with its tag and its members, each where it is written.
    Struct(Option<Text>, Option<List<Member>>),
    /// An enumeration with its tag and its enumerators, each where it is written; true where a comma stands behind
    /// the last enumerator.
    Enum(Option<Text>, Option<List<(Text, Option<Exp>)>>, bool),
}

/// A declaration of members (C99 6.7.2.1).
#[cycle(tree)]
pub struct Member {
    pub specs: List<Specifier>,
    pub declarators: List<Declarator>,
}

impl Member {
    /// The two parts, moved out.
    pub fn into_parts(self) -> (List<Specifier>, List<Declarator>)
        ensures { (result.0 ≡ (out-Member self).specs) × (result.1 ≡ (out-Member self).declarators) }
    {
        let Member { specs, declarators } = self;
        (specs, declarators)
    }
}

/// What is nested inside is dropped in a loop, so that the stack doesn't grow with the nesting.
impl Drop for Member {
    #[cycle(dropping)]
    fn drop(self) {
        let Member { specs, declarators } = self;
        drop_specifiers(specs);
        drop(declarators);
    }
}

/// A declarator (C99 6.7.5).
#[cycle(tree)]
#[derive(Drop)]
pub struct Declarator {
    /// One list of qualifiers for each `*`.
    pub stars: List<List<Text>>,
    pub name: Option<Text>,
    pub suffix: Suffix,
}

/// What stands behind the name of a declarator.
#[cycle(tree)]
#[derive(Drop)]
pub enum Suffix {
    Plain,
    /// `[x][y]`, each with its size where it is written.
    Arrays(List<Option<Exp>>),
    /// Parameters; true where `, ...` follows them.
    Params(List<Param>, bool),
}

/// A parameter (C99 6.7.5).
#[cycle(tree)]
pub struct Param {
    pub specs: List<Specifier>,
    pub declarator: Declarator,
}

impl Param {
    /// The two parts, moved out.
    pub fn into_parts(self) -> (List<Specifier>, Declarator)
        ensures { (result.0 ≡ (out-Param self).specs) × (result.1 ≡ (out-Param self).declarator) }
    {
        let Param { specs, declarator } = self;
        (specs, declarator)
    }
}

/// What is nested inside is dropped in a loop, so that the stack doesn't grow with the nesting.
impl Drop for Param {
    #[cycle(dropping)]
    fn drop(self) {
        let Param { specs, declarator } = self;
        drop_specifiers(specs);
        drop_declarator(declarator);
    }
}
