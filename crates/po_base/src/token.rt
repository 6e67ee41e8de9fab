// Tokens of a preprocessed file (C99 6.4).
use crate::list::List;
use crate::text::Text;

/// What kind of token a token is (C99 6.4).
#[derive(Clone, Copy, Debug, PartialEq, Eq)]
pub enum TokenKind {
    /// An identifier or a keyword.
    Word,
    /// A number of the preprocessor (C99 6.4.8).
    Number,
    /// A character constant.
    Char,
    /// A string literal.
    Str,
    /// A punctuator.
    Punct,
}

/// A token of a file.
#[derive(Debug, Drop)]
pub struct Token {
    pub kind: TokenKind,
    /// The bytes of the token as the file has them.
    pub text: Text,
    /// The place of the file's name, as the line markers give it, in [`Tokens`]' `names`.
    pub file: u32,
    /// The line, as the line markers count it.
    pub line: u32,
    /// The line in the file itself, counted from 1.
    pub own_line: u32,
}

/// The tokens of a file in their order, and the names of files that they cite.
#[derive(Debug, Drop)]
pub struct Tokens {
    pub list: List<Token>,
    pub names: List<Text>,
}
