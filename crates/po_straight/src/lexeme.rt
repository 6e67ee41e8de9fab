use po_base::Text;

/// A sign of the served language: a keyword, a name, a constant or a mark (C99 6.4).
#[derive(Debug, Drop, PartialEq, Eq)]
pub enum Sign {
    Int,
    Void,
    Return,
    /// An identifier that is no keyword.
    Name(Text),
    /// A decimal constant, below 2^31.
    Constant(u32),
    Plus,
    Minus,
    Star,
    Slash,
    Percent,
    Open,
    Close,
    OpenBrace,
    CloseBrace,
    Comma,
    Semicolon,
}

/// A sign with the line on which it stands, counted from 1.
#[derive(Debug, Drop)]
pub struct Lexeme {
    pub sign: Sign,
    pub line: u32,
}
