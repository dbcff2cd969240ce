//! Tokens and their kinds.

/// The kinds of tokens. A mark is a token of one or two bytes, always the same.
#[derive(Clone, Copy, Debug, PartialEq, Eq)]
pub enum TokenKind {
    /// A letter or `_`, then letters, digits and `_`: 1 to 64 bytes.
    Word,
    /// Decimal digits, with a value of at most 4,294,967,295.
    Number,
    /// `->`
    Arrow,
    /// `!`
    Bang,
    /// `?`
    Question,
    /// `:`
    Colon,
    /// `.`
    Dot,
    /// `,`
    Comma,
    /// `{`
    OpenBrace,
    /// `}`
    CloseBrace,
    /// `(`
    OpenParen,
    /// `)`
    CloseParen,
    /// `[`
    OpenBracket,
    /// `]`
    CloseBracket,
    /// The end of the bytes.
    Finish,
}

/// A token: its text is the bytes from `from` to before `until`, offsets into the whole text.
#[derive(Clone, Copy, Debug, PartialEq, Eq)]
pub struct Token {
    pub kind: TokenKind,
    pub from: usize,
    pub until: usize,
}

/// Why no token begins at an offset.
#[derive(Clone, Copy, Debug, PartialEq, Eq)]
pub enum FaultKind {
    /// A byte that begins no token.
    BadByte,
    /// A number above 4,294,967,295.
    NumberTooLarge,
    /// A word of more than 64 bytes.
    NameTooLong,
}

/// What stands in place of a token, and the offset of its first byte.
#[derive(Clone, Copy, Debug, PartialEq, Eq)]
pub struct TokenFault {
    pub kind: FaultKind,
    pub at: usize,
}
