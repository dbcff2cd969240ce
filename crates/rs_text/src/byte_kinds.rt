//! What a token or a gap begins with, read from a table.

ghost use Rattle.std.specs.Prelude.{◌≡◌};
ghost use Rattle.rs_text.specs.ByteKinds.{kind_of};

use ByteKind::{
    Bang, CloseBrace, CloseBracket, CloseParen, Colon, Comma, Dash, Digit, Dot, Gap, Letter,
    OpenBrace, OpenBracket, OpenParen, Other, Question,
};

/// What a byte begins.
#[derive(Clone, Copy)]
pub(crate) enum ByteKind {
    /// A word: a letter or `_`.
    Letter,
    /// A number.
    Digit,
    /// An arrow: `-`.
    Dash,
    Bang,
    Question,
    Colon,
    Dot,
    Comma,
    OpenBrace,
    CloseBrace,
    OpenParen,
    CloseParen,
    OpenBracket,
    CloseBracket,
    /// Nothing.
    Other,
    /// A gap: a blank, or the `#` of a comment.
    Gap,
}

/// What the byte begins.
#[inline(always)]
pub(crate) fn kind_of(byte: u8) -> ByteKind
    ensures { result ≡ kind_of byte }
{
    KINDS[byte as usize]
}

// By the bytes.
#[rattlefmt::skip]
static KINDS: [ByteKind; 256] = [
    Other, Other, Other, Other, Other, Other, Other, Other,
    Other, Gap, Gap, Other, Other, Gap, Other, Other,
    Other, Other, Other, Other, Other, Other, Other, Other,
    Other, Other, Other, Other, Other, Other, Other, Other,
    Gap, Bang, Other, Gap, Other, Other, Other, Other,
    OpenParen, CloseParen, Other, Other, Comma, Dash, Dot, Other,
    Digit, Digit, Digit, Digit, Digit, Digit, Digit, Digit,
    Digit, Digit, Colon, Other, Other, Other, Other, Question,
    Other, Letter, Letter, Letter, Letter, Letter, Letter, Letter,
    Letter, Letter, Letter, Letter, Letter, Letter, Letter, Letter,
    Letter, Letter, Letter, Letter, Letter, Letter, Letter, Letter,
    Letter, Letter, Letter, OpenBracket, Other, CloseBracket, Other, Letter,
    Other, Letter, Letter, Letter, Letter, Letter, Letter, Letter,
    Letter, Letter, Letter, Letter, Letter, Letter, Letter, Letter,
    Letter, Letter, Letter, Letter, Letter, Letter, Letter, Letter,
    Letter, Letter, Letter, OpenBrace, Other, CloseBrace, Other, Other,
    Other, Other, Other, Other, Other, Other, Other, Other,
    Other, Other, Other, Other, Other, Other, Other, Other,
    Other, Other, Other, Other, Other, Other, Other, Other,
    Other, Other, Other, Other, Other, Other, Other, Other,
    Other, Other, Other, Other, Other, Other, Other, Other,
    Other, Other, Other, Other, Other, Other, Other, Other,
    Other, Other, Other, Other, Other, Other, Other, Other,
    Other, Other, Other, Other, Other, Other, Other, Other,
    Other, Other, Other, Other, Other, Other, Other, Other,
    Other, Other, Other, Other, Other, Other, Other, Other,
    Other, Other, Other, Other, Other, Other, Other, Other,
    Other, Other, Other, Other, Other, Other, Other, Other,
    Other, Other, Other, Other, Other, Other, Other, Other,
    Other, Other, Other, Other, Other, Other, Other, Other,
    Other, Other, Other, Other, Other, Other, Other, Other,
    Other, Other, Other, Other, Other, Other, Other, Other,
];
