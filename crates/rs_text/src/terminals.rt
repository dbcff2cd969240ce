//! Tokens with what they say.

ghost use Rattle.std.specs.Prelude.{◌≡◌, Some, None, IfSome, IfNone};
ghost use Rattle.rs_text.specs.Seen.{plain_text, word_text};
ghost use Rattle.rs_text.specs.Terminals.{terminal_sign, token_kind};

use crate::tokens::{FaultKind, TokenKind};
use std::marker::Model;

/// What the grammars see of a token.
#[derive(Clone, Copy)]
pub enum Terminal<'a> {
    /// `rec`
    Rec,
    /// `end`
    End,
    /// Any other word.
    Plain(&'a [u8]),
    /// A number, by its value.
    Number(u32),
    /// `->`
    Arrow,
    /// `!`
    Bang,
    /// `?`
    Question,
    /// `:`
    Colon,
    /// `.`
    Dot,
    /// `,`
    Comma,
    /// `{`
    OpenBrace,
    /// `}`
    CloseBrace,
    /// `(`
    OpenParen,
    /// `)`
    CloseParen,
    /// `[`
    OpenBracket,
    /// `]`
    CloseBracket,
    /// The end of the bytes.
    Finish,
    /// No token: what stands there is at fault.
    Faulty(FaultKind),
}

/// A token of a text with what it says, or what stands in place of one. It is seen as its sign and its place.
#[derive(Drop)]
pub struct TextToken<'a> {
    pub(crate) terminal: Terminal<'a>,
    pub(crate) from: usize,
    pub(crate) until: usize,
}

impl<'a> Model for TextToken<'a> {
    ghost use Rattle.rs_text.specs.Lexemes.{Lexeme};
    ghost use Rattle.rs_text.specs.Terminals.{terminal_sign};

    ghost Value = { Lexeme };

    ghost view = { λ t. record { sign = terminal_sign t.terminal; from = t.from; until = t.until } };
}

impl<'a> TextToken<'a> {
    /// What the grammars see of it.
    #[inline(always)]
    pub fn terminal(&self) -> Terminal<'a>
        ensures { terminal_sign result ≡ self.now.sign }
    {
        self.terminal
    }

    /// The offset of its first byte.
    #[inline(always)]
    pub fn from(&self) -> usize
        ensures { result ≡ self.now.from }
    {
        self.from
    }

    /// The offset behind its last byte.
    #[inline(always)]
    pub fn until(&self) -> usize
        ensures { result ≡ self.now.until }
    {
        self.until
    }

    /// The text of a word other than `rec` and `end`.
    #[inline(always)]
    pub fn plain(&self) -> Option<&'a [u8]>
        ensures some { IfSome result (λ word. plain_text self.now.sign ≡ Some word.now) }
        ensures none { IfNone result (plain_text self.now.sign ≡ None) }
    {
        match self.terminal {
            Terminal::Plain(word) => Some(word),
            _ => None,
        }
    }

    /// The text of a word.
    #[inline(always)]
    pub fn word(&self) -> Option<&'a [u8]>
        ensures some { IfSome result (λ word. word_text self.now.sign ≡ Some word.now) }
        ensures none { IfNone result (word_text self.now.sign ≡ None) }
    {
        match self.terminal {
            Terminal::Rec => Some(b"rec"),
            Terminal::End => Some(b"end"),
            Terminal::Plain(word) => Some(word),
            _ => None,
        }
    }

    /// The kind of the token, or why it is none.
    pub fn kind(&self) -> Result<TokenKind, FaultKind>
        ensures { result ≡ token_kind self.now.sign }
    {
        match self.terminal {
            Terminal::Rec | Terminal::End | Terminal::Plain(_) => Ok(TokenKind::Word),
            Terminal::Number(_) => Ok(TokenKind::Number),
            Terminal::Arrow => Ok(TokenKind::Arrow),
            Terminal::Bang => Ok(TokenKind::Bang),
            Terminal::Question => Ok(TokenKind::Question),
            Terminal::Colon => Ok(TokenKind::Colon),
            Terminal::Dot => Ok(TokenKind::Dot),
            Terminal::Comma => Ok(TokenKind::Comma),
            Terminal::OpenBrace => Ok(TokenKind::OpenBrace),
            Terminal::CloseBrace => Ok(TokenKind::CloseBrace),
            Terminal::OpenParen => Ok(TokenKind::OpenParen),
            Terminal::CloseParen => Ok(TokenKind::CloseParen),
            Terminal::OpenBracket => Ok(TokenKind::OpenBracket),
            Terminal::CloseBracket => Ok(TokenKind::CloseBracket),
            Terminal::Finish => Ok(TokenKind::Finish),
            Terminal::Faulty(kind) => Err(kind),
        }
    }
}
