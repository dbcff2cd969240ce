//! Which token it is.

ghost use Rattle.std.specs.Prelude.{◌≡◌};
ghost use Rattle.rs_text.specs.TokenTests as spec;

use crate::names::is_same;
use crate::{Terminal, TextToken};

impl<'a> TextToken<'a> {
    /// Whether it is this word, which is neither `rec` nor `end`.
    #[inline(always)]
    pub fn is_keyword(&self, word: &[u8]) -> bool
        ensures { result ≡ spec.is_keyword word.now self.now.sign }
    {
        match self.plain() {
            Some(text) => is_same(text, word),
            None => false,
        }
    }

    /// Whether it is the word `end`.
    #[inline(always)]
    pub fn is_end(&self) -> bool
        ensures { result ≡ spec.is_end self.now.sign }
    {
        match self.terminal() {
            Terminal::End => true,
            _ => false,
        }
    }

    /// The value of a number.
    #[inline(always)]
    pub fn value(&self) -> Option<u32>
        ensures { result ≡ spec.number_value self.now.sign }
    {
        match self.terminal() {
            Terminal::Number(value) => Some(value),
            _ => None,
        }
    }

    /// Whether it is `:`.
    #[inline(always)]
    pub fn is_colon(&self) -> bool
        ensures { result ≡ spec.is_colon self.now.sign }
    {
        match self.terminal() {
            Terminal::Colon => true,
            _ => false,
        }
    }

    /// Whether it is `,`.
    #[inline(always)]
    pub fn is_comma(&self) -> bool
        ensures { result ≡ spec.is_comma self.now.sign }
    {
        match self.terminal() {
            Terminal::Comma => true,
            _ => false,
        }
    }

    /// Whether it is `{`.
    #[inline(always)]
    pub fn is_open_brace(&self) -> bool
        ensures { result ≡ spec.is_open_brace self.now.sign }
    {
        match self.terminal() {
            Terminal::OpenBrace => true,
            _ => false,
        }
    }

    /// Whether it is `}`.
    #[inline(always)]
    pub fn is_close_brace(&self) -> bool
        ensures { result ≡ spec.is_close_brace self.now.sign }
    {
        match self.terminal() {
            Terminal::CloseBrace => true,
            _ => false,
        }
    }

    /// Whether it is `[`.
    #[inline(always)]
    pub fn is_open_bracket(&self) -> bool
        ensures { result ≡ spec.is_open_bracket self.now.sign }
    {
        match self.terminal() {
            Terminal::OpenBracket => true,
            _ => false,
        }
    }

    /// Whether it is `]`.
    #[inline(always)]
    pub fn is_close_bracket(&self) -> bool
        ensures { result ≡ spec.is_close_bracket self.now.sign }
    {
        match self.terminal() {
            Terminal::CloseBracket => true,
            _ => false,
        }
    }
}
