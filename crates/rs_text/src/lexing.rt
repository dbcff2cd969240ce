//! The lexer, which cuts a text into tokens.

ghost use Rattle.std.specs.Prelude.{◌≡◌, ◌+◌, ◌-◌, ◌*◌, ◌<◌, ◌≤◌, [], length, take, drop, if◌then◌else◌, Some, None, OnErr, IfErr, IfOk, IfSome, IfNone, false, true};
ghost use Rattle.rs_text.specs.Bytes as bytes;
ghost use Rattle.rs_text.specs.ByteKinds.{front_by};
ghost use Rattle.rs_text.specs.Lexing.{front, front_of, word_front, number_front, length_of_blanks, word_length, number_length, next_lexeme, lexeme_of, broken_at};
ghost use Rattle.rs_text.specs.Signs.{broken, number, word_sign};
ghost use Rattle.rs_text.specs.Terminals.{terminal_sign};

use crate::byte_kinds::{ByteKind, kind_of};
use crate::word_lanes::{LANES, word_run};
use crate::{FaultKind, Terminal, TextToken, Token, TokenFault};
use memchr::memchr;
use rs_model::MOST_NAME_BYTES;
use std::marker::Model;

/// Cuts a text into its tokens, one by one, without copying it.
#[derive(Drop)]
pub struct Lexer<'a> {
    bytes: &'a [u8],
    at: usize,
}

impl<'a> Model for Lexer<'a> {
    ghost use Rattle.std.specs.Prelude.{length, ◌≤◌};
    ghost use Rattle.rs_text.specs.Data.{Lexer_data};

    ghost Value = { Lexer_data };

    ghost view = { λ l. record { bytes = l.bytes.now; at = l.at } };

    ghost invariant = { λ l. l.at ≤ length l.bytes.now };
}

impl<'a> Lexer<'a> {
    /// Begins at the offset `at`, which is at most the length.
    pub fn new(bytes: &'a [u8], at: usize) -> Lexer<'a>
        requires { at ≤ length bytes.now }
        ensures { result ≡ record { bytes = bytes.now; at = at } }
    {
        Lexer { bytes, at }
    }

    /// The next token. At the end it is `Finish`, again and again; after a fault the same fault comes again.
    pub fn next(&mut self) -> Result<Token, TokenFault>
        ensures token { IfOk result (λ t. next_lexeme self.old.bytes self.old.at ≡ lexeme_of self.old.bytes t) }
        ensures fault { IfErr result (λ f. next_lexeme self.old.bytes self.old.at ≡ broken_at f) }
        ensures ahead { IfOk result (λ t. self.old.at ≤ t.from) }
        ensures order { IfOk result (λ t. t.from ≤ t.until) }
        ensures within { IfOk result (λ t. t.until ≤ length self.old.bytes) }
        ensures moved { IfOk result (λ t. self.new ≡ record { bytes = self.old.bytes; at = t.until }) }
        ensures stays { OnErr result (self.new ≡ self.old) }
    {
        let next = next_token(self.bytes, self.at);
        match next.kind() {
            Ok(kind) => {
                self.at = next.until;
                Ok(Token {
                    kind,
                    from: next.from,
                    until: next.until,
                })
            }
            Err(kind) => Err(TokenFault {
                kind,
                at: next.from,
            }),
        }
    }
}

/// The next token from the offset `at` on, which is at most the length, or what stands in place of one.
#[inline(always)]
pub fn next_token(bytes: &[u8], at: usize) -> TextToken<'_>
    requires { at ≤ length bytes.now }
    ensures token { result ≡ next_lexeme bytes.now at }
    ensures ahead { at ≤ result.from }
    ensures order { result.from ≤ result.until }
    ensures within { result.until ≤ length bytes.now }
{
    let (_, rest) = bytes.split_at(at);
    let here = behind_gap(rest);
    let from = bytes.len() - here.len();
    let (terminal, size) = terminal_in_front(here);
    TextToken {
        terminal,
        from,
        until: from + size,
    }
}

/// The value of a number with one more digit.
fn with_digit(value: u32, digit: u8) -> Option<u32>
    ensures some { IfSome result (λ next. next ≡ value * 10 + (digit - 48)) }
    ensures none { IfNone result (4294967295 < value * 10 + (digit - 48)) }
{
    value
        .checked_mul(10)?
        .checked_add(u32::from(digit.saturating_sub(b'0')))
}

/// What stands behind the blanks and comments in front.
#[inline(always)]
fn behind_gap(bytes: &[u8]) -> &[u8]
    ensures behind { result.now ≡ drop (length_of_blanks false bytes.now) bytes.now }
    ensures within { length result.now ≤ length bytes.now }
{
    let mut rest = bytes;
    while let [first, behind @ ..] = rest {
        match kind_of(*first) {
            ByteKind::Gap if *first == b'#' => {
                let (_, next) = behind.split_at(comment_size(behind));
                rest = next;
            }
            ByteKind::Gap => rest = behind,
            _ => return rest,
        }
    }
    rest
}

/// The count of bytes in front that an open comment holds, as far as the end of its line.
#[inline(never)]
fn comment_size(bytes: &[u8]) -> usize
    ensures passed { length_of_blanks true bytes.now ≡ result + length_of_blanks false (drop result bytes.now) }
    ensures within { result ≤ length bytes.now }
{
    match memchr(b'\n', bytes) {
        Some(place) => place,
        None => bytes.len(),
    }
}

/// What is in front, and its size. What is no token takes up no bytes.
#[inline(always)]
fn terminal_in_front(bytes: &[u8]) -> (Terminal<'_>, usize)
    ensures front { front_of bytes.now ≡ front (terminal_sign result.0) result.1 }
    ensures within { result.1 ≤ length bytes.now }
{
    match bytes {
        [] => (Terminal::Finish, 0),
        [first, behind @ ..] => begun_by(kind_of(*first), bytes, behind),
    }
}

/// What begins with a byte of this kind, and its size.
#[inline(always)]
fn begun_by<'a>(kind: ByteKind, bytes: &'a [u8], behind: &'a [u8]) -> (Terminal<'a>, usize)
    requires { length bytes.now ≡ 1 + length behind.now }
    ensures front { front_by kind bytes.now behind.now ≡ front (terminal_sign result.0) result.1 }
    ensures within { result.1 ≤ length bytes.now }
{
    match kind {
        ByteKind::Letter => word_in_front(bytes, 1 + word_size(behind)),
        ByteKind::Digit => number_in_front(bytes),
        ByteKind::Dash => match behind {
            [b'>', ..] => (Terminal::Arrow, 2),
            _ => (Terminal::Faulty(FaultKind::BadByte), 0),
        },
        ByteKind::Bang => (Terminal::Bang, 1),
        ByteKind::Question => (Terminal::Question, 1),
        ByteKind::Colon => (Terminal::Colon, 1),
        ByteKind::Dot => (Terminal::Dot, 1),
        ByteKind::Comma => (Terminal::Comma, 1),
        ByteKind::OpenBrace => (Terminal::OpenBrace, 1),
        ByteKind::CloseBrace => (Terminal::CloseBrace, 1),
        ByteKind::OpenParen => (Terminal::OpenParen, 1),
        ByteKind::CloseParen => (Terminal::CloseParen, 1),
        ByteKind::OpenBracket => (Terminal::OpenBracket, 1),
        ByteKind::CloseBracket => (Terminal::CloseBracket, 1),
        ByteKind::Other | ByteKind::Gap => (Terminal::Faulty(FaultKind::BadByte), 0),
    }
}

/// The word that takes up so many bytes.
#[inline(always)]
fn word_in_front(bytes: &[u8], size: usize) -> (Terminal<'_>, usize)
    requires { size ≤ length bytes.now }
    ensures front { word_front bytes.now size ≡ front (terminal_sign result.0) result.1 }
    ensures within { result.1 ≤ length bytes.now }
{
    let (text, _) = bytes.split_at(size);
    if text.len() > MOST_NAME_BYTES {
        return (Terminal::Faulty(FaultKind::NameTooLong), 0);
    }
    (word(text), text.len())
}

/// The word with this text.
#[inline(always)]
fn word(text: &[u8]) -> Terminal<'_>
    ensures { terminal_sign result ≡ word_sign text.now }
{
    match text {
        [b'r', b'e', b'c'] => Terminal::Rec,
        [b'e', b'n', b'd'] => Terminal::End,
        _ => Terminal::Plain(text),
    }
}

/// The number whose digits are in front.
#[inline(always)]
fn number_in_front(bytes: &[u8]) -> (Terminal<'_>, usize)
    ensures front { number_front bytes.now (number_length bytes.now) ≡ front (terminal_sign result.0) result.1 }
    ensures within { result.1 ≤ length bytes.now }
{
    match digits_in_front(bytes) {
        Some(digits) => (Terminal::Number(digits.value), digits.count),
        None => (Terminal::Faulty(FaultKind::NumberTooLarge), 0),
    }
}

/// Digits of a number that is not too large.
#[derive(Clone, Copy)]
struct Digits {
    value: u32,
    count: usize,
}

// Apart from `number_in_front`, so that the token stays in registers.
#[inline(never)]
fn digits_in_front(bytes: &[u8]) -> Option<Digits>
    ensures some { IfSome result (λ digits. number_front bytes.now (number_length bytes.now) ≡ front (number digits.value) digits.count) }
    ensures within { IfSome result (λ digits. digits.count ≤ length bytes.now) }
    ensures none { IfNone result (number_front bytes.now (number_length bytes.now) ≡ front (broken FaultKind.NumberTooLarge) 0) }
{
    let mut value: u32 = 0;
    for (place, digit) in bytes.iter().enumerate() {
        if !is_digit(*digit) {
            return Some(Digits {
                value,
                count: place,
            });
        }
        value = with_digit(value, *digit)?;
    }
    Some(Digits {
        value,
        count: bytes.len(),
    })
}

/// The count of bytes in front that words are made of. Most words are short.
#[inline(always)]
fn word_size(bytes: &[u8]) -> usize
    ensures count { result ≡ word_length bytes.now }
    ensures within { result ≤ length bytes.now }
{
    let first = run_of_four(bytes);
    if first < 4 {
        return first;
    }
    let (_, behind) = bytes.split_at(4);
    let second = run_of_four(behind);
    if second < 4 {
        return 4 + second;
    }
    let (_, rest) = behind.split_at(4);
    8 + long_word_size(rest)
}

/// The same of the first four bytes alone.
#[inline(always)]
fn run_of_four(bytes: &[u8]) -> usize
    ensures count { result ≡ word_length (take 4 bytes.now) }
    ensures within { result ≤ length bytes.now }
{
    match bytes {
        [first, second, third, fourth, ..] => {
            if !is_of_word(*first) {
                0
            } else if !is_of_word(*second) {
                1
            } else if !is_of_word(*third) {
                2
            } else if !is_of_word(*fourth) {
                3
            } else {
                4
            }
        }
        _ => short_word_size(bytes),
    }
}

/// The same of all bytes, sixteen at a time.
#[inline(never)]
fn long_word_size(bytes: &[u8]) -> usize
    ensures count { result ≡ word_length bytes.now }
    ensures within { result ≤ length bytes.now }
{
    let mut rest = bytes;
    while rest.len() >= LANES {
        let run = word_run(rest);
        if run < LANES {
            return bytes.len() - rest.len() + run;
        }
        let (_, behind) = rest.split_at(LANES);
        rest = behind;
    }
    bytes.len() - rest.len() + short_word_size(rest)
}

/// The same, byte by byte.
#[inline(always)]
fn short_word_size(bytes: &[u8]) -> usize
    ensures count { result ≡ word_length bytes.now }
    ensures within { result ≤ length bytes.now }
{
    for (place, byte) in bytes.iter().enumerate() {
        if !is_of_word(*byte) {
            return place;
        }
    }
    bytes.len()
}

#[inline(always)]
fn is_of_word(byte: u8) -> bool
    ensures { result ≡ bytes.is_word_byte byte }
{
    matches!(kind_of(byte), ByteKind::Letter | ByteKind::Digit)
}

#[inline(always)]
pub(crate) fn is_letter(byte: u8) -> bool
    ensures { result ≡ bytes.is_letter byte }
{
    (byte >= b'a' && byte <= b'z') || (byte >= b'A' && byte <= b'Z') || byte == b'_'
}

#[inline(always)]
pub(crate) fn is_digit(byte: u8) -> bool
    ensures { result ≡ bytes.is_digit byte }
{
    byte >= b'0' && byte <= b'9'
}
