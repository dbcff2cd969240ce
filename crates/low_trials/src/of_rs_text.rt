//! The tokens of texts, and what reads them.

ghost use Rattle.std.specs.Prelude.{◌≤◌, length};

use rs_model::NoMemory;
use rs_text::{FaultKind, Lexer, Text, TokenKind, next_token, place};
use std::alloc::Global;
use std::test::Fail;

/// 65 bytes that could be a word, were they not one too many.
const LONG: &[u8] = b"ab34567890b234567890c234567890d234567890e234567890f234567890g2345";

fn letter_of(kind: TokenKind) -> &'static str {
    match kind {
        TokenKind::Word => "w",
        TokenKind::Number => "n",
        TokenKind::Arrow => "->",
        TokenKind::Bang => "!",
        TokenKind::Question => "?",
        TokenKind::Colon => ":",
        TokenKind::Dot => ".",
        TokenKind::Comma => ",",
        TokenKind::OpenBrace => "{",
        TokenKind::CloseBrace => "}",
        TokenKind::OpenParen => "(",
        TokenKind::CloseParen => ")",
        TokenKind::OpenBracket => "[",
        TokenKind::CloseBracket => "]",
        TokenKind::Finish => "end",
    }
}

fn word_of(kind: FaultKind) -> &'static str {
    match kind {
        FaultKind::BadByte => "bad",
        FaultKind::NumberTooLarge => "large",
        FaultKind::NameTooLong => "long",
    }
}

/// Writes the next token with its offsets, or the fault, and returns whether it is the last.
fn show_next(text: &mut Text, lexer: &mut Lexer) -> Result<bool, NoMemory> {
    match lexer.next() {
        Ok(token) => {
            text.push(letter_of(token.kind).as_bytes())?;
            text.push_number(token.from as u64)?;
            text.push(b"-")?;
            text.push_number(token.until as u64)?;
            Ok(token.kind == TokenKind::Finish)
        }
        Err(fault) => {
            text.push(word_of(fault.kind).as_bytes())?;
            text.push_number(fault.at as u64)?;
            Ok(true)
        }
    }
}

/// The tokens from `at` on, to the end or a fault; the last is asked for twice.
fn shown(alloc: Global, bytes: &[u8], at: usize) -> Result<Text, NoMemory>
    requires { at ≤ length bytes.now }
{
    let mut lexer = Lexer::new(bytes, at);
    let mut text = Text::new(alloc);
    for _ in 0..40 {
        if show_next(&mut text, &mut lexer)? {
            break;
        }
        text.push(b" ")?;
    }
    text.push(b" ")?;
    show_next(&mut text, &mut lexer)?;
    Ok(text)
}

const CUTS: [(&[u8], &str); 20] = [
    (b"", "end0-0 end0-0"),
    (
        b"w 1->!?:.,",
        "w0-1 n2-3 ->3-5 !5-6 ?6-7 :7-8 .8-9 ,9-10 end10-10 end10-10",
    ),
    (b"{}()[]", "{0-1 }1-2 (2-3 )3-4 [4-5 ]5-6 end6-6 end6-6"),
    (
        b"_ A9_z rec end",
        "w0-1 w2-6 w7-10 w11-14 end14-14 end14-14",
    ),
    (b"12ab a12", "n0-2 w2-4 w5-8 end8-8 end8-8"),
    (b" \t\r\n", "end4-4 end4-4"),
    (b"a\r\n\tb", "w0-1 w4-5 end5-5 end5-5"),
    (b"ab#c\nd", "w0-2 w5-6 end6-6 end6-6"),
    (b"# \xff-$#\r\n1", "n8-9 end9-9 end9-9"),
    (b"a #", "w0-1 end3-3 end3-3"),
    (b"-", "bad0 bad0"),
    (b"A->B A- >B", "w0-1 ->1-3 w3-4 w5-6 bad6 bad6"),
    (b"->>", "->0-2 bad2 bad2"),
    (b"a \xff b", "w0-1 bad2 bad2"),
    (b"$", "bad0 bad0"),
    (b"4294967295", "n0-10 end10-10 end10-10"),
    (b"4294967296", "large0 large0"),
    (b" 00000000000004294967295", "n1-24 end24-24 end24-24"),
    (b"1 99999999999999999999999", "n0-1 large2 large2"),
    (LONG, "long0 long0"),
];

/// How many of the rows are cut as they say.
fn right_cuts(alloc: Global, rows: &[(&[u8], &str)]) -> Result<u32, NoMemory> {
    let mut right: u32 = 0;
    for (bytes, wanted) in rows {
        if shown(alloc, bytes, 0)?.as_slice() == wanted.as_bytes() {
            right = right.wrapping_add(1);
        }
    }
    Ok(right)
}

#[test]
fn cuts_tokens(rt: HostRuntime) -> Result<(), Fail> {
    let alloc = rt.alloc();
    assert!(rt; right_cuts(alloc, &CUTS)? == 20);
    let text = shown(alloc, LONG, 1)?;
    assert!(rt; text.as_slice() == b"w1-65 end65-65 end65-65".as_slice());
    Ok(())
}

#[test]
fn reads_numbers(rt: HostRuntime) {
    assert!(rt; next_token(b"0", 0).value() == Some(0));
    assert!(rt; next_token(b"0064", 0).value() == Some(64));
    assert!(rt; next_token(b"4294967295", 0).value() == Some(4294967295));
    assert!(rt; next_token(b"4294967296", 0).value().is_none());
    assert!(rt; next_token(b"18446744073709551616", 0).value().is_none());
}

#[test]
fn counts_lines_and_columns(rt: HostRuntime) {
    assert!(rt; place(b"", 0) == (1, 1));
    assert!(rt; place(b"ab", 2) == (1, 3));
    assert!(rt; place(b"a\nb", 1) == (1, 2));
    assert!(rt; place(b"a\nb", 2) == (2, 1));
    assert!(rt; place(b"\n\n", 2) == (3, 1));
    assert!(rt; place(b"a\r\tb", 3) == (1, 4));
    assert!(rt; place(b"roles A, 4294967296", 9) == (1, 10));
    assert!(rt; place(b"roles A, B\nprotocol A-", 21) == (2, 11));
}
