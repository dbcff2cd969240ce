//! Whether a word is a role, which the token behind it tells.

ghost use Rattle.std.specs.Prelude.{◌≡◌, ◌≤◌, length, IfErr, IfOk, IfSome, Ok};
ghost use Rattle.rs_text.specs.Lexing.{next_lexeme};
ghost use Rattle.rs_text.specs.Readings.{Fails};
ghost use Rattle.rs_bodies.specs.Ahead.{IsToldBy, role_told};

use crate::dialects::Dialect;
use rs_text::{Stop, Terminal, TextKind, fault, next_token};

/// Whether what stands from the offset on makes the word before it a role.
#[inline(always)]
pub(crate) fn is_role(dialect: Dialect, bytes: &[u8], at: usize) -> Result<bool, Stop>
    requires { at ≤ length bytes.now }
    ensures ok { IfOk result (λ is_role. role_told dialect (next_lexeme bytes.now at).sign (next_lexeme bytes.now at).from ≡ Ok is_role) }
    ensures err { IfErr result (λ stop. Fails stop (role_told dialect (next_lexeme bytes.now at).sign (next_lexeme bytes.now at).from)) }
{
    let (_, here) = bytes.split_at(at);
    match is_role_by_mark(dialect, here) {
        Some(is_role) => Ok(is_role),
        None => is_role_by_token(dialect, bytes, at),
    }
}

/// The same, where a mark stands directly behind the word.
#[inline(always)]
fn is_role_by_mark(dialect: Dialect, bytes: &[u8]) -> Option<bool>
    ensures { IfSome result (λ is_role. IsToldBy dialect bytes.now is_role) }
{
    match dialect {
        Dialect::Talks => match bytes {
            [b'-', b'>', ..] => Some(true),
            [b',', ..] => Some(false),
            [b'}', ..] => Some(false),
            _ => None,
        },
        Dialect::Acts => match bytes {
            [b'!', ..] => Some(true),
            [b'?', ..] => Some(true),
            [b',', ..] => Some(false),
            [b'}', ..] => Some(false),
            _ => None,
        },
    }
}

/// The same, by the next token.
#[inline(never)]
fn is_role_by_token(dialect: Dialect, bytes: &[u8], at: usize) -> Result<bool, Stop>
    requires { at ≤ length bytes.now }
    ensures ok { IfOk result (λ is_role. role_told dialect (next_lexeme bytes.now at).sign (next_lexeme bytes.now at).from ≡ Ok is_role) }
    ensures err { IfErr result (λ stop. Fails stop (role_told dialect (next_lexeme bytes.now at).sign (next_lexeme bytes.now at).from)) }
{
    let next = next_token(bytes, at);
    match next.terminal() {
        Terminal::Faulty(kind) => fault(TextKind::from(kind), next.from()),
        Terminal::Arrow => Ok(dialect == Dialect::Talks),
        Terminal::Bang | Terminal::Question => Ok(dialect == Dialect::Acts),
        _ => Ok(false),
    }
}
