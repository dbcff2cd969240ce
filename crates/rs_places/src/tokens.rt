//! What begins at tokens that stand one after the other.

ghost use Rattle.std.specs.Prelude.{◌≡◌, codes, option_map, map};
ghost use Rattle.rs_text.specs.Lexemes as text;
ghost use Rattle.rs_places.specs.Starts as spec;

use rs_model::Name;
use rs_text::{Terminal, TextToken, find};

/// The part of a document in which a token stands.
#[derive(Clone, Copy, PartialEq, Eq)]
pub(crate) enum Part {
    /// The body of a role's machine.
    Body(usize),
    /// The table of a role's machine.
    Table(usize),
    /// Any other part.
    Other,
}

/// The beginning of a state: the number of the machine's role, and an offset.
#[derive(Clone, Copy, PartialEq, Eq)]
pub(crate) struct StateStart {
    pub role: usize,
    pub from: usize,
}

/// Whether nothing stands after the token.
pub(crate) fn is_last(token: &TextToken<'_>) -> bool
    ensures { result ≡ text.is_last token.now.sign }
{
    matches!(token.terminal(), Terminal::Finish | Terminal::Faulty(_))
}

pub(crate) fn is_arrow(token: &TextToken<'_>) -> bool
    ensures { result ≡ spec.is_arrow token.now.sign }
{
    matches!(token.terminal(), Terminal::Arrow)
}

fn is_mark(token: &TextToken<'_>) -> bool
    ensures { result ≡ spec.is_mark token.now.sign }
{
    matches!(token.terminal(), Terminal::Bang | Terminal::Question)
}

fn is_number(token: &TextToken<'_>) -> bool
    ensures { result ≡ spec.is_number token.now.sign }
{
    matches!(token.terminal(), Terminal::Number(_))
}

/// Whether a number after the token is that of a row.
fn ends_a_row(token: &TextToken<'_>) -> bool
    ensures { result ≡ spec.ends_a_row token.now.sign }
{
    matches!(
        token.terminal(),
        Terminal::OpenBrace | Terminal::CloseBrace | Terminal::End
    )
}

/// The body of the machine of the role with this name.
fn body_of(roles: &[Name], role: &[u8]) -> Part
    ensures { result ≡ spec.body_of roles.now role.now }
{
    match find(roles, role) {
        Some(number) => Part::Body(number),
        None => Part::Other,
    }
}

/// The table of the machine of the role with this name.
fn table_of(roles: &[Name], role: &[u8]) -> Part
    ensures { result ≡ spec.table_of roles.now role.now }
{
    match find(roles, role) {
        Some(number) => Part::Table(number),
        None => Part::Other,
    }
}

/// The part in which the tokens after `third` stand, where the tokens before stand in `part`.
pub(crate) fn part_behind(
    roles: &[Name],
    part: Part,
    first: &TextToken<'_>,
    second: &TextToken<'_>,
    third: &TextToken<'_>,
) -> Part
    ensures { result ≡ spec.part_behind roles.now part (spec.trio first.now second.now third.now) }
{
    if first.is_keyword(b"bound") && is_number(second) && third.is_open_brace() {
        return Part::Other;
    }
    match second.plain() {
        Some(role) if first.is_keyword(b"machine") && third.is_colon() => body_of(roles, role),
        Some(role) if first.is_keyword(b"table") && third.is_open_brace() => table_of(roles, role),
        _ => part,
    }
}

/// The state that begins at one of two tokens in this part.
pub(crate) fn state_at(
    part: Part,
    first: &TextToken<'_>,
    second: &TextToken<'_>,
) -> Option<StateStart>
    ensures { result ≡ spec.state_at part first.now second.now }
{
    match part {
        Part::Body(role) if is_mark(second) => Some(StateStart {
            role,
            from: first.from(),
        }),
        Part::Table(role) if ends_a_row(first) && is_number(second) => Some(StateStart {
            role,
            from: second.from(),
        }),
        _ => None,
    }
}
