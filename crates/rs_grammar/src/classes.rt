//! Keywords, and the classes of tokens that grammars speak of.

ghost use Rattle.std.specs.Prelude.{◌≡◌};
ghost use Rattle.rs_grammar.specs.Classes as spec;
ghost use Rattle.rs_text.specs.Seen.{plain_text};

use rs_text::{Terminal, TextToken, seen};

/// A word that has a meaning of its own at some places. At others it is a name like any other word.
#[derive(Clone, Copy)]
pub enum Keyword {
    Roles,
    Protocol,
    Machine,
    Table,
    Derivation,
    Format,
    Bound,
    Pending,
    Node,
    With,
    Above,
    Rank,
    Next,
}

impl Keyword {
    /// The word.
    pub fn text(self) -> &'static [u8]
        ensures { result.now ≡ spec.keyword_text self }
    {
        match self {
            Keyword::Roles => b"roles",
            Keyword::Protocol => b"protocol",
            Keyword::Machine => b"machine",
            Keyword::Table => b"table",
            Keyword::Derivation => b"derivation",
            Keyword::Format => b"format",
            Keyword::Bound => b"bound",
            Keyword::Pending => b"pending",
            Keyword::Node => b"node",
            Keyword::With => b"with",
            Keyword::Above => b"above",
            Keyword::Rank => b"rank",
            Keyword::Next => b"next",
        }
    }
}

/// A class of tokens. Classes may overlap.
#[derive(Clone, Copy)]
pub enum Class {
    Keyword(Keyword),
    /// A word that names a sort.
    Sort,
    /// Any word but `rec` and `end`.
    Role,
    /// Any word.
    Label,
    Rec,
    End,
    Number,
    Arrow,
    Bang,
    Question,
    Colon,
    Dot,
    Comma,
    OpenBrace,
    CloseBrace,
    OpenParen,
    CloseParen,
    OpenBracket,
    CloseBracket,
}

impl Class {
    /// Whether a token belongs to the class.
    pub fn accepts(self, token: &TextToken) -> bool
        ensures { result ≡ spec.accepts self token.now.sign }
    {
        match self {
            Class::Keyword(word) => token.is_keyword(word.text()),
            Class::Sort => is_sort(token),
            Class::Role => token.plain().is_some(),
            Class::Label => token.word().is_some(),
            Class::Rec => matches!(token.terminal(), Terminal::Rec),
            Class::End => matches!(token.terminal(), Terminal::End),
            Class::Number => matches!(token.terminal(), Terminal::Number(_)),
            Class::Arrow => matches!(token.terminal(), Terminal::Arrow),
            Class::Bang => matches!(token.terminal(), Terminal::Bang),
            Class::Question => matches!(token.terminal(), Terminal::Question),
            Class::Colon => matches!(token.terminal(), Terminal::Colon),
            Class::Dot => matches!(token.terminal(), Terminal::Dot),
            Class::Comma => matches!(token.terminal(), Terminal::Comma),
            Class::OpenBrace => matches!(token.terminal(), Terminal::OpenBrace),
            Class::CloseBrace => matches!(token.terminal(), Terminal::CloseBrace),
            Class::OpenParen => matches!(token.terminal(), Terminal::OpenParen),
            Class::CloseParen => matches!(token.terminal(), Terminal::CloseParen),
            Class::OpenBracket => matches!(token.terminal(), Terminal::OpenBracket),
            Class::CloseBracket => matches!(token.terminal(), Terminal::CloseBracket),
        }
    }
}

fn is_sort(token: &TextToken) -> bool
    ensures { result ≡ spec.names_sort (plain_text token.now.sign) }
{
    match token.plain() {
        Some(word) => seen::sort(word).is_some(),
        None => false,
    }
}
