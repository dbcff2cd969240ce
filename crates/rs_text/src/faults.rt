//! The faults of texts, and what was wanted instead.

ghost use Rattle.std.specs.Prelude.{◌≡◌};
ghost use Rattle.rs_text.specs.Faults.{wanted_text, wanted_in_derivation, kind_of};

use crate::{FaultKind, TokenFault};

/// What a reader wanted at a place of the grammar.
#[derive(Clone, Copy, Debug, PartialEq, Eq)]
pub enum Wanted {
    /// The first token.
    Roles,
    /// A role.
    Role,
    /// Behind the first role of the roles line.
    Comma,
    /// Behind a further role of the roles line.
    CommaOrProtocol,
    /// The start of a body.
    Body,
    /// Behind `rec`.
    Name,
    /// Behind `rec` and its name, and behind `)` of an arm.
    Dot,
    /// Behind a receiver.
    ColonOrBrace,
    /// Behind `!` or `?` in a machine.
    LabelOrBrace,
    /// The start of an arm, and behind the mark of an act.
    Label,
    /// Behind a label.
    OpenParen,
    /// Behind `(`.
    SortOrCloseParen,
    /// Behind a sort.
    CloseParen,
    /// Behind an arm within braces.
    CommaOrCloseBrace,
    /// Behind a machine's role, and behind the number of a node or of a pending list.
    Colon,
    /// Behind the protocol, a machine or a table.
    PartOrEnd,
    /// The first row of a table.
    State,
    /// Behind a row of a table.
    StateOrCloseBrace,
    /// Behind the number of a row.
    RoleOrEnd,
    /// Behind `)` of an arm of a row.
    NextState,
    /// Behind a derivation.
    DerivationOrEnd,
    /// Behind a derivation's role.
    BoundOrFormat,
    /// Behind `format`.
    FormatNumber,
    /// Behind the number of a format.
    Bound,
    /// Behind `bound`.
    BoundNumber,
    /// Behind the bound, behind a table's role, and behind the mark of a row.
    OpenBrace,
    /// Behind the `{` of a derivation in format 2.
    PendingOrNode,
    /// Behind `pending`, and behind `with`.
    PendingNumber,
    /// Behind an act of a pending list.
    CommaPendingOrNode,
    /// Behind a node's state, in format 2.
    With,
    /// Behind the number of a node's pending list.
    Above,
    /// The first node of a derivation.
    Node,
    /// Behind a node of a derivation.
    NodeOrCloseBrace,
    /// A node's state, its above state, its rank, and a next behind a comma.
    Number,
    /// Before the pending acts and before the nexts.
    OpenBracket,
    /// Behind the `[` of the acts.
    ActOrCloseBracket,
    /// Behind an act, and behind a next.
    CommaOrCloseBracket,
    /// Behind the above state.
    Rank,
    /// Behind the rank.
    Next,
    /// Behind the `[` of the nexts.
    NumberOrCloseBracket,
    /// Behind the role of an act or of a row.
    Mark,
}

impl Wanted {
    /// The words of the fault's line, as in `malformed 1:1 expected roles`.
    pub fn text(self) -> &'static str
        ensures { result.now ≡ wanted_text self }
    {
        match self {
            Wanted::Roles => "roles",
            Wanted::Role => "role",
            Wanted::Comma => ",",
            Wanted::CommaOrProtocol => ", or protocol",
            Wanted::Body => "body",
            Wanted::Name => "name",
            Wanted::Dot => ".",
            Wanted::ColonOrBrace => ": or {",
            Wanted::LabelOrBrace => "label or {",
            Wanted::Label => "label",
            Wanted::OpenParen => "(",
            Wanted::SortOrCloseParen => "sort or )",
            Wanted::CloseParen => ")",
            Wanted::CommaOrCloseBrace => ", or }",
            Wanted::Colon => ":",
            Wanted::PartOrEnd => "machine, table, derivation or the end",
            Wanted::State => "state",
            Wanted::StateOrCloseBrace => "state or }",
            Wanted::RoleOrEnd => "role or end",
            Wanted::NextState => "next state",
            Wanted::OpenBrace => "{",
            Wanted::Mark => "! or ?",
            _ => self.text_in_derivation(),
        }
    }

    /// The words for what is wanted in a derivation alone.
    fn text_in_derivation(self) -> &'static str
        ensures { result.now ≡ wanted_in_derivation self }
    {
        match self {
            Wanted::DerivationOrEnd => "derivation or the end",
            Wanted::BoundOrFormat => "bound or format",
            Wanted::FormatNumber => "2",
            Wanted::Bound => "bound",
            Wanted::BoundNumber => "number from 1 to 64",
            Wanted::PendingOrNode => "pending or node",
            Wanted::PendingNumber => "pending number",
            Wanted::CommaPendingOrNode => ", pending or node",
            Wanted::With => "with",
            Wanted::Above => "above",
            Wanted::Node => "node",
            Wanted::NodeOrCloseBrace => "node or }",
            Wanted::Number => "number",
            Wanted::OpenBracket => "[",
            Wanted::ActOrCloseBracket => "act or ]",
            Wanted::CommaOrCloseBracket => ", or ]",
            Wanted::Rank => "rank",
            Wanted::Next => "next",
            Wanted::NumberOrCloseBracket => "number or ]",
            _ => "",
        }
    }
}

/// The kinds of faults of all readers.
#[derive(Clone, Copy, Debug, PartialEq, Eq)]
pub enum TextKind {
    /// The token doesn't continue the text: something else was wanted.
    Expected(Wanted),
    /// A role that the roles line hasn't.
    UnknownRole,
    /// A recursion name that no `rec` round it binds.
    UnboundName,
    /// A role's second place where it may have one.
    NameTwice,
    /// The `rec` or `{` that makes the nesting 201.
    TooDeep,
    /// The 17th role.
    TooManyRoles,
    /// One talk, act, row or node more than the limit.
    TooManyNodes,
    /// Memory that was asked for was refused.
    NoMemory,
    /// A recursion name with no talk or act between its `rec` and itself.
    Unguarded,
    /// The 257th label.
    TooManyLabels,
    /// A byte that begins no token.
    BadByte,
    /// A number above 4,294,967,295.
    NumberTooLarge,
    /// A word of more than 64 bytes.
    NameTooLong,
    /// The 65th act of a pending list.
    TooManyActs,
}

/// The first fault of a text, and the offset of its token.
#[derive(Clone, Copy, Debug, PartialEq, Eq)]
pub struct TextFault {
    pub kind: TextKind,
    pub at: usize,
}

impl From<FaultKind> for TextKind {
    ghost use Rattle.rs_text.specs.Faults.{kind_of};

    ghost from_gives = { λ kind result. result ≡ kind_of kind };

    fn from(kind: FaultKind) -> Self {
        match kind {
            FaultKind::BadByte => TextKind::BadByte,
            FaultKind::NumberTooLarge => TextKind::NumberTooLarge,
            FaultKind::NameTooLong => TextKind::NameTooLong,
        }
    }
}

impl From<TokenFault> for TextFault {
    ghost use Rattle.rs_text.specs.Faults.{kind_of};

    ghost from_gives = { λ fault result. result ≡ record { kind = kind_of fault.kind; at = fault.at } };

    fn from(fault: TokenFault) -> Self {
        TextFault {
            kind: TextKind::from(fault.kind),
            at: fault.at,
        }
    }
}
