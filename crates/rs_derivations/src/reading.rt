//! The reader of derivations, token by token.

ghost use Rattle.std.specs.Prelude.{◌≡◌, ◌≤◌, ◌++◌, ◌∷◌, [], length, OnOk, OnErr, IfOk, IfErr, IfSome, IfNone, MatchOption, Some, None, Ok, Err, codes};
ghost use Rattle.std.specs.Option.{option_map};
ghost use Rattle.rs_model.specs.declared.limits.TheConstants.{MOST_LABELS, MOST_ROLES};
ghost use Rattle.rs_text.specs.Lexemes.{Lexeme};
ghost use Rattle.rs_text.specs.Messages.{feed_message};
ghost use Rattle.rs_text.specs.Names.{place_of};
ghost use Rattle.rs_text.specs.Readings.{feed_sign};
ghost use Rattle.rs_text.specs.Seen.{plain_text, is_text};
ghost use Rattle.rs_derivations.specs.declared.formats.Format.TheVariants.{One};
ghost use Rattle.rs_derivations.specs.Derivations.{acts_of_number, act_of_kind};
ghost use Rattle.rs_text.specs.TokenTests.{is_close_bracket, number_value};
ghost use Rattle.rs_derivations.specs.Cuts as cuts;
ghost use Rattle.rs_derivations.specs.Feeding as spec;
ghost use Rattle.rs_derivations.specs.Feeding.{names_read};

use crate::formats::Format;
use rs_derive::DNode;
use rs_graph::NodeRow;
use rs_model::{Act, Label, MOST_BOUND, MOST_CANDIDATES, Name, NoMemory, Role, Sort};
use rs_prefix::{ActKind, Pending};
use rs_text::{
    MessagePlace, MessageStep, NameTable, Stop, Terminal, TextKind, TextToken, TokenReader, Wanted,
    expected, fault, feed_message, find_role,
};
use std::alloc::Global;
use std::marker::Model;
use std::mem;

/// The place in the grammar.
#[derive(Clone, Copy, PartialEq, Eq)]
pub(crate) enum Mode {
    /// At `derivation`.
    Derivation,
    AtRole,
    /// At `bound`, or at `format`.
    BehindRole,
    AtFormatNumber,
    /// At `bound`.
    BehindFormat,
    AtBound,
    AtBrace,
    /// At the first list or the first node, in format 2.
    AtLists,
    AtListNumber,
    AtListColon,
    /// At a node's number, or at the end after a node.
    AtNode,
    AtColon,
    AtState,
    /// At the `[` of the pending acts, in format 1.
    AtActs,
    /// At `with`, in format 2.
    AtWith,
    AtPendingNumber,
    /// At `above`.
    AtAboveWord,
    /// At an act, or right after `[` at `]` as well.
    AtAct,
    AtMark {
        peer: Role,
    },
    /// Within the message of an act.
    InMessage {
        peer: Role,
        kind: ActKind,
        place: MessagePlace,
    },
    BehindAct,
    AtAbove,
    /// At `rank`.
    AtRankWord,
    AtRank,
    /// At `next`.
    AtNextWord,
    /// At the `[` of the nexts.
    AtNexts,
    /// At a next, or right after `[` at `]` as well.
    AtNext,
    BehindNext,
    /// After the derivation.
    Behind,
}

/// Reads a derivation, token by token.
#[derive(Drop)]
pub(crate) struct Reader<'a> {
    alloc: Global,
    roles: &'a [Name],
    pub labels: NameTable,
    pub role: Role,
    format: Format,
    pub bound: u8,
    lists: Vec<Pending>,
    acts: Pending,
    pub nodes: Vec<DNode>,
    node: DNode,
    mode: Mode,
}

impl<'a> Model for Reader<'a> {
    ghost use Rattle.std.specs.Prelude.{length, ◌≤◌};
    ghost use Rattle.rs_model.specs.declared.limits.TheConstants.{MOST_LABELS, MOST_ROLES};
    ghost use Rattle.rs_derivations.specs.Data.{Reader_data};

    ghost Value = { Reader_data };

    ghost view = { λ r. record { roles = r.roles.now; labels = r.labels; role = r.role; format = r.format; bound = r.bound; lists = r.lists.items; acts = r.acts; nodes = r.nodes.items; node = r.node; mode = r.mode } };

    ghost invariant = { λ r. (length r.roles.now ≤ MOST_ROLES) × (length r.labels ≤ MOST_LABELS) };
}

fn no_node(alloc: Global) -> DNode
    ensures { result ≡ spec.no_node }
{
    DNode {
        state: 0,
        pending: Pending::new(alloc),
        above: 0,
        rank: 0,
        next: NodeRow::new(alloc),
    }
}

fn act_of(peer: Role, kind: ActKind, label: Label, sort: Sort) -> Act
    ensures { result ≡ act_of_kind kind peer label sort }
{
    match kind {
        ActKind::Send => Act::Puts { peer, label, sort },
        ActKind::Receive => Act::Takes { peer, label, sort },
    }
}

/// The number of a token, or that a number is wanted in its place.
fn wanted_number(number: Option<u32>, at: usize) -> Result<u32, Stop>
    ensures { MatchOption number (result ≡ Err (Stop.Fault (record { kind = TextKind.Expected Wanted.Number; at = at }))) (λ n. result ≡ Ok n) }
{
    match number {
        Some(number) => Ok(number),
        None => expected(Wanted::Number, at),
    }
}

/// Whether a mark sends or receives.
fn mark_kind(token: &TextToken) -> Option<ActKind>
    ensures { result ≡ spec.mark_kind token.now.sign }
{
    match token.terminal() {
        Terminal::Bang => Some(ActKind::Send),
        Terminal::Question => Some(ActKind::Receive),
        _ => None,
    }
}

fn is_bound(number: u32) -> bool
    ensures { result ≡ spec.is_bound number }
{
    number >= 1 && number as usize <= MOST_BOUND
}

/// The mode after a token by which a list or the first node of format 2 begins.
fn beginning(token: &TextToken) -> Option<Mode>
    ensures { result ≡ spec.beginning token.now.sign }
{
    if token.is_keyword(b"pending") {
        return Some(Mode::AtListNumber);
    }
    let number = token.value()?;
    if number == 0 {
        Some(Mode::AtColon)
    } else {
        None
    }
}

/// A copy of the list with this number, where 0 stands for no acts.
fn copy_of_list(alloc: Global, lists: &[Pending], number: usize) -> Result<Pending, NoMemory>
    requires { number ≤ length lists.now }
    ensures { IfOk result (λ p. p ≡ acts_of_number lists.now number) }
{
    if number == 0 {
        return Ok(Pending::new(alloc));
    }
    lists[number - 1].copy(alloc)
}

/// What is wanted for a further node.
fn node_wanted(nodes: &[DNode]) -> Wanted
    ensures { result ≡ cuts.node_wanted nodes.now }
{
    match nodes {
        [] => Wanted::Node,
        [_first, ..] => Wanted::NodeOrCloseBrace,
    }
}

/// What is wanted for a further act in format 1.
fn act_wanted(acts: &[Act]) -> Wanted
    ensures { result ≡ cuts.act_wanted One acts.now }
{
    match acts {
        [] => Wanted::ActOrCloseBracket,
        [_first, ..] => Wanted::Role,
    }
}

fn next_wanted(numbers: &[u32]) -> Wanted
    ensures { result ≡ cuts.next_wanted numbers.now }
{
    match numbers {
        [] => Wanted::NumberOrCloseBracket,
        [_first, ..] => Wanted::Number,
    }
}

fn has_nodes(nodes: &[DNode]) -> bool
    ensures { result ≡ spec.is_some_of nodes.now }
{
    match nodes {
        [] => false,
        [_first, ..] => true,
    }
}

fn has_no_acts(acts: &[Act]) -> bool
    ensures { result ≡ spec.is_none_of acts.now }
{
    match acts {
        [] => true,
        [_first, ..] => false,
    }
}

fn has_no_numbers(numbers: &[u32]) -> bool
    ensures { result ≡ spec.is_none_of numbers.now }
{
    match numbers {
        [] => true,
        [_first, ..] => false,
    }
}

// The steps are inline, so that a token need not be laid out in memory.
impl<'a> Reader<'a> {
    /// A reader before its first token.
    pub fn new(alloc: Global, roles: &'a [Name], labels: Vec<Name>) -> Reader<'a>
        requires roles { length roles.now ≤ MOST_ROLES }
        requires labels { length labels.items ≤ MOST_LABELS }
        ensures { result ≡ spec.start_of_derivation (record { roles = roles.now; labels = labels.items }) }
    {
        Reader {
            alloc,
            roles,
            labels: NameTable::new(alloc, labels),
            role: Role(0),
            format: Format::One,
            bound: 0,
            lists: Vec::new(alloc),
            acts: Pending::new(alloc),
            nodes: Vec::new(alloc),
            node: no_node(alloc),
            mode: Mode::Derivation,
        }
    }

    /// Passes the right token.
    #[inline(always)]
    fn pass(&mut self, right: bool, wanted: Wanted, mode: Mode, at: usize) -> Result<(), Stop>
        ensures { spec.Feeds result (spec.passes right wanted mode at self.old) self.old self.new }
    {
        if right {
            self.mode = mode;
            Ok(())
        } else {
            expected(wanted, at)
        }
    }

    fn own_role(&mut self, token: &TextToken) -> Result<(), Stop>
        ensures { spec.Feeds result (spec.feed_role (plain_text token.now.sign) token.now.from self.old) self.old self.new }
    {
        let Some(word) = token.plain() else {
            return expected(Wanted::Role, token.from());
        };
        let role = find_role(self.roles, word);
        self.set_role(role, token.from())
    }

    fn set_role(&mut self, role: Option<Role>, at: usize) -> Result<(), Stop>
        ensures { spec.Feeds result (spec.feed_derivation_role (option_map (λ role. role.0) role) at self.old) self.old self.new }
    {
        let Some(role) = role else {
            return fault(TextKind::UnknownRole, at);
        };
        self.role = role;
        self.mode = Mode::BehindRole;
        Ok(())
    }

    /// The bound of format 1, or the format.
    fn behind_role(&mut self, bound: bool, format: bool, at: usize) -> Result<(), Stop>
        ensures { spec.Feeds result (spec.feed_behind_role bound format at self.old) self.old self.new }
    {
        if bound {
            self.mode = Mode::AtBound;
            return Ok(());
        }
        self.pass(format, Wanted::BoundOrFormat, Mode::AtFormatNumber, at)
    }

    fn format(&mut self, number: Option<u32>, at: usize) -> Result<(), Stop>
        ensures { spec.Feeds result (spec.feed_format number at self.old) self.old self.new }
    {
        let Some(number) = number else {
            return expected(Wanted::FormatNumber, at);
        };
        if number != 2 {
            return expected(Wanted::FormatNumber, at);
        }
        self.format = Format::Two;
        self.mode = Mode::BehindFormat;
        Ok(())
    }

    fn bound(&mut self, number: Option<u32>, at: usize) -> Result<(), Stop>
        ensures { spec.Feeds result (spec.feed_bound number at self.old) self.old self.new }
    {
        let Some(number) = number else {
            return expected(Wanted::BoundNumber, at);
        };
        if !is_bound(number) {
            return expected(Wanted::BoundNumber, at);
        }
        self.bound = number as u8;
        self.mode = Mode::AtBrace;
        Ok(())
    }

    fn brace(&mut self, opens: bool, at: usize) -> Result<(), Stop>
        ensures { spec.Feeds result (spec.passes opens Wanted.OpenBrace (spec.behind_brace self.old.format) at self.old) self.old self.new }
    {
        let mode = match self.format {
            Format::One => Mode::AtNode,
            Format::Two => Mode::AtLists,
        };
        self.pass(opens, Wanted::OpenBrace, mode, at)
    }

    /// The first list or node of format 2.
    fn begin(&mut self, mode: Option<Mode>, at: usize) -> Result<(), Stop>
        ensures { spec.Feeds result (spec.feed_beginning mode at self.old) self.old self.new }
    {
        let Some(mode) = mode else {
            return expected(Wanted::PendingOrNode, at);
        };
        self.mode = mode;
        Ok(())
    }

    fn list_number(&mut self, number: Option<u32>, at: usize) -> Result<(), Stop>
        ensures { spec.Feeds result (spec.feed_list_number number at self.old) self.old self.new }
    {
        let Some(number) = number else {
            return expected(Wanted::PendingNumber, at);
        };
        let right = number as usize == self.lists.len() + 1;
        self.pass(right, Wanted::PendingNumber, Mode::AtListColon, at)
    }

    /// A further node, by its number, or the end.
    #[inline(always)]
    fn node(&mut self, number: Option<u32>, closes: bool, at: usize) -> Result<(), Stop>
        ensures { spec.Feeds result (spec.feed_node number closes at self.old) self.old self.new }
    {
        let wanted = node_wanted(self.nodes.as_slice());
        let Some(number) = number else {
            let right = closes && has_nodes(self.nodes.as_slice());
            return self.pass(right, wanted, Mode::Behind, at);
        };
        if number as usize != self.nodes.len() {
            return expected(wanted, at);
        }
        if self.nodes.len() >= MOST_CANDIDATES {
            return fault(TextKind::TooManyNodes, at);
        }
        self.mode = Mode::AtColon;
        Ok(())
    }

    #[inline(always)]
    fn state(&mut self, number: Option<u32>, at: usize) -> Result<(), Stop>
        ensures { spec.Feeds result (spec.feed_state number at self.old) self.old self.new }
    {
        self.node.state = wanted_number(number, at)?;
        self.mode = match self.format {
            Format::One => Mode::AtActs,
            Format::Two => Mode::AtWith,
        };
        Ok(())
    }

    /// The number of the node's list.
    #[inline(always)]
    fn pending_number(&mut self, number: Option<u32>, at: usize) -> Result<(), Stop>
        ensures { spec.Feeds result (spec.feed_pending_number number at self.old) self.old self.new }
    {
        let Some(number) = number else {
            return expected(Wanted::PendingNumber, at);
        };
        if number as usize > self.lists.len() {
            return expected(Wanted::PendingNumber, at);
        }
        self.node.pending = copy_of_list(self.alloc, self.lists.as_slice(), number as usize)?;
        self.mode = Mode::AtAboveWord;
        Ok(())
    }

    /// The acts of the node are read.
    fn end_acts(&mut self)
        ensures { spec.feed_acts_end self.old ≡ Ok self.new }
    {
        self.node.pending = mem::replace(&mut self.acts, Pending::new(self.alloc));
        self.mode = Mode::AtAbove;
    }

    /// A further act, by its peer, or the end of the acts.
    #[inline(always)]
    fn act(&mut self, token: &TextToken) -> Result<(), Stop>
        ensures { spec.Feeds result (spec.feed_act (plain_text token.now.sign) (is_close_bracket token.now.sign) token.now.from self.old) self.old self.new }
    {
        let Some(word) = token.plain() else {
            return self.no_act(token.is_close_bracket(), token.from());
        };
        let peer = find_role(self.roles, word);
        self.begin_pending(peer, token.from())
    }

    /// In format 1 the end of no acts.
    #[inline(always)]
    fn no_act(&mut self, closes: bool, at: usize) -> Result<(), Stop>
        ensures { spec.Feeds result (spec.feed_no_act self.old.format closes at self.old) self.old self.new }
    {
        match self.format {
            Format::One => {
                if closes && has_no_acts(self.acts.as_slice()) {
                    self.end_acts();
                    return Ok(());
                }
                expected(act_wanted(self.acts.as_slice()), at)
            }
            Format::Two => expected(Wanted::Role, at),
        }
    }

    #[inline(always)]
    fn begin_pending(&mut self, peer: Option<Role>, at: usize) -> Result<(), Stop>
        ensures { spec.Feeds result (spec.feed_peer (option_map (λ role. role.0) peer) at self.old) self.old self.new }
    {
        let Some(peer) = peer else {
            return fault(TextKind::UnknownRole, at);
        };
        if self.acts.as_slice().len() >= MOST_BOUND {
            return fault(TextKind::TooManyActs, at);
        }
        self.mode = Mode::AtMark { peer };
        Ok(())
    }

    #[inline(always)]
    fn mark(&mut self, peer: Role, kind: Option<ActKind>, at: usize) -> Result<(), Stop>
        ensures { spec.Feeds result (spec.feed_mark peer kind at self.old) self.old self.new }
    {
        let Some(kind) = kind else {
            return expected(Wanted::Mark, at);
        };
        self.mode = Mode::InMessage {
            peer,
            kind,
            place: MessagePlace::Label,
        };
        Ok(())
    }

    #[inline(always)]
    fn message(
        &mut self,
        peer: Role,
        kind: ActKind,
        place: MessagePlace,
        token: &TextToken,
    ) -> Result<(), Stop>
        ensures { spec.Feeds result (spec.in_message peer kind (feed_message place token.now.sign token.now.from self.old.labels) self.old) self.old self.new }
    {
        match feed_message(place, token, self.alloc, &mut self.labels)? {
            MessageStep::GoesOn { place } => {
                self.mode = Mode::InMessage { peer, kind, place };
                Ok(())
            }
            MessageStep::Ends { label, sort } => self.pend(peer, kind, label, sort),
        }
    }

    /// The act is pending.
    #[inline(always)]
    fn pend(&mut self, peer: Role, kind: ActKind, label: Label, sort: Sort) -> Result<(), Stop>
        ensures ok { OnOk result (spec.feed_pending peer kind label sort self.old ≡ Ok self.new) }
        ensures err { IfErr result (λ e. e ≡ Stop.Memory) }
        ensures kept { OnErr result (names_read self.new ≡ names_read self.old) }
    {
        self.acts.push(act_of(peer, kind, label, sort))?;
        self.mode = Mode::BehindAct;
        Ok(())
    }

    #[inline(always)]
    fn behind_act(&mut self, token: &TextToken) -> Result<(), Stop>
        ensures { spec.Feeds result (spec.feed_behind_act token.now.sign token.now.from self.old) self.old self.new }
    {
        if token.is_comma() {
            self.mode = Mode::AtAct;
            return Ok(());
        }
        match self.format {
            Format::One => {
                if !token.is_close_bracket() {
                    return expected(Wanted::CommaOrCloseBracket, token.from());
                }
                self.end_acts();
                Ok(())
            }
            Format::Two => self.end_list(beginning(token), token.from()),
        }
    }

    /// The list is read, where something begins after it.
    fn end_list(&mut self, mode: Option<Mode>, at: usize) -> Result<(), Stop>
        ensures { spec.Feeds result (spec.feed_list_end mode at self.old) self.old self.new }
    {
        let Some(mode) = mode else {
            return expected(Wanted::CommaPendingOrNode, at);
        };
        let acts = mem::replace(&mut self.acts, Pending::new(self.alloc));
        self.lists.push(acts)?;
        self.mode = mode;
        Ok(())
    }

    #[inline(always)]
    fn above(&mut self, number: Option<u32>, at: usize) -> Result<(), Stop>
        ensures { spec.Feeds result (spec.feed_above number at self.old) self.old self.new }
    {
        self.node.above = wanted_number(number, at)?;
        self.mode = Mode::AtRankWord;
        Ok(())
    }

    #[inline(always)]
    fn rank(&mut self, number: Option<u32>, at: usize) -> Result<(), Stop>
        ensures { spec.Feeds result (spec.feed_rank number at self.old) self.old self.new }
    {
        self.node.rank = wanted_number(number, at)?;
        self.mode = Mode::AtNextWord;
        Ok(())
    }

    /// The node is read.
    fn end_node(&mut self) -> Result<(), Stop>
        ensures ok { OnOk result (spec.feed_node_end self.old ≡ Ok self.new) }
        ensures err { IfErr result (λ e. e ≡ Stop.Memory) }
        ensures kept { OnErr result (names_read self.new ≡ names_read self.old) }
    {
        let node = mem::replace(&mut self.node, no_node(self.alloc));
        self.nodes.push(node)?;
        self.mode = Mode::AtNode;
        Ok(())
    }

    /// A further next, or the end of the node.
    #[inline(always)]
    fn next(&mut self, number: Option<u32>, closes: bool, at: usize) -> Result<(), Stop>
        ensures { spec.Feeds result (spec.feed_next number closes at self.old) self.old self.new }
    {
        let Some(number) = number else {
            if closes && has_no_numbers(self.node.next.as_slice()) {
                return self.end_node();
            }
            return expected(next_wanted(self.node.next.as_slice()), at);
        };
        self.node.next.push(number)?;
        self.mode = Mode::BehindNext;
        Ok(())
    }

    #[inline(always)]
    fn behind_next(&mut self, goes: bool, closes: bool, at: usize) -> Result<(), Stop>
        ensures { spec.Feeds result (spec.feed_behind_next goes closes at self.old) self.old self.new }
    {
        if goes {
            self.mode = Mode::AtNext;
            return Ok(());
        }
        if closes {
            return self.end_node();
        }
        expected(Wanted::CommaOrCloseBracket, at)
    }

    /// Takes one that isn't faulty: the tokens of nodes come first, since there are most of them.
    #[inline(always)]
    fn feed_whole(&mut self, token: &TextToken) -> Result<(), Stop>
        ensures { spec.Feeds result (spec.feed_of token.now.sign token.now.from self.old) self.old self.new }
    {
        let at = token.from();
        match self.mode {
            Mode::AtNode => self.node(token.value(), token.is_close_brace(), at),
            Mode::AtColon => self.pass(token.is_colon(), Wanted::Colon, Mode::AtState, at),
            Mode::AtState => self.state(token.value(), at),
            Mode::AtWith => {
                let right = token.is_keyword(b"with");
                self.pass(right, Wanted::With, Mode::AtPendingNumber, at)
            }
            Mode::AtPendingNumber => self.pending_number(token.value(), at),
            Mode::AtAboveWord => {
                let right = token.is_keyword(b"above");
                self.pass(right, Wanted::Above, Mode::AtAbove, at)
            }
            Mode::AtAbove => self.above(token.value(), at),
            Mode::AtRankWord => {
                let right = token.is_keyword(b"rank");
                self.pass(right, Wanted::Rank, Mode::AtRank, at)
            }
            Mode::AtRank => self.rank(token.value(), at),
            Mode::AtNextWord => {
                let right = token.is_keyword(b"next");
                self.pass(right, Wanted::Next, Mode::AtNexts, at)
            }
            Mode::AtNexts => {
                let right = token.is_open_bracket();
                self.pass(right, Wanted::OpenBracket, Mode::AtNext, at)
            }
            Mode::AtNext => self.next(token.value(), token.is_close_bracket(), at),
            Mode::BehindNext => self.behind_next(token.is_comma(), token.is_close_bracket(), at),
            _ => self.feed_outside(token),
        }
    }

    /// A token of the head, or of acts.
    #[inline(always)]
    fn feed_outside(&mut self, token: &TextToken) -> Result<(), Stop>
        ensures { spec.Feeds result (spec.feed_outside self.old.mode token.now.sign token.now.from self.old) self.old self.new }
    {
        let at = token.from();
        match self.mode {
            Mode::Derivation => {
                let right = token.is_keyword(b"derivation");
                self.pass(right, Wanted::DerivationOrEnd, Mode::AtRole, at)
            }
            Mode::AtRole => self.own_role(token),
            Mode::BehindRole => {
                let bound = token.is_keyword(b"bound");
                self.behind_role(bound, token.is_keyword(b"format"), at)
            }
            Mode::AtFormatNumber => self.format(token.value(), at),
            Mode::BehindFormat => {
                let right = token.is_keyword(b"bound");
                self.pass(right, Wanted::Bound, Mode::AtBound, at)
            }
            Mode::AtBound => self.bound(token.value(), at),
            Mode::AtBrace => self.brace(token.is_open_brace(), at),
            Mode::AtLists => self.begin(beginning(token), at),
            Mode::AtListNumber => self.list_number(token.value(), at),
            Mode::AtListColon => self.pass(token.is_colon(), Wanted::Colon, Mode::AtAct, at),
            Mode::AtActs => {
                let right = token.is_open_bracket();
                self.pass(right, Wanted::OpenBracket, Mode::AtAct, at)
            }
            Mode::AtAct => self.act(token),
            Mode::AtMark { peer } => self.mark(peer, mark_kind(token), at),
            Mode::InMessage { peer, kind, place } => self.message(peer, kind, place, token),
            Mode::BehindAct => self.behind_act(token),
            _ => expected(Wanted::DerivationOrEnd, at),
        }
    }
}

impl<'a, 't> TokenReader<'t> for Reader<'a> {
    ghost use Rattle.rs_derivations.specs.Ends.{at_end_stops};
    ghost use Rattle.rs_derivations.specs.Feeding.{feeding, names_read};

    ghost automaton = { feeding };

    ghost stops_at_end = { at_end_stops };

    ghost names = { names_read };

    #[inline(always)]
    fn feed(&mut self, token: &TextToken<'t>, _bytes: &'t [u8]) -> Result<(), Stop> {
        match token.terminal() {
            Terminal::Faulty(kind) => fault(TextKind::from(kind), token.from()),
            _ => self.feed_whole(token),
        }
    }

    fn is_read(&self) -> bool {
        self.mode == Mode::Behind
    }
}
