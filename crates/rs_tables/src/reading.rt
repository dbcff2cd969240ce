//! The reader of tables, token by token.

ghost use Rattle.std.specs.Prelude.{◌≡◌, ◌≤◌, ◌++◌, ◌∷◌, [], length, OnOk, OnErr, IfOk, IfErr, IfSome, IfNone, Some, None, Ok, Err, codes};
ghost use Rattle.std.specs.Option.{option_map};
ghost use Rattle.rs_model.specs.declared.limits.TheConstants.{MOST_LABELS, MOST_ROLES};
ghost use Rattle.rs_text.specs.Lexemes.{Lexeme};
ghost use Rattle.rs_text.specs.Messages.{feed_message};
ghost use Rattle.rs_text.specs.Names.{place_of};
ghost use Rattle.rs_text.specs.Readings.{feed_sign};
ghost use Rattle.rs_text.specs.Seen.{plain_text, is_text};
ghost use Rattle.rs_tables.specs.Cuts as cuts;
ghost use Rattle.rs_text.specs.TokenTests.{is_end, is_open_brace, number_value};
ghost use Rattle.rs_tables.specs.Feeding as spec;
ghost use Rattle.rs_tables.specs.Feeding.{names_read};

use rs_bodies::Mark;
use rs_model::{Arm, Arms, Label, MOST_STATES, Name, Role, Sort, State};
use rs_text::{
    MessagePlace, MessageStep, NameTable, Stop, Terminal, TextKind, TextToken, TokenReader, Wanted,
    expected, fault, feed_message, find_role,
};
use std::alloc::Global;
use std::marker::Model;
use std::mem;

/// The place in the grammar.
#[derive(Clone, Copy)]
pub(crate) enum Mode {
    /// At `table`.
    Table,
    AtRole,
    AtBrace,
    /// At a row's number, or at the end behind a row.
    AtNumber,
    /// At the peer of a row, or at `end`.
    BehindNumber,
    BehindPeer {
        peer: Role,
    },
    /// At the `{` of a row.
    BehindMark {
        peer: Role,
        mark: Mark,
    },
    /// Within the message of an arm.
    InMessage {
        peer: Role,
        mark: Mark,
        place: MessagePlace,
    },
    /// At the next state of an arm.
    AtNext {
        peer: Role,
        mark: Mark,
        label: Label,
        sort: Sort,
    },
    BehindArm {
        peer: Role,
        mark: Mark,
    },
    /// Behind the table.
    Behind,
}

/// Reads a table, token by token.
#[derive(Drop)]
pub(crate) struct Reader<'a> {
    alloc: Global,
    roles: &'a [Name],
    pub labels: NameTable,
    pub role: Role,
    pub states: Vec<State>,
    /// The arms of the row that is being read.
    arms: Arms,
    mode: Mode,
}

impl<'a> Model for Reader<'a> {
    ghost use Rattle.std.specs.Prelude.{length, ◌≤◌};
    ghost use Rattle.rs_model.specs.declared.limits.TheConstants.{MOST_LABELS, MOST_ROLES};
    ghost use Rattle.rs_tables.specs.Data.{Reader_data};

    ghost Value = { Reader_data };

    ghost view = { λ r. record { roles = r.roles.now; labels = r.labels; role = r.role; states = r.states.items; arms = r.arms; mode = r.mode } };

    ghost invariant = { λ r. (length r.roles.now ≤ MOST_ROLES) × (length r.labels ≤ MOST_LABELS) };
}

/// Whether a mark sends or receives.
fn mark_of(token: &TextToken) -> Option<Mark>
    ensures { result ≡ spec.mark_of token.now.sign }
{
    match token.terminal() {
        Terminal::Bang => Some(Mark::Puts),
        Terminal::Question => Some(Mark::Takes),
        _ => None,
    }
}

/// What is wanted for a further row.
fn row_wanted(states: &[State]) -> Wanted
    ensures { result ≡ cuts.row_wanted states.now }
{
    match states {
        [] => Wanted::State,
        [_first, ..] => Wanted::StateOrCloseBrace,
    }
}

fn has_states(states: &[State]) -> bool
    ensures { result ≡ spec.is_some_of states.now }
{
    match states {
        [] => false,
        [_first, ..] => true,
    }
}

impl<'a> Reader<'a> {
    /// A reader before its first token.
    pub fn new(alloc: Global, roles: &'a [Name], labels: Vec<Name>) -> Reader<'a>
        requires roles { length roles.now ≤ MOST_ROLES }
        requires labels { length labels.items ≤ MOST_LABELS }
        ensures { result ≡ spec.start_of_table (record { roles = roles.now; labels = labels.items }) }
    {
        Reader {
            alloc,
            roles,
            labels: NameTable::new(alloc, labels),
            role: Role(0),
            states: Vec::new(alloc),
            arms: Arms::new(alloc),
            mode: Mode::Table,
        }
    }

    /// Passes the right token.
    fn pass(&mut self, right: bool, wanted: Wanted, mode: Mode, at: usize) -> Result<(), Stop>
        ensures { spec.Feeds result (spec.passes right wanted mode at self.old) self.old self.new }
    {
        if right {
            self.mode = mode;
            Ok(())
        } else {
            expected(wanted, at)
        }
    }

    fn own_role(&mut self, token: &TextToken) -> Result<(), Stop>
        ensures { spec.Feeds result (spec.feed_role (plain_text token.now.sign) token.now.from self.old) self.old self.new }
    {
        let Some(word) = token.plain() else {
            return expected(Wanted::Role, token.from());
        };
        let role = find_role(self.roles, word);
        self.set_role(role, token.from())
    }

    fn set_role(&mut self, role: Option<Role>, at: usize) -> Result<(), Stop>
        ensures { spec.Feeds result (spec.feed_table_role (option_map (λ role. role.0) role) at self.old) self.old self.new }
    {
        let Some(role) = role else {
            return fault(TextKind::UnknownRole, at);
        };
        self.role = role;
        self.mode = Mode::AtBrace;
        Ok(())
    }

    /// A further row, by its number, or the end of the table.
    fn number(&mut self, number: Option<u32>, closes: bool, at: usize) -> Result<(), Stop>
        ensures { spec.Feeds result (spec.feed_number number closes at self.old) self.old self.new }
    {
        let wanted = row_wanted(self.states.as_slice());
        let Some(number) = number else {
            let right = closes && has_states(self.states.as_slice());
            return self.pass(right, wanted, Mode::Behind, at);
        };
        if number as usize != self.states.len() {
            return expected(wanted, at);
        }
        if self.states.len() >= MOST_STATES {
            return fault(TextKind::TooManyNodes, at);
        }
        self.mode = Mode::BehindNumber;
        Ok(())
    }

    /// The peer of the row, or `end`.
    fn row(&mut self, token: &TextToken) -> Result<(), Stop>
        ensures { spec.Feeds result (spec.feed_row (plain_text token.now.sign) (is_end token.now.sign) token.now.from self.old) self.old self.new }
    {
        let Some(word) = token.plain() else {
            if token.is_end() {
                return self.end_row(State::Done);
            }
            return expected(Wanted::RoleOrEnd, token.from());
        };
        let peer = find_role(self.roles, word);
        self.begin_choice(peer, token.from())
    }

    fn begin_choice(&mut self, peer: Option<Role>, at: usize) -> Result<(), Stop>
        ensures { spec.Feeds result (spec.feed_peer (option_map (λ role. role.0) peer) at self.old) self.old self.new }
    {
        let Some(peer) = peer else {
            return fault(TextKind::UnknownRole, at);
        };
        self.mode = Mode::BehindPeer { peer };
        Ok(())
    }

    fn mark(&mut self, peer: Role, mark: Option<Mark>, at: usize) -> Result<(), Stop>
        ensures { spec.Feeds result (spec.feed_mark peer mark at self.old) self.old self.new }
    {
        let Some(mark) = mark else {
            return expected(Wanted::Mark, at);
        };
        self.mode = Mode::BehindMark { peer, mark };
        Ok(())
    }

    fn open_row(&mut self, peer: Role, mark: Mark, token: &TextToken) -> Result<(), Stop>
        ensures { spec.Feeds result (spec.passes (is_open_brace token.now.sign) Wanted.OpenBrace (Mode.InMessage peer mark MessagePlace.Label) token.now.from self.old) self.old self.new }
    {
        let mode = Mode::InMessage {
            peer,
            mark,
            place: MessagePlace::Label,
        };
        self.pass(token.is_open_brace(), Wanted::OpenBrace, mode, token.from())
    }

    fn message(
        &mut self,
        peer: Role,
        mark: Mark,
        place: MessagePlace,
        token: &TextToken,
    ) -> Result<(), Stop>
        ensures { spec.Feeds result (spec.in_message peer mark (feed_message place token.now.sign token.now.from self.old.labels) self.old) self.old self.new }
    {
        self.mode = match feed_message(place, token, self.alloc, &mut self.labels)? {
            MessageStep::GoesOn { place } => Mode::InMessage { peer, mark, place },
            MessageStep::Ends { label, sort } => Mode::AtNext {
                peer,
                mark,
                label,
                sort,
            },
        };
        Ok(())
    }

    /// The next state of an arm.
    fn next(
        &mut self,
        peer: Role,
        mark: Mark,
        label: Label,
        sort: Sort,
        number: Option<u32>,
        at: usize,
    ) -> Result<(), Stop>
        ensures { spec.Feeds result (spec.feed_next peer mark label sort number at self.old) self.old self.new }
    {
        let Some(next) = number else {
            return expected(Wanted::NextState, at);
        };
        self.arms.push(Arm { label, sort, next })?;
        self.mode = Mode::BehindArm { peer, mark };
        Ok(())
    }

    /// The comma before a further arm, or the end of the row.
    fn behind_arm(
        &mut self,
        peer: Role,
        mark: Mark,
        goes: bool,
        closes: bool,
        at: usize,
    ) -> Result<(), Stop>
        ensures { spec.Feeds result (spec.feed_behind_arm peer mark goes closes at self.old) self.old self.new }
    {
        if goes {
            self.mode = Mode::InMessage {
                peer,
                mark,
                place: MessagePlace::Label,
            };
            return Ok(());
        }
        if closes {
            let arms = mem::replace(&mut self.arms, Arms::new(self.alloc));
            return self.end_row(mark.state(peer, arms));
        }
        expected(Wanted::CommaOrCloseBrace, at)
    }

    /// The row is read.
    fn end_row(&mut self, state: State) -> Result<(), Stop>
        ensures ok { OnOk result (spec.feed_state state self.old ≡ Ok self.new) }
        ensures err { IfErr result (λ e. e ≡ Stop.Memory) }
        ensures kept { OnErr result (names_read self.new ≡ names_read self.old) }
    {
        self.states.push(state)?;
        self.mode = Mode::AtNumber;
        Ok(())
    }

    /// Takes one that isn't faulty.
    fn feed_whole(&mut self, token: &TextToken) -> Result<(), Stop>
        ensures { spec.Feeds result (spec.feed_of token.now.sign token.now.from self.old) self.old self.new }
    {
        let at = token.from();
        match self.mode {
            Mode::Table => {
                let right = token.is_keyword(b"table");
                self.pass(right, Wanted::PartOrEnd, Mode::AtRole, at)
            }
            Mode::AtRole => self.own_role(token),
            Mode::AtBrace => {
                let right = token.is_open_brace();
                self.pass(right, Wanted::OpenBrace, Mode::AtNumber, at)
            }
            Mode::AtNumber => self.number(token.value(), token.is_close_brace(), at),
            Mode::BehindNumber => self.row(token),
            Mode::BehindPeer { peer } => self.mark(peer, mark_of(token), at),
            Mode::BehindMark { peer, mark } => self.open_row(peer, mark, token),
            Mode::InMessage { peer, mark, place } => self.message(peer, mark, place, token),
            Mode::AtNext {
                peer,
                mark,
                label,
                sort,
            } => self.next(peer, mark, label, sort, token.value(), at),
            Mode::BehindArm { peer, mark } => {
                let goes = token.is_comma();
                self.behind_arm(peer, mark, goes, token.is_close_brace(), at)
            }
            Mode::Behind => expected(Wanted::PartOrEnd, at),
        }
    }
}

impl<'a, 't> TokenReader<'t> for Reader<'a> {
    ghost use Rattle.rs_tables.specs.Ends.{at_end_stops};
    ghost use Rattle.rs_tables.specs.Feeding.{feeding, names_read};

    ghost automaton = { feeding };

    ghost stops_at_end = { at_end_stops };

    ghost names = { names_read };

    fn feed(&mut self, token: &TextToken<'t>, _bytes: &'t [u8]) -> Result<(), Stop> {
        match token.terminal() {
            Terminal::Faulty(kind) => fault(TextKind::from(kind), token.from()),
            _ => self.feed_whole(token),
        }
    }

    fn is_read(&self) -> bool {
        match self.mode {
            Mode::Behind => true,
            _ => false,
        }
    }
}
