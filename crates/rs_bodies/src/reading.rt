//! The reader of bodies, token by token.

ghost use Rattle.std.specs.Prelude.{◌≡◌, ◌≤◌, ◌<◌, ◌+◌, ◌++◌, ◌∷◌, [], length, OnOk, OnErr, IfOk, IfErr, IfSome, IfNone};
ghost use Rattle.std.specs.Prelude.{Some, None, Option, Ok, Err, true, false, ℕ, List, drop, reverse, codes, suc, nat_le, if◌then◌else◌};
ghost use Rattle.std.specs.Option.{option_map};
ghost use Rattle.rs_model.specs.declared.limits.TheConstants.{MOST_LABELS, MOST_ROLES, MOST_TALKS};
ghost use Rattle.rs_text.specs.Lexing.{next_lexeme};
ghost use Rattle.rs_text.specs.Messages.{feed_label, feed_message};
ghost use Rattle.rs_text.specs.Names.{nearest_binding, place_of};
ghost use Rattle.rs_text.specs.Readings.{feed_sign};
ghost use Rattle.rs_text.specs.Seen.{plain_text, word_text};
ghost use Rattle.rs_text.specs.Seen.{is_text};
ghost use Rattle.rs_text.specs.Signs.{close_brace, comma};
ghost use Rattle.rs_bodies.specs.Drafts.{names_read};
ghost use Rattle.rs_bodies.specs.Dialects.{most};
ghost use Rattle.rs_bodies.specs.Feeding as spec;
ghost use Rattle.rs_bodies.specs.Marks.{byte_of};
ghost use Rattle.rs_bodies.specs.Turns.{Passes, Refuses};

use crate::ahead::is_role;
use crate::dialects::{Dialect, Head, Mark};
use crate::drafts::{Draft, DraftArm, add_arm};
use rs_model::{Label, MOST_ACTS, MOST_NESTING, MOST_ROLES, MOST_TALKS, Name, Role, Sort};
use rs_text::{
    Binding, MessagePlace, MessageStep, NameTable, Stop, Terminal, TextKind, TextToken, Wanted,
    bound_number, expected, fault, feed_label, feed_message, seen, unbind,
};
use smallvec::SmallVec;
use std::alloc::Global;
use std::marker::Model;

/// An open brace: its act, the count of names bound round it, and the nesting within it.
#[derive(Clone, Copy)]
pub(crate) struct Frame {
    pub act: u32,
    pub bound: usize,
    pub depth: u32,
}

/// What leads to the body that is read: nothing, or an arm of an act.
#[derive(Clone, Copy)]
pub(crate) enum Link {
    Start,
    OfArm { act: u32, label: Label, sort: Sort },
}

/// The place in the grammar.
#[derive(Clone, Copy)]
pub(crate) enum Mode {
    /// At `roles`.
    Roles,
    FirstRole,
    FirstComma,
    FurtherRole,
    /// Behind a role but the first one.
    Line,
    /// At `machine`.
    Machine,
    AtRole,
    AtColon,
    Body { from: Link },
    RecName { from: Link },
    RecDot { from: Link },
    /// At an arrow or a mark that was seen.
    AtTurn { from: Link, first: Role },
    /// At a receiver; in talks alone.
    Receiver { from: Link, first: Role },
    /// Behind a head.
    AtArms { act: u32 },
    /// Within the message of an arm.
    InMessage { act: u32, place: MessagePlace },
    ArmDot { act: u32, label: Label, sort: Sort },
    /// Behind a body.
    Next,
}

/// Reads a part, token by token.
#[derive(Drop)]
pub(crate) struct Reader<'a> {
    alloc: Global,
    pub roles: NameTable,
    pub labels: NameTable,
    pub role: Role,
    pub drafts: Vec<Draft>,
    pub start: Option<u32>,
    pub ended: bool,
    bound: Vec<Binding<'a>>,
    depth: u32,
    frames: Vec<Frame>,
    mode: Mode,
}

impl<'a> Model for Reader<'a> {
    ghost use Rattle.std.specs.Prelude.{reverse, length, ◌≤◌};
    ghost use Rattle.rs_model.specs.declared.limits.TheConstants.{MOST_LABELS, MOST_ROLES, MOST_TALKS};
    ghost use Rattle.rs_bodies.specs.Data.{Reader_data};

    ghost Value = { Reader_data };

    ghost view = { λ r. record {
      roles = r.roles;
      labels = r.labels;
      role = r.role;
      drafts = r.drafts.items;
      start = r.start;
      ended = r.ended;
      bound = reverse r.bound.items;
      depth = r.depth;
      frames = reverse r.frames.items;
      mode = r.mode;
    } };

    ghost invariant = { λ r. (length r.roles ≤ MOST_ROLES) × ((length r.labels ≤ MOST_LABELS) × (length r.drafts.items ≤ MOST_TALKS)) };
}

/// Heads at most.
pub(crate) fn most_heads(dialect: Dialect) -> usize
    ensures number { result ≡ most dialect }
    ensures bounded { result ≤ MOST_TALKS }
{
    match dialect {
        Dialect::Talks => MOST_TALKS,
        Dialect::Acts => MOST_ACTS,
    }
}

/// The mark of an act, which a talk has not.
#[inline(always)]
fn act_mark(dialect: Dialect, bytes: &[u8]) -> Option<Mark>
    ensures { IfSome result (λ mark. (dialect ≡ Dialect.Acts) × ((rest : List ℕ) × (bytes.now ≡ byte_of mark ∷ rest))) }
{
    match dialect {
        Dialect::Talks => None,
        Dialect::Acts => match bytes {
            [b'!', ..] => Some(Mark::Puts),
            [b'?', ..] => Some(Mark::Takes),
            _ => None,
        },
    }
}

// The steps are inline, so that a token need not be laid out in memory.
impl<'a> Reader<'a> {
    /// A reader before its first token.
    pub fn new(alloc: Global, dialect: Dialect, roles: Vec<Name>, labels: Vec<Name>) -> Reader<'a>
        requires roles { length roles.items ≤ MOST_ROLES }
        requires labels { length labels.items ≤ MOST_LABELS }
        requires none { roles.items ≡ spec.first_roles dialect (record { roles = roles.items; labels = labels.items }) }
        ensures { result ≡ spec.start_of_part dialect (record { roles = roles.items; labels = labels.items }) }
    {
        Reader {
            alloc,
            roles: NameTable::new(alloc, roles),
            labels: NameTable::new(alloc, labels),
            role: Role(0),
            drafts: Vec::new(alloc),
            start: None,
            ended: false,
            bound: Vec::new(alloc),
            depth: 0,
            frames: Vec::new(alloc),
            mode: match dialect {
                Dialect::Talks => Mode::Roles,
                Dialect::Acts => Mode::Machine,
            },
        }
    }

    #[inline(always)]
    fn link(&mut self, from: Link, target: Option<u32>) -> Result<(), Stop>
        ensures ok { OnOk result (self.new ≡ spec.reader_behind_link from target self.old) }
        ensures err { IfErr result (λ e. e ≡ Stop.Memory) }
        ensures kept { OnErr result (names_read self.new ≡ names_read self.old) }
    {
        match from {
            Link::Start => self.start = target,
            Link::OfArm { act, label, sort } => add_arm(
                &mut self.drafts,
                act,
                DraftArm {
                    label,
                    sort,
                    next: target,
                },
            )?,
        }
        Ok(())
    }

    fn new_role(&mut self, after: Mode, word: &[u8], at: usize) -> Result<(), Stop>
        ensures { spec.Feeds result (spec.new_role after (Some word.now) at self.old) self.old self.new }
    {
        if seen::is_among(self.roles.as_slice(), word) {
            return fault(TextKind::NameTwice, at);
        }
        if self.roles.len() >= MOST_ROLES {
            return fault(TextKind::TooManyRoles, at);
        }
        let _place = self.roles.add(self.alloc, word)?;
        self.mode = after;
        Ok(())
    }

    #[inline(always)]
    fn roles(&mut self, token: &TextToken) -> Result<(), Stop>
        ensures { spec.Feeds result (spec.feed_roles token.now.sign token.now.from self.old) self.old self.new }
    {
        if !token.is_keyword(b"roles") {
            return expected(Wanted::Roles, token.from());
        }
        self.mode = Mode::FirstRole;
        Ok(())
    }

    #[inline(always)]
    fn role_of_line(&mut self, after: Mode, token: &TextToken) -> Result<(), Stop>
        ensures { spec.Feeds result (spec.new_role after (plain_text token.now.sign) token.now.from self.old) self.old self.new }
    {
        match token.plain() {
            Some(word) => self.new_role(after, word, token.from()),
            None => expected(Wanted::Role, token.from()),
        }
    }

    #[inline(always)]
    fn first_comma(&mut self, token: &TextToken) -> Result<(), Stop>
        ensures { spec.Feeds result (spec.feed_first_comma token.now.sign token.now.from self.old) self.old self.new }
    {
        match token.terminal() {
            Terminal::Comma => {
                self.mode = Mode::FurtherRole;
                Ok(())
            }
            _ => expected(Wanted::Comma, token.from()),
        }
    }

    #[inline(always)]
    fn line(&mut self, token: &TextToken) -> Result<(), Stop>
        ensures { spec.Feeds result (spec.feed_line token.now.sign token.now.from self.old) self.old self.new }
    {
        match token.terminal() {
            Terminal::Comma => {
                self.mode = Mode::FurtherRole;
                Ok(())
            }
            _ => self.protocol(token),
        }
    }

    /// The word `protocol`.
    #[inline(always)]
    fn protocol(&mut self, token: &TextToken) -> Result<(), Stop>
        ensures ok { OnOk result (is_text (codes "protocol") (plain_text token.now.sign) ≡ true) }
        ensures done { OnOk result (spec.in_mode (Mode.Body Link.Start) self.old ≡ Ok self.new) }
        ensures err { IfErr result (λ e. is_text (codes "protocol") (plain_text token.now.sign) ≡ false) }
        ensures kept { OnErr result (names_read self.new ≡ names_read self.old) }
        ensures fault { IfErr result (λ e. e ≡ Stop.Fault (record { kind = TextKind.Expected Wanted.CommaOrProtocol; at = token.now.from })) }
    {
        if !token.is_keyword(b"protocol") {
            return expected(Wanted::CommaOrProtocol, token.from());
        }
        self.mode = Mode::Body { from: Link::Start };
        Ok(())
    }

    /// The word `machine`.
    #[inline(always)]
    fn machine(&mut self, token: &TextToken) -> Result<(), Stop>
        ensures { spec.Feeds result (spec.feed_machine token.now.sign token.now.from self.old) self.old self.new }
    {
        if !token.is_keyword(b"machine") {
            return expected(Wanted::PartOrEnd, token.from());
        }
        self.mode = Mode::AtRole;
        Ok(())
    }

    #[inline(always)]
    fn own_role(&mut self, token: &TextToken) -> Result<(), Stop>
        ensures { spec.Feeds result (spec.feed_role (plain_text token.now.sign) token.now.from self.old) self.old self.new }
    {
        let Some(word) = token.plain() else {
            return expected(Wanted::Role, token.from());
        };
        let role = self.roles.find_role(word);
        self.set_role(role, token.from())
    }

    fn set_role(&mut self, role: Option<Role>, at: usize) -> Result<(), Stop>
        ensures { spec.Feeds result (spec.role_by (option_map (λ role. role.0) role) at self.old) self.old self.new }
    {
        let Some(role) = role else {
            return fault(TextKind::UnknownRole, at);
        };
        self.role = role;
        self.mode = Mode::AtColon;
        Ok(())
    }

    #[inline(always)]
    fn colon(&mut self, token: &TextToken) -> Result<(), Stop>
        ensures { spec.Feeds result (spec.feed_colon token.now.sign token.now.from self.old) self.old self.new }
    {
        match token.terminal() {
            Terminal::Colon => {
                self.mode = Mode::Body { from: Link::Start };
                Ok(())
            }
            _ => expected(Wanted::Colon, token.from()),
        }
    }

    fn begin_head(
        &mut self,
        dialect: Dialect,
        from: Link,
        first: Option<Role>,
        at: usize,
    ) -> Result<(), Stop>
        ensures { spec.Feeds result (spec.feed_head_role dialect (option_map (λ role. role.0) first) from at self.old) self.old self.new }
    {
        let Some(first) = first else {
            return fault(TextKind::UnknownRole, at);
        };
        if self.drafts.len() >= most_heads(dialect) {
            return fault(TextKind::TooManyNodes, at);
        }
        self.mode = Mode::AtTurn { from, first };
        Ok(())
    }

    fn lead_back(&mut self, from: Link, act: Option<u32>, at: usize) -> Result<(), Stop>
        ensures { spec.Feeds result (spec.feed_bound_name act from at self.old) self.old self.new }
    {
        let Some(act) = act else {
            return fault(TextKind::UnboundName, at);
        };
        if act as usize >= self.drafts.len() {
            return fault(TextKind::Unguarded, at);
        }
        self.link(from, Some(act))?;
        self.mode = Mode::Next;
        Ok(())
    }

    #[inline(always)]
    fn rec_name(&mut self, from: Link, token: &TextToken<'a>) -> Result<(), Stop>
        ensures { spec.Feeds result (spec.feed_rec_name from (plain_text token.now.sign) token.now.from self.old) self.old self.new }
    {
        let Some(name) = token.plain() else {
            return expected(Wanted::Name, token.from());
        };
        let act = self.drafts.len() as u32;
        self.bound.push(Binding { name, number: act })?;
        self.mode = Mode::RecDot { from };
        Ok(())
    }

    #[inline(always)]
    fn rec_dot(&mut self, from: Link, token: &TextToken) -> Result<(), Stop>
        ensures { spec.Feeds result (spec.feed_rec_dot from token.now.sign token.now.from self.old) self.old self.new }
    {
        match token.terminal() {
            Terminal::Dot => {
                self.mode = Mode::Body { from };
                Ok(())
            }
            _ => expected(Wanted::Dot, token.from()),
        }
    }

    #[inline(always)]
    fn turn(
        &mut self,
        dialect: Dialect,
        from: Link,
        first: Role,
        token: &TextToken,
    ) -> Result<(), Stop>
        ensures { spec.Feeds result (spec.feed_turn dialect from first token.now.sign token.now.from self.old) self.old self.new }
    {
        match dialect {
            Dialect::Talks => self.arrow(from, first, token),
            Dialect::Acts => self.mark(from, first, token),
        }
    }

    #[inline(always)]
    fn arrow(&mut self, from: Link, first: Role, token: &TextToken) -> Result<(), Stop>
        ensures { spec.Feeds result (spec.feed_turn Dialect.Talks from first token.now.sign token.now.from self.old) self.old self.new }
    {
        match token.terminal() {
            Terminal::Arrow => {
                self.mode = Mode::Receiver { from, first };
                Ok(())
            }
            _ => expected(Wanted::Role, token.from()),
        }
    }

    #[inline(always)]
    fn mark(&mut self, from: Link, peer: Role, token: &TextToken) -> Result<(), Stop>
        ensures { spec.Feeds result (spec.feed_turn Dialect.Acts from peer token.now.sign token.now.from self.old) self.old self.new }
    {
        match token.terminal() {
            Terminal::Bang => self.begin_act(
                Dialect::Acts,
                from,
                Head::Act {
                    peer,
                    mark: Mark::Puts,
                },
                token.from(),
            ),
            Terminal::Question => self.begin_act(
                Dialect::Acts,
                from,
                Head::Act {
                    peer,
                    mark: Mark::Takes,
                },
                token.from(),
            ),
            _ => expected(Wanted::Mark, token.from()),
        }
    }

    #[inline(always)]
    fn receiver(
        &mut self,
        dialect: Dialect,
        from: Link,
        first: Role,
        token: &TextToken,
    ) -> Result<(), Stop>
        ensures { spec.Feeds result (spec.feed_receiver dialect from first (plain_text token.now.sign) token.now.from self.old) self.old self.new }
    {
        let Some(word) = token.plain() else {
            return expected(Wanted::Role, token.from());
        };
        let Some(receiver) = self.roles.find_role(word) else {
            return fault(TextKind::UnknownRole, token.from());
        };
        self.begin_act(
            dialect,
            from,
            Head::Talk {
                sender: first,
                receiver,
            },
            token.from(),
        )
    }

    #[inline(always)]
    fn begin_act(&mut self, dialect: Dialect, from: Link, head: Head, at: usize) -> Result<(), Stop>
        ensures { spec.Feeds result (spec.feed_new_head dialect from head at self.old) self.old self.new }
    {
        if self.drafts.len() >= most_heads(dialect) {
            return fault(TextKind::TooManyNodes, at);
        }
        let act = self.drafts.len() as u32;
        self.link(from, Some(act))?;
        self.drafts.reserve(1)?;
        self.drafts.push_reserved(Draft {
            head,
            arms: SmallVec::new(self.alloc),
        });
        self.mode = Mode::AtArms { act };
        Ok(())
    }

    fn open(&mut self, act: u32, at: usize) -> Result<(), Stop>
        ensures { spec.Feeds result (spec.feed_brace act at self.old) self.old self.new }
    {
        if self.depth as usize >= MOST_NESTING {
            return fault(TextKind::TooDeep, at);
        }
        let depth = self.depth + 1;
        self.frames.push(Frame {
            act,
            bound: self.bound.len(),
            depth,
        })?;
        self.depth = depth;
        self.mode = Mode::InMessage {
            act,
            place: MessagePlace::Label,
        };
        Ok(())
    }

    /// Behind a head.
    #[inline(always)]
    fn arms(&mut self, dialect: Dialect, act: u32, token: &TextToken) -> Result<(), Stop>
        ensures { spec.Feeds result (spec.feed_arms dialect act token.now.sign token.now.from self.old) self.old self.new }
    {
        match token.terminal() {
            Terminal::OpenBrace => self.open(act, token.from()),
            _ => self.single(dialect, act, token),
        }
    }

    #[inline(always)]
    fn single(&mut self, dialect: Dialect, act: u32, token: &TextToken) -> Result<(), Stop>
        ensures { spec.Feeds result (spec.feed_single dialect act token.now.sign token.now.from self.old) self.old self.new }
    {
        match dialect {
            Dialect::Talks => match token.terminal() {
                Terminal::Colon => {
                    self.mode = Mode::InMessage {
                        act,
                        place: MessagePlace::Label,
                    };
                    Ok(())
                }
                _ => expected(Wanted::ColonOrBrace, token.from()),
            },
            Dialect::Acts => self.label(Wanted::LabelOrBrace, act, token),
        }
    }

    /// The label of an arm, at a place where this is wanted.
    #[inline(always)]
    fn label(&mut self, wanted: Wanted, act: u32, token: &TextToken) -> Result<(), Stop>
        ensures { spec.Feeds result (spec.in_message act (feed_label wanted (word_text token.now.sign) token.now.from self.old.labels) self.old) self.old self.new }
    {
        let label = feed_label(wanted, token, self.alloc, &mut self.labels)?;
        self.mode = Mode::InMessage {
            act,
            place: MessagePlace::Paren { label },
        };
        Ok(())
    }

    // The label has a way of its own, since it is met most often.
    #[inline(always)]
    fn message(&mut self, act: u32, place: MessagePlace, token: &TextToken) -> Result<(), Stop>
        ensures { spec.Feeds result (spec.in_message act (feed_message place token.now.sign token.now.from self.old.labels) self.old) self.old self.new }
    {
        match place {
            MessagePlace::Label => self.label(Wanted::Label, act, token),
            _ => self.message_further(act, place, token),
        }
    }

    #[inline(always)]
    fn message_further(
        &mut self,
        act: u32,
        place: MessagePlace,
        token: &TextToken,
    ) -> Result<(), Stop>
        ensures { spec.Feeds result (spec.in_message act (feed_message place token.now.sign token.now.from self.old.labels) self.old) self.old self.new }
    {
        match feed_message(place, token, self.alloc, &mut self.labels)? {
            MessageStep::GoesOn { place } => self.mode = Mode::InMessage { act, place },
            MessageStep::Ends { label, sort } => self.mode = Mode::ArmDot { act, label, sort },
        }
        Ok(())
    }

    #[inline(always)]
    fn arm_dot(&mut self, act: u32, label: Label, sort: Sort, token: &TextToken) -> Result<(), Stop>
        ensures { spec.Feeds result (spec.feed_arm_dot act label sort token.now.sign token.now.from self.old) self.old self.new }
    {
        match token.terminal() {
            Terminal::Dot => {
                self.mode = Mode::Body {
                    from: Link::OfArm { act, label, sort },
                };
                Ok(())
            }
            _ => expected(Wanted::Dot, token.from()),
        }
    }

    /// Names and nesting are again as they were where the brace was opened.
    fn restore(&mut self, frame: Frame)
        ensures { self.new ≡ spec.reader_behind_frame frame self.old }
    {
        unbind(&mut self.bound, frame.bound);
        self.depth = frame.depth;
    }

    /// The comma before a further arm.
    #[inline(always)]
    fn next_arm(&mut self, frame: Frame)
        ensures { (outer : List Frame) → self.old.frames ≡ frame ∷ outer → (at : ℕ) → spec.feed_behind comma at self.old ≡ Ok self.new }
    {
        self.restore(frame);
        self.mode = Mode::InMessage {
            act: frame.act,
            place: MessagePlace::Label,
        };
    }

    /// The brace behind the last arm.
    #[inline(always)]
    fn close(&mut self, frame: Frame)
        ensures { (outer : List Frame) → self.old.frames ≡ frame ∷ outer → (at : ℕ) → spec.feed_behind close_brace at self.old ≡ Ok self.new }
    {
        let _closed = self.frames.pop();
        self.restore(frame);
        self.mode = Mode::Next;
    }

    #[inline(always)]
    fn next(&mut self, token: &TextToken) -> Result<(), Stop>
        ensures { spec.Feeds result (spec.feed_behind token.now.sign token.now.from self.old) self.old self.new }
    {
        let Some(frame) = self.frames.last().copied() else {
            return expected(Wanted::PartOrEnd, token.from());
        };
        match token.terminal() {
            Terminal::Comma => {
                self.next_arm(frame);
                Ok(())
            }
            Terminal::CloseBrace => {
                self.close(frame);
                Ok(())
            }
            _ => expected(Wanted::CommaOrCloseBrace, token.from()),
        }
    }

    #[inline(always)]
    fn body(
        &mut self,
        dialect: Dialect,
        from: Link,
        token: &TextToken,
        bytes: &[u8],
    ) -> Result<(), Stop>
        requires { token.now.until ≤ length bytes.now }
        ensures { spec.Feeds result (spec.feed_body dialect from token.now.sign token.now.from (next_lexeme bytes.now token.now.until) self.old) self.old self.new }
    {
        match token.terminal() {
            Terminal::Rec => self.open_rec(from, token.from()),
            Terminal::End => self.end(from),
            Terminal::Plain(word) => {
                let is_role = is_role(dialect, bytes, token.until())?;
                self.role_or_name(dialect, from, word, token.from(), is_role)
            }
            _ => expected(Wanted::Body, token.from()),
        }
    }

    fn open_rec(&mut self, from: Link, at: usize) -> Result<(), Stop>
        ensures { spec.Feeds result (spec.feed_rec from at self.old) self.old self.new }
    {
        if self.depth as usize >= MOST_NESTING {
            return fault(TextKind::TooDeep, at);
        }
        self.depth += 1;
        self.mode = Mode::RecName { from };
        Ok(())
    }

    fn end(&mut self, from: Link) -> Result<(), Stop>
        ensures ok { OnOk result (self.new ≡ record (spec.reader_behind_link from None self.old) { ended = true; mode = Mode.Next }) }
        ensures err { IfErr result (λ e. e ≡ Stop.Memory) }
        ensures kept { OnErr result (names_read self.new ≡ names_read self.old) }
    {
        self.link(from, None)?;
        self.ended = true;
        self.mode = Mode::Next;
        Ok(())
    }

    #[inline(always)]
    fn role_or_name(
        &mut self,
        dialect: Dialect,
        from: Link,
        word: &[u8],
        at: usize,
        is_role: bool,
    ) -> Result<(), Stop>
        ensures { spec.Feeds result (if is_role then spec.feed_head_role dialect (place_of word.now self.old.roles) from at self.old else spec.feed_bound_name
            (nearest_binding word.now self.old.bound) from at self.old) self.old self.new }
    {
        if is_role {
            let first = self.roles.find_role(word);
            self.begin_head(dialect, from, first, at)
        } else {
            let act = bound_number(self.bound.as_slice(), word);
            self.lead_back(from, act, at)
        }
    }

    /// Takes one token of the text, which may look at the one behind it.
    #[inline(always)]
    pub fn feed(
        &mut self,
        dialect: Dialect,
        token: &TextToken<'a>,
        bytes: &[u8],
    ) -> Result<(), Stop>
        requires { token.now.until ≤ length bytes.now }
        ensures { spec.Feeds result (feed_sign (spec.feeding dialect) token.now.sign token.now.from (next_lexeme bytes.now token.now.until) self.old) self.old self.new }
    {
        match token.terminal() {
            Terminal::Faulty(kind) => fault(TextKind::from(kind), token.from()),
            _ => self.feed_whole(dialect, token, bytes),
        }
    }

    /// Takes one that isn't faulty.
    #[inline(always)]
    fn feed_whole(
        &mut self,
        dialect: Dialect,
        token: &TextToken<'a>,
        bytes: &[u8],
    ) -> Result<(), Stop>
        requires { token.now.until ≤ length bytes.now }
        ensures { spec.Feeds result (spec.feed_of dialect token.now.sign token.now.from (next_lexeme bytes.now token.now.until) self.old) self.old self.new }
    {
        match self.mode {
            Mode::Roles => self.roles(token),
            Mode::FirstRole => self.role_of_line(Mode::FirstComma, token),
            Mode::FirstComma => self.first_comma(token),
            Mode::FurtherRole => self.role_of_line(Mode::Line, token),
            Mode::Line => self.line(token),
            Mode::Machine => self.machine(token),
            Mode::AtRole => self.own_role(token),
            Mode::AtColon => self.colon(token),
            Mode::Body { from } => self.body(dialect, from, token, bytes),
            Mode::RecName { from } => self.rec_name(from, token),
            Mode::RecDot { from } => self.rec_dot(from, token),
            Mode::AtTurn { from, first } => self.turn(dialect, from, first, token),
            Mode::Receiver { from, first } => self.receiver(dialect, from, first, token),
            Mode::AtArms { act } => self.arms(dialect, act, token),
            Mode::InMessage { act, place } => self.message(act, place, token),
            Mode::ArmDot { act, label, sort } => self.arm_dot(act, label, sort, token),
            Mode::Next => self.next(token),
        }
    }

    /// Takes the marks that stand directly at the offset, where just these are wanted, and gives the offset behind them.
    #[inline(always)]
    pub fn take_marks(&mut self, dialect: Dialect, bytes: &[u8], at: usize) -> Result<usize, Stop>
        requires at { at ≤ length bytes.now }
        ensures passes { IfOk result (λ until. Passes (spec.feeding dialect) bytes.now at self.old until self.new) }
        ensures ahead { IfOk result (λ until. at ≤ until) }
        ensures within { IfOk result (λ until. until ≤ length bytes.now) }
        ensures err { IfErr result (λ stop. Refuses (spec.feeding dialect) names_read stop bytes.now at self.old self.new) }
    {
        let (_, here) = bytes.split_at(at);
        match self.mode.marks(dialect, here) {
            Some(marks) => {
                self.mode = marks.behind;
                Ok(at + marks.size)
            }
            None => self.take_mark(dialect, bytes, at),
        }
    }

    /// The same, for one mark that changes more than the place in the grammar.
    #[inline(always)]
    fn take_mark(&mut self, dialect: Dialect, bytes: &[u8], at: usize) -> Result<usize, Stop>
        requires at { at ≤ length bytes.now }
        ensures passes { IfOk result (λ until. Passes (spec.feeding dialect) bytes.now at self.old until self.new) }
        ensures ahead { IfOk result (λ until. at ≤ until) }
        ensures within { IfOk result (λ until. until ≤ length bytes.now) }
        ensures err { IfErr result (λ stop. Refuses (spec.feeding dialect) names_read stop bytes.now at self.old self.new) }
    {
        match self.mode {
            Mode::AtTurn { from, first } => self.take_turn(dialect, from, first, bytes, at),
            Mode::AtArms { act } => self.take_open_brace(dialect, act, bytes, at),
            Mode::Next => Ok(self.take_behind(dialect, bytes, at)),
            _ => Ok(at),
        }
    }

    /// The mark of an act.
    #[inline(always)]
    fn take_turn(
        &mut self,
        dialect: Dialect,
        from: Link,
        peer: Role,
        bytes: &[u8],
        at: usize,
    ) -> Result<usize, Stop>
        requires at { at ≤ length bytes.now }
        requires mode { self.old.mode ≡ Mode.AtTurn from peer }
        ensures passes { IfOk result (λ until. Passes (spec.feeding dialect) bytes.now at self.old until self.new) }
        ensures ahead { IfOk result (λ until. at ≤ until) }
        ensures within { IfOk result (λ until. until ≤ length bytes.now) }
        ensures err { IfErr result (λ stop. Refuses (spec.feeding dialect) names_read stop bytes.now at self.old self.new) }
    {
        let (_, here) = bytes.split_at(at);
        match act_mark(dialect, here) {
            Some(mark) => {
                self.begin_act(Dialect::Acts, from, Head::Act { peer, mark }, at)?;
                Ok(at + 1)
            }
            None => Ok(at),
        }
    }

    #[inline(always)]
    fn take_open_brace(
        &mut self,
        dialect: Dialect,
        act: u32,
        bytes: &[u8],
        at: usize,
    ) -> Result<usize, Stop>
        requires at { at ≤ length bytes.now }
        requires mode { self.old.mode ≡ Mode.AtArms act }
        ensures passes { IfOk result (λ until. Passes (spec.feeding dialect) bytes.now at self.old until self.new) }
        ensures ahead { IfOk result (λ until. at ≤ until) }
        ensures within { IfOk result (λ until. until ≤ length bytes.now) }
        ensures err { IfErr result (λ stop. Refuses (spec.feeding dialect) names_read stop bytes.now at self.old self.new) }
    {
        let (_, here) = bytes.split_at(at);
        match here {
            [b'{', ..] => {
                self.open(act, at)?;
                Ok(at + 1)
            }
            _ => Ok(at),
        }
    }

    /// The mark behind a body, in braces.
    #[inline(always)]
    fn take_behind(&mut self, dialect: Dialect, bytes: &[u8], at: usize) -> usize
        requires at { at ≤ length bytes.now }
        requires mode { self.old.mode ≡ Mode.Next }
        ensures passes { Passes (spec.feeding dialect) bytes.now at self.old result self.new }
        ensures ahead { at ≤ result }
        ensures within { result ≤ length bytes.now }
    {
        let Some(frame) = self.frames.last().copied() else {
            return at;
        };
        let (_, here) = bytes.split_at(at);
        match here {
            [b',', ..] => {
                self.next_arm(frame);
                at + 1
            }
            [b'}', ..] => {
                self.close(frame);
                at + 1
            }
            _ => at,
        }
    }

    /// Whether the whole part is read.
    #[inline(always)]
    pub fn is_read(&self) -> bool
        ensures { result ≡ spec.is_read self.now }
    {
        match self.mode {
            Mode::Next => self.frames.is_empty(),
            _ => false,
        }
    }
}
