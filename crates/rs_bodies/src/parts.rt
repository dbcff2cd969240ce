//! The reader of a part of either dialect.

ghost use Rattle.std.specs.Prelude.{◌≡◌, ◌≤◌, length, IfOk, IfErr, Ok};
ghost use Rattle.rs_text.specs.FirstFaults.{IsRefusal};
ghost use Rattle.rs_text.specs.Readings.{AreNamesBehind, Leaves, ReadsBy, StopsBy};
ghost use Rattle.rs_text.specs.Sound.{AreReadable, IsSound};
ghost use Rattle.rs_bodies.specs.Dialects.{most};
ghost use Rattle.rs_bodies.specs.Drafts.{names_read, spelling_read};
ghost use Rattle.rs_bodies.specs.Faults.{FirstFault, KeepsBy, LeavesBy};
ghost use Rattle.rs_bodies.specs.Feeding.{start_of_part, first_roles, HasRead, HasStopped};
ghost use Rattle.rs_bodies.specs.PartFeeding.{feeding_part, names_of_part};
ghost use Rattle.rs_bodies.specs.Read.{IsPartRead};
ghost use Rattle.rs_bodies.specs.Turns.{Passes, Refuses};

use crate::dialects::Dialect;
use crate::points::{Spelling, points, settled_number};
use crate::reading::Reader;
use rs_model::{Names, NoMemory};
use rs_text::{Stop, TextFault, TextToken, TokenReader, next_token};
use std::alloc::Global;
use std::mem;

/// Reads a part of a dialect, token by token.
#[derive(Drop)]
struct PartReader<'a> {
    dialect: Dialect,
    reader: Reader<'a>,
}

impl<'a> TokenReader<'a> for PartReader<'a> {
    ghost use Rattle.rs_bodies.specs.Ends.{part_stops_at_end};
    ghost use Rattle.rs_bodies.specs.PartFeeding.{feeding_part, names_of_part};

    ghost automaton = { feeding_part };

    ghost stops_at_end = { part_stops_at_end };

    ghost names = { names_of_part };

    #[inline(always)]
    fn feed(&mut self, token: &TextToken<'a>, bytes: &'a [u8]) -> Result<(), Stop> {
        self.reader.feed(self.dialect, token, bytes)
    }

    #[inline(always)]
    fn is_read(&self) -> bool {
        self.reader.is_read()
    }
}

impl<'a> PartReader<'a> {
    /// Takes the marks that stand directly at the offset, where just these are wanted, and gives the offset behind them.
    #[inline(always)]
    fn take_marks(&mut self, bytes: &[u8], at: usize) -> Result<usize, Stop>
        requires at { at ≤ length bytes.now }
        ensures passes { IfOk result (λ until. Passes feeding_part bytes.now at self.old until self.new) }
        ensures ahead { IfOk result (λ until. at ≤ until) }
        ensures within { IfOk result (λ until. until ≤ length bytes.now) }
        ensures err { IfErr result (λ stop. Refuses feeding_part names_of_part stop bytes.now at self.old self.new) }
    {
        self.reader.take_marks(self.dialect, bytes, at)
    }
}

/// Reads a part from the offset `at` on, a roles line with a protocol or a machine, and gives what it spells and the
/// offset of the first byte behind it that is neither a blank nor in a comment, or the length. The names are sound, with
/// at most 16 roles and 256 labels; before a protocol there are no roles.
///
/// Heads are numbered in order of text. All ends have the number behind the last head. A recursion name stands for the
/// first head of its body. New labels are added to the names in order of text, and the roles of a roles line; after a
/// fault in a machine the names have the labels before it.
///
/// A fault has the offset of its token: what was wanted instead, an unknown role, a name that is unbound or unguarded, a
/// role that is there already, one too many of nesting, roles, heads or labels, or a faulty token. After
/// refused memory the names have the labels of some of a machine's first tokens.
pub fn read_part(
    alloc: Global,
    dialect: Dialect,
    bytes: &[u8],
    at: usize,
    names: &mut Names,
) -> Result<(Spelling, usize), TextFault>
    requires at { at ≤ length bytes.now }
    requires names { AreReadable names.old }
    requires first { names.old.roles ≡ first_roles dialect names.old }
    ensures ok { IfOk result (λ r. IsPartRead dialect bytes.now at names.old names.new r.0 r.1) }
    ensures err { IfErr result (λ e. IsRefusal (FirstFault dialect names.old bytes.now at) bytes.now e) }
    ensures left { IfErr result (λ e. LeavesBy dialect names.old names.new bytes.now at e.kind e.at) }
    ensures names { AreReadable names.new }
    ensures kept { KeepsBy dialect names.old names.new }
{
    let roles = mem::replace(&mut names.roles, Vec::new(alloc));
    let labels = mem::replace(&mut names.labels, Vec::new(alloc));
    let reader = Reader::new(alloc, dialect, roles, labels);
    let mut part = PartReader { dialect, reader };
    let result = read_with(alloc, &mut part, bytes, at);
    let PartReader { reader, .. } = part;
    names.roles = reader.roles.into_names();
    names.labels = reader.labels.into_names();
    match result {
        Ok(read) => Ok(read),
        Err(stop) => Err(stop.into_fault(at)),
    }
}

/// Reads the part and gives what was read.
fn read_with<'a>(
    alloc: Global,
    part: &mut PartReader<'a>,
    bytes: &'a [u8],
    at: usize,
) -> Result<(Spelling, usize), Stop>
    requires at { at ≤ length bytes.now }
    requires sound { IsSound (names_read part.old.reader) }
    requires begun { part.old.reader ≡ start_of_part part.old.dialect (names_read part.old.reader) }
    ensures ok { IfOk result (λ r. HasRead part.old.dialect bytes.now at part.old.reader part.new.reader r.1) }
    ensures spelling { IfOk result (λ r. (r.0 ≡ spelling_read part.new.reader) × (length r.0.points ≤ most part.old.dialect)) }
    ensures err { IfErr result (λ e. HasStopped part.old.dialect bytes.now at part.old.reader part.new.reader e) }
    ensures sound { IsSound (names_read part.new.reader) }
    ensures kept { KeepsBy part.old.dialect (names_read part.old.reader) (names_read part.new.reader) }
{
    let until = read_tokens(part, bytes, at)?;
    let spelling = spelling(alloc, &part.reader)?;
    Ok((spelling, until))
}

/// Feeds the reader the tokens from the offset `at` on until all is read, and gives the offset of the token behind. The
/// marks directly behind a token are taken along with it.
#[inline(always)]
fn read_tokens<'a>(part: &mut PartReader<'a>, bytes: &'a [u8], at: usize) -> Result<usize, Stop>
    requires at { at ≤ length bytes.now }
    ensures ok { IfOk result (λ until. ReadsBy feeding_part part.old bytes.now at (Ok (record { reader = part.new; until = until }))) }
    ensures within { IfOk result (λ until. until ≤ length bytes.now) }
    ensures err { IfErr result (λ stop. StopsBy feeding_part stop part.old bytes.now at) }
    ensures left { IfErr result (λ stop. Leaves feeding_part names_of_part stop part.old bytes.now at (names_of_part part.new)) }
    ensures names { AreNamesBehind feeding_part names_of_part part.old bytes.now at (names_of_part part.new) }
{
    let mut until = at;
    while !part.is_read() {
        let token = next_token(bytes, until);
        part.feed(&token, bytes)?;
        until = part.take_marks(bytes, token.until())?;
    }
    let behind = next_token(bytes, until);
    Ok(behind.from())
}

/// What was read.
fn spelling(alloc: Global, reader: &Reader) -> Result<Spelling, NoMemory>
    ensures spelling { IfOk result (λ r. r ≡ spelling_read reader.now) }
    ensures count { IfOk result (λ r. length r.points ≡ length reader.now.drafts) }
{
    let last = reader.drafts.len() as u32;
    Ok(Spelling {
        role: reader.role,
        points: points(alloc, reader.drafts.as_slice(), last)?,
        ended: reader.ended,
        start: settled_number(last, reader.start),
    })
}
