//! Documents: a protocol, and machines and derivations for some of its roles.

ghost use Rattle.rs_documents.specs.Documents.{FirstFault, SpellsDocument, fault_behind, wanted_behind};
ghost use Rattle.rs_documents.specs.Parts.{BeginsAt, FailsOwn, GoesOn, PartsRead, NextTokenIs, derivation_parts, machine_parts, no_parts, parts_with};
ghost use Rattle.rs_documents.specs.Reading as spec;
ghost use Rattle.rs_documents.specs.OwnMachines.{IsOwnRead, LeavesOwn};
ghost use Rattle.rs_documents.specs.Reading.{AreGood, IsAdded, MachinesAreHeld, role_at};
ghost use Rattle.rs_documents.specs.Ready.{DerivationsAreHeld, IsBounded, DocumentIsReady, IsShort};
ghost use Rattle.rs_text.specs.FirstFaults.{IsRefusal};
ghost use Rattle.rs_text.specs.Kept.{Keeps};
ghost use Rattle.rs_text.specs.Lexing.{next_lexeme};
ghost use Rattle.rs_text.specs.Signs.{plain};
ghost use Rattle.rs_text.specs.Sound.{AreReadable};
ghost use Rattle.rs_text.specs.declared.faults.TextKind.TheVariants as kind;
ghost use Rattle.std.specs.Prelude.{◌≡◌, ◌≤◌, ◌⊎◌, length, Err, IfErr, IfOk, IfSome, Ok, OnOk, Some, codes, false, slice_get, slice_set};

use rs_derivations::read_derivation;
use rs_derive::Derivation;
use rs_global::read_protocol;
use rs_machines::read_machine;
use rs_model::{Machine, Name, Names, NoMemory, Protocol, Role};
use rs_tables::read_table;
use rs_text::{Terminal, TextFault, TextKind, TextToken, Wanted, find, next_token};
use std::alloc::Global;
use std::marker::Model;

/// A document: the names of its roles and labels, its protocol, and for each role in order the machine and the
/// derivation that it has for the role.
#[derive(Drop, Debug)]
pub struct Document {
    pub names: Names,
    pub protocol: Protocol,
    pub machines: Vec<Option<Machine>>,
    pub derivations: Vec<Option<Derivation>>,
}

impl Model for Document {
    ghost use Rattle.rs_documents.specs.Data.{Document_data};

    ghost Value = { Document_data };

    ghost view = { λ d. record { names = d.names; protocol = d.protocol; machines = d.machines.items; derivations = d.derivations.items } };
}

/// Whether the token is this word, which is neither `rec` nor `end`.
fn is_word(token: &TextToken, word: &[u8]) -> bool
    ensures { result ≡ spec.is_this_word word.now token.now.sign }
{
    match token.plain() {
        Some(text) => text == word,
        None => false,
    }
}

/// Whether a part that begins with the word stands at the offset.
fn begins_with(bytes: &[u8], at: usize, word: &[u8]) -> bool
    requires { at ≤ length bytes.now }
    ensures { result ≡ spec.is_this_word word.now (next_lexeme bytes.now at).sign }
{
    is_word(&next_token(bytes, at), word)
}

/// Whether a machine begins at the offset, as a body of acts or as a table.
fn begins_machine(bytes: &[u8], at: usize) -> bool
    requires { at ≤ length bytes.now }
    ensures { result ≡ spec.machine_word (next_lexeme bytes.now at).sign }
{
    begins_with(bytes, at, b"machine") || begins_with(bytes, at, b"table")
}

/// The place of the role that the token names.
fn role_at(names: &Names, token: &TextToken) -> Option<usize>
    ensures { result ≡ role_at names.now token.now }
{
    find(names.roles.as_slice(), token.plain()?)
}

fn is_held<T>(parts: &[Option<T>], place: usize) -> bool
    ensures { result ≡ spec.is_held (slice_get parts.now place) }
{
    match parts.get(place) {
        Some(Some(_)) => true,
        Some(None) | None => false,
    }
}

/// The offset of the token, where it is a role that has a part.
fn twice_of<T>(names: &Names, parts: &[Option<T>], token: &TextToken) -> Option<usize>
    ensures twice { result ≡ spec.twice_of names.now parts.now token.now }
    ensures place { IfSome result (λ offset. offset ≡ token.now.from) }
{
    let place = role_at(names, token)?;
    if is_held(parts, place) {
        Some(token.from())
    } else {
        None
    }
}

/// The offset of the second token of the part at the offset, where it is a role that has a part.
fn twice_at<T>(names: &Names, parts: &[Option<T>], bytes: &[u8], at: usize) -> Option<usize>
    requires { at ≤ length bytes.now }
    ensures twice { result ≡ spec.twice_of names.now parts.now (next_lexeme bytes.now (next_lexeme bytes.now at).until) }
    ensures place { IfSome result (λ offset. offset ≤ length bytes.now) }
{
    let first = next_token(bytes, at);
    let second = next_token(bytes, first.until());
    twice_of(names, parts, &second)
}

/// Puts the part into its role's place.
fn put<T: Drop>(parts: &mut Vec<Option<T>>, role: Role, part: T)
    ensures { parts.new.items ≡ slice_set parts.old.items role.0 (Some part) }
{
    let place = usize::from(role.0);
    if place < parts.len() {
        parts[place] = Some(part);
    }
}

/// A place without a part for each role.
fn no_parts<T: Drop>(alloc: Global, roles: &[Name]) -> Result<Vec<Option<T>>, NoMemory>
    ensures { IfOk result (λ parts. parts.items ≡ no_parts roles.now) }
{
    let mut parts = Vec::new(alloc);
    for _ in roles {
        parts.push(None)?;
    }
    Ok(parts)
}

/// Reads a machine from the offset `at` on, and gives the machine and the offset of the first byte behind it that is
/// neither a blank nor in a comment, or the length: as `read_table` does if the word `table` is next, and otherwise as
/// `read_machine` does. The names are sound, with at most 16 roles and 256 labels.
///
/// New labels are added to the names in order of text, and nothing else changes there; after a fault the names have the
/// labels before it, and after refused memory those of some first tokens.
pub fn read_machine_or_table(
    alloc: Global,
    bytes: &[u8],
    at: usize,
    names: &mut Names,
) -> Result<(Machine, usize), TextFault>
    requires at { at ≤ length bytes.now }
    requires names { AreReadable names.old }
    ensures ok { IfOk result (λ r. IsOwnRead bytes.now at names.old names.new r.0 r.1) }
    ensures err { IfErr result (λ e. IsRefusal (FailsOwn names.old bytes.now at) bytes.now e) }
    ensures left { IfErr result (λ e. LeavesOwn names.old names.new bytes.now at e.kind e.at) }
    ensures names { AreReadable names.new }
    ensures kept { Keeps names.old names.new }
{
    if begins_with(bytes, at, b"table") {
        read_table(alloc, bytes, at, names)
    } else {
        read_machine(alloc, bytes, at, names)
    }
}

/// Reads the machine at the offset, which is put into its place, and gives the offset behind it.
fn add_machine(
    alloc: Global,
    bytes: &[u8],
    at: usize,
    names: &mut Names,
    machines: &mut Vec<Option<Machine>>,
) -> Result<usize, TextFault>
    requires within { at ≤ length bytes.now }
    requires names { AreGood names.old }
    requires held { MachinesAreHeld names.old.roles machines.old.items }
    requires machine { BeginsAt machine_parts bytes.now at }
    ensures ok { IfOk result (λ next. IsAdded machine_parts IsShort bytes.now (record { names = names.old; parts = machines.old.items; until = at })
        (record { names = names.new; parts = machines.new.items; until = next })) }
    ensures err { IfErr result (λ e. (e.kind ≡ kind.NoMemory) ⊎ GoesOn machine_parts bytes.now at names.old machines.old.items (Err e)) }
    ensures place { IfErr result (λ e. e.at ≤ length bytes.now) }
{
    if let Some(second) = twice_at(names, machines.as_slice(), bytes, at) {
        return Err(TextFault {
            kind: TextKind::NameTwice,
            at: second,
        });
    }
    match read_machine_or_table(alloc, bytes, at, names) {
        Ok((machine, next)) => {
            put(machines, machine.role, machine);
            Ok(next)
        }
        Err(fault) => Err(fault),
    }
}

/// The same of a derivation.
fn add_derivation(
    alloc: Global,
    bytes: &[u8],
    at: usize,
    names: &mut Names,
    derivations: &mut Vec<Option<Derivation>>,
) -> Result<usize, TextFault>
    requires within { at ≤ length bytes.now }
    requires names { AreGood names.old }
    requires held { DerivationsAreHeld names.old.roles derivations.old.items }
    requires derivation { NextTokenIs bytes.now at (plain (codes "derivation")) }
    ensures ok { IfOk result (λ next. IsAdded derivation_parts IsBounded bytes.now (record { names = names.old; parts = derivations.old.items; until = at })
        (record { names = names.new; parts = derivations.new.items; until = next })) }
    ensures err { IfErr result (λ e. (e.kind ≡ kind.NoMemory) ⊎ GoesOn derivation_parts bytes.now at names.old derivations.old.items (Err e)) }
    ensures place { IfErr result (λ e. e.at ≤ length bytes.now) }
{
    if let Some(second) = twice_at(names, derivations.as_slice(), bytes, at) {
        return Err(TextFault {
            kind: TextKind::NameTwice,
            at: second,
        });
    }
    match read_derivation(alloc, bytes, at, names) {
        Ok((derivation, next)) => {
            put(derivations, derivation.role, derivation);
            Ok(next)
        }
        Err(fault) => Err(fault),
    }
}

/// Reads the machines at the offset, as many as stand there, and gives the offset behind them.
fn read_machines(
    alloc: Global,
    bytes: &[u8],
    at: usize,
    names: &mut Names,
) -> Result<(Vec<Option<Machine>>, usize), TextFault>
    requires within { at ≤ length bytes.now }
    requires names { AreGood names.old }
    ensures ok { IfOk result (λ r. GoesOn machine_parts bytes.now at names.old (no_parts names.old.roles) (Ok (record { names = names.new; parts = r.0.items; until = r.1 }))) }
    ensures names { OnOk result (AreGood names.new) }
    ensures held { IfOk result (λ r. MachinesAreHeld names.new.roles r.0.items) }
    ensures within { IfOk result (λ r. r.1 ≤ length bytes.now) }
    ensures err { IfErr result (λ e. (e.kind ≡ kind.NoMemory) ⊎ GoesOn machine_parts bytes.now at names.old (no_parts names.old.roles) (Err e)) }
    ensures place { IfErr result (λ e. e.at ≤ length bytes.now) }
{
    let mut machines = match no_parts(alloc, names.roles.as_slice()) {
        Ok(machines) => machines,
        Err(_) => return Err(no_memory(at)),
    };
    let mut until = at;
    while begins_machine(bytes, until) {
        match add_machine(alloc, bytes, until, names, &mut machines) {
            Ok(next) => until = next,
            Err(fault) => return Err(fault),
        }
    }
    Ok((machines, until))
}

/// The same of derivations.
fn read_derivations(
    alloc: Global,
    bytes: &[u8],
    at: usize,
    names: &mut Names,
) -> Result<(Vec<Option<Derivation>>, usize), TextFault>
    requires within { at ≤ length bytes.now }
    requires names { AreGood names.old }
    ensures ok { IfOk result (λ r. GoesOn derivation_parts bytes.now at names.old (no_parts names.old.roles) (Ok (record { names = names.new; parts = r.0.items; until = r.1 }))) }
    ensures names { OnOk result (AreGood names.new) }
    ensures held { IfOk result (λ r. DerivationsAreHeld names.new.roles r.0.items) }
    ensures within { IfOk result (λ r. r.1 ≤ length bytes.now) }
    ensures err { IfErr result (λ e. (e.kind ≡ kind.NoMemory) ⊎ GoesOn derivation_parts bytes.now at names.old (no_parts names.old.roles) (Err e)) }
    ensures place { IfErr result (λ e. e.at ≤ length bytes.now) }
{
    let mut derivations = match no_parts(alloc, names.roles.as_slice()) {
        Ok(derivations) => derivations,
        Err(_) => return Err(no_memory(at)),
    };
    let mut until = at;
    while begins_with(bytes, until, b"derivation") {
        match add_derivation(alloc, bytes, until, names, &mut derivations) {
            Ok(next) => until = next,
            Err(fault) => return Err(fault),
        }
    }
    Ok((derivations, until))
}

fn no_memory(at: usize) -> TextFault
    ensures { result ≡ record { kind = kind.NoMemory; at = at } }
{
    TextFault {
        kind: TextKind::NoMemory,
        at,
    }
}

/// The fault of the token behind all parts, where it isn't the end.
fn fault_behind(bytes: &[u8], at: usize, wanted: Wanted) -> Option<TextKind>
    requires { at ≤ length bytes.now }
    ensures { result ≡ fault_behind wanted (next_lexeme bytes.now at).sign }
{
    match next_token(bytes, at).terminal() {
        Terminal::Finish => None,
        Terminal::Faulty(kind) => Some(TextKind::from(kind)),
        _ => Some(TextKind::Expected(wanted)),
    }
}

/// What is wanted behind all parts, where the machines and the derivations end at these offsets.
fn wanted_behind(machines: usize, derivations: usize) -> Wanted
    ensures { result ≡ wanted_behind machines derivations }
{
    if derivations == machines {
        Wanted::PartOrEnd
    } else {
        Wanted::DerivationOrEnd
    }
}

/// Reads a document, to the end of the text: its protocol, then machines, then derivations, of each role one at most. A
/// machine is written as a body of acts or as a table of its states; bodies and tables stand in any order.
///
/// The error is the text's first fault. Of a role's second machine or second derivation it has the offset of that role;
/// of what else stands behind the last part, that of its first token.
pub fn read_document(alloc: Global, bytes: &[u8]) -> Result<Document, TextFault>
    ensures ok { IfOk result (SpellsDocument bytes.now) }
    ensures err { IfErr result (λ e. (e.kind ≡ kind.NoMemory) ⊎ FirstFault bytes.now e.kind e.at) }
    ensures ready { IfOk result DocumentIsReady }
    ensures place { IfErr result (λ e. e.at ≤ length bytes.now) }
{
    let (mut names, protocol, until) = match read_protocol(alloc, bytes, 0) {
        Ok(read) => read,
        Err(fault) => return Err(fault),
    };
    let (machines, next) = match read_machines(alloc, bytes, until, &mut names) {
        Ok(read) => read,
        Err(fault) => return Err(fault),
    };
    let (derivations, end) = match read_derivations(alloc, bytes, next, &mut names) {
        Ok(read) => read,
        Err(fault) => return Err(fault),
    };
    match fault_behind(bytes, end, wanted_behind(next, end)) {
        Some(kind) => Err(TextFault { kind, at: end }),
        None => Ok(Document {
            names,
            protocol,
            machines,
            derivations,
        }),
    }
}
