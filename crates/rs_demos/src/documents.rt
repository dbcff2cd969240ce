//! The documents of the demos.

ghost use Rattle.std.specs.Prelude.{◌≡◌, ◌≤◌, ◌<◌, ◌-◌, ◌++◌, true, codes, map, IfOk, OnOk};
ghost use Rattle.rs_model.specs.declared.limits.TheConstants.{MOST_ROLES};
ghost use Rattle.std.specs.List.{flat_map};
ghost use Rattle.rs_demos.specs.Sessions.{both_ways, butterfly_exchanges, butterfly_pair, butterfly_pairs, butterfly_round, has_session, is_clear, next_in_ring};
ghost use Rattle.rs_demos.specs.Sessions.{numbers_from, partner, previous_in_ring, ring_exchanges, ring_pairs, ring_round, demo_role_name};
ghost use Rattle.rs_demos.specs.Texts.{IsDemoText};
ghost use Rattle.rs_demos.specs.Writing.{exchange_acts_text, butterfly_line, butterfly_text, exchange_text, exchanges_text, machine_line, other_name, pairs_text, ring_line, ring_text, roles_text};

use rs_model::{Demo, NoMemory};
use rs_text::Text;
use std::alloc::Global;

const DOUBLE: &[u8] =
    b"roles K, S, T\nprotocol rec X0. K->S:ready(). T->K:ready(). S->K{copy(bytes). K->T:copy(bytes). X0, stop(). K->S:ready(). K->T:stop(). end}\nmachine K: S!ready(). rec X1. S!ready(). T?ready(). S?{copy(bytes). T!copy(bytes). X1, stop(). T!stop(). end}\n";

const STREAM: &[u8] =
    b"roles S, T\nprotocol rec X0. T->S:ready(). S->T{value(bytes). X0, stop(). end}\nmachine S: T!value(bytes). rec X1. T?ready(). T!{value(bytes). X1, stop(). T?ready(). end}\n";

/// The document of a demo for this number of roles: its protocol, and the machines that aren't projections.
///
/// A ring has 2 to 16 roles, and a butterfly 2, 4, 8 or 16; for the others the count means nothing. The one error is
/// that memory was refused.
pub fn demo_document(alloc: Global, kind: Demo, count: u8) -> Result<Text, NoMemory>
    requires { has_session kind count ≡ true }
    ensures { IfOk result (λ text. IsDemoText kind count text) }
{
    match kind {
        Demo::Double => constant(alloc, DOUBLE),
        Demo::Stream => constant(alloc, STREAM),
        Demo::Ring => ring(alloc, count),
        Demo::Butterfly => butterfly(alloc, count),
    }
}

fn constant(alloc: Global, bytes: &[u8]) -> Result<Text, NoMemory>
    ensures { IfOk result (λ text. text ≡ bytes.now) }
{
    let mut text = Text::new(alloc);
    text.push(bytes)?;
    Ok(text)
}

fn ring(alloc: Global, roles: u8) -> Result<Text, NoMemory>
    requires { (1 ≤ roles) × (roles ≤ MOST_ROLES) }
    ensures { IfOk result (λ text. text ≡ ring_text roles) }
{
    let mut text = Text::new(alloc);
    push_roles(&mut text, roles)?;
    text.push(b"protocol ")?;
    push_ring_rounds(&mut text, roles)?;
    text.push(b"end\n")?;
    push_ring_machines(&mut text, roles)?;
    Ok(text)
}

fn butterfly(alloc: Global, roles: u8) -> Result<Text, NoMemory>
    requires { (1 ≤ roles) × (roles ≤ MOST_ROLES) }
    ensures { IfOk result (λ text. text ≡ butterfly_text roles) }
{
    let mut text = Text::new(alloc);
    push_roles(&mut text, roles)?;
    text.push(b"protocol ")?;
    push_butterfly_rounds(&mut text, roles)?;
    text.push(b"end\n")?;
    push_butterfly_machines(&mut text, roles)?;
    Ok(text)
}

pub(crate) fn push_role(text: &mut Text, role: u8) -> Result<(), NoMemory>
    ensures { OnOk result (text.new ≡ text.old ++ demo_role_name role) }
{
    text.push(b"R")?;
    text.push_number(u64::from(role))
}

/// The roles line.
fn push_roles(text: &mut Text, roles: u8) -> Result<(), NoMemory>
    requires { 1 ≤ roles }
    ensures { OnOk result (text.new ≡ text.old ++ roles_text roles) }
{
    text.push(b"roles R0")?;
    for role in 1..roles {
        push_other(text, role)?;
    }
    text.push(b"\n")
}

fn push_other(text: &mut Text, role: u8) -> Result<(), NoMemory>
    ensures { OnOk result (text.new ≡ text.old ++ other_name role) }
{
    text.push(b", ")?;
    push_role(text, role)
}

/// A talk of the protocol.
fn push_exchange(text: &mut Text, sender: u8, receiver: u8) -> Result<(), NoMemory>
    ensures { OnOk result (text.new ≡ text.old ++ exchange_text (sender, receiver)) }
{
    push_role(text, sender)?;
    text.push(b"->")?;
    push_role(text, receiver)?;
    text.push(b":v(int). ")
}

/// A send to a role and a receive from a role.
fn push_acts(text: &mut Text, to: u8, from: u8) -> Result<(), NoMemory>
    ensures { OnOk result (text.new ≡ text.old ++ exchange_acts_text (to, from)) }
{
    push_role(text, to)?;
    text.push(b"!v(int). ")?;
    push_role(text, from)?;
    text.push(b"?v(int). ")
}

fn push_head(text: &mut Text, role: u8) -> Result<(), NoMemory>
    ensures { OnOk result (text.new ≡ text.old ++ (codes "machine " ++ (demo_role_name role ++ codes ": "))) }
{
    text.push(b"machine ")?;
    push_role(text, role)?;
    text.push(b": ")
}

/// A round of the ring: each role sends to the next one.
fn push_ring_round(text: &mut Text, roles: u8) -> Result<(), NoMemory>
    requires { roles ≤ MOST_ROLES }
    ensures { OnOk result (text.new ≡ text.old ++ exchanges_text (ring_round roles)) }
{
    for role in 0..roles {
        push_exchange(text, role, (role + 1) % roles)?;
    }
    Ok(())
}

fn push_ring_rounds(text: &mut Text, roles: u8) -> Result<(), NoMemory>
    requires { (1 ≤ roles) × (roles ≤ MOST_ROLES) }
    ensures { OnOk result (text.new ≡ text.old ++ exchanges_text (ring_exchanges roles)) }
{
    for round in 1..roles {
        push_ring_round(text, roles)?;
    }
    Ok(())
}

fn push_ring_acts(text: &mut Text, roles: u8, role: u8) -> Result<(), NoMemory>
    requires { (role < roles) × (roles ≤ MOST_ROLES) }
    ensures { OnOk result (text.new ≡ text.old ++ pairs_text (ring_pairs roles role)) }
{
    for round in 1..roles {
        push_acts(text, (role + 1) % roles, (role + (roles - 1)) % roles)?;
    }
    Ok(())
}

fn push_ring_machine(text: &mut Text, roles: u8, role: u8) -> Result<(), NoMemory>
    requires { (role < roles) × (roles ≤ MOST_ROLES) }
    ensures { OnOk result (text.new ≡ text.old ++ ring_line roles role) }
{
    push_head(text, role)?;
    push_ring_acts(text, roles, role)?;
    text.push(b"end\n")
}

/// The machines of all roles but the first.
fn push_ring_machines(text: &mut Text, roles: u8) -> Result<(), NoMemory>
    requires { (1 ≤ roles) × (roles ≤ MOST_ROLES) }
    ensures { OnOk result (text.new ≡ text.old ++ flat_map (ring_line roles) (numbers_from 1 (roles - 1))) }
{
    for role in 1..roles {
        push_ring_machine(text, roles, role)?;
    }
    Ok(())
}

pub(crate) fn is_clear(step: u8, role: u8) -> bool
    requires { 1 ≤ step }
    ensures { result ≡ is_clear step role }
{
    (role / step) % 2 == 0
}

/// The role whose number differs in that bit.
pub(crate) fn partner(step: u8, role: u8) -> u8
    requires step { (1 ≤ step) × (step ≤ 8) }
    requires role { role < MOST_ROLES }
    ensures { result ≡ partner step role }
{
    if is_clear(step, role) {
        role + step
    } else {
        role - step
    }
}

/// The exchange of a role whose bit is clear with the other.
fn push_both_ways(text: &mut Text, step: u8, role: u8) -> Result<(), NoMemory>
    requires step { (1 ≤ step) × (step ≤ 8) }
    requires role { role < MOST_ROLES }
    ensures { OnOk result (text.new ≡ text.old ++ exchanges_text (both_ways step role)) }
{
    if is_clear(step, role) {
        push_exchange(text, role, role + step)?;
        push_exchange(text, role + step, role)?;
    }
    Ok(())
}

/// A round of the butterfly, where there is one of that bit.
fn push_butterfly_round(text: &mut Text, roles: u8, step: u8) -> Result<(), NoMemory>
    requires roles { roles ≤ MOST_ROLES }
    requires step { (1 ≤ step) × (step ≤ 8) }
    ensures { OnOk result (text.new ≡ text.old ++ exchanges_text (butterfly_round roles step)) }
{
    if step >= roles {
        return Ok(());
    }
    for role in 0..roles {
        push_both_ways(text, step, role)?;
    }
    Ok(())
}

fn push_butterfly_rounds(text: &mut Text, roles: u8) -> Result<(), NoMemory>
    requires { roles ≤ MOST_ROLES }
    ensures { OnOk result (text.new ≡ text.old ++ exchanges_text (butterfly_exchanges roles)) }
{
    push_butterfly_round(text, roles, 1)?;
    push_butterfly_round(text, roles, 2)?;
    push_butterfly_round(text, roles, 4)?;
    push_butterfly_round(text, roles, 8)
}

fn push_butterfly_pair(text: &mut Text, roles: u8, role: u8, step: u8) -> Result<(), NoMemory>
    requires role { role < MOST_ROLES }
    requires step { (1 ≤ step) × (step ≤ 8) }
    ensures { OnOk result (text.new ≡ text.old ++ pairs_text (butterfly_pair roles role step)) }
{
    if step >= roles {
        return Ok(());
    }
    let partner = partner(step, role);
    push_acts(text, partner, partner)
}

fn push_butterfly_acts(text: &mut Text, roles: u8, role: u8) -> Result<(), NoMemory>
    requires { role < MOST_ROLES }
    ensures { OnOk result (text.new ≡ text.old ++ pairs_text (butterfly_pairs roles role)) }
{
    push_butterfly_pair(text, roles, role, 1)?;
    push_butterfly_pair(text, roles, role, 2)?;
    push_butterfly_pair(text, roles, role, 4)?;
    push_butterfly_pair(text, roles, role, 8)
}

fn push_butterfly_machine(text: &mut Text, roles: u8, role: u8) -> Result<(), NoMemory>
    requires { role < MOST_ROLES }
    ensures { OnOk result (text.new ≡ text.old ++ butterfly_line roles role) }
{
    push_head(text, role)?;
    push_butterfly_acts(text, roles, role)?;
    text.push(b"end\n")
}

/// The machines of all roles but the first.
fn push_butterfly_machines(text: &mut Text, roles: u8) -> Result<(), NoMemory>
    requires { (1 ≤ roles) × (roles ≤ MOST_ROLES) }
    ensures { OnOk result (text.new ≡ text.old ++ flat_map (butterfly_line roles) (numbers_from 1 (roles - 1))) }
{
    for role in 1..roles {
        push_butterfly_machine(text, roles, role)?;
    }
    Ok(())
}
