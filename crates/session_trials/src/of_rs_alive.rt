//! Whether the events that are answered take the messages.

ghost use Rattle.std.specs.Prelude.{◌≡◌, ◌≢◌, ◌<◌, ◌^◌, IfOk, IfSome, length};
ghost use Rattle.rs_core.specs.Configurations.{role_of};

use crate::documents::{BUFFERING, ENDLESS_SENDS, accepted_of};
use rs_alive::{AliveFault, taken_within};
use rs_core::{Core, Event};
use rs_model::{NoMemory, Octets, Role, Value, copies_of};
use rs_safety::Accepted;
use std::alloc::Global;
use std::test::Fail;

fn copy_of(alloc: Global, event: &Event) -> Result<Event, NoMemory>
    ensures { IfOk result (λ e. e ≡ event.now) }
{
    Ok(match event {
        Event::Send { role, arm, value } => Event::Send {
            role: *role,
            arm: *arm,
            value: value.copy(alloc)?,
        },
        Event::Receive { role } => Event::Receive { role: *role },
    })
}

fn role_of(event: &Event) -> Role
    ensures { result.0 ≡ role_of event.now }
{
    match event {
        Event::Send { role, .. } | Event::Receive { role } => *role,
    }
}

/// Makes the step of the event: whether there was one.
fn steps(alloc: Global, core: &mut Core, roles: usize, event: &Event) -> bool
    requires { roles ≡ length core.old.machines }
    ensures { core.new.machines ≡ core.old.machines }
{
    if usize::from(role_of(event).0) >= roles {
        return false;
    }
    match copy_of(alloc, event) {
        Ok(event) => core.step(event).is_ok(),
        Err(_refused) => false,
    }
}

/// Whether the events, one by one, shorten the queue `place` times and once more, the last one among them.
fn take(
    alloc: Global,
    core: &mut Core,
    roles: usize,
    events: &[Event],
    sender: Role,
    receiver: Role,
    place: u32,
) -> bool
    requires roles { roles ≡ length core.old.machines }
    requires sender { sender.0 < length core.old.machines }
    requires receiver { receiver.0 < length core.old.machines }
    ensures { core.new.machines ≡ core.old.machines }
{
    let mut before = place;
    for at in 0..events.len() {
        let long = core.queue_len(sender, receiver);
        if !steps(alloc, core, roles, &events[at]) {
            return false;
        }
        if core.queue_len(sender, receiver) < long {
            if before == 0 {
                return at + 1 == events.len();
            }
            before -= 1;
        }
    }
    false
}

/// The session after the past.
pub(crate) fn after(alloc: Global, accepted: &Accepted, past: &[Event]) -> Option<Core>
    ensures { IfSome result (λ c. c.machines ≡ accepted.now.machines) }
{
    let Ok(copies) = copies_of(alloc, accepted.machines()) else {
        return None;
    };
    let Ok(mut core) = Core::begin(alloc, copies) else {
        return None;
    };
    let roles = accepted.machines().len();
    for at in 0..past.len() {
        if !steps(alloc, &mut core, roles, &past[at]) {
            return None;
        }
    }
    Some(core)
}

/// Whether what is answered for the message at the place takes it; a place that has none must be answered so.
fn is_taken(
    alloc: Global,
    accepted: &Accepted,
    past: &[Event],
    sender: Role,
    receiver: Role,
    place: u32,
) -> bool
    requires sender { sender.0 < length accepted.now.machines }
    requires receiver { receiver.0 < length accepted.now.machines }
    requires apart { sender.0 ≢ receiver.0 }
    requires bounded { length past.now < 2 ^ 32 }
{
    let Some(mut core) = after(alloc, accepted, past) else {
        return false;
    };
    let roles = accepted.machines().len();
    let there = core.queue_len(sender, receiver);
    match taken_within(alloc, accepted, past, sender, receiver, place) {
        Ok(events) => {
            (place as usize) < there
                && take(
                    alloc,
                    &mut core,
                    roles,
                    events.as_slice(),
                    sender,
                    receiver,
                    place,
                )
        }
        Err(AliveFault::NoMessage { len }) => len as usize == there && there <= place as usize,
        Err(_) => false,
    }
}

/// Whether all messages of the queue are taken, and none is found after them.
fn all_taken(
    alloc: Global,
    accepted: &Accepted,
    past: &[Event],
    sender: Role,
    receiver: Role,
) -> bool
    requires sender { sender.0 < length accepted.now.machines }
    requires receiver { receiver.0 < length accepted.now.machines }
    requires bounded { length past.now < 2 ^ 32 }
{
    if sender.0 == receiver.0 {
        return true;
    }
    for place in 0..4 {
        if !is_taken(alloc, accepted, past, sender, receiver, place) {
            return false;
        }
    }
    true
}

/// Whether all messages of all queues are taken.
fn every_taken(alloc: Global, accepted: &Accepted, past: &[Event]) -> bool
    requires { length past.now < 2 ^ 32 }
{
    let machines = accepted.machines();
    for sender in machines {
        for receiver in machines {
            let from = sender.role;
            let to = receiver.role;
            let there = (from.0 as usize) < machines.len() && (to.0 as usize) < machines.len();
            if !there || !all_taken(alloc, accepted, past, from, to) {
                return false;
            }
        }
    }
    true
}

/// Whether after each of the first events of the past all messages are taken.
fn each_taken(alloc: Global, accepted: &Accepted, past: &[Event]) -> bool
    requires { length past.now < 2 ^ 32 }
{
    for many in 0..past.len() + 1 {
        let (before, _) = past.split_at(many);
        if !every_taken(alloc, accepted, before) {
            return false;
        }
    }
    true
}

/// Whether the text's session is accepted, and after each of the first events of the past every message in a queue is
/// taken by what is answered.
fn are_taken(alloc: Global, text: &[u8], past: &[Event]) -> bool
    requires { length past.now < 2 ^ 32 }
{
    match accepted_of(alloc, text) {
        Some(accepted) => each_taken(alloc, &accepted, past),
        None => false,
    }
}

fn answer_of(
    alloc: Global,
    accepted: &Accepted,
    past: &[Event],
    sender: Role,
    receiver: Role,
    place: u32,
) -> Option<Result<Vec<Event>, AliveFault>>
    requires { length past.now < 2 ^ 32 }
{
    let roles = accepted.machines().len();
    let from = sender.0 as usize;
    let to = receiver.0 as usize;
    if from < roles && to < roles && from != to {
        Some(taken_within(alloc, accepted, past, sender, receiver, place))
    } else {
        None
    }
}

/// What is answered for the message at the place, after the past, of the text's session: none if it isn't accepted.
fn taken_of(
    alloc: Global,
    text: &[u8],
    past: &[Event],
    sender: Role,
    receiver: Role,
    place: u32,
) -> Option<Result<Vec<Event>, AliveFault>>
    requires { length past.now < 2 ^ 32 }
{
    match accepted_of(alloc, text) {
        Some(accepted) => answer_of(alloc, &accepted, past, sender, receiver, place),
        None => None,
    }
}

fn puts(role: u8, arm: u16, value: Value) -> Event {
    Event::Send {
        role: Role(role),
        arm,
        value,
    }
}

fn takes(role: u8) -> Event {
    Event::Receive { role: Role(role) }
}

/// Double buffering with the seed 0, in the order of its rounds.
fn buffering(alloc: Global) -> Result<Vec<Event>, NoMemory>
    ensures { IfOk result (λ v. length v.items < 2 ^ 32) }
{
    let mut events = Vec::new(alloc);
    events.push(puts(0, 0, Value::Unit))?;
    events.push(takes(1))?;
    events.push(puts(2, 0, Value::Unit))?;
    events.push(puts(0, 0, Value::Unit))?;
    events.push(puts(1, 0, Value::Octets(Octets::of(alloc, &[129, 107, 75])?)))?;
    events.push(takes(0))?;
    events.push(takes(1))?;
    events.push(takes(0))?;
    events.push(puts(1, 1, Value::Unit))?;
    events.push(puts(0, 0, Value::Octets(Octets::of(alloc, &[170, 31])?)))?;
    events.push(takes(2))?;
    events.push(puts(0, 0, Value::Unit))?;
    events.push(takes(1))?;
    events.push(puts(2, 0, Value::Unit))?;
    events.push(takes(0))?;
    events.push(takes(0))?;
    events.push(puts(0, 0, Value::Unit))?;
    events.push(takes(2))?;
    Ok(events)
}

#[test]
fn every_message_of_a_run_is_taken(rt: HostRuntime) -> Result<(), Fail> {
    let alloc = rt.alloc();
    let events = buffering(alloc)?;
    assert!(rt; are_taken(alloc, BUFFERING, events.as_slice()));
    Ok(())
}

fn long_past(alloc: Global) -> Result<Vec<Event>, NoMemory>
    ensures { IfOk result (λ v. length v.items < 2 ^ 32) }
{
    let mut events = Vec::new(alloc);
    for number in 0..100_000_u32 {
        events.push(if number % 2 == 0 {
            puts(0, 0, Value::Unit)
        } else {
            takes(1)
        })?;
    }
    events.push(puts(0, 0, Value::Unit))?;
    Ok(events)
}

#[test]
fn a_long_past_is_answered(rt: HostRuntime) -> Result<(), Fail> {
    let alloc = rt.alloc();
    let past = long_past(alloc)?;
    match taken_of(alloc, ENDLESS_SENDS, past.as_slice(), Role(0), Role(1), 0) {
        Some(Ok(events)) => assert!(rt; events.len() == 1),
        _ => assert!(rt; false, "not taken"),
    }
    Ok(())
}
