//! The steps of docs/definitions.md, by hand.

ghost use Rattle.std.specs.Prelude.{◌≡◌, ◌<◌, ◌≤◌, length};
ghost use Rattle.rs_core.specs.Configurations.{role_of};

use crate::documents::{BUFFERING, accepted_of};
use crate::of_rs_alive::after;
use rs_core::{Core, Event, StepFault, Stepped};
use rs_model::{Label, NoMemory, Role, Value};
use rs_safety::Accepted;
use rs_text::Text;
use std::alloc::Global;

fn word_of(fault: StepFault) -> &'static str {
    match fault {
        StepFault::QueueEmpty => "queue empty",
        _ => "another fault",
    }
}

fn word_of_step(step: Stepped) -> &'static str {
    match step {
        Stepped::Sent => "sent",
        Stepped::Got {
            label: Label(0),
            value: Value::Unit,
        } => "got ready",
        Stepped::Got { .. } => "got another",
    }
}

/// Adds what is made of an event, as `sent.`.
fn tell(text: &mut Text, core: &mut Core, event: Event) -> Result<(), NoMemory>
    requires { role_of event < length core.old.machines }
    ensures { core.new.machines ≡ core.old.machines }
{
    let word = match core.step(event) {
        Ok(step) => word_of_step(step),
        Err(refused) => word_of(refused.fault),
    };
    text.push(word.as_bytes())?;
    text.push(b".")
}

fn send(role: u8, arm: u16, value: Value) -> Event
    ensures { role_of result ≡ role }
{
    Event::Send {
        role: Role(role),
        arm,
        value,
    }
}

/// Adds how many messages are under way from one role to another, after a blank.
fn tell_queue(text: &mut Text, core: &Core, sender: Role, receiver: Role) -> Result<(), NoMemory>
    requires sender { sender.0 < length core.now.machines }
    requires receiver { receiver.0 < length core.now.machines }
{
    text.push(b" ")?;
    text.push_number(core.queue_len(sender, receiver) as u64)
}

/// Adds what is made of an event, the states of K, S and T after it, and how many messages are under way from K to S, from T to K,
/// from S to K and from K to T.
fn tell_moment(text: &mut Text, core: &mut Core, event: Event) -> Result<(), NoMemory>
    requires role { role_of event < length core.old.machines }
    requires three { 3 ≤ length core.old.machines }
    ensures { core.new.machines ≡ core.old.machines }
{
    tell(text, core, event)?;
    text.push_number(u64::from(core.state(Role(0))))?;
    text.push_number(u64::from(core.state(Role(1))))?;
    text.push_number(u64::from(core.state(Role(2))))?;
    tell_queue(text, core, Role(0), Role(1))?;
    tell_queue(text, core, Role(2), Role(0))?;
    tell_queue(text, core, Role(1), Role(0))?;
    tell_queue(text, core, Role(0), Role(2))?;
    text.push(b"\n")
}

/// The events of the example of docs/definitions.md. After the second K can't go on.
fn tell_events_by_hand(text: &mut Text, core: &mut Core) -> Result<(), NoMemory>
    requires { 3 ≤ length core.old.machines }
{
    tell_moment(text, core, send(0, 0, Value::Unit))?;
    tell_moment(text, core, send(0, 0, Value::Unit))?;
    tell_moment(text, core, Event::Receive { role: Role(0) })?;
    tell_moment(text, core, send(2, 0, Value::Unit))?;
    tell_moment(text, core, Event::Receive { role: Role(1) })?;
    tell_moment(text, core, send(1, 1, Value::Unit))?;
    tell_moment(text, core, Event::Receive { role: Role(0) })?;
    tell_moment(text, core, Event::Receive { role: Role(0) })?;
    tell_moment(text, core, send(0, 0, Value::Unit))?;
    tell_moment(text, core, Event::Receive { role: Role(2) })?;
    tell_moment(text, core, Event::Receive { role: Role(1) })
}

/// What is written of the example, from the start.
fn told_by_hand(alloc: Global, accepted: &Accepted) -> Option<Text> {
    if accepted.machines().len() < 3 {
        return None;
    }
    let Some(mut core) = after(alloc, accepted, &[]) else {
        return None;
    };
    let mut text = Text::new(alloc);
    match tell_events_by_hand(&mut text, &mut core) {
        Ok(()) => Some(text),
        Err(NoMemory) => None,
    }
}

/// The states of K, S and T after each event, and the four queues.
const BY_HAND: &[u8] =
    b"sent.100 1 0 0 0\nsent.200 2 0 0 0\nqueue empty.200 2 0 0 0\nsent.201 2 1 0 0\ngot ready.211 1 1 0 0\nsent.221 1 1 1 0\ngot ready.321 1 0 1 0\ngot another.521 1 0 0 0\nsent.621 1 0 0 1\ngot another.622 1 0 0 0\ngot ready.632 0 0 0 0\n";

#[test]
fn double_buffering_by_hand(rt: HostRuntime) {
    let alloc = rt.alloc();
    let told = match accepted_of(alloc, BUFFERING) {
        Some(accepted) => told_by_hand(alloc, &accepted),
        None => None,
    };
    match told {
        Some(told) => assert!(rt; told.as_slice() == BY_HAND),
        None => assert!(rt; false, "not accepted"),
    }
}
