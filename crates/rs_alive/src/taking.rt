//! The events that lead to the receive of a given message, after a given past.
ghost use Rattle.std.specs.Prelude.{◌≡◌, ◌≢◌, ◌<◌, ◌≤◌, ◌^◌, ◌*◌, ◌+◌, ◌++◌, ◌∷◌, [], IfOk, IfErr, OnOk, length};
ghost use Rattle.rs_alive.specs.Pasts.{IsContinued, PastLeadsTo, PastTells};
ghost use Rattle.rs_alive.specs.Replays.{IsReplayFault, IsStepFault};
ghost use Rattle.rs_alive.specs.Taken.{acts_by};
ghost use Rattle.rs_core.specs.Configurations.{Step, role_of};
ghost use Rattle.rs_core.specs.Core.{configuration_of};
ghost use Rattle.rs_safety.specs.Room.{room_of};

use crate::schedule::{Advanced, advance, copy_of};
use rs_core::{Core, Event, StepFault};
use rs_model::{NoMemory, Role, copies_of};
use rs_safety::Accepted;
use std::alloc::Global;

/// Why there are no events that take a message.
#[derive(Clone, Copy, Debug, PartialEq, Eq)]
pub enum AliveFault {
    /// The past isn't one of the machines': the event at that place is the first that is no step.
    NotAPast { at: u32 },
    /// The queue has this number of messages, and none at the place that is asked for.
    NoMessage { len: u32 },
    /// Memory that was asked for was refused.
    NoMemory,
}

impl From<NoMemory> for AliveFault {
    ghost use Rattle.rs_alive.specs.declared.taking.AliveFault.TheVariants as fault;

    ghost from_gives = { λ _ e. e ≡ fault.NoMemory };

    fn from(_refused: NoMemory) -> Self {
        AliveFault::NoMemory
    }
}

/// Events that continue `past`, of which the last one takes the message at the place, counted from 0, of the
/// queue from the sender to the receiver: at most twice the number of roles times the number of the protocol's nodes times
/// the sum of the sender's own events in the past and three times the room.
///
/// They follow one schedule, and nothing is searched. A value that is sent is `Unit`, `false`, 0 or an empty list. The
/// errors are those of [`AliveFault`].
pub fn taken_within(
    alloc: Global,
    accepted: &Accepted,
    past: &[Event],
    sender: Role,
    receiver: Role,
    place: u32,
) -> Result<Vec<Event>, AliveFault>
    requires sender { sender.0 < length accepted.now.machines }
    requires receiver { receiver.0 < length accepted.now.machines }
    requires apart { sender.0 ≢ receiver.0 }
    requires bounded { length past.now < 2 ^ 32 }
    ensures continued { IfOk result (λ v. IsContinued accepted.now.machines past.now sender receiver place v.items) }
    ensures bounded { IfOk result (λ v. length v.items ≤ 2 * length accepted.now.machines * length accepted.now.protocol.nodes * (acts_by sender.0 past.now + 3 * room_of accepted.now.derivations)) }
    ensures fault { IfErr result (λ e. PastTells accepted.now.machines past.now sender receiver place e) }
{
    let machines = accepted.machines();
    let mut core = replayed(alloc, accepted, past)?;
    let len = core.queue_len(sender, receiver);
    if len <= place as usize {
        return Err(AliveFault::NoMessage { len: len as u32 });
    }
    let mut before = place;
    let mut events = Vec::new(alloc);
    loop {
        let Advanced { event, takes } = advance(alloc, machines, &mut core, sender, receiver)?;
        push(&mut events, event)?;
        if takes {
            if before == 0 {
                return Ok(events);
            }
            before -= 1;
        }
    }
}

fn push(events: &mut Vec<Event>, event: Event) -> Result<(), NoMemory>
    ensures { OnOk result (events.new.items ≡ events.old.items ++ event ∷ []) }
{
    events.push(event)?;
    Ok(())
}

/// The session after the events of the past.
fn replayed(alloc: Global, accepted: &Accepted, past: &[Event]) -> Result<Core, AliveFault>
    requires bounded { length past.now < 2 ^ 32 }
    ensures machines { IfOk result (λ c. c.machines ≡ accepted.now.machines) }
    ensures leads { IfOk result (λ c. PastLeadsTo accepted.now.machines past.now (configuration_of c)) }
    ensures fault { IfErr result (λ e. IsReplayFault accepted.now.machines past.now e) }
{
    let mut core = Core::begin(alloc, copies_of(alloc, accepted.machines())?)?;
    let roles = accepted.machines().len();
    for at in 0..past.len() {
        replay(alloc, &mut core, roles, &past[at], at as u32)?;
    }
    Ok(core)
}

/// Makes the step of the event at that place of the past.
fn replay(
    alloc: Global,
    core: &mut Core,
    roles: usize,
    event: &Event,
    at: u32,
) -> Result<(), AliveFault>
    requires roles { roles ≡ length core.old.machines }
    ensures step { OnOk result (Step core.old.machines (configuration_of core.old) event.now (configuration_of core.new)) }
    ensures fault { IfErr result (λ e. IsStepFault core.old.machines (configuration_of core.old) event.now at e) }
    ensures machines { core.new.machines ≡ core.old.machines }
{
    if role_of(event).0 as usize >= roles {
        return Err(AliveFault::NotAPast { at });
    }
    match core.step(copy_of(alloc, event)?) {
        Ok(_) => Ok(()),
        Err(refused) => match refused.fault {
            StepFault::NoMemory => Err(AliveFault::NoMemory),
            _ => Err(AliveFault::NotAPast { at }),
        },
    }
}

/// The role whose step the event is.
fn role_of(event: &Event) -> Role
    ensures { result.0 ≡ role_of event.now }
{
    match event {
        Event::Send { role, .. } | Event::Receive { role } => *role,
    }
}
