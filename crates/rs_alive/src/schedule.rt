//! The schedule by which a message is taken in the end: from its receiver along the waits, to the role that can go on.
ghost use Rattle.std.specs.Prelude.{◌≡◌, ◌<◌, IfOk, List, MatchOption, None, Some, length};
ghost use Rattle.rs_core.specs.Configurations.{state_at};
ghost use Rattle.rs_core.specs.Core.{configuration_of};
ghost use Rattle.rs_core.specs.declared.messages.Event.{Event};
ghost use Rattle.rs_core.specs.declared.messages.StepFault.TheVariants as step_fault;
ghost use Rattle.rs_model.specs.declared.graph.Arm.{Arm};
ghost use Rattle.rs_model.specs.declared.graph.Role.{Role};
ghost use Rattle.rs_model.specs.declared.machines.State.TheVariants.{Takes};
ghost use Rattle.rs_core.specs.Choices.{AreWellFormed};
ghost use Rattle.rs_alive.specs.Schedule.{Advances, CanLeadOn, WaitsLeadOn, event_of, takes_from, waits_for};

use rs_core::{Core, Event, StepFault};
use rs_model::{Machine, NoMemory, Numbers, Octets, Role, Sort, State, Value};
use std::alloc::Global;

/// A step of the schedule, and whether it takes a message of the sender to the receiver.
#[derive(Drop)]
pub(crate) struct Advanced {
    pub event: Event,
    pub takes: bool,
}

/// Makes the step of the role to which the waits lead from the receiver.
pub(crate) fn advance(
    alloc: Global,
    machines: &[Machine],
    core: &mut Core,
    sender: Role,
    receiver: Role,
) -> Result<Advanced, NoMemory>
    requires machines { machines.now ≡ core.old.machines }
    requires well_formed { AreWellFormed machines.now }
    requires receiver { receiver.0 < length machines.now }
    requires leads { CanLeadOn core.old.machines (configuration_of core.old) receiver.0 }
    ensures advances { IfOk result (λ a. Advances core.old.machines sender receiver (configuration_of core.old) (configuration_of core.new) a.event a.takes) }
    ensures machines { core.new.machines ≡ core.old.machines }
{
    let role = last_of(machines, core, receiver);
    let event = act_of(alloc, machines, core, role)?;
    let takes = takes_from(machines, core, role, sender, receiver);
    match core.step(copy_of(alloc, &event)?) {
        Ok(_) => Ok(Advanced { event, takes }),
        Err(refused) => Err(only_memory(refused.fault)),
    }
}

/// The role to which the waits lead.
fn last_of(machines: &[Machine], core: &Core, role: Role) -> Role
    requires machines { machines.now ≡ core.now.machines }
    requires well_formed { AreWellFormed machines.now }
    requires present { role.0 < length machines.now }
    requires leads { CanLeadOn core.now.machines (configuration_of core.now) role.0 }
    ensures leads { WaitsLeadOn core.now.machines (configuration_of core.now) role.0 result.0 }
    ensures present { result.0 < length machines.now }
{
    let mut last = role;
    for _ in 0..machines.len() {
        match waits_for(machines, core, last) {
            Some(peer) => last = peer,
            None => return last,
        }
    }
    unreachable!()
}

/// For whom the role waits.
fn waits_for(machines: &[Machine], core: &Core, role: Role) -> Option<Role>
    requires machines { machines.now ≡ core.now.machines }
    requires well_formed { AreWellFormed machines.now }
    requires present { role.0 < length machines.now }
    ensures waits { result ≡ waits_for core.now.machines (configuration_of core.now) role.0 }
    ensures present { MatchOption result (Unit {0}) (λ r. r.0 < length machines.now) }
{
    match here(machines, core, role) {
        Some(State::Takes { peer, .. }) => {
            if core.queue_len(*peer, role) > 0 {
                None
            } else {
                Some(*peer)
            }
        }
        _ => None,
    }
}

/// The state of the role's machine.
fn here<'a>(machines: &'a [Machine], core: &Core, role: Role) -> Option<&'a State>
    requires machines { machines.now ≡ core.now.machines }
    requires well_formed { AreWellFormed machines.now }
    requires present { role.0 < length machines.now }
    ensures state { MatchOption result (state_at core.now.machines (configuration_of core.now) role.0 ≡ None) (λ s. state_at core.now.machines (configuration_of core.now) role.0 ≡ Some s.now) }
    ensures takes { (peer : Role) (arms : List Arm) → state_at core.now.machines (configuration_of core.now) role.0 ≡ Some (Takes peer arms) → peer.0 < length core.now.machines }
{
    let number = core.state(role);
    let machine = &machines[role.0 as usize];
    machine.states.get(number as usize)
}

/// What the role does: it sends by its first arm, or it receives.
fn act_of(alloc: Global, machines: &[Machine], core: &Core, role: Role) -> Result<Event, NoMemory>
    requires machines { machines.now ≡ core.now.machines }
    requires well_formed { AreWellFormed machines.now }
    requires present { role.0 < length machines.now }
    requires acts { (event : Event) × (event_of core.now.machines (configuration_of core.now) role ≡ Some event) }
    ensures { IfOk result (λ e. event_of core.now.machines (configuration_of core.now) role ≡ Some e) }
{
    match here(machines, core, role) {
        Some(State::Puts { arms, .. }) => match arms.as_slice().first() {
            Some(arm) => Ok(Event::Send {
                role,
                arm: 0,
                value: arm.sort.empty_value(alloc)?,
            }),
            None => unreachable!(),
        },
        Some(State::Takes { .. }) => Ok(Event::Receive { role }),
        _ => unreachable!(),
    }
}

/// Whether the role's receive takes a message of the sender to the receiver.
fn takes_from(machines: &[Machine], core: &Core, role: Role, sender: Role, receiver: Role) -> bool
    requires machines { machines.now ≡ core.now.machines }
    requires well_formed { AreWellFormed machines.now }
    requires present { role.0 < length machines.now }
    ensures { result ≡ takes_from core.now.machines (configuration_of core.now) role sender receiver }
{
    match here(machines, core, role) {
        Some(State::Takes { peer, .. }) => role.0 == receiver.0 && peer.0 == sender.0,
        _ => false,
    }
}

/// An equal event.
pub(crate) fn copy_of(alloc: Global, event: &Event) -> Result<Event, NoMemory>
    ensures { IfOk result (λ e. e ≡ event.now) }
{
    Ok(match event {
        Event::Send { role, arm, value } => Event::Send {
            role: *role,
            arm: *arm,
            value: value.copy(alloc)?,
        },
        Event::Receive { role } => Event::Receive { role: *role },
    })
}

/// The one fault that an event has which the machines can do.
fn only_memory(fault: StepFault) -> NoMemory
    requires { fault ≡ step_fault.NoMemory }
{
    match fault {
        StepFault::NoMemory => NoMemory,
        _ => unreachable!(),
    }
}
