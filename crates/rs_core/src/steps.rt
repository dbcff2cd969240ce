//! A session over unbounded queues, and its steps.
ghost use Rattle.std.specs.Prelude.{◌≡◌, ◌<◌, ◌∷◌, [], map, replicate, length, slice_index_or, IfErr, OnErr, OnOk, IfOk, Some, slice_get};
ghost use Rattle.rs_core.specs.Choices.{AreWellFormed};
ghost use Rattle.rs_core.specs.Configurations.{role_of, Sends, StartsAt, state_at};
ghost use Rattle.rs_core.specs.Core.{HasReceived, HasStepped, IsReachedSession, StepIsRefused, IsUnsent, configuration_of, receive_fault, send_fault};
ghost use Rattle.rs_core.specs.Queues.{IsStanding};
ghost use Rattle.rs_core.specs.Safety.{IsSafe};
ghost use Rattle.rs_core.specs.declared.messages.StepFault.TheVariants.{NoMemory};

use crate::cells::Cells;
use crate::rows::SenderQueues;
use crate::{Event, Message, Refused, StepFault, Stepped};
use rs_model::{Machine, NoMemory, Role, Value};
use std::alloc::Global;
use std::marker::Model;

/// A session over unbounded queues: safe and well-formed machines, one for each role in order, and where they stand.
#[derive(Drop)]
pub struct Core {
    cells: Cells,
}

impl Model for Core {
    ghost use Rattle.rs_core.specs.Core.{Core_data, IsReachedSession};

    ghost Value = { Core_data };

    ghost view = { λ c. c.cells };

    ghost invariant = { λ c. IsReachedSession c.cells };
}

/// A value that wasn't sent, and why.
#[derive(Drop)]
struct Unsent {
    fault: StepFault,
    value: Value,
}

impl Core {
    /// The session at its start: each machine stands in its start state, and every queue is empty. The one error is that
    /// memory was refused.
    pub fn begin(alloc: Global, machines: Vec<Machine>) -> Result<Core, NoMemory>
        requires safe { IsSafe machines.items }
        requires well_formed { AreWellFormed machines.items }
        ensures machines { IfOk result (λ c. c.machines ≡ machines.items) }
        ensures starts { IfOk result (λ c. StartsAt machines.items (configuration_of c)) }
    {
        let count = machines.len();
        let states = starts_of(alloc, &machines)?;
        let rows = rows_of(alloc, count)?;
        Ok(Core {
            cells: Cells {
                machines,
                states,
                rows,
            },
        })
    }

    /// The machines, in role order. They are safe and well formed, and the session has come to where it stands from their
    /// start: all that `IsReachedSession` says.
    pub fn machines(&self) -> &[Machine]
        ensures machines { result.now ≡ self.now.machines }
        ensures session { IsReachedSession self.now }
        ensures safe { IsSafe result.now }
    {
        self.cells.machines.as_slice()
    }

    /// Makes the step of the event. There is no fault for a message that isn't taken, since the machines are safe.
    ///
    /// The error is the first of [`StepFault`] that holds, the event comes back with it, and nothing changes; memory can
    /// be refused at a send alone.
    pub fn step(&mut self, event: Event) -> Result<Stepped, Refused>
        requires present { role_of event < length self.old.machines }
        ensures step { IfOk result (λ s. HasStepped self.old.machines (configuration_of self.old) event (configuration_of self.new) s) }
        ensures refused { IfErr result (λ r. StepIsRefused self.old.machines (configuration_of self.old) event r.fault) }
        ensures back { IfErr result (λ r. r.event ≡ event) }
        ensures same { OnErr result (self.new ≡ self.old) }
        ensures machines { self.new.machines ≡ self.old.machines }
    {
        match event {
            Event::Send { role, arm, value } => match self.send(role, arm, value) {
                Ok(()) => Ok(Stepped::Sent),
                Err(unsent) => Err(Refused {
                    fault: unsent.fault,
                    event: Event::Send {
                        role,
                        arm,
                        value: unsent.value,
                    },
                }),
            },
            Event::Receive { role } => match self.receive(role) {
                Ok(message) => Ok(Stepped::Got {
                    label: message.label,
                    value: message.value,
                }),
                Err(fault) => Err(Refused {
                    fault,
                    event: Event::Receive { role },
                }),
            },
        }
    }

    fn send(&mut self, role: Role, arm: u16, value: Value) -> Result<(), Unsent>
        requires present { role.0 < length self.old.machines }
        ensures step { OnOk result (Sends self.old.machines (configuration_of self.old) role.0 arm value (configuration_of self.new)) }
        ensures refused { IfErr result (λ r. IsUnsent (send_fault (state_at self.old.machines (configuration_of self.old) role.0) arm value) r.fault) }
        ensures back { IfErr result (λ r. r.value ≡ value) }
        ensures same { OnErr result (self.new ≡ self.old) }
        ensures machines { self.new.machines ≡ self.old.machines }
    {
        let way = match self.cells.way(role, arm, &value) {
            Ok(way) => way,
            Err(fault) => return Err(Unsent { fault, value }),
        };
        let message = Message {
            label: way.label,
            value,
        };
        match self.cells.send(role, way.peer, way.next, message) {
            Ok(()) => Ok(()),
            Err(message) => Err(Unsent {
                fault: StepFault::NoMemory,
                value: message.value,
            }),
        }
    }

    fn receive(&mut self, role: Role) -> Result<Message, StepFault>
        requires present { role.0 < length self.old.machines }
        ensures step { IfOk result (λ m. HasReceived self.old.machines (configuration_of self.old) role.0 (configuration_of self.new) m) }
        ensures refused { IfErr result (λ f. receive_fault (state_at self.old.machines (configuration_of self.old) role.0) (λ p. (configuration_of self.old).queue p role.0) ≡ Some f) }
        ensures same { OnErr result (self.new ≡ self.old) }
        ensures machines { self.new.machines ≡ self.old.machines }
    {
        let way = match self.cells.front(role) {
            Ok(Some(way)) => way,
            Ok(None) => unreachable!(),
            Err(fault) => return Err(fault),
        };
        match self.cells.receive(role, way.peer, way.next) {
            Some(message) => Ok(message),
            None => unreachable!(),
        }
    }

    /// The number of the state in which the role's machine stands.
    pub fn state(&self, role: Role) -> u32
        requires present { role.0 < length self.now.machines }
        ensures { result ≡ (configuration_of self.now).at role.0 }
    {
        self.cells.states[role.0 as usize]
    }

    /// The number of that state, which is there.
    pub(crate) fn state_standing(&self, role: Role) -> u32
        requires present { role.0 < length self.now.machines }
        ensures state { result ≡ (configuration_of self.now).at role.0 }
        ensures standing { IsStanding self.now }
    {
        self.cells.states[role.0 as usize]
    }

    /// The machine of the role.
    pub(crate) fn machine(&self, role: Role) -> &Machine
        requires present { role.0 < length self.now.machines }
        ensures { slice_get self.now.machines role.0 ≡ Some result.now }
    {
        &self.cells.machines[role.0 as usize]
    }

    /// The role at a place among the machines, whose number it is.
    pub(crate) fn role_at(&self, place: usize) -> Role
        requires present { place < length self.now.machines }
        ensures { result.0 ≡ place }
    {
        self.cells.machines[place].role
    }

    /// How many roles there are.
    pub(crate) fn roles(&self) -> usize
        ensures { result ≡ length self.now.machines }
    {
        self.cells.machines.len()
    }

    /// How many messages are under way from `sender` to `receiver`.
    pub fn queue_len(&self, sender: Role, receiver: Role) -> usize
        requires sender { sender.0 < length self.now.machines }
        requires receiver { receiver.0 < length self.now.machines }
        ensures { result ≡ length ((configuration_of self.now).queue sender.0 receiver.0) }
    {
        self.cells.rows[sender.0 as usize].queues[receiver.0 as usize].len()
    }
}

/// The number of each machine's start state.
pub fn starts_of(alloc: Global, machines: &[Machine]) -> Result<Vec<u32>, NoMemory>
    ensures { IfOk result (λ v. v.items ≡ map (λ m. m.start) machines.now) }
{
    let mut states = Vec::with_capacity(alloc, machines.len())?;
    for machine in machines {
        states.push(machine.start)?;
    }
    Ok(states)
}

fn rows_of(alloc: Global, count: usize) -> Result<Vec<SenderQueues>, NoMemory>
    ensures { IfOk result (λ v. v.items ≡ replicate count (replicate count [])) }
{
    let mut rows = Vec::with_capacity(alloc, count)?;
    for _ in 0..count {
        rows.push(SenderQueues::new(alloc, count)?)?;
    }
    Ok(rows)
}
