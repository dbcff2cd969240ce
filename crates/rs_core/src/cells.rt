//! The machines of a session, their states and their queues, of which nothing is asked.
ghost use Rattle.std.specs.Prelude.{◌≡◌, ◌<◌, ◌++◌, ◌∷◌, [], List, Option, length, slice_index_or, slice_set, IfErr, OnErr, OnOk, OnSome, IfOk, MatchOption, Some, None, slice_get};
ghost use Rattle.rs_model.specs.declared.graph.Arm.{Arm};
ghost use Rattle.rs_model.specs.declared.graph.Role.{Role};
ghost use Rattle.rs_model.specs.declared.machines.State.TheVariants.{Takes};
ghost use Rattle.rs_core.specs.Configurations.{state_at, state_of};
ghost use Rattle.rs_core.specs.Core.{HasPlaces, configuration_of};
ghost use Rattle.rs_core.specs.Ways.{arm_with, way_in_front, front_by, next_by, way_of, way_by, with_sent, with_got};

use crate::rows::{Queue, SenderQueues};
use crate::{Message, StepFault};
use rs_model::{Arm, Label, Machine, Role, State, Value};
use std::marker::Model;

/// Where a step goes: the peer, the label, and the next state.
#[derive(Clone, Copy)]
pub(crate) struct Way {
    pub peer: Role,
    pub label: Label,
    pub next: u32,
}

/// The machines, their states and their queues, of which nothing is asked.
#[derive(Drop)]
pub(crate) struct Cells {
    pub machines: Vec<Machine>,
    pub states: Vec<u32>,
    pub rows: Vec<SenderQueues>,
}

impl Model for Cells {
    ghost use Rattle.rs_core.specs.Core.{Core_data};

    ghost Value = { Core_data };

    ghost view = { λ c. record { machines = c.machines.items; states = c.states.items; queues = c.rows.items } };
}

impl Cells {
    /// The state in which the role's machine stands.
    pub(crate) fn state(&self, role: Role) -> Option<&State>
        requires present { role.0 < length self.now.machines }
        requires places { HasPlaces self.now }
        ensures { MatchOption result (state_at self.now.machines (configuration_of self.now) role.0 ≡ None) (λ s. state_at self.now.machines (configuration_of self.now) role.0 ≡ Some s.now) }
    {
        let number = self.states[role.0 as usize];
        self.machines[role.0 as usize].states.get(number as usize)
    }

    /// Where a send by the arm goes, or what is wrong with it.
    pub(crate) fn way(&self, role: Role, arm: u16, value: &Value) -> Result<Way, StepFault>
        requires present { role.0 < length self.now.machines }
        requires places { HasPlaces self.now }
        ensures { result ≡ way_of (state_at self.now.machines (configuration_of self.now) role.0) arm value.now }
    {
        match self.state(role) {
            Some(State::Puts { peer, arms }) => way_by(*peer, arms.as_slice(), arm, value),
            _ => Err(StepFault::NotSending),
        }
    }

    /// Where the role's receive goes, or what is wrong with it. It goes nowhere where no arm has the message's label.
    pub(crate) fn front(&self, role: Role) -> Result<Option<Way>, StepFault>
        requires present { role.0 < length self.now.machines }
        requires places { HasPlaces self.now }
        requires peers { (peer : Role) (arms : List Arm) → state_at self.now.machines (configuration_of self.now) role.0 ≡ Some (Takes peer arms) → peer.0 < length self.now.machines }
        ensures { result ≡ way_in_front (state_at self.now.machines (configuration_of self.now) role.0) (λ p. (configuration_of self.now).queue p role.0) }
    {
        match self.state(role) {
            Some(State::Takes { peer, arms }) => {
                let queue = &self.rows[peer.0 as usize].queues[role.0 as usize];
                front_by(*peer, arms.as_slice(), queue)
            }
            _ => Err(StepFault::NotReceiving),
        }
    }

    /// Puts the message into the queue from `role` to `peer`, and the machine of `role` into the next state.
    pub(crate) fn send(
        &mut self,
        role: Role,
        peer: Role,
        next: u32,
        message: Message,
    ) -> Result<(), Message>
        requires present { role.0 < length self.old.machines }
        requires peer { peer.0 < length self.old.machines }
        requires places { HasPlaces self.old }
        ensures ok { OnOk result (self.new ≡ with_sent self.old role.0 peer.0 next message) }
        ensures err { IfErr result (λ m. m ≡ message) }
        ensures same { OnErr result (self.new ≡ self.old) }
    {
        self.rows[role.0 as usize].push(peer.0 as usize, message)?;
        self.states[role.0 as usize] = next;
        Ok(())
    }

    /// Takes the oldest message from `peer` to `role`, and puts the machine of `role` into the next state.
    pub(crate) fn receive(&mut self, role: Role, peer: Role, next: u32) -> Option<Message>
        requires present { role.0 < length self.old.machines }
        requires peer { peer.0 < length self.old.machines }
        requires places { HasPlaces self.old }
        ensures message { MatchOption result ((configuration_of self.old).queue peer.0 role.0 ≡ [])
            (λ m. (configuration_of self.old).queue peer.0 role.0 ≡ m ∷ (configuration_of self.new).queue peer.0 role.0) }
        ensures new { OnSome result (self.new ≡ with_got self.old role.0 peer.0 next ((configuration_of self.new).queue peer.0 role.0)) }
    {
        let message = self.rows[peer.0 as usize].pop(role.0 as usize)?;
        self.states[role.0 as usize] = next;
        Some(message)
    }
}

fn way_by(peer: Role, arms: &[Arm], place: u16, value: &Value) -> Result<Way, StepFault>
    ensures { result ≡ way_by peer (slice_get arms.now place) value.now }
{
    match arms.get(place as usize) {
        None => Err(StepFault::NoArm),
        Some(arm) => {
            if value.fits(arm.sort) {
                Ok(Way {
                    peer,
                    label: arm.label,
                    next: arm.next,
                })
            } else {
                Err(StepFault::WrongSort)
            }
        }
    }
}

fn front_by(peer: Role, arms: &[Arm], queue: &Queue) -> Result<Option<Way>, StepFault>
    ensures { result ≡ front_by peer arms.now queue.now }
{
    match queue.oldest() {
        None => Err(StepFault::QueueEmpty),
        Some(message) => Ok(next_by(peer, arms, message.label)),
    }
}

fn next_by(peer: Role, arms: &[Arm], label: Label) -> Option<Way>
    ensures { result ≡ next_by peer (arm_with arms.now label) }
{
    for arm in arms {
        if arm.label.0 == label.0 {
            return Some(Way {
                peer,
                label: arm.label,
                next: arm.next,
            });
        }
    }
    None
}
