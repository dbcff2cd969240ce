//! A session over queues of a capacity or of none, as rounds are made over it.
ghost use Rattle.std.specs.Prelude.{◌≡◌, ◌<◌, ℕ, List, Some, length, slice_get};
ghost use Rattle.rs_core.specs.Choices.{AreWellFormed};
ghost use Rattle.rs_core.specs.Choosable.{label_of};
ghost use Rattle.rs_core.specs.Configurations.{state_of};
ghost use Rattle.rs_core.specs.Turns.{is_full};
ghost use Rattle.rs_core.specs.declared.messages.StepFault.TheVariants as step_fault;
ghost use Rattle.rs_model.specs.declared.graph.Arm.{Arm};
ghost use Rattle.rs_model.specs.declared.graph.Role.{Role};
ghost use Rattle.rs_model.specs.declared.machines.State.TheVariants.{Takes};

use crate::arm_places::place_by_label;
use crate::queues::{Posted, Queues};
use crate::{Core, Event, GotBy, Message, StepFault, Stepped};
use rs_model::{Arm, Label, Machine, NoMemory, Role, State, Value};
use std::marker::Model;

/// A session whose queues hold no more messages than the capacity, where there is one.
#[derive(Drop)]
pub(crate) struct BoundedCore {
    pub core: Core,
    pub capacity: Option<usize>,
}

impl Queues for BoundedCore {
    ghost use Rattle.std.specs.Prelude.{Option};

    ghost core = { λ b. b.core };

    ghost capacity = { λ b. b.capacity };

    ghost notes = { λ b r t. Unit {0} };

    fn roles(&self) -> usize {
        self.core.roles()
    }

    fn role_at(&self, place: usize) -> Role {
        self.core.role_at(place)
    }

    fn machine(&self, role: Role) -> &Machine {
        self.core.machine(role)
    }

    fn state(&self, role: Role) -> u32 {
        self.core.state_standing(role)
    }

    fn post(
        &mut self,
        role: Role,
        peer: Role,
        place: u16,
        _arm: Arm,
        value: Value,
    ) -> Result<Posted, NoMemory> {
        if is_full(self.capacity, self.core.queue_len(role, peer)) {
            return Ok(Posted::Full(value));
        }
        match self.core.step(Event::Send {
            role,
            arm: place,
            value,
        }) {
            Ok(Stepped::Sent) => Ok(Posted::Sent),
            Ok(Stepped::Got { .. }) => unreachable!(),
            Err(refused) => Err(only_memory(refused.fault)),
        }
    }

    fn fetch(&mut self, role: Role, _peer: Role) -> Option<GotBy> {
        let number = self.core.state_standing(role);
        match self.core.step(Event::Receive { role }) {
            Ok(Stepped::Got { label, value }) => Some(GotBy {
                arm: self.place_of(role, number, label),
                message: Message { label, value },
            }),
            Ok(Stepped::Sent) => unreachable!(),
            Err(_) => None,
        }
    }
}

impl BoundedCore {
    /// The place of the arm with that label, at the state of that number, in which the role's machine takes.
    fn place_of(&self, role: Role, number: u32, label: Label) -> u16
        requires present { role.0 < length self.now.core.machines }
        requires well_formed { AreWellFormed self.now.core.machines }
        requires taken { (peer : Role) × (arms : List Arm) × (place : ℕ) × (state_of (slice_get self.now.core.machines role.0) number ≡ Some (Takes peer arms))
            × (label_of (slice_get arms place) ≡ Some label) }
        ensures { (peer : Role) (arms : List Arm) → state_of (slice_get self.now.core.machines role.0) number ≡ Some (Takes peer arms) → label_of (slice_get arms result) ≡ Some label }
    {
        match self.core.machine(role).states.get(number as usize) {
            Some(State::Takes { arms, .. }) => place_by_label(arms.as_slice(), label),
            _ => unreachable!(),
        }
    }
}

/// The one fault that an event has which the machines can do.
fn only_memory(fault: StepFault) -> NoMemory
    requires { fault ≡ step_fault.NoMemory }
{
    match fault {
        StepFault::NoMemory => NoMemory,
        _ => unreachable!(),
    }
}

/// Whether a queue of this length has no room for one message more.
fn is_full(capacity: Option<usize>, length: usize) -> bool
    ensures { result ≡ is_full capacity length }
{
    match capacity {
        Some(capacity) => length >= capacity,
        None => false,
    }
}
