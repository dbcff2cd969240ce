//! A session over queues of a capacity, as the rounds of a run are made over it.
ghost use Rattle.std.specs.Prelude.{◌≡◌, ◌<◌, ℕ, List, Some, length, slice_get};
ghost use Rattle.rs_core.specs.Choices.{AreWellFormed};
ghost use Rattle.rs_core.specs.Choosable.{label_of};
ghost use Rattle.rs_core.specs.Configurations.{state_of};
ghost use Rattle.rs_core.specs.declared.messages.StepFault.TheVariants as step_fault;
ghost use Rattle.rs_model.specs.declared.graph.Arm.{Arm};
ghost use Rattle.rs_model.specs.declared.graph.Role.{Role};
ghost use Rattle.rs_model.specs.declared.machines.State.TheVariants.{Takes};

use rs_core::{Core, Event, GotBy, Message, Posted, Queues, StepFault, Stepped, place_by_label};
use rs_model::{Arm, Label, Machine, NoMemory, Role, State, Value};

/// A session whose queues hold no more messages than the capacity.
#[derive(Drop)]
pub(crate) struct PlainQueues {
    pub core: Core,
    pub capacity: u16,
}

impl Queues for PlainQueues {
    ghost use Rattle.std.specs.Prelude.{Some};

    ghost core = { λ q. q.core };

    ghost capacity = { λ q. Some q.capacity };

    ghost notes = { λ q r t. Unit {0} };

    fn roles(&self) -> usize {
        self.core.machines().len()
    }

    fn role_at(&self, place: usize) -> Role {
        let machine = &self.core.machines()[place];
        machine.role
    }

    fn machine(&self, role: Role) -> &Machine {
        &self.core.machines()[role.0 as usize]
    }

    fn state(&self, role: Role) -> u32 {
        let _machines = self.core.machines();
        self.core.state(role)
    }

    fn post(
        &mut self,
        role: Role,
        peer: Role,
        place: u16,
        _arm: Arm,
        value: Value,
    ) -> Result<Posted, NoMemory> {
        if self.core.queue_len(role, peer) >= self.capacity as usize {
            return Ok(Posted::Full(value));
        }
        match self.core.step(Event::Send {
            role,
            arm: place,
            value,
        }) {
            Ok(Stepped::Sent) => Ok(Posted::Sent),
            Ok(Stepped::Got { .. }) => unreachable!(),
            Err(refused) => Err(only_memory(refused.fault)),
        }
    }

    fn fetch(&mut self, role: Role, _peer: Role) -> Option<GotBy> {
        let _machines = self.core.machines();
        let number = self.core.state(role);
        match self.core.step(Event::Receive { role }) {
            Ok(Stepped::Got { label, value }) => Some(GotBy {
                arm: self.place_of(role, number, label),
                message: Message { label, value },
            }),
            Ok(Stepped::Sent) => unreachable!(),
            Err(_) => None,
        }
    }
}

impl PlainQueues {
    /// The place of the arm with that label, at the state of that number, in which the role's machine takes.
    fn place_of(&self, role: Role, number: u32, label: Label) -> u16
        requires present { role.0 < length self.now.core.machines }
        requires well_formed { AreWellFormed self.now.core.machines }
        requires taken { (peer : Role) × (arms : List Arm) × (place : ℕ) × (state_of (slice_get self.now.core.machines role.0) number ≡ Some (Takes peer arms))
            × (label_of (slice_get arms place) ≡ Some label) }
        ensures { (peer : Role) (arms : List Arm) → state_of (slice_get self.now.core.machines role.0) number ≡ Some (Takes peer arms) → label_of (slice_get arms result) ≡ Some label }
    {
        let machine = &self.core.machines()[role.0 as usize];
        match machine.states.get(number as usize) {
            Some(State::Takes { arms, .. }) => place_by_label(arms.as_slice(), label),
            _ => unreachable!(),
        }
    }
}

/// The one fault that an event has which the machines can do.
fn only_memory(fault: StepFault) -> NoMemory
    requires { fault ≡ step_fault.NoMemory }
{
    match fault {
        StepFault::NoMemory => NoMemory,
        _ => unreachable!(),
    }
}
