//! A session over rings of a stated size, step by step: which steps there are, and who can go on.
ghost use Rattle.std.specs.Prelude.{◌≡◌, ◌<◌, ◌≤◌, ◌^◌, ◌⊎◌, ℕ, List, Option, Some, None, length, slice_get, slice_index_or, IfOk, IfErr, IfSome, IfNone, OnErr, OnOk, MatchOption, [], suc};
ghost use Rattle.rs_model.specs.Limits.{IsCapacity};
ghost use Rattle.rs_core.specs.Configurations.{StartsAt, role_of, state_at};
ghost use Rattle.rs_core.specs.Core.{configuration_of};
ghost use Rattle.rs_core.specs.Safety.{AllEnded};
ghost use Rattle.rs_model.specs.declared.graph.Arm.{Arm};
ghost use Rattle.rs_model.specs.declared.graph.Role.{Role};
ghost use Rattle.rs_model.specs.declared.machines.State.TheVariants.{Puts, Takes};
ghost use Rattle.rs_room.specs.Looks.{can_move, full_ring, is_right, pair_of_receive, within};
ghost use Rattle.rs_room.specs.Movable.{IsLeastMovable, NoneIsMovable};
ghost use Rattle.rs_room.specs.Rings.{CountsStep, HandsBack, HasSteppedWithin, IsRingSession, KeepsWhatIsFixed, messages_sent, messages_taken};
ghost use Rattle.rs_safety.specs.Room.{room_of};

use crate::counts::PairCounts;
use rs_core::{Core, Event, StepFault, Stepped};
use rs_model::{Arm, Machine, NoMemory, Role, State, Value, copies_of};
use rs_safety::Accepted;
use std::alloc::Global;
use std::marker::Model;

/// Why there is no such step over rings.
#[derive(Clone, Copy, Debug, PartialEq, Eq)]
pub enum BoundedFault {
    /// The role of a send isn't in a state that sends.
    NotSending,
    /// The state has no arm at that place.
    NoArm,
    /// The value isn't of the arm's sort.
    WrongSort,
    /// The role of a receive isn't in a state that receives.
    NotReceiving,
    /// The queue from the state's peer is empty.
    QueueEmpty,
    /// Memory that was asked for was refused.
    NoMemory,
    /// The ring to the state's peer is full: this number of messages was put into it since the start, and so many taken from
    /// it.
    QueueFull { sent: u64, taken: u64 },
}

/// The event that was refused, and why.
#[derive(Drop, Debug)]
pub struct BoundedRefused {
    pub fault: BoundedFault,
    pub event: Event,
}

/// A session over rings: the machines of an accepted session, and their states. Each ordered pair of roles has a ring
/// that holds at most `capacity` messages.
#[derive(Drop)]
pub struct Bounded {
    core: Core,
    machines: Vec<Machine>,
    capacity: usize,
    room: u64,
    steps: u64,
    taken: PairCounts,
}

impl Model for Bounded {
    ghost use Rattle.std.specs.Prelude.{◌≡◌};
    ghost use Rattle.rs_room.specs.Rings.{Bounded_data, IsRingSession};

    ghost Value = { Bounded_data };

    ghost view = { λ b. record { core = b.core; capacity = b.capacity; room = b.room; steps = b.steps; taken = b.taken } };

    ghost invariant = { λ b. IsRingSession (record { core = b.core; capacity = b.capacity; room = b.room; steps = b.steps; taken = b.taken }) × (b.machines.items ≡ b.core.machines) };
}

impl Bounded {
    /// The session at its start, over rings of that capacity. The one error is that memory was refused.
    pub fn begin(alloc: Global, accepted: &Accepted, capacity: u16) -> Result<Bounded, NoMemory>
        requires capacity { IsCapacity capacity }
        ensures machines { IfOk result (λ b. b.core.machines ≡ accepted.now.machines) }
        ensures starts { IfOk result (λ b. StartsAt accepted.now.machines (configuration_of b.core)) }
        ensures capacity { IfOk result (λ b. b.capacity ≡ capacity) }
        ensures room { IfOk result (λ b. b.room ≡ room_of accepted.now.derivations) }
        ensures steps { IfOk result (λ b. b.steps ≡ 0) }
        ensures sent { IfOk result (λ b. (p q : ℕ) → messages_sent b p q ≡ 0) }
        ensures taken { IfOk result (λ b. (p q : ℕ) → messages_taken b p q ≡ 0) }
    {
        let taken = PairCounts::new(alloc, accepted.machines().len())?;
        let machines = copies_of(alloc, accepted.machines())?;
        let core = Core::begin(alloc, copies_of(alloc, accepted.machines())?)?;
        Ok(Bounded {
            core,
            machines,
            capacity: capacity as usize,
            room: accepted.room(),
            steps: 0,
            taken,
        })
    }

    /// The machines, in role order. They are those of an accepted session, and have reached their states by bounded
    /// steps: all that `IsRingSession` says.
    pub fn machines(&self) -> &[Machine]
        ensures machines { result.now ≡ self.now.core.machines }
        ensures session { IsRingSession self.now }
    {
        self.machines.as_slice()
    }

    /// How many messages each ring must hold, so that no role can be held up by full rings: the room of the accepted
    /// session.
    pub fn room(&self) -> u64
        ensures { result ≡ self.now.room }
    {
        self.room
    }

    /// How many steps were made since the start.
    pub fn steps(&self) -> u64
        ensures { result ≡ self.now.steps }
    {
        self.steps
    }

    /// Makes the step of the event, where a send needs room in its ring.
    ///
    /// The error is the first of [`BoundedFault`] that holds, but for memory, which can be refused at a send alone and is
    /// wanted only where the ring has room. The event comes back with it, and nothing changes.
    pub fn step(&mut self, event: Event) -> Result<Stepped, BoundedRefused>
        requires present { role_of event < length self.old.core.machines }
        requires bounded { self.old.steps < 2 ^ 63 }
        ensures step { IfOk result (λ s. HasSteppedWithin self.old.core.machines self.old.capacity (configuration_of self.old.core) event (configuration_of self.new.core) s) }
        ensures counts { OnOk result (CountsStep self.old event self.new) }
        ensures steps { OnOk result (self.new.steps ≡ suc self.old.steps) }
        ensures refused { IfErr result (HandsBack self.old event) }
        ensures same { OnErr result (self.new ≡ self.old) }
        ensures fixed { KeepsWhatIsFixed self.old self.new }
    {
        if let Some((sent, taken)) = self.full_counts(&event) {
            return Err(BoundedRefused {
                fault: BoundedFault::QueueFull { sent, taken },
                event,
            });
        }
        let taking = self.taking(&event);
        match self.core.step(event) {
            Ok(stepped) => {
                self.taken.count(taking);
                self.steps += 1;
                Ok(stepped)
            }
            Err(refused) => Err(BoundedRefused {
                fault: within(refused.fault),
                event: refused.event,
            }),
        }
    }

    /// The least role that has a bounded step. Takes no memory.
    ///
    /// Where the capacity is at least the room there is none only where all have ended.
    pub fn movable(&self) -> Option<Role>
        ensures least { IfSome result (λ r. IsLeastMovable self.now r.0) }
        ensures none { IfNone result (NoneIsMovable self.now) }
        ensures ended { self.now.room ≤ self.now.capacity
            → MatchOption result (AllEnded self.now.core.machines (configuration_of self.now.core)) (λ r. AllEnded self.now.core.machines (configuration_of self.now.core) → ⊥) }
    {
        for number in 0..self.roles() {
            let role = Role(number);
            if self.can_move(role) {
                return Some(role);
            }
        }
        None
    }

    /// How many roles there are.
    fn roles(&self) -> u8
        ensures many { result ≡ length self.now.core.machines }
        ensures session { IsRingSession self.now }
    {
        self.machines.len() as u8
    }

    /// The state of the role's machine.
    fn here(&self, role: Role) -> Option<&State>
        requires present { role.0 < length self.now.core.machines }
        ensures state { MatchOption result (state_at self.now.core.machines (configuration_of self.now.core) role.0 ≡ None)
            (λ s. state_at self.now.core.machines (configuration_of self.now.core) role.0 ≡ Some s.now) }
        ensures puts { (peer : Role) (arms : List Arm) → state_at self.now.core.machines (configuration_of self.now.core) role.0 ≡ Some (Puts peer arms) → peer.0 < length self.now.core.machines }
        ensures takes { (peer : Role) (arms : List Arm) → state_at self.now.core.machines (configuration_of self.now.core) role.0 ≡ Some (Takes peer arms) → peer.0 < length self.now.core.machines }
    {
        let number = self.core.state(role);
        self.machines[role.0 as usize].states.get(number as usize)
    }

    /// Whether the role has a bounded step.
    fn can_move(&self, role: Role) -> bool
        requires present { role.0 < length self.now.core.machines }
        ensures { result ≡ can_move self.now role.0 }
    {
        match self.here(role) {
            Some(State::Puts { peer, .. }) => self.core.queue_len(role, *peer) < self.capacity,
            Some(State::Takes { peer, .. }) => self.core.queue_len(*peer, role) > 0,
            _ => false,
        }
    }

    /// The peer to whom the event would send into a full ring, where nothing else is wrong with it.
    fn full_ring(&self, event: &Event) -> Option<Role>
        requires present { role_of event.now < length self.now.core.machines }
        ensures full { result ≡ full_ring self.now event.now }
        ensures known { IfSome result (λ r. r.0 < length self.now.core.machines) }
    {
        match event {
            Event::Send { role, arm, value } => match self.here(*role) {
                Some(State::Puts { peer, arms }) => {
                    let right = is_right(arms.as_slice(), *arm, value);
                    if right && self.core.queue_len(*role, *peer) >= self.capacity {
                        Some(*peer)
                    } else {
                        None
                    }
                }
                _ => None,
            },
            Event::Receive { .. } => None,
        }
    }

    /// How many messages were put into the full ring to which the event would send, and how many taken from it.
    fn full_counts(&self, event: &Event) -> Option<(u64, u64)>
        requires present { role_of event.now < length self.now.core.machines }
        requires bounded { self.now.steps < 2 ^ 63 }
        ensures { MatchOption result (full_ring self.now event.now ≡ None) (λ c. (peer : Role) × (full_ring self.now event.now ≡ Some peer)
            × (c.0 ≡ messages_sent self.now (role_of event.now) peer.0) × (c.1 ≡ messages_taken self.now (role_of event.now) peer.0)) }
    {
        let receiver = self.full_ring(event)?;
        let sender = role_of(event);
        let taken = self.taken.number(sender, receiver);
        let under_way = self.core.queue_len(sender, receiver) as u64;
        Some((taken + under_way, taken))
    }

    /// From whom to whom the event takes, where it is a receive.
    fn taking(&self, event: &Event) -> Option<(Role, Role)>
        requires present { role_of event.now < length self.now.core.machines }
        ensures { result ≡ pair_of_receive self.now event.now }
    {
        match event {
            Event::Send { .. } => None,
            Event::Receive { role } => match self.here(*role) {
                Some(State::Takes { peer, .. }) => Some((*peer, *role)),
                _ => None,
            },
        }
    }
}

/// Whether the arm exists and the value is of its sort.
fn is_right(arms: &[Arm], place: u16, value: &Value) -> bool
    ensures { result ≡ is_right (slice_get arms.now place) value.now }
{
    match arms.get(place as usize) {
        Some(arm) => value.fits(arm.sort),
        None => false,
    }
}

/// The role whose step the event is.
fn role_of(event: &Event) -> Role
    ensures { result.0 ≡ role_of event.now }
{
    match event {
        Event::Send { role, .. } | Event::Receive { role } => *role,
    }
}

/// The fault of a step over unbounded queues, as one over rings.
fn within(fault: StepFault) -> BoundedFault
    ensures { result ≡ within fault }
{
    match fault {
        StepFault::NotSending => BoundedFault::NotSending,
        StepFault::NoArm => BoundedFault::NoArm,
        StepFault::WrongSort => BoundedFault::WrongSort,
        StepFault::NotReceiving => BoundedFault::NotReceiving,
        StepFault::QueueEmpty => BoundedFault::QueueEmpty,
        StepFault::NoMemory => BoundedFault::NoMemory,
    }
}
