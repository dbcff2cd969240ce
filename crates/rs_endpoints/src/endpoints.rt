//! Endpoints, and their acts.
ghost use Rattle.std.specs.Arc.{arc_value};
ghost use Rattle.std.specs.Prelude.{◌≡◌, ◌↔◌, ◌<◌, ◌≤◌, ◌^◌, ℕ, IfNone, IfOk, IfSome, IsSome, IsTrue, None, Some, slice_get};
ghost use Rattle.rs_core.specs.Configurations.{state_of};
ghost use Rattle.rs_endpoints.specs.Endpoints.{FetchTells, HasArmFor, IsLeftOf, IsOfRole, IsWhole, LookTells, PostTells, StandsAt, endpoint_at};
ghost use Rattle.rs_session.specs.Stages.{IsOf};
ghost use Rattle.rs_model.specs.declared.machines.State.TheVariants.{Done};

use crate::acts::{
    Fetched, Posted, Room, may_look, may_receive, may_send, place_of, receiving_arms,
};
use crate::sharing::Shared;
use rs_model::{Label, NoMemory, Role, Sort, State, Value};
use rs_session::{LeftOver, Sent, Session, Stage, Taken};
use std::alloc::Global;
use std::marker::Model;
use std::sync::Arc;

/// A role of a session, with its share of the session: who holds it acts for the role, and nobody else can. It may be handed to
/// another thread, and may be dropped at any time: that gives the role up for good.
pub struct Endpoint {
    shared: Arc<Shared>,
    stage: Option<Stage>,
}

impl Model for Endpoint {
    ghost use Rattle.rs_endpoints.specs.Endpoints.{Endpoint_data, IsWhole};

    ghost Value = { Endpoint_data };

    ghost view = { λ e. record { session = e.shared.value.session; stage = e.stage } };

    ghost invariant = { λ e. IsWhole e.shared.value.session e.stage };
}

/// Takes the stage out of its place.
fn taken(place: &mut Option<Stage>) -> Option<Stage>
    ensures stage { result ≡ place.old }
    ensures left { place.new ≡ None }
{
    place.take()
}

/// Puts the stage at its place, which is empty.
fn put(place: &mut Option<Stage>, stage: Stage)
    requires { place.old ≡ None }
    ensures { place.new ≡ Some stage }
{
    match place.replace(stage) {
        None => {}
        Some(_) => unreachable!(),
    }
}

/// The state with that number of the role's machine.
fn state_at<'a>(session: &'a Session, role: Role, state: u32) -> &'a State
    requires { IsSome (state_of (slice_get session.now.machines role.0) state) }
    ensures { state_of (slice_get session.now.machines role.0) state ≡ Some result.now }
{
    &session.machine(role).states[state as usize]
}

/// The place as a send is told it; None where it's too great for one.
fn small_place(place: usize) -> Option<u16>
    ensures some { IfSome result (λ small. small ≡ place) }
    ensures none { IfNone result (2 ^ 16 ≤ place) }
{
    u16::try_from(place).ok()
}

/// Keeps the pass of the endpoint's role with the session.
fn keep(shared: &Arc<Shared>, stage: Option<Stage>)
    requires { IsWhole (arc_value shared.now).session stage }
{
    match stage {
        Some(stage) => shared.keep(stage.leave()),
        None => {}
    }
}

impl Endpoint {
    /// The endpoint of the stage.
    pub(crate) fn of(shared: Arc<Shared>, stage: Stage) -> Endpoint
        requires { IsOf (arc_value shared).session stage }
        ensures { Some result ≡ endpoint_at (arc_value shared).session stage }
    {
        Endpoint {
            shared,
            stage: Some(stage),
        }
    }

    /// Sends the value by the arm at that place of the role's state, from 0 ([`Endpoint::place`] finds it by its label). It looks
    /// once at the ring, takes no memory, and never waits.
    ///
    /// Where the answer isn't `Went` the value comes back as it was, and the role stands where it stood.
    pub fn send(&mut self, place: u16, value: Value) -> Posted
        ensures told { PostTells self.old place value self.new result }
    {
        match taken(&mut self.stage) {
            Some(Stage::Sending(sending)) => {
                if !may_send(&self.shared.session, &sending, place, &value) {
                    put(&mut self.stage, Stage::Sending(sending));
                    return Posted::Refused { value };
                }
                match sending.send(&self.shared.session, place, value) {
                    Sent::Went(next) => {
                        put(&mut self.stage, next);
                        Posted::Went
                    }
                    Sent::Full {
                        stage,
                        value,
                        sent: _,
                        taken: _,
                    } => {
                        put(&mut self.stage, Stage::Sending(stage));
                        Posted::Full { value }
                    }
                }
            }
            Some(Stage::Receiving(receiving)) => {
                put(&mut self.stage, Stage::Receiving(receiving));
                Posted::Refused { value }
            }
            Some(Stage::Ended(ended)) => {
                put(&mut self.stage, Stage::Ended(ended));
                Posted::Refused { value }
            }
            None => Posted::Refused { value },
        }
    }

    /// Whether the ring has room for a value of the sort, sent by the arm at that place of the role's state. It looks once at the
    /// ring, takes no memory, and never waits.
    ///
    /// A value that is costly to make is made only after `Room::Free`: the next [`Endpoint::send`] isn't answered by
    /// [`Posted::Full`] then ([`seen_room_stays`](crate::laws::seen_room_stays)). The role stands where it stood.
    pub fn look_for_room(&mut self, place: u16, sort: Sort) -> Room
        ensures told { LookTells self.old place sort self.new result }
    {
        match taken(&mut self.stage) {
            Some(Stage::Sending(mut sending)) => {
                if !may_look(&self.shared.session, &sending, place, sort) {
                    put(&mut self.stage, Stage::Sending(sending));
                    return Room::Refused;
                }
                let is_free = sending.has_room(&self.shared.session);
                put(&mut self.stage, Stage::Sending(sending));
                if is_free { Room::Free } else { Room::Full }
            }
            Some(Stage::Receiving(receiving)) => {
                put(&mut self.stage, Stage::Receiving(receiving));
                Room::Refused
            }
            Some(Stage::Ended(ended)) => {
                put(&mut self.stage, Stage::Ended(ended));
                Room::Refused
            }
            None => Room::Refused,
        }
    }

    /// Receives the oldest value that is under way from the peer of the role's state. It looks once at the ring, takes no
    /// memory, and never waits.
    ///
    /// Where the answer isn't `Got` the role stands where it stood.
    pub fn receive(&mut self) -> Fetched
        ensures told { FetchTells self.old self.new result }
    {
        let shared: &Shared = &self.shared;
        let session: &Session = &shared.session;
        match taken(&mut self.stage) {
            Some(Stage::Receiving(receiving)) => {
                if !may_receive(&receiving) {
                    put(&mut self.stage, Stage::Receiving(receiving));
                    return Fetched::Refused;
                }
                let (peer, arms) = receiving_arms(session, &receiving);
                match receiving.receive(session) {
                    Taken::Got { arm, value, stage } => {
                        let label = arms[arm as usize].label;
                        put(&mut self.stage, stage);
                        Fetched::Got { label, value }
                    }
                    Taken::Empty { stage, seen } => {
                        let is_gone = shared.is_gone(peer, stage.role(), seen);
                        put(&mut self.stage, Stage::Receiving(stage));
                        Fetched::Empty { is_gone }
                    }
                }
            }
            Some(Stage::Sending(sending)) => {
                put(&mut self.stage, Stage::Sending(sending));
                Fetched::Refused
            }
            Some(Stage::Ended(ended)) => {
                put(&mut self.stage, Stage::Ended(ended));
                Fetched::Refused
            }
            None => Fetched::Refused,
        }
    }

    /// The role that the endpoint plays.
    pub fn role(&self) -> Role
        ensures { IsOfRole self.now result }
    {
        match &self.stage {
            Some(stage) => stage.role(),
            None => unreachable!(),
        }
    }

    /// The state of its machine at which the role stands: whether it sends, receives or has ended, the peer, and the arms, each
    /// with its label and its sort.
    pub fn state(&self) -> &State
        ensures { StandsAt self.now result.now }
    {
        match &self.stage {
            Some(Stage::Sending(stage)) => state_at(
                &self.shared.session,
                stage.role(),
                stage.state(),
            ),
            Some(Stage::Receiving(stage)) => state_at(
                &self.shared.session,
                stage.role(),
                stage.state(),
            ),
            Some(Stage::Ended(stage)) => state_at(
                &self.shared.session,
                stage.role(),
                stage.state(),
            ),
            None => unreachable!(),
        }
    }

    /// The place of the arm with the label, where the role sends: what [`Endpoint::send`] is told.
    pub fn place(&self, label: Label) -> Option<u16>
        ensures some { IfSome result (λ place. HasArmFor self.now place label) }
        ensures none { IfNone result ((place : ℕ) → place < 2 ^ 16 → HasArmFor self.now place label → ⊥) }
    {
        match self.state() {
            State::Puts { arms, .. } => {
                let place = place_of(arms.as_slice(), label)?;
                small_place(place)
            }
            _ => None,
        }
    }

    /// Whether the role has ended.
    pub fn has_ended(&self) -> bool
        ensures { IsTrue result ↔ StandsAt self.now Done }
    {
        matches!(self.state(), State::Done)
    }

    /// Gives the role up, as a drop does. Who gives up the last endpoint of its session gets what is left of it: what the roles
    /// had done, and what was under way. Then it's `Some`.
    ///
    /// The error is that memory for this was refused; all is then dropped.
    pub fn leave(self, alloc: Global) -> Result<Option<LeftOver>, NoMemory>
        ensures over { IfOk result (λ left. IfSome left (IsLeftOf self.session)) }
    {
        let Endpoint { shared, stage } = self;
        keep(&shared, stage);
        match Arc::into_inner(shared) {
            Some(shared) => shared.close(alloc),
            None => Ok(None),
        }
    }
}

impl Drop for Endpoint {
    fn drop(self) {
        let Endpoint { shared, stage } = self;
        keep(&shared, stage);
    }
}
