//! A session that is shared by threads: its stages, the acts that they allow, and what is left at the end.
ghost use Rattle.std.specs.Prelude.{◌≡◌, ◌≤◌, ◌<◌, ◌++◌, ◌∷◌, ℕ, List, [], IfErr, IfOk, IsSome, Some, length, slice_get, vec_len, vec_capacity};
ghost use Rattle.rs_model.specs.Limits.{IsCapacity};
ghost use Rattle.rs_core.specs.Choices.{AreWellFormed};
ghost use Rattle.rs_core.specs.Configurations.{state_of};
ghost use Rattle.rs_model.specs.declared.graph.Arm.{Arm};
ghost use Rattle.rs_model.specs.declared.machines.State.TheVariants.{Puts, Takes};
ghost use Rattle.rs_model.specs.declared.values.Value.{Value};
ghost use Rattle.rs_rings.specs.Views.{SpeaksFor, starting};
ghost use Rattle.rs_session.specs.Acts.{SendsBy};
ghost use Rattle.rs_session.specs.Stages.{AreFirst, IsOf, IsReceiving, IsSending, first_stage, sight_of_stage, state_of_stage};
ghost use Rattle.rs_session.specs.Standing.{IsFirst, RingsAreWhole, SendsTo};

use crate::gathering::gather_into;
use crate::stages::{Ended, Receiving, Sending, Stage};
use crate::standing::Standing;
use rs_model::{Arm, Machine, NoMemory, Role, State};
use rs_rings::{Pass, Rings};
use rs_safety::Accepted;
use std::alloc::Global;
use std::marker::Model;

/// A session of accepted machines over bounded rings, one for each ordered pair of roles. Threads share it by `&Session`, and
/// each acts by the stages that it holds.
#[derive(Drop)]
pub struct Session {
    rings: Rings,
}

impl Model for Session {
    ghost use Rattle.rs_rings.specs.Passes.{Rings_data};
    ghost use Rattle.rs_session.specs.Standing.{RingsAreWhole};

    ghost Value = { Rings_data };

    ghost view = { λ s. s.rings };

    ghost invariant = { λ s. RingsAreWhole s.rings };
}

impl Session {
    /// Begins a session of the accepted machines over rings that hold `capacity` values each: a stage for each role, in role
    /// order, at its machine's start. It takes all the memory that sends and receives ever use.
    pub fn begin(
        alloc: Global,
        accepted: &Accepted,
        capacity: u16,
    ) -> Result<(Session, Vec<Stage>), NoMemory>
        requires capacity { IsCapacity capacity }
        ensures machines { IfOk result (λ t. t.0.machines ≡ accepted.now.machines) }
        ensures capacity { IfOk result (λ t. t.0.capacity ≡ capacity) }
        ensures stages { IfOk result (λ t. AreFirst t.0 t.1.items) }
    {
        let machines = accepted.machines();
        let count = machines.len();
        let stages = Vec::with_capacity(alloc, count)?;
        match Rings::begin(alloc, machines, capacity) {
            Ok((rings, pass)) => {
                let session = Session { rings };
                match session.first_stages(alloc, count as u8, pass, stages) {
                    Ok(stages) => Ok((session, stages)),
                    Err(pass) => {
                        session.into_rings().abandon(pass);
                        Err(NoMemory)
                    }
                }
            }
            Err(refused) => {
                stages.destroy_empty();
                Err(refused)
            }
        }
    }

    /// The machine of the role.
    #[inline(always)]
    pub fn machine(&self, role: Role) -> &Machine
        requires { role.0 < length self.now.machines }
        ensures machine { slice_get self.now.machines role.0 ≡ Some result.now }
        ensures well_formed { AreWellFormed self.now.machines }
    {
        &self.rings.machines()[role.0 as usize]
    }

    /// How many roles there are.
    pub(crate) fn count(&self) -> usize
        ensures count { result ≡ length self.now.machines }
        ensures whole { RingsAreWhole self.now }
    {
        self.rings.machines().len()
    }

    #[inline(always)]
    pub(crate) fn rings(&self) -> &Rings
        ensures rings { result.now ≡ self.now }
        ensures whole { RingsAreWhole self.now }
    {
        &self.rings
    }

    pub(crate) fn of_rings(rings: Rings) -> Session
        requires { RingsAreWhole rings }
        ensures { result ≡ rings }
    {
        Session { rings }
    }

    pub(crate) fn into_rings(self) -> Rings
        ensures rings { result ≡ self }
        ensures whole { RingsAreWhole self }
    {
        let Session { rings } = self;
        rings
    }

    /// The state at which a role stands.
    #[inline(always)]
    fn state(&self, standing: &Standing) -> &State
        requires { IsSome (state_of_stage self.now standing.now) }
        ensures { state_of_stage self.now standing.now ≡ Some result.now }
    {
        let machine = self.machine(standing.role());
        &machine.states[standing.state() as usize]
    }

    /// The stage of a role that stands at a state of its machine.
    #[inline(always)]
    pub(crate) fn stage(&self, standing: Standing) -> Stage
        requires table { standing.table ≡ self.now.table }
        requires present { IsSome (state_of_stage self.now standing) }
        ensures of { IsOf self.now result }
        ensures same { sight_of_stage result ≡ standing }
    {
        match self.state(&standing) {
            State::Done => Stage::Ended(Ended { standing }),
            State::Puts { .. } => Stage::Sending(Sending { standing }),
            State::Takes { .. } => Stage::Receiving(Receiving { standing }),
        }
    }

    /// The peer and the arm at that place, of a role that sends.
    #[inline(always)]
    pub(crate) fn sending_arm(&self, standing: &Standing, place: u16) -> (Role, Arm)
        requires { (value : Value) × SendsBy self.now standing.now place value }
        ensures { SendsTo self.now standing.now place result.0 result.1 }
    {
        match self.state(standing) {
            State::Puts { peer, arms } => (*peer, arms.as_slice()[place as usize]),
            _ => unreachable!(),
        }
    }

    /// The peer of the role's state, which sends.
    #[inline(always)]
    pub(crate) fn sending_peer(&self, standing: &Standing) -> Role
        requires { IsSending self.now standing.now }
        ensures { (arms : List Arm) × (state_of_stage self.now standing.now ≡ Some (Puts result arms)) }
    {
        match self.state(standing) {
            State::Puts { peer, .. } => *peer,
            _ => unreachable!(),
        }
    }

    /// The peer and the arms of a role that receives.
    #[inline(always)]
    pub(crate) fn receiving_arms(&self, standing: &Standing) -> (Role, &[Arm])
        requires { IsReceiving self.now standing.now }
        ensures { state_of_stage self.now standing.now ≡ Some (Takes result.0 result.1.now) }
    {
        match self.state(standing) {
            State::Takes { peer, arms } => (*peer, arms.as_slice()),
            _ => unreachable!(),
        }
    }

    /// The stage of a role that has done nothing. If the allocation fails, the role's pass comes back.
    fn first(&self, alloc: Global, pass: Pass, role: Role) -> Result<Stage, Pass>
        requires table { pass.table ≡ self.now.table }
        requires well_formed { AreWellFormed self.now.machines }
        requires first { IsFirst self.now.machines role.0 pass.view }
        ensures of { IfOk result (IsOf self.now) }
        ensures first { IfOk result (λ s. sight_of_stage s ≡ first_stage self.now role.0) }
        ensures back { IfErr result (λ p. (p.table ≡ pass.table) × SpeaksFor p.view role.0) }
    {
        let start = self.machine(role).start;
        let standing = Standing::first(alloc, pass, role, start)?;
        Ok(self.stage(standing))
    }

    /// The first stage of each role, in role order, into `stages`. If an allocation fails, all roles come back in one pass.
    fn first_stages(
        &self,
        alloc: Global,
        count: u8,
        pass: Pass,
        stages: Vec<Stage>,
    ) -> Result<Vec<Stage>, Pass>
        requires count { count ≡ length self.now.machines }
        requires some { 2 ≤ count }
        requires well_formed { AreWellFormed self.now.machines }
        requires table { pass.table ≡ self.now.table }
        requires pass { pass.view ≡ starting self.now.machines }
        requires none { stages.items ≡ [] }
        requires room { length self.now.machines ≤ vec_capacity stages }
        ensures first { IfOk result (λ v. AreFirst self.now v.items) }
        ensures back { IfErr result (λ p. (p.table ≡ self.now.table) × ((r : ℕ) → r < length self.now.machines → SpeaksFor p.view r)) }
    {
        let mut pass = pass;
        let mut stages = stages;
        let last = count - 1;
        for number in 0..last {
            let role = Role(number);
            let own = self.rings.split(&mut pass, role);
            match self.first(alloc, own, role) {
                Ok(stage) => push_stage(&mut stages, stage),
                Err(back) => {
                    self.rings.join(&mut pass, back);
                    return Err(gather_into(&self.rings, pass, stages));
                }
            }
        }
        match self.first(alloc, pass, Role(last)) {
            Ok(stage) => {
                push_stage(&mut stages, stage);
                Ok(stages)
            }
            Err(back) => Err(gather_into(&self.rings, back, stages)),
        }
    }
}

/// Appends a stage, for which there is room.
fn push_stage(stages: &mut Vec<Stage>, stage: Stage)
    requires room { vec_len stages.old < vec_capacity stages.old }
    ensures items { stages.new.items ≡ stages.old.items ++ stage ∷ [] }
    ensures capacity { vec_capacity stages.old ≤ vec_capacity stages.new }
{
    match stages.push(stage) {
        Ok(()) => {}
        Err(_) => unreachable!(),
    }
}
