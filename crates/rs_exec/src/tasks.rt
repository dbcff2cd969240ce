//! Tasks: an actor that plays its role, turn by turn.
ghost use Rattle.std.specs.Prelude.{◌≡◌, ◌≢◌, ◌≤◌, ◌<◌, ◌++◌, ◌∷◌, [], false, IfErr, IfOk, None, OnErr, OnOk, Some, length, slice_get, vec_capacity};
ghost use Rattle.rs_core.specs.Histories.{transcript_of};
ghost use Rattle.rs_core.specs.Plain.{offer_of};
ghost use Rattle.rs_exec.specs.TurnTakers.{IsInTime, task_with};
ghost use Rattle.rs_exec.specs.Tasks.{IsTaskOf, TaskTurnTells};
ghost use Rattle.rs_session.specs.Stages.{IsReceiving, IsSending, sight_of_stage, state_of_stage};
ghost use Rattle.rs_session.specs.declared.stages.Stage.TheVariants as kind;
ghost use Rattle.rs_model.specs.declared.machines.State.TheVariants.{Puts, Takes};

use rs_core::{Actor, Entry, Transcript};
use rs_model::{Arm, NoMemory, Role, State, Value};
use rs_session::{Left, Receiving, Sending, Sent, Session, Stage, Taken};
use std::alloc::{AllocFailed, Global};
use std::marker::Model;

/// Why a task waits.
#[derive(Clone, Copy, Debug, PartialEq, Eq)]
pub enum Why {
    /// The ring from the peer was empty: the peer had sent `seen` values when the turn looked, and the role has got them all.
    Empty { peer: Role, seen: u64 },
    /// The ring to the peer was full: the role has sent `sent` values, of which the peer had taken `taken` when the turn looked.
    Full { peer: Role, sent: u64, taken: u64 },
}

/// What a turn of a task was.
#[derive(Clone, Copy, Debug, PartialEq, Eq)]
pub enum Turn {
    /// The role has made an act.
    Moved,
    /// It waits; a value that was chosen is kept.
    Waits(Why),
    /// It has ended.
    Ended,
    /// It has made as many acts as the limit, and hasn't ended.
    AtLimit,
    /// Memory was refused to the actor. All later turns answer so too.
    NoMemory,
}

/// What takes a task's turns: its actor, the choice that it keeps, and what it has done.
#[derive(Drop)]
pub(crate) struct TurnTaker<A: Drop> {
    pub(crate) actor: A,
    pub(crate) limit: u32,
    pub(crate) kept: Option<(u16, Value)>,
    pub(crate) entries: Vec<Entry>,
    pub(crate) failed: bool,
}

/// A role of a session with the actor that plays it, and with a limit on its acts. It must be spent.
///
/// What plays it lies in a box, so that a task is moved fast.
pub struct RoleTask<A: Drop> {
    stage: Option<Stage>,
    player: Box<TurnTaker<A>>,
}

impl<A: Drop> Model for RoleTask<A> {
    ghost use Rattle.rs_exec.specs.Data.{Task_data};
    ghost use Rattle.rs_exec.specs.TurnTakers.{TaskIsWhole, stage_in, task_with};

    ghost Value = { Task_data A };

    ghost view = { λ t. task_with (stage_in t.stage) t.player.value };

    ghost invariant = { λ t. TaskIsWhole t.stage t.player.value };
}

impl<A: Actor> RoleTask<A> {
    /// A task of a role that has made no act. It takes room for as many entries as `limit`; the error hands all back.
    pub fn new(
        alloc: Global,
        stage: Stage,
        actor: A,
        limit: u32,
    ) -> Result<RoleTask<A>, (Stage, A, NoMemory)>
        requires nothing { (sight_of_stage stage).part.history ≡ [] }
        ensures task { IfOk result (λ t. t ≡ record { stage = stage; actor = actor; limit = limit; kept = None; transcript = []; failed = false }) }
        ensures back { IfErr result (λ e. (e.0 ≡ stage) × (e.1 ≡ actor)) }
    {
        match Vec::with_capacity(alloc, limit as usize) {
            Ok(entries) => {
                let player = TurnTaker {
                    actor,
                    limit,
                    kept: None,
                    entries,
                    failed: false,
                };
                match Box::new(alloc, player) {
                    Ok(player) => Ok(RoleTask {
                        stage: Some(stage),
                        player,
                    }),
                    Err(refused) => {
                        let AllocFailed { value } = refused;
                        Err((stage, value.actor, NoMemory))
                    }
                }
            }
            Err(_) => Err((stage, actor, NoMemory)),
        }
    }

    /// One turn: at most one act. Only the actor's own calls take memory.
    #[inline(always)]
    pub fn turn(&mut self, alloc: Global, session: &Session) -> Turn
        requires of { IsTaskOf session.now self.old }
        ensures of { IsTaskOf session.now self.new }
        ensures tells { TaskTurnTells session.now A.behaviour self.old self.new result }
    {
        if self.player.failed {
            return Turn::NoMemory;
        }
        match self.stage.take() {
            Some(stage) => {
                let (stage, turn) = self.player.turn(alloc, session, stage);
                put_back(&mut self.stage, stage);
                turn
            }
            None => unreachable!(),
        }
    }

    /// The stage, the actor and the transcript. Takes no memory.
    pub fn into_parts(self) -> (Stage, A, Transcript)
        ensures parts { (result.0 ≡ self.stage) × (result.1 ≡ self.actor) × (result.2 ≡ self.transcript) }
        ensures transcript { self.transcript ≡ transcript_of (sight_of_stage self.stage).part.history }
        ensures acts { length self.transcript ≤ self.limit }
    {
        let RoleTask { stage, player } = self;
        let player = Box::into_inner(player);
        match stage {
            Some(stage) => (stage, player.actor, Transcript::of(player.entries)),
            None => unreachable!(),
        }
    }

    /// Gives the role up where it stands. Takes no memory.
    pub fn leave(self) -> (Left, A, Transcript)
        ensures parts { (result.0 ≡ sight_of_stage self.stage) × (result.1 ≡ self.actor) × (result.2 ≡ self.transcript) }
        ensures transcript { self.transcript ≡ transcript_of (sight_of_stage self.stage).part.history }
        ensures acts { length self.transcript ≤ self.limit }
    {
        let (stage, actor, transcript) = self.into_parts();
        (stage.leave(), actor, transcript)
    }
}

/// Puts the stage back into its empty place.
#[inline(always)]
fn put_back(place: &mut Option<Stage>, stage: Stage)
    requires { place.old ≡ None }
    ensures { place.new ≡ Some stage }
{
    match place.replace(stage) {
        None => {}
        Some(_) => unreachable!(),
    }
}

impl<A: Actor> TurnTaker<A> {
    #[inline(always)]
    fn turn(&mut self, alloc: Global, session: &Session, stage: Stage) -> (Stage, Turn)
        requires of { IsTaskOf session.now (task_with stage self.old) }
        requires in_time { IsInTime stage self.old }
        requires well { self.old.failed ≡ false }
        ensures of { IsTaskOf session.now (task_with result.0 self.new) }
        ensures in_time { IsInTime result.0 self.new }
        ensures tells { TaskTurnTells session.now A.behaviour (task_with stage self.old) (task_with result.0 self.new) result.1 }
    {
        match stage {
            Stage::Ended(stage) => (Stage::Ended(stage), Turn::Ended),
            Stage::Sending(stage) => {
                if self.entries.len() >= self.limit as usize {
                    return (Stage::Sending(stage), Turn::AtLimit);
                }
                self.send(alloc, session, stage)
            }
            Stage::Receiving(stage) => {
                if self.entries.len() >= self.limit as usize {
                    return (Stage::Receiving(stage), Turn::AtLimit);
                }
                self.receive(alloc, session, stage)
            }
        }
    }

    #[inline(always)]
    fn send(&mut self, alloc: Global, session: &Session, stage: Sending) -> (Stage, Turn)
        requires of { IsTaskOf session.now (task_with (kind.Sending stage) self.old) }
        requires in_time { IsInTime (kind.Sending stage) self.old }
        requires well { self.old.failed ≡ false }
        requires below { length self.old.entries.items < self.old.limit }
        ensures of { IsTaskOf session.now (task_with result.0 self.new) }
        ensures in_time { IsInTime result.0 self.new }
        ensures tells { TaskTurnTells session.now A.behaviour (task_with (kind.Sending stage) self.old) (task_with result.0 self.new) result.1 }
    {
        let (peer, arms) = sending_arms(session, &stage);
        match self.offer(alloc, arms) {
            Err(_refused) => {
                self.failed = true;
                (Stage::Sending(stage), Turn::NoMemory)
            }
            Ok((place, value)) => {
                let arm = arms[place as usize];
                match stage.send_by(session, peer, place, arm, value) {
                    Sent::Went(next) => {
                        let label = arm.label;
                        self.note(Entry::Sent { peer, label });
                        (next, Turn::Moved)
                    }
                    Sent::Full {
                        stage,
                        value,
                        sent,
                        taken,
                    } => {
                        self.kept = Some((place, value));
                        (
                            Stage::Sending(stage),
                            Turn::Waits(Why::Full { peer, sent, taken }),
                        )
                    }
                }
            }
        }
    }

    #[inline(always)]
    fn receive(&mut self, alloc: Global, session: &Session, stage: Receiving) -> (Stage, Turn)
        requires of { IsTaskOf session.now (task_with (kind.Receiving stage) self.old) }
        requires in_time { IsInTime (kind.Receiving stage) self.old }
        requires well { self.old.failed ≡ false }
        requires below { length self.old.entries.items < self.old.limit }
        ensures of { IsTaskOf session.now (task_with result.0 self.new) }
        ensures in_time { IsInTime result.0 self.new }
        ensures tells { TaskTurnTells session.now A.behaviour (task_with (kind.Receiving stage) self.old) (task_with result.0 self.new) result.1 }
    {
        let (peer, arms) = receiving_arms(session, &stage);
        match stage.receive_by(session, peer, arms) {
            Taken::Empty { stage, seen } => (
                Stage::Receiving(stage),
                Turn::Waits(Why::Empty { peer, seen }),
            ),
            Taken::Got { arm, value, stage } => {
                let told = self.actor.take(alloc, arms, arm, &value);
                let label = arms[arm as usize].label;
                self.note(Entry::Got { peer, label, value });
                match told {
                    Ok(()) => (stage, Turn::Moved),
                    Err(_refused) => {
                        self.failed = true;
                        (stage, Turn::NoMemory)
                    }
                }
            }
        }
    }

    /// What the role offers to send: the choice that was kept, or else what the actor chooses.
    #[inline(always)]
    fn offer(&mut self, alloc: Global, arms: &[Arm]) -> Result<(u16, Value), NoMemory>
        requires some { arms.now ≢ [] }
        ensures offers { IfOk result (λ c. offer_of A.behaviour self.old.actor self.old.kept arms.now ≡ ((c.0, c.1), self.new.actor)) }
        ensures kept { OnOk result (self.new.kept ≡ None) }
        ensures others { (self.new.entries ≡ self.old.entries) × (self.new.limit ≡ self.old.limit) × (self.new.failed ≡ self.old.failed) }
        ensures refused { OnErr result ((self.old.kept ≡ None) × (self.new.kept ≡ None) × (self.new.actor ≡ self.old.actor)) }
    {
        match self.kept.take() {
            Some(choice) => Ok(choice),
            None => self.actor.choose(alloc, arms),
        }
    }

    /// Appends an entry, for which there is room.
    #[inline(always)]
    fn note(&mut self, entry: Entry)
        requires room { length self.old.entries.items < vec_capacity self.old.entries }
        ensures entries { self.new.entries.items ≡ self.old.entries.items ++ entry ∷ [] }
        ensures room { vec_capacity self.old.entries ≤ vec_capacity self.new.entries }
        ensures others { (self.new.actor ≡ self.old.actor) × (self.new.limit ≡ self.old.limit) × (self.new.kept ≡ self.old.kept) × (self.new.failed ≡ self.old.failed) }
    {
        match self.entries.push(entry) {
            Ok(()) => {}
            Err(_) => unreachable!(),
        }
    }
}

/// The peer and the arms of a role that sends.
#[inline(always)]
fn sending_arms<'a>(session: &'a Session, stage: &Sending) -> (Role, &'a [Arm])
    requires { IsSending session.now stage.now }
    ensures stands { state_of_stage session.now stage.now ≡ Some (Puts result.0 result.1.now) }
    ensures some { result.1.now ≢ [] }
{
    let machine = session.machine(stage.role());
    match &machine.states[stage.state() as usize] {
        State::Puts { peer, arms } => (*peer, arms.as_slice()),
        _ => unreachable!(),
    }
}

/// The peer and the arms of a role that receives.
#[inline(always)]
fn receiving_arms<'a>(session: &'a Session, stage: &Receiving) -> (Role, &'a [Arm])
    requires { IsReceiving session.now stage.now }
    ensures { state_of_stage session.now stage.now ≡ Some (Takes result.0 result.1.now) }
{
    let machine = session.machine(stage.role());
    match &machine.states[stage.state() as usize] {
        State::Takes { peer, arms } => (*peer, arms.as_slice()),
        _ => unreachable!(),
    }
}
