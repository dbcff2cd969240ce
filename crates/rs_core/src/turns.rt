//! One turn of a role.
ghost use Rattle.std.specs.Prelude.{◌≡◌, ◌<◌, ◌∷◌, List, Option, length, IfErr, OnErr, OnOk, IfOk, MatchOption, None, Some, slice_get, ℕ};
ghost use Rattle.rs_model.specs.declared.graph.Arm.{Arm};
ghost use Rattle.rs_model.specs.declared.graph.Role.{Role};
ghost use Rattle.rs_model.specs.declared.machines.State.TheVariants.{Takes};
ghost use Rattle.rs_core.specs.Choices.{AreWellFormed};
ghost use Rattle.rs_core.specs.Configurations.{state_at, state_of};
ghost use Rattle.rs_core.specs.Core.{configuration_of};
ghost use Rattle.rs_core.specs.Queues.{TurnIsNoted};
ghost use Rattle.rs_core.specs.Turns.{KeepsWell, NextTells, TurnTells};

use crate::players::Player;
use crate::queues::{Posted, Queues};
use crate::{Actor, Entry, GotBy, Message};
use rs_model::{Arm, NoMemory, Role, State, Value};
use std::alloc::Global;

/// What a role can do next.
#[derive(Drop)]
pub(crate) enum NextAct {
    Done,
    Limit,
    Sends {
        peer: Role,
        place: u16,
        arm: Arm,
        value: Value,
    },
    Receives {
        peer: Role,
    },
}

/// What a turn was.
#[derive(Clone, Copy)]
pub(crate) enum Turned {
    /// The role has made an act.
    Moved,
    /// It waits for a message.
    Waits,
    /// It found its queue full, and keeps what it offered.
    Full,
    /// It has ended.
    Ended,
    /// It has made as many acts as the limit, and hasn't ended.
    AtLimit,
}

/// One turn of the role.
#[inline(always)]
pub(crate) fn turn<Q: Queues, A: Actor>(
    alloc: Global,
    queues: &mut Q,
    player: &mut Player<A>,
    role: Role,
    limit: u32,
) -> Result<Turned, NoMemory>
    requires present { role.0 < length (Q.core queues.old).machines }
    requires keeps { KeepsWell (Q.core queues.old) role.0 player.old }
    requires noted { Q.notes queues.old role.0 player.old.transcript }
    ensures tells { IfOk result (λ t. TurnTells A.behaviour limit (Q.capacity queues.old) (Q.core queues.old) player.old role.0 (Q.core queues.new) player.new t) }
    ensures noted { OnOk result (TurnIsNoted role.0 player.new.transcript (Q.notes queues.old) (Q.notes queues.new)) }
    ensures capacity { OnOk result (Q.capacity queues.new ≡ Q.capacity queues.old) }
{
    let number = queues.state(role);
    match next_of(alloc, queues, player, role, limit)? {
        NextAct::Done => Ok(Turned::Ended),
        NextAct::Limit => Ok(Turned::AtLimit),
        NextAct::Sends {
            peer,
            place,
            arm,
            value,
        } => match queues.post(role, peer, place, arm, value)? {
            Posted::Sent => {
                let label = arm.label;
                player.transcript.push(Entry::Sent { peer, label })?;
                Ok(Turned::Moved)
            }
            Posted::Full(value) => {
                player.kept = Some((place, value));
                Ok(Turned::Full)
            }
        },
        NextAct::Receives { peer } => match queues.fetch(role, peer) {
            Some(got) => {
                tell_actor(alloc, queues, &mut player.actor, role, number, &got)?;
                let Message { label, value } = got.message;
                player.transcript.push(Entry::Got { peer, label, value })?;
                Ok(Turned::Moved)
            }
            None => Ok(Turned::Waits),
        },
    }
}

/// What the role can do next: its player is asked where it sends.
#[inline(always)]
fn next_of<Q: Queues, A: Actor>(
    alloc: Global,
    queues: &Q,
    player: &mut Player<A>,
    role: Role,
    limit: u32,
) -> Result<NextAct, NoMemory>
    requires present { role.0 < length (Q.core queues.now).machines }
    requires keeps { KeepsWell (Q.core queues.now) role.0 player.old }
    ensures tells { IfOk result (λ n. NextTells A.behaviour limit (Q.core queues.now) role.0 player.old player.new n) }
{
    let made = player.transcript.len();
    match here(queues, role) {
        State::Done => Ok(NextAct::Done),
        State::Puts { peer, arms } => {
            if made >= limit as usize {
                return Ok(NextAct::Limit);
            }
            let arms = arms.as_slice();
            let (place, value) = player.offer(alloc, arms)?;
            Ok(NextAct::Sends {
                peer: *peer,
                place,
                arm: arms[place as usize],
                value,
            })
        }
        State::Takes { peer, .. } => {
            if made >= limit as usize {
                return Ok(NextAct::Limit);
            }
            Ok(NextAct::Receives { peer: *peer })
        }
    }
}

/// The state in which the role's machine stands.
#[inline(always)]
pub(crate) fn here<Q: Queues>(queues: &Q, role: Role) -> &State
    requires present { role.0 < length (Q.core queues.now).machines }
    ensures state { state_at (Q.core queues.now).machines (configuration_of (Q.core queues.now)) role.0 ≡ Some result.now }
    ensures well_formed { AreWellFormed (Q.core queues.now).machines }
{
    match state_numbered(queues, role, queues.state(role)) {
        Some(state) => state,
        None => unreachable!(),
    }
}

/// The state of that number of the role's machine.
#[inline(always)]
fn state_numbered<Q: Queues>(queues: &Q, role: Role, number: u32) -> Option<&State>
    requires present { role.0 < length (Q.core queues.now).machines }
    ensures { MatchOption result (state_of (slice_get (Q.core queues.now).machines role.0) number ≡ None) (λ s. state_of (slice_get (Q.core queues.now).machines role.0) number ≡ Some s.now) }
{
    queues.machine(role).states.get(number as usize)
}

/// Tells the actor what its role got, by an arm of the state of that number.
#[inline(always)]
fn tell_actor<Q: Queues, A: Actor>(
    alloc: Global,
    queues: &Q,
    actor: &mut A,
    role: Role,
    number: u32,
    got: &GotBy,
) -> Result<(), NoMemory>
    requires present { role.0 < length (Q.core queues.now).machines }
    requires taken { (peer : Role) × (arms : List Arm) × (state_of (slice_get (Q.core queues.now).machines role.0) number ≡ Some (Takes peer arms)) }
    ensures becomes { OnOk result ((peer : Role) (arms : List Arm) → state_of (slice_get (Q.core queues.now).machines role.0) number ≡ Some (Takes peer arms)
        → A.behaviour.told actor.old arms got.now.arm got.now.message.value ≡ actor.new) }
{
    match state_numbered(queues, role, number) {
        Some(State::Takes { arms, .. }) => {
            actor.take(alloc, arms.as_slice(), got.arm, &got.message.value)
        }
        _ => unreachable!(),
    }
}
