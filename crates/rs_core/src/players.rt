//! What takes the turns of the roles.
ghost use Rattle.std.specs.Prelude.{◌≡◌, ◌≢◌, [], map, IfOk, OnOk};
ghost use Rattle.rs_core.specs.Plain.{offer_of};

use crate::Actor;
use crate::transcripts::Transcript;
use rs_model::{Arm, NoMemory, Value};
use std::alloc::Global;

/// What takes a role's turns: its actor, the choice that it keeps from when it found its queue full, and what the role
/// has done so far.
#[derive(Drop)]
pub struct Player<A: Drop> {
    pub actor: A,
    pub kept: Option<(u16, Value)>,
    pub transcript: Transcript,
}

impl<A: Actor> Player<A> {
    /// What the role offers to send: the choice that was kept, or else what the actor chooses.
    #[inline(always)]
    pub(crate) fn offer(&mut self, alloc: Global, arms: &[Arm]) -> Result<(u16, Value), NoMemory>
        requires some { arms.now ≢ [] }
        ensures offers { IfOk result (λ c. offer_of A.behaviour self.old.actor self.old.kept arms.now ≡ ((c.0, c.1), self.new.actor)) }
        ensures kept { OnOk result (self.new.kept ≡ None) }
        ensures transcript { OnOk result (self.new.transcript ≡ self.old.transcript) }
    {
        if self.kept.is_some() {
            if let Some(choice) = self.kept.take() {
                return Ok(choice);
            }
        }
        self.actor.choose(alloc, arms)
    }
}

/// A player for each actor, which has done nothing yet.
pub(crate) fn players_of<A: Actor>(
    alloc: Global,
    actors: Vec<A>,
) -> Result<Vec<Player<A>>, NoMemory>
    ensures { IfOk result (λ v. v.items ≡ map (λ x. record { actor = x; kept = None; transcript = [] }) actors.items) }
{
    let mut players = Vec::with_capacity(alloc, actors.len())?;
    for actor in actors {
        players.push(Player {
            actor,
            kept: None,
            transcript: Transcript::new(alloc),
        })?;
    }
    Ok(players)
}

/// The actors and the transcripts of the players.
pub(crate) fn parts_of<A: Actor>(
    alloc: Global,
    players: Vec<Player<A>>,
) -> Result<(Vec<A>, Vec<Transcript>), NoMemory>
    ensures actors { IfOk result (λ r. r.0.items ≡ map (λ x. x.actor) players.items) }
    ensures transcripts { IfOk result (λ r. r.1.items ≡ map (λ x. x.transcript) players.items) }
{
    let mut actors = Vec::with_capacity(alloc, players.len())?;
    let mut transcripts = Vec::with_capacity(alloc, players.len())?;
    for player in players {
        actors.push(player.actor)?;
        transcripts.push(player.transcript)?;
    }
    Ok((actors, transcripts))
}
