//! Rounds, in which each role has a turn, until the end.
ghost use Rattle.std.specs.Prelude.{◌≡◌, length, IfOk, OnOk, ℕ};
ghost use Rattle.rs_core.specs.Queues.{AreTranscripts, IsFresh};
ghost use Rattle.rs_core.specs.Runs.{HasPlayed};
ghost use Rattle.rs_core.specs.Rounds.{AreReady, EndTells, HasRound};

use crate::Actor;
use crate::players::{Player, players_of};
use crate::queues::Queues;
use crate::turns::{Turned, here, turn};
use rs_model::{NoMemory, Role, State};
use std::alloc::Global;

/// What a round was.
#[derive(Clone, Copy)]
enum Rounded {
    Moved,
    Idle,
    Stopped { role: Role },
}

/// How the rounds came to their end: all roles have ended; a role is at its limit; or no role can go on, and the first
/// sender in order finds its queue to the receiver full.
#[derive(Clone, Copy)]
pub enum End {
    Ended,
    Stopped(Role),
    Full { sender: Role, receiver: Role },
}

/// The end of the rounds, and the players in role order.
#[derive(Drop)]
pub struct Finished<A: Drop> {
    pub end: End,
    pub players: Vec<Player<A>>,
}

/// Makes rounds over a session from its start until the end: all have ended, a role has made `limit` acts and hasn't ended, or
/// no role moves in a round. There is one actor for each role. The one error is that memory was refused.
pub fn play<Q: Queues, A: Actor>(
    alloc: Global,
    queues: &mut Q,
    actors: Vec<A>,
    limit: u32,
) -> Result<Finished<A>, NoMemory>
    requires fresh { IsFresh (Q.notes queues.old) (Q.core queues.old) }
    requires actors { length actors.items ≡ length (Q.core queues.old).machines }
    ensures played { IfOk result (λ r. HasPlayed A.behaviour (Q.core queues.old).machines limit (Q.capacity queues.old) actors.items (Q.core queues.new) r.end r.players.items) }
    ensures noted { IfOk result (λ r. AreTranscripts (Q.notes queues.new) r.players.items) }
    ensures capacity { OnOk result (Q.capacity queues.new ≡ Q.capacity queues.old) }
{
    let mut players = players_of(alloc, actors)?;
    loop {
        match round(alloc, queues, &mut players, limit)? {
            Rounded::Moved => {}
            Rounded::Idle => {
                let end = end_of(queues);
                return Ok(Finished { end, players });
            }
            Rounded::Stopped { role } => {
                return Ok(Finished {
                    end: End::Stopped(role),
                    players,
                });
            }
        }
    }
}

/// One turn of each role, in order, until one is at its limit.
fn round<Q: Queues, A: Actor>(
    alloc: Global,
    queues: &mut Q,
    players: &mut Vec<Player<A>>,
    limit: u32,
) -> Result<Rounded, NoMemory>
    requires ready { AreReady limit (Q.core queues.old) players.old.items }
    requires noted { AreTranscripts (Q.notes queues.old) players.old.items }
    ensures round { IfOk result (λ r. HasRound A.behaviour limit (Q.capacity queues.old) (Q.core queues.old) players.old.items (Q.core queues.new) players.new.items r) }
    ensures noted { OnOk result (AreTranscripts (Q.notes queues.new) players.new.items) }
    ensures capacity { OnOk result (Q.capacity queues.new ≡ Q.capacity queues.old) }
{
    let count = queues.roles();
    let mut moved = false;
    for i in 0..count {
        let role = queues.role_at(i);
        match turn(alloc, queues, &mut players[i], role, limit)? {
            Turned::Moved => moved = true,
            Turned::AtLimit => return Ok(Rounded::Stopped { role }),
            Turned::Waits => {}
            Turned::Full => {}
            Turned::Ended => {}
        }
    }
    if moved {
        Ok(Rounded::Moved)
    } else {
        Ok(Rounded::Idle)
    }
}

/// The end after a round in which no role moved.
fn end_of<Q: Queues>(queues: &Q) -> End
    ensures { EndTells (Q.core queues.now) result }
{
    for place in 0..queues.roles() {
        let role = queues.role_at(place);
        if let State::Puts { peer, .. } = here(queues, role) {
            return End::Full {
                sender: role,
                receiver: *peer,
            };
        }
    }
    End::Ended
}
