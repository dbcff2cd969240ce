//! Runs of machines on one thread.
ghost use Rattle.std.specs.Prelude.{◌≡◌, length, IfErr, IfOk, ℕ, None, Some};
ghost use Rattle.rs_core.specs.Choices.{AreWellFormed};
ghost use Rattle.rs_core.specs.Plain.{Ending, IsPlain};
ghost use Rattle.rs_core.specs.Runs.{EndingShows, FaultShows, FaultTells, IsAmong, IsGiven, RunShows, got_from, sent_to};
ghost use Rattle.rs_core.specs.Safety.{IsSafe};

use crate::bounded::BoundedCore;
use crate::players::parts_of;
use crate::playing::{End, Finished, play};
use crate::transcripts::{Entry, Transcripts};
use crate::{Actor, Core};
use rs_model::{Machine, NoMemory, Role};
use std::alloc::Global;

/// How a run ended: all roles have ended, with these transcripts, or the role has made as many acts as the limit and
/// hasn't ended.
#[derive(Drop)]
pub enum Outcome {
    Ended(Transcripts),
    Stopped(Role),
}

/// What a run leaves: its outcome, and the actors in role order.
#[derive(Drop)]
pub struct Run<A: Drop> {
    pub outcome: Outcome,
    pub actors: Vec<A>,
}

/// Why a run over queues of a capacity has no outcome.
#[derive(Clone, Copy, Debug, PartialEq, Eq)]
pub enum RunFault {
    /// In a whole round no role moved, and not all had ended. The first role in order that stands at a full queue is the
    /// sender; it has sent so many messages to the receiver, which has taken so many of them.
    Full {
        sender: Role,
        receiver: Role,
        sent: u64,
        taken: u64,
    },
    /// Memory that was asked for was refused.
    NoMemory,
}

impl From<NoMemory> for RunFault {
    ghost use Rattle.rs_core.specs.declared.runs.RunFault.TheVariants as fault;

    ghost from_gives = { λ _ e. e ≡ fault.NoMemory };

    fn from(_refused: NoMemory) -> Self {
        RunFault::NoMemory
    }
}

/// Runs the machines on this thread over unbounded queues: in a round each role in order has one turn, in which it
/// makes one act where it can, until all have ended, or one has made `limit` acts and hasn't ended.
///
/// There is one actor for each role. The outcome is that of the plain run, which has one outcome at most. The one error
/// is that memory was refused.
pub fn run_plain<A: Actor>(
    alloc: Global,
    machines: Vec<Machine>,
    actors: Vec<A>,
    limit: u32,
) -> Result<Run<A>, NoMemory>
    requires safe { IsSafe machines.items }
    requires well_formed { AreWellFormed machines.items }
    requires actors { length actors.items ≡ length machines.items }
    ensures plain { IfOk result (λ r. (given : ℕ → A) → IsGiven given actors.items
        → (o : Ending A) × IsPlain machines.items A.behaviour given limit None o × EndingShows (length machines.items) o r.outcome r.actors.items) }
{
    let mut queues = BoundedCore {
        core: Core::begin(alloc, machines)?,
        capacity: None,
    };
    let played = play(alloc, &mut queues, actors, limit)?;
    match run_of(alloc, played) {
        Ok(run) => Ok(run),
        Err(RunFault::NoMemory) => Err(NoMemory),
        Err(RunFault::Full { .. }) => unreachable!(),
    }
}

/// Runs the machines as [`run_plain`] does, but over queues of that capacity: a send into a full queue isn't made, and
/// the role keeps what its actor chose until there is room.
///
/// The outcome is that of the plain run with this capacity. The errors are that no role moved in a round, as
/// [`RunFault::Full`] tells it, and that memory was refused.
pub fn run_bounded<A: Actor>(
    alloc: Global,
    machines: Vec<Machine>,
    actors: Vec<A>,
    capacity: usize,
    limit: u32,
) -> Result<Run<A>, RunFault>
    requires safe { IsSafe machines.items }
    requires well_formed { AreWellFormed machines.items }
    requires actors { length actors.items ≡ length machines.items }
    ensures plain { IfOk result (λ r. (given : ℕ → A) → IsGiven given actors.items
        → (o : Ending A) × IsPlain machines.items A.behaviour given limit (Some capacity) o × EndingShows (length machines.items) o r.outcome r.actors.items) }
    ensures full { IfErr result (λ e. (given : ℕ → A) → IsGiven given actors.items → FaultTells machines.items A.behaviour given limit capacity e) }
{
    let mut queues = BoundedCore {
        core: Core::begin(alloc, machines)?,
        capacity: Some(capacity),
    };
    let played = play(alloc, &mut queues, actors, limit)?;
    run_of(alloc, played)
}

/// The run that came to this end, or the fault of one in which no role could go on.
pub fn run_of<A: Actor>(alloc: Global, played: Finished<A>) -> Result<Run<A>, RunFault>
    requires among { IsAmong (length played.players.items) played.end }
    ensures run { IfOk result (λ r. RunShows played.end played.players.items r.outcome r.actors.items) }
    ensures full { IfErr result (λ e. FaultShows played.end played.players.items e) }
{
    let Finished { end, players } = played;
    match end {
        End::Ended => {
            let (actors, transcripts) = parts_of(alloc, players)?;
            Ok(Run {
                outcome: Outcome::Ended(Transcripts::of(transcripts)),
                actors,
            })
        }
        End::Stopped(role) => {
            let (actors, _) = parts_of(alloc, players)?;
            Ok(Run {
                outcome: Outcome::Stopped(role),
                actors,
            })
        }
        End::Full { sender, receiver } => Err(RunFault::Full {
            sender,
            receiver,
            sent: sent_to(players[sender.0 as usize].transcript.as_slice(), receiver),
            taken: got_from(players[receiver.0 as usize].transcript.as_slice(), sender),
        }),
    }
}

/// How many messages the entries send to the role.
pub fn sent_to(entries: &[Entry], to: Role) -> u64
    ensures { result ≡ sent_to to.0 entries.now }
{
    let mut count = 0;
    for entry in entries {
        if let Entry::Sent { peer, .. } = entry {
            if peer.0 == to.0 {
                count += 1;
            }
        }
    }
    count
}

/// How many messages the entries take from the role.
pub fn got_from(entries: &[Entry], from: Role) -> u64
    ensures { result ≡ got_from from.0 entries.now }
{
    let mut count = 0;
    for entry in entries {
        if let Entry::Got { peer, .. } = entry {
            if peer.0 == from.0 {
                count += 1;
            }
        }
    }
    count
}
