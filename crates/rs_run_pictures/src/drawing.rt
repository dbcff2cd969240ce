//! What `draw --run` answers to a document.

ghost use Rattle.std.specs.Prelude.{◌≡◌, ◌≤◌, ℕ, IfOk, length};
ghost use Rattle.rs_core.specs.Choices.{AreWellFormed};
ghost use Rattle.rs_core.specs.Runs.{IsGiven};
ghost use Rattle.rs_core.specs.Safety.{IsSafe};
ghost use Rattle.rs_documents.specs.Ready.{DocumentIsReady};
ghost use Rattle.rs_runs.specs.Runs as runs;
ghost use Rattle.rs_run_pictures.specs.Draws as spec;
ghost use Rattle.rs_run_pictures.specs.Draws.{DrawsPlain, DrawsRun};

use crate::lines::run_picture;
use crate::plain::PlainQueues;
use rs_answers::{AcceptedDocument, Answer, Verdict, accept_document};
use rs_core::{Core, End, SeededActor, play};
use rs_documents::Document;
use rs_model::{Capacity, Machine, Names, NoMemory, Role, RunOptions, copies_of};
use std::alloc::Global;

/// An actor for each role, whose draws begin at the seed and the role's number.
fn actors_of(alloc: Global, roles: usize, seed: u32) -> Result<Vec<SeededActor>, NoMemory>
    requires { roles ≤ 16 }
    ensures many { IfOk result (λ actors. length actors.items ≡ roles) }
    ensures each { IfOk result (λ actors. IsGiven (runs.actor_of seed) actors.items) }
{
    let mut actors = Vec::new(alloc);
    for role in 0..roles {
        actors.push(SeededActor::new(seed, Role(role as u8)))?;
    }
    Ok(actors)
}

/// How many messages each queue holds: as many as are asked for, or else the room, or the most where that is greater.
fn capacity_of(ring: Option<Capacity>, room: u64) -> Capacity
    requires { 1 ≤ room }
    ensures { result ≡ runs.capacity_of ring room }
{
    match ring {
        Some(ring) => ring,
        None => Capacity::at_most(room),
    }
}

fn verdict_of(end: End) -> Verdict
    ensures { result ≡ spec.verdict_of end }
{
    match end {
        End::Ended => Verdict::Fine,
        End::Stopped(_) => Verdict::Stopped,
        End::Full { .. } => Verdict::Full,
    }
}

/// Runs the machines on this thread over queues of this capacity, and draws the run. There is one actor for each role.
fn draw_session(
    alloc: Global,
    names: &Names,
    machines: &[Machine],
    actors: Vec<SeededActor>,
    capacity: u16,
    limit: u32,
) -> Result<Answer, NoMemory>
    requires safe { IsSafe machines.now }
    requires well_formed { AreWellFormed machines.now }
    requires actors { length actors.items ≡ length machines.now }
    ensures { IfOk result (λ a. (given : ℕ → ℕ) → IsGiven given actors.items → DrawsPlain names.now machines.now given limit capacity a) }
{
    let core = Core::begin(alloc, copies_of(alloc, machines)?)?;
    let mut queues = PlainQueues { core, capacity };
    let played = play(alloc, &mut queues, actors, limit)?;
    Ok(Answer {
        text: run_picture(
            alloc,
            names,
            machines,
            capacity,
            &played.players,
            played.end,
        )?,
        verdict: verdict_of(played.end),
    })
}

/// What `draw --run` answers to a document: the first reason to refuse it, or the picture of the run that `run` makes of its
/// session with these options. An allocation that fails is the only error.
///
/// Each message is an arrow, with the number of messages that its queue then holds. If other acts lie between the send and the
/// receive, the receive is a note over the receiver. The last line says whether all roles have ended, or a role has met the
/// limit, or no role can act, since a queue is full.
pub fn draw_run(alloc: Global, document: Document, options: RunOptions) -> Result<Answer, NoMemory>
    requires ready { DocumentIsReady document }
    ensures { IfOk result (DrawsRun options document) }
{
    let AcceptedDocument { names, session } = match accept_document(
        alloc,
        document,
        options.bound,
    ) {
        Ok(accepted) => accepted,
        Err(refused) => return refused.answer(alloc),
    };
    let capacity = capacity_of(options.ring, session.room());
    let machines = session.machines();
    let actors = actors_of(alloc, machines.len(), options.seed)?;
    draw_session(
        alloc,
        &names,
        machines,
        actors,
        capacity.messages(),
        options.limit,
    )
}
