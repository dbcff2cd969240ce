//! How a text's session runs.

ghost use Rattle.std.specs.Prelude.{◌≤◌};
ghost use Rattle.rs_model.specs.declared.limits.TheConstants.{MOST_WORKERS};

use crate::documents::accepted_of;
use rs_core::{Actor, Run, RunFault, SeededActor, run_bounded, run_plain};
use rs_exec::{Ran, run_inline};
use rs_model::{MOST_CAPACITY, NoMemory, Role, copies_of};
use rs_pool::{Gate, run_pool};
use rs_safety::Accepted;
use std::alloc::Global;
use std::sync::Wait;
use std::thread::Threads;

/// By how many workers a session is run, and how many acts a role may make.
#[derive(Clone, Copy)]
pub(crate) struct HowToRun {
    pub workers: u8,
    pub limit: u32,
}

/// The run of an accepted session by workers, over rings of the room that it needs: none if that is more than a ring can hold,
/// or memory was refused.
fn pooled<R: Threads + Wait + Sync, A: Actor + Send, G: Gate + Sync>(
    rt: &R,
    alloc: Global,
    accepted: &Accepted,
    actors: Vec<A>,
    how: HowToRun,
    gate: &G,
) -> Option<Run<A>>
    requires { (1 ≤ how.workers) × (how.workers ≤ MOST_WORKERS) }
{
    let room = accepted.room();
    if actors.len() != accepted.machines().len() || room < 1 || room > u64::from(MOST_CAPACITY) {
        return None;
    }
    let capacity = room as u16;
    match run_pool(
        rt,
        alloc,
        accepted,
        actors,
        capacity,
        how.limit,
        how.workers,
        gate,
    ) {
        Ok(Ran { run, closed: _ }) => Some(run),
        Err(_) => None,
    }
}

/// The queues of a run on one thread: without a bound, bounded ones, or rings of a capacity.
#[derive(Clone, Copy)]
pub(crate) enum QueueKind {
    Unbounded,
    Bounded(usize),
    Rings(u16),
}

/// The run over unbounded queues.
fn plainly<A: Actor>(
    alloc: Global,
    accepted: &Accepted,
    actors: Vec<A>,
    limit: u32,
) -> Option<Result<Run<A>, RunFault>> {
    if actors.len() != accepted.machines().len() {
        return None;
    }
    match copies_of(alloc, accepted.machines()) {
        Ok(machines) => match run_plain(alloc, machines, actors, limit) {
            Ok(run) => Some(Ok(run)),
            Err(NoMemory) => None,
        },
        Err(_) => None,
    }
}

/// The run over queues of that capacity.
fn boundedly<A: Actor>(
    alloc: Global,
    accepted: &Accepted,
    actors: Vec<A>,
    capacity: usize,
    limit: u32,
) -> Option<Result<Run<A>, RunFault>> {
    if actors.len() != accepted.machines().len() {
        return None;
    }
    match copies_of(alloc, accepted.machines()) {
        Ok(machines) => match run_bounded(alloc, machines, actors, capacity, limit) {
            Ok(run) => Some(Ok(run)),
            Err(fault) => Some(Err(fault)),
        },
        Err(_) => None,
    }
}

/// The run over rings of that capacity: none if there can be no such rings.
fn inlined<A: Actor>(
    alloc: Global,
    accepted: &Accepted,
    actors: Vec<A>,
    capacity: u16,
    limit: u32,
) -> Option<Result<Run<A>, RunFault>> {
    if actors.len() != accepted.machines().len()
        || capacity < 1
        || u32::from(capacity) > MOST_CAPACITY
    {
        return None;
    }
    match run_inline(alloc, accepted, actors, capacity, limit) {
        Ok(Ran { run, closed: _ }) => Some(Ok(run)),
        Err(fault) => Some(Err(fault)),
    }
}

fn run_over<A: Actor>(
    alloc: Global,
    accepted: &Accepted,
    actors: Vec<A>,
    queues: QueueKind,
    limit: u32,
) -> Option<Result<Run<A>, RunFault>> {
    match queues {
        QueueKind::Unbounded => plainly(alloc, accepted, actors, limit),
        QueueKind::Bounded(capacity) => boundedly(alloc, accepted, actors, capacity, limit),
        QueueKind::Rings(capacity) => inlined(alloc, accepted, actors, capacity, limit),
    }
}

/// The run of the text's session by workers: none if the text is refused, there isn't an actor for each role, or memory was
/// refused.
pub(crate) fn pool_run<R: Threads + Wait + Sync, A: Actor + Send, G: Gate + Sync>(
    rt: &R,
    alloc: Global,
    text: &[u8],
    actors: Vec<A>,
    how: HowToRun,
    gate: &G,
) -> Option<Run<A>>
    requires { (1 ≤ how.workers) × (how.workers ≤ MOST_WORKERS) }
{
    match accepted_of(alloc, text) {
        Some(accepted) => pooled(rt, alloc, &accepted, actors, how, gate),
        None => None,
    }
}

/// The run of the text's session on this thread, or why it has no outcome: none if the text is refused, there isn't an actor for
/// each role, there are no such rings, or memory was refused.
pub(crate) fn session_run<A: Actor>(
    alloc: Global,
    text: &[u8],
    actors: Vec<A>,
    queues: QueueKind,
    limit: u32,
) -> Option<Result<Run<A>, RunFault>> {
    match accepted_of(alloc, text) {
        Some(accepted) => run_over(alloc, &accepted, actors, queues, limit),
        None => None,
    }
}

/// An actor for each of `count` roles, from one seed.
pub(crate) fn seeded(alloc: Global, roles: u8, seed: u32) -> Result<Vec<SeededActor>, NoMemory> {
    let mut actors = Vec::new(alloc);
    for number in 0..roles {
        actors.push(SeededActor::new(seed, Role(number)))?;
    }
    Ok(actors)
}
