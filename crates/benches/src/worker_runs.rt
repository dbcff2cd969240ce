//! Runs of texts by workers.

ghost use Rattle.std.specs.Prelude.{◌≡◌, ◌≤◌, length, IfOk, IfSome};
ghost use Rattle.rs_model.specs.declared.limits.TheConstants.{MOST_WORKERS};

use crate::worker_actors::WorkingActor;
use rs_answers::accept_document;
use rs_core::{Outcome, Run, SeededActor};
use rs_documents::read_document;
use rs_exec::Ran;
use rs_model::{Bound, NoMemory, Role};
use rs_pool::{NoGate, run_pool};
use rs_safety::Accepted;
use std::alloc::Global;
use std::sync::Wait;
use std::thread::Threads;

/// How many messages each ring holds.
const CAPACITY: u16 = 64;

/// How much a run has to do: the rounds of work at each act, how many acts a role may make, and by how many workers it is done.
#[derive(Clone, Copy)]
pub struct Workload {
    pub rounds: u32,
    pub limit: u32,
    pub workers: u8,
}

/// How far a run came that a role's limit has ended: how many acts that role has made, what its number is, and how many acts
/// all roles have made.
#[derive(Clone, Copy)]
pub struct WorkDone {
    pub first_acts: u64,
    pub first_number: u32,
    pub all_acts: u64,
}

/// So many actors, all with the same number.
fn actors_of(alloc: Global, roles: usize, rounds: u32) -> Result<Vec<WorkingActor>, NoMemory>
    ensures { IfOk result (λ actors. length actors.items ≡ roles) }
{
    let mut actors = Vec::with_capacity(alloc, roles)?;
    for _ in 0..roles {
        actors.push(WorkingActor {
            draws: SeededActor::new(0, Role(0)),
            number: 1,
            rounds,
            acts: 0,
        })?;
    }
    Ok(actors)
}

/// How far the run came: none if no role was stopped at its limit.
fn end_of(run: &Run<WorkingActor>) -> Option<WorkDone> {
    let Outcome::Stopped(role) = run.outcome else {
        return None;
    };
    let first = run.actors.get(usize::from(role.0))?;
    let mut all_acts: u64 = 0;
    for actor in run.actors.as_slice() {
        all_acts = all_acts.saturating_add(actor.acts);
    }
    Some(WorkDone {
        first_acts: first.acts,
        first_number: first.number,
        all_acts,
    })
}

/// How far an accepted session comes: none if it needs more room than the rings have, or memory ran out.
fn accepted_run<R: Threads + Wait + Sync>(
    rt: &R,
    alloc: Global,
    accepted: &Accepted,
    load: Workload,
) -> Option<WorkDone>
    requires { (1 ≤ load.workers) × (load.workers ≤ MOST_WORKERS) }
{
    if accepted.room() > u64::from(CAPACITY) {
        return None;
    }
    let Ok(actors) = actors_of(alloc, accepted.machines().len(), load.rounds) else {
        return None;
    };
    match run_pool(
        rt,
        alloc,
        accepted,
        actors,
        CAPACITY,
        load.limit,
        load.workers,
        &NoGate,
    ) {
        Ok(Ran { run, closed: _ }) => end_of(&run),
        Err(_) => None,
    }
}

/// How far the text's session gets with that load: none if it is refused, needs more room than the rings have, or ends, or
/// if memory ran out.
pub fn run_of<R: Threads + Wait + Sync>(
    rt: &R,
    alloc: Global,
    text: &[u8],
    load: Workload,
) -> Option<WorkDone>
    requires { (1 ≤ load.workers) × (load.workers ≤ MOST_WORKERS) }
{
    let Ok(document) = read_document(alloc, text) else {
        return None;
    };
    match accept_document(alloc, document, Bound::standard()) {
        Ok(accepted) => accepted_run(rt, alloc, &accepted.session, load),
        Err(_refused) => None,
    }
}
