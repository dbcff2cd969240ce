//! Lists of stages, jobs and slots. What they hold must be spent.
ghost use Rattle.std.specs.Prelude.{◌≡◌, ◌+◌, ◌<◌, ◌≤◌, ◌++◌, ◌∷◌, [], All, IfErr, IfOk, Some, length, map, reverse, vec_capacity, vec_len};
ghost use Rattle.rs_model.specs.declared.limits.TheConstants.{MOST_ROLES};
ghost use Rattle.rs_exec.specs.Tasks.{HasEnded};
ghost use Rattle.rs_pool.specs.Jobs.{HasDoneNothing, JobIsNew, actors_of, first_with, HasItsTranscript, stages_of, transcripts_of};
ghost use Rattle.rs_pool.specs.Lists.{LeaveRoom};
ghost use Rattle.rs_session.specs.Stages.{sight_of_stage};

use crate::jobs::{Job, Progress, is_same};
use rs_core::{Actor, Transcript};
use rs_exec::RoleTask;
use rs_session::{Ended, Stage};
use std::alloc::Global;

/// Appends an item for which there is room.
pub(crate) fn put<T>(list: &mut Vec<T>, item: T)
    requires room { vec_len list.old < vec_capacity list.old }
    ensures items { list.new.items ≡ list.old.items ++ item ∷ [] }
    ensures count { vec_len list.new ≡ vec_len list.old + 1 }
    ensures room { vec_capacity list.old ≤ vec_capacity list.new }
{
    match list.push(item) {
        Ok(()) => {}
        Err(_) => unreachable!(),
    }
}

/// The jobs of all roles with their limit, and the lists of which they were made, which are empty.
pub(crate) struct Made<A: Drop> {
    pub(crate) jobs: Vec<Job<A>>,
    pub(crate) stages: Vec<Stage>,
    pub(crate) actors: Vec<A>,
    pub(crate) limit: u32,
}

/// A job for each stage, with the actor at the same place. The error hands the stages back.
pub(crate) fn jobs_of<A: Actor>(
    alloc: Global,
    mut stages: Vec<Stage>,
    mut actors: Vec<A>,
    limit: u32,
) -> Result<Made<A>, Vec<Stage>>
    requires count { vec_len actors ≡ vec_len stages }
    requires nothing { All HasDoneNothing stages.items }
    ensures stages { IfOk result (λ m. stages_of m.jobs.items ≡ stages.items) }
    ensures actors { IfOk result (λ m. actors_of m.jobs.items ≡ actors.items) }
    ensures jobs { IfOk result (λ m. All (JobIsNew limit) m.jobs.items) }
    ensures limit { IfOk result (λ m. m.limit ≡ limit) }
    ensures made { IfOk result (LeaveRoom (vec_len stages)) }
    ensures back { IfErr result (λ back. back.items ≡ stages.items) }
{
    let mut jobs = match Vec::with_capacity(alloc, stages.len()) {
        Ok(jobs) => jobs,
        Err(_) => return Err(stages),
    };
    while let Some(stage) = stages.pop() {
        match actors.pop() {
            Some(actor) => match RoleTask::new(alloc, stage, actor, limit) {
                Ok(task) => put(
                    &mut jobs,
                    Job {
                        task,
                        progress: Progress::Underway,
                    },
                ),
                Err((stage, _, _)) => {
                    put(&mut stages, stage);
                    return Err(stages_back(stages, jobs));
                }
            },
            None => unreachable!(),
        }
    }
    jobs.reverse();
    Ok(Made {
        jobs,
        stages,
        actors,
        limit,
    })
}

/// The stages of the jobs are appended to the list, the last job's first.
pub(crate) fn stages_back<A: Actor>(mut stages: Vec<Stage>, mut jobs: Vec<Job<A>>) -> Vec<Stage>
    requires room { vec_len stages + vec_len jobs ≤ vec_capacity stages }
    ensures { result.items ≡ stages.items ++ stages_of (reverse jobs.items) }
{
    while let Some(job) = jobs.pop() {
        let Job { task, progress: _ } = job;
        let (stage, _, _) = task.into_parts();
        put(&mut stages, stage);
    }
    jobs.destroy_empty();
    stages
}

/// Moves the jobs into the empty list of slots, which has room for them.
pub(crate) fn seated<A: Actor>(
    mut slots: Vec<Option<Job<A>>>,
    mut jobs: Vec<Job<A>>,
) -> (Vec<Option<Job<A>>>, Vec<Job<A>>)
    requires room { (slots.items ≡ []) × (vec_len jobs ≤ vec_capacity slots) }
    ensures slots { result.0.items ≡ map Some jobs.items }
    ensures empty { result.1.items ≡ [] }
    ensures room { vec_capacity jobs ≤ vec_capacity result.1 }
{
    jobs.reverse();
    while let Some(job) = jobs.pop() {
        put(&mut slots, Some(job));
    }
    (slots, jobs)
}

/// Moves the jobs out of the slots into the empty list, the last one first.
pub(crate) fn unseated<A: Actor>(
    mut slots: Vec<Option<Job<A>>>,
    mut jobs: Vec<Job<A>>,
) -> Vec<Job<A>>
    requires full { (all : _) × (slots.items ≡ map Some all) }
    requires room { (jobs.items ≡ []) × (vec_len slots ≤ vec_capacity jobs) }
    ensures { slots.items ≡ map Some (reverse result.items) }
{
    while let Some(slot) = slots.pop() {
        match slot {
            Some(job) => put(&mut jobs, job),
            None => unreachable!(),
        }
    }
    slots.destroy_empty();
    jobs
}

/// What jobs are made of, in role order.
pub(crate) struct Parts<A: Drop> {
    pub(crate) stages: Vec<Stage>,
    pub(crate) actors: Vec<A>,
    pub(crate) transcripts: Vec<Transcript>,
}

/// Takes the jobs apart, into the empty lists, which have room for the parts.
pub(crate) fn parts_of<A: Actor>(mut jobs: Vec<Job<A>>, mut parts: Parts<A>) -> Parts<A>
    requires empty { (parts.stages.items ≡ []) × (parts.actors.items ≡ []) × (parts.transcripts.items ≡ []) }
    requires room { (vec_len jobs ≤ vec_capacity parts.stages) × (vec_len jobs ≤ vec_capacity parts.actors) × (vec_len jobs ≤ vec_capacity parts.transcripts) }
    ensures stages { result.stages.items ≡ stages_of jobs.items }
    ensures actors { result.actors.items ≡ actors_of jobs.items }
    ensures transcripts { result.transcripts.items ≡ transcripts_of jobs.items }
    ensures same { All HasItsTranscript jobs.items }
{
    jobs.reverse();
    while let Some(job) = jobs.pop() {
        let Job { task, progress: _ } = job;
        let (stage, actor, transcript) = task.into_parts();
        put(&mut parts.stages, stage);
        put(&mut parts.actors, actor);
        put(&mut parts.transcripts, transcript);
    }
    jobs.destroy_empty();
    parts
}

/// The stages of roles that have ended, in the empty list, which has room for them.
pub(crate) fn ended_of(mut stages: Vec<Stage>, mut ended: Vec<Ended>) -> Vec<Ended>
    requires ended { All HasEnded stages.items }
    requires room { (ended.items ≡ []) × (vec_len stages ≤ vec_capacity ended) }
    ensures { result.items ≡ map sight_of_stage stages.items }
{
    stages.reverse();
    while let Some(stage) = stages.pop() {
        match stage {
            Stage::Ended(stage) => put(&mut ended, stage),
            _other => unreachable!(),
        }
    }
    stages.destroy_empty();
    ended
}

/// The number of the first job with that progress.
pub(crate) fn first_with<A: Actor>(jobs: &[Job<A>], progress: Progress) -> Option<u8>
    requires bounded { length jobs.now ≤ MOST_ROLES }
    ensures { result ≡ first_with progress 0 jobs.now }
{
    let mut number = 0;
    for job in jobs {
        if is_same(job.progress, progress) {
            return Some(number);
        }
        number += 1;
    }
    None
}
