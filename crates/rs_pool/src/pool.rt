//! The run of a session by workers.
ghost use Rattle.std.specs.Prelude.{◌≡◌, ◌+◌, ◌≤◌, ℕ, [], IfOk, Some, length, map, vec_capacity, vec_len};
ghost use Rattle.rs_model.specs.declared.limits.TheConstants.{MOST_ROLES, MOST_WORKERS};
ghost use Rattle.rs_model.specs.Limits.{IsCapacity};
ghost use Rattle.rs_core.specs.Runs.{IsGiven};
ghost use Rattle.rs_exec.specs.Runs.{IsSessionOfRun};
ghost use Rattle.rs_pool.specs.Calls.{AreSeated, AreCollected};
ghost use Rattle.rs_pool.specs.Jobs.{JobFits, Over, actors_of};
ghost use Rattle.rs_pool.specs.Lists.{HaveRoom, LeaveRoom};
ghost use Rattle.rs_pool.specs.Pool.{AgreesWithPlain, AreNeverHeldUp};
ghost use Rattle.rs_pool.specs.Rule.{view_at_start};
ghost use Rattle.rs_rings.specs.Closed.{IsOver};
ghost use Rattle.rs_safety.specs.Room.{room_of};
ghost use Rattle.rs_session.specs.Ends.{AreAll, AreAllThere, KnowsFrom};
ghost use Rattle.rs_session.specs.Stages.{AreFirst, IsEnded};

use crate::gates::Gate;
use crate::jobs::{Job, Progress};
use crate::plays::StartName;
use crate::tables::{JobSeat, PoolTable};
use crate::vectors::{
    Made, Parts, ended_of, first_with, jobs_of, parts_of, seated, stages_back, unseated,
};
use crate::workers::{WorkerSeat, run_all};
use rs_core::{Actor, Outcome, Run, Transcript, Transcripts};
use rs_exec::Ran;
use rs_model::{NoMemory, Role};
use rs_rings::Closed;
use rs_safety::Accepted;
use rs_session::{Ended, Session, Stage};
use std::alloc::Global;
use std::marker::Brand;
use std::sync::Wait;
use std::thread::Threads;

/// Empty lists with room for what a run needs, and the words of its table of jobs.
struct Lists<A: Actor> {
    words: Vec<u64>,
    worker_seats: Vec<WorkerSeat<A>>,
    transcripts: Vec<Transcript>,
    slots: Vec<Option<Job<A>>>,
    ended: Vec<Ended>,
}

impl<A: Actor> Lists<A> {
    fn reserve(alloc: Global, roles: usize, workers: usize) -> Result<Lists<A>, NoMemory>
        requires { roles ≤ MOST_ROLES }
        ensures { IfOk result (HaveRoom roles workers) }
    {
        let words = Vec::from_elem(alloc, 0u64, roles + 1)?;
        let worker_seats = Vec::with_capacity(alloc, workers)?;
        let transcripts = Vec::with_capacity(alloc, roles)?;
        let slots = Vec::with_capacity(alloc, roles)?;
        match Vec::with_capacity(alloc, roles) {
            Ok(ended) => Ok(Lists {
                words,
                worker_seats,
                transcripts,
                slots,
                ended,
            }),
            Err(_) => {
                slots.destroy_empty();
                Err(NoMemory)
            }
        }
    }

    fn spend(self)
        requires { (self.slots.items ≡ []) × (self.ended.items ≡ []) }
    {
        let Lists {
            words: _,
            worker_seats: _,
            transcripts: _,
            slots,
            ended,
        } = self;
        slots.destroy_empty();
        ended.destroy_empty();
    }
}

/// The workers play the jobs of the table of jobs until all have ended, or one has stopped. Only the actors take memory here.
fn drive<R: Threads + Wait + Sync, A: Actor + Send, N: StartName<A> + Send + Sync, G: Gate + Sync>(
    rt: &R,
    pool_table: PoolTable<A, N>,
    mut main: JobSeat<A>,
    session: &Session,
    gate: &G,
    alloc: Global,
    worker_seats: Vec<WorkerSeat<A>>,
    jobs: Vec<Job<A>>,
    workers: u8,
) -> Vec<Job<A>>
    requires session { session.now ≡ N.start.session }
    requires bounded { pool_table.roles ≤ MOST_ROLES }
    requires table { main.table_id ≡ pool_table.table.shared.table_id }
    requires main { (main.me ≡ (view_at_start (workers + 1), [])) × (pool_table.table.shared.key.shares ≡ workers + 1) }
    requires workers { 1 ≤ workers }
    requires worker_seats { (worker_seats.items ≡ []) × (workers ≤ vec_capacity worker_seats) }
    requires jobs { (jobs.items ≡ []) × (pool_table.roles ≤ vec_capacity jobs) }
    ensures collected { AreCollected (JobFits A.behaviour N.start) Over pool_table.roles result.items }
{
    let worker_seats = pool_table.seat_workers(&mut main, worker_seats, workers);
    let worker_seats = run_all(rt, &pool_table, session, gate, alloc, worker_seats, workers);
    pool_table.gather(&mut main, worker_seats);
    pool_table.collect(main, jobs)
}

/// Closes a session whose roles have all ended.
fn close(session: Session, ended: Vec<Ended>) -> Closed
    requires of { AreAll (IsEnded session) ended.items }
    requires present { AreAllThere (length session.machines) ended.items }
    ensures machines { result.machines ≡ session.machines }
    ensures capacity { result.capacity ≡ session.capacity }
    ensures over { IsOver result }
    ensures knows { KnowsFrom ended.items result }
{
    match session.close(ended) {
        Ok(closed) => closed,
        Err(_fault) => unreachable!(),
    }
}

/// What the jobs that come back say of the run.
fn finish<A: Actor, N: StartName<A>>(
    session: Session,
    jobs: Vec<Job<A>>,
    parts: Parts<A>,
    ended: Vec<Ended>,
) -> Result<Ran<A>, NoMemory>
    requires session { session ≡ N.start.session }
    requires bounded { length session.machines ≤ MOST_ROLES }
    requires collected { AreCollected (JobFits A.behaviour N.start) Over (length session.machines) jobs.items }
    requires empty { (parts.stages.items ≡ []) × (parts.actors.items ≡ []) × (parts.transcripts.items ≡ []) × (ended.items ≡ []) }
    requires room { (length session.machines ≤ vec_capacity parts.stages) × (length session.machines ≤ vec_capacity parts.actors) × (length session.machines ≤ vec_capacity parts.transcripts)
        × (length session.machines ≤ vec_capacity ended) }
    ensures rings { IfOk result (λ ran. ran.closed.capacity ≡ session.capacity) }
    ensures session { IfOk result (λ ran. IsSessionOfRun N.start.session.machines A.behaviour N.start.given N.start.limit ran.closed ran.run.outcome ran.run.actors.items) }
{
    let refused = first_with(jobs.as_slice(), Progress::Refused);
    let stopped = first_with(jobs.as_slice(), Progress::AtLimit);
    let Parts {
        stages,
        actors,
        transcripts,
    } = parts_of(jobs, parts);
    match (refused, stopped) {
        (Some(_), _) => {
            ended.destroy_empty();
            session.abandon(stages);
            Err(NoMemory)
        }
        (None, Some(role)) => {
            ended.destroy_empty();
            let closed = session.abandon(stages);
            Ok(Ran {
                run: Run {
                    outcome: Outcome::Stopped(Role(role)),
                    actors,
                },
                closed,
            })
        }
        (None, None) => {
            let closed = close(session, ended_of(stages, ended));
            Ok(Ran {
                run: Run {
                    outcome: Outcome::Ended(Transcripts::of(transcripts)),
                    actors,
                },
                closed,
            })
        }
    }
}

/// Gives the session up before a worker has begun.
fn give_up<A: Actor, N: StartName<A>>(
    session: Session,
    slots: Vec<Option<Job<A>>>,
    jobs: Vec<Job<A>>,
    stages: Vec<Stage>,
)
    requires session { session ≡ N.start.session }
    requires begun { AreSeated (JobFits A.behaviour N.start) (length session.machines) slots.items }
    requires full { (all : _) × (slots.items ≡ map Some all) }
    requires empty { (jobs.items ≡ []) × (stages.items ≡ []) }
    requires room { (vec_len slots ≤ vec_capacity jobs) × (vec_len slots ≤ vec_capacity stages) }
{
    let stages = stages_back(stages, unseated(slots, jobs));
    session.abandon(stages);
}

/// Plays the jobs at a table. What they began with has the name `N`.
fn run_as<R: Threads + Wait + Sync, A: Actor + Send, N: StartName<A> + Send + Sync, G: Gate + Sync>(
    rt: &R,
    alloc: Global,
    session: Session,
    made: Made<A>,
    lists: Lists<A>,
    workers: u8,
    gate: &G,
) -> Result<Ran<A>, NoMemory>
    requires start { N.start ≡ record { session = session; limit = made.limit; given = actors_of made.jobs.items } }
    requires workers { 1 ≤ workers }
    requires count { (length made.jobs.items ≡ length session.machines) × (length session.machines ≤ MOST_ROLES) }
    requires begun { AreSeated (JobFits A.behaviour N.start) (length session.machines) (map Some made.jobs.items) }
    requires lists { HaveRoom (length session.machines) workers lists }
    requires made { LeaveRoom (length session.machines) made }
    ensures rings { IfOk result (λ ran. ran.closed.capacity ≡ session.capacity) }
    ensures session { IfOk result (λ ran. IsSessionOfRun session.machines A.behaviour (actors_of made.jobs.items) made.limit ran.closed ran.run.outcome ran.run.actors.items) }
{
    let Lists {
        words,
        worker_seats,
        transcripts,
        slots,
        ended,
    } = lists;
    let Made {
        jobs,
        stages,
        actors,
        limit: _,
    } = made;
    let (slots, jobs) = seated(slots, jobs);
    match PoolTable::<A, N>::open(alloc, words.as_slice(), slots, workers) {
        Err(slots) => {
            ended.destroy_empty();
            give_up::<A, N>(session, slots, jobs, stages);
            Err(NoMemory)
        }
        Ok((pool_table, main)) => {
            let jobs = drive(
                rt,
                pool_table,
                main,
                &session,
                gate,
                alloc,
                worker_seats,
                jobs,
                workers,
            );
            let parts = Parts {
                stages,
                actors,
                transcripts,
            };
            finish::<A, N>(session, jobs, parts, ended)
        }
    }
}

/// Plays a session that has just begun.
fn play<R: Threads + Wait + Sync, A: Actor + Send, G: Gate + Sync>(
    rt: &R,
    alloc: Global,
    session: Session,
    stages: Vec<Stage>,
    actors: Vec<A>,
    limit: u32,
    lists: Lists<A>,
    workers: u8,
    gate: &G,
) -> Result<Ran<A>, NoMemory>
    requires first { AreFirst session stages.items }
    requires bounded { length session.machines ≤ MOST_ROLES }
    requires actors { length actors.items ≡ length session.machines }
    requires workers { 1 ≤ workers }
    requires lists { HaveRoom (length session.machines) workers lists }
    ensures rings { IfOk result (λ ran. ran.closed.capacity ≡ session.capacity) }
    ensures session { IfOk result (λ ran. IsSessionOfRun session.machines A.behaviour actors.items limit ran.closed ran.run.outcome ran.run.actors.items) }
{
    match jobs_of(alloc, stages, actors, limit) {
        Err(stages) => {
            lists.spend();
            session.abandon(stages);
            Err(NoMemory)
        }
        Ok(made) => run_as::<R, A, Brand, G>(rt, alloc, session, made, lists, workers, gate),
    }
}

/// Runs the machines of an accepted session by a number of workers over rings of that capacity, until all roles have ended, or one
/// has made `limit` acts and hasn't ended. Any number of workers can finish, one alone too.
///
/// There is one actor for each role, and the capacity is at least the room of the session: over such rings some role can go on,
/// or all have ended, in whatever configuration the session is. A worker takes the task of some
/// role, makes turns with it, each between the gate's two calls, and gives it back once it has to wait, is over, or has moved
/// often enough. Who makes which turn isn't said, nor how long it takes: the call may wait for its workers. If it returns, the
/// outcome is that of the plain run over unbounded queues: all have ended, with its transcripts and its actors; or the plain run
/// is stopped too, and so is that role wherever all go on as long as they can. The session is closed, or given up where it
/// stood. The one error is that memory ran out; then the actors are given up. But for the actors' own calls all memory is
/// taken before the first worker begins.
pub fn run_pool<R: Threads + Wait + Sync, A: Actor + Send, G: Gate + Sync>(
    rt: &R,
    alloc: Global,
    accepted: &Accepted,
    actors: Vec<A>,
    capacity: u16,
    limit: u32,
    workers: u8,
    gate: &G,
) -> Result<Ran<A>, NoMemory>
    requires actors { length actors.items ≡ length accepted.now.machines }
    requires capacity { IsCapacity capacity }
    requires room { room_of accepted.now.derivations ≤ capacity }
    requires workers { (1 ≤ workers) × (workers ≤ MOST_WORKERS) }
    ensures plain { IfOk result (λ ran. (given : ℕ → A) → IsGiven given actors.items → AgreesWithPlain accepted.now.machines A.behaviour given limit ran.run.outcome ran.run.actors.items) }
    ensures rings { IfOk result (λ ran. ran.closed.capacity ≡ capacity) }
    ensures enough { IfOk result (λ ran. AreNeverHeldUp accepted.now.machines ran.closed.capacity) }
    ensures session { IfOk result (λ ran. IsSessionOfRun accepted.now.machines A.behaviour actors.items limit ran.closed ran.run.outcome ran.run.actors.items) }
{
    let roles = accepted.machines().len();
    let lists = Lists::reserve(alloc, roles, workers as usize)?;
    match Session::begin(alloc, accepted, capacity) {
        Err(refused) => {
            lists.spend();
            Err(refused)
        }
        Ok((session, stages)) => play(
            rt, alloc, session, stages, actors, limit, lists, workers, gate,
        ),
    }
}
