//! The workers at the table of jobs.
ghost use Rattle.std.specs.Prelude.{◌≡◌, ◌+◌, ◌<◌, ◌≤◌, [], All, vec_len, vec_capacity};
ghost use Rattle.rs_pool.specs.Calls.{HasFinished, IsSeated, SeatRests};
ghost use Rattle.rs_exec.specs.Tasks.{TaskTurnTells};
ghost use Rattle.rs_pool.specs.Jobs.{JobFits};
ghost use Rattle.rs_pool.specs.Turns.{HasHadTurns};

use crate::gates::Gate;
use crate::jobs::{Job, amount_of};
use crate::plays::StartName;
use crate::tables::{JobSeat, PoolTable};
use crossbeam_utils::Backoff;
use rs_core::Actor;
use rs_exec::Turn;
use rs_model::Role;
use rs_session::Session;
use std::alloc::Global;
use std::sync::Wait;
use std::thread;
use std::thread::Threads;

/// The most turns that a task makes before it is given back.
const MOST_TURNS: u32 = 64;

/// A worker's number and its seat.
#[derive(Drop)]
pub(crate) struct WorkerSeat<A: Actor> {
    pub(crate) worker: u8,
    pub(crate) seat: JobSeat<A>,
}

impl<A: Actor, N: StartName<A>> PoolTable<A, N> {
    /// One turn of the role's task, between the gate's two calls.
    #[inline(always)]
    fn turn<G: Gate>(
        &self,
        session: &Session,
        gate: &G,
        alloc: Global,
        worker: u8,
        role: u8,
        job: &mut Job<A>,
    ) -> Turn
        requires session { session.now ≡ N.start.session }
        requires fits { JobFits A.behaviour N.start role job.old }
        ensures fits { JobFits A.behaviour N.start role job.new }
        ensures tells { TaskTurnTells session.now A.behaviour job.old.task job.new.task result }
    {
        gate.before_turn(worker, Role(role));
        let turn = job.turn(alloc, session);
        gate.after_turn(worker, Role(role));
        turn
    }

    /// Turns of the role's task, at least one, as long as they move it, and at most [`MOST_TURNS`]. It returns whether something
    /// moved.
    #[inline(always)]
    fn turns<G: Gate>(
        &self,
        session: &Session,
        gate: &G,
        alloc: Global,
        worker: u8,
        role: u8,
        job: &mut Job<A>,
    ) -> bool
        requires session { session.now ≡ N.start.session }
        requires fits { JobFits A.behaviour N.start role job.old }
        ensures fits { JobFits A.behaviour N.start role job.new }
        ensures turns { HasHadTurns session.now A.behaviour job.old.task job.new.task result }
    {
        let mut moved = false;
        for _ in 0..MOST_TURNS {
            match self.turn(session, gate, alloc, worker, role, job) {
                Turn::Moved => moved = true,
                Turn::Waits(_) => return moved,
                _over => return true,
            }
        }
        moved
    }

    /// Turns of the role's task, if it can be taken; whether something moved.
    fn serve<G: Gate>(
        &self,
        session: &Session,
        gate: &G,
        alloc: Global,
        worker: u8,
        seat: &mut JobSeat<A>,
        role: u8,
    ) -> bool
        requires session { session.now ≡ N.start.session }
        requires table { seat.old.table_id ≡ self.now.table.shared.table_id }
        requires role { role < self.now.roles }
        requires rests { SeatRests 1 seat.old.me }
        ensures table { seat.new.table_id ≡ seat.old.table_id }
        ensures rests { SeatRests 1 seat.new.me }
    {
        match self.claim(seat, role) {
            None => false,
            Some(mut job) => {
                let moved = self.turns(session, gate, alloc, worker, role, &mut job);
                let amount = amount_of(job.progress);
                self.settle(seat, role, job, amount);
                moved
            }
        }
    }

    /// Each role once; whether something moved.
    fn round<G: Gate>(
        &self,
        session: &Session,
        gate: &G,
        alloc: Global,
        worker: u8,
        seat: &mut JobSeat<A>,
    ) -> bool
        requires session { session.now ≡ N.start.session }
        requires table { seat.old.table_id ≡ self.now.table.shared.table_id }
        requires rests { SeatRests 1 seat.old.me }
        ensures table { seat.new.table_id ≡ seat.old.table_id }
        ensures rests { SeatRests 1 seat.new.me }
    {
        let mut moved = false;
        for role in 0..self.roles {
            if self.serve(session, gate, alloc, worker, seat, role) {
                moved = true;
            }
        }
        moved
    }

    /// Rounds until as much is counted as there are roles. Where nothing moved in a round the worker pauses.
    fn work<R: Wait, G: Gate>(
        &self,
        rt: &R,
        session: &Session,
        gate: &G,
        alloc: Global,
        worker: u8,
        seat: &mut JobSeat<A>,
    )
        requires session { session.now ≡ N.start.session }
        requires table { seat.old.table_id ≡ self.now.table.shared.table_id }
        requires rests { SeatRests 1 seat.old.me }
        ensures table { seat.new.table_id ≡ seat.old.table_id }
        ensures rests { SeatRests 1 seat.new.me }
        ensures over { self.now.roles ≤ seat.new.me.0.seen }
    {
        let backoff = Backoff::new();
        for _ in rt.forever() {
            if self.all_counted(seat) {
                return;
            }
            if self.round(session, gate, alloc, worker, seat) {
                backoff.reset();
            } else {
                backoff.snooze();
            }
        }
        unreachable!()
    }

    /// A seat for each worker, in the empty list, which has room for them.
    pub(crate) fn seat_workers(
        &self,
        main: &mut JobSeat<A>,
        mut worker_seats: Vec<WorkerSeat<A>>,
        workers: u8,
    ) -> Vec<WorkerSeat<A>>
        requires table { main.old.table_id ≡ self.now.table.shared.table_id }
        requires main { SeatRests (workers + 1) main.old.me }
        requires room { (worker_seats.items ≡ []) × (workers ≤ vec_capacity worker_seats) }
        ensures table { main.new.table_id ≡ main.old.table_id }
        ensures main { SeatRests 1 main.new.me }
        ensures count { vec_len result ≡ workers }
        ensures ready { All (IsSeated self.now.table.shared.table_id) result.items }
    {
        for worker in 0..workers {
            let seat = self.split(main);
            worker_seats.push(WorkerSeat { worker, seat }).unwrap();
        }
        worker_seats
    }

    /// The workers' seats come back.
    pub(crate) fn gather(&self, main: &mut JobSeat<A>, mut worker_seats: Vec<WorkerSeat<A>>)
        requires table { main.old.table_id ≡ self.now.table.shared.table_id }
        requires main { SeatRests 1 main.old.me }
        requires some { 0 < vec_len worker_seats }
        requires left { All (HasFinished self.now.table.shared.table_id self.now.roles) worker_seats.items }
        ensures table { main.new.table_id ≡ main.old.table_id }
        ensures main { SeatRests (vec_len worker_seats + 1) main.new.me }
        ensures over { self.now.roles ≤ main.new.me.0.seen }
    {
        while let Some(worker_seat) = worker_seats.pop() {
            let WorkerSeat { worker: _, seat } = worker_seat;
            self.join(main, seat);
        }
    }
}

/// All workers at work, on threads of their own.
pub(crate) fn run_all<
    R: Threads + Wait + Sync,
    A: Actor + Send,
    N: StartName<A> + Send + Sync,
    G: Gate + Sync,
>(
    rt: &R,
    pool_table: &PoolTable<A, N>,
    session: &Session,
    gate: &G,
    alloc: Global,
    mut worker_seats: Vec<WorkerSeat<A>>,
    workers: u8,
) -> Vec<WorkerSeat<A>>
    requires session { session.now ≡ N.start.session }
    requires workers { 0 < workers }
    requires ready { All (IsSeated pool_table.now.table.shared.table_id) worker_seats.items }
    ensures count { vec_len result ≡ vec_len worker_seats }
    ensures left { All (HasFinished pool_table.now.table.shared.table_id pool_table.now.roles) result.items }
{
    thread::for_each_mut(
        rt,
        worker_seats.as_mut_slice(),
        workers as usize,
        &|_: usize, worker_seat: &mut WorkerSeat<A>|
            requires { (session.now ≡ N.start.session) × IsSeated pool_table.now.table.shared.table_id worker_seat.now }
            ensures { HasFinished pool_table.entry.now.table.shared.table_id pool_table.entry.now.roles worker_seat.exit.now }
        {
            pool_table.work(
                rt,
                session,
                gate,
                alloc,
                worker_seat.worker,
                &mut worker_seat.seat,
            )
        },
    );
    worker_seats
}
