//! Jobs: the tasks that lie on the table of jobs.
ghost use Rattle.std.specs.Prelude.{◌≡◌, true};
ghost use Rattle.rs_exec.specs.Tasks.{IsTaskOf, TaskTurnTells};
ghost use Rattle.rs_pool.specs.Jobs.{amount_of, is_same, progress_after};

use rs_core::Actor;
use rs_exec::{RoleTask, Turn};
use rs_session::Session;
use std::alloc::Global;

// What is counted in the word of ends for a role that has ended.
const FOR_AN_END: u64 = 1;

// What is counted for a role that has stopped: as much as for the most roles that there are, so that all workers leave.
const FOR_A_STOP: u64 = 16;

/// How far a task had come when it made its last turn.
#[derive(Clone, Copy)]
pub(crate) enum Progress {
    /// It goes on, or has made no turn.
    Underway,
    /// Its role has ended.
    Ended,
    /// It has made as many acts as the limit, and hasn't ended.
    AtLimit,
    /// Memory was refused to its actor.
    Refused,
}

/// A role's task, and how far it has come. It must be spent.
pub(crate) struct Job<A: Drop> {
    pub(crate) task: RoleTask<A>,
    pub(crate) progress: Progress,
}

impl<A: Actor> Job<A> {
    /// One turn of its task.
    #[inline(always)]
    pub(crate) fn turn(&mut self, alloc: Global, session: &Session) -> Turn
        requires of { IsTaskOf session.now self.old.task }
        ensures of { IsTaskOf session.now self.new.task }
        ensures tells { TaskTurnTells session.now A.behaviour self.old.task self.new.task result }
        ensures progress { self.new.progress ≡ progress_after result }
    {
        let turn = self.task.turn(alloc, session);
        self.progress = progress_after(&turn);
        turn
    }
}

#[inline(always)]
fn progress_after(turn: &Turn) -> Progress
    ensures { result ≡ progress_after turn.now }
{
    match turn {
        Turn::Moved => Progress::Underway,
        Turn::Waits(_) => Progress::Underway,
        Turn::Ended => Progress::Ended,
        Turn::AtLimit => Progress::AtLimit,
        Turn::NoMemory => Progress::Refused,
    }
}

/// What is counted for a job.
#[inline(always)]
pub(crate) fn amount_of(progress: Progress) -> u64
    ensures { result ≡ amount_of progress }
{
    match progress {
        Progress::Underway => 0,
        Progress::Ended => FOR_AN_END,
        Progress::AtLimit => FOR_A_STOP,
        Progress::Refused => FOR_A_STOP,
    }
}

/// Whether two are the same.
pub(crate) fn is_same(one: Progress, other: Progress) -> bool
    ensures { result ≡ is_same one other }
{
    match (one, other) {
        (Progress::Underway, Progress::Underway) => true,
        (Progress::Ended, Progress::Ended) => true,
        (Progress::AtLimit, Progress::AtLimit) => true,
        (Progress::Refused, Progress::Refused) => true,
        _ => false,
    }
}
