//! Tasks as futures, for callers with an executor of their own.
ghost use Rattle.std.specs.Prelude.{◌≡◌};
ghost use Rattle.futures.specs.Poll.{IfReady, OnPending};
ghost use Rattle.futures.specs.Task.{Covers, Keeps};
ghost use Rattle.rs_exec.specs.Polling.{HasStopped, IsPolled, IsTaskFrom};
ghost use Rattle.rs_exec.specs.Tasks.{IsTaskOf, TaskTurnTells};
ghost use Rattle.rs_exec.specs.declared.tasks.Turn.{Turn};

use crate::tasks::{RoleTask, Turn};
use futures::future::Future;
use futures::task::{Context, Poll};
use rs_core::Actor;
use rs_session::Session;
use std::alloc::Global;
use std::marker::{Brand, Model, PhantomData};

/// What a task began with, as types name it. Only proofs need it.
pub trait TaskName<A> {
    ghost use Rattle.rs_exec.specs.Polling.{Begun};

    ghost begun: { Begun A };
}

impl<A> TaskName<A> for Brand {
    ghost use Rattle.std.specs.Prelude.{[], None};
    ghost use Rattle.rs_rings.specs.Acts.{role_of_number};

    ghost begun = { record {
      session = record {
        table = record { words = 0; slots = 0; views_name = 0; atom = 0; block = 0; offset = 0; slot_names = [] };
        roles = 0;
        capacity = 0;
        machines = [];
      };
      role = role_of_number 0;
      limit = 0;
      given = None;
    } };
}

/// A task that began as `N` names it. To whomever it is lent, it comes back as one of that session, of that role and with that
/// limit, which the actor that was given has played. It must be spent.
pub struct SessionTask<A: Actor, N: TaskName<A>> {
    task: RoleTask<A>,
    name: PhantomData<(A, N)>,
}

impl<A: Actor, N: TaskName<A>> Model for SessionTask<A, N> {
    ghost use Rattle.rs_exec.specs.Data.{Task_data};
    ghost use Rattle.rs_exec.specs.Polling.{IsTaskFrom};

    ghost Value = { Task_data A };

    ghost view = { λ t. t.task };

    ghost invariant = { λ t. IsTaskFrom A.behaviour N.begun t.task };
}

impl<A: Actor, N: TaskName<A>> SessionTask<A, N> {
    /// The task, which began as `N` names it.
    pub fn new(task: RoleTask<A>) -> SessionTask<A, N>
        requires begun { IsTaskFrom A.behaviour N.begun task }
        ensures same { result ≡ task }
    {
        SessionTask {
            task,
            name: PhantomData,
        }
    }

    /// One turn of the task in its session.
    pub fn turn(&mut self, alloc: Global, session: &Session) -> Turn
        requires session { session.now ≡ N.begun.session }
        ensures of { IsTaskOf session.now self.new }
        ensures tells { TaskTurnTells session.now A.behaviour self.old self.new result }
    {
        self.task.turn(alloc, session)
    }

    /// The task, which began so.
    pub fn into_task(self) -> RoleTask<A>
        ensures same { result ≡ self }
        ensures begun { IsTaskFrom A.behaviour N.begun result }
    {
        let SessionTask { task, name: _ } = self;
        task
    }
}

/// A task that is polled: each poll makes one turn. It is ready with the first turn after which the task doesn't go on. However
/// often it was polled, the task is then still one that began so.
#[derive(Drop)]
pub struct RoleFuture<'a, A: Actor, N: TaskName<A>> {
    alloc: Global,
    task: &'a mut SessionTask<A, N>,
    session: &'a Session,
}

impl<'a, A: Actor, N: TaskName<A>> RoleFuture<'a, A, N> {
    /// The future of the task, whose session is lent too. It lends both until it is dropped, and `alloc` to the actor.
    pub fn new(
        alloc: Global,
        task: &'a mut SessionTask<A, N>,
        session: &'a Session,
    ) -> RoleFuture<'a, A, N>
        requires session { session.now ≡ N.begun.session }
        ensures task { result.task.now ≡ task.old }
        ensures same_reference { result.task.ghost_name ≡ task.entry.ghost_name }
        ensures session { result.session.now ≡ session.now }
    {
        RoleFuture {
            alloc,
            task,
            session,
        }
    }
}

impl<A: Actor, N: TaskName<A>> Future for RoleFuture<'_, A, N> {
    type Output = Turn;

    ghost can_poll = { λ f. f.session.now ≡ N.begun.session };

    ghost gives = { λ f turn. HasStopped turn };

    fn poll(&mut self, cx: &mut Context<'_>) -> Poll<Turn>
        requires named { self.old.session.now ≡ N.begun.session }
        ensures polled { IsPolled self.old.session.now A.behaviour self.old.task.now self.new.task.now result }
        ensures lent { (self.new.session.now ≡ self.old.session.now) × (self.new.task.ghost_name ≡ self.old.task.ghost_name) }
        ensures value { IfReady result HasStopped }
        ensures again { OnPending result (self.new.session.now ≡ N.begun.session) }
        ensures same { OnPending result ((turn : Turn) → HasStopped turn → HasStopped turn) }
        ensures registered { OnPending result (Covers cx.new (λ s. ⊥)) }
        ensures kept { Keeps cx.old cx.new }
    {
        match self.task.turn(self.alloc, self.session) {
            Turn::Moved => cx.yield_now(),
            Turn::Waits(_) => cx.yield_now(),
            Turn::Ended => Poll::Ready(Turn::Ended),
            Turn::AtLimit => Poll::Ready(Turn::AtLimit),
            Turn::NoMemory => Poll::Ready(Turn::NoMemory),
        }
    }
}
