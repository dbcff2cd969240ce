//! How a session that was opened is run, and the result.

ghost use Rattle.std.specs.Prelude.{◌≡◌, ◌<◌, ◌≤◌, ◌⊎◌, List, Err, IfErr, IfOk, Ok, length, min};
ghost use Rattle.rs_runs.specs.Runs.{outcome_answer};
ghost use Rattle.rs_core.specs.declared.runs.RunFault.TheVariants as fault;
ghost use Rattle.rs_model.specs.declared.limits.TheConstants.{MOST_CAPACITY, MOST_ROLES};
ghost use Rattle.rs_open.specs.Making.{AreMadeBy};
ghost use Rattle.rs_open.specs.Running.{IsRunAlone, IsRunByCrew, IsStuckRun};
ghost use Rattle.rs_safety.specs.Room.{room_of};

use crate::sessions::OpenSession;
use rs_core::{Actor, Outcome, RunFault};
use rs_exec::{Ran, run_inline};
use rs_model::{Crew, MOST_CAPACITY, NoMemory, Role};
use rs_pool::{Gate, run_pool};
use rs_runs::outcome_answer;
use rs_text::Text;
use std::alloc::Global;
use std::sync::Wait;
use std::thread::Threads;

/// Why a crew hasn't run a session.
#[derive(Clone, Copy, Debug, PartialEq, Eq)]
pub enum CrewFault {
    /// The session's room is more than a ring can hold, so its roles could all be held up.
    RoomTooLarge { room: u64 },
    /// Memory that was asked for was refused.
    NoMemory,
}

impl From<NoMemory> for CrewFault {
    ghost use Rattle.rs_open.specs.declared.running.CrewFault.TheVariants as crew;

    ghost from_gives = { λ _ e. e ≡ crew.NoMemory };

    fn from(_refused: NoMemory) -> Self {
        CrewFault::NoMemory
    }
}

/// An actor for each role.
fn actors_by<A: Drop, F: Fn(Role) -> Result<A, NoMemory>>(
    alloc: Global,
    roles: usize,
    actor: F,
) -> Result<Vec<A>, NoMemory>
    requires roles { roles ≤ MOST_ROLES }
    requires callable { F.IsAlwaysCallable actor }
    ensures { IfOk result (λ actors. AreMadeBy (λ role x. F.post actor role (Ok x)) roles actors.items) }
{
    let mut actors = Vec::new(alloc);
    for number in 0..roles {
        let one = actor(Role(number as u8))?;
        actors.push(one)?;
    }
    Ok(actors)
}

impl OpenSession {
    /// Runs the session on this thread, round by round, until all roles have ended, or one has made `limit` acts and hasn't
    /// ended. What `actor` makes for a role plays it.
    ///
    /// Each ring holds as many messages as [`OpenSession::capacity`]. The errors are that memory was refused, to the actors
    /// too, and, only where the room is more than a ring can hold, that no role could move ([`RunFault::Full`]).
    pub fn run<A: Actor, F: Fn(Role) -> Result<A, NoMemory>>(
        &self,
        alloc: Global,
        limit: u32,
        actor: F,
    ) -> Result<Ran<A>, RunFault>
        requires callable { F.IsAlwaysCallable actor }
        ensures ran { IfOk result (λ ran. (actors : List A) × AreMadeBy (λ role x. F.post actor role (Ok x)) (length self.now.session.machines) actors
            × IsRunAlone A.behaviour self.now.session.machines actors limit (min (room_of self.now.session.derivations) MOST_CAPACITY) ran) }
        ensures stuck { IfErr result (λ e. (e ≡ fault.NoMemory) ⊎ ((actors : List A) × AreMadeBy (λ role x. F.post actor role (Ok x)) (length self.now.session.machines) actors
            × IsStuckRun A.behaviour self.now.session.machines actors limit (min (room_of self.now.session.derivations) MOST_CAPACITY) e)) }
        ensures enough { room_of self.now.session.derivations ≤ MOST_CAPACITY → IfErr result (λ e. e ≡ fault.NoMemory) }
    {
        let actors = actors_by(alloc, self.roles().len(), actor)?;
        let capacity = self.capacity();
        run_inline(alloc, self.accepted(), actors, capacity.messages(), limit)
    }

    /// Runs the session by a crew of workers, which are threads, until all roles have ended, or one has made `limit` acts and
    /// hasn't ended. What `actor` makes for a role plays it.
    ///
    /// Each ring holds as many messages as the room. The gate is called round each turn of a worker; [`rs_pool::NoGate`] does
    /// nothing. The call may wait for its workers: its promise holds if it returns. The errors are that the room is more than
    /// a ring can hold, and that memory was refused, to the actors too.
    pub fn run_by<
        R: Threads + Wait + Sync,
        A: Actor + Send,
        G: Gate + Sync,
        F: Fn(Role) -> Result<A, NoMemory>,
    >(
        &self,
        rt: &R,
        alloc: Global,
        crew: Crew,
        gate: &G,
        limit: u32,
        actor: F,
    ) -> Result<Ran<A>, CrewFault>
        requires callable { F.IsAlwaysCallable actor }
        ensures ran { IfOk result (λ ran. (actors : List A) × AreMadeBy (λ role x. F.post actor role (Ok x)) (length self.now.session.machines) actors
            × IsRunByCrew A.behaviour self.now.session.machines actors limit (room_of self.now.session.derivations) ran) }
        ensures large { MOST_CAPACITY < room_of self.now.session.derivations → result ≡ Err (CrewFault.RoomTooLarge (room_of self.now.session.derivations)) }
        ensures enough { room_of self.now.session.derivations ≤ MOST_CAPACITY → IfErr result (λ e. e ≡ CrewFault.NoMemory) }
    {
        let room = self.room();
        if room > u64::from(MOST_CAPACITY) {
            return Err(CrewFault::RoomTooLarge { room });
        }
        let actors = actors_by(alloc, self.roles().len(), actor)?;
        let ran = run_pool(
            rt,
            alloc,
            self.accepted(),
            actors,
            room as u16,
            limit,
            crew.workers(),
            gate,
        )?;
        Ok(ran)
    }

    /// What `run` prints of such an outcome: a line for each role, by its name, with all that it did; or which role was
    /// stopped.
    pub fn told(&self, alloc: Global, outcome: Outcome) -> Result<Text, NoMemory>
        ensures { IfOk result (λ text. text ≡ (outcome_answer self.now.names outcome).text) }
    {
        let answer = outcome_answer(alloc, self.names(), outcome)?;
        Ok(answer.text)
    }
}
