//! The run of an accepted session on one thread.

ghost use Rattle.std.specs.Prelude.{◌≡◌, ◌≤◌, length, IfErr, IfOk, ℕ, Some};
ghost use Rattle.rs_model.specs.Limits.{IsCapacity};
ghost use Rattle.rs_core.specs.Plain.{Ending, IsPlain};
ghost use Rattle.rs_core.specs.Runs.{EndingShows, FaultTells, IsGiven};
ghost use Rattle.rs_exec.specs.Runs.{IsSessionOfRun};
ghost use Rattle.rs_core.specs.declared.runs.RunFault.TheVariants as fault;
ghost use Rattle.rs_safety.specs.Room.{room_of};

use crate::hands::Hand;
use crate::running::run_over;
use crate::runs::Ran;
use rs_core::{Actor, RunFault};
use rs_safety::Accepted;
use std::alloc::Global;

/// Runs a session of the accepted machines on this thread, round by round, over rings of that capacity, until all have ended,
/// or one has made `limit` acts and hasn't ended. The session is then closed or given up.
///
/// There is one actor for each role. The outcome, the transcripts and the actors are those of the plain run with this
/// capacity, and what the roles did in the session is what the actors played. The errors are that no role moved in a round, as
/// [`RunFault::Full`] says so, and that memory ran out. At a capacity of at least the room of the session memory is the
/// one error.
pub fn run_inline<A: Actor>(
    alloc: Global,
    accepted: &Accepted,
    actors: Vec<A>,
    capacity: u16,
    limit: u32,
) -> Result<Ran<A>, RunFault>
    requires actors { length actors.items ≡ length accepted.now.machines }
    requires capacity { IsCapacity capacity }
    ensures plain { IfOk result (λ r. (given : ℕ → A) → IsGiven given actors.items
        → (o : Ending A) × IsPlain accepted.now.machines A.behaviour given limit (Some capacity) o × EndingShows (length accepted.now.machines) o r.run.outcome r.run.actors.items) }
    ensures closed { IfOk result (λ r. IsSessionOfRun accepted.now.machines A.behaviour actors.items limit r.closed r.run.outcome r.run.actors.items) }
    ensures rings { IfOk result (λ r. r.closed.capacity ≡ capacity) }
    ensures full { IfErr result (λ e. (given : ℕ → A) → IsGiven given actors.items → FaultTells accepted.now.machines A.behaviour given limit capacity e) }
    ensures enough { room_of accepted.now.derivations ≤ capacity → IfErr result (λ e. e ≡ fault.NoMemory) }
{
    let hand = Hand::begin(alloc, accepted, capacity)?;
    run_over(alloc, hand, actors, limit)
}
