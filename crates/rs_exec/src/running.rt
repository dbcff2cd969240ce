//! The run over a session whose roles are all in one hand.
ghost use Rattle.std.specs.Prelude.{◌≡◌, ◌≤◌, length, IfErr, IfOk, ℕ, Some};
ghost use Rattle.rs_core.specs.Choices.{AreWellFormed};
ghost use Rattle.rs_core.specs.Plain.{Ending, IsPlain};
ghost use Rattle.rs_core.specs.Runs.{EndingShows, FaultTells, IsGiven};
ghost use Rattle.rs_core.specs.Safety.{IsSafe};
ghost use Rattle.rs_exec.specs.Runs.{IsSessionOfRun};
ghost use Rattle.rs_rings.specs.Views.{starting};

use crate::hands::Hand;
use crate::runs::Ran;
use rs_core::{Actor, RunFault, play, run_of};
use std::alloc::Global;

/// Runs the session from its start, and closes it or gives it up.
pub(crate) fn run_over<A: Actor>(
    alloc: Global,
    hand: Hand,
    actors: Vec<A>,
    limit: u32,
) -> Result<Ran<A>, RunFault>
    requires first { hand.all.view ≡ starting hand.session.machines }
    requires safe { IsSafe hand.session.machines }
    requires well_formed { AreWellFormed hand.session.machines }
    requires some { 2 ≤ length hand.session.machines }
    requires actors { length actors.items ≡ length hand.session.machines }
    ensures plain { IfOk result (λ r. (given : ℕ → A) → IsGiven given actors.items
        → (o : Ending A) × IsPlain hand.session.machines A.behaviour given limit (Some hand.session.capacity) o × EndingShows (length hand.session.machines) o r.run.outcome r.run.actors.items) }
    ensures closed { IfOk result (λ r. IsSessionOfRun hand.session.machines A.behaviour actors.items limit r.closed r.run.outcome r.run.actors.items) }
    ensures rings { IfOk result (λ r. r.closed.capacity ≡ hand.session.capacity) }
    ensures full { IfErr result (λ e. (given : ℕ → A) → IsGiven given actors.items → FaultTells hand.session.machines A.behaviour given limit hand.session.capacity e) }
{
    let mut hand = hand;
    match play(alloc, &mut hand, actors, limit) {
        Ok(finished) => {
            let closed = hand.spend(finished.end);
            match run_of(alloc, finished) {
                Ok(run) => Ok(Ran { run, closed }),
                Err(fault) => Err(fault),
            }
        }
        Err(_refused) => {
            hand.give_up();
            Err(RunFault::NoMemory)
        }
    }
}
