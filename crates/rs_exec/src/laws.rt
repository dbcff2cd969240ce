//! Laws about the definitions: each function does nothing, and its contract is the law.

ghost use Rattle.std.specs.Prelude.{◌≡◌, ◌≢◌, ◌<◌, ℕ, List, [], Some, None, false, length};
ghost use Rattle.rs_core.specs.Actors.{Plays};
ghost use Rattle.rs_exec.specs.Data.{Task_data};
ghost use Rattle.rs_exec.specs.Polling.{IsPolled, IsTaskFrom, begun_by};
ghost use Rattle.rs_exec.specs.Tasks.{HasEnded, PlaysTask, PlaysUpTo, RunsMachine, TaskTurnTells};
ghost use Rattle.rs_exec.specs.declared.tasks.Turn.{Turn};
ghost use Rattle.rs_exec.specs.declared.tasks.Turn.TheVariants as turn;
ghost use Rattle.rs_exec.specs.declared.tasks.Why.TheVariants as why;
ghost use Rattle.futures.specs.declared.task.Poll.TheVariants.{Pending};
ghost use Rattle.rs_rings.specs.Passes.{Rings_data};
ghost use Rattle.rs_session.specs.Stages.{IsOf, sight_of_stage, state_of_stage};
ghost use Rattle.rs_model.specs.Data.{Machine_data};
ghost use Rattle.rs_model.specs.declared.graph.Arm.{Arm};
ghost use Rattle.rs_model.specs.declared.graph.Role.{Role};
ghost use Rattle.rs_model.specs.declared.machines.State.TheVariants.{Puts, Takes};

use rs_core::Actor;

/// An actor that plays the history of a task's role, and has become the task's actor, does so after a turn too, unless
/// memory ran out.
pub fn turns_play_on<A: Actor>()
    ensures turns { (session : Rings_data) (x : A) (old new : Task_data A) (t : Turn) → t ≢ turn.NoMemory → TaskTurnTells session A.behaviour old new t → PlaysTask session A.behaviour x old
        → PlaysTask session A.behaviour x new }
    ensures first { (session : Rings_data) (machine : Machine_data) (task : Task_data A) → RunsMachine session (sight_of_stage task.stage) machine → (sight_of_stage task.stage).part.history ≡ []
        → (sight_of_stage task.stage).part.state ≡ machine.start → task.kept ≡ None → PlaysTask session A.behaviour task.actor task }
    ensures plays { (session : Rings_data) (x : A) (task : Task_data A) → (so : PlaysTask session A.behaviour x task)
        → Plays A.behaviour so.machine x (sight_of_stage task.stage).part.history task.kept task.actor }
    ensures goes_on { (session : Rings_data) (machine : Machine_data) (x : A) (old new : Task_data A) (t : Turn) → t ≢ turn.NoMemory → TaskTurnTells session A.behaviour old new t
        → RunsMachine session (sight_of_stage old.stage) machine → PlaysUpTo A.behaviour machine x old → RunsMachine session (sight_of_stage new.stage) machine × PlaysUpTo A.behaviour machine x new }
{}

/// A task that has made no turn is one that began so, with its own actor.
pub fn new_tasks_began_so<A: Actor>()
    ensures { (session : Rings_data) (machine : Machine_data) (task : Task_data A) → IsOf session task.stage → RunsMachine session (sight_of_stage task.stage) machine
        → (sight_of_stage task.stage).part.history ≡ [] → (sight_of_stage task.stage).part.state ≡ machine.start → task.kept ≡ None → task.transcript ≡ []
        → IsTaskFrom A.behaviour (begun_by session task) task }
{}

/// Only a task that continues is pending: one that has ended, has reached its limit or got no memory is ready when it is
/// polled.
pub fn only_who_goes_on_is_pending<A: Actor>()
    ensures ended { (session : Rings_data) (old new : Task_data A) → IsPolled session A.behaviour old new Pending → HasEnded old.stage → ⊥ }
    ensures below { (session : Rings_data) (old new : Task_data A) → IsPolled session A.behaviour old new Pending → length old.transcript < old.limit }
    ensures unrefused { (session : Rings_data) (old new : Task_data A) → IsPolled session A.behaviour old new Pending → old.failed ≡ false }
{}

/// A task that waits says for whom: the peer is the one to whom its state sends, or from whom it receives.
pub fn who_waits_tells_for_whom<A: Actor>()
    ensures full { (session : Rings_data) (old new : Task_data A) (peer : Role) (sent taken : ℕ) → TaskTurnTells session A.behaviour old new (turn.Waits (why.Full peer sent taken))
        → (arms : List Arm) × (state_of_stage session (sight_of_stage old.stage) ≡ Some (Puts peer arms)) }
    ensures empty { (session : Rings_data) (old new : Task_data A) (peer : Role) (seen : ℕ) → TaskTurnTells session A.behaviour old new (turn.Waits (why.Empty peer seen))
        → (arms : List Arm) × (state_of_stage session (sight_of_stage old.stage) ≡ Some (Takes peer arms)) }
{}
