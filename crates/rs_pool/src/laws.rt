//! Laws about the definitions: each function does nothing, and its contract is the law.
ghost use Rattle.std.specs.Prelude.{◌≡◌, ◌≤◌, ℕ, List, Some, length};
ghost use Rattle.rs_core.specs.Determined.{IsSafePlain};
ghost use Rattle.rs_core.specs.Plain.{Ending, IsPlain, Moment, Stuck};
ghost use Rattle.rs_core.specs.Runs.{EndingShows};
ghost use Rattle.rs_core.specs.declared.runs.Outcome.{Outcome};
ghost use Rattle.rs_core.specs.declared.runs.Outcome.TheVariants.{Ended, Stopped};
ghost use Rattle.rs_core.specs.declared.transcripts.Entry.{Entry};
ghost use Rattle.rs_model.specs.Data.{Machine_data};
ghost use Rattle.rs_model.specs.declared.graph.Role.{Role};
ghost use Rattle.rs_pool.specs.Pool.{AgreesWithPlain, ComeToTheSame};
ghost use Rattle.rs_safety.specs.Accepting.{Accepted_data, IsAcceptedSession};
ghost use Rattle.rs_safety.specs.Room.{room_of};

use rs_core::Actor;

/// Two runs by workers of the same actors have the same result, with whatever numbers of workers and in whatever order of turns:
/// if both have ended, then with the same transcripts and the same actors, and one doesn't end where the other is stopped.
pub fn runs_by_workers_are_alike<A: Actor>()
    ensures ended { (machines : List Machine_data) (given : ℕ → A) (limit : ℕ) (one other : List (List Entry)) (left right : List A)
        → AgreesWithPlain machines A.behaviour given limit (Ended one) left → AgreesWithPlain machines A.behaviour given limit (Ended other) right → (one ≡ other) × (left ≡ right) }
    ensures stopped { (machines : List Machine_data) (given : ℕ → A) (limit : ℕ) (one : List (List Entry)) (role : Role) (left right : List A)
        → AgreesWithPlain machines A.behaviour given limit (Ended one) left → AgreesWithPlain machines A.behaviour given limit (Stopped role) right → ⊥ }
{}

/// A run on one thread has the result of runs by workers. Whatever the capacity, its result agrees with the plain run over
/// unbounded queues, so that both have the same result; and with a capacity of at least the room of the session it is never stuck.
pub fn one_thread_is_as_good_as_workers<A: Actor>()
    ensures agrees { (machines : List Machine_data) (given : ℕ → A) (limit capacity : ℕ) (o : Ending A) (outcome : Outcome) (left : List A)
        → IsSafePlain machines A.behaviour given limit (Some capacity) o → EndingShows (length machines) o outcome left → AgreesWithPlain machines A.behaviour given limit outcome left }
    ensures alike { (machines : List Machine_data) (given : ℕ → A) (limit capacity : ℕ) (o : Ending A) (one other : Outcome) (left right : List A)
        → IsSafePlain machines A.behaviour given limit (Some capacity) o → EndingShows (length machines) o one left → AgreesWithPlain machines A.behaviour given limit other right
        → ComeToTheSame one left other right }
    ensures never_stuck { (session : Accepted_data) (given : ℕ → A) (limit capacity : ℕ) (end : Moment A) → IsAcceptedSession session → room_of session.derivations ≤ capacity
        → IsPlain session.machines A.behaviour given limit (Some capacity) (Stuck end) → ⊥ }
{}
