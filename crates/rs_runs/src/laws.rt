//! Laws about the definitions: each function does nothing, and its contract is the law.

ghost use Rattle.std.specs.Prelude.{◌≡◌, ℕ, ◌≤◌, List, Some, Option, length};
ghost use Rattle.rs_derive.specs.Data.{Derivation_data};
ghost use Rattle.rs_documents.specs.Data.{Document_data};
ghost use Rattle.rs_documents.specs.Documents.{SpellsDocument};
ghost use Rattle.rs_model.specs.Data.{Machine_data};
ghost use Rattle.rs_project.specs.Data.{Projection_data};
ghost use Rattle.rs_answers.specs.Derivations.{AreCanonical};
ghost use Rattle.rs_answers.specs.Sessions.{HasMachines};
ghost use Rattle.rs_answers.specs.Data.{Answer_data};
ghost use Rattle.rs_runs.specs.Pools.{AreSameOrStopped, RingsHoldItsRoom, RunsByWorkers};
ghost use Rattle.rs_runs.specs.Runs.{Runs};
ghost use Rattle.rs_answers.specs.declared.verdicts.Verdict.TheVariants.{Fine, RoomTooSmall};
ghost use Rattle.rs_core.specs.Plain.{Moment, Stopped, Stuck, IsPlain};
ghost use Rattle.rs_runs.specs.Demos.{AnswersDemo, Opens, actor_at};
ghost use Rattle.rs_runs.specs.declared.limits.TheConstants.{DEMO_LIMIT};
ghost use Rattle.rs_demos.specs.Acting.{by_demo};
ghost use Rattle.rs_demos.specs.Results.{Computes};
ghost use Rattle.rs_demos.specs.declared.actors.DemoTalker.{DemoTalker};
ghost use Rattle.rs_model.specs.declared.limits.TheConstants.{MOST_BYTES, DEFAULT_BOUND};
ghost use Rattle.rs_model.specs.Limits.{IsBound};
ghost use Rattle.rs_model.specs.declared.demos.Demo.{Demo};
ghost use Rattle.rs_model.specs.declared.runs.RunOptions.{RunOptions};
ghost use Rattle.rs_safety.specs.Room.{room_of};

/// In a run over rings that hold as many messages as the room of the session says, some role can always move until all
/// have ended.
pub fn runs_of_demos_are_never_stuck()
    ensures { (text : List ℕ) (d : Document_data) (projections : List Projection_data) (machines : List Machine_data) (derivations : List Derivation_data) (actors : List DemoTalker) (capacity : ℕ)
        (end : Moment DemoTalker)
        → SpellsDocument text d → HasMachines d projections machines → AreCanonical DEFAULT_BOUND machines projections derivations → room_of derivations ≤ capacity
        → IsPlain machines by_demo (actor_at actors) DEMO_LIMIT (Some capacity) (Stuck end) → ⊥ }
{}

/// No role is stopped in a run of a demo's own machines with the actors of bytes within the limit, over queues of any
/// capacity: none makes as many acts as the limit says.
pub fn runs_of_demos_are_never_stopped()
    ensures { (kind : Demo) (bytes : List ℕ) (actors : List DemoTalker) (text : List ℕ) (d : Document_data) (projections : List Projection_data) (machines : List Machine_data) (capacity : Option ℕ)
        (role : ℕ) (end : Moment DemoTalker)
        → length bytes ≤ MOST_BYTES → Opens kind bytes actors text → SpellsDocument text d → HasMachines d projections machines
        → IsPlain machines by_demo (actor_at actors) DEMO_LIMIT capacity (Stopped role end) → ⊥ }
{}

/// One worker and several answer the same to a document, where the rings hold as many messages as the room of its session; or
/// both tell that a role was stopped, and the role that is named may be another. And so it is where the answer of several is
/// not that the rings are too small.
pub fn one_worker_answers_as_several_do()
    ensures enough { (options : RunOptions) (bytes : List ℕ) (d : Document_data) (one several : Answer_data) → IsBound options.bound → SpellsDocument bytes d → RingsHoldItsRoom options d
        → Runs options d one → RunsByWorkers options d several → AreSameOrStopped one several }
    ensures told { (options : RunOptions) (bytes : List ℕ) (d : Document_data) (one several : Answer_data) → IsBound options.bound → SpellsDocument bytes d → (several.verdict ≡ RoomTooSmall → ⊥)
        → Runs options d one → RunsByWorkers options d several → AreSameOrStopped one several }
{}

/// There is an answer of each demo to all bytes.
pub fn demos_have_an_answer()
    ensures { (kind : Demo) (ring : Option ℕ) (bytes : List ℕ) → (a : Answer_data) × AnswersDemo kind ring bytes a }
{}

/// No demo has two answers to the same bytes.
pub fn demos_have_one_answer()
    ensures { (kind : Demo) (ring : Option ℕ) (bytes : List ℕ) (a b : Answer_data) → AnswersDemo kind ring bytes a → AnswersDemo kind ring bytes b → a ≡ b }
{}

/// Where a demo's answer is fine, it is what the demo computes of the bytes.
pub fn demos_print_what_they_compute()
    ensures { (kind : Demo) (ring : Option ℕ) (bytes : List ℕ) (a : Answer_data) → AnswersDemo kind ring bytes a → a.verdict ≡ Fine → Computes kind bytes a.text }
{}
