//! Laws about the definitions: each function does nothing, and its contract is the law.

ghost use Rattle.std.specs.Prelude.{◌≡◌, ◌≤◌, ◌⊎◌, ℕ, List, length};
ghost use Rattle.rs_core.specs.Configurations.{Configuration, IsReachable};
ghost use Rattle.rs_core.specs.Safety.{AllEnded, CanStep, HasMismatch};
ghost use Rattle.rs_derive.specs.Data.{Derivation_data};
ghost use Rattle.rs_documents.specs.Data.{Document_data};
ghost use Rattle.rs_documents.specs.Documents.{SpellsDocument};
ghost use Rattle.rs_model.specs.Data.{Machine_data};
ghost use Rattle.rs_model.specs.Limits.{IsBound};
ghost use Rattle.rs_project.specs.Data.{Projection_data};
ghost use Rattle.rs_safety.specs.Room.{room_of};
ghost use Rattle.rs_tool.specs.Answers.{Answers};
ghost use Rattle.rs_answers.specs.Data.{Answer_data};
ghost use Rattle.rs_tool.specs.Headline.{SpellsSafeMachines};
ghost use Rattle.rs_tool.specs.Hopeless.{SaysNoBoundHelps, SpellsHopelessMachine};
ghost use Rattle.rs_answers.specs.Derivations.{AreCanonical};
ghost use Rattle.rs_answers.specs.Machines.{machines_of};
ghost use Rattle.rs_runs.specs.Runs.{Runs, capacity_of};
ghost use Rattle.rs_run_pictures.specs.Draws.{DrawsRun};
ghost use Rattle.rs_answers.specs.Sessions.{HasMachines};
ghost use Rattle.rs_model.specs.declared.runs.RunOptions.{RunOptions};
ghost use Rattle.rs_answers.specs.declared.verdicts.Verdict.TheVariants.{Fine, Full, Refused, Stopped};
ghost use Rattle.rs_tool.specs.RunHeadline.{IsOfRun};
ghost use Rattle.rs_tool.specs.Statuses.{status_of};
ghost use Rattle.rs_tool.specs.Tasks.{AskForWorkers, SpellsDrawnRun, SpellsExplain, SpellsImprove, SpellsMigrate, SpellsRun};

/// There is an answer to all words and bytes.
pub fn all_have_an_answer()
    ensures { (words : List (List ℕ)) (bytes : List ℕ) → (a : Answer_data) × Answers words bytes a }
{}

/// No words and bytes have two answers, but where several workers run a session that is stopped: there the role that is named
/// may be another.
pub fn none_have_two_answers()
    ensures alone { (words : List (List ℕ)) (bytes : List ℕ) (a b : Answer_data) → (AskForWorkers words → ⊥) → Answers words bytes a → Answers words bytes b → a ≡ b }
    ensures by_workers { (words : List (List ℕ)) (bytes : List ℕ) (a b : Answer_data) → Answers words bytes a → Answers words bytes b → (a ≡ b) ⊎ ((a.verdict ≡ Stopped) × (b.verdict ≡ Stopped)) }
{}

/// There is no doubt which machines the headline means: whatever it says of the same bytes, it says of the same machines.
pub fn headline_means_one_session()
    ensures { (bytes : List ℕ) (one other : SpellsSafeMachines bytes) → machines_of one.machines one.projections ≡ machines_of other.machines other.projections }
{}

/// The headline speaks of one machine a role.
pub fn headline_has_a_machine_a_role()
    ensures { (bytes : List ℕ) (h : SpellsSafeMachines bytes) → length (machines_of h.machines h.projections) ≡ h.protocol.roles }
{}

/// Wherever the machines of the headline can get, none meets a message that it doesn't take, and some machine can step or all
/// have ended with every queue empty.
pub fn headline_tells_of_safe_machines()
    ensures fits { (bytes : List ℕ) (h : SpellsSafeMachines bytes) (c : Configuration) → IsReachable (machines_of h.machines h.projections) c → HasMismatch (machines_of h.machines h.projections) c
        → ⊥ }
    ensures goes_on { (bytes : List ℕ) (h : SpellsSafeMachines bytes) (c : Configuration) → IsReachable (machines_of h.machines h.projections) c
        → CanStep (machines_of h.machines h.projections) c ⊎ AllEnded (machines_of h.machines h.projections) c }
{}

/// The machines of a text are safe wherever the answer to `migrate` is fine, or that to `run` or `draw --run` tells of a run; and so are
/// those of the text that `improve` writes.
pub fn answers_tell_of_safe_machines()
    ensures migrated { (words : List (List ℕ)) (bytes : List ℕ) (a : Answer_data) → SpellsMigrate words → Answers words bytes a → IsOfRun (status_of a.verdict) → SpellsSafeMachines bytes }
    ensures run { (words : List (List ℕ)) (options : RunOptions) (bytes : List ℕ) (a : Answer_data) → SpellsRun words options → Answers words bytes a → IsOfRun (status_of a.verdict)
        → SpellsSafeMachines bytes }
    ensures drawn { (words : List (List ℕ)) (options : RunOptions) (bytes : List ℕ) (a : Answer_data) → SpellsDrawnRun words options → Answers words bytes a → IsOfRun (status_of a.verdict)
        → SpellsSafeMachines bytes }
    ensures improved { (words : List (List ℕ)) (bytes : List ℕ) (a : Answer_data) → SpellsImprove words → Answers words bytes a → a.verdict ≡ Fine → SpellsSafeMachines a.text }
{}

/// If `explain` refuses a document and the last line of its answer is `no bound helps`, then within no bound does the machine that
/// it refuses have a derivation from its projection that remembers what it owes.
pub fn no_bound_helps_where_explain_says_so()
    ensures { (words : List (List ℕ)) (bound : ℕ) (bytes : List ℕ) (a : Answer_data) → SpellsExplain words bound → Answers words bytes a → a.verdict ≡ Refused → SaysNoBoundHelps a.text
        → SpellsHopelessMachine bound bytes }
{}

/// A run whose queues hold as many messages as the room of the session says is never full: neither that of `run` by one worker, nor
/// the one that `draw --run` draws.
pub fn runs_with_enough_room_are_never_full()
    ensures run { (options : RunOptions) (bytes : List ℕ) (document : Document_data) (projections : List Projection_data) (machines : List Machine_data) (derivations : List Derivation_data)
        (answer : Answer_data)
        → IsBound options.bound → SpellsDocument bytes document → HasMachines document projections machines → AreCanonical options.bound machines projections derivations
        → room_of derivations ≤ capacity_of options.ring (room_of derivations) → Runs options document answer → answer.verdict ≡ Full → ⊥ }
    ensures drawn { (options : RunOptions) (bytes : List ℕ) (document : Document_data) (projections : List Projection_data) (machines : List Machine_data) (derivations : List Derivation_data)
        (answer : Answer_data)
        → IsBound options.bound → SpellsDocument bytes document → HasMachines document projections machines → AreCanonical options.bound machines projections derivations
        → room_of derivations ≤ capacity_of options.ring (room_of derivations) → DrawsRun options document answer → answer.verdict ≡ Full → ⊥ }
{}
