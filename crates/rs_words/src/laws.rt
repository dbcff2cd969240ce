//! Laws about the definitions: each function does nothing, and its contract is the law.

ghost use Rattle.std.specs.Fmt.{decimal};
ghost use Rattle.std.specs.Prelude.{◌≡◌, ◌∷◌, ◌++◌, ◌≤◌, [], List, ℕ, None, Option, Some, codes, false, true};
ghost use Rattle.rs_model.specs.Limits.{IsBound, IsCapacity, IsFromTo};
ghost use Rattle.rs_model.specs.declared.demos.Demo.TheVariants as demo;
ghost use Rattle.rs_model.specs.declared.runs.Workers.TheVariants.{One};
ghost use Rattle.rs_words.specs.Grammar.{begins_with_dash};
ghost use Rattle.rs_words.specs.declared.limits.TheConstants.{MOST_GEN, MOST_LIMIT, MOST_SEED};
ghost use Rattle.rs_words.specs.declared.tasks.DocumentTask.TheVariants as on_document;
ghost use Rattle.rs_words.specs.declared.tasks.Task.{Task};
ghost use Rattle.rs_words.specs.declared.tasks.Task.TheVariants as task;
ghost use Rattle.rs_words.specs.Meaning.{IsInRange, IsMeaning, SpellsTask};

/// A list of words spells one task at most.
pub fn words_spell_one_task()
    ensures { (words : List (List ℕ)) (one other : Task) → SpellsTask words one → SpellsTask words other → one ≡ other }
{}

/// A list of words has a meaning: a task that it spells, or none.
pub fn words_mean_something()
    ensures { (words : List (List ℕ)) → (meaning : Option Task) × IsMeaning words meaning }
{}

/// A list of words has one meaning at most.
pub fn words_mean_one_thing()
    ensures { (words : List (List ℕ)) (one other : Option Task) → IsMeaning words one → IsMeaning words other → one ≡ other }
{}

/// The numbers of a task that words spell lie in their ranges.
pub fn spelt_numbers_are_in_range()
    ensures { (words : List (List ℕ)) (task : Task) → SpellsTask words task → IsInRange task }
{}

/// The word `check` alone spells a check within the bound 16 that prints the report. With `--bound=K` the bound is K, and with
/// `--derivations` the derivations are printed.
pub fn words_spell_a_check()
    ensures alone { SpellsTask (codes "check" ∷ []) (task.OnDocument (on_document.Check (record { bound = 16; derivations = false }))) }
    ensures bound { (k : ℕ) → IsBound k → SpellsTask (codes "check" ∷ (codes "--bound=" ++ decimal k) ∷ []) (task.OnDocument (on_document.Check (record { bound = k; derivations = false }))) }
    ensures derivations { SpellsTask (codes "check" ∷ codes "--derivations" ∷ []) (task.OnDocument (on_document.Check (record { bound = 16; derivations = true }))) }
{}

/// The name of a command without options, alone, spells its task.
pub fn names_spell_their_tasks()
    ensures verify { SpellsTask (codes "verify" ∷ []) (task.OnDocument on_document.Verify) }
    ensures migrate { SpellsTask (codes "migrate" ∷ []) (task.OnDocument on_document.Migrate) }
    ensures show { SpellsTask (codes "show" ∷ []) (task.OnDocument on_document.Show) }
    ensures project { SpellsTask (codes "project" ∷ []) (task.OnDocument on_document.Project) }
    ensures draw { SpellsTask (codes "draw" ∷ []) (task.OnDocument (on_document.Draw None)) }
    ensures explain { SpellsTask (codes "explain" ∷ []) (task.OnDocument (on_document.Explain 16)) }
    ensures run { SpellsTask (codes "run" ∷ []) (task.OnDocument (on_document.Run (record { bound = 16; ring = None; limit = 10000; seed = 0 }) One)) }
{}

/// `improve` and a role's name spell one swap within the bound 16, `draw` and a role's name the picture of the role, `gen` and a number the pipeline of that number, and `demo`
/// and the name of a demo that demo by one worker.
pub fn names_and_a_word_spell_their_tasks()
    ensures improve { (role : List ℕ) → begins_with_dash role ≡ false
        → SpellsTask (codes "improve" ∷ role ∷ []) (task.OnDocument (on_document.Improve (record { role = role; bound = 16; swaps = 1 }))) }
    ensures draw { (role : List ℕ) → begins_with_dash role ≡ false → SpellsTask (codes "draw" ∷ role ∷ []) (task.OnDocument (on_document.Draw (Some role))) }
    ensures generate { (n : ℕ) → n ≤ MOST_GEN → SpellsTask (codes "gen" ∷ decimal n ∷ []) (task.Gen n) }
    ensures double { SpellsTask (codes "demo" ∷ codes "double" ∷ []) (task.OnData (record { kind = demo.Double; ring = None; workers = One })) }
    ensures ring { SpellsTask (codes "demo" ∷ codes "ring" ∷ []) (task.OnData (record { kind = demo.Ring; ring = None; workers = One })) }
    ensures stream { SpellsTask (codes "demo" ∷ codes "stream" ∷ []) (task.OnData (record { kind = demo.Stream; ring = None; workers = One })) }
    ensures butterfly { SpellsTask (codes "demo" ∷ codes "butterfly" ∷ []) (task.OnData (record { kind = demo.Butterfly; ring = None; workers = One })) }
{}

/// `draw --run` alone spells the picture of a run within the bound 16 over queues of the room, of up to 20 acts of each role and with the seed 0. Each option
/// changes its own number. With a role's name the words spell nothing.
pub fn words_spell_a_drawn_run()
    ensures alone { SpellsTask (codes "draw" ∷ codes "--run" ∷ []) (task.OnDocument (on_document.DrawRun (record { bound = 16; ring = None; limit = 20; seed = 0 }))) }
    ensures options { (k c l x : ℕ) → IsBound k → IsCapacity c → IsFromTo 1 MOST_LIMIT l → IsFromTo 0 MOST_SEED x
        → SpellsTask (codes "draw" ∷ codes "--run" ∷ (codes "--bound=" ++ decimal k) ∷ (codes "--ring=" ++ decimal c) ∷ (codes "--limit=" ++ decimal l) ∷ (codes "--seed=" ++ decimal x) ∷ [])
        (task.OnDocument (on_document.DrawRun (record { bound = k; ring = Some c; limit = l; seed = x }))) }
    ensures role { (role : List ℕ) → begins_with_dash role ≡ false → IsMeaning (codes "draw" ∷ codes "--run" ∷ role ∷ []) None }
{}

/// `draw` takes the options of a run with `--run` alone: without it they spell nothing.
pub fn draw_without_run_takes_no_option()
    ensures bound { (text : List ℕ) → IsMeaning (codes "draw" ∷ (codes "--bound=" ++ text) ∷ []) None }
    ensures ring { (text : List ℕ) → IsMeaning (codes "draw" ∷ (codes "--ring=" ++ text) ∷ []) None }
    ensures limit { (text : List ℕ) → IsMeaning (codes "draw" ∷ (codes "--limit=" ++ text) ∷ []) None }
    ensures seed { (text : List ℕ) → IsMeaning (codes "draw" ∷ (codes "--seed=" ++ text) ∷ []) None }
{}
