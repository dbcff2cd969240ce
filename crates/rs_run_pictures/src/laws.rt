//! What the definitions of the pictures of runs say together. The functions do nothing: each states a law.

ghost use Rattle.std.specs.Prelude.{◌≡◌, ℕ, List, Some, length, slice_get};
ghost use Rattle.rs_model.specs.Data.{Machine_data};
ghost use Rattle.rs_model.specs.declared.runs.RunOptions.{RunOptions};
ghost use Rattle.rs_core.specs.Choices.{AreWellFormed};
ghost use Rattle.rs_core.specs.Draws.{by_draws};
ghost use Rattle.rs_core.specs.Plain.{Ending, IsPlain};
ghost use Rattle.rs_core.specs.Runs.{HasTranscripts, last_moment};
ghost use Rattle.rs_core.specs.declared.transcripts.Entry.{Entry};
ghost use Rattle.rs_documents.specs.Data.{Document_data};
ghost use Rattle.rs_documents.specs.Documents.{SpellsDocument};
ghost use Rattle.rs_answers.specs.Data.{Answer_data};
ghost use Rattle.rs_runs.specs.Runs.{Runs};
ghost use Rattle.rs_run_pictures.specs.Acts.{acts_from, acts_of};
ghost use Rattle.rs_run_pictures.specs.Draws.{DrawsRun};
ghost use Rattle.rs_run_pictures.specs.Rounds.{acts_by, acts_in_rounds};

/// A document has one picture of its run with these options, or one answer that refuses it.
pub fn run_picture_is_one()
    ensures { (options : RunOptions) (bytes : List ℕ) (d : Document_data) (one other : Answer_data) → SpellsDocument bytes d → DrawsRun options d one → DrawsRun options d other → one ≡ other }
{}

/// The verdict is that of `run` by one worker with the same options: whether the document is refused, and otherwise whether all
/// roles end, a role meets the limit, or no role can act.
pub fn verdict_is_that_of_run()
    ensures { (options : RunOptions) (bytes : List ℕ) (d : Document_data) (drawn told : Answer_data) → SpellsDocument bytes d → DrawsRun options d drawn → Runs options d told
        → drawn.verdict ≡ told.verdict }
{}

/// The acts that are drawn of a role are those of its transcript, all of them and in order, each with the sort that the role's
/// machine gives it.
pub fn drawn_acts_are_the_transcripts()
    ensures { (machines : List Machine_data) (actors : ℕ → ℕ) (limit capacity : ℕ) (ending : Ending ℕ) (transcripts : List (List Entry)) (place : ℕ) (machine : Machine_data) (transcript : List Entry)
        → AreWellFormed machines → IsPlain machines by_draws actors limit (Some capacity) ending → HasTranscripts (length machines) (last_moment ending).history transcripts
        → slice_get machines place ≡ Some machine → slice_get transcripts place ≡ Some transcript
        → acts_by place (acts_in_rounds capacity (acts_of machines transcripts)) ≡ acts_from machine machine.start transcript }
{}
