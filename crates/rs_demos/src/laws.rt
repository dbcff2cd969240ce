//! Laws about the definitions: each function does nothing, and its contract is the law.

ghost use Rattle.std.specs.Prelude.{◌≡◌, ◌⊎◌, ◌<◌, ◌≤◌, ℕ, ℤ, List, Option, Some, false, length, slice_get, true};
ghost use Rattle.rs_model.specs.Data.{Machine_data};
ghost use Rattle.rs_model.specs.declared.limits.TheConstants.{MOST_BYTES};
ghost use Rattle.rs_model.specs.declared.demos.Demo.{Demo};
ghost use Rattle.rs_project.specs.Numbered.{IsNumberedProjection};
ghost use Rattle.rs_core.specs.Plain.{Ended, Ending, IsPlain, Moment, Stopped};
ghost use Rattle.rs_core.specs.Runs.{HasActors, IsGiven, last_moment};
ghost use Rattle.rs_documents.specs.Canonical.{CanBeShown};
ghost use Rattle.rs_documents.specs.Data.{Document_data};
ghost use Rattle.rs_documents.specs.Documents.{SpellsDocument};
ghost use Rattle.rs_demos.specs.Acting.{by_demo};
ghost use Rattle.rs_demos.specs.Numbers.{SpellsNumbers};
ghost use Rattle.rs_demos.specs.Outputs.{output_of};
ghost use Rattle.rs_demos.specs.Results.{Computes};
ghost use Rattle.rs_demos.specs.Sessions.{demo_machines, demo_protocol, has_line, has_session};
ghost use Rattle.rs_demos.specs.Starts.{HasNoNumbers, StartsWithActors};
ghost use Rattle.rs_demos.specs.Texts.{IsDemoText, document_of};
ghost use Rattle.rs_demos.specs.declared.actors.DemoTalker.{DemoTalker};

/// Bytes spell one list of numbers at most.
pub fn bytes_spell_one_list_of_numbers()
    ensures { (xs ys : List ℤ) (bytes : List ℕ) → SpellsNumbers xs bytes → SpellsNumbers ys bytes → xs ≡ ys }
{}

/// A demo has actors for the bytes, or these aren't the numbers that it asks for.
pub fn demos_have_actors_or_no_numbers()
    ensures { (kind : Demo) (bytes : List ℕ) → ((actors : List DemoTalker) × StartsWithActors kind bytes actors) ⊎ HasNoNumbers kind bytes }
{}

/// No demo has actors for bytes that aren't the numbers that it asks for.
pub fn demos_with_actors_have_numbers()
    ensures { (kind : Demo) (bytes : List ℕ) (actors : List DemoTalker) → StartsWithActors kind bytes actors → HasNoNumbers kind bytes → ⊥ }
{}

/// The actors that a demo has for the bytes are one list.
pub fn demos_start_in_one_way()
    ensures { (kind : Demo) (bytes : List ℕ) (actors others : List DemoTalker) → StartsWithActors kind bytes actors → StartsWithActors kind bytes others → actors ≡ others }
{}

/// Where the plain run of a demo's machines with the actors of the bytes has ended, over queues of any capacity or of
/// none and with any limit, what is printed of the actors that it leaves is what the demo computes of the bytes.
pub fn ended_runs_compute()
    ensures { (kind : Demo) (bytes : List ℕ) (actors after : List DemoTalker) (given : ℕ → DemoTalker) (limit : ℕ) (capacity : Option ℕ) (end : Moment DemoTalker) → StartsWithActors kind bytes actors
        → IsGiven given actors → IsPlain (demo_machines kind (length actors)) by_demo given limit capacity (Ended end) → HasActors (length actors) end.actor after
        → Computes kind bytes (output_of kind after) }
{}

/// No role of a demo makes 4,096 acts, wherever the plain run of a demo's machines with the actors of the bytes ends, over
/// queues of any capacity or of none. So a role is stopped only at a lower limit.
pub fn demos_are_stopped_at_low_limits_alone()
    ensures acts { (kind : Demo) (bytes : List ℕ) (actors : List DemoTalker) (given : ℕ → DemoTalker) (limit : ℕ) (capacity : Option ℕ) (end : Ending DemoTalker) (role : ℕ) → length bytes ≤ MOST_BYTES
        → StartsWithActors kind bytes actors → IsGiven given actors → IsPlain (demo_machines kind (length actors)) by_demo given limit capacity end
        → role < length (demo_machines kind (length actors)) → length ((last_moment end).history role) < 4096 }
    ensures limit { (kind : Demo) (bytes : List ℕ) (actors : List DemoTalker) (given : ℕ → DemoTalker) (limit : ℕ) (capacity : Option ℕ) (role : ℕ) (end : Moment DemoTalker) → length bytes ≤ MOST_BYTES
        → StartsWithActors kind bytes actors → IsGiven given actors → IsPlain (demo_machines kind (length actors)) by_demo given limit capacity (Stopped role end) → limit < 4096 }
{}

/// The machines that have no line in a demo's text are the projections of its protocol.
pub fn machines_without_a_line_are_projections()
    ensures { (kind : Demo) (count role : ℕ) (machine : Machine_data) → has_session kind count ≡ true → slice_get (demo_machines kind count) role ≡ Some machine → has_line kind role ≡ false
        → (sets : List (List ℕ)) × IsNumberedProjection (demo_protocol kind count) (record { 0 = role }) (record { machine = machine; sets = sets }) }
{}

/// The document of a demo can be printed, so its texts are read again: its names are sound, and its protocol and its
/// machines are read from some texts.
pub fn documents_of_demos_can_be_printed()
    ensures { (kind : Demo) (count : ℕ) → has_session kind count ≡ true → CanBeShown (document_of kind count) }
{}

/// The text of a demo's document spells this document: the demo's protocol, and the machines that have a line.
pub fn texts_of_demos_spell_their_documents()
    ensures { (kind : Demo) (count : ℕ) (text : List ℕ) → has_session kind count ≡ true → IsDemoText kind count text → SpellsDocument text (document_of kind count) }
{}
