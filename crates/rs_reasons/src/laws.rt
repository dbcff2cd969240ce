//! Laws about the definitions: each function does nothing, and its contract is the law.

ghost use Rattle.std.specs.Prelude.{◌≡◌, ◌≢◌, ◌++◌, ◌≤◌, ℕ, List, [], Option, Some, false, slice_get};
ghost use Rattle.std.specs.List.{list_any};
ghost use Rattle.rs_answers.specs.Checks.{Checks};
ghost use Rattle.rs_answers.specs.Data.{Answer_data};
ghost use Rattle.rs_answers.specs.Derivations.{AreCanonical};
ghost use Rattle.rs_answers.specs.Sessions.{HasMachines};
ghost use Rattle.rs_derive.specs.Data.{Derivation_data};
ghost use Rattle.rs_derive.specs.Derivations.{IsDerivation, IsProper, Remembers};
ghost use Rattle.rs_documents.specs.Data.{Document_data};
ghost use Rattle.rs_documents.specs.Documents.{SpellsDocument};
ghost use Rattle.rs_model.specs.Data.{Machine_data};
ghost use Rattle.rs_model.specs.Limits.{IsBound};
ghost use Rattle.rs_model.specs.declared.graph.Arm.{Arm};
ghost use Rattle.rs_model.specs.declared.graph.Label.{Label};
ghost use Rattle.rs_model.specs.declared.graph.Role.{Role};
ghost use Rattle.rs_model.specs.declared.limits.TheConstants.{MOST_BOUND};
ghost use Rattle.rs_model.specs.declared.machines.State.TheVariants.{Takes};
ghost use Rattle.rs_places.specs.declared.places.Position.{Position};
ghost use Rattle.rs_project.specs.Data.{Projection_data};
ghost use Rattle.rs_reasons.specs.Accepted.{unused_arm};
ghost use Rattle.rs_reasons.specs.Brought.{NothingBrings};
ghost use Rattle.rs_reasons.specs.Explains.{Explains};
ghost use Rattle.rs_reasons.specs.Underivable.{TellsUnderivable, hopeless_line};
ghost use Rattle.rs_reasons.specs.Uses.{takes};
ghost use Rattle.rs_safety.specs.Accepting.{Accepted_data, IsAcceptedSession};
ghost use Rattle.rs_safety.specs.Room.{longest};
ghost use Rattle.rs_search.specs.Canonical.{IsCanonical, IsForgets, SearchRefuses};
ghost use Rattle.rs_search.specs.declared.faults.SearchFault.{SearchFault};
ghost use Rattle.rs_text.specs.NamePlaces.{name_at};
ghost use Rattle.rs_walk_texts.specs.Data.{WalkSource_data};

/// A document has one explanation: there is one, and no other. It says what `check` answers, and goes on with lines.
pub fn one_explanation_of_a_document()
    ensures some { (bound : ℕ) (bytes : List ℕ) (d : Document_data) → SpellsDocument bytes d → (a : Answer_data) × Explains bound bytes d a }
    ensures one { (bound : ℕ) (bytes : List ℕ) (d : Document_data) (a b : Answer_data) → SpellsDocument bytes d → Explains bound bytes d a → Explains bound bytes d b → a ≡ b }
    ensures as_check { (bound : ℕ) (bytes : List ℕ) (d : Document_data) (a : Answer_data) → Explains bound bytes d a
        → (checked : Answer_data) × (lines : List ℕ) × Checks bound false d checked × (a.verdict ≡ checked.verdict) × (a.text ≡ checked.text ++ lines) }
{}

/// Where the search within the greatest bound finds a derivation, the most acts that one of its nodes owes are the least
/// bound within which the search finds one.
pub fn the_least_bound_is_told()
    ensures enough { (sub above : Machine_data) (d : Derivation_data) → IsProper sub → IsProper above → IsCanonical sub above MOST_BOUND d
        → (e : Derivation_data) × IsCanonical sub above (longest d) e }
    ensures least { (sub above : Machine_data) (bound : ℕ) (d e : Derivation_data) → IsProper sub → IsProper above → IsCanonical sub above MOST_BOUND d
        → bound ≤ MOST_BOUND → IsCanonical sub above bound e → longest d ≤ bound }
{}

/// Where the search within a bound finds one that forgets an act no bound helps: each derivation forgets, of whatever bound.
pub fn no_bound_helps_where_one_forgets()
    ensures { (sub above : Machine_data) (bound node : ℕ) (d : Derivation_data) → IsProper sub → IsProper above → IsForgets sub above bound node
        → IsDerivation d sub above → Remembers d sub above → ⊥ }
{}

/// Where the last line is `no bound helps`, no derivation of the machine remembers what it owes, of whatever bound.
pub fn no_bound_helps_where_it_is_told()
    ensures { (source : WalkSource_data) (bound : ℕ) (fault : SearchFault) (lines before : List ℕ) (d : Derivation_data) → IsProper source.machine → IsProper source.projection.machine
        → SearchRefuses source.machine source.projection.machine bound fault → TellsUnderivable source bound fault lines → lines ≡ before ++ hopeless_line
        → IsDerivation d source.machine source.projection.machine → Remembers d source.machine source.projection.machine → ⊥ }
{}

/// If no node of a role's derivation takes a label at a state that receives, nothing brings the role that label there: in no
/// configuration that the machines can reach, over unbounded queues, is the role in that state while the oldest message from
/// the state's peer has the label. This is what the line `nothing brings` says of an arm (clause `told`).
pub fn nothing_brings_what_no_node_takes()
    ensures accepted { (session : Accepted_data) (p state : ℕ) (machine : Machine_data) (derivation : Derivation_data) (peer : Role) (arms : List Arm) (label : Label) → IsAcceptedSession session
        → slice_get session.machines p ≡ Some machine → slice_get session.derivations p ≡ Some derivation → slice_get machine.states state ≡ Some (Takes peer arms)
        → list_any (takes state peer label) derivation.nodes ≡ false → NothingBrings session.machines p state peer label }
    ensures told { (bound : ℕ) (bytes : List ℕ) (d : Document_data) (projections : List Projection_data) (machines : List Machine_data) (derivations : List Derivation_data) (p state : ℕ)
        (machine : Machine_data) (derivation : Derivation_data) (peer : Role) (arms : List Arm) (arm : Arm) (at : Option Position) → IsBound bound → SpellsDocument bytes d
        → HasMachines d projections machines → AreCanonical bound machines projections derivations → slice_get machines p ≡ Some machine → slice_get derivations p ≡ Some derivation
        → slice_get machine.states state ≡ Some (Takes peer arms) → unused_arm d.names (name_at d.names.roles p) derivation.nodes state at peer arm ≢ []
        → NothingBrings machines p state peer arm.label }
{}
