//! Laws about the definitions: each function does nothing, and its contract is the law.

ghost use Rattle.std.specs.Prelude.{◌≡◌, ◌≤◌, ℕ, List, false, length, true};
ghost use Rattle.rs_answers.specs.Data.{Answer_data};
ghost use Rattle.rs_answers.specs.Verifying.{Verifies};
ghost use Rattle.rs_answers.specs.declared.accepting.AcceptedDocument.{AcceptedDocument};
ghost use Rattle.rs_documents.specs.Data.{Document_data};
ghost use Rattle.rs_documents.specs.Documents.{SpellsDocument};
ghost use Rattle.rs_endpoints.specs.Endpoints.{Endpoint_data, HasArmFor};
ghost use Rattle.rs_held.specs.Endpoints.{CopySendTells, HasSentOne, IsNoSend, SendTells, numbered};
ghost use Rattle.rs_held.specs.Refusals.{IsExplained, Tests};
ghost use Rattle.rs_model.specs.declared.limits.TheConstants.{MOST_BYTES};
ghost use Rattle.rs_model.specs.declared.values.Value.{Value};
ghost use Rattle.rs_numbered.specs.declared.statuses.CallStatus.TheVariants.{Fine, NotNow};
ghost use Rattle.rs_open.specs.Opening.{IsCertifiedText};
ghost use Rattle.rs_reasons.specs.Explains.{Explains};

/// A value that is sent, and so a copy of one, is one act more of the role, by an arm with the label.
pub fn each_send_is_one_act()
    ensures values { (old new : Endpoint_data) (label : ℕ) (v : Value) → SendTells old label v new Fine → (place : ℕ) × HasArmFor old place (numbered label) × HasSentOne old place v new }
    ensures copies { (old new : Endpoint_data) (label : ℕ) (v : Value) → CopySendTells old label v new Fine → (place : ℕ) × HasArmFor old place (numbered label) × HasSentOne old place v new }
{}

/// A copy isn't sent now only if the role may not send its value.
pub fn copies_wait_as_values_do()
    ensures { (old new : Endpoint_data) (label : ℕ) (v : Value) → CopySendTells old label v new NotNow → IsNoSend old label v }
{}

/// No text is both opened and refused.
pub fn explained_texts_are_not_opened()
    ensures { (bound : ℕ) (bytes : List ℕ) (opened : AcceptedDocument) (answer : Answer_data) → IsCertifiedText bound bytes opened → IsExplained bound bytes answer → ⊥ }
{}

/// What is answered to a refused text that spells a document, and isn't too long, is what the program answers to the document: to
/// `verify` if the document's own derivations decide, and otherwise to `explain`.
pub fn refused_texts_have_the_answer_of_a_word()
    ensures verified { (bound : ℕ) (bytes : List ℕ) (d : Document_data) (answer : Answer_data) → length bytes ≤ MOST_BYTES → SpellsDocument bytes d → Tests d true → IsExplained bound bytes answer → Verifies d answer }
    ensures explained { (bound : ℕ) (bytes : List ℕ) (d : Document_data) (answer : Answer_data) → length bytes ≤ MOST_BYTES → SpellsDocument bytes d → Tests d false → IsExplained bound bytes answer → Explains bound bytes d answer }
{}
