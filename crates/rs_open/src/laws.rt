//! Laws about the definitions: each function does nothing, and its contract is the law.

ghost use Rattle.std.specs.Prelude.{◌≤◌, ℕ, List, false, length};
ghost use Rattle.rs_answers.specs.Checks.{Checks};
ghost use Rattle.rs_answers.specs.Data.{Answer_data};
ghost use Rattle.rs_answers.specs.declared.accepting.AcceptedDocument.{AcceptedDocument};
ghost use Rattle.rs_documents.specs.Data.{Document_data};
ghost use Rattle.rs_documents.specs.Documents.{SpellsDocument};
ghost use Rattle.rs_model.specs.declared.limits.TheConstants.{MOST_BYTES};
ghost use Rattle.rs_answers.specs.Verifying.{Verifies};
ghost use Rattle.rs_open.specs.Opening.{IsOpenedText, IsRefusedText, IsUnverifiedText, IsVerifiedText};

/// No text is both opened and refused within a bound.
pub fn opened_texts_are_not_refused()
    ensures { (bound : ℕ) (bytes : List ℕ) (opened : AcceptedDocument) (answer : Answer_data) → IsOpenedText bound bytes opened → IsRefusedText bound bytes answer → ⊥ }
{}

/// What is answered to a refused text that spells a document, and isn't too long, is the answer of `check` to the document.
pub fn refused_texts_have_the_answer_of_check()
    ensures { (bound : ℕ) (bytes : List ℕ) (d : Document_data) (answer : Answer_data) → length bytes ≤ MOST_BYTES → SpellsDocument bytes d → IsRefusedText bound bytes answer → Checks bound false d answer }
{}

/// No text is both opened by its own derivations and refused by them.
pub fn verified_texts_are_not_refused()
    ensures { (bytes : List ℕ) (opened : AcceptedDocument) (answer : Answer_data) → IsVerifiedText bytes opened → IsUnverifiedText bytes answer → ⊥ }
{}

/// What is answered to a text that its own derivations refuse, that spells a document and isn't too long, is the answer of `verify`
/// to the document.
pub fn unverified_texts_have_the_answer_of_verify()
    ensures { (bytes : List ℕ) (d : Document_data) (answer : Answer_data) → length bytes ≤ MOST_BYTES → SpellsDocument bytes d → IsUnverifiedText bytes answer → Verifies d answer }
{}
