//! Laws about the definitions: each function does nothing, and its contract is the law.

ghost use Rattle.std.specs.Prelude.{◌≡◌, ◌↔◌, ◌++◌, ℕ, ◌≤◌, Bool, true, false, List, Some, None, slice_get};
ghost use Rattle.rs_derive.specs.Data.{Derivation_data};
ghost use Rattle.rs_documents.specs.Again.{document_by_labels, labels_of_text};
ghost use Rattle.rs_documents.specs.Canonical.{IsCanonicalDocument};
ghost use Rattle.rs_documents.specs.Data.{Document_data};
ghost use Rattle.rs_documents.specs.Documents.{SpellsDocument};
ghost use Rattle.rs_model.specs.Data.{Machine_data, Names_data, Protocol_data};
ghost use Rattle.rs_model.specs.declared.graph.Role.{Role};
ghost use Rattle.rs_project.specs.Data.{Projection_data};
ghost use Rattle.rs_search.specs.declared.faults.SearchFault.{SearchFault};
ghost use Rattle.rs_search.specs.declared.faults.SearchFault.TheVariants.{TooLarge};
ghost use Rattle.rs_documents.specs.Ready.{DocumentIsReady};
ghost use Rattle.rs_answers.specs.Checks.{Checks};
ghost use Rattle.rs_answers.specs.Derivations.{IsUnderivable};
ghost use Rattle.rs_answers.specs.Sessions.{HasMachines};
ghost use Rattle.rs_answers.specs.Improves.{Improves, SpellsVerified, swaps_line, with_own};
ghost use Rattle.rs_answers.specs.Migrates.{Migrates};
ghost use Rattle.rs_answers.specs.Verifying as verifying;
ghost use Rattle.rs_global.specs.Spells.{SpellsProtocol};
ghost use Rattle.rs_wellformed.specs.Faults.{first_fault};
ghost use Rattle.rs_wellformed.specs.declared.checks.WfFault.{WfFault};
ghost use Rattle.rs_answers.specs.SpeltFaults.{IsFaultOfSpeltProtocol};
ghost use Rattle.rs_answers.specs.Data.{Answer_data};
ghost use Rattle.rs_answers.specs.declared.verdicts.Verdict.TheVariants.{Fine};
ghost use Rattle.rs_model.specs.Limits.{IsBound};
ghost use Rattle.rs_improve.specs.Data.{Improved_data};
ghost use Rattle.rs_text.specs.Names.{place_of};

/// A protocol that a text spells has no other faults than a talk to itself, too many arms, and a label that stands twice at
/// a talk: each talk has arms and known roles, and each arm leads to a node.
pub fn faults_of_spelt_protocols()
    ensures { (bytes : List ℕ) (at : ℕ) (names : Names_data) (protocol : Protocol_data) (until : ℕ) (fault : WfFault) → SpellsProtocol bytes at names protocol until → first_fault protocol ≡ Some fault
        → IsFaultOfSpeltProtocol fault }
{}

/// Where `verify` blames nothing in a document, and no derivation exceeds the bound, `check` refuses no machine of it, unless
/// there are too many candidates.
pub fn what_verifies_is_found()
    ensures { (bound : ℕ) (bytes : List ℕ) (d : Document_data) (projections : List Projection_data) (machines : List Machine_data) → SpellsDocument bytes d → HasMachines d projections machines
        → verifying.first_blame 0 d.derivations machines projections ≡ None
        → ((p : ℕ) (own : Derivation_data) → slice_get d.derivations p ≡ Some (Some own) → own.bound ≤ bound)
        → (role : Role) (fault : SearchFault) → IsUnderivable bound machines projections role fault → fault ≡ TooLarge }
{}

/// What `check --derivations` prints of a document that was read spells a document, of which `verify` reports what `check`
/// reports of the first. Its labels may have other numbers. A text that is longer than a text may be isn't read again.
pub fn printed_derivations_are_verified()
    ensures { (bound : ℕ) (bytes : List ℕ) (d : Document_data) (printed told : Answer_data) → IsBound bound → SpellsDocument bytes d → DocumentIsReady d → Checks bound true d printed
        → Checks bound false d told → told.verdict ≡ Fine → (e : Document_data) × SpellsDocument printed.text e × verifying.Verifies e told }
{}

/// The answer of `migrate` to a document is fine if and only if that of `verify` is, and otherwise both answers are the same.
pub fn migrate_refuses_as_verify_does()
    ensures fine { (d : Document_data) (migrated told : Answer_data) → Migrates d migrated → verifying.Verifies d told → (migrated.verdict ≡ Fine) ↔ (told.verdict ≡ Fine) }
    ensures refused { (d : Document_data) (migrated told : Answer_data) → Migrates d migrated → verifying.Verifies d told → (told.verdict ≡ Fine → ⊥) → migrated ≡ told }
{}

/// What `migrate` prints of a document spells the same document with the same derivations, but for the numbers of labels. Of
/// the document that it spells, `verify` reports the same, and `migrate` prints the same text. A text that is longer than a text
/// may be isn't read again.
pub fn migrated_text_is_read_again()
    ensures same { (bytes : List ℕ) (d : Document_data) (printed : Answer_data) → SpellsDocument bytes d → Migrates d printed → printed.verdict ≡ Fine
        → (canonical : IsCanonicalDocument d printed.text) × SpellsDocument printed.text (document_by_labels d (labels_of_text d printed.text canonical)) }
    ensures verified { (bytes : List ℕ) (d : Document_data) (printed : Answer_data) → SpellsDocument bytes d → Migrates d printed → printed.verdict ≡ Fine
        → (e : Document_data) (told : Answer_data) → SpellsDocument printed.text e → verifying.Verifies d told → verifying.Verifies e told }
    ensures migrated { (bytes : List ℕ) (d : Document_data) (printed : Answer_data) → SpellsDocument bytes d → Migrates d printed → printed.verdict ≡ Fine
        → (e : Document_data) → SpellsDocument printed.text e → Migrates e printed }
{}

/// The answer of `improve` to a document that has the role is fine if and only if that of `check` to the document without the
/// role's own machine is, and else both answers are one.
pub fn improve_refuses_as_check_does()
    ensures fine { (role : List ℕ) (bound swaps place : ℕ) (derivations : Bool) (d : Document_data) (improved told : Answer_data) → place_of role d.names.roles ≡ Some place
        → Improves role bound swaps d improved → Checks bound derivations (with_own d place None) told → (improved.verdict ≡ Fine) ↔ (told.verdict ≡ Fine) }
    ensures refused { (role : List ℕ) (bound swaps place : ℕ) (derivations : Bool) (d : Document_data) (improved told : Answer_data) → place_of role d.names.roles ≡ Some place
        → Improves role bound swaps d improved → Checks bound derivations (with_own d place None) told → (told.verdict ≡ Fine → ⊥) → improved ≡ told }
{}

/// What `improve` prints of a document that was read is the line on the swaps, and after it a document that is verified: its
/// own derivations show that its machines may stand for their projections. The line is a comment: the whole text spells that
/// document.
pub fn improved_text_is_verified()
    ensures behind { (role : List ℕ) (bound swaps : ℕ) (bytes : List ℕ) (d : Document_data) (printed : Answer_data) → IsBound bound → SpellsDocument bytes d → Improves role bound swaps d printed
        → printed.verdict ≡ Fine → (improved : Improved_data) × (shown : List ℕ) × (printed.text ≡ swaps_line role improved ++ shown) × SpellsVerified shown }
    ensures whole { (role : List ℕ) (bound swaps : ℕ) (bytes : List ℕ) (d : Document_data) (printed : Answer_data) → IsBound bound → SpellsDocument bytes d → Improves role bound swaps d printed
        → printed.verdict ≡ Fine → SpellsVerified printed.text }
{}
