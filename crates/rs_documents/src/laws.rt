//! Laws about the definitions: each function does nothing, and its contract is the law.

ghost use Rattle.std.specs.Prelude.{◌≡◌, ◌⊎◌, ◌++◌, ℕ, List, Option};
ghost use Rattle.rs_documents.specs.Again.{CanBeReadAgain, HasAllLabels, HasLabel, HasLabelBehind, document_by_labels, labels_of_text, number_among};
ghost use Rattle.rs_documents.specs.Canonical.{CanBeShown, IsCanonicalDocument};
ghost use Rattle.rs_documents.specs.Data.{Document_data};
ghost use Rattle.rs_documents.specs.Documents.{FirstFault, SpellsDocument};
ghost use Rattle.rs_documents.specs.Spells.{SpellsMachines};
ghost use Rattle.rs_model.specs.Data.{Machine_data, Protocol_data};
ghost use Rattle.rs_text.specs.NamePlaces.{name_at};
ghost use Rattle.rs_text.specs.Tokens.{Gap, IsGap, gap_bytes};
ghost use Rattle.rs_text.specs.declared.faults.TextKind.{TextKind};

/// A text spells one document at most.
pub fn text_spells_one_document()
    ensures { (bytes : List ℕ) (d e : Document_data) → SpellsDocument bytes d → SpellsDocument bytes e → d ≡ e }
{}

/// It has one first fault at most.
pub fn text_has_one_first_fault()
    ensures { (bytes : List ℕ) (kind other : TextKind) (at place : ℕ) → FirstFault bytes kind at → FirstFault bytes other place → (kind ≡ other) × (at ≡ place) }
{}

/// A text spells a document or has a first fault.
pub fn text_is_spelt_or_has_a_fault()
    ensures { (bytes : List ℕ) → ((d : Document_data) × SpellsDocument bytes d) ⊎ ((kind : TextKind) × (at : ℕ) × FirstFault bytes kind at) }
{}

/// A text that spells a document has no first fault.
pub fn spelt_text_has_no_fault()
    ensures { (bytes : List ℕ) (d : Document_data) (kind : TextKind) (at : ℕ) → SpellsDocument bytes d → FirstFault bytes kind at → ⊥ }
{}

/// What a text spells as a document it spells as a protocol and machines, which is said without derivations.
pub fn document_has_the_machines_of_its_text()
    ensures { (bytes : List ℕ) (d : Document_data) → SpellsDocument bytes d → SpellsMachines bytes d.protocol d.machines }
{}

/// A text spells one protocol and one list of machines at most.
pub fn text_spells_one_list_of_machines()
    ensures { (bytes : List ℕ) (protocol other : Protocol_data) (machines others : List (Option Machine_data)) → SpellsMachines bytes protocol machines → SpellsMachines bytes other others
        → (protocol ≡ other) × (machines ≡ others) }
{}

/// What can be shown has a canonical text.
pub fn canonical_text_is_there()
    ensures { (d : Document_data) → CanBeShown d → (text : List ℕ) × IsCanonicalDocument d text }
{}

/// What can be shown has one canonical text only.
pub fn canonical_text_is_one()
    ensures { (d : Document_data) (text other : List ℕ) → CanBeShown d → IsCanonicalDocument d text → IsCanonicalDocument d other → text ≡ other }
{}

/// A document that a text spells can be read again from its canonical text.
pub fn spelt_documents_can_be_read_again()
    ensures { (bytes : List ℕ) (d : Document_data) → SpellsDocument bytes d → CanBeReadAgain d }
{}

/// The canonical text of what can be read again spells the document, with its labels in the order of their first places.
pub fn canonical_text_is_read_again()
    ensures { (d : Document_data) (text : List ℕ) → CanBeReadAgain d → (canonical : IsCanonicalDocument d text) → SpellsDocument text (document_by_labels d (labels_of_text d text canonical)) }
{}

/// Each label of a document that is read again has the name that it had: the protocol's by their old numbers, those of
/// machines and derivations by their new ones.
pub fn labels_keep_their_names()
    ensures protocol { (d : Document_data) (text : List ℕ) (k : ℕ) → CanBeReadAgain d → (canonical : IsCanonicalDocument d text) → HasLabel d.protocol k
        → name_at (labels_of_text d text canonical) k ≡ name_at d.names.labels k }
    ensures behind { (d : Document_data) (text : List ℕ) (k : ℕ) → CanBeReadAgain d → (canonical : IsCanonicalDocument d text) → HasLabelBehind d k
        → name_at (labels_of_text d text canonical) (number_among d.names.labels (labels_of_text d text canonical) k) ≡ name_at d.names.labels k }
{}

/// What the canonical text spells has this same canonical text.
pub fn canonical_text_is_printed_as_itself()
    ensures { (d e : Document_data) (text : List ℕ) → CanBeReadAgain d → IsCanonicalDocument d text → SpellsDocument text e → IsCanonicalDocument e text }
{}

/// Where the labels of the document stand in that order already, its canonical text spells just this document.
pub fn labels_in_order_keep_their_numbers()
    ensures { (d : Document_data) (text : List ℕ) → CanBeReadAgain d → (canonical : IsCanonicalDocument d text) → d.names.labels ≡ labels_of_text d text canonical → SpellsDocument text d }
{}

/// Where machines and derivations have no labels but the protocol's, the canonical text spells just this document.
pub fn labels_of_the_protocol_keep_their_numbers()
    ensures { (d : Document_data) (text : List ℕ) → CanBeReadAgain d → HasAllLabels d.names d.protocol → IsCanonicalDocument d text → SpellsDocument text d }
{}

/// A document has its own labels: with these nothing is renumbered.
pub fn own_labels_renumber_nothing()
    ensures { (d : Document_data) → CanBeReadAgain d → document_by_labels d d.names.labels ≡ d }
{}

/// Blanks and comments in front of a text change nothing of what it spells.
pub fn gaps_in_front_change_nothing()
    ensures { (gap : Gap) (bytes : List ℕ) (d : Document_data) → IsGap gap bytes → SpellsDocument bytes d → SpellsDocument (gap_bytes gap ++ bytes) d }
{}
