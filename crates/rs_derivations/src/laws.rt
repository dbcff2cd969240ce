//! What the definitions of derivation texts say together. The functions do nothing: each states a law.

ghost use Rattle.std.specs.Prelude.{◌≡◌, ◌≤◌, ◌⊎◌, ◌+◌, ◌++◌, ◌∷◌, [], ℕ, List, drop, false, length, map, take};
ghost use Rattle.rs_model.specs.Data.{Names_data};
ghost use Rattle.rs_model.specs.declared.limits.TheConstants.{MOST_LABELS};
ghost use Rattle.rs_model.specs.declared.machines.Act.{Act};
ghost use Rattle.rs_derive.specs.Data.{Derivation_data};
ghost use Rattle.rs_text.specs.declared.faults.TextKind.{TextKind};
ghost use Rattle.rs_text.specs.Lexing.{next_lexeme};
ghost use Rattle.rs_text.specs.Sound.{IsSound};
ghost use Rattle.rs_derivations.specs.Canonical.{canonical_text, tree_of};
ghost use Rattle.rs_derivations.specs.Derivations.{derivation_of, names_of};
ghost use Rattle.rs_derivations.specs.Faults.{FirstFault};
ghost use Rattle.rs_derivations.specs.Numbers.{AreSmall};
ghost use Rattle.rs_derivations.specs.PendingLists.{AllNew, is_one_of, lists_of};
ghost use Rattle.rs_derivations.specs.Printable.{IsPrintable};
ghost use Rattle.rs_derivations.specs.Spells.{SpellsDerivation};

/// A text spells one derivation at most, with one list of names and one offset after it.
pub fn text_spells_one_derivation()
    ensures { (old new other : Names_data) (bytes : List ℕ) (at until stop : ℕ) (d e : Derivation_data) → SpellsDerivation bytes at old new d until → SpellsDerivation bytes at old other e stop
        → (new ≡ other) × (d ≡ e) × (until ≡ stop) }
{}

/// It has one first fault at most.
pub fn text_has_one_first_fault()
    ensures { (old : Names_data) → length old.labels ≤ MOST_LABELS → (bytes : List ℕ) (at : ℕ) (kind other : TextKind) (offset stop : ℕ) → FirstFault old bytes at kind offset
        → FirstFault old bytes at other stop → (kind ≡ other) × (offset ≡ stop) }
{}

/// A text spells a derivation or has a first fault.
pub fn text_is_spelt_or_has_a_fault()
    ensures { (old : Names_data) (bytes : List ℕ) (at : ℕ) → length old.labels ≤ MOST_LABELS → at ≤ length bytes
        → ((new : Names_data) × (d : Derivation_data) × (until : ℕ) × SpellsDerivation bytes at old new d until) ⊎ ((kind : TextKind) × (offset : ℕ) × FirstFault old bytes at kind offset) }
{}

/// A text that spells a derivation has no first fault.
pub fn spelt_text_has_no_fault()
    ensures { (old new : Names_data) (bytes : List ℕ) (at until : ℕ) (d : Derivation_data) (kind : TextKind) (offset : ℕ) → length old.labels ≤ MOST_LABELS → SpellsDerivation bytes at old new d until
        → FirstFault old bytes at kind offset → ⊥ }
{}

/// What a text spells can be printed: its roles and labels have names, and it is within all limits.
pub fn spelt_derivations_are_printable()
    ensures { (old new : Names_data) (bytes : List ℕ) (at until : ℕ) (d : Derivation_data) → SpellsDerivation bytes at old new d until → IsPrintable new d }
{}

/// The canonical text of a derivation, wherever it stands, spells the derivation, where its labels bring the names that
/// were there to those that it is printed with.
pub fn canonical_text_is_read_again()
    ensures { (old names : Names_data) (d : Derivation_data) (bytes : List ℕ) (at : ℕ) (rest : List ℕ) → IsSound names → IsPrintable names d → AreSmall d → length names.labels ≤ MOST_LABELS
        → names_of old (tree_of names d) ≡ names → drop at bytes ≡ canonical_text names d ++ rest
        → SpellsDerivation bytes at old names d (next_lexeme bytes (at + length (canonical_text names d))).from }
{}

/// The canonical text has no labels but those of the names.
pub fn canonical_text_has_no_new_labels()
    ensures { (names : Names_data) (d : Derivation_data) → IsSound names → IsPrintable names d → names_of names (tree_of names d) ≡ names }
{}

/// With any older names that have its roles the canonical text spells the derivation too, but for the numbers of labels:
/// each label has the number that its name gets.
pub fn canonical_text_is_read_with_older_names()
    ensures { (old names : Names_data) (d : Derivation_data) (bytes : List ℕ) (at : ℕ) (rest : List ℕ) → IsSound names → IsPrintable names d → AreSmall d → old.roles ≡ names.roles
        → length (names_of old (tree_of names d)).labels ≤ MOST_LABELS → drop at bytes ≡ canonical_text names d ++ rest
        → SpellsDerivation bytes at old (names_of old (tree_of names d)) (derivation_of (names_of old (tree_of names d)) (tree_of names d))
        (next_lexeme bytes (at + length (canonical_text names d))).from }
{}

/// The lists of format 2 are the different lists of pending acts that the nodes have, without the empty one, in order of first
/// use: those of some first nodes are the first ones.
pub fn lists_are_in_order_of_first_use()
    ensures used { (d : Derivation_data) (act : Act) (later : List Act) → is_one_of (lists_of d) (act ∷ later) ≡ is_one_of (map (λ n. n.pending) d.nodes) (act ∷ later) }
    ensures none_empty { (d : Derivation_data) → is_one_of (lists_of d) [] ≡ false }
    ensures once { (d : Derivation_data) → AllNew [] (lists_of d) }
    ensures order { (d : Derivation_data) (n : ℕ) → (later : List (List Act)) × (lists_of d ≡ lists_of (record d { nodes = take n d.nodes }) ++ later) }
{}

/// The canonical tree spells the derivation, with the names that it is printed with.
pub fn canonical_tree_spells_the_derivation()
    ensures { (names : Names_data) (d : Derivation_data) → IsSound names → IsPrintable names d → derivation_of names (tree_of names d) ≡ d }
{}

/// What a text of either format spells is spelt by its canonical text too, with no new names.
pub fn spelt_derivations_are_spelt_canonically()
    ensures { (old names : Names_data) (bytes : List ℕ) (at until : ℕ) (d : Derivation_data) → SpellsDerivation bytes at old names d until → IsSound names → AreSmall d
        → SpellsDerivation (canonical_text names d) 0 names names d (next_lexeme (canonical_text names d) (length (canonical_text names d))).from }
{}

/// What is read from a canonical text is printed as it.
pub fn canonical_text_is_printed_again()
    ensures { (names new : Names_data) (d e : Derivation_data) (until : ℕ) → IsSound names → IsPrintable names d → AreSmall d → length names.labels ≤ MOST_LABELS
        → SpellsDerivation (canonical_text names d) 0 names new e until → canonical_text new e ≡ canonical_text names d }
{}
