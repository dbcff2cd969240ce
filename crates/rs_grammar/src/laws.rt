//! What the definitions say together, for any grammar that passes its tests. The functions do nothing: each states a law.

ghost use Rattle.std.specs.Prelude.{◌≡◌, ◌≤◌, ◌⊎◌, ℕ, List, length, true};
ghost use Rattle.rs_grammar.specs.Building.{Building};
ghost use Rattle.rs_grammar.specs.Grammar.{Grammar, whole};
ghost use Rattle.rs_grammar.specs.Readings.{IsReadAs, fault_rule};
ghost use Rattle.rs_grammar.specs.Tests.{is_readable};
ghost use Rattle.rs_grammar.specs.Trees.{SpellsAs, Trees};
ghost use Rattle.rs_text.specs.FirstFaults.{FirstFaultBy};
ghost use Rattle.rs_text.specs.Signs.{Sign};
ghost use Rattle.rs_text.specs.declared.faults.TextKind.{TextKind};

/// Tokens have one derivation tree at most.
pub fn tokens_have_one_tree()
    ensures { (g : Grammar) (signs : List Sign) (one other : Trees) → is_readable g ≡ true → SpellsAs g whole signs one → SpellsAs g whole signs other → one ≡ other }
{}

/// A text is read as one value at most, up to one offset.
pub fn text_is_read_as_one_value<S>()
    ensures { (g : Grammar) (take : Building S) (s v w : S) (bytes : List ℕ) (at until stop : ℕ) → is_readable g ≡ true → IsReadAs g take s bytes at v until
        → IsReadAs g take s bytes at w stop → (v ≡ w) × (until ≡ stop) }
{}

/// A text has one first fault at most.
pub fn text_has_one_first_fault<S>()
    ensures { (g : Grammar) (take : Building S) (s : S) (bytes : List ℕ) (at : ℕ) (kind other : TextKind) (offset stop : ℕ) → is_readable g ≡ true
        → FirstFaultBy (fault_rule g take s) bytes at kind offset → FirstFaultBy (fault_rule g take s) bytes at other stop → (kind ≡ other) × (offset ≡ stop) }
{}

/// A text is read or has a first fault.
pub fn text_is_read_or_has_a_fault<S>()
    ensures { (g : Grammar) (take : Building S) (s : S) (bytes : List ℕ) (at : ℕ) → is_readable g ≡ true → at ≤ length bytes
        → ((v : S) × (until : ℕ) × IsReadAs g take s bytes at v until) ⊎ ((kind : TextKind) × (offset : ℕ) × FirstFaultBy (fault_rule g take s) bytes at kind offset) }
{}

/// A text that is read has no first fault.
pub fn read_text_has_no_fault<S>()
    ensures { (g : Grammar) (take : Building S) (s v : S) (bytes : List ℕ) (at until : ℕ) (kind : TextKind) (offset : ℕ) → is_readable g ≡ true → IsReadAs g take s bytes at v until
        → FirstFaultBy (fault_rule g take s) bytes at kind offset → ⊥ }
{}
