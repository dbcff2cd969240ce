//! What printed machines say. The functions do nothing: each states a law.

ghost use Rattle.std.specs.Prelude.{◌≡◌, ◌≤◌, ◌+◌, ◌++◌, ℕ, List, drop, length, true};
ghost use Rattle.rs_model.specs.Data.{Machine_data, Names_data};
ghost use Rattle.rs_model.specs.declared.limits.TheConstants.{MOST_ACTS, MOST_LABELS, MOST_ROLES};
ghost use Rattle.rs_text.specs.Lexing.{next_lexeme};
ghost use Rattle.rs_text.specs.Words.{is_role_word};
ghost use Rattle.rs_text.specs.Writing.{IsWritten};
ghost use Rattle.rs_machines.specs.Canonical.{IsMachineTextShaped};
ghost use Rattle.rs_machines.specs.Enough.{AreEnoughFor};
ghost use Rattle.rs_machines.specs.Kinds.{names_of};
ghost use Rattle.rs_machines.specs.Machines.{machine_of_tree};
ghost use Rattle.rs_machines.specs.Trees.{Fits, MachineTree, machine_signs};
ghost use Rattle.rs_machines.specs.Spells.{SpellsMachine};
ghost use Rattle.rs_machines.specs.Texts.{machine_text};
ghost use Rattle.rs_bodies.specs.declared.dialects.Dialect.TheVariants.{Acts};
ghost use Rattle.rs_bodies.specs.Places.{name_of_place};
ghost use Rattle.rs_bodies.specs.Trees.{ends_a_name, ends_by_name};
ghost use Rattle.rs_machines.specs.Writable.{AreWords};

/// The text of a tree is written for its tokens, whatever stands behind it.
pub fn text_of_a_tree_is_written()
    ensures { (tree : MachineTree) (behind : List ℕ) → AreWords tree → IsWritten (machine_signs tree) (machine_text tree) behind }
{}

/// Where the text of a tree stands, the tree is spelt, as far as the next token. That is no mark and not faulty, where a
/// recursion name ends the tree.
pub fn text_of_a_tree_spells_it()
    ensures { (bytes : List ℕ) (at : ℕ) (old : Names_data) (tree : MachineTree) (behind : List ℕ) → AreWords tree → Fits old tree → drop at bytes ≡ machine_text tree ++ behind
        → (ends_by_name Acts tree.body ≡ true → ends_a_name Acts (next_lexeme bytes (at + length (machine_text tree))).sign ≡ true)
        → SpellsMachine bytes at old (names_of old tree) (machine_of_tree old tree) (next_lexeme bytes (at + length (machine_text tree))).from }
{}

/// A text that is the tree's alone spells it as far as its end.
pub fn lone_text_of_a_tree_spells_it()
    ensures { (old : Names_data) (tree : MachineTree) → AreWords tree → Fits old tree
        → SpellsMachine (machine_text tree) 0 old (names_of old tree) (machine_of_tree old tree) (length (machine_text tree)) }
{}

/// The name of a state can be a recursion name.
pub fn state_name_is_a_word()
    ensures { (n : ℕ) → n ≤ MOST_ACTS → is_role_word (name_of_place n) ≡ true }
{}

/// A machine that a text spells with 16 roles and 256 labels at most is text-shaped.
pub fn spelt_machine_is_text_shaped()
    ensures { (bytes : List ℕ) (at : ℕ) (old new : Names_data) (machine : Machine_data) (until : ℕ) → length old.roles ≤ MOST_ROLES → length old.labels ≤ MOST_LABELS
        → SpellsMachine bytes at old new machine until → IsMachineTextShaped machine }
{}

/// The new names of a machine that a text spells are enough to print it.
pub fn spelt_names_are_enough()
    ensures { (bytes : List ℕ) (at : ℕ) (old new : Names_data) (machine : Machine_data) (until : ℕ) → SpellsMachine bytes at old new machine until → AreEnoughFor new machine }
{}
