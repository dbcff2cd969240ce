//! What the definitions of canonical texts say together. The functions do nothing: each states a law.

ghost use Rattle.std.specs.Prelude.{◌≡◌, ◌+◌, ◌++◌, ℕ, List, drop, length, true};
ghost use Rattle.rs_model.specs.Data.{Machine_data, Names_data};
ghost use Rattle.rs_text.specs.Lexing.{next_lexeme};
ghost use Rattle.rs_text.specs.Sound.{IsSound};
ghost use Rattle.rs_machines.specs.Canonical.{IsCanonicalMachineTree, IsCanonicalMachineText, IsMachineTextShaped};
ghost use Rattle.rs_machines.specs.Enough.{AreEnoughFor};
ghost use Rattle.rs_machines.specs.Kinds.{names_of};
ghost use Rattle.rs_machines.specs.Machines.{machine_of_tree};
ghost use Rattle.rs_machines.specs.Trees.{Fits, MachineTree};
ghost use Rattle.rs_machines.specs.Spells.{SpellsMachine};
ghost use Rattle.rs_bodies.specs.declared.dialects.Dialect.TheVariants.{Acts};
ghost use Rattle.rs_bodies.specs.Trees.{ends_a_name, ends_by_name};
ghost use Rattle.rs_machines.specs.Writable.{AreWords};

/// A machine that some text spells has a canonical text, for names that are enough.
pub fn canonical_machine_is_there()
    ensures { (names : Names_data) (machine : Machine_data) → IsMachineTextShaped machine → AreEnoughFor names machine → (text : List ℕ) × IsCanonicalMachineText names machine text }
{}

/// A machine that some text spells has one canonical tree at most.
pub fn canonical_tree_is_one()
    ensures { (names : Names_data) (machine : Machine_data) (x y : MachineTree) → IsMachineTextShaped machine → IsCanonicalMachineTree names machine x
        → IsCanonicalMachineTree names machine y → x ≡ y }
{}

/// A machine that some text spells has one canonical text at most.
pub fn canonical_text_is_one()
    ensures { (names : Names_data) (machine : Machine_data) (text other : List ℕ) → IsMachineTextShaped machine → IsCanonicalMachineText names machine text → IsCanonicalMachineText names machine other
        → text ≡ other }
{}

/// The canonical tree has names that can be written.
pub fn canonical_names_are_words()
    ensures { (names : Names_data) (machine : Machine_data) (tree : MachineTree) → IsMachineTextShaped machine → IsSound names → AreEnoughFor names machine → IsCanonicalMachineTree names machine tree
        → AreWords tree }
{}

/// The canonical tree is within the limits of texts.
pub fn canonical_tree_fits()
    ensures { (names : Names_data) (machine : Machine_data) (tree : MachineTree) → IsMachineTextShaped machine → IsSound names → AreEnoughFor names machine → IsCanonicalMachineTree names machine tree
        → Fits names tree }
{}

/// The canonical tree spells the machine again.
pub fn canonical_tree_spells_the_machine()
    ensures { (names : Names_data) (machine : Machine_data) (tree : MachineTree) → IsMachineTextShaped machine → IsSound names → AreEnoughFor names machine → IsCanonicalMachineTree names machine tree
        → machine_of_tree names tree ≡ machine }
{}

/// The canonical tree brings no new names.
pub fn canonical_tree_has_no_new_names()
    ensures { (names : Names_data) (machine : Machine_data) (tree : MachineTree) → IsMachineTextShaped machine → IsSound names → AreEnoughFor names machine → IsCanonicalMachineTree names machine tree
        → names_of names tree ≡ names }
{}

/// A printed text is read again as the same machine, and no new names come.
pub fn printed_text_is_read_again()
    ensures { (names : Names_data) (machine : Machine_data) (text : List ℕ) → IsMachineTextShaped machine → IsSound names → AreEnoughFor names machine → IsCanonicalMachineText names machine text
        → SpellsMachine text 0 names names machine (length text) }
{}

/// A printed text is read wherever it stands, as far as the next token. That is no mark and not faulty, where a recursion
/// name ends it.
pub fn printed_text_is_read_anywhere()
    ensures { (bytes : List ℕ) (at : ℕ) (names : Names_data) (machine : Machine_data) (text behind : List ℕ) → IsMachineTextShaped machine → IsSound names → AreEnoughFor names machine
        → (canonical : IsCanonicalMachineText names machine text) → drop at bytes ≡ text ++ behind
        → (ends_by_name Acts canonical.tree.body ≡ true → ends_a_name Acts (next_lexeme bytes (at + length text)).sign ≡ true)
        → SpellsMachine bytes at names names machine (next_lexeme bytes (at + length text)).from }
{}

/// What was read with older names is read with them again from its printed text, and the same new names come.
pub fn printed_text_is_read_with_the_names_before()
    ensures { (bytes : List ℕ) (at : ℕ) (old new : Names_data) (machine : Machine_data) (until : ℕ) (text : List ℕ) → SpellsMachine bytes at old new machine until → IsSound new
        → IsCanonicalMachineText new machine text → SpellsMachine text 0 old new machine (length text) }
{}

/// What is read from a printed text is printed as that text again.
pub fn printed_text_is_printed_again()
    ensures { (names others : Names_data) (machine other : Machine_data) (text : List ℕ) (until : ℕ) → IsMachineTextShaped machine → IsSound names → AreEnoughFor names machine
        → IsCanonicalMachineText names machine text → SpellsMachine text 0 names others other until → IsCanonicalMachineText others other text }
{}
