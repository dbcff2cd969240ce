//! What the definitions of reading say together. The functions do nothing: each states a law.

ghost use Rattle.std.specs.Prelude.{◌≡◌, ◌≤◌, ◌∷◌, [], ℕ, List, Result, length, codes, Some};
ghost use Rattle.rs_text.specs.declared.faults.TextFault.{TextFault};
ghost use Rattle.rs_text.specs.declared.faults.TextKind.TheVariants as kind;
ghost use Rattle.rs_text.specs.declared.faults.Wanted.TheVariants as wanted;
ghost use Rattle.rs_machines.specs.Examples.{text, old, tree};
ghost use Rattle.rs_machines.specs.Answers.{MachineAnswer, ReadsAs};
ghost use Rattle.rs_machines.specs.Faults.{FirstFault};
ghost use Rattle.rs_machines.specs.Kinds.{names_of};
ghost use Rattle.rs_machines.specs.Machines.{machine_of_tree};
ghost use Rattle.rs_machines.specs.MachineFaults.{IsFaultOfText};
ghost use Rattle.rs_machines.specs.Named.{HasNames};
ghost use Rattle.rs_machines.specs.Spells.{SpellsMachine};
ghost use Rattle.rs_model.specs.Data.{Names_data, Machine_data};
ghost use Rattle.rs_model.specs.Faults.{first_fault};
ghost use Rattle.rs_model.specs.declared.checks.MachineFault.{MachineFault};
ghost use Rattle.rs_model.specs.declared.machines.State.TheVariants as state;
ghost use Rattle.rs_model.specs.declared.values.Sort.TheVariants as sort;

/// The bytes of a text from an offset on are read as something.
pub fn has_an_answer()
    ensures { (old : Names_data) (bytes : List ℕ) (at : ℕ) → at ≤ length bytes → (answer : Result MachineAnswer TextFault) × ReadsAs old bytes at answer }
{}

/// They are read as nothing else: as one machine or with one fault, never both.
pub fn has_one_answer()
    ensures { (old : Names_data) (bytes : List ℕ) (at : ℕ) (x y : Result MachineAnswer TextFault) → at ≤ length bytes → ReadsAs old bytes at x → ReadsAs old bytes at y → x ≡ y }
{}

/// A text is spelt as its tree says, and goes on at its end.
pub fn example_is_spelt()
    ensures tree { SpellsMachine text 0 old (names_of old tree) (machine_of_tree old tree) 41 }
    ensures states { (machine_of_tree old tree).states
        ≡ state.Puts (record { 0 = 1 }) (record { label = record { 0 = 1 }; sort = sort.Unit; next = 0 } ∷ record { label = record { 0 = 0 }; sort = sort.Natural; next = 1 } ∷ []) ∷ state.Done ∷ [] }
    ensures start { (machine_of_tree old tree).start ≡ 0 }
    ensures labels { (names_of old tree).labels ≡ codes "y" ∷ codes "x" ∷ [] }
{}

/// The first fault of no bytes is that a part was wanted there.
pub fn no_bytes_lack_a_machine()
    ensures { (old : Names_data) → FirstFault old [] 0 (kind.Expected wanted.PartOrEnd) 0 }
{}

/// A machine that a text spells has no other faults than a label that stands twice at a state, and a state whose peer is
/// its own role.
pub fn faults_of_spelt_machines()
    ensures { (bytes : List ℕ) (at : ℕ) (old new : Names_data) (machine : Machine_data) (until : ℕ) (fault : MachineFault) → SpellsMachine bytes at old new machine until
        → first_fault machine (length old.roles) ≡ Some fault → IsFaultOfText fault }
{}

/// Every role and label of a machine that a text spells has a name.
pub fn spelt_machines_have_names()
    ensures { (bytes : List ℕ) (at : ℕ) (old new : Names_data) (machine : Machine_data) (until : ℕ) → SpellsMachine bytes at old new machine until → HasNames new machine }
{}
