//! What the first fault of a text is, and that the reader tells it. The functions do nothing: each states a law.

ghost use Rattle.std.specs.Prelude.{◌≡◌, ◌≤◌, ℕ, List, Ok, Err, length, false};
ghost use Rattle.rs_model.specs.Data.{Names_data, Machine_data};
ghost use Rattle.rs_text.specs.declared.faults.TextFault.{TextFault};
ghost use Rattle.rs_text.specs.declared.faults.TextKind.{TextKind};
ghost use Rattle.rs_text.specs.declared.faults.TextKind.TheVariants as kind;
ghost use Rattle.rs_text.specs.declared.faults.Wanted.{Wanted};
ghost use Rattle.rs_text.specs.Lexemes.{signs_of};
ghost use Rattle.rs_bodies.specs.declared.dialects.Dialect.TheVariants.{Acts};
ghost use Rattle.rs_bodies.specs.Faults.{Begins, IsUnexpected};
ghost use Rattle.rs_machines.specs.Faults.{FirstFault, LeavesNames, labels_among};
ghost use Rattle.rs_bodies.specs.Graph.{labels_of};
ghost use Rattle.rs_machines.specs.Trees.{MachineTree, machine_signs};
ghost use Rattle.rs_machines.specs.Answers.{MachineAnswer, ReadsAs};
ghost use Rattle.rs_machines.specs.Spells.{SpellsMachine};

/// Whatever fault the reader tells is the first fault of the text.
pub fn told_fault_is_the_first()
    ensures { (old : Names_data) (bytes : List ℕ) (at : ℕ) (fault : TextFault) → at ≤ length bytes → ReadsAs old bytes at (Err fault) → FirstFault old bytes at fault.kind fault.at }
{}

/// The first fault of a text is told.
pub fn first_fault_is_told()
    ensures { (old : Names_data) (bytes : List ℕ) (at : ℕ) (kind : TextKind) (offset : ℕ) → FirstFault old bytes at kind offset → ReadsAs old bytes at (Err (record { kind = kind; at = offset })) }
{}

/// A text has one first fault at most.
pub fn text_has_one_first_fault()
    ensures { (old : Names_data) (bytes : List ℕ) (at : ℕ) (kind other : TextKind) (offset place : ℕ) → FirstFault old bytes at kind offset → FirstFault old bytes at other place
        → (kind ≡ other) × (offset ≡ place) }
{}

/// A text from which a machine is read has no first fault.
pub fn read_text_has_no_fault()
    ensures { (old : Names_data) (bytes : List ℕ) (at : ℕ) (answer : MachineAnswer) (kind : TextKind) (offset : ℕ) → ReadsAs old bytes at (Ok answer) → FirstFault old bytes at kind offset → ⊥ }
{}

/// The tokens before the first fault begin a machine.
pub fn tokens_before_the_fault_begin_a_machine()
    ensures { (old : Names_data) (bytes : List ℕ) (at : ℕ) (kind : TextKind) (offset : ℕ) (fault : FirstFault old bytes at kind offset) → Begins Acts (signs_of fault.before) }
{}

/// Where another token is expected, the tokens up to that one begin a machine and with it they begin none, and what is
/// wanted is what its place wants.
pub fn expected_is_unexpected()
    ensures { (old : Names_data) (bytes : List ℕ) (at : ℕ) (wanted : Wanted) (offset : ℕ) (fault : FirstFault old bytes at (kind.Expected wanted) offset)
        → IsUnexpected Acts (signs_of fault.before) fault.token.sign wanted }
{}

/// A text that a tree spells is read.
pub fn spelt_text_is_read()
    ensures { (old : Names_data) (bytes : List ℕ) (at : ℕ) (names : Names_data) (machine : Machine_data) (until : ℕ) → SpellsMachine bytes at old names machine until
        → (answer : MachineAnswer) × ReadsAs old bytes at (Ok answer) }
{}

/// A text that a tree spells has no first fault.
pub fn spelt_text_has_no_fault()
    ensures { (old : Names_data) (bytes : List ℕ) (at : ℕ) (names : Names_data) (machine : Machine_data) (until : ℕ) (kind : TextKind) (offset : ℕ) → SpellsMachine bytes at old names machine until
        → FirstFault old bytes at kind offset → ⊥ }
{}

/// A first fault leaves one list of names.
pub fn first_fault_leaves_one_list_of_names()
    ensures { (old new other : Names_data) (bytes : List ℕ) (at : ℕ) (kind another : TextKind) (offset place : ℕ) → LeavesNames old new bytes at kind offset
        → LeavesNames old other bytes at another place → new ≡ other }
{}

/// The labels among the tokens of a machine are those of its tree.
pub fn labels_of_tokens_are_those_of_the_tree()
    ensures { (tree : MachineTree) → labels_among false (machine_signs tree) ≡ labels_of Acts tree.body }
{}
