//! What a text spells is what the reader gives. The functions do nothing: each states a law.

ghost use Rattle.std.specs.Prelude.{◌≡◌, ◌≤◌, ◌⊎◌, ℕ, List, Ok, length};
ghost use Rattle.rs_model.specs.Data.{Names_data, Machine_data};
ghost use Rattle.rs_text.specs.declared.faults.TextKind.{TextKind};
ghost use Rattle.rs_machines.specs.Faults.{FirstFault};
ghost use Rattle.rs_machines.specs.Answers.{MachineAnswer, ReadsAs};
ghost use Rattle.rs_machines.specs.Spells.{SpellsMachine};

/// Whatever machine is read from a text, the text spells it.
pub fn read_text_is_spelt()
    ensures { (old : Names_data) (bytes : List ℕ) (at : ℕ) (answer : MachineAnswer) → at ≤ length bytes → ReadsAs old bytes at (Ok answer)
        → SpellsMachine bytes at old answer.names answer.graph answer.until }
{}

/// Whatever machine a text spells is read from it.
pub fn spelling_is_read()
    ensures { (old : Names_data) (bytes : List ℕ) (at : ℕ) (names : Names_data) (machine : Machine_data) (until : ℕ) → SpellsMachine bytes at old names machine until
        → ReadsAs old bytes at (Ok (record { names = names; graph = machine; until = until })) }
{}

/// A text spells one machine at most, by one list of names, as far as one offset.
pub fn text_spells_one_machine()
    ensures { (old : Names_data) (bytes : List ℕ) (at : ℕ) (names others : Names_data) (machine other : Machine_data) (until stop : ℕ) → SpellsMachine bytes at old names machine until
        → SpellsMachine bytes at old others other stop → (names ≡ others) × (machine ≡ other) × (until ≡ stop) }
{}

/// Every text spells a machine or has a first fault.
pub fn text_is_spelt_or_has_a_fault()
    ensures { (old : Names_data) (bytes : List ℕ) (at : ℕ) → at ≤ length bytes
        → ((names : Names_data) × (machine : Machine_data) × (until : ℕ) × SpellsMachine bytes at old names machine until) ⊎ ((kind : TextKind) × (offset : ℕ) × FirstFault old bytes at kind offset) }
{}
