//! What the definitions of tables say together. The functions do nothing: each states a law.

ghost use Rattle.std.specs.Prelude.{◌≡◌, ◌≤◌, ◌⊎◌, ◌+◌, ◌++◌, ℕ, List, Some, drop, length};
ghost use Rattle.rs_model.specs.Data.{Machine_data, Names_data};
ghost use Rattle.rs_model.specs.Faults.{first_fault};
ghost use Rattle.rs_model.specs.declared.checks.MachineFault.{MachineFault};
ghost use Rattle.rs_model.specs.declared.limits.TheConstants.{MOST_LABELS};
ghost use Rattle.rs_text.specs.declared.faults.TextKind.{TextKind};
ghost use Rattle.rs_text.specs.Lexing.{next_lexeme};
ghost use Rattle.rs_text.specs.Sound.{IsSound};
ghost use Rattle.rs_tables.specs.Canonical.{tree_of};
ghost use Rattle.rs_tables.specs.Faults.{FirstFault, LeavesNames};
ghost use Rattle.rs_tables.specs.Machines.{machine_of_table, names_of};
ghost use Rattle.rs_tables.specs.Printable.{IsTabled};
ghost use Rattle.rs_tables.specs.Spells.{SpellsTable};
ghost use Rattle.rs_tables.specs.TableFaults.{IsFaultOfTable};
ghost use Rattle.rs_tables.specs.Tables.{table_of};

/// A text spells one machine at most, with one list of names and one offset behind it.
pub fn text_spells_one_machine()
    ensures { (old new other : Names_data) (bytes : List ℕ) (at until stop : ℕ) (m n : Machine_data) → SpellsTable bytes at old new m until → SpellsTable bytes at old other n stop
        → (new ≡ other) × (m ≡ n) × (until ≡ stop) }
{}

/// It has one first fault at most.
pub fn text_has_one_first_fault()
    ensures { (old : Names_data) → length old.labels ≤ MOST_LABELS → (bytes : List ℕ) (at : ℕ) (kind other : TextKind) (offset stop : ℕ) → FirstFault old bytes at kind offset
        → FirstFault old bytes at other stop → (kind ≡ other) × (offset ≡ stop) }
{}

/// A first fault leaves one list of names.
pub fn first_fault_leaves_one_list_of_names()
    ensures { (old new other : Names_data) (bytes : List ℕ) (at : ℕ) (kind another : TextKind) (offset place : ℕ) → LeavesNames old new bytes at kind offset
        → LeavesNames old other bytes at another place → new ≡ other }
{}

/// A text spells a machine or has a first fault.
pub fn text_is_spelt_or_has_a_fault()
    ensures { (old : Names_data) (bytes : List ℕ) (at : ℕ) → length old.labels ≤ MOST_LABELS → at ≤ length bytes
        → ((new : Names_data) × (m : Machine_data) × (until : ℕ) × SpellsTable bytes at old new m until) ⊎ ((kind : TextKind) × (offset : ℕ) × FirstFault old bytes at kind offset) }
{}

/// A text that spells a machine has no first fault.
pub fn spelt_text_has_no_fault()
    ensures { (old new : Names_data) (bytes : List ℕ) (at until : ℕ) (m : Machine_data) (kind : TextKind) (offset : ℕ) → length old.labels ≤ MOST_LABELS → SpellsTable bytes at old new m until
        → FirstFault old bytes at kind offset → ⊥ }
{}

/// What a text spells can be printed: a table can say it.
pub fn spelt_tables_can_be_printed()
    ensures { (old new : Names_data) (bytes : List ℕ) (at until : ℕ) (m : Machine_data) → SpellsTable bytes at old new m until → IsTabled new m }
{}

/// A machine that a table spells has no other faults than a label that stands twice at a state, a state whose peer is its own
/// role, and an arm that leads to no state.
pub fn faults_of_spelt_tables()
    ensures { (bytes : List ℕ) (at : ℕ) (old new : Names_data) (machine : Machine_data) (until : ℕ) (fault : MachineFault) → SpellsTable bytes at old new machine until
        → first_fault machine (length new.roles) ≡ Some fault → IsFaultOfTable fault }
{}

/// The printed table of a machine, wherever it stands, spells the machine, where its labels bring the names that were there
/// to those that it is printed with.
pub fn printed_table_is_read_again()
    ensures { (old names : Names_data) (m : Machine_data) (bytes : List ℕ) (at : ℕ) (rest : List ℕ) → IsSound names → IsTabled names m → length names.labels ≤ MOST_LABELS
        → names_of old (tree_of names m) ≡ names → drop at bytes ≡ table_of names m ++ rest
        → SpellsTable bytes at old names m (next_lexeme bytes (at + length (table_of names m))).from }
{}

/// The printed table has no labels but those of the names.
pub fn printed_table_has_no_new_labels()
    ensures { (names : Names_data) (m : Machine_data) → IsSound names → IsTabled names m → names_of names (tree_of names m) ≡ names }
{}

/// With any older names that have its roles the printed table spells the machine too, but for the numbers of labels: each
/// label has the number that its name gets.
pub fn printed_table_is_read_with_older_names()
    ensures { (old names : Names_data) (m : Machine_data) (bytes : List ℕ) (at : ℕ) (rest : List ℕ) → IsSound names → IsTabled names m → old.roles ≡ names.roles
        → length (names_of old (tree_of names m)).labels ≤ MOST_LABELS → drop at bytes ≡ table_of names m ++ rest
        → SpellsTable bytes at old (names_of old (tree_of names m)) (machine_of_table (names_of old (tree_of names m)) (tree_of names m))
        (next_lexeme bytes (at + length (table_of names m))).from }
{}
