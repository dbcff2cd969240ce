//! Laws over the definitions that the contracts cite. The functions do nothing: the contract is the law.
ghost use Rattle.std.specs.Prelude.{◌≡◌, ◌↔◌, ℕ, Some, None};
ghost use Rattle.rs_model.specs.Data.{Machine_data};
ghost use Rattle.rs_model.specs.Faults.{Blames, first_fault};
ghost use Rattle.rs_model.specs.Serving.{Serves};
ghost use Rattle.rs_model.specs.Sorts.{HasSort};
ghost use Rattle.rs_model.specs.WellFormed.{IsWellFormedMachine};
ghost use Rattle.rs_model.specs.declared.checks.MachineFault.{MachineFault};
ghost use Rattle.rs_model.specs.declared.values.Sort.{Sort};
ghost use Rattle.rs_model.specs.declared.values.Value.{Value};

/// A machine passes all its tests exactly where it is well formed, and the fault of the first test that it doesn't
/// pass says what is wrong.
pub fn faults_of_machines()
    ensures none { (machine : Machine_data) (roles : ℕ) → (first_fault machine roles ≡ None) ↔ IsWellFormedMachine machine roles }
    ensures some { (machine : Machine_data) (roles : ℕ) (fault : MachineFault) → first_fault machine roles ≡ Some fault → Blames machine roles fault }
{}

/// Where a value has a sort, and this serves for another, the value has the other sort; and no other sorts than those
/// that it serves for have all its values.
pub fn sorts_serve_by_their_values()
    ensures values { (v : Value) (a b : Sort) → HasSort v a → Serves a b → HasSort v b }
    ensures others { (a b : Sort) → ((v : Value) → HasSort v a → HasSort v b) → Serves a b }
{}
