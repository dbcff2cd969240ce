//! Laws over the definitions that the contracts cite. The functions do nothing: the contract is the law.
ghost use Rattle.std.specs.Prelude.{◌≡◌, ◌↔◌, ℕ, List, true, Option, None, Some};
ghost use Rattle.rs_model.specs.Data.{Machine_data};
ghost use Rattle.rs_derive.specs.Data.{Derivation_data};
ghost use Rattle.rs_derive.specs.Derivations.{IsDerivation, KeepsItsHead, Remembers};
ghost use Rattle.rs_derive.specs.Due.{Due, Chosen, due};
ghost use Rattle.rs_derive.specs.Faults.{Blames, first_fault};
ghost use Rattle.rs_derive.specs.declared.faults.DeriveFault.{DeriveFault};
ghost use Rattle.rs_derive.specs.Moves.{HasMove, Spot};

/// A list of nodes passes all tests if and only if it is a derivation and forgets nothing, and the fault of the first test
/// that it doesn't pass says what is wrong.
pub fn faults_of_derivations()
    ensures none { (d : Derivation_data) (sub above : Machine_data) → (first_fault d sub above ≡ None) ↔ (IsDerivation d sub above × Remembers d sub above) }
    ensures some { (d : Derivation_data) (sub above : Machine_data) (fault : DeriveFault) → first_fault d sub above ≡ Some fault → Blames d sub above fault }
{}

/// The moves that are computed are those of the table: results are those of a move if and only if they are chosen from
/// what is due, and `keeps` is true if and only if the edges of the move keep their head.
pub fn moves_are_computed()
    ensures due { (sub above : Machine_data) (p : Spot) (makes : Option ℕ) (results : List Spot) → HasMove sub above p makes results
        → (d : Due) × (due sub above p ≡ Some d) × Chosen d.nexts results × ((d.keeps ≡ true) ↔ KeepsItsHead p.pending makes) }
    ensures table { (sub above : Machine_data) (p : Spot) (d : Due) (results : List Spot) → due sub above p ≡ Some d → Chosen d.nexts results
        → (makes : Option ℕ) × HasMove sub above p makes results × ((d.keeps ≡ true) ↔ KeepsItsHead p.pending makes) }
{}
