//! Laws over the definitions that the contracts cite. The functions do nothing: the contract is the law.
ghost use Rattle.std.specs.Prelude.{◌≡◌, ◌↔◌, None, Some};
ghost use Rattle.rs_model.specs.Data.{Protocol_data};
ghost use Rattle.rs_wellformed.specs.Examples.{one_talk};
ghost use Rattle.rs_wellformed.specs.Faults.{Blames, first_fault};
ghost use Rattle.rs_wellformed.specs.WellFormed.{IsWellFormed};
ghost use Rattle.rs_wellformed.specs.declared.checks.WfFault.{WfFault};

/// A protocol passes all its tests exactly where it is well formed, and the fault of the first test that it doesn't
/// pass says what is wrong.
pub fn faults_of_protocols()
    ensures none { (protocol : Protocol_data) → (first_fault protocol ≡ None) ↔ IsWellFormed protocol }
    ensures some { (protocol : Protocol_data) (fault : WfFault) → first_fault protocol ≡ Some fault → Blames protocol fault }
{}

/// One talk from one role to another, and then the end, is well formed; one from a role to itself isn't.
pub fn one_talk_is_well_formed()
    ensures right { IsWellFormed (one_talk 1) }
    ensures wrong { IsWellFormed (one_talk 0) → ⊥ }
{}
