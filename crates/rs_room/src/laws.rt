//! Laws over the definitions: each function does nothing, and its contract is the law.

ghost use Rattle.std.specs.Prelude.{◌≡◌, ◌⊎◌, ◌≤◌, ℕ, List};
ghost use Rattle.rs_core.specs.Configurations.{Configuration, IsReachable};
ghost use Rattle.rs_core.specs.Safety.{AllEnded};
ghost use Rattle.rs_model.specs.Data.{Machine_data, Protocol_data};
ghost use Rattle.rs_project.specs.Data.{Projection_data};
ghost use Rattle.rs_project.specs.Projection.{AreProjections};
ghost use Rattle.rs_wellformed.specs.WellFormed.{IsWellFormed};
ghost use Rattle.rs_derive.specs.Data.{Derivation_data};
ghost use Rattle.rs_core.specs.Choices.{AreWellFormed};
ghost use Rattle.rs_safety.specs.Sessions.{AreDerivations, IsDerivedSession};
ghost use Rattle.rs_room.specs.Bounded.{CanMoveWithin, CanStepWithin, HasBoundedStep, IsReachableWithin, IsStuck};
ghost use Rattle.rs_room.specs.Crossing.{crossing, derivations_of_crossing, machines_of_crossing, projections_of_crossing};
ghost use Rattle.rs_safety.specs.Room.{room_of};

/// Rings of the room that the derivations show are enough. In each configuration that the machines reach, with such rings or with queues
/// without bound, some role can go on or all have ended, and nothing is stuck; and a role that can go on has a bounded
/// step.
pub fn rings_of_this_room_are_enough()
    ensures goes_on { (protocol : Protocol_data) (projections : List Projection_data) (machines : List Machine_data) (derivations : List Derivation_data)
        → IsDerivedSession protocol projections machines derivations
        → (capacity : ℕ) → room_of derivations ≤ capacity → (c : Configuration) → IsReachable machines c
        → CanStepWithin machines capacity c ⊎ AllEnded machines c }
    ensures step { (protocol : Protocol_data) (projections : List Projection_data) (machines : List Machine_data) (derivations : List Derivation_data)
        → IsDerivedSession protocol projections machines derivations
        → (capacity : ℕ) (c : Configuration) → IsReachable machines c → (p : ℕ) → CanMoveWithin machines capacity c p
        → HasBoundedStep machines capacity c p }
    ensures not_stuck { (protocol : Protocol_data) (projections : List Projection_data) (machines : List Machine_data) (derivations : List Derivation_data)
        → IsDerivedSession protocol projections machines derivations
        → (capacity : ℕ) → room_of derivations ≤ capacity → (c : Configuration) → IsReachableWithin machines capacity c
        → IsStuck machines capacity c → ⊥ }
{}

/// Only a role that can go on has a bounded step.
pub fn who_has_a_bounded_step_can_go_on()
    ensures { (machines : List Machine_data) (capacity : ℕ) (c : Configuration) (p : ℕ) → HasBoundedStep machines capacity c p → CanMoveWithin machines capacity c p }
{}

/// Smaller rings may not be enough: two roles that both send twice before they receive have derivations, and are stuck
/// with rings of one message.
pub fn small_rings_can_be_stuck()
    ensures well_formed { IsWellFormed crossing }
    ensures projections { AreProjections crossing projections_of_crossing }
    ensures machines { AreWellFormed machines_of_crossing }
    ensures derivations { AreDerivations machines_of_crossing projections_of_crossing derivations_of_crossing }
    ensures room { room_of derivations_of_crossing ≡ 11 }
    ensures stuck { (c : Configuration) × IsReachableWithin machines_of_crossing 1 c × IsStuck machines_of_crossing 1 c }
{}
