//! Laws over the definitions: each function does nothing, and its contract is the law.

ghost use Rattle.std.specs.Prelude.{◌≡◌, ◌≢◌, ℕ, Some, map, slice_get, List};
ghost use Rattle.rs_core.specs.Choices.{AreWellFormed};
ghost use Rattle.rs_core.specs.Safety.{IsSafe};
ghost use Rattle.rs_model.specs.Data.{Machine_data, Protocol_data};
ghost use Rattle.rs_model.specs.declared.graph.Role.{Role};
ghost use Rattle.rs_derive.specs.Data.{Derivation_data};
ghost use Rattle.rs_derive.specs.Derivations.{IsDerivation};
ghost use Rattle.rs_safety.specs.Accepting.{Accepted_data, IsAcceptedSession};
ghost use Rattle.rs_safety.specs.Alike.{AreAlike};
ghost use Rattle.rs_safety.specs.Buffering.{buffering, derivations_of_buffering, kernel_ahead, machines_of_buffering, projection_for_kernel, projections_of_buffering};
ghost use Rattle.rs_safety.specs.Waiting.{projected_a, waiting_a};
ghost use Rattle.rs_safety.specs.Room.{room_of};
ghost use Rattle.rs_safety.specs.Sessions.{AreDerivations, IsDerivedSession};
ghost use Rattle.rs_project.specs.Data.{Projection_data};
ghost use Rattle.rs_safety.specs.Examples.{c, left_waiting, not_told, projections_of_rounds, rounds};
ghost use Rattle.rs_project.specs.Projection.{AreProjections, IsProjection};
ghost use Rattle.rs_wellformed.specs.WellFormed.{IsWellFormed};

/// Machines that have derivations against the projections of a well-formed protocol, in role order, are safe.
pub fn derived_sessions_are_safe()
    ensures { (protocol : Protocol_data) (projections : List Projection_data) (machines : List Machine_data) (derivations : List Derivation_data)
        → IsDerivedSession protocol projections machines derivations
        → IsSafe machines }
{}

/// Machines that are the projections of a well-formed protocol, in role order, are safe.
pub fn equal_sessions_are_safe()
    ensures { (protocol : Protocol_data) (projections : List Projection_data) (machines : List Machine_data) → IsWellFormed protocol → AreProjections protocol projections
        → machines ≡ map (λ p. p.machine) projections → IsSafe machines }
{}

/// A well-formed protocol has one projection onto a role, but for the numbers of its states.
pub fn projections_are_alike()
    ensures { (protocol : Protocol_data) (role : Role) (one other : Projection_data) → IsWellFormed protocol → IsProjection protocol role one → IsProjection protocol role other → AreAlike one other }
{}

/// The premises can be met: a well-formed protocol with a choice, recursion and three roles, and its projections.
pub fn rounds_have_projections()
    ensures well_formed { IsWellFormed rounds }
    ensures projections { AreProjections rounds projections_of_rounds }
{}

/// The premises can be met by a machine that is another than its projection: double buffering, in which the kernel asks for the next
/// block before it hands on the last one.
pub fn double_buffering_has_derivations()
    ensures well_formed { IsWellFormed buffering }
    ensures projections { AreProjections buffering projections_of_buffering }
    ensures machines { AreWellFormed machines_of_buffering }
    ensures derivations { AreDerivations machines_of_buffering projections_of_buffering derivations_of_buffering }
    ensures other { kernel_ahead ≢ projection_for_kernel.machine }
    ensures room { room_of derivations_of_buffering ≡ 16 }
{}

/// Not every machine has a derivation: one that waits where its projection sends has none.
pub fn who_waits_first_has_no_derivation()
    ensures { (derivation : Derivation_data) → IsDerivation derivation waiting_a projected_a → ⊥ }
{}

/// A role that can't tell whether there is still something for it to do has no projection.
pub fn each_role_is_told()
    ensures { (projection : Projection_data) → IsProjection not_told c projection → ⊥ }
{}

/// A role that others may leave waiting for ever has no projection.
pub fn no_role_is_left_waiting()
    ensures { (projection : Projection_data) → IsProjection left_waiting c projection → ⊥ }
{}

/// In an accepted session each derivation names the role whose machine it is of.
pub fn derivations_name_their_roles()
    ensures { (session : Accepted_data) (place : ℕ) (machine : Machine_data) (derivation : Derivation_data) → IsAcceptedSession session → slice_get session.machines place ≡ Some machine
        → slice_get session.derivations place ≡ Some derivation → derivation.role ≡ machine.role }
{}
