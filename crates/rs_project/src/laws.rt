//! Laws over the definitions: each function does nothing, and its contract is the law.

ghost use Rattle.std.specs.List.{Contains};
ghost use Rattle.std.specs.Prelude.{◌≡◌, ◌⊎◌, ◌<◌, ◌↔◌, ℕ, List, [], Some, length, slice_get};
ghost use Rattle.rs_model.specs.Data.{Protocol_data};
ghost use Rattle.rs_model.specs.WellFormed.{IsWellFormedMachine};
ghost use Rattle.rs_model.specs.declared.graph.Label.{Label};
ghost use Rattle.rs_model.specs.declared.graph.Role.{Role};
ghost use Rattle.rs_project.specs.Data.{Projection_data};
ghost use Rattle.rs_project.specs.Numbered.{IsNumberedProjection};
ghost use Rattle.rs_project.specs.Projection.{IsProjection};
ghost use Rattle.rs_project.specs.Reached.{LeadToState, MeetsAfter, EndsAfter};
ghost use Rattle.rs_project.specs.Refusals.{FirstRefusal};
ghost use Rattle.rs_project.specs.declared.projecting.ProjFault.{ProjFault};
ghost use Rattle.rs_wellformed.specs.WellFormed.{IsWellFormed};

/// There is one first refusal at most.
pub fn one_refusal_at_most()
    ensures { (protocol : Protocol_data) (role : Role) (fault other : ProjFault) → FirstRefusal protocol role fault → FirstRefusal protocol role other → fault ≡ other }
{}

/// A well-formed protocol has one projection onto a role at most, numbers of states included.
pub fn one_projection_at_most()
    ensures { (protocol : Protocol_data) (role : Role) (one other : Projection_data) → IsWellFormed protocol → IsNumberedProjection protocol role one
        → IsNumberedProjection protocol role other → one ≡ other }
{}

/// Where there is a projection nothing is refused.
pub fn not_both()
    ensures { (protocol : Protocol_data) (role : Role) (projection : Projection_data) (fault : ProjFault) → IsNumberedProjection protocol role projection → FirstRefusal protocol role fault → ⊥ }
{}

/// The machine of a projection of a well-formed protocol is well formed.
pub fn projections_are_well_formed()
    ensures { (protocol : Protocol_data) (role : Role) (projection : Projection_data) → IsWellFormed protocol → role.0 < protocol.roles → IsProjection protocol role projection
        → IsWellFormedMachine projection.machine protocol.roles }
{}

/// Each state of a projection is reached: labels lead to it from state 0.
pub fn states_are_reached()
    ensures { (protocol : Protocol_data) (role : Role) (projection : Projection_data) (number : ℕ) → IsNumberedProjection protocol role projection → number < length projection.machine.states
        → (labels : List Label) × LeadToState projection labels number }
{}

/// The members of a state are exactly the talks that the role may meet after the labels that lead to the state, on some
/// path of the protocol.
pub fn members_are_the_talks_met()
    ensures { (protocol : Protocol_data) (role : Role) (projection : Projection_data) (labels : List Label) (number : ℕ) (members : List ℕ) → IsProjection protocol role projection
        → LeadToState projection labels number → slice_get projection.sets number ≡ Some members → (talk : ℕ) → Contains members talk ↔ MeetsAfter protocol role labels talk }
{}

/// A state has no members if and only if the role may meet the end after the labels that lead to it.
pub fn no_members_are_the_end()
    ensures { (protocol : Protocol_data) (role : Role) (projection : Projection_data) (labels : List Label) (number : ℕ) (members : List ℕ) → IsProjection protocol role projection
        → LeadToState projection labels number → slice_get projection.sets number ≡ Some members → (members ≡ []) ↔ EndsAfter protocol role labels }
{}

/// A well-formed protocol has, for each role, a projection or a first refusal.
pub fn a_projection_or_a_refusal()
    ensures { (protocol : Protocol_data) (role : Role) → IsWellFormed protocol
        → ((projection : Projection_data) × IsNumberedProjection protocol role projection) ⊎ ((fault : ProjFault) × FirstRefusal protocol role fault) }
{}
