//! The derivations of a session, role by role.

ghost use Rattle.std.specs.Prelude.{◌≡◌, ◌⊎◌, IfOk, IfErr, OnOk};
ghost use Rattle.rs_model.specs.Data.{Protocol_data};
ghost use Rattle.rs_derive.specs.Derivations.{IsProper};
ghost use Rattle.rs_model.specs.Limits.{IsBound};
ghost use Rattle.rs_search.specs.Canonical.{IsCanonical, SearchRefuses};
ghost use Rattle.rs_safety.specs.Sessions.{IsSession};
ghost use Rattle.rs_answers.specs.Derivations.{AreCanonical, IsUnderivable};
ghost use Rattle.rs_answers.specs.Machines.{machine_or, machines_of};
ghost use Rattle.rs_documents.specs.Ready.{DocumentIsReady};
ghost use Rattle.rs_answers.specs.Refusals.{HasNoDerivations};
ghost use Rattle.rs_answers.specs.Sessions.{HasMachines};

use crate::refusals::Refusal;
use crate::sessions::{ProjectedSession, session_of};
use rs_derive::Derivation;
use rs_documents::Document;
use rs_model::{Bound, Machine, Role};
use rs_project::Projection;
use rs_search::{SearchFault, search, search_own};
use std::alloc::Global;

/// The first role for whose machine the search finds no derivation, and why.
#[derive(Clone, Copy, Debug)]
pub struct Underivable {
    pub role: Role,
    pub fault: SearchFault,
}

// The canonical derivation of a role's own machine from its projection; without one, of the projection from itself.
fn derivation_of(
    alloc: Global,
    own: &Option<Machine>,
    projection: &Projection,
    bound: u8,
) -> Result<Derivation, SearchFault>
    requires ours { IsProper (machine_or own.now projection.now) }
    requires theirs { IsProper projection.now.machine }
    ensures ok { IfOk result (λ d. IsCanonical (machine_or own.now projection.now) projection.now.machine bound d) }
    ensures err { IfErr result (λ e. SearchRefuses (machine_or own.now projection.now) projection.now.machine bound e) }
{
    match own {
        Some(machine) => search(alloc, machine, &projection.machine, bound),
        None => search_own(alloc, &projection.machine, bound),
    }
}

/// The canonical derivations of a session's machines from their projections within the bound, in role order; or the first
/// role for whose machine there is none. A role without a machine among its `own` runs its projection.
pub fn derivations_of(
    alloc: Global,
    own: &[Option<Machine>],
    projections: &[Projection],
    bound: u8,
) -> Result<Vec<Derivation>, Underivable>
    requires session { (protocol : Protocol_data) × IsSession protocol projections.now (machines_of own.now projections.now) }
    ensures ok { IfOk result (λ derivations. AreCanonical bound (machines_of own.now projections.now) projections.now derivations.items) }
    ensures err { IfErr result (λ u. (u.fault ≡ SearchFault.NoMemory) ⊎ IsUnderivable bound (machines_of own.now projections.now) projections.now u.role u.fault) }
{
    let mut derivations = Vec::new(alloc);
    for place in 0..projections.len() {
        let role = Role(place as u8);
        let derivation = match derivation_of(alloc, &own[place], &projections[place], bound) {
            Ok(derivation) => derivation,
            Err(fault) => return Err(Underivable { role, fault }),
        };
        if derivations.push(derivation).is_err() {
            return Err(Underivable {
                role,
                fault: SearchFault::NoMemory,
            });
        }
    }
    Ok(derivations)
}

/// A session and its derivations, in role order: each shows that its role's machine may stand for its projection.
#[derive(Drop)]
pub struct DerivedSession {
    pub projections: Vec<Projection>,
    pub machines: Vec<Machine>,
    pub derivations: Vec<Derivation>,
}

/// The session of the document, with the canonical derivations of its machines within the bound; or the first reason why
/// there are none.
pub fn derived_session(
    alloc: Global,
    document: &Document,
    bound: Bound,
) -> Result<DerivedSession, Refusal>
    requires ready { DocumentIsReady document.now }
    ensures machines { IfOk result (λ s. HasMachines document.now s.projections.items s.machines.items) }
    ensures session { IfOk result (λ s. IsSession document.now.protocol s.projections.items s.machines.items) }
    ensures derivations { IfOk result (λ s. AreCanonical bound s.machines.items s.projections.items s.derivations.items) }
    ensures bound { OnOk result (IsBound bound) }
    ensures err { IfErr result (λ r. (r ≡ Refusal.NoMemory) ⊎ HasNoDerivations bound document.now r) }
{
    let ProjectedSession {
        projections,
        machines,
    } = session_of(alloc, document)?;
    let own = document.machines.as_slice();
    let derivations = derivations_of(alloc, own, projections.as_slice(), bound.number())?;
    Ok(DerivedSession {
        projections,
        machines,
        derivations,
    })
}
