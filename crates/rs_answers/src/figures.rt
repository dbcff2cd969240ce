//! The figures of a session's derivations, role by role. The derivation of a role that runs its projection isn't made.

ghost use Rattle.std.specs.Prelude.{◌≡◌, ◌⊎◌, ◌<◌, ℕ, IfOk, IfErr};
ghost use Rattle.rs_answers.specs.Figures.{AreFigures, HasFigures, HasSessionFigures};
ghost use Rattle.rs_answers.specs.Derivations.{IsUnderivable};
ghost use Rattle.rs_answers.specs.Machines.{machine_or, machines_of};
ghost use Rattle.rs_answers.specs.Refusals.{HasNoDerivations};
ghost use Rattle.rs_derive.specs.Derivations.{IsProper};
ghost use Rattle.rs_documents.specs.Ready.{DocumentIsReady};
ghost use Rattle.rs_model.specs.Data.{Protocol_data};
ghost use Rattle.rs_model.specs.Limits.{IsBound};
ghost use Rattle.rs_safety.specs.Sessions.{IsSession};
ghost use Rattle.rs_search.specs.Canonical.{SearchRefuses};
ghost use Rattle.rs_search.specs.Figures.{AreStatesInOrder};

use crate::derivations::Underivable;
use crate::refusals::Refusal;
use crate::sessions::session_projections;
use rs_documents::Document;
use rs_model::{Bound, Machine, Role};
use rs_project::Projection;
use rs_safety::{Figures, figures_of};
use rs_search::{SearchFault, own_figures, search};
use std::alloc::Global;

// The figures of a machine's derivation from its projection.
fn machine_figures(
    alloc: Global,
    machine: &Machine,
    projection: &Machine,
    bound: u8,
) -> Result<Figures, SearchFault>
    requires bound { IsBound bound }
    requires ours { IsProper machine.now }
    requires theirs { IsProper projection.now }
    ensures ok { IfOk result (λ figures. HasFigures machine.now projection.now bound figures) }
    ensures err { IfErr result (λ e. SearchRefuses machine.now projection.now bound e) }
{
    match search(alloc, machine, projection, bound) {
        Ok(derivation) => Ok(figures_of(&derivation)),
        Err(fault) => Err(fault),
    }
}

// The figures of a projection's derivation from itself.
fn projection_figures(projection: &Machine) -> Result<Figures, SearchFault>
    requires proper { IsProper projection.now }
    requires order { AreStatesInOrder projection.now }
    ensures ok { IfOk result (λ figures. (bound : ℕ) → 0 < bound → HasFigures projection.now projection.now bound figures) }
    ensures err { IfErr result (λ e. (bound : ℕ) → 0 < bound → SearchRefuses projection.now projection.now bound e) }
{
    match own_figures(projection) {
        Some(figures) => Ok(Figures {
            nodes: u64::from(figures.nodes),
            owed: u8::from(figures.owes),
            rank: 0,
        }),
        None => Err(SearchFault::TooLarge),
    }
}

// The figures of the derivation of a role's own machine from its projection; without one, of the projection from itself.
fn role_figures(
    alloc: Global,
    own: &Option<Machine>,
    projection: &Projection,
    bound: u8,
) -> Result<Figures, SearchFault>
    requires bound { IsBound bound }
    requires ours { IsProper (machine_or own.now projection.now) }
    requires theirs { IsProper projection.now.machine }
    requires order { AreStatesInOrder projection.now.machine }
    ensures ok { IfOk result (λ figures. HasFigures (machine_or own.now projection.now) projection.now.machine bound figures) }
    ensures err { IfErr result (λ e. SearchRefuses (machine_or own.now projection.now) projection.now.machine bound e) }
{
    match own {
        Some(machine) => machine_figures(alloc, machine, &projection.machine, bound),
        None => projection_figures(&projection.machine),
    }
}

// The figures of all roles, in role order; or the first role for whose machine there is no derivation.
fn figures_of_roles(
    alloc: Global,
    own: &[Option<Machine>],
    projections: &[Projection],
    bound: u8,
) -> Result<Vec<Figures>, Underivable>
    requires bound { IsBound bound }
    requires session { (protocol : Protocol_data) × IsSession protocol projections.now (machines_of own.now projections.now) }
    ensures ok { IfOk result (λ figures. AreFigures bound (machines_of own.now projections.now) projections.now figures.items) }
    ensures err { IfErr result (λ u. (u.fault ≡ SearchFault.NoMemory) ⊎ IsUnderivable bound (machines_of own.now projections.now) projections.now u.role u.fault) }
{
    let mut all = Vec::new(alloc);
    for place in 0..projections.len() {
        let role = Role(place as u8);
        let figures = match role_figures(alloc, &own[place], &projections[place], bound) {
            Ok(figures) => figures,
            Err(fault) => return Err(Underivable { role, fault }),
        };
        if all.push(figures).is_err() {
            return Err(Underivable {
                role,
                fault: SearchFault::NoMemory,
            });
        }
    }
    Ok(all)
}

/// The figures of the derivations that the search would find for the document's session within the bound, in role order; or the
/// first reason why there are none.
pub fn session_figures(
    alloc: Global,
    document: &Document,
    bound: Bound,
) -> Result<Vec<Figures>, Refusal>
    requires ready { DocumentIsReady document.now }
    ensures ok { IfOk result (λ figures. HasSessionFigures bound document.now figures.items) }
    ensures err { IfErr result (λ r. (r ≡ Refusal.NoMemory) ⊎ HasNoDerivations bound document.now r) }
{
    let projections = session_projections(alloc, document)?;
    let own = document.machines.as_slice();
    let figures = figures_of_roles(alloc, own, projections.as_slice(), bound.number())?;
    Ok(figures)
}
