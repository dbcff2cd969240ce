//! The session of a document: its projections and its machines.

ghost use Rattle.std.specs.Prelude.{◌≡◌, ◌<◌, ◌⊎◌, ◌^◌, length, IfOk, IfErr, IfSome, IfNone, Some, None};
ghost use Rattle.std.specs.List.{All};
ghost use Rattle.rs_project.specs.Numbered.{AreNumberedProjections};
ghost use Rattle.rs_documents.specs.Ready.{DocumentIsReady};
ghost use Rattle.rs_answers.specs.Refusals.{HasNoSession};
ghost use Rattle.rs_answers.specs.OwnMachines.{first_own_refusal};
ghost use Rattle.rs_answers.specs.Sessions.{HasMachines, Refuses, machine_or, machines_of};
ghost use Rattle.rs_wellformed.specs.WellFormed.{IsWellFormed};

use crate::refusals::Refusal;
use rs_documents::Document;
use rs_model::{Machine, MachineFault, NoMemory, Protocol, Role};
use rs_project::{ProjFault, Projection, project};
use rs_wellformed::well_formed;
use std::alloc::Global;

/// The session of a document: a projection and a machine for each role, in role order.
#[derive(Drop)]
pub struct ProjectedSession {
    pub projections: Vec<Projection>,
    pub machines: Vec<Machine>,
}

/// The projections of the protocol onto its roles, in their order; or why there is none onto the first role onto which
/// there is none.
pub fn projections_of(alloc: Global, protocol: &Protocol) -> Result<Vec<Projection>, ProjFault>
    requires well_formed { IsWellFormed protocol.now }
    requires bounded { length protocol.now.nodes < 2 ^ 32 }
    ensures ok { IfOk result (λ projections. AreNumberedProjections protocol.now projections.items) }
    ensures err { IfErr result (λ e. (e ≡ ProjFault.NoMemory) ⊎ Refuses protocol.now e) }
{
    let mut projections = Vec::new(alloc);
    for role in 0..protocol.roles {
        let projection = match project(alloc, protocol, Role(role)) {
            Ok(projection) => projection,
            Err(fault) => return Err(fault),
        };
        projections.push(projection)?;
    }
    Ok(projections)
}

/// The role's machine in the document, or its projection if the document has none.
fn machine_or(
    alloc: Global,
    own: &Option<Machine>,
    projection: &Projection,
) -> Result<Machine, NoMemory>
    ensures { IfOk result (λ m. m ≡ machine_or own.now projection.now) }
{
    match own {
        Some(machine) => machine.copy(alloc),
        None => projection.machine.copy(alloc),
    }
}

/// The machines of the session, in role order.
pub fn machines_of(
    alloc: Global,
    own: &[Option<Machine>],
    projections: &[Projection],
) -> Result<Vec<Machine>, NoMemory>
    ensures { IfOk result (λ machines. machines.items ≡ machines_of own.now projections.now) }
{
    let mut machines = Vec::new(alloc);
    for place in 0..own.len().min(projections.len()) {
        machines.push(machine_or(alloc, &own[place], &projections[place])?)?;
    }
    Ok(machines)
}

/// The first machine in the document of one of the first n roles that isn't well formed: its role and its first fault. The machines of
/// the other roles are projections, and need no test.
fn first_refusal(own: &[Option<Machine>], roles: u8) -> Option<(Role, MachineFault)>
    requires { All (λ held. IfSome held (λ m. length m.states < 2 ^ 32)) own.now }
    ensures some { IfSome result (λ r. first_own_refusal roles own.now ≡ Some (record { role = r.0; fault = r.1 })) }
    ensures none { IfNone result (first_own_refusal roles own.now ≡ None) }
{
    for held in own {
        let Some(machine) = held else {
            continue;
        };
        if let Err(fault) = machine.check(roles) {
            return Some((machine.role, fault));
        }
    }
    None
}

/// The projections of the document's session, where its own machines are well formed; or the first reason why it has no
/// session.
pub fn session_projections(alloc: Global, document: &Document) -> Result<Vec<Projection>, Refusal>
    requires { DocumentIsReady document.now }
    ensures ok { IfOk result (λ projections. HasMachines document.now projections.items (machines_of document.now.machines projections.items)) }
    ensures err { IfErr result (λ r. (r ≡ Refusal.NoMemory) ⊎ HasNoSession document.now r) }
{
    let protocol = &document.protocol;
    well_formed(protocol)?;
    let projections = projections_of(alloc, protocol)?;
    match first_refusal(document.machines.as_slice(), protocol.roles) {
        Some((role, fault)) => Err(Refusal::IllMachine { role, fault }),
        None => Ok(projections),
    }
}

/// The session of the document; or the first reason why it has none.
pub fn session_of(alloc: Global, document: &Document) -> Result<ProjectedSession, Refusal>
    requires { DocumentIsReady document.now }
    ensures ok { IfOk result (λ s. HasMachines document.now s.projections.items s.machines.items) }
    ensures err { IfErr result (λ r. (r ≡ Refusal.NoMemory) ⊎ HasNoSession document.now r) }
{
    let projections = session_projections(alloc, document)?;
    let own = document.machines.as_slice();
    let machines = machines_of(alloc, own, projections.as_slice())?;
    Ok(ProjectedSession {
        projections,
        machines,
    })
}
