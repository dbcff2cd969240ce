//! What `verify` answers to a document: its own derivations are tested.

ghost use Rattle.std.specs.Prelude.{◌≡◌, ◌≤◌, ◌+◌, ◌⊎◌, length, true, IfErr, IfNone, IfOk, IfSome, None, OnOk, Some};
ghost use Rattle.std.specs.List.{list_all};
ghost use Rattle.std.specs.Option.{is_some};
ghost use Rattle.rs_documents.specs.Ready.{DocumentIsReady};
ghost use Rattle.rs_model.specs.declared.limits.TheConstants.{MOST_ROLES};
ghost use Rattle.rs_safety.specs.Sessions.{AreOneEach, IsSession};
ghost use Rattle.rs_answers.specs.Report as of_accepted;
ghost use Rattle.rs_answers.specs.Sessions.{HasMachines};
ghost use Rattle.rs_answers.specs.Verified.{BlamesFirst, IsUnverifiedDocument, IsVerifiedDocument};
ghost use Rattle.rs_answers.specs.Verifying as spec;
ghost use Rattle.rs_answers.specs.Verifying.{AreCheckable, IsCheckable, IsUnverified, Verifies};

use crate::accepting::{AcceptedDocument, RefusedDocument};
use crate::answers::Answer;
use crate::refusals::Refusal;
use crate::reports::report;
use crate::sessions::{ProjectedSession, session_of};
use rs_derive::{Derivation, DeriveFault, check};
use rs_documents::Document;
use rs_model::{Machine, NoMemory, Protocol, Role};
use rs_project::Projection;
use rs_safety::{Accepted, accept};
use std::alloc::Global;

/// Why a role's own derivation doesn't show that its machine may stand for its projection.
#[derive(Clone, Copy, Debug)]
pub enum Blame {
    /// The document has none.
    Missing,
    /// It is refused, with its first fault.
    Fault(DeriveFault),
}

fn blame_of(own: &Option<Derivation>, machine: &Machine, projection: &Projection) -> Option<Blame>
    requires checkable { IsCheckable own.now machine.now projection.now }
    ensures { result ≡ spec.blame_of own.now machine.now projection.now }
{
    match own {
        None => Some(Blame::Missing),
        Some(derivation) => match check(derivation, machine, &projection.machine) {
            Ok(()) => None,
            Err(fault) => Some(Blame::Fault(fault)),
        },
    }
}

/// The first role whose own derivation doesn't show it, and why; the first of these roles has the number `first`.
fn first_blame(
    first: u8,
    own: &[Option<Derivation>],
    machines: &[Machine],
    projections: &[Projection],
) -> Option<(Role, Blame)>
    requires bounded { first + length own.now ≤ MOST_ROLES }
    requires checkable { AreCheckable own.now machines.now projections.now }
    ensures some { IfSome result (λ r. spec.first_blame first own.now machines.now projections.now ≡ Some (record { role = r.0; blame = r.1 })) }
    ensures none { IfNone result (spec.first_blame first own.now machines.now projections.now ≡ None) }
{
    let [own, owns @ ..] = own else {
        return None;
    };
    let [machine, machines @ ..] = machines else {
        return None;
    };
    let [projection, projections @ ..] = projections else {
        return None;
    };
    match blame_of(own, machine, projection) {
        Some(blame) => Some((Role(first), blame)),
        None => first_blame(first + 1, owns, machines, projections),
    }
}

/// Whether each role has its own derivation.
pub fn are_all_there(own: &[Option<Derivation>]) -> bool
    ensures { result ≡ list_all is_some own.now }
{
    own.iter().all(|held| held.is_some())
}

/// The derivations that are there, in role order.
fn those_there(alloc: Global, own: Vec<Option<Derivation>>) -> Result<Vec<Derivation>, NoMemory>
    ensures { IfOk result (λ derivations. derivations.items ≡ spec.those_there own.items) }
{
    let mut derivations = Vec::new(alloc);
    for held in own {
        if let Some(derivation) = held {
            derivations.push(derivation)?;
        }
    }
    Ok(derivations)
}

/// The session of the document, where each role has its own derivation; or the first reason why the document isn't verified.
fn session_with_own(alloc: Global, document: &Document) -> Result<ProjectedSession, Refusal>
    requires ready { DocumentIsReady document.now }
    ensures ok { IfOk result (λ s. HasMachines document.now s.projections.items s.machines.items) }
    ensures there { OnOk result (list_all is_some document.now.derivations ≡ true) }
    ensures err { IfErr result (λ r. (r ≡ Refusal.NoMemory) ⊎ IsUnverified document.now r) }
{
    let session = session_of(alloc, document)?;
    let own = document.derivations.as_slice();
    if are_all_there(own) {
        return Ok(session);
    }
    match first_blame(
        0,
        own,
        session.machines.as_slice(),
        session.projections.as_slice(),
    ) {
        Some((role, blame)) => Err(Refusal::Blamed { role, blame }),
        None => unreachable!(),
    }
}

/// Accepts the session by the derivations, one of each role; or names the first role whose own is refused.
fn accept_session(
    alloc: Global,
    protocol: Protocol,
    session: ProjectedSession,
    own: Vec<Option<Derivation>>,
) -> Result<Accepted, Refusal>
    requires session { IsSession protocol session.projections.items session.machines.items }
    requires there { list_all is_some own.items ≡ true }
    requires derivations { AreOneEach protocol.roles (spec.those_there own.items) }
    ensures accepted { IfOk result (λ a. a ≡ record { protocol = protocol; projections = session.projections.items; derivations = spec.those_there own.items; machines = session.machines.items }) }
    ensures none { OnOk result (spec.first_blame 0 own.items session.machines.items session.projections.items ≡ None) }
    ensures refused { IfErr result (BlamesFirst own.items session.machines.items session.projections.items) }
{
    let ProjectedSession {
        projections,
        machines,
    } = session;
    let derivations = those_there(alloc, own)?;
    match accept(protocol, projections, machines, derivations) {
        Ok(accepted) => Ok(accepted),
        Err(refused) => Err(Refusal::Blamed {
            role: refused.role,
            blame: Blame::Fault(refused.cause),
        }),
    }
}

/// Accepts the session of the document by the document's own derivations; or gives the first reason why it isn't. Nothing is
/// searched.
pub fn accept_by_own(alloc: Global, document: Document) -> Result<AcceptedDocument, RefusedDocument>
    requires ready { DocumentIsReady document }
    ensures accepted { IfOk result (IsVerifiedDocument document) }
    ensures refused { IfErr result (IsUnverifiedDocument document) }
{
    let session = session_with_own(alloc, &document);
    let Document {
        names,
        protocol,
        derivations,
        ..
    } = document;
    let session = match session {
        Ok(session) => session,
        Err(refusal) => return Err(RefusedDocument { names, refusal }),
    };
    match accept_session(alloc, protocol, session, derivations) {
        Ok(session) => Ok(AcceptedDocument { names, session }),
        Err(refusal) => Err(RefusedDocument { names, refusal }),
    }
}

/// The report of an accepted document.
fn report_of(alloc: Global, accepted: &AcceptedDocument) -> Result<Answer, NoMemory>
    ensures { IfOk result (λ a. a ≡ of_accepted.report accepted.now.names.roles accepted.now.session.derivations) }
{
    let AcceptedDocument { names, session } = accepted;
    report(alloc, names.roles.as_slice(), session.derivations())
}

/// Returns what `verify` answers to a document: the first reason why the derivations in it don't show that its machines may
/// stand for their projections, or, if there is none, the report of its session, with the figures of these derivations.
pub fn verify(alloc: Global, document: Document) -> Result<Answer, NoMemory>
    requires ready { DocumentIsReady document }
    ensures { IfOk result (Verifies document) }
{
    match accept_by_own(alloc, document) {
        Ok(accepted) => report_of(alloc, &accepted),
        Err(refused) => refused.answer(alloc),
    }
}
