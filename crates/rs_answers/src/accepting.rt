//! Documents whose session is accepted.

ghost use Rattle.std.specs.Prelude.{◌≡◌, ℕ, IfErr, IfOk, OnOk, length};
ghost use Rattle.rs_answers.specs.Accepting.{IsAcceptedDocument, IsRefusedDocument};
ghost use Rattle.rs_answers.specs.Derivations.{AreCanonical};
ghost use Rattle.rs_answers.specs.Refusals as spec;
ghost use Rattle.rs_documents.specs.Ready.{DocumentIsReady};
ghost use Rattle.rs_model.specs.Limits.{IsBound};
ghost use Rattle.rs_safety.specs.Sessions.{IsSession};

use crate::answers::Answer;
use crate::derivations::{DerivedSession, derived_session};
use crate::refusals::{Refusal, refusal_answer};
use rs_documents::Document;
use rs_model::{Bound, Names, NoMemory, Protocol};
use rs_safety::{Accepted, accept};
use std::alloc::Global;

/// A document that is accepted: its names, and its session.
#[derive(Drop)]
pub struct AcceptedDocument {
    pub names: Names,
    pub session: Accepted,
}

/// A document that is refused: its names, and why.
#[derive(Drop)]
pub struct RefusedDocument {
    pub names: Names,
    pub refusal: Refusal,
}

impl RefusedDocument {
    /// The answer to it; no answer if memory ran out.
    pub fn answer(self, alloc: Global) -> Result<Answer, NoMemory>
        ensures answer { IfOk result (λ a. a ≡ spec.refusal_answer self.names self.refusal) }
        ensures memory { OnOk result (self.refusal ≡ Refusal.NoMemory → ⊥) }
    {
        refusal_answer(alloc, &self.names, self.refusal)
    }
}

/// Accepts a session with the derivations that the search found.
fn accept_derived(protocol: Protocol, session: DerivedSession) -> Accepted
    requires session { IsSession protocol session.projections.items session.machines.items }
    requires derivations { (bound : ℕ) × IsBound bound × AreCanonical bound session.machines.items session.projections.items session.derivations.items }
    ensures { result ≡ record { protocol = protocol; projections = session.projections.items; derivations = session.derivations.items; machines = session.machines.items } }
{
    let DerivedSession {
        projections,
        machines,
        derivations,
    } = session;
    match accept(protocol, projections, machines, derivations) {
        Ok(accepted) => accepted,
        Err(_) => unreachable!(),
    }
}

/// Accepts the session of the document, with the canonical derivations of its machines within the bound; or gives the first
/// reason why it isn't.
pub fn accept_document(
    alloc: Global,
    document: Document,
    bound: Bound,
) -> Result<AcceptedDocument, RefusedDocument>
    requires ready { DocumentIsReady document }
    ensures accepted { IfOk result (IsAcceptedDocument bound document) }
    ensures refused { IfErr result (IsRefusedDocument bound document) }
{
    let derived = derived_session(alloc, &document, bound);
    let Document {
        names,
        protocol,
        ..
    } = document;
    match derived {
        Ok(session) => Ok(AcceptedDocument {
            names,
            session: accept_derived(protocol, session),
        }),
        Err(refusal) => Err(RefusedDocument { names, refusal }),
    }
}
