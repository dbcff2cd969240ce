//! What `draw` answers to a document.

ghost use Rattle.std.specs.Prelude.{◌≡◌, ◌<◌, IfOk, None, Some, length};
ghost use Rattle.rs_documents.specs.Canonical.{CanBeShown};
ghost use Rattle.rs_documents.specs.Ready.{DocumentIsReady};
ghost use Rattle.rs_answers.specs.Improves as improves;
ghost use Rattle.rs_draw.specs.Draws.{Draws, DrawsProjection, DrawsProtocol, DrawsRole};

use crate::own::{draw_own, drawn_machine};
use rs_answers::{Answer, Refusal, Verdict, line_of_answer, projections_of, refusal_answer};
use rs_documents::Document;
use rs_model::{Name, NoMemory};
use rs_pictures::sequence_picture;
use rs_text::find;
use rs_wellformed::well_formed;
use std::alloc::Global;

/// What `draw` answers to a document: the picture of its protocol, or with the name of a role that of the role's machine.
pub fn draw(alloc: Global, document: &Document, role: &Option<Name>) -> Result<Answer, NoMemory>
    requires ready { DocumentIsReady document.now }
    requires shown { CanBeShown document.now }
    ensures { IfOk result (Draws role.now document.now) }
{
    match role {
        Some(role) => draw_role(alloc, document, role),
        None => draw_protocol(alloc, document),
    }
}

/// What `draw` answers to a document: the picture of its protocol, whether it is well formed or not.
fn draw_protocol(alloc: Global, document: &Document) -> Result<Answer, NoMemory>
    requires { CanBeShown document.now }
    ensures { IfOk result (DrawsProtocol document.now) }
{
    Ok(Answer {
        text: sequence_picture(alloc, &document.names, &document.protocol)?,
        verdict: Verdict::Fine,
    })
}

/// The roles line has no such role.
fn unknown_role(alloc: Global) -> Result<Answer, NoMemory>
    ensures { IfOk result (λ a. a ≡ improves.unknown_role) }
{
    line_of_answer(alloc, b"unknown role", &[], Verdict::Malformed)
}

/// The projection of the role with the place; or why the protocol has no projections.
fn draw_projection(alloc: Global, document: &Document, place: usize) -> Result<Answer, NoMemory>
    requires ready { DocumentIsReady document.now }
    requires role { place < length document.now.names.roles }
    ensures { IfOk result (DrawsProjection document.now place) }
{
    let names = &document.names;
    let protocol = &document.protocol;
    if let Err(fault) = well_formed(protocol) {
        return refusal_answer(alloc, names, Refusal::IllFormed(fault));
    }
    let projections = match projections_of(alloc, protocol) {
        Ok(projections) => projections,
        Err(fault) => return refusal_answer(alloc, names, Refusal::from(fault)),
    };
    drawn_machine(alloc, names, &projections[place].machine)
}

/// What `draw` answers to a document and the name of a role: the picture of the role's machine in the document, or of its
/// projection if the document has no machine for it.
fn draw_role(alloc: Global, document: &Document, role: &Name) -> Result<Answer, NoMemory>
    requires { DocumentIsReady document.now }
    ensures { IfOk result (DrawsRole role.now document.now) }
{
    let names = &document.names;
    let Some(place) = find(names.roles.as_slice(), role.as_slice()) else {
        return unknown_role(alloc);
    };
    match &document.machines[place] {
        Some(machine) => draw_own(alloc, document, place, machine),
        None => draw_projection(alloc, document, place),
    }
}
