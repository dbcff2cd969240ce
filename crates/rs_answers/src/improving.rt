//! What `improve` answers to a document: the document with a machine that sends earlier.

ghost use Rattle.std.specs.Prelude.{◌≡◌, ◌<◌, IfOk, None, Some, length, slice_get};
ghost use Rattle.rs_documents.specs.Canonical.{CanBeShown};
ghost use Rattle.rs_documents.specs.Ready.{DocumentIsReady};
ghost use Rattle.rs_improve.specs.Improved.{IsImproved};
ghost use Rattle.rs_project.specs.Data.{Projection_data};
ghost use Rattle.rs_text.specs.Names.{place_of};
ghost use Rattle.rs_answers.specs.Improves as spec;
ghost use Rattle.rs_answers.specs.Improves.{Improves, ShowsBehind, improved_document, with_own};
ghost use Rattle.rs_answers.specs.Improving.{CanBeImproved, IsSessionWithout, TellsImproved};

use crate::answers::Answer;
use crate::checks::one_for_each_role;
use crate::derivations::{DerivedSession, derived_session};
use crate::refusal_texts::{cut_text, unknown_role};
use crate::refusals::refusal_answer;
use crate::texts::Piece::{Number, Words};
use crate::texts::text_of;
use crate::verdicts::Verdict;
use rs_derive::Derivation;
use rs_documents::{Document, print_document};
use rs_improve::{Ceased, ImproveFault, Improved, improve};
use rs_model::{Bound, Name, NoMemory};
use rs_project::Projection;
use rs_text::{Text, find};
use std::alloc::Global;

/// Why no more swaps were made.
fn ceased_text(alloc: Global, ceased: Ceased) -> Result<Text, NoMemory>
    ensures { IfOk result (λ text. text ≡ spec.ceased_text ceased) }
{
    match ceased {
        Ceased::Asked => text_of(alloc, &[Words(b"asked")]),
        Ceased::NoSwap => text_of(alloc, &[Words(b"no swap")]),
        Ceased::TooManyStates => text_of(alloc, &[Words(b"too many states")]),
        Ceased::TooLarge => text_of(alloc, &[Words(b"too large")]),
        Ceased::NotFound { cut } => text_of(alloc, &[Words(cut_text(cut))]),
        Ceased::Forgets { node } => text_of(
            alloc,
            &[Words(b"forgets at node "), Number(u64::from(node))],
        ),
    }
}

/// The comment that says how many swaps were made, and gives this reason why no more.
fn comment_on_swaps<'a>(
    alloc: Global,
    role: &'a [u8],
    swaps: u32,
    reason: &'a [u8],
) -> Result<Text, NoMemory>
    ensures { IfOk result (λ line. line ≡ spec.comment_on_swaps role.now swaps reason.now) }
{
    text_of(
        alloc,
        &[
            Words(b"# "),
            Words(role),
            Words(b": swaps "),
            Number(u64::from(swaps)),
            Words(b", "),
            Words(reason),
            Words(b"\n"),
        ],
    )
}

/// The comment that says how many swaps were made, and why no more.
fn swaps_line(alloc: Global, role: &[u8], improved: &Improved) -> Result<Text, NoMemory>
    ensures { IfOk result (λ line. line ≡ spec.swaps_line role.now improved.now) }
{
    let reason = ceased_text(alloc, improved.ceased)?;
    comment_on_swaps(alloc, role, improved.swaps, reason.as_slice())
}

/// The document with the improved machine, where a swap was made, and with the derivations of all machines.
fn improved_document(
    alloc: Global,
    mut document: Document,
    place: usize,
    mut derivations: Vec<Derivation>,
    improved: Improved,
) -> Result<Document, NoMemory>
    requires role { place < length document.machines }
    requires derived { place < length derivations.items }
    ensures { IfOk result (λ d. d ≡ improved_document document place derivations.items improved) }
{
    let Improved {
        machine,
        swaps,
        derivation,
        ..
    } = improved;
    document.machines[place] = if swaps == 0 { None } else { Some(machine) };
    derivations[place] = derivation;
    document.derivations = one_for_each_role(alloc, derivations)?;
    Ok(document)
}

/// Shows the document after the line.
fn show_behind(alloc: Global, mut line: Text, document: &Document) -> Result<Answer, NoMemory>
    requires { CanBeShown document.now }
    ensures { IfOk result (ShowsBehind line document.now) }
{
    let shown = print_document(alloc, document)?;
    line.push(shown.as_slice())?;
    Ok(Answer {
        text: line,
        verdict: Verdict::Fine,
    })
}

/// Improves the projection of the role with the place.
fn improve_projection(
    alloc: Global,
    projections: &[Projection],
    place: usize,
    bound: Bound,
    swaps: u32,
) -> Result<Improved, NoMemory>
    requires known { place < length projections.now }
    requires proper { (projection : Projection_data) → slice_get projections.now place ≡ Some projection → CanBeImproved bound projection }
    ensures { IfOk result (λ improved. (projection : Projection_data) → slice_get projections.now place ≡ Some projection → IsImproved projection.machine bound swaps improved) }
{
    let projection = &projections[place];
    match improve(alloc, &projection.machine, bound.number(), swaps) {
        Ok(improved) => Ok(improved),
        Err(ImproveFault::TooLarge) => unreachable!(),
        Err(ImproveFault::NoMemory) => Err(NoMemory),
    }
}

/// Improves the projection of the role with the place, and shows the document with the resulting machine.
fn improve_session(
    alloc: Global,
    document: Document,
    role: &[u8],
    place: usize,
    session: DerivedSession,
    bound: Bound,
    swaps: u32,
) -> Result<Answer, NoMemory>
    requires ready { DocumentIsReady document }
    requires shown { CanBeShown document }
    requires role { place_of role.now document.names.roles ≡ Some place }
    requires session { IsSessionWithout bound document place session }
    ensures { IfOk result (TellsImproved role.now bound swaps document place session.derivations.items) }
{
    let DerivedSession {
        projections,
        derivations,
        ..
    } = session;
    let improved = improve_projection(alloc, projections.as_slice(), place, bound, swaps)?;
    let line = swaps_line(alloc, role, &improved)?;
    let document = improved_document(alloc, document, place, derivations, improved)?;
    show_behind(alloc, line, &document)
}

/// The document without the role's own machine.
fn without_own(mut document: Document, place: usize) -> Document
    requires { place < length document.machines }
    ensures { result ≡ with_own document place None }
{
    document.machines[place] = None;
    document
}

/// What `improve` answers to a document: it has no such role, or is refused without the role's own machine, as `check`
/// refuses it; otherwise it is shown with the projection of the role improved by at most this number of swaps, if one could be made,
/// and with the derivations of all machines.
pub fn improve_role(
    alloc: Global,
    document: Document,
    role: &Name,
    bound: Bound,
    swaps: u32,
) -> Result<Answer, NoMemory>
    requires ready { DocumentIsReady document }
    requires shown { CanBeShown document }
    ensures { IfOk result (Improves role.now bound swaps document) }
{
    let role = role.as_slice();
    let Some(place) = find(document.names.roles.as_slice(), role) else {
        return unknown_role(alloc);
    };
    let document = without_own(document, place);
    match derived_session(alloc, &document, bound) {
        Ok(session) => improve_session(alloc, document, role, place, session, bound, swaps),
        Err(refusal) => refusal_answer(alloc, &document.names, refusal),
    }
}
