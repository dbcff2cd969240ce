//! Texts that are opened, and those that are refused, with the reason.

ghost use Rattle.std.specs.Prelude.{◌≡◌, ◌≤◌, IfErr, IfOk, false, length};
ghost use Rattle.rs_documents.specs.Documents.{SpellsDocument};
ghost use Rattle.rs_documents.specs.Ready.{DocumentIsReady};
ghost use Rattle.rs_held.specs.Refusals.{IsExplained, RefusesWithReason, Tests};
ghost use Rattle.rs_model.specs.declared.limits.TheConstants.{DEFAULT_BOUND, MOST_BYTES};
ghost use Rattle.rs_open.specs.Opening.{IsCertifiedText, IsRefusal, IsRefusedBy, IsUncertified, RefusesToCertify};
ghost use Rattle.rs_text.specs.declared.faults.TextKind.TheVariants as kinds;

use rs_answers::{Answer, Refusal, are_all_there, session_of};
use rs_documents::{Document, read_document};
use rs_model::{Bound, MOST_BYTES, NoMemory};
use rs_open::{OpenRefused, OpenSession, open_certified};
use rs_reasons::explain;
use rs_text::TextKind;
use std::alloc::Global;

/// That the document has no session, unless all that is known is that memory was refused.
fn without_session(refusal: Refusal) -> Result<bool, NoMemory>
    ensures { IfOk result (λ tested. (tested ≡ false) × (refusal ≡ Refusal.NoMemory → ⊥)) }
{
    match refusal {
        Refusal::NoMemory => Err(NoMemory),
        _ => Ok(false),
    }
}

/// Whether the document is accepted or refused by its own derivations: it has a session, and a derivation of each role.
///
/// The error is that memory was refused.
fn is_tested(alloc: Global, document: &Document) -> Result<bool, NoMemory>
    requires { DocumentIsReady document.now }
    ensures { IfOk result (Tests document.now) }
{
    if !are_all_there(document.derivations.as_slice()) {
        return Ok(false);
    }
    match session_of(alloc, document) {
        Ok(session) => {
            drop(session);
            Ok(true)
        }
        Err(refusal) => without_session(refusal),
    }
}

/// The refusal of a text that spells this document, with the reason.
fn with_reason_of(
    alloc: Global,
    text: &[u8],
    document: &Document,
    refusal: Answer,
) -> Result<Answer, NoMemory>
    requires short { length text.now ≤ MOST_BYTES }
    requires spells { SpellsDocument text.now document.now }
    requires ready { DocumentIsReady document.now }
    requires refused { IsRefusedBy (IsUncertified DEFAULT_BOUND) text.now refusal }
    ensures { IfOk result (IsExplained DEFAULT_BOUND text.now) }
{
    let tested = is_tested(alloc, document)?;
    if tested {
        Ok(refusal)
    } else {
        explain(alloc, document, text, Bound::standard())
    }
}

/// The refusal of a text that is at fault, unless all that is known is that memory was refused.
fn of_fault(kind: TextKind, refusal: Answer) -> Result<Answer, NoMemory>
    ensures { IfOk result (λ answer. (answer ≡ refusal) × (kind ≡ kinds.NoMemory → ⊥)) }
{
    match kind {
        TextKind::NoMemory => Err(NoMemory),
        _ => Ok(refusal),
    }
}

/// The refusal of a text, with the reason: what `explain` answers, or where one of the text's own derivations is refused what `verify`
/// does.
///
/// The error is that memory was refused.
#[tactic(auto, using(crate::proofs::Explained::long))]
fn with_reason(alloc: Global, text: &[u8], refusal: Answer) -> Result<Answer, NoMemory>
    requires { IsRefusedBy (IsUncertified DEFAULT_BOUND) text.now refusal }
    ensures { IfOk result (IsExplained DEFAULT_BOUND text.now) }
{
    if text.len() > MOST_BYTES {
        return Ok(refusal);
    }
    match read_document(alloc, text) {
        Ok(document) => with_reason_of(alloc, text, &document, refusal),
        Err(fault) => of_fault(fault.kind, refusal),
    }
}

/// The answer as a refusal, if it was made.
fn refusal_of(answer: Result<Answer, NoMemory>) -> OpenRefused
    ensures { IsRefusal answer result }
{
    match answer {
        Ok(Answer { text, verdict }) => OpenRefused::Answered { text, verdict },
        Err(NoMemory) => OpenRefused::NoMemory,
    }
}

/// Why the text isn't opened, with the reason.
fn explained(alloc: Global, text: &[u8], refused: OpenRefused) -> OpenRefused
    requires { RefusesToCertify DEFAULT_BOUND text.now refused }
    ensures { RefusesWithReason DEFAULT_BOUND text.now result }
{
    match refused {
        OpenRefused::Answered {
            text: told,
            verdict,
        } => {
            let refusal = Answer {
                text: told,
                verdict,
            };
            refusal_of(with_reason(alloc, text, refusal))
        }
        OpenRefused::NoMemory => OpenRefused::NoMemory,
    }
}

/// Accepts the text by its own derivations where it has one of each role, and else by a search.
///
/// The error is what `explain` answers to the text, or where one of its own derivations is refused what `verify` does; or that
/// memory was refused.
pub(crate) fn opened(alloc: Global, text: &[u8]) -> Result<OpenSession, OpenRefused>
    ensures opened { IfOk result (IsCertifiedText DEFAULT_BOUND text.now) }
    ensures refused { IfErr result (RefusesWithReason DEFAULT_BOUND text.now) }
{
    match open_certified(alloc, text, Bound::standard()) {
        Ok(opened) => Ok(opened),
        Err(refused) => Err(explained(alloc, text, refused)),
    }
}
