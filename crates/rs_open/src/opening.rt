//! Texts that are opened, and those that are refused.

ghost use Rattle.std.specs.Prelude.{◌≡◌, ◌≤◌, IfErr, IfOk, OnOk, length};
ghost use Rattle.rs_documents.specs.Documents.{SpellsDocument};
ghost use Rattle.rs_documents.specs.Ready.{DocumentIsReady};
ghost use Rattle.rs_model.specs.declared.limits.TheConstants.{DEFAULT_BOUND, MOST_BYTES};
ghost use Rattle.rs_open.specs.Opening.{HasNames, IsCertifiedText, IsOpenedText, IsRefusal, IsVerifiedText, Opens, RefusesToCertify, RefusesToOpen, RefusesToRead, RefusesToVerify, text_of_refusal};

use crate::sessions::OpenSession;
use rs_answers::Piece::Words;
use rs_answers::{
    AcceptedDocument, Answer, RefusedDocument, Verdict, accept_by_own, accept_document,
    answer_to_fault, are_all_there, too_large,
};
use rs_documents::{Document, read_document};
use rs_model::{Bound, MOST_BYTES, NoMemory};
use rs_text::Text;
use std::alloc::Global;
use std::error::Error;
use std::fmt;

/// Why a text isn't opened.
#[derive(Debug, Drop)]
pub enum OpenRefused {
    /// The text is refused: what `check` answers to it, and what the answer says.
    Answered { text: Text, verdict: Verdict },
    /// Memory was refused, and nothing is said of the text.
    NoMemory,
}

impl OpenRefused {
    /// The answer of `check` to the text, with the end of its last line; if memory ran out, a line that says so.
    pub fn text(&self) -> &[u8]
        ensures { result.now ≡ text_of_refusal self.now }
    {
        match self {
            OpenRefused::Answered { text, .. } => text.as_slice(),
            OpenRefused::NoMemory => b"no memory\n",
        }
    }

    /// The answer as a refusal, if it was made.
    fn answered(answer: Result<Answer, NoMemory>) -> OpenRefused
        ensures { IsRefusal answer result }
    {
        match answer {
            Ok(Answer { text, verdict }) => OpenRefused::Answered { text, verdict },
            Err(NoMemory) => OpenRefused::NoMemory,
        }
    }
}

impl fmt::Display for OpenRefused {
    ghost use Rattle.std.specs.Prelude.{Some};
    ghost use Rattle.rs_open.specs.Opening.{text_of_refusal};

    ghost output = { λ r. Some (text_of_refusal r) };

    /// Writes the text. The errors are the writer's, and that the text isn't UTF-8.
    fn fmt<W: fmt::Write>(&self, f: &mut fmt::Formatter<W>) -> fmt::Result {
        match str::from_utf8(self.text()) {
            Ok(text) => f.write_str(text),
            Err(_) => Err(fmt::Error),
        }
    }
}

impl Error for OpenRefused {}

/// The document that the text spells.
///
/// The error is what `check` answers to a text that is too long or at fault, or that memory was refused.
#[tactic(auto, using(crate::proofs::Opened::long_unread))]
fn document_of(alloc: Global, text: &[u8]) -> Result<Document, OpenRefused>
    ensures short { OnOk result (length text.now ≤ MOST_BYTES) }
    ensures spells { IfOk result (SpellsDocument text.now) }
    ensures ready { IfOk result DocumentIsReady }
    ensures refused { IfErr result (RefusesToRead text.now) }
{
    if text.len() > MOST_BYTES {
        return Err(OpenRefused::answered(too_large(alloc, &[Words(b"text")])));
    }
    match read_document(alloc, text) {
        Ok(document) => Ok(document),
        Err(fault) => Err(OpenRefused::answered(answer_to_fault(alloc, text, fault))),
    }
}

/// The session of an accepted document; the error is what is answered to a refused one, or that memory was refused.
fn opened(
    alloc: Global,
    accepted: Result<AcceptedDocument, RefusedDocument>,
) -> Result<OpenSession, OpenRefused>
    requires named { IfOk accepted HasNames }
    ensures { Opens accepted result }
{
    match accepted {
        Ok(accepted) => Ok(OpenSession::of(accepted)),
        Err(refused) => Err(OpenRefused::answered(refused.answer(alloc))),
    }
}

/// Reads the text and has its document accepted, with the canonical derivations of its machines within the bound.
///
/// The error is what `check` answers to the text within that bound, or that memory was refused.
pub fn open_within(alloc: Global, text: &[u8], bound: Bound) -> Result<OpenSession, OpenRefused>
    ensures opened { IfOk result (IsOpenedText bound text.now) }
    ensures refused { IfErr result (RefusesToOpen bound text.now) }
{
    let document = document_of(alloc, text)?;
    opened(alloc, accept_document(alloc, document, bound))
}

/// Opens the text as [`open_within`] does, within the bound that `check` has if none is given.
pub fn open(alloc: Global, text: &[u8]) -> Result<OpenSession, OpenRefused>
    ensures opened { IfOk result (IsOpenedText DEFAULT_BOUND text.now) }
    ensures refused { IfErr result (RefusesToOpen DEFAULT_BOUND text.now) }
{
    open_within(alloc, text, Bound::standard())
}

/// Reads the text and has its document accepted by the derivations in the text, one of each role. They are tested, and nothing
/// is searched.
///
/// The error is what `verify` answers to the text, or that memory was refused.
pub fn open_verified(alloc: Global, text: &[u8]) -> Result<OpenSession, OpenRefused>
    ensures opened { IfOk result (IsVerifiedText text.now) }
    ensures refused { IfErr result (RefusesToVerify text.now) }
{
    let document = document_of(alloc, text)?;
    opened(alloc, accept_by_own(alloc, document))
}

/// Opens the text by the derivations in it, as [`open_verified`] does, if it has one of each role, and otherwise by a search,
/// as [`open_within`] does. So a program tests, when it starts, what was searched when it was built.
///
/// The error is what `verify`, or `check` within the bound, answers to the text, or that memory was refused.
pub fn open_certified(alloc: Global, text: &[u8], bound: Bound) -> Result<OpenSession, OpenRefused>
    ensures opened { IfOk result (IsCertifiedText bound text.now) }
    ensures refused { IfErr result (RefusesToCertify bound text.now) }
{
    let document = document_of(alloc, text)?;
    let accepted = if are_all_there(document.derivations.as_slice()) {
        accept_by_own(alloc, document)
    } else {
        accept_document(alloc, document, bound)
    };
    opened(alloc, accepted)
}
