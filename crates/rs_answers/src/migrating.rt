//! What `migrate` answers to a document: its canonical text, where its own derivations pass.

ghost use Rattle.std.specs.Prelude.{IfOk};
ghost use Rattle.rs_documents.specs.Canonical.{CanBeShown};
ghost use Rattle.rs_documents.specs.Ready.{DocumentIsReady};
ghost use Rattle.rs_answers.specs.Migrates.{Migrates};

use crate::answers::Answer;
use crate::shown::show;
use crate::verifying::accept_by_own;
use rs_documents::Document;
use rs_model::NoMemory;
use std::alloc::Global;

/// Returns what `migrate` answers to a document: the first reason why the derivations in it don't show that its machines may
/// stand for their projections, or, if there is none, the document with these derivations. The text is made first, since a session that is accepted
/// has taken the document apart.
pub fn migrate(alloc: Global, document: Document) -> Result<Answer, NoMemory>
    requires ready { DocumentIsReady document }
    requires shown { CanBeShown document }
    ensures { IfOk result (Migrates document) }
{
    let shown = show(alloc, &document)?;
    match accept_by_own(alloc, document) {
        Ok(_accepted) => Ok(shown),
        Err(refused) => refused.answer(alloc),
    }
}
