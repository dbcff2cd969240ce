//! What `show` answers to a document: its canonical text.

ghost use Rattle.std.specs.Prelude.{◌≡◌, IfOk};
ghost use Rattle.rs_documents.specs.Canonical.{CanBeShown};
ghost use Rattle.rs_answers.specs.Shown.{Shows};

use crate::answers::Answer;
use crate::verdicts::Verdict;
use rs_documents::{Document, print_document};
use rs_model::NoMemory;
use std::alloc::Global;

/// What `show` answers to a document, whether it is well formed or not.
pub fn show(alloc: Global, document: &Document) -> Result<Answer, NoMemory>
    requires { CanBeShown document.now }
    ensures { IfOk result (Shows document.now) }
{
    Ok(Answer {
        text: print_document(alloc, document)?,
        verdict: Verdict::Fine,
    })
}
