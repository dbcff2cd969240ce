//! What `project` answers to a document.

ghost use Rattle.std.specs.Prelude.{◌≡◌, ◌++◌, IfOk, OnOk};
ghost use Rattle.rs_documents.specs.Ready.{DocumentIsReady};
ghost use Rattle.rs_answers.specs.Tables.{Projects, tables_text};

use crate::answers::Answer;
use crate::refusal_texts::{proj_answer, wf_answer};
use crate::sessions::projections_of;
use crate::verdicts::Verdict;
use rs_documents::Document;
use rs_model::{Names, NoMemory};
use rs_project::Projection;
use rs_tables::print_table;
use rs_text::Text;
use rs_wellformed::well_formed;
use std::alloc::Global;

/// The tables of the projections.
fn tables_text(alloc: Global, names: &Names, projections: &[Projection]) -> Result<Text, NoMemory>
    ensures { IfOk result (λ text. text ≡ tables_text names.now projections.now) }
{
    let mut text = Text::new(alloc);
    for projection in projections {
        let table = print_table(alloc, names, &projection.machine)?;
        text.push(table.as_slice())?;
    }
    Ok(text)
}

/// Returns what `project` answers to a document: why it has no projections, or their tables.
pub fn project_all(alloc: Global, document: &Document) -> Result<Answer, NoMemory>
    requires { DocumentIsReady document.now }
    ensures { IfOk result (Projects document.now) }
{
    let names = &document.names;
    let protocol = &document.protocol;
    if let Err(fault) = well_formed(protocol) {
        return wf_answer(alloc, names, fault);
    }
    let projections = match projections_of(alloc, protocol) {
        Ok(projections) => projections,
        Err(fault) => return proj_answer(alloc, names, fault),
    };
    Ok(Answer {
        text: tables_text(alloc, names, projections.as_slice())?,
        verdict: Verdict::Fine,
    })
}
