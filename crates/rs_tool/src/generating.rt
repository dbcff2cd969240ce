//! The answer to `gen`.

ghost use Rattle.std.specs.Prelude.{IfOk, false};
ghost use Rattle.rs_tool.specs.Answers.{AnswersPipeline, AnswersText};
ghost use Rattle.rs_words.specs.declared.tasks.DocumentTask.TheVariants.{Check};

use crate::pipelines::pipeline_of;
use crate::texts::{pipeline_summary, pipeline_text};
use rs_answers::Piece::Words;
use rs_answers::{Answer, answer_to_fault, check, too_large};
use rs_documents::read_document;
use rs_model::{Bound, MOST_BYTES, NoMemory};
use std::alloc::Global;

/// What `check` answers to a text.
fn check_text(alloc: Global, bytes: &[u8], bound: Bound) -> Result<Answer, NoMemory>
    ensures { IfOk result (AnswersText (Check (record { bound = bound; derivations = false })) bytes.now) }
{
    if bytes.len() > MOST_BYTES {
        return too_large(alloc, &[Words(b"text")]);
    }
    match read_document(alloc, bytes) {
        Ok(document) => check(alloc, &document, bound),
        Err(fault) => answer_to_fault(alloc, bytes, fault),
    }
}

/// The line that says what the pipeline of the number is, and what `check` answers to its document.
pub fn answer_to_gen(alloc: Global, number: u32) -> Result<Answer, NoMemory>
    ensures { IfOk result (AnswersPipeline number) }
{
    let pipeline = pipeline_of(number);
    let document = pipeline_text(alloc, pipeline)?;
    let checked = check_text(alloc, document.as_slice(), Bound::standard())?;
    let mut text = pipeline_summary(alloc, pipeline)?;
    text.push(checked.text.as_slice())?;
    Ok(Answer {
        text,
        verdict: checked.verdict,
    })
}
