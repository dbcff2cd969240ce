//! What comes of a task and its input, before a session is run.

ghost use Rattle.std.specs.Prelude.{◌≡◌, ◌<◌, ◌≤◌, ℕ, List, option_map, length, vec_len, IfOk, IfSome, OnOk, Ok, Err};
ghost use Rattle.std.specs.Io.KnownBytes.{IsAtEnd};
ghost use Rattle.rs_runs.specs.Ready.{IsReadyFor, Warrants};
ghost use Rattle.rs_io.specs.Faults.{Rose};
ghost use Rattle.rs_model.specs.declared.limits.TheConstants.{MOST_BYTES};
ghost use Rattle.rs_model.specs.declared.runs.Workers.{Workers};
ghost use Rattle.rs_text.specs.declared.faults.TextKind.TheVariants as kind;
ghost use Rattle.rs_tool.specs.Answers.{fault_answer_of};
ghost use Rattle.rs_tool.specs.Data.{input_of};
ghost use Rattle.rs_tool.specs.Preparing.{IsInput, Prepares};
ghost use Rattle.rs_tool.specs.Sessions.{Gives};
ghost use Rattle.rs_tool.specs.Tasks.{ReadsTheInput};
ghost use Rattle.rs_words.specs.Meaning.{SpellsTask};
ghost use Rattle.rs_words.specs.Tasks.{workers_of};

use crate::generating::answer_to_gen;
use crate::statuses::CallStop;
use rs_answers::Piece::Words;
use rs_answers::{
    Answer, answer_to_fault, check, check_with_derivations, improve_role, migrate, project_all,
    show, too_large, verify,
};
use rs_documents::read_document;
use rs_draw::draw;
use rs_io::{ReadStop, Source, read_all};
use rs_model::{MOST_BYTES, NoMemory};
use rs_reasons::{explain, explain_fault};
use rs_run_pictures::draw_run;
use rs_runs::{Prepared, ready_demo, ready_run};
use rs_text::TextFault;
use rs_words::{DocumentTask, Task};
use std::alloc::Global;

/// All that the source has left, or None where that is longer than a text may be.
fn read_input<S: Source>(alloc: Global, source: &mut S) -> Result<Option<Vec<u8>>, CallStop>
    ensures input { IfSome (S.left source.old) (λ bytes. IfOk result (λ input. IsInput bytes (option_map (λ v. v.items) input))) }
    ensures short { IfOk result (λ input. IfSome input (λ v. vec_len v ≤ MOST_BYTES)) }
    ensures end { IfSome (S.left source.old) (λ bytes. length bytes ≤ MOST_BYTES → OnOk result (IsAtEnd (S.left source.new))) }
    ensures read_fault { result ≡ Err CallStop.ReadFault → Rose (S.faults source.old) (S.faults source.new) (S.last source.new) }
{
    match read_all(alloc, source, MOST_BYTES) {
        Ok(bytes) => Ok(Some(bytes)),
        Err(ReadStop::TooLong) => Ok(None),
        Err(ReadStop::ReadFault) => Err(CallStop::ReadFault),
        Err(ReadStop::NoMemory) => Err(CallStop::NoMemory),
    }
}

/// What the task answers to the first fault of its text.
fn answer_of_task_to_fault(
    alloc: Global,
    task: &DocumentTask,
    bytes: &[u8],
    fault: TextFault,
) -> Result<Answer, NoMemory>
    requires { fault.at ≤ length bytes.now }
    ensures answer { IfOk result (λ a. a ≡ fault_answer_of task.now bytes.now fault.kind fault.at) }
    ensures memory { OnOk result (fault.kind ≡ kind.NoMemory → ⊥) }
{
    match task {
        DocumentTask::Explain { .. } => explain_fault(alloc, bytes, fault),
        _ => answer_to_fault(alloc, bytes, fault),
    }
}

/// What comes of the task on a text: of the document that it spells, or of its first fault.
fn on_text(alloc: Global, task: DocumentTask, bytes: &[u8]) -> Result<Prepared, NoMemory>
    requires short { length bytes.now ≤ MOST_BYTES }
    ensures { IfOk result (λ p. Warrants (workers_of (Task.OnDocument task)) p (Gives (Task.OnDocument task) bytes.now)) }
{
    let document = match read_document(alloc, bytes) {
        Ok(document) => document,
        Err(fault) => {
            return Prepared::answered(answer_of_task_to_fault(alloc, &task, bytes, fault));
        }
    };
    match task {
        DocumentTask::Check(options) => {
            if options.derivations {
                Prepared::answered(check_with_derivations(alloc, document, options.bound))
            } else {
                Prepared::answered(check(alloc, &document, options.bound))
            }
        }
        DocumentTask::Verify => Prepared::answered(verify(alloc, document)),
        DocumentTask::Migrate => Prepared::answered(migrate(alloc, document)),
        DocumentTask::Show => Prepared::answered(show(alloc, &document)),
        DocumentTask::Project => Prepared::answered(project_all(alloc, &document)),
        DocumentTask::Run { options, workers } => ready_run(alloc, document, options, workers),
        DocumentTask::Improve(options) => Prepared::answered(improve_role(
            alloc,
            document,
            &options.role,
            options.bound,
            options.swaps,
        )),
        DocumentTask::Explain { bound } => {
            Prepared::answered(explain(alloc, &document, bytes, bound))
        }
        DocumentTask::Draw { role } => Prepared::answered(draw(alloc, &document, &role)),
        DocumentTask::DrawRun { options } => {
            Prepared::answered(draw_run(alloc, document, options))
        }
    }
}

/// The input is longer than a text may be.
fn on_long_input(alloc: Global) -> Result<Prepared, NoMemory>
    ensures ready { (workers : Workers) → IfOk result (IsReadyFor workers) }
    ensures leads { (task : Task) (bytes : List ℕ) → ReadsTheInput task → MOST_BYTES < length bytes → IfOk result (λ p. Warrants (workers_of task) p (Gives task bytes)) }
{
    Prepared::answered(too_large(alloc, &[Words(b"text")]))
}

/// What was made ready, or that memory was refused as a reason to stop.
fn made_or_stop(made: Result<Prepared, NoMemory>) -> Result<Prepared, CallStop>
    ensures made { IfOk result (λ p. made ≡ Ok p) }
    ensures read_fault { result ≡ Err CallStop.ReadFault → ⊥ }
{
    Ok(made?)
}

/// What comes of the task, which reads of the source all that it has left, or nothing: its answer, or a session that is
/// ready to be run by its workers.
pub fn prepare<S: Source>(alloc: Global, task: Task, source: &mut S) -> Result<Prepared, CallStop>
    ensures { (words : List (List ℕ)) → SpellsTask words task → Prepares words (input_of S.left S.faults S.last source.old source.new) (workers_of task) result }
{
    match task {
        Task::OnDocument(task) => match read_input(alloc, source) {
            Ok(Some(bytes)) => made_or_stop(on_text(alloc, task, bytes.as_slice())),
            Ok(None) => made_or_stop(on_long_input(alloc)),
            Err(stop) => Err(stop),
        },
        Task::OnData(demo) => match read_input(alloc, source) {
            Ok(Some(bytes)) => {
                made_or_stop(ready_demo(alloc, demo.kind, demo.ring, bytes.as_slice()))
            }
            Ok(None) => made_or_stop(on_long_input(alloc)),
            Err(stop) => Err(stop),
        },
        Task::Gen { number } => made_or_stop(Prepared::answered(answer_to_gen(alloc, number))),
    }
}
