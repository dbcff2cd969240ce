//! The calls that carry out the program's words.

ghost use Rattle.std.specs.Prelude.{◌≡◌, ℕ, List, Option, None, IfOk, IfSome, Ok, Err};
ghost use Rattle.rs_answers.specs.RefusalTexts as spec;
ghost use Rattle.rs_model.specs.declared.demos.Demo.{Demo};
ghost use Rattle.rs_model.specs.declared.runs.RunOptions.{RunOptions};
ghost use Rattle.rs_tool.specs.Pipelines.{pipeline_text, pipeline_of};
ghost use Rattle.rs_tool.specs.Calls.{Ends, EndsAlone, IfAnswered};
ghost use Rattle.rs_tool.specs.Completeness.{IsComplete};
ghost use Rattle.rs_tool.specs.Data.{call_of, input_of, output_of};
ghost use Rattle.rs_tool.specs.DemoCompleteness.{IsCompleteDemo};
ghost use Rattle.rs_tool.specs.DemoHeadline.{HasSafeDemo};
ghost use Rattle.rs_tool.specs.Headline.{SpellsSafeMachines};
ghost use Rattle.rs_tool.specs.Hopeless.{SpellsHopelessMachine, WritesNoBoundHelps};
ghost use Rattle.rs_tool.specs.ImproveHeadline.{WritesSafeMachines};
ghost use Rattle.rs_tool.specs.Preparing.{AnswersAlone, AnswersTo, Delivers};
ghost use Rattle.rs_tool.specs.RunHeadline.{IsOfRun};
ghost use Rattle.rs_tool.specs.Sessions.{HasItsSession};
ghost use Rattle.rs_tool.specs.Tasks.{SpellsCheck, SpellsDemo, SpellsDrawnRun, SpellsExplain, SpellsImprove, SpellsMigrate, SpellsRun, SpellsVerify};
ghost use Rattle.rs_words.specs.Meaning.{SpellsTask};
ghost use Rattle.rs_words.specs.Words.{bytes_of_words};

use crate::preparing::prepare;
use crate::statuses::{CallStop, Reply, Serial, Status};
use rs_answers::usage;
use rs_io::{Sink, Source, write_all};
use rs_model::{NoMemory, Workers};
use rs_pool::Gate;
use rs_runs::{AnswerWithSession, run_alone, run_by_crew};
use rs_words::{Task, read_words};
use std::alloc::Global;
use std::sync::Wait;
use std::thread::Threads;

/// What was answered, or that memory was refused as a reason to stop.
fn answer_or_stop(given: Result<AnswerWithSession, NoMemory>) -> Result<AnswerWithSession, CallStop>
    ensures answer { IfOk result (λ a. given ≡ Ok a) }
    ensures read_fault { result ≡ Err CallStop.ReadFault → ⊥ }
{
    Ok(given?)
}

/// The answer to words that spell no task.
fn answer_to_nothing(alloc: Global) -> Result<AnswerWithSession, CallStop>
    ensures answer { IfOk result (λ a. (a.answer ≡ spec.usage) × (a.closed ≡ None)) }
    ensures read_fault { result ≡ Err CallStop.ReadFault → ⊥ }
{
    answer_or_stop(AnswerWithSession::alone(usage(alloc)))
}

/// The answer to the words, which one worker carries out; None where they ask for several, and then nothing was read.
fn answer_alone<S: Source>(
    alloc: Global,
    words: &[String],
    source: &mut S,
) -> Option<Result<AnswerWithSession, CallStop>>
    ensures { AnswersAlone (bytes_of_words words.now) (input_of S.left S.faults S.last source.old source.new) result }
{
    let task = match read_words(alloc, words) {
        Ok(Some(task)) => task,
        Ok(None) => return Some(answer_to_nothing(alloc)),
        Err(_refused) => return Some(Err(CallStop::NoMemory)),
    };
    match task.workers() {
        Workers::One => match prepare(alloc, task, source) {
            Ok(prepared) => Some(answer_or_stop(run_alone(alloc, prepared))),
            Err(stop) => Some(Err(stop)),
        },
        Workers::Several(_) => None,
    }
}

/// The answer to the words, which as many workers carry out as they ask for.
fn answer_to_words<R: Threads + Wait + Sync, S: Source, G: Gate + Sync>(
    rt: &R,
    alloc: Global,
    words: &[String],
    source: &mut S,
    gate: &G,
) -> Result<AnswerWithSession, CallStop>
    ensures { AnswersTo (bytes_of_words words.now) (input_of S.left S.faults S.last source.old source.new) result }
{
    let task = match read_words(alloc, words) {
        Ok(Some(task)) => task,
        Ok(None) => return answer_to_nothing(alloc),
        Err(_refused) => return Err(CallStop::NoMemory),
    };
    let workers = task.workers();
    let prepared = match prepare(alloc, task, source) {
        Ok(prepared) => prepared,
        Err(stop) => return Err(stop),
    };
    match workers {
        Workers::One => answer_or_stop(run_alone(alloc, prepared)),
        Workers::Several(crew) => answer_or_stop(run_by_crew(rt, alloc, prepared, crew, gate)),
    }
}

/// Writes the answer, if one was made, and tells the status.
fn deliver<K: Sink>(given: Result<AnswerWithSession, CallStop>, sink: &mut K) -> Reply
    ensures { Delivers given (output_of K.written K.faults K.last sink.old sink.new) result }
{
    match given {
        Ok(given) => {
            let AnswerWithSession { answer, closed } = given;
            match write_all(sink, answer.text.as_slice()) {
                Ok(()) => Reply {
                    status: Status::from(answer.verdict),
                    closed,
                },
                Err(_) => Reply {
                    status: Status::WriteFault,
                    closed,
                },
            }
        }
        Err(stop) => Reply {
            status: Status::from(stop),
            closed: None,
        },
    }
}

/// Carries out the words, as the program does, without threads.
///
/// `check`, `explain`, `verify`, `migrate`, `show`, `project`, `draw`, `run`, `improve` and `demo` read the source to its end and write their answer. The text of an answer is made
/// whole before its first byte is written: with the statuses `ReadFault` and `NoMemory` nothing is written, with `WriteFault`
/// a first part of the text. `gen` and words that spell no task read nothing. That workers are needed is told exactly where the
/// words are a `run` or a `demo` by several, and nothing was then read or written; only want of memory goes before it.
pub fn command_serial<S: Source, K: Sink>(
    alloc: Global,
    words: &[String],
    source: &mut S,
    sink: &mut K,
) -> Serial
    ensures ends { EndsAlone (call_of (bytes_of_words words.now) (input_of S.left S.faults S.last source.old source.new) (output_of K.written K.faults K.last sink.old sink.new)) result }
    ensures headline { IfAnswered result (λ reply. (bound : ℕ) → SpellsCheck (bytes_of_words words.now) bound
        → IfSome (S.left source.old) (λ bytes. reply.status ≡ Status.Fine → SpellsSafeMachines bytes)) }
    ensures explained { IfAnswered result (λ reply. (bound : ℕ) → SpellsExplain (bytes_of_words words.now) bound
        → IfSome (S.left source.old) (λ bytes. reply.status ≡ Status.Fine → SpellsSafeMachines bytes)) }
    ensures hopeless { let output = output_of K.written K.faults K.last sink.old sink.new in
        IfAnswered result (λ reply. (bound : ℕ) → SpellsExplain (bytes_of_words words.now) bound
        → IfSome (S.left source.old) (λ bytes. reply.status ≡ Status.Refused → WritesNoBoundHelps output → SpellsHopelessMachine bound bytes)) }
    ensures verified { IfAnswered result (λ reply. SpellsVerify (bytes_of_words words.now)
        → IfSome (S.left source.old) (λ bytes. reply.status ≡ Status.Fine → SpellsSafeMachines bytes)) }
    ensures migrated { IfAnswered result (λ reply. SpellsMigrate (bytes_of_words words.now)
        → IfSome (S.left source.old) (λ bytes. reply.status ≡ Status.Fine → SpellsSafeMachines bytes)) }
    ensures improved { let output = output_of K.written K.faults K.last sink.old sink.new in
        IfAnswered result (λ reply. SpellsImprove (bytes_of_words words.now)
        → IfSome (S.left source.old) (λ bytes. reply.status ≡ Status.Fine → WritesSafeMachines (bytes_of_words words.now) bytes output)) }
    ensures run { IfAnswered result (λ reply. (options : RunOptions) → SpellsRun (bytes_of_words words.now) options
        → IfSome (S.left source.old) (λ bytes. IsOfRun reply.status → SpellsSafeMachines bytes)) }
    ensures drawn { IfAnswered result (λ reply. (options : RunOptions) → SpellsDrawnRun (bytes_of_words words.now) options
        → IfSome (S.left source.old) (λ bytes. IsOfRun reply.status → SpellsSafeMachines bytes)) }
    ensures demo { IfAnswered result (λ reply. (kind : Demo) (ring : Option ℕ) → SpellsDemo (bytes_of_words words.now) kind ring
        → IfSome (S.left source.old) (λ bytes. (IsOfRun reply.status → HasSafeDemo kind bytes) × (reply.status ≡ Status.Full → ⊥))) }
    ensures pipeline { IfAnswered result (λ reply. (number : ℕ) → SpellsTask (bytes_of_words words.now) (Task.Gen number)
        → reply.status ≡ Status.Fine → SpellsSafeMachines (pipeline_text (pipeline_of number))) }
    ensures complete { let call = call_of (bytes_of_words words.now) (input_of S.left S.faults S.last source.old source.new) (output_of K.written K.faults K.last sink.old sink.new) in
        IfAnswered result (λ reply. IsComplete call reply.status × IsCompleteDemo call reply.status) }
    ensures closed { IfAnswered result (λ reply. (spelt : Task) → SpellsTask (bytes_of_words words.now) spelt
        → IfSome (S.left source.old) (λ bytes. HasItsSession (bytes_of_words words.now) spelt bytes reply)) }
{
    match answer_alone(alloc, words, source) {
        Some(given) => Serial::Answered(deliver(given, sink)),
        None => Serial::NeedsWorkers,
    }
}

/// Carries out the words by `command_serial`; and by as many workers as they ask for where it tells that these are needed, since
/// then nothing was read or written.
fn carry_out<R: Threads + Wait + Sync, S: Source, K: Sink, G: Gate + Sync>(
    rt: &R,
    alloc: Global,
    words: &[String],
    source: &mut S,
    sink: &mut K,
    gate: &G,
) -> Reply
    ensures { Ends (call_of (bytes_of_words words.now) (input_of S.left S.faults S.last source.old source.new) (output_of K.written K.faults K.last sink.old sink.new)) result }
{
    match command_serial(alloc, words, source, sink) {
        Serial::Answered(reply) => reply,
        Serial::NeedsWorkers => {
            let given = answer_to_words(rt, alloc, words, source, gate);
            deliver(given, sink)
        }
    }
}

/// Carries out the words, as the program does: what `command_serial` answers, and with threads what needs workers. These are
/// as many as the words say, and the gate's calls are made round each turn of one; it isn't used else.
///
/// The way of a word: `answer_alone` reads it by `read_words`, `prepare` reads the input, `on_text` the document, and
/// calls the word's own function, as `rs_answers::check`. What that makes ready is run by `run_alone`, and `deliver` writes
/// the answer. Where several workers are needed `answer_to_words` goes the same way, and runs it by `run_by_crew`.
///
/// What is answered to words and input is the definition `Answers` (`specs/Answers.antt`), which names one list for
/// each word. That of `check` is `Checks` in `rs_answers`: accepted, or refused for the first reason of `HasNoSession`
/// and `HasNoDerivations`. The function with the same exits is `rs_answers::check`.
///
/// With several workers the call may wait for them: its promise holds if it returns.
pub fn command<R: Threads + Wait + Sync, S: Source, K: Sink, G: Gate + Sync>(
    rt: &R,
    alloc: Global,
    words: &[String],
    source: &mut S,
    sink: &mut K,
    gate: &G,
) -> Reply
    ensures ends { Ends (call_of (bytes_of_words words.now) (input_of S.left S.faults S.last source.old source.new) (output_of K.written K.faults K.last sink.old sink.new)) result }
    ensures headline { (bound : ℕ) → SpellsCheck (bytes_of_words words.now) bound
        → IfSome (S.left source.old) (λ bytes. result.status ≡ Status.Fine → SpellsSafeMachines bytes) }
    ensures explained { (bound : ℕ) → SpellsExplain (bytes_of_words words.now) bound
        → IfSome (S.left source.old) (λ bytes. result.status ≡ Status.Fine → SpellsSafeMachines bytes) }
    ensures hopeless { let output = output_of K.written K.faults K.last sink.old sink.new in
        (bound : ℕ) → SpellsExplain (bytes_of_words words.now) bound
        → IfSome (S.left source.old) (λ bytes. result.status ≡ Status.Refused → WritesNoBoundHelps output → SpellsHopelessMachine bound bytes) }
    ensures verified { SpellsVerify (bytes_of_words words.now)
        → IfSome (S.left source.old) (λ bytes. result.status ≡ Status.Fine → SpellsSafeMachines bytes) }
    ensures migrated { SpellsMigrate (bytes_of_words words.now)
        → IfSome (S.left source.old) (λ bytes. result.status ≡ Status.Fine → SpellsSafeMachines bytes) }
    ensures improved { let output = output_of K.written K.faults K.last sink.old sink.new in
        SpellsImprove (bytes_of_words words.now)
        → IfSome (S.left source.old) (λ bytes. result.status ≡ Status.Fine → WritesSafeMachines (bytes_of_words words.now) bytes output) }
    ensures run { (options : RunOptions) → SpellsRun (bytes_of_words words.now) options
        → IfSome (S.left source.old) (λ bytes. IsOfRun result.status → SpellsSafeMachines bytes) }
    ensures drawn { (options : RunOptions) → SpellsDrawnRun (bytes_of_words words.now) options
        → IfSome (S.left source.old) (λ bytes. IsOfRun result.status → SpellsSafeMachines bytes) }
    ensures demo { (kind : Demo) (ring : Option ℕ) → SpellsDemo (bytes_of_words words.now) kind ring
        → IfSome (S.left source.old) (λ bytes. (IsOfRun result.status → HasSafeDemo kind bytes) × (result.status ≡ Status.Full → ⊥)) }
    ensures pipeline { (number : ℕ) → SpellsTask (bytes_of_words words.now) (Task.Gen number)
        → result.status ≡ Status.Fine → SpellsSafeMachines (pipeline_text (pipeline_of number)) }
    ensures complete { let call = call_of (bytes_of_words words.now) (input_of S.left S.faults S.last source.old source.new) (output_of K.written K.faults K.last sink.old sink.new) in
        IsComplete call result.status × IsCompleteDemo call result.status }
    ensures closed { (spelt : Task) → SpellsTask (bytes_of_words words.now) spelt
        → IfSome (S.left source.old) (λ bytes. HasItsSession (bytes_of_words words.now) spelt bytes result) }
{
    carry_out(rt, alloc, words, source, sink, gate)
}
