//! What the program answers to words and a text, and how it ends.

ghost use Rattle.std.specs.Prelude.{◌≡◌, ℕ, IfErr, IfOk, true};
ghost use Rattle.rs_calls.specs.Calls.{FailsFor, IsAnswerTo};
ghost use Rattle.rs_tool.specs.Headline.{SpellsSafeMachines};
ghost use Rattle.rs_tool.specs.Tasks.{SpellsCheck, SpellsExplain, SpellsVerify};
ghost use Rattle.rs_words.specs.Words.{bytes_of_words};
ghost use Rattle.rs_calls.specs.Words.{words_in};

use crate::keeping::KeptBytes;
use crate::words::words_of;
use rs_io::NeverSource;
use rs_model::NoMemory;
use rs_tool::{Serial, Status, command_serial};
use std::alloc::Global;

/// What the program answers: how it ends, and all that it prints.
#[derive(Drop)]
pub struct CallAnswer {
    pub status: Status,
    pub text: Vec<u8>,
}

/// Why there is no answer.
#[derive(Clone, Copy, Debug, PartialEq, Eq)]
pub enum CallFault {
    /// A word isn't UTF-8. The program prints nothing then, and ends as with words that are none of its own.
    NotUtf8,
    /// The words ask for several workers, of which there are none without threads.
    NeedsWorkers,
    /// Memory was refused, and nothing is said of the text.
    NoMemory,
}

impl From<NoMemory> for CallFault {
    ghost use Rattle.std.specs.Prelude.{◌≡◌};
    ghost use Rattle.rs_calls.specs.declared.answering.CallFault.TheVariants as fault;

    ghost from_gives = { λ _ e. e ≡ fault.NoMemory };

    fn from(_refused: NoMemory) -> Self {
        CallFault::NoMemory
    }
}

/// Whether a call with that status was answered whole.
fn is_answered(status: Status) -> bool
    ensures { result ≡ true → (status ≡ Status.WriteFault → ⊥) × (status ≡ Status.ReadFault → ⊥) × (status ≡ Status.NoMemory → ⊥) }
{
    !matches!(
        status,
        Status::ReadFault | Status::WriteFault | Status::NoMemory
    )
}

/// A copy of the text as a source.
fn source_of(alloc: Global, text: &[u8]) -> Result<NeverSource, NoMemory>
    ensures { IfOk result (λ source. source ≡ text.now) }
{
    let copy = Vec::from_slice(alloc, text)?;
    Ok(NeverSource::new(copy))
}

/// The answer to the words, on the text.
fn answer_to_words(alloc: Global, words: &[String], text: &[u8]) -> Result<CallAnswer, CallFault>
    ensures answer { IfOk result (IsAnswerTo (bytes_of_words words.now) text.now) }
    ensures fault { IfErr result (FailsFor (bytes_of_words words.now)) }
    ensures checked { IfOk result (λ a. (bound : ℕ) → SpellsCheck (bytes_of_words words.now) bound → a.status ≡ Status.Fine → SpellsSafeMachines text.now) }
    ensures explained { IfOk result (λ a. (bound : ℕ) → SpellsExplain (bytes_of_words words.now) bound → a.status ≡ Status.Fine → SpellsSafeMachines text.now) }
    ensures verified { IfOk result (λ a. SpellsVerify (bytes_of_words words.now) → a.status ≡ Status.Fine → SpellsSafeMachines text.now) }
{
    let mut source = source_of(alloc, text)?;
    let mut kept = KeptBytes::new(alloc);
    match command_serial(alloc, words, &mut source, &mut kept) {
        Serial::Answered(reply) => {
            if is_answered(reply.status) {
                Ok(CallAnswer {
                    status: reply.status,
                    text: kept.into_bytes(),
                })
            } else {
                Err(CallFault::NoMemory)
            }
        }
        Serial::NeedsWorkers => Err(CallFault::NeedsWorkers),
    }
}

/// What the program answers to the words, which stand in `words` with a zero byte between two of them, where its standard input is
/// the text: as `rumpsteak WORDS < TEXT` does, without threads and without a file.
///
/// The answer is made whole, or not at all: a status of a failed read or write never comes.
pub fn answer_to(alloc: Global, words: &[u8], text: &[u8]) -> Result<CallAnswer, CallFault>
    ensures answer { IfOk result (IsAnswerTo (words_in words.now) text.now) }
    ensures fault { IfErr result (FailsFor (words_in words.now)) }
    ensures checked { IfOk result (λ a. (bound : ℕ) → SpellsCheck (words_in words.now) bound → a.status ≡ Status.Fine → SpellsSafeMachines text.now) }
    ensures explained { IfOk result (λ a. (bound : ℕ) → SpellsExplain (words_in words.now) bound → a.status ≡ Status.Fine → SpellsSafeMachines text.now) }
    ensures verified { IfOk result (λ a. SpellsVerify (words_in words.now) → a.status ≡ Status.Fine → SpellsSafeMachines text.now) }
{
    match words_of(alloc, words)? {
        Some(words) => answer_to_words(alloc, words.as_slice(), text),
        None => Err(CallFault::NotUtf8),
    }
}
