//! The program's words, carried out on a text.

ghost use Rattle.std.specs.Prelude.{◌≡◌, ℕ};
ghost use Rattle.rs_calls.specs.Words.{words_in};
ghost use Rattle.rs_numbered.specs.Statuses.{Answers};
ghost use Rattle.rs_tool.specs.Headline.{SpellsSafeMachines};
ghost use Rattle.rs_tool.specs.Tasks.{SpellsCheck, SpellsExplain, SpellsVerify};
ghost use Rattle.rumpsteak_c.specs.Answers.{AnswerTells, AskTells};
ghost use Rattle.rumpsteak_c.specs.Answers as spec;

use rs_calls::{CallAnswer, CallFault, answer_to};
use rs_held::{KeptText, TextHandle};
use rs_numbered::{CallStatus, hand_out};
use rs_tool::Status;
use std::alloc::Global;

/// The status that tells how a call of the program ended. Reads and writes that fail never come.
fn status_of(status: Status) -> CallStatus
    ensures { result ≡ spec.status_of status }
{
    match status {
        Status::Fine => CallStatus::Fine,
        Status::Refused => CallStatus::Refused,
        Status::Usage => CallStatus::Usage,
        Status::Malformed => CallStatus::Malformed,
        Status::Unprojectable => CallStatus::Unprojectable,
        Status::TooLarge => CallStatus::TooLarge,
        Status::Stopped => CallStatus::Stopped,
        Status::Full => CallStatus::RingsFull,
        Status::RoomTooSmall => CallStatus::RoomTooSmall,
        Status::ReadFault | Status::WriteFault | Status::NoMemory => CallStatus::NoMemory,
    }
}

/// The status that tells why there is no answer.
fn status_of_fault(fault: CallFault) -> CallStatus
    ensures { result ≡ spec.status_of_fault fault }
{
    match fault {
        CallFault::NotUtf8 => CallStatus::Usage,
        CallFault::NeedsWorkers => CallStatus::NeedsWorkers,
        CallFault::NoMemory => CallStatus::NoMemory,
    }
}

/// Keeps the answer behind the handle.
fn keep(alloc: Global, told: CallAnswer, answer: &mut TextHandle) -> CallStatus
    ensures { spec.KeepTells told answer.old.value answer.new.value result }
{
    let CallAnswer { status, text } = told;
    match Box::new(alloc, KeptText { bytes: text }) {
        Ok(kept) => {
            answer.put(kept);
            status_of(status)
        }
        Err(_) => CallStatus::NoMemory,
    }
}

/// Hands the answer out.
fn copy(told: CallAnswer, out: &mut [u8], written: &mut usize) -> CallStatus
    ensures { spec.HandOutTells told out.old out.new written.new result }
{
    match hand_out(told.text.as_slice(), out, written) {
        CallStatus::Fine => status_of(told.status),
        _ => CallStatus::TooSmall,
    }
}

/// Keeps behind `answer` what the program prints to the words, with a zero byte between two of them, and this standard input.
#[unsafe(no_mangle)]
pub extern "C" fn rumpsteak_ask(
    alloc: Global,
    words: &[u8],
    text: &[u8],
    answer: &mut TextHandle,
) -> u32
    ensures told { Answers result (AskTells words.now text.now answer.old.value answer.new.value) }
    ensures checked { (bound : ℕ) → SpellsCheck (words_in words.now) bound → result ≡ 0 → SpellsSafeMachines text.now }
    ensures explained { (bound : ℕ) → SpellsExplain (words_in words.now) bound → result ≡ 0 → SpellsSafeMachines text.now }
    ensures verified { SpellsVerify (words_in words.now) → result ≡ 0 → SpellsSafeMachines text.now }
{
    match answer_to(alloc, words, text) {
        Ok(told) => keep(alloc, told, answer).number(),
        Err(fault) => status_of_fault(fault).number(),
    }
}

/// The same, handed out at once where it has room.
#[unsafe(no_mangle)]
pub extern "C" fn rumpsteak_answer(
    alloc: Global,
    words: &[u8],
    text: &[u8],
    out: &mut [u8],
    written: &mut usize,
) -> u32
    ensures told { Answers result (AnswerTells words.now text.now out.old out.new written.old written.new) }
    ensures checked { (bound : ℕ) → SpellsCheck (words_in words.now) bound → result ≡ 0 → SpellsSafeMachines text.now }
    ensures explained { (bound : ℕ) → SpellsExplain (words_in words.now) bound → result ≡ 0 → SpellsSafeMachines text.now }
    ensures verified { SpellsVerify (words_in words.now) → result ≡ 0 → SpellsSafeMachines text.now }
{
    match answer_to(alloc, words, text) {
        Ok(told) => copy(told, out, written).number(),
        Err(fault) => status_of_fault(fault).number(),
    }
}
