//! A `check` over a source and a sink that never fail.

ghost use Rattle.std.specs.Prelude.{◌≡◌, ◌≤◌, ◌⊎◌, ◌∷◌, [], codes, length};
ghost use Rattle.rs_model.specs.declared.limits.TheConstants.{MOST_BYTES};
ghost use Rattle.rs_tool.specs.Never.{IsStatusOfAnswer};
ghost use Rattle.rs_words.specs.Words.{bytes_of_words};

use crate::calls::command_serial;
use crate::statuses::{Serial, Status};
use rs_io::{NeverSink, NeverSource};
use std::alloc::Global;

/// The status of `command_serial` with the one word `check`, over a source and a sink that never fail.
///
/// It is never that of a fault of reading or writing: it is the status of the one answer to the bytes that the source had left,
/// or memory was refused. Unless it was, a source that had no more bytes than a text may have is read to its end.
pub fn check_never(
    alloc: Global,
    words: &[String],
    source: &mut NeverSource,
    sink: &mut NeverSink,
) -> Status
    requires words { bytes_of_words words.now ≡ codes "check" ∷ [] }
    ensures no_fault { (result ≡ Status.ReadFault → ⊥) × (result ≡ Status.WriteFault → ⊥) }
    ensures answer { (result ≡ Status.NoMemory) ⊎ IsStatusOfAnswer (bytes_of_words words.now) source.old result }
    ensures end { length source.old ≤ MOST_BYTES → (result ≡ Status.NoMemory → ⊥) → source.new ≡ [] }
{
    match command_serial(alloc, words, source, sink) {
        Serial::Answered(reply) => reply.status,
        Serial::NeedsWorkers => unreachable!(),
    }
}
