//! Double buffering by typed roles on three threads: the source has the bytes of standard input, the kernel turns each byte b
//! into 255 - b, and what the sink receives is written to standard output.
#![tactic(auto)]

mod copying;
mod kernel;
mod names;
mod played;
mod reading;
mod sessions;
mod sink;
mod source;
mod states;
mod threads;
mod waiting;
mod writing;

use rs_io::{StdSource, read_all};
use sessions::{Buffering, accepted_of, begin, close};
use std::alloc::{Alloc, Global};
use std::process::ExitCode;
use std::sync::Wait;
use std::thread::Threads;
use threads::play_all;

/// The kernel asks for the next copy before it has handed on the last one.
pub const BUFFERING: &[u8] =
    b"roles K, S, T\nprotocol rec X. K->S:ready(). T->K:ready(). S->K{copy(bytes). K->T:copy(bytes). X, stop(). K->S:ready(). K->T:stop(). end}\nmachine K: S!ready(). rec X. S!ready(). T?ready(). S?{copy(bytes). T!copy(bytes). X, stop(). T!stop(). end}\n";

/// The most bytes of the input.
const MOST_BYTES: usize = 1 << 30;

/// How many values each ring holds.
const CAPACITY: u16 = 16;

/// What the sink of the text's session receives of these bytes. None if memory ran out, or
/// the text isn't accepted.
fn turned<R: Threads + Wait + Sync>(
    rt: &R,
    alloc: Global,
    text: &[u8],
    input: &[u8],
) -> Option<Vec<u8>> {
    let accepted = accepted_of(alloc, text)?;
    let mut output = Vec::new(alloc);
    let Ok(ended) = Vec::with_capacity(alloc, 3) else {
        return None;
    };
    match begin(alloc, &accepted, CAPACITY) {
        Ok(
            Buffering {
                session,
                kernel,
                source,
                sink,
            },
        ) => {
            let (kernel, source, sink) = play_all(
                rt,
                alloc,
                &session,
                kernel,
                source,
                sink,
                input,
                &mut output,
            );
            let is_whole = kernel.is_whole && source.is_whole && sink.is_whole;
            close(
                session,
                kernel.into_ended(),
                source.into_ended(),
                sink.into_ended(),
                ended,
            );
            if is_whole { Some(output) } else { None }
        }
        Err(_) => {
            ended.destroy_empty();
            None
        }
    }
}

/// Reads the input, has it turned, and writes what comes of it: whether all went well.
fn run<R: Threads + Wait + Sync + Input + Print + Alloc<A = Global>>(rt: &R) -> bool {
    let alloc = rt.alloc();
    let mut source = StdSource::new(rt.reader());
    let Ok(input) = read_all(alloc, &mut source, MOST_BYTES) else {
        return false;
    };
    match turned(rt, alloc, BUFFERING, input.as_slice()) {
        Some(output) => rt.write_all(output.as_slice()).is_ok(),
        None => false,
    }
}

fn main(rt: HostRuntime) -> ExitCode {
    ExitCode::from(if run(&rt) { 0 } else { 1 })
}
