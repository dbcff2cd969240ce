//! The program: its words, standard input and standard output are handed to `command`.
#![tactic(auto)]

use rs_io::{StdSink, StdSource};
use rs_tool::{NoGate, Status, command};
use std::alloc::{Alloc, Global};
use std::env::{self, Env};
use std::io::{self, ErrorKind};
use std::process::ExitCode;

/// The words behind the program's name.
fn words_of<R: Env + Alloc<A = Global>>(rt: &R) -> Result<Vec<String>, Status> {
    let args = match env::args(rt) {
        Ok(args) => args,
        Err(error) if error.kind() == ErrorKind::OutOfMemory => return Err(Status::NoMemory),
        Err(_) => return Err(Status::Usage),
    };
    let mut words = Vec::new(rt.alloc());
    for (place, word) in args.enumerate() {
        if place > 0 && words.push(word).is_err() {
            return Err(Status::NoMemory);
        }
    }
    Ok(words)
}

fn main(rt: HostRuntime) -> ExitCode {
    let words = match words_of(&rt) {
        Ok(words) => words,
        Err(status) => return ExitCode::from(status.code()),
    };
    let mut source = StdSource::new(rt.reader());
    let mut sink = StdSink::new(io::writer(&rt));
    let reply = command(
        &rt,
        rt.alloc(),
        words.as_slice(),
        &mut source,
        &mut sink,
        &NoGate,
    );
    let status = match sink.flush() {
        Ok(()) => reply.status,
        Err(_) => Status::WriteFault,
    };
    ExitCode::from(status.code())
}
