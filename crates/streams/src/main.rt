//! Bytes of standard input go from a source by a kernel to a sink, each on a thread of its own, and on to standard output: stages
//! by hand over the rings of a session.
#![tactic(auto)]

mod acts;
mod roles;

ghost use Rattle.std.specs.Prelude.{◌≡◌, ◌<◌, ◌≤◌, ◌++◌, ◌∷◌, [], IfSome, None, length, option_map, vec_capacity, vec_len};
ghost use Rattle.rs_rings.specs.Closed.{IsOver};
ghost use Rattle.rs_session.specs.Ends.{KnowsFrom};
ghost use Rattle.rs_session.specs.Stages.{AreFirst};
ghost use Rattle.streams.specs.Streams.{Gathers, Gives, HandsOn, HasEndedAs, IsPlaceOf};

use roles::{drain, feed, hand_on};
use rs_io::{StdSource, read_all};
use rs_open::open;
use rs_rings::Closed;
use rs_safety::Accepted;
use rs_session::{Ended, Session, Stage};
use std::alloc::{Alloc, Global};
use std::process::ExitCode;
use std::sync::Wait;
use std::thread::{Threads, join_mut};

/// The source S gives copies to the kernel K, which hands them on to the sink T.
const STREAM: &[u8] =
    b"roles S, K, T\nprotocol rec X. S->K{copy(bytes). K->T:copy(bytes). X, stop(). K->T:stop(). end}\n";

/// The most bytes of the input.
const MOST_BYTES: usize = 1 << 30;

/// How many copies each ring holds.
const CAPACITY: u16 = 16;

/// Appends a role that has ended, for which there is room.
fn push(ended: &mut Vec<Ended>, one: Ended)
    requires room { vec_len ended.old < vec_capacity ended.old }
    ensures items { ended.new.items ≡ ended.old.items ++ one ∷ [] }
    ensures capacity { vec_capacity ended.old ≤ vec_capacity ended.new }
{
    match ended.push(one) {
        Ok(()) => {}
        Err(_) => unreachable!(),
    }
}

/// Closes the session of source, kernel and sink. The empty list has room for them.
fn close(session: Session, source: Ended, kernel: Ended, sink: Ended, ended: Vec<Ended>) -> Closed
    requires machines { length session.machines ≡ 3 }
    requires source { HasEndedAs session 0 source }
    requires kernel { HasEndedAs session 1 kernel }
    requires sink { HasEndedAs session 2 sink }
    requires room { (ended.items ≡ []) × (3 ≤ vec_capacity ended) }
    ensures machines { length result.machines ≡ 3 }
    ensures over { IsOver result }
    ensures knows { KnowsFrom (source ∷ kernel ∷ sink ∷ []) result }
{
    let mut ended = ended;
    push(&mut ended, source);
    push(&mut ended, kernel);
    push(&mut ended, sink);
    match session.close(ended) {
        Ok(closed) => closed,
        Err(_) => unreachable!(),
    }
}

/// Kernel and sink play, the kernel on a thread of its own.
fn two_play<R: Threads + Wait + Sync>(
    rt: &R,
    alloc: Global,
    session: &Session,
    kernel: &mut Option<Stage>,
    sink: &mut Option<Stage>,
) -> (Ended, (Ended, Option<Vec<u8>>))
    requires kernel { IsPlaceOf session.now 1 kernel.old }
    requires sink { IsPlaceOf session.now 2 sink.old }
    ensures left { (kernel.new ≡ None) × (sink.new ≡ None) }
    ensures hands_on { HandsOn session.now result.0 }
    ensures gathers { Gathers session.now result.1.0 (option_map (λ v. v.items) result.1.1) }
{
    join_mut(
        rt,
        &mut || hand_on(rt, session, kernel),
        &mut || drain(rt, alloc, session, sink),
    )
}

/// All three play, each on a thread of its own. If no thread can be started, it waits for ever.
fn all_play<R: Threads + Wait + Sync>(
    rt: &R,
    alloc: Global,
    session: &Session,
    source: &mut Option<Stage>,
    kernel: &mut Option<Stage>,
    sink: &mut Option<Stage>,
    input: &[u8],
) -> ((Ended, bool), (Ended, (Ended, Option<Vec<u8>>)))
    requires source { IsPlaceOf session.now 0 source.old }
    requires kernel { IsPlaceOf session.now 1 kernel.old }
    requires sink { IsPlaceOf session.now 2 sink.old }
    ensures left { (source.new ≡ None) × (kernel.new ≡ None) × (sink.new ≡ None) }
    ensures gives { Gives session.now input.now result.0.0 result.0.1 }
    ensures hands_on { HandsOn session.now result.1.0 }
    ensures gathers { Gathers session.now result.1.1.0 (option_map (λ v. v.items) result.1.1.1) }
{
    join_mut(
        rt,
        &mut || feed(rt, alloc, session, source, input),
        &mut || -> (Ended, (Ended, Option<Vec<u8>>))
            requires { IsPlaceOf session.now 1 kernel.now × IsPlaceOf session.now 2 sink.now }
        { two_play(rt, alloc, session, kernel, sink) },
    )
}

/// Spends a place from which the stage was taken.
fn spend(place: Option<Stage>)
    requires { place ≡ None }
{
    match place {
        None => {}
        Some(_) => unreachable!(),
    }
}

/// The last stage, of which there is one.
fn last_stage(stages: &mut Vec<Stage>) -> Stage
    requires { 0 < length stages.old.items }
    ensures { stages.old.items ≡ stages.new.items ++ result ∷ [] }
{
    match stages.pop() {
        Some(stage) => stage,
        None => unreachable!(),
    }
}

/// The bytes go through the session of three roles, which are at their starts. The empty list has room for them.
fn flow<R: Threads + Wait + Sync>(
    rt: &R,
    alloc: Global,
    session: Session,
    stages: Vec<Stage>,
    ended: Vec<Ended>,
    input: &[u8],
) -> Option<Vec<u8>>
    requires machines { length session.machines ≡ 3 }
    requires first { AreFirst session stages.items }
    requires room { (ended.items ≡ []) × (3 ≤ vec_capacity ended) }
    ensures { IfSome result (λ output. output.items ≡ input.now) }
{
    let mut stages = stages;
    let sink = last_stage(&mut stages);
    let kernel = last_stage(&mut stages);
    let source = last_stage(&mut stages);
    stages.destroy_empty();
    let mut source = Some(source);
    let mut kernel = Some(kernel);
    let mut sink = Some(sink);
    let ((fed, is_whole), (handed_on, (drained, output))) = all_play(
        rt,
        alloc,
        &session,
        &mut source,
        &mut kernel,
        &mut sink,
        input,
    );
    spend(source);
    spend(kernel);
    spend(sink);
    close(session, fed, handed_on, drained, ended);
    if is_whole { output } else { None }
}

/// Returns what the sink has received once all have ended: exactly the bytes that the source gave. None if memory ran out, or
/// if there aren't three roles.
fn streamed<R: Threads + Wait + Sync>(
    rt: &R,
    alloc: Global,
    accepted: &Accepted,
    input: &[u8],
) -> Option<Vec<u8>>
    ensures { IfSome result (λ output. output.items ≡ input.now) }
{
    if accepted.machines().len() != 3 {
        return None;
    }
    let Ok(ended) = Vec::with_capacity(alloc, 3) else {
        return None;
    };
    match Session::begin(alloc, accepted, CAPACITY) {
        Ok((session, stages)) => flow(rt, alloc, session, stages, ended, input),
        Err(_) => {
            ended.destroy_empty();
            None
        }
    }
}

/// Whether the input was read, went through the stream, and was written.
fn run<R: Threads + Wait + Sync + Input + Print + Alloc<A = Global>>(rt: &R) -> bool {
    let alloc = rt.alloc();
    let (Ok(input), Ok(opened)) = (
        read_all(alloc, &mut StdSource::new(rt.reader()), MOST_BYTES),
        open(alloc, STREAM),
    ) else {
        return false;
    };
    match streamed(rt, alloc, opened.accepted(), input.as_slice()) {
        Some(output) => rt.write_all(output.as_slice()).is_ok(),
        None => false,
    }
}

fn main(rt: HostRuntime) -> ExitCode {
    ExitCode::from(if run(&rt) { 0 } else { 1 })
}
