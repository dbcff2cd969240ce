//! The three roles on three threads.

ghost use Rattle.std.specs.Prelude.{◌≡◌, IfSome, IsSome, None};
ghost use Rattle.rs_session.specs.Stages.{IsEnded};
ghost use Rattle.rs_typed.specs.Endpoints.{IsEndpoint};
ghost use Rattle.double_buffering.specs.Machines as spec;
ghost use Rattle.double_buffering.specs.declared.names.TheConstants.{KERNEL_ROLE, SINK_ROLE, SOURCE_ROLE};

use crate::copying::play_kernel;
use crate::kernel::Begun;
use crate::played::Played;
use crate::reading::play_source;
use crate::sink::Ready;
use crate::source::Waiting;
use crate::writing::play_sink;
use rs_session::Session;
use rs_typed::{At, Spot};
use std::alloc::Global;
use std::sync::Wait;
use std::thread::{Threads, join_mut};

/// Takes the kernel from its place, and plays it.
fn kernel_from<R: Wait>(
    rt: &R,
    alloc: Global,
    session: &Session,
    place: &mut Option<At<Begun>>,
) -> Played
    requires some { IsSome place.old }
    requires of { IfSome place.old (IsEndpoint session.now spec.kernel) }
    ensures left { place.new ≡ None }
    ensures ended { IsEnded session.now result.ended × (result.ended.role ≡ KERNEL_ROLE) }
{
    match place.take() {
        Some(at) => play_kernel(rt, alloc, session, at),
        None => unreachable!(),
    }
}

/// Takes the source from its place, and plays it.
fn source_from<R: Wait>(
    rt: &R,
    alloc: Global,
    session: &Session,
    place: &mut Option<At<Waiting>>,
    bytes: &[u8],
) -> Played
    requires some { IsSome place.old }
    requires of { IfSome place.old (IsEndpoint session.now spec.source) }
    ensures left { place.new ≡ None }
    ensures ended { IsEnded session.now result.ended × (result.ended.role ≡ SOURCE_ROLE) }
{
    match place.take() {
        Some(at) => play_source(rt, alloc, session, at, bytes),
        None => unreachable!(),
    }
}

/// Takes the sink from its place, and plays it.
fn sink_from<R: Wait>(
    rt: &R,
    session: &Session,
    place: &mut Option<At<Ready>>,
    bytes: &mut Vec<u8>,
) -> Played
    requires some { IsSome place.old }
    requires of { IfSome place.old (IsEndpoint session.now spec.sink) }
    ensures left { place.new ≡ None }
    ensures ended { IsEnded session.now result.ended × (result.ended.role ≡ SINK_ROLE) }
{
    match place.take() {
        Some(at) => play_sink(rt, session, at, bytes),
        None => unreachable!(),
    }
}

/// Source and sink play, the source on a thread of its own.
fn ends_from<R: Threads + Wait + Sync>(
    rt: &R,
    alloc: Global,
    session: &Session,
    source: &mut Option<At<Waiting>>,
    sink: &mut Option<At<Ready>>,
    input: &[u8],
    output: &mut Vec<u8>,
) -> (Played, Played)
    requires some { IsSome source.old × IsSome sink.old }
    requires source { IfSome source.old (IsEndpoint session.now spec.source) }
    requires sink { IfSome sink.old (IsEndpoint session.now spec.sink) }
    ensures left { (source.new ≡ None) × (sink.new ≡ None) }
    ensures source { IsEnded session.now result.0.ended × (result.0.ended.role ≡ SOURCE_ROLE) }
    ensures sink { IsEnded session.now result.1.ended × (result.1.ended.role ≡ SINK_ROLE) }
{
    join_mut(
        rt,
        &mut || source_from(rt, alloc, session, source, input),
        &mut || sink_from(rt, session, sink, output),
    )
}

/// All three roles play, each on a thread of its own.
fn all_from<R: Threads + Wait + Sync>(
    rt: &R,
    alloc: Global,
    session: &Session,
    kernel: &mut Option<At<Begun>>,
    source: &mut Option<At<Waiting>>,
    sink: &mut Option<At<Ready>>,
    input: &[u8],
    output: &mut Vec<u8>,
) -> (Played, (Played, Played))
    requires some { IsSome kernel.old × IsSome source.old × IsSome sink.old }
    requires kernel { IfSome kernel.old (IsEndpoint session.now spec.kernel) }
    requires source { IfSome source.old (IsEndpoint session.now spec.source) }
    requires sink { IfSome sink.old (IsEndpoint session.now spec.sink) }
    ensures left { (kernel.new ≡ None) × (source.new ≡ None) × (sink.new ≡ None) }
    ensures kernel { IsEnded session.now result.0.ended × (result.0.ended.role ≡ KERNEL_ROLE) }
    ensures source { IsEnded session.now result.1.0.ended × (result.1.0.ended.role ≡ SOURCE_ROLE) }
    ensures sink { IsEnded session.now result.1.1.ended × (result.1.1.ended.role ≡ SINK_ROLE) }
{
    join_mut(
        rt,
        &mut || kernel_from(rt, alloc, session, kernel),
        &mut || -> (Played, Played)
            requires { IsSome source.now × IsSome sink.now × IfSome source.now (IsEndpoint session.now spec.source) × IfSome sink.now (IsEndpoint session.now spec.sink) }
        { ends_from(rt, alloc, session, source, sink, input, output) },
    )
}

/// Spends a place from which the endpoint was taken.
fn spend<S: Spot>(place: Option<At<S>>)
    requires { place ≡ None }
{
    match place {
        None => {}
        Some(_) => unreachable!(),
    }
}

/// All three roles play, each on a thread of its own. If no thread can be started, it waits for ever.
pub fn play_all<R: Threads + Wait + Sync>(
    rt: &R,
    alloc: Global,
    session: &Session,
    kernel: At<Begun>,
    source: At<Waiting>,
    sink: At<Ready>,
    input: &[u8],
    output: &mut Vec<u8>,
) -> (Played, Played, Played)
    requires kernel { IsEndpoint session.now spec.kernel kernel }
    requires source { IsEndpoint session.now spec.source source }
    requires sink { IsEndpoint session.now spec.sink sink }
    ensures kernel { IsEnded session.now result.0.ended × (result.0.ended.role ≡ KERNEL_ROLE) }
    ensures source { IsEnded session.now result.1.ended × (result.1.ended.role ≡ SOURCE_ROLE) }
    ensures sink { IsEnded session.now result.2.ended × (result.2.ended.role ≡ SINK_ROLE) }
{
    let mut kernel = Some(kernel);
    let mut source = Some(source);
    let mut sink = Some(sink);
    let (of_kernel, (of_source, of_sink)) = all_from(
        rt,
        alloc,
        session,
        &mut kernel,
        &mut source,
        &mut sink,
        input,
        output,
    );
    spend(kernel);
    spend(source);
    spend(sink);
    (of_kernel, of_source, of_sink)
}
