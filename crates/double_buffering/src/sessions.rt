//! The session of kernel, source and sink: how it begins, and how it is closed.

ghost use Rattle.std.specs.Prelude.{◌≡◌, ◌≤◌, ◌<◌, IfOk, IfSome, IsTrue, [], ◌∷◌, ◌++◌, length, vec_capacity, vec_len};
ghost use Rattle.rs_model.specs.Limits.{IsCapacity};
ghost use Rattle.rs_session.specs.Stages.{AreFirst, IsEnded, IsOf};
ghost use Rattle.rs_typed.specs.Endpoints.{CanEnter, IsEndpoint};
ghost use Rattle.double_buffering.specs.Machines as spec;
ghost use Rattle.double_buffering.specs.declared.names.TheConstants.{KERNEL_ROLE, SINK_ROLE, SOURCE_ROLE};

use crate::kernel::{Begun, Kernel};
use crate::sink::{Ready, Sink};
use crate::source::{Source, Waiting};
use rs_answers::{AcceptedDocument, accept_document};
use rs_documents::read_document;
use rs_model::{Bound, Machine, NoMemory};
use rs_safety::Accepted;
use rs_session::{Ended, Session, Stage};
use rs_typed::{At, Spot, Typing};
use std::alloc::Global;

/// A session of the three roles, each at the start of its machine.
pub struct Buffering {
    pub session: Session,
    pub kernel: At<Begun>,
    pub source: At<Waiting>,
    pub sink: At<Ready>,
}

/// Whether the machines are those of kernel, source and sink, in this order.
fn are_typed(alloc: Global, machines: &[Machine]) -> Result<bool, NoMemory>
    ensures { IfOk result (λ are. IsTrue are → machines.now ≡ spec.all_machines) }
{
    let kernel = Kernel::machine(alloc)?;
    let source = Source::machine(alloc)?;
    let sink = Sink::machine(alloc)?;
    Ok(match machines {
        [k, s, t] => k.same(&kernel) && s.same(&source) && t.same(&sink),
        _ => false,
    })
}

/// The session of the text. None if the text isn't accepted, its machines aren't those of kernel, source and sink, or
/// memory was refused.
pub fn accepted_of(alloc: Global, text: &[u8]) -> Option<Accepted>
    ensures { IfSome result (λ accepted. accepted.machines ≡ spec.all_machines) }
{
    let Ok(document) = read_document(alloc, text) else {
        return None;
    };
    let Ok(accepted) = accept_document(alloc, document, Bound::standard()) else {
        return None;
    };
    let AcceptedDocument { names: _, session } = accepted;
    match are_typed(alloc, session.machines()) {
        Ok(true) => Some(session),
        _ => None,
    }
}

/// The last stage, of which there is one.
fn last_stage(stages: &mut Vec<Stage>) -> Stage
    requires { 0 < length stages.old.items }
    ensures { stages.old.items ≡ stages.new.items ++ result ∷ [] }
{
    match stages.pop() {
        Some(stage) => stage,
        None => unreachable!(),
    }
}

/// The first stages of kernel, source and sink.
fn three_stages(session: &Session, stages: Vec<Stage>) -> (Stage, Stage, Stage)
    requires machines { session.now.machines ≡ spec.all_machines }
    requires first { AreFirst session.now stages.items }
    ensures kernel { IsOf session.now result.0 × CanEnter session.now spec.kernel 0 result.0 }
    ensures source { IsOf session.now result.1 × CanEnter session.now spec.source 0 result.1 }
    ensures sink { IsOf session.now result.2 × CanEnter session.now spec.sink 0 result.2 }
{
    let mut stages = stages;
    let sink = last_stage(&mut stages);
    let source = last_stage(&mut stages);
    let kernel = last_stage(&mut stages);
    stages.destroy_empty();
    (kernel, source, sink)
}

/// The endpoint of a stage that is at the spot.
fn entered<S: Spot>(session: &Session, machine: &Machine, stage: Stage) -> At<S>
    requires of { IsOf session.now stage }
    requires machine { machine.now ≡ S.Of.meaning }
    requires stands { CanEnter session.now S.Of.meaning S.AT stage }
    ensures { IsEndpoint session.now S.Of.meaning result }
{
    match At::<S>::enter(session, machine, stage) {
        Ok(at) => at,
        Err(_) => unreachable!(),
    }
}

/// Begins a session of the accepted machines over rings that hold `capacity` values each.
pub fn begin(alloc: Global, accepted: &Accepted, capacity: u16) -> Result<Buffering, NoMemory>
    requires capacity { IsCapacity capacity }
    requires machines { accepted.now.machines ≡ spec.all_machines }
    ensures machines { IfOk result (λ b. b.session.machines ≡ spec.all_machines) }
    ensures kernel { IfOk result (λ b. IsEndpoint b.session spec.kernel b.kernel) }
    ensures source { IfOk result (λ b. IsEndpoint b.session spec.source b.source) }
    ensures sink { IfOk result (λ b. IsEndpoint b.session spec.sink b.sink) }
{
    let of_kernel = Kernel::machine(alloc)?;
    let of_source = Source::machine(alloc)?;
    let of_sink = Sink::machine(alloc)?;
    let (session, stages) = Session::begin(alloc, accepted, capacity)?;
    let (kernel, source, sink) = three_stages(&session, stages);
    let kernel = entered::<Begun>(&session, &of_kernel, kernel);
    let source = entered::<Waiting>(&session, &of_source, source);
    let sink = entered::<Ready>(&session, &of_sink, sink);
    Ok(Buffering {
        session,
        kernel,
        source,
        sink,
    })
}

/// Appends an ended role, for which there is room.
fn push_ended(ended: &mut Vec<Ended>, one: Ended)
    requires room { vec_len ended.old < vec_capacity ended.old }
    ensures items { ended.new.items ≡ ended.old.items ++ one ∷ [] }
    ensures capacity { vec_capacity ended.old ≤ vec_capacity ended.new }
{
    match ended.push(one) {
        Ok(()) => {}
        Err(_) => unreachable!(),
    }
}

/// Closes the session of the three roles, which have ended. The empty list has room for them.
pub fn close(session: Session, kernel: Ended, source: Ended, sink: Ended, ended: Vec<Ended>)
    requires machines { session.machines ≡ spec.all_machines }
    requires kernel { IsEnded session kernel × (kernel.role ≡ KERNEL_ROLE) }
    requires source { IsEnded session source × (source.role ≡ SOURCE_ROLE) }
    requires sink { IsEnded session sink × (sink.role ≡ SINK_ROLE) }
    requires room { (ended.items ≡ []) × (3 ≤ vec_capacity ended) }
{
    let mut ended = ended;
    push_ended(&mut ended, kernel);
    push_ended(&mut ended, source);
    push_ended(&mut ended, sink);
    match session.close(ended) {
        Ok(_) => {}
        Err(_) => unreachable!(),
    }
}
