//! Sessions of the stream, played by stages or by endpoints on one thread.

ghost use Rattle.std.specs.Prelude.{◌≡◌, ◌≤◌, ◌<◌, ◌^◌, [], ◌∷◌, ◌++◌, IfOk, IfSome, IsTrue, length, vec_capacity, vec_len};
ghost use Rattle.rs_session.specs.Stages.{AreFirst};
ghost use Rattle.benches.specs.Acts.{feeder, drainer, Plays};
ghost use Rattle.benches.specs.Sessions.{machines_of_stream};

use crate::stream_types::{Drainer, Draining, Feeder, Feeding};
use crate::{endpoint_acts, stage_acts};
use rs_answers::{AcceptedDocument, accept_document};
use rs_documents::read_document;
use rs_model::{Bound, Machine, NoMemory};
use rs_safety::Accepted;
use rs_session::{Session, Stage};
use rs_typed::{At, Spot, Typing};
use std::alloc::Global;

/// A sends B numbers for ever.
const STREAM: &[u8] = b"roles A, B\nprotocol rec X. A->B:x(nat). X\n";

/// How many values each ring holds.
const CAPACITY: u16 = 16;

/// By what the roles are played.
#[derive(Clone, Copy)]
pub enum Way {
    Stages,
    Endpoints,
}

/// Whether the machines are those of A and B, in this order.
fn are_typed(alloc: Global, machines: &[Machine]) -> Result<bool, NoMemory>
    ensures { IfOk result (λ are. IsTrue are → machines.now ≡ machines_of_stream) }
{
    let of_a = Feeder::machine(alloc)?;
    let of_b = Drainer::machine(alloc)?;
    Ok(match machines {
        [a, b] => a.same(&of_a) && b.same(&of_b),
        _ => false,
    })
}

/// The session of the text, as it is accepted.
fn accepted_stream(alloc: Global) -> Option<Accepted>
    ensures { IfSome result (λ accepted. accepted.machines ≡ machines_of_stream) }
{
    let Ok(document) = read_document(alloc, STREAM) else {
        return None;
    };
    let Ok(accepted) = accept_document(alloc, document, Bound::standard()) else {
        return None;
    };
    let AcceptedDocument { names: _, session } = accepted;
    match are_typed(alloc, session.machines()) {
        Ok(true) => Some(session),
        _ => None,
    }
}

/// The last stage, of which there is one.
fn last_stage(stages: &mut Vec<Stage>) -> Stage
    requires { 0 < length stages.old.items }
    ensures items { stages.old.items ≡ stages.new.items ++ result ∷ [] }
    ensures capacity { vec_capacity stages.new ≡ vec_capacity stages.old }
{
    match stages.pop() {
        Some(stage) => stage,
        None => unreachable!(),
    }
}

/// The first stages of A and B.
fn two_stages(session: &Session, stages: &mut Vec<Stage>) -> (Stage, Stage)
    requires machines { session.now.machines ≡ machines_of_stream }
    requires first { AreFirst session.now stages.old.items }
    ensures a { Plays session.now feeder result.0 }
    ensures b { Plays session.now drainer result.1 }
    ensures none { stages.new.items ≡ [] }
    ensures room { 2 ≤ vec_capacity stages.new }
{
    let b = last_stage(stages);
    let a = last_stage(stages);
    (a, b)
}

/// Appends a stage, for which there is room.
fn push_stage(stages: &mut Vec<Stage>, stage: Stage)
    requires room { vec_len stages.old < vec_capacity stages.old }
    ensures items { stages.new.items ≡ stages.old.items ++ stage ∷ [] }
    ensures capacity { vec_capacity stages.old ≤ vec_capacity stages.new }
{
    match stages.push(stage) {
        Ok(()) => {}
        Err(_) => unreachable!(),
    }
}

/// Gives the session up. The empty list has room for the stages.
fn give_up(session: Session, stages: Vec<Stage>, a: Stage, b: Stage)
    requires machines { session.machines ≡ machines_of_stream }
    requires a { Plays session feeder a }
    requires b { Plays session drainer b }
    requires room { (stages.items ≡ []) × (2 ≤ vec_capacity stages) }
{
    let mut stages = stages;
    push_stage(&mut stages, a);
    push_stage(&mut stages, b);
    let _ = session.abandon(stages);
}

/// The endpoint of a stage in its machine's first state.
fn entered<S: Spot>(session: &Session, machine: &Machine, stage: Stage) -> At<S>
    requires machine { machine.now ≡ S.Of.meaning }
    requires first { S.AT ≡ 0 }
    requires plays { Plays session.now S.Of.meaning stage }
    ensures { result ≡ stage }
{
    match At::<S>::enter(session, machine, stage) {
        Ok(at) => at,
        Err(_) => unreachable!(),
    }
}

/// As `stage_acts::play`, by endpoints.
fn play_endpoints(
    session: &Session,
    machines: (&Machine, &Machine),
    a: Stage,
    b: Stage,
    count: u64,
) -> (u64, Stage, Stage)
    requires machines { (machines.0.now ≡ feeder) × (machines.1.now ≡ drainer) }
    requires plays { Plays session.now feeder a × Plays session.now drainer b }
    requires bounded { count < 2 ^ 62 }
    ensures { Plays session.now feeder result.1 × Plays session.now drainer result.2 }
{
    let a = entered::<Feeding>(session, machines.0, a);
    let b = entered::<Draining>(session, machines.1, b);
    let (right, a, b) = endpoint_acts::play(session, a, b, count);
    (right, a.into_stage(), b.into_stage())
}

/// How many of the numbers below `count` come in order in a session of the machines, played in that way.
fn right_in(alloc: Global, accepted: &Accepted, way: Way, count: u64) -> Result<u64, NoMemory>
    requires machines { accepted.now.machines ≡ machines_of_stream }
    requires bounded { count < 2 ^ 62 }
{
    let of_a = Feeder::machine(alloc)?;
    let of_b = Drainer::machine(alloc)?;
    let (session, stages) = Session::begin(alloc, accepted, CAPACITY)?;
    let mut stages = stages;
    let (a, b) = two_stages(&session, &mut stages);
    let (right, a, b) = match way {
        Way::Stages => stage_acts::play(&session, a, b, count),
        Way::Endpoints => play_endpoints(&session, (&of_a, &of_b), a, b, count),
    };
    give_up(session, stages, a, b);
    Ok(right)
}

/// How many of the numbers below `count` come in order in a session of the stream, played in that way.
pub fn right_of(alloc: Global, way: Way, count: u32) -> Option<u64> {
    let accepted = accepted_stream(alloc)?;
    right_in(alloc, &accepted, way, u64::from(count)).ok()
}
