//! What source, kernel and sink do. Each takes its stage from its place.

ghost use Rattle.std.specs.Prelude.{◌≡◌, IsSome, None, Some, option_map};
ghost use Rattle.rs_session.specs.declared.stages.Stage.TheVariants as kind;
ghost use Rattle.streams.specs.Streams.{Gathers, Gives, HandsOn, IsPlaceOf};

use crate::acts::{receive, send};
use rs_model::{Octets, Role, Value};
use rs_session::{Ended, Session, Stage};
use std::alloc::Global;
use std::sync::Wait;
use std::thread;

const SOURCE: Role = Role(0);

const KERNEL: Role = Role(1);

const SINK: Role = Role(2);

/// The most bytes of one copy.
const PIECE: usize = 4_096;

/// Takes the stage that is at its place.
fn taken(place: &mut Option<Stage>) -> Stage
    requires { IsSome place.old }
    ensures stage { place.old ≡ Some result }
    ensures left { place.new ≡ None }
{
    match place.take() {
        Some(stage) => stage,
        None => unreachable!(),
    }
}

/// The stage of a role that has ended. If the role hasn't ended, it waits for ever.
fn ended<R: Wait>(rt: &R, stage: Stage) -> Ended
    ensures { stage ≡ kind.Ended result }
{
    let mut stage = stage;
    for _ in rt.forever() {
        match stage {
            Stage::Ended(ended) => return ended,
            same => stage = same,
        }
        thread::yield_now();
    }
    unreachable!()
}

/// The source gives the bytes in pieces, and stops: whether it has given all. A piece to which memory is refused is left out.
pub fn feed<R: Wait>(
    rt: &R,
    alloc: Global,
    session: &Session,
    place: &mut Option<Stage>,
    bytes: &[u8],
) -> (Ended, bool)
    requires { IsPlaceOf session.now 0 place.old }
    ensures left { place.new ≡ None }
    ensures gives { Gives session.now bytes.now result.0 result.1 }
{
    let mut stage = taken(place);
    let mut left = bytes;
    let mut is_whole = true;
    while !left.is_empty() {
        let (piece, rest) = left.split_at(PIECE.min(left.len()));
        match Octets::of(alloc, piece) {
            Ok(piece) => stage = send(rt, session, stage, KERNEL, 0, Value::Octets(piece)),
            Err(_) => is_whole = false,
        }
        left = rest;
    }
    let stage = send(rt, session, stage, KERNEL, 1, Value::Unit);
    (ended(rt, stage), is_whole)
}

/// The kernel hands on what comes, until it has ended.
pub fn hand_on<R: Wait>(rt: &R, session: &Session, place: &mut Option<Stage>) -> Ended
    requires { IsPlaceOf session.now 1 place.old }
    ensures left { place.new ≡ None }
    ensures hands_on { HandsOn session.now result }
{
    let mut stage = taken(place);
    for _ in rt.forever() {
        let (value, next) = receive(rt, session, stage, SOURCE);
        match send(rt, session, next, SINK, 0, value) {
            Stage::Ended(ended) => return ended,
            next => stage = next,
        }
    }
    unreachable!()
}

/// The sink gathers the bytes that come, until it has ended. None if memory ran out.
pub fn drain<R: Wait>(
    rt: &R,
    alloc: Global,
    session: &Session,
    place: &mut Option<Stage>,
) -> (Ended, Option<Vec<u8>>)
    requires { IsPlaceOf session.now 2 place.old }
    ensures left { place.new ≡ None }
    ensures gathers { Gathers session.now result.0 (option_map (λ v. v.items) result.1) }
{
    let mut stage = taken(place);
    let mut bytes = Vec::new(alloc);
    let mut is_whole = true;
    for _ in rt.forever() {
        let (value, next) = receive(rt, session, stage, KERNEL);
        if let Value::Octets(piece) = &value {
            is_whole = is_whole && bytes.extend_from_slice(piece.as_slice()).is_ok();
        }
        match next {
            Stage::Ended(ended) => return (ended, if is_whole { Some(bytes) } else { None }),
            next => stage = next,
        }
    }
    unreachable!()
}
