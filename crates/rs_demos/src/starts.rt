//! The actors with which a demo starts.

ghost use Rattle.std.specs.Prelude.{◌≡◌, ◌∷◌, [], map, IfErr, IfOk, None};
ghost use Rattle.std.specs.List.{enumerate_from};
ghost use Rattle.rs_demos.specs.Numbers.{AreAsked, takes_numbers};
ghost use Rattle.rs_demos.specs.Reading.{ReadsInVain};
ghost use Rattle.rs_demos.specs.Starts.{StartRefuses, StartsWithActors, butterfly_member, ring_member};
ghost use Rattle.rs_demos.specs.declared.actors.DemoTalker.TheVariants as actor;

use crate::actors::{DemoActor, DemoTalker};
use crate::faults::DemoFault;
use crate::numbers::numbers_of;
use crate::parts::{ButterflyMember, Kernel, PieceSink, PieceSource, RingMember};
use rs_actors::TalkingActor;
use rs_model::{Demo, NoMemory};
use std::alloc::Global;

/// The actors of a demo, in role order: each starts with the input's part of its role, and with nothing else.
///
/// `BadNumbers` is returned if and only if the demo asks for numbers and the bytes don't spell them.
pub fn demo_actors(alloc: Global, kind: Demo, bytes: &[u8]) -> Result<Vec<DemoActor>, DemoFault>
    ensures ok { IfOk result (λ actors. StartsWithActors kind bytes.now actors.items) }
    ensures err { IfErr result (λ e. StartRefuses kind bytes.now e) }
{
    match kind {
        Demo::Double => Ok(double_actors(alloc, bytes)?),
        Demo::Stream => Ok(stream_actors(alloc, bytes)?),
        Demo::Ring => {
            let numbers = asked_numbers(alloc, kind, bytes)?;
            Ok(ring_actors(alloc, numbers.as_slice())?)
        }
        Demo::Butterfly => {
            let numbers = asked_numbers(alloc, kind, bytes)?;
            Ok(butterfly_actors(alloc, numbers.as_slice())?)
        }
    }
}

fn takes_numbers(kind: Demo, count: usize) -> bool
    ensures { result ≡ takes_numbers kind count }
{
    match kind {
        Demo::Ring => 2 <= count && count <= 16,
        Demo::Butterfly => count == 2 || count == 4 || (count == 8 || count == 16),
        Demo::Double | Demo::Stream => false,
    }
}

/// The numbers of the bytes, where they are those that the demo asks for.
#[tactic(auto, using(crate::proofs::Spelt::asks_none))]
fn asked_numbers(alloc: Global, kind: Demo, bytes: &[u8]) -> Result<Vec<i64>, DemoFault>
    ensures ok { IfOk result (λ numbers. AreAsked kind bytes.now numbers.items) }
    ensures err { IfErr result (λ e. ReadsInVain kind bytes.now e) }
{
    let numbers = numbers_of(alloc, bytes)?;
    if takes_numbers(kind, numbers.len()) {
        Ok(numbers)
    } else {
        Err(DemoFault::BadNumbers)
    }
}

fn double_actors(alloc: Global, bytes: &[u8]) -> Result<Vec<DemoActor>, NoMemory>
    ensures { IfOk result (λ actors. actors.items ≡ actor.Kernel (record { piece = None }) ∷ actor.Source bytes.now ∷ actor.Sink [] ∷ []) }
{
    let mut actors = Vec::new(alloc);
    actors.push(TalkingActor::new(DemoTalker::Kernel(Kernel { piece: None })))?;
    let source = PieceSource::new(alloc, bytes)?;
    actors.push(TalkingActor::new(DemoTalker::Source(source)))?;
    let sink = PieceSink::with_capacity(alloc, bytes.len())?;
    actors.push(TalkingActor::new(DemoTalker::Sink(sink)))?;
    Ok(actors)
}

fn stream_actors(alloc: Global, bytes: &[u8]) -> Result<Vec<DemoActor>, NoMemory>
    ensures { IfOk result (λ actors. actors.items ≡ actor.Source bytes.now ∷ actor.Sink [] ∷ []) }
{
    let mut actors = Vec::new(alloc);
    let source = PieceSource::new(alloc, bytes)?;
    actors.push(TalkingActor::new(DemoTalker::Source(source)))?;
    let sink = PieceSink::with_capacity(alloc, bytes.len())?;
    actors.push(TalkingActor::new(DemoTalker::Sink(sink)))?;
    Ok(actors)
}

fn ring_actors(alloc: Global, numbers: &[i64]) -> Result<Vec<DemoActor>, NoMemory>
    ensures { IfOk result (λ actors. actors.items ≡ map ring_member numbers.now) }
{
    let member = |number: &i64| {
        TalkingActor::new(DemoTalker::RingMember(RingMember {
            last: *number,
            sum: *number,
        }))
    };
    Ok(numbers.iter().map(member).collect(alloc)?)
}

fn butterfly_actors(alloc: Global, numbers: &[i64]) -> Result<Vec<DemoActor>, NoMemory>
    ensures { IfOk result (λ actors. actors.items ≡ map butterfly_member (enumerate_from 0 numbers.now)) }
{
    let member = |(role, number): (usize, &i64)| {
        TalkingActor::new(DemoTalker::ButterflyMember(ButterflyMember {
            bits: role,
            held: *number,
        }))
    };
    Ok(numbers.iter().enumerate().map(member).collect(alloc)?)
}
