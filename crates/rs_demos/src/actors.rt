//! The actors of the demos, and the talkers that they play.

ghost use Rattle.std.specs.Prelude.{◌≡◌, ◌+ℤ◌, ◌-ℤ◌, IfOk};
ghost use Rattle.rs_demos.specs.Acting.{butterfly_behind, butterfly_told, demo_conduct, number_told, ring_behind, ring_told};
ghost use Rattle.rs_demos.specs.Results.{inverse_bytes, in_64_bits};

use crate::parts::{ButterflyMember, Kernel, PieceSink, PieceSource, RingMember};
use rs_actors::{Talker, TalkingActor};
use rs_model::{NoMemory, Octets, Sort, Value};
use std::alloc::Global;

/// What a role of a demo sends, and what it makes of what comes.
#[derive(Drop, Debug)]
pub enum DemoTalker {
    Source(PieceSource),
    Kernel(Kernel),
    Sink(PieceSink),
    RingMember(RingMember),
    ButterflyMember(ButterflyMember),
}

/// What chooses for a role of a demo.
pub type DemoActor = TalkingActor<DemoTalker>;

/// The number of a value of the sort `int`.
fn number_told(value: &Value) -> Option<i64>
    ensures { result ≡ number_told value.now }
{
    match value {
        Value::Whole(number) => Some(*number),
        Value::Natural(number) => i64::try_from(*number).ok(),
        _ => None,
    }
}

/// The bytes, each one inverted.
fn inverse_bytes(alloc: Global, bytes: &[u8]) -> Result<Octets, NoMemory>
    ensures { IfOk result (λ o. o ≡ inverse_bytes bytes.now) }
{
    let bytes: Vec<u8> = bytes.iter().map(|byte| 255 - *byte).collect(alloc)?;
    Ok(Octets::from(bytes))
}

#[tactic(auto, using(std::proofs::lemmas::Int::wraps))]
fn sum(a: i64, b: i64) -> i64
    ensures { result ≡ in_64_bits (a +ℤ b) }
{
    a.wrapping_add(b)
}

#[tactic(auto, using(std::proofs::lemmas::Int::wraps))]
fn difference(a: i64, b: i64) -> i64
    ensures { result ≡ in_64_bits (a -ℤ b) }
{
    a.wrapping_sub(b)
}

impl RingMember {
    /// What it is when the number has come.
    fn with_number(self, number: i64) -> RingMember
        ensures { result ≡ ring_told self number }
    {
        RingMember {
            last: number,
            sum: sum(self.sum, number),
        }
    }

    /// What it is when the value has come.
    fn behind_value(self, value: &Value) -> RingMember
        ensures { result ≡ ring_behind self (number_told value.now) }
    {
        match number_told(value) {
            Some(number) => self.with_number(number),
            None => self,
        }
    }
}

impl ButterflyMember {
    /// What it is when the number has come.
    fn with_number(self, number: i64) -> ButterflyMember
        ensures { result ≡ butterfly_told self number }
    {
        let held = if self.bits % 2 == 0 {
            sum(self.held, number)
        } else {
            difference(number, self.held)
        };
        ButterflyMember {
            bits: self.bits / 2,
            held,
        }
    }

    /// What it is when the value has come.
    fn behind_value(self, value: &Value) -> ButterflyMember
        ensures { result ≡ butterfly_behind self (number_told value.now) }
    {
        match number_told(value) {
            Some(number) => self.with_number(number),
            None => self,
        }
    }
}

impl Talker for DemoTalker {
    ghost conduct = { demo_conduct };

    fn sort(&self) -> Sort {
        match self {
            DemoTalker::Source(source) if source.left().is_empty() => Sort::Unit,
            DemoTalker::Source(_) => Sort::Octets,
            DemoTalker::Kernel(kernel) => match kernel.piece {
                Some(_) => Sort::Octets,
                None => Sort::Unit,
            },
            DemoTalker::Sink(_) => Sort::Unit,
            DemoTalker::RingMember(_) | DemoTalker::ButterflyMember(_) => Sort::Whole,
        }
    }

    fn send(&mut self, alloc: Global) -> Result<Value, NoMemory> {
        Ok(match self {
            DemoTalker::Source(source) if source.left().is_empty() => Value::Unit,
            DemoTalker::Source(source) => Value::Octets(source.send_piece(alloc)?),
            DemoTalker::Kernel(kernel) => match kernel.piece.take() {
                Some(piece) => Value::Octets(piece),
                None => Value::Unit,
            },
            DemoTalker::Sink(_) => Value::Unit,
            DemoTalker::RingMember(member) => Value::Whole(member.last),
            DemoTalker::ButterflyMember(member) => Value::Whole(member.held),
        })
    }

    /// Keeps what comes, as its role does.
    fn take(&mut self, alloc: Global, value: &Value) -> Result<(), NoMemory> {
        match (self, value) {
            (DemoTalker::Kernel(kernel), Value::Octets(bytes)) => {
                kernel.piece = Some(inverse_bytes(alloc, bytes.as_slice())?);
            }
            (DemoTalker::Sink(sink), Value::Octets(piece)) => sink.append(piece.as_slice())?,
            (DemoTalker::RingMember(member), value) => *member = member.behind_value(value),
            (DemoTalker::ButterflyMember(member), value) => *member = member.behind_value(value),
            _ => {}
        }
        Ok(())
    }
}
