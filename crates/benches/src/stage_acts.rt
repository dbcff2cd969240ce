//! The acts of the stream by stages.

ghost use Rattle.std.specs.Prelude.{◌≡◌, ◌<◌, ◌^◌};
ghost use Rattle.benches.specs.Acts.{feeder, drainer, Plays};

use rs_model::Value;
use rs_session::{Sent, Session, Stage, Taken};
use rs_typed::Nat;

/// So many acts a role makes at most.
const MOST_ACTS: u64 = 1 << 62;

/// A sends the number if its ring has room.
fn feed(session: &Session, stage: Stage, number: Nat) -> Stage
    requires { Plays session.now feeder stage }
    ensures { Plays session.now feeder result }
{
    match stage {
        Stage::Sending(sending) => {
            if sending.acts() >= MOST_ACTS {
                return Stage::Sending(sending);
            }
            match sending.send(session, 0, Value::Natural(number.get())) {
                Sent::Went(next) => next,
                Sent::Full {
                    stage,
                    value: _,
                    sent: _,
                    taken: _,
                } => Stage::Sending(stage),
            }
        }
        _ => unreachable!(),
    }
}

/// B receives a value, if there is one. Returns whether it's the number.
fn drain(session: &Session, stage: Stage, number: u64) -> (bool, Stage)
    requires { Plays session.now drainer stage }
    ensures { Plays session.now drainer result.1 }
{
    match stage {
        Stage::Receiving(receiving) => {
            if receiving.acts() >= MOST_ACTS {
                return (false, Stage::Receiving(receiving));
            }
            match receiving.receive(session) {
                Taken::Got {
                    arm: _,
                    value: Value::Natural(found),
                    stage,
                } => (found == number, stage),
                Taken::Got {
                    arm: _,
                    value: _,
                    stage,
                } => (false, stage),
                Taken::Empty { stage, seen: _ } => (false, Stage::Receiving(stage)),
            }
        }
        _ => unreachable!(),
    }
}

/// A sends the numbers below `count` and B receives them, in turn: how many came in order.
pub fn play(session: &Session, a: Stage, b: Stage, count: u64) -> (u64, Stage, Stage)
    requires plays { Plays session.now feeder a × Plays session.now drainer b }
    requires bounded { count < 2 ^ 62 }
    ensures { Plays session.now feeder result.1 × Plays session.now drainer result.2 }
{
    let mut right = 0;
    let mut a = a;
    let mut b = b;
    for n in 0..count {
        if let Some(number) = Nat::of(n) {
            a = feed(session, a, number);
            let (is_right, next) = drain(session, b, n);
            b = next;
            if is_right {
                right += 1;
            }
        }
    }
    (right, a, b)
}
