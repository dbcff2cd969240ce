//! The acts of the stream by endpoints.

ghost use Rattle.std.specs.Prelude.{◌≡◌, ◌<◌, ◌^◌};
ghost use Rattle.benches.specs.Acts.{feeder, drainer};
ghost use Rattle.rs_typed.specs.Endpoints.{IsEndpoint};

use crate::stream_types::{Draining, Feeding};
use rs_session::Session;
use rs_typed::{At, Nat, TypedOne, TypedSent};

/// So many acts a role makes at most.
const MOST_ACTS: u64 = 1 << 62;

/// A sends the number if its ring has room.
fn feed(session: &Session, at: At<Feeding>, number: Nat) -> At<Feeding>
    requires { IsEndpoint session.now feeder at }
    ensures { IsEndpoint session.now feeder result }
{
    if at.acts() >= MOST_ACTS {
        return at;
    }
    match at.send::<0>(session, number) {
        TypedSent::Went(next) => next,
        TypedSent::Full {
            at,
            value: _,
            sent: _,
            taken: _,
        } => at,
    }
}

/// B receives a value, if there is one. Returns whether it's the number.
fn drain(session: &Session, at: At<Draining>, number: u64) -> (bool, At<Draining>)
    requires { IsEndpoint session.now drainer at }
    ensures { IsEndpoint session.now drainer result.1 }
{
    if at.acts() >= MOST_ACTS {
        return (false, at);
    }
    match at.receive(session) {
        TypedOne::Got(found, next) => (found.get() == number, next),
        TypedOne::Empty { at, seen: _ } => (false, at),
    }
}

/// A sends the numbers below `count` and B receives them, in turn: how many came in order.
pub fn play(
    session: &Session,
    a: At<Feeding>,
    b: At<Draining>,
    count: u64,
) -> (u64, At<Feeding>, At<Draining>)
    requires plays { IsEndpoint session.now feeder a × IsEndpoint session.now drainer b }
    requires bounded { count < 2 ^ 62 }
    ensures { IsEndpoint session.now feeder result.1 × IsEndpoint session.now drainer result.2 }
{
    let mut right = 0;
    let mut a = a;
    let mut b = b;
    for n in 0..count {
        if let Some(number) = Nat::of(n) {
            a = feed(session, a, number);
            let (is_right, next) = drain(session, b, n);
            b = next;
            if is_right {
                right += 1;
            }
        }
    }
    (right, a, b)
}
