//! Acts of endpoints that wait until they can be made.

ghost use Rattle.rs_typed.specs.Endpoints.{IsEndpoint};
ghost use Rattle.double_buffering.specs.Waiting.{ComesTo};

use rs_session::Session;
use rs_typed::{
    At, HasLabel, Payload, Puts, Spot, TakesOne, TakesTwo, TypedOne, TypedSent, TypedTwo,
};
use std::sync::Wait;
use std::thread;

/// So many acts a role makes at most. It waits for ever before it makes one more.
const MOST_ACTS: u64 = 1 << 62;

/// What came at a spot that takes two labels.
pub enum Came<M: Spot, V: Payload, N: Spot, W: Payload> {
    /// A value with the first label, and the spot after it.
    First(V, At<M>),
    /// A value with the second label, and the spot after it.
    Second(W, At<N>),
}

/// Sends the value by the arm at place `ARM` as soon as there is room.
pub fn send<const ARM: u16, S: Puts<ARM>, R: Wait>(
    rt: &R,
    session: &Session,
    at: At<S>,
    value: <<S as Puts<ARM>>::Message as HasLabel>::Carries,
) -> At<<S as Puts<ARM>>::Next>
    requires { IsEndpoint session.now S.Of.meaning at }
    ensures { IsEndpoint session.now S.Of.meaning result }
{
    let mut at = at;
    let mut value = value;
    for _ in rt.forever() {
        if at.acts() < MOST_ACTS {
            match at.send::<ARM>(session, value) {
                TypedSent::Went(next) => return next,
                TypedSent::Full {
                    at: same,
                    value: back,
                    sent: _,
                    taken: _,
                } => {
                    at = same;
                    value = back;
                }
            }
        }
        thread::yield_now();
    }
    unreachable!()
}

/// Receives a value as soon as one has come.
pub fn receive<S: TakesOne, R: Wait>(
    rt: &R,
    session: &Session,
    at: At<S>,
) -> (
    <<S as TakesOne>::Message as HasLabel>::Carries,
    At<<S as TakesOne>::Next>,
)
    requires { IsEndpoint session.now S.Of.meaning at }
    ensures { IsEndpoint session.now S.Of.meaning result.1 }
{
    let mut at = at;
    for _ in rt.forever() {
        if at.acts() < MOST_ACTS {
            match at.receive(session) {
                TypedOne::Got(value, next) => return (value, next),
                TypedOne::Empty { at: same, seen: _ } => at = same,
            }
        }
        thread::yield_now();
    }
    unreachable!()
}

/// Receives a value by one of two arms as soon as one has come.
pub fn receive_two<S: TakesTwo, R: Wait>(
    rt: &R,
    session: &Session,
    at: At<S>,
) -> Came<
    <S as TakesTwo>::FirstNext,
    <<S as TakesTwo>::First as HasLabel>::Carries,
    <S as TakesTwo>::SecondNext,
    <<S as TakesTwo>::Second as HasLabel>::Carries,
>
    requires { IsEndpoint session.now S.Of.meaning at }
    ensures { ComesTo session.now S.Of.meaning result }
{
    let mut at = at;
    for _ in rt.forever() {
        if at.acts() < MOST_ACTS {
            match at.receive_two(session) {
                TypedTwo::First(value, next) => return Came::First(value, next),
                TypedTwo::Second(value, next) => return Came::Second(value, next),
                TypedTwo::Empty { at: same, seen: _ } => at = same,
            }
        }
        thread::yield_now();
    }
    unreachable!()
}
