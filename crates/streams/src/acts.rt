//! Acts of stages that wait until they can be made. If the state doesn't have such an act, they wait for ever.

ghost use Rattle.std.specs.Prelude.{◌≡◌, Some, true};
ghost use Rattle.rs_core.specs.Histories as act;
ghost use Rattle.rs_model.specs.declared.machines.State.TheVariants.{Puts};
ghost use Rattle.rs_session.specs.Stages.{IsOf, IsReceiving, IsSending, state_of_stage};
ghost use Rattle.streams.specs.Streams.{Goes, SendsTo, TakesFrom};

use rs_model::{Arm, Role, State, Value};
use rs_session::{Receiving, Sending, Sent, Session, Stage, Taken};
use std::sync::Wait;
use std::thread;

/// So many acts a role makes at most.
const MOST_ACTS: u64 = 1 << 62;

/// The peer and the arms of a role that sends.
fn sending_arms<'a>(session: &'a Session, stage: &Sending) -> (Role, &'a [Arm])
    requires { IsSending session.now stage.now }
    ensures { state_of_stage session.now stage.now ≡ Some (Puts result.0 result.1.now) }
{
    match &session.machine(stage.role()).states[stage.state() as usize] {
        State::Puts { peer, arms } => (*peer, arms.as_slice()),
        _ => unreachable!(),
    }
}

/// Whether the role's state sends to the peer, with an arm at that place for the value.
fn sends_to(session: &Session, stage: &Sending, peer: Role, arm: u16, value: &Value) -> bool
    requires { IsSending session.now stage.now }
    ensures { result ≡ true → SendsTo session.now stage.now peer arm value.now }
{
    let (to, arms) = sending_arms(session, stage);
    if to != peer {
        return false;
    }
    match arms.get(arm as usize) {
        Some(arm) => value.fits(arm.sort),
        None => false,
    }
}

/// Whether the role's state receives from the peer.
fn takes_from(session: &Session, stage: &Receiving, peer: Role) -> bool
    requires { IsReceiving session.now stage.now }
    ensures { result ≡ true → TakesFrom session.now stage.now peer }
{
    match &session.machine(stage.role()).states[stage.state() as usize] {
        State::Takes { peer: from, .. } => *from == peer,
        _ => false,
    }
}

/// Sends the value to the peer by the arm at that place, as soon as there is room.
pub fn send<R: Wait>(
    rt: &R,
    session: &Session,
    stage: Stage,
    peer: Role,
    arm: u16,
    value: Value,
) -> Stage
    requires { IsOf session.now stage }
    ensures { Goes session.now stage result (λ label. act.Sent peer label value) }
{
    let mut stage = stage;
    let mut value = value;
    for _ in rt.forever() {
        match stage {
            Stage::Sending(sending)
                if sending.acts() < MOST_ACTS && sends_to(session, &sending, peer, arm, &value) => {
                match sending.send(session, arm, value) {
                    Sent::Went(next) => return next,
                    Sent::Full {
                        stage: same,
                        value: back,
                        sent: _,
                        taken: _,
                    } => {
                        stage = Stage::Sending(same);
                        value = back;
                    }
                }
            }
            same => stage = same,
        }
        thread::yield_now();
    }
    unreachable!()
}

/// Receives a value from the peer as soon as one has come.
pub fn receive<R: Wait>(rt: &R, session: &Session, stage: Stage, peer: Role) -> (Value, Stage)
    requires { IsOf session.now stage }
    ensures { Goes session.now stage result.1 (λ label. act.Got peer label result.0) }
{
    let mut stage = stage;
    for _ in rt.forever() {
        match stage {
            Stage::Receiving(receiving)
                if receiving.acts() < MOST_ACTS && takes_from(session, &receiving, peer) => {
                match receiving.receive(session) {
                    Taken::Got {
                        arm: _,
                        value,
                        stage: next,
                    } => return (value, next),
                    Taken::Empty {
                        stage: same,
                        seen: _,
                    } => stage = Stage::Receiving(same),
                }
            }
            same => stage = same,
        }
        thread::yield_now();
    }
    unreachable!()
}
