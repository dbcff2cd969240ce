//! Plays the session of the text on standard input by endpoints, in rounds, and prints how many messages were received.
#![tactic(auto)]

use rs_endpoints::{Endpoint, Fetched, Posted, begin};
use rs_io::{StdSource, read_all};
use rs_model::{MOST_BYTES, Sort, State, Value};
use rs_open::{OpenSession, open};
use std::alloc::{Alloc, Global};
use std::process::ExitCode;

/// How many rounds are played at most.
const ROUNDS: u32 = 1_000;

/// What an endpoint did.
#[derive(Clone, Copy, Debug, PartialEq, Eq)]
enum Act {
    Sent,
    Received,
    Waits,
}

/// The value that the role sends next, by the last arm of its state, and the arm's place.
fn next_value(endpoint: &Endpoint) -> Option<(u16, Value)> {
    let State::Puts { arms, .. } = endpoint.state() else {
        return None;
    };
    let arm = arms.as_slice().last()?;
    let value = match arm.sort {
        Sort::Unit => Value::Unit,
        Sort::Flag => Value::Flag(true),
        Sort::Natural | Sort::Whole => Value::Natural(1),
        _ => return None,
    };
    Some((endpoint.place(arm.label)?, value))
}

/// Makes one act of the role, if it can.
fn make_act(endpoint: &mut Endpoint) -> Act {
    match next_value(endpoint) {
        Some((place, value)) => match endpoint.send(place, value) {
            Posted::Went => Act::Sent,
            Posted::Full { .. } | Posted::Refused { .. } => Act::Waits,
        },
        None => match endpoint.receive() {
            Fetched::Got { .. } => Act::Received,
            Fetched::Empty { .. } | Fetched::Refused => Act::Waits,
        },
    }
}

/// Plays a round: each role makes an act, if it can. How many messages were received.
fn round(endpoints: &mut [Option<Endpoint>]) -> u32 {
    let mut received = 0u32;
    for endpoint in endpoints {
        if let Some(endpoint) = endpoint {
            if make_act(endpoint) == Act::Received {
                received = received.saturating_add(1);
            }
        }
    }
    received
}

/// How many messages were received in all rounds; None if memory ran out.
fn play(alloc: Global, session: &OpenSession) -> Option<u32> {
    let mut endpoints = begin(alloc, session.accepted(), session.capacity()).ok()?;
    let mut received = 0u32;
    for _ in 0..ROUNDS {
        received = received.saturating_add(round(endpoints.as_mut_slice()));
    }
    Some(received)
}

fn main(rt: HostRuntime) -> ExitCode {
    let alloc = rt.alloc();
    let text = match read_all(alloc, &mut StdSource::new(rt.reader()), MOST_BYTES) {
        Ok(text) => text,
        Err(_) => return ExitCode::from(1),
    };
    let is_played = match open(alloc, text.as_slice()) {
        Ok(session) => match play(alloc, &session) {
            Some(received) => println!(rt; "{received} messages were received").is_ok(),
            None => false,
        },
        Err(refused) => {
            let _ = print!(rt; "{refused}");
            false
        }
    };
    ExitCode::from(if is_played { 0 } else { 1 })
}
