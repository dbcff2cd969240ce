//! The sink T, whose machine is `rec X. K!ready(). K?{copy(bytes). X, stop(). end}`.

ghost use Rattle.std.specs.Prelude.{refl};
ghost use Rattle.double_buffering.specs.Machines.{sink};

use crate::names::{CopyMessage, KERNEL_ROLE, KernelParty, ReadyMessage, SINK_ROLE, StopMessage};
use crate::states::{receives_two, sends_one};
use rs_model::{Machine, NoMemory, State};
use rs_typed::{Finishes, Puts, Spot, TakesTwo, Typing};
use std::alloc::Global;

/// The sink.
pub struct Sink;

impl Typing for Sink {
    ghost meaning = { sink };

    fn machine(alloc: Global) -> Result<Machine, NoMemory> {
        let mut states = Vec::with_capacity(alloc, 3)?;
        states.push(sends_one(alloc, KERNEL_ROLE, ReadyMessage::then(1)))?;
        states.push(receives_two(
            alloc,
            KERNEL_ROLE,
            CopyMessage::then(0),
            StopMessage::then(2),
        )?)?;
        states.push(State::Done)?;
        Ok(Machine {
            role: SINK_ROLE,
            states,
            start: 0,
        })
    }
}

/// The states of the sink's machine.
pub struct SinkAt<const AT: u32>;

impl<const AT: u32> Spot for SinkAt<AT> {
    type Of = Sink;

    const AT: u32 = AT;

    ghost AT = { AT };
}

/// It tells K that it is ready.
pub type Ready = SinkAt<0>;

impl Puts<0> for Ready {
    type Peer = KernelParty;

    type Message = ReadyMessage;

    type Next = Waiting;

    ghost puts = { (_, refl, refl) };
}

/// It waits for a copy, or for stop.
pub type Waiting = SinkAt<1>;

impl TakesTwo for Waiting {
    type Peer = KernelParty;

    type First = CopyMessage;

    type FirstNext = Ready;

    type Second = StopMessage;

    type SecondNext = Finished;

    ghost takes = { refl };
}

/// It has ended.
pub type Finished = SinkAt<2>;

impl Finishes for Finished {
    ghost finishes = { refl };
}
