//! The source S, whose machine is `rec X. K?ready(). K!{copy(bytes). X, stop(). K?ready(). end}`.

ghost use Rattle.std.specs.Prelude.{refl};
ghost use Rattle.double_buffering.specs.Machines.{source};

use crate::names::{CopyMessage, KERNEL_ROLE, KernelParty, ReadyMessage, SOURCE_ROLE, StopMessage};
use crate::states::{receives_one, sends_two};
use rs_model::{Machine, NoMemory, State};
use rs_typed::{Finishes, Puts, Spot, TakesOne, Typing};
use std::alloc::Global;

/// The source.
pub struct Source;

impl Typing for Source {
    ghost meaning = { source };

    fn machine(alloc: Global) -> Result<Machine, NoMemory> {
        let mut states = Vec::with_capacity(alloc, 4)?;
        states.push(receives_one(alloc, KERNEL_ROLE, ReadyMessage::then(1)))?;
        states.push(sends_two(
            alloc,
            KERNEL_ROLE,
            CopyMessage::then(0),
            StopMessage::then(2),
        )?)?;
        states.push(receives_one(alloc, KERNEL_ROLE, ReadyMessage::then(3)))?;
        states.push(State::Done)?;
        Ok(Machine {
            role: SOURCE_ROLE,
            states,
            start: 0,
        })
    }
}

/// The states of the source's machine.
pub struct SourceAt<const AT: u32>;

impl<const AT: u32> Spot for SourceAt<AT> {
    type Of = Source;

    const AT: u32 = AT;

    ghost AT = { AT };
}

/// It waits for K to be ready.
pub type Waiting = SourceAt<0>;

impl TakesOne for Waiting {
    type Peer = KernelParty;

    type Message = ReadyMessage;

    type Next = Asked;

    ghost takes = { refl };
}

/// It sends a copy, or stop.
pub type Asked = SourceAt<1>;

impl Puts<0> for Asked {
    type Peer = KernelParty;

    type Message = CopyMessage;

    type Next = Waiting;

    ghost puts = { (_, refl, refl) };
}

impl Puts<1> for Asked {
    type Peer = KernelParty;

    type Message = StopMessage;

    type Next = Leaving;

    ghost puts = { (_, refl, refl) };
}

/// It waits for the last word of K.
pub type Leaving = SourceAt<2>;

impl TakesOne for Leaving {
    type Peer = KernelParty;

    type Message = ReadyMessage;

    type Next = Finished;

    ghost takes = { refl };
}

/// It has ended.
pub type Finished = SourceAt<3>;

impl Finishes for Finished {
    ghost finishes = { refl };
}
