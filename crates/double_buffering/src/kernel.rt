//! The kernel K, whose machine is
//! `S!ready(). rec X. S!ready(). T?ready(). S?{copy(bytes). T!copy(bytes). X, stop(). T!stop(). end}`.

ghost use Rattle.std.specs.Prelude.{refl};
ghost use Rattle.double_buffering.specs.Machines.{kernel};

use crate::names::{
    CopyMessage, KERNEL_ROLE, ReadyMessage, SINK_ROLE, SOURCE_ROLE, SinkParty, SourceParty,
    StopMessage,
};
use crate::states::{receives_one, receives_two, sends_one};
use rs_model::{Machine, NoMemory, State};
use rs_typed::{Finishes, Puts, Spot, TakesOne, TakesTwo, Typing};
use std::alloc::Global;

/// The kernel.
pub struct Kernel;

impl Typing for Kernel {
    ghost meaning = { kernel };

    fn machine(alloc: Global) -> Result<Machine, NoMemory> {
        let mut states = Vec::with_capacity(alloc, 7)?;
        states.push(sends_one(alloc, SOURCE_ROLE, ReadyMessage::then(1)))?;
        states.push(sends_one(alloc, SOURCE_ROLE, ReadyMessage::then(2)))?;
        states.push(receives_one(alloc, SINK_ROLE, ReadyMessage::then(3)))?;
        states.push(receives_two(
            alloc,
            SOURCE_ROLE,
            CopyMessage::then(4),
            StopMessage::then(5),
        )?)?;
        states.push(sends_one(alloc, SINK_ROLE, CopyMessage::then(1)))?;
        states.push(sends_one(alloc, SINK_ROLE, StopMessage::then(6)))?;
        states.push(State::Done)?;
        Ok(Machine {
            role: KERNEL_ROLE,
            states,
            start: 0,
        })
    }
}

/// The states of the kernel's machine.
pub struct KernelAt<const AT: u32>;

impl<const AT: u32> Spot for KernelAt<AT> {
    type Of = Kernel;

    const AT: u32 = AT;

    ghost AT = { AT };
}

/// It tells S for the first time that it is ready.
pub type Begun = KernelAt<0>;

impl Puts<0> for Begun {
    type Peer = SourceParty;

    type Message = ReadyMessage;

    type Next = Ready;

    ghost puts = { (_, refl, refl) };
}

/// It tells S that it is ready for the next copy.
pub type Ready = KernelAt<1>;

impl Puts<0> for Ready {
    type Peer = SourceParty;

    type Message = ReadyMessage;

    type Next = Asked;

    ghost puts = { (_, refl, refl) };
}

/// It waits for T to be ready.
pub type Asked = KernelAt<2>;

impl TakesOne for Asked {
    type Peer = SinkParty;

    type Message = ReadyMessage;

    type Next = Fed;

    ghost takes = { refl };
}

/// It gets a copy from S, or its stop.
pub type Fed = KernelAt<3>;

impl TakesTwo for Fed {
    type Peer = SourceParty;

    type First = CopyMessage;

    type FirstNext = Copying;

    type Second = StopMessage;

    type SecondNext = Stopping;

    ghost takes = { refl };
}

/// It hands a copy to T.
pub type Copying = KernelAt<4>;

impl Puts<0> for Copying {
    type Peer = SinkParty;

    type Message = CopyMessage;

    type Next = Ready;

    ghost puts = { (_, refl, refl) };
}

/// It tells T to stop.
pub type Stopping = KernelAt<5>;

impl Puts<0> for Stopping {
    type Peer = SinkParty;

    type Message = StopMessage;

    type Next = Finished;

    ghost puts = { (_, refl, refl) };
}

/// It has ended.
pub type Finished = KernelAt<6>;

impl Finishes for Finished {
    ghost finishes = { refl };
}
