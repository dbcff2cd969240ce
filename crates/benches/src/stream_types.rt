//! The stream as types: A sends B numbers for ever.

ghost use Rattle.std.specs.Prelude.{refl};
ghost use Rattle.benches.specs.Acts.{feeder, drainer};

use rs_model::{Arms, Machine, NoMemory, Role, State};
use rs_typed::{Message, Nat, Party, Puts, Spot, TakesOne, Typing};
use std::alloc::Global;

type Number = Message<0, Nat>;

/// A, which sends.
pub struct Feeder;

impl Typing for Feeder {
    ghost meaning = { feeder };

    fn machine(alloc: Global) -> Result<Machine, NoMemory> {
        let state = State::Puts {
            peer: Role(1),
            arms: Arms::of_one(alloc, Number::then(0)),
        };
        Ok(Machine {
            role: Role(0),
            states: vec![in alloc; state]?,
            start: 0,
        })
    }
}

/// Its states.
pub struct FeederAt<const AT: u32>;

impl<const AT: u32> Spot for FeederAt<AT> {
    type Of = Feeder;

    const AT: u32 = AT;

    ghost AT = { AT };
}

/// It sends the next number.
pub type Feeding = FeederAt<0>;

impl Puts<0> for Feeding {
    type Peer = Party<1>;

    type Message = Number;

    type Next = Feeding;

    ghost puts = { (_, refl, refl) };
}

/// B, which receives.
pub struct Drainer;

impl Typing for Drainer {
    ghost meaning = { drainer };

    fn machine(alloc: Global) -> Result<Machine, NoMemory> {
        let state = State::Takes {
            peer: Role(0),
            arms: Arms::of_one(alloc, Number::then(0)),
        };
        Ok(Machine {
            role: Role(1),
            states: vec![in alloc; state]?,
            start: 0,
        })
    }
}

/// Its states.
pub struct DrainerAt<const AT: u32>;

impl<const AT: u32> Spot for DrainerAt<AT> {
    type Of = Drainer;

    const AT: u32 = AT;

    ghost AT = { AT };
}

/// It waits for the next number.
pub type Draining = DrainerAt<0>;

impl TakesOne for Draining {
    type Peer = Party<0>;

    type Message = Number;

    type Next = Draining;

    ghost takes = { refl };
}
