//! Machines as lists of numbered states, and their acts.

ghost use Rattle.std.specs.Prelude.{◌≡◌, ◌↔◌, IfOk, IsTrue};

use crate::{Arms, Label, NoMemory, Role, Sort};
use std::alloc::Global;
use std::marker::Model;

/// A state of a machine: its end, a choice of sends to one peer, or a choice of receives from one peer.
#[derive(Drop, Debug)]
pub enum State {
    Done,
    Puts { peer: Role, arms: Arms },
    Takes { peer: Role, arms: Arms },
}

impl State {
    ghost use Rattle.std.specs.Prelude.{◌≡◌, ◌↔◌, IfOk, IsTrue};

    /// An equal state in memory of its own.
    pub fn copy(&self, alloc: Global) -> Result<State, NoMemory>
        ensures { IfOk result (λ s. s ≡ self.now) }
    {
        match self {
            State::Done => Ok(State::Done),
            State::Puts { peer, arms } => Ok(State::Puts {
                peer: *peer,
                arms: arms.copy(alloc)?,
            }),
            State::Takes { peer, arms } => Ok(State::Takes {
                peer: *peer,
                arms: arms.copy(alloc)?,
            }),
        }
    }

    /// Whether both states are equal.
    pub fn same(&self, other: &State) -> bool
        ensures { IsTrue result ↔ (self.now ≡ other.now) }
    {
        match (self, other) {
            (State::Done, State::Done) => true,
            (
                State::Puts { peer, arms },
                State::Puts {
                    peer: their_peer,
                    arms: their_arms,
                },
            )
            | (
                State::Takes { peer, arms },
                State::Takes {
                    peer: their_peer,
                    arms: their_arms,
                },
            ) => *peer == *their_peer && arms.same(their_arms),
            _ => false,
        }
    }
}

/// The machine of one role (a local type, a communicating automaton): its states, numbered by their places, and the
/// number of the first one.
#[derive(Drop, Debug)]
pub struct Machine {
    pub role: Role,
    pub states: Vec<State>,
    pub start: u32,
}

impl Model for Machine {
    ghost use Rattle.rs_model.specs.Data.{Machine_data};

    ghost Value = { Machine_data };

    ghost view = { λ m. record { role = m.role; states = m.states.items; start = m.start } };
}

impl Machine {
    ghost use Rattle.std.specs.Prelude.{◌≡◌, ◌↔◌, IfOk, IsTrue};

    /// An equal machine in memory of its own.
    pub fn copy(&self, alloc: Global) -> Result<Machine, NoMemory>
        ensures { IfOk result (λ m. m ≡ self.now) }
    {
        let mut states = Vec::with_capacity(alloc, self.states.len())?;
        for state in &self.states {
            states.push(state.copy(alloc)?)?;
        }
        Ok(Machine {
            role: self.role,
            states,
            start: self.start,
        })
    }

    /// Whether both machines are equal: role, start, and the states one by one and in order.
    pub fn same(&self, other: &Machine) -> bool
        ensures { IsTrue result ↔ (self.now ≡ other.now) }
    {
        self.role == other.role
            && self.start == other.start
            && same_states(&self.states, &other.states)
    }
}

fn same_states(ours: &[State], theirs: &[State]) -> bool
    ensures { IsTrue result ↔ (ours.now ≡ theirs.now) }
{
    if ours.len() != theirs.len() {
        return false;
    }
    for i in 0..ours.len() {
        if !ours[i].same(&theirs[i]) {
            return false;
        }
    }
    true
}

/// One act of a machine: a send to `peer` or a receive from it.
#[derive(Clone, Copy, Debug, PartialEq, Eq)]
pub enum Act {
    Puts {
        peer: Role,
        label: Label,
        sort: Sort,
    },
    Takes {
        peer: Role,
        label: Label,
        sort: Sort,
    },
}

impl Default for Act {
    /// A receive of nothing, which stands at the unused places of lists that keep a few acts in the value itself.
    fn default() -> Act {
        Act::Takes {
            peer: Role(0),
            label: Label(0),
            sort: Sort::Unit,
        }
    }
}

/// Equal machines, in order, in memory of their own.
pub fn copies_of(alloc: Global, machines: &[Machine]) -> Result<Vec<Machine>, NoMemory>
    ensures { IfOk result (λ copies. copies.items ≡ machines.now) }
{
    let mut copies = Vec::with_capacity(alloc, machines.len())?;
    for machine in machines {
        copies.push(machine.copy(alloc)?)?;
    }
    Ok(copies)
}
