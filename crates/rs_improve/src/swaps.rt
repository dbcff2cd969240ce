//! One swap of a machine.

ghost use Rattle.std.specs.Prelude.{IfOk};
ghost use Rattle.rs_derive.specs.Derivations.{IsProper};
ghost use Rattle.rs_improve.specs.Swaps.{IsLeastExchange, IsSwapAnswer};

mod exchanges;
mod numbering;
mod states;

use exchanges::{Exchange, least_exchange};
use numbering::{NumberedStates, name_all};
use rs_model::{Machine, NoMemory, State};
use states::{nexts_of, state_of};
use std::alloc::Global;

/// A state of a swapped machine, before its states are numbered anew.
#[derive(Clone, Copy, Debug, PartialEq, Eq)]
pub(crate) enum SwappedState {
    /// The state with this number of the machine before.
    Old { state: u32 },
    /// The receive after the send with this place.
    New { send: usize },
}

/// The result of a swap.
#[derive(Drop)]
pub(crate) enum SwapAnswer {
    /// No state can be swapped.
    Nothing,
    /// The swapped machine would have more than 1,024 states.
    TooManyStates,
    To { machine: Machine },
}

/// The machine with the least state swapped that can be.
pub(crate) fn swap(alloc: Global, machine: &Machine) -> Result<SwapAnswer, NoMemory>
    requires { IsProper machine.now }
    ensures { IfOk result (IsSwapAnswer machine.now) }
{
    match least_exchange(machine) {
        None => Ok(SwapAnswer::Nothing),
        Some(x) => swap_by(alloc, machine, &x),
    }
}

// The machine with this state swapped.
fn swap_by(alloc: Global, machine: &Machine, x: &Exchange<'_>) -> Result<SwapAnswer, NoMemory>
    requires proper { IsProper machine.now }
    requires least { IsLeastExchange machine.now x.now }
    ensures { IfOk result (IsSwapAnswer machine.now) }
{
    let mut found = NumberedStates::begin(alloc, machine, x)?;
    let mut states: Vec<State> = Vec::new(alloc);
    while states.len() < found.items.len() {
        let state = found.items[states.len()];
        let nexts = nexts_of(alloc, machine, x, state)?;
        let row = match name_all(alloc, &mut found, &nexts)? {
            Some(row) => row,
            None => return Ok(SwapAnswer::TooManyStates),
        };
        let swapped = state_of(alloc, machine, x, state, row.as_slice())?;
        states.push(swapped)?;
    }
    Ok(SwapAnswer::To {
        machine: Machine {
            role: machine.role,
            states,
            start: 0,
        },
    })
}
