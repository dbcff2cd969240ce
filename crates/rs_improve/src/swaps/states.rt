//! The states of a swapped machine, and what they lead to.

ghost use Rattle.std.specs.Prelude.{◌≡◌, ◌<◌, ℕ, List, length, map, slice_get, Some, IfOk};
ghost use Rattle.rs_derive.specs.Derivations.{IsProper};
ghost use Rattle.rs_model.specs.declared.graph.Arm.{Arm};
ghost use Rattle.rs_improve.specs.Swapping.{HasSlot};
ghost use Rattle.rs_improve.specs.Swaps.{IsExchange, arms_of, arms_to, next_behind, arm_numbers, state_before, state_to, swapped_nexts, swapped_state};
ghost use Rattle.rs_improve.specs.declared.swaps.SwappedState.TheVariants.{New, Old};

use super::SwappedState;
use super::exchanges::Exchange;
use rs_model::{Arm, Arms, Machine, NoMemory, State};
use std::alloc::Global;

/// What the arms of a state of the swapped machine lead to, in order.
pub(crate) fn nexts_of(
    alloc: Global,
    machine: &Machine,
    x: &Exchange<'_>,
    state: SwappedState,
) -> Result<Vec<SwappedState>, NoMemory>
    requires proper { IsProper machine.now }
    requires exchange { IsExchange machine.now x.now }
    requires present { HasSlot (length machine.now.states) (length x.now.puts) state }
    ensures { IfOk result (λ v. v.items ≡ swapped_nexts machine.now x.now state) }
{
    match state {
        SwappedState::Old { state } => {
            if state as usize == x.state {
                new_nexts(alloc, x.puts)
            } else {
                old_nexts(alloc, arms_of(&machine.states[state as usize]))
            }
        }
        SwappedState::New { send } => nexts_behind(alloc, machine, x.takes, send),
    }
}

// The new states, one for each send.
fn new_nexts(alloc: Global, puts: &[Arm]) -> Result<Vec<SwappedState>, NoMemory>
    ensures { IfOk result (λ v. v.items ≡ map New (arm_numbers 0 puts.now)) }
{
    let mut nexts = Vec::with_capacity(alloc, puts.len())?;
    for send in 0..puts.len() {
        nexts.push(SwappedState::New { send })?;
    }
    Ok(nexts)
}

// The states to which the arms lead.
fn old_nexts(alloc: Global, arms: &[Arm]) -> Result<Vec<SwappedState>, NoMemory>
    ensures { IfOk result (λ v. v.items ≡ map (λ (a : Arm). Old a.next) arms.now) }
{
    let mut nexts = Vec::with_capacity(alloc, arms.len())?;
    for arm in arms {
        nexts.push(SwappedState::Old { state: arm.next })?;
    }
    Ok(nexts)
}

// Where the sends with this place led after each of the arms.
fn nexts_behind(
    alloc: Global,
    machine: &Machine,
    takes: &[Arm],
    send: usize,
) -> Result<Vec<SwappedState>, NoMemory>
    requires within { (i : ℕ) (a : Arm) → slice_get takes.now i ≡ Some a → a.next < length machine.now.states }
    requires long { (i : ℕ) (a : Arm) → slice_get takes.now i ≡ Some a → send < length (arms_of (state_before machine.now a.next)) }
    ensures { IfOk result (λ v. v.items ≡ map (next_behind machine.now send) takes.now) }
{
    let mut nexts = Vec::with_capacity(alloc, takes.len())?;
    for i in 0..takes.len() {
        let arms = arms_of(&machine.states[takes[i].next as usize]);
        nexts.push(old_at(arms, send))?;
    }
    Ok(nexts)
}

// The state to which the arm with this place leads.
fn old_at(arms: &[Arm], place: usize) -> SwappedState
    requires { place < length arms.now }
    ensures { (arm : Arm) → slice_get arms.now place ≡ Some arm → result ≡ Old arm.next }
{
    SwappedState::Old {
        state: arms[place].next,
    }
}

fn arms_of(state: &State) -> &[Arm]
    ensures { result.now ≡ arms_of state.now }
{
    match state {
        State::Done => &[],
        State::Puts { arms, .. } | State::Takes { arms, .. } => arms.as_slice(),
    }
}

/// A state of the swapped machine, with these next states.
pub(crate) fn state_of(
    alloc: Global,
    machine: &Machine,
    x: &Exchange<'_>,
    state: SwappedState,
    row: &[u32],
) -> Result<State, NoMemory>
    requires present { HasSlot (length machine.now.states) (length x.now.puts) state }
    requires size { length row.now ≡ length (arms_of (swapped_state machine.now x.now state)) }
    ensures { IfOk result (λ s. s ≡ state_to (swapped_state machine.now x.now state) row.now) }
{
    match state {
        SwappedState::Old { state } => {
            if state as usize == x.state {
                Ok(State::Puts {
                    peer: x.to,
                    arms: arms_to(alloc, x.puts, row)?,
                })
            } else {
                state_to(alloc, &machine.states[state as usize], row)
            }
        }
        SwappedState::New { .. } => Ok(State::Takes {
            peer: x.from,
            arms: arms_to(alloc, x.takes, row)?,
        }),
    }
}

// The state with these next states.
fn state_to(alloc: Global, state: &State, row: &[u32]) -> Result<State, NoMemory>
    requires { length row.now ≡ length (arms_of state.now) }
    ensures { IfOk result (λ s. s ≡ state_to state.now row.now) }
{
    match state {
        State::Done => Ok(State::Done),
        State::Puts { peer, arms } => Ok(State::Puts {
            peer: *peer,
            arms: arms_to(alloc, arms.as_slice(), row)?,
        }),
        State::Takes { peer, arms } => Ok(State::Takes {
            peer: *peer,
            arms: arms_to(alloc, arms.as_slice(), row)?,
        }),
    }
}

// The arms with these next states.
fn arms_to(alloc: Global, arms: &[Arm], row: &[u32]) -> Result<Arms, NoMemory>
    requires { length row.now ≡ length arms.now }
    ensures { IfOk result (λ a. a ≡ arms_to arms.now row.now) }
{
    let mut answer = Arms::new(alloc);
    for i in 0..arms.len() {
        answer.push(Arm {
            next: row[i],
            ..arms[i]
        })?;
    }
    Ok(answer)
}
