//! The machines of the sessions.

ghost use Rattle.std.specs.Prelude.{◌≡◌, ◌∷◌, [], IfOk};
ghost use Rattle.benches.specs.Sessions.{puts, takes, machines_of_relay, machines_of_rounds, machines_of_stream, machines_of_swap};

use rs_model::{Arm, Arms, Label, Machine, NoMemory, Role, Sort, State};
use std::alloc::Global;

const A: Role = Role(0);

const B: Role = Role(1);

const C: Role = Role(2);

fn arms_of(alloc: Global, label: u16, sort: Sort, next: u32) -> Result<Arms, NoMemory>
    ensures { IfOk result (λ arms. arms ≡ record { label = record { 0 = label }; sort = sort; next = next } ∷ []) }
{
    let mut arms = Arms::new(alloc);
    arms.push(Arm {
        label: Label(label),
        sort,
        next,
    })?;
    Ok(arms)
}

/// A state that puts one label to the peer.
fn putting(alloc: Global, peer: Role, label: u16, sort: Sort, next: u32) -> Result<State, NoMemory>
    ensures { IfOk result (λ s. s ≡ puts peer label sort next) }
{
    Ok(State::Puts {
        peer,
        arms: arms_of(alloc, label, sort, next)?,
    })
}

/// A state that takes one label from the peer.
fn taking(alloc: Global, peer: Role, label: u16, sort: Sort, next: u32) -> Result<State, NoMemory>
    ensures { IfOk result (λ s. s ≡ takes peer label sort next) }
{
    Ok(State::Takes {
        peer,
        arms: arms_of(alloc, label, sort, next)?,
    })
}

/// A machine that starts in its first state.
fn machine(role: Role, states: Vec<State>) -> Machine
    ensures { result ≡ record { role = role; states = states.items; start = 0 } }
{
    Machine {
        role,
        states,
        start: 0,
    }
}

/// A sends B numbers for ever.
pub fn stream(alloc: Global) -> Result<Vec<Machine>, NoMemory>
    ensures { IfOk result (λ m. m.items ≡ machines_of_stream) }
{
    let a = machine(A, vec![in alloc; putting(alloc, B, 0, Sort::Natural, 0)?]?);
    let b = machine(B, vec![in alloc; taking(alloc, A, 0, Sort::Natural, 0)?]?);
    Ok(vec![in alloc; a, b]?)
}

/// B sends C a number, C sends B one back, and B reports it to A, for ever.
pub fn relay(alloc: Global) -> Result<Vec<Machine>, NoMemory>
    ensures { IfOk result (λ m. m.items ≡ machines_of_relay) }
{
    let a = machine(A, vec![in alloc; taking(alloc, B, 2, Sort::Natural, 0)?]?);
    let ask = putting(alloc, C, 0, Sort::Natural, 1)?;
    let hear = taking(alloc, C, 1, Sort::Natural, 2)?;
    let tell = putting(alloc, A, 2, Sort::Natural, 0)?;
    let b = machine(B, vec![in alloc; ask, hear, tell]?);
    let asked = taking(alloc, B, 0, Sort::Natural, 1)?;
    let answer = putting(alloc, B, 1, Sort::Natural, 0)?;
    let c = machine(C, vec![in alloc; asked, answer]?);
    Ok(vec![in alloc; a, b, c]?)
}

/// A and B send each other a number in each round, both before they take the other's.
pub fn rounds(alloc: Global) -> Result<Vec<Machine>, NoMemory>
    ensures { IfOk result (λ m. m.items ≡ machines_of_rounds) }
{
    let x = putting(alloc, B, 0, Sort::Natural, 1)?;
    let y = taking(alloc, B, 1, Sort::Natural, 0)?;
    let a = machine(A, vec![in alloc; x, y]?);
    let y = putting(alloc, A, 1, Sort::Natural, 1)?;
    let x = taking(alloc, A, 0, Sort::Natural, 0)?;
    let b = machine(B, vec![in alloc; y, x]?);
    Ok(vec![in alloc; a, b]?)
}

/// A and B send each other one label, both before they take the other's, and end.
pub fn swap(alloc: Global) -> Result<Vec<Machine>, NoMemory>
    ensures { IfOk result (λ m. m.items ≡ machines_of_swap) }
{
    let x = putting(alloc, B, 0, Sort::Unit, 1)?;
    let y = taking(alloc, B, 1, Sort::Unit, 2)?;
    let a = machine(A, vec![in alloc; x, y, State::Done]?);
    let y = putting(alloc, A, 1, Sort::Unit, 1)?;
    let x = taking(alloc, A, 0, Sort::Unit, 2)?;
    let b = machine(B, vec![in alloc; y, x, State::Done]?);
    Ok(vec![in alloc; a, b]?)
}
