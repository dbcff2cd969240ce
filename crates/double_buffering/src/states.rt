//! The states of the three machines.

ghost use Rattle.std.specs.Prelude.{◌≡◌, [], ◌∷◌, IfOk};

use rs_model::{Arm, Arms, NoMemory, Role, State};
use std::alloc::Global;

/// A state that sends by one arm.
pub fn sends_one(alloc: Global, peer: Role, arm: Arm) -> State
    ensures { result ≡ State.Puts peer (arm ∷ []) }
{
    State::Puts {
        peer,
        arms: Arms::of_one(alloc, arm),
    }
}

/// A state that receives by one arm.
pub fn receives_one(alloc: Global, peer: Role, arm: Arm) -> State
    ensures { result ≡ State.Takes peer (arm ∷ []) }
{
    State::Takes {
        peer,
        arms: Arms::of_one(alloc, arm),
    }
}

/// A state that sends by one of two arms.
pub fn sends_two(alloc: Global, peer: Role, first: Arm, second: Arm) -> Result<State, NoMemory>
    ensures { IfOk result (λ state. state ≡ State.Puts peer (first ∷ second ∷ [])) }
{
    let mut arms = Arms::of_one(alloc, first);
    arms.push(second)?;
    Ok(State::Puts { peer, arms })
}

/// A state that receives by one of two arms.
pub fn receives_two(alloc: Global, peer: Role, first: Arm, second: Arm) -> Result<State, NoMemory>
    ensures { IfOk result (λ state. state ≡ State.Takes peer (first ∷ second ∷ [])) }
{
    let mut arms = Arms::of_one(alloc, first);
    arms.push(second)?;
    Ok(State::Takes { peer, arms })
}
