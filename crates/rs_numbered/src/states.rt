//! What a state shows.

ghost use Rattle.std.specs.Prelude.{◌≡◌};
ghost use Rattle.rs_numbered.specs.States.{ArmTells, Shows};
ghost use Rattle.rs_numbered.specs.States as spec;

use crate::{CallStatus, kind_of};
use rs_model::{Arm, State};

/// The arms of a state; none where it has ended.
fn arms_of(state: &State) -> &[Arm]
    ensures { result.now ≡ spec.arms_of state.now }
{
    match state {
        State::Puts { arms, .. } => arms.as_slice(),
        State::Takes { arms, .. } => arms.as_slice(),
        State::Done => &[],
    }
}

/// Tells the direction of the state (1 sends, 2 receives, 3 has ended), the peer and the number of arms.
pub fn standing(state: &State, direction: &mut u32, peer: &mut u32, arms: &mut u32)
    ensures { Shows state.now direction.new peer.new arms.new }
{
    *arms = u32::try_from(arms_of(state).len()).unwrap_or(u32::MAX);
    match state {
        State::Puts { peer: other, .. } => {
            *direction = 1;
            *peer = u32::from(other.0);
        }
        State::Takes { peer: other, .. } => {
            *direction = 2;
            *peer = u32::from(other.0);
        }
        State::Done => {
            *direction = 3;
            *peer = 0;
        }
    }
}

/// Tells the label and the kind of the values of the arm at that place.
pub fn arm_at(state: &State, place: u32, label: &mut u32, kind: &mut u32) -> CallStatus
    ensures { ArmTells state.now place label.old label.new kind.old kind.new result }
{
    match arms_of(state).get(place as usize) {
        Some(arm) => {
            *label = u32::from(arm.label.0);
            *kind = kind_of(arm.sort);
            CallStatus::Fine
        }
        None => CallStatus::Unknown,
    }
}
