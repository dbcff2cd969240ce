//! How the heads of a machine's states are written.

ghost use Rattle.std.specs.Prelude.{◌≡◌, ◌++◌, slice_get, OnOk};
ghost use Rattle.rs_walk_texts.specs.Heads as spec;

use crate::acts::{push_choice, push_role};
use crate::positions::{position_of, push_at};
use rs_model::{Act, Arm, Names, NoMemory, State};
use rs_places::Position;
use rs_text::Text;

/// Writes the head of a state: `Q!x(sort)` with one arm, `Q?{x(sort), y()}` with several, and `the end`. Refused memory
/// is the only error.
pub fn push_head(text: &mut Text, names: &Names, state: &State) -> Result<(), NoMemory>
    ensures { OnOk result (text.new ≡ text.old ++ spec.head_text names.now state.now) }
{
    match state {
        State::Done => text.push(b"the end"),
        State::Puts { peer, arms } => {
            push_role(text, names, *peer)?;
            text.push(b"!")?;
            push_choice(text, names, b"", arms.as_slice())
        }
        State::Takes { peer, arms } => {
            push_role(text, names, *peer)?;
            text.push(b"?")?;
            push_choice(text, names, b"", arms.as_slice())
        }
    }
}

/// Writes the head of the state with that number, where there is one.
pub(crate) fn push_head_of(
    text: &mut Text,
    names: &Names,
    states: &[State],
    number: u32,
) -> Result<(), NoMemory>
    ensures { OnOk result (text.new ≡ text.old ++ spec.maybe_head_text names.now (slice_get states.now number)) }
{
    match states.get(number as usize) {
        Some(state) => push_head(text, names, state),
        None => Ok(()),
    }
}

/// Writes `HEAD at L:C`, the head of the state with that number and its position, and nothing for what there isn't.
/// Refused memory is the only error.
pub fn push_placed_head(
    text: &mut Text,
    names: &Names,
    states: &[State],
    positions: &[Position],
    number: u32,
) -> Result<(), NoMemory>
    ensures { OnOk result (text.new ≡ text.old ++ spec.placed_head_text names.now states.now positions.now number) }
{
    push_head_of(text, names, states, number)?;
    push_at(text, position_of(positions, number))
}

/// The act of a state by one of its arms; none at the end.
pub fn act_by(state: &State, arm: Arm) -> Option<Act>
    ensures { result ≡ spec.act_by state.now arm }
{
    match state {
        State::Done => None,
        State::Puts { peer, .. } => Some(Act::Puts {
            peer: *peer,
            label: arm.label,
            sort: arm.sort,
        }),
        State::Takes { peer, .. } => Some(Act::Takes {
            peer: *peer,
            label: arm.label,
            sort: arm.sort,
        }),
    }
}
