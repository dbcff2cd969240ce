//! How positions are written.

ghost use Rattle.std.specs.Prelude.{◌≡◌, ◌++◌, slice_get, OnOk};
ghost use Rattle.rs_walk_texts.specs.Heads as spec;

use rs_model::NoMemory;
use rs_places::Position;
use rs_text::Text;

/// Writes `L:C`. Refused memory is the only error.
pub fn push_position(text: &mut Text, position: Position) -> Result<(), NoMemory>
    ensures { OnOk result (text.new ≡ text.old ++ spec.position_text position) }
{
    text.push_number(position.line as u64)?;
    text.push(b":")?;
    text.push_number(position.column as u64)
}

/// Writes ` at L:C`, and nothing where there is no position. Refused memory is the only error.
pub fn push_at(text: &mut Text, position: Option<Position>) -> Result<(), NoMemory>
    ensures { OnOk result (text.new ≡ text.old ++ spec.at_text position) }
{
    let Some(position) = position else {
        return Ok(());
    };
    text.push(b" at ")?;
    push_position(text, position)
}

/// The position at the place.
pub(crate) fn position_at(positions: &[Position], place: usize) -> Option<Position>
    ensures { result ≡ slice_get positions.now place }
{
    positions.get(place).copied()
}

/// The position with that number.
pub(crate) fn position_of(positions: &[Position], number: u32) -> Option<Position>
    ensures { result ≡ slice_get positions.now number }
{
    positions.get(number as usize).copied()
}
