//! Roles and labels, by numbers and by names.

ghost use Rattle.std.specs.Prelude.{◌≤◌, length};
ghost use Rattle.rs_model.specs.declared.limits.TheConstants.{MOST_LABELS};
ghost use Rattle.rs_numbered.specs.Names.{NameTells, NumberTells};

use crate::{CallStatus, hand_out};
use rs_model::Name;
use rs_text::find;

/// Tells the number of the role, or label, with this name, of those that have the names.
#[tactic(auto, using(crate::proofs::Places::place_below))]
pub fn number_of(names: &[Name], word: &[u8], number: &mut u32) -> CallStatus
    requires { length names.now ≤ MOST_LABELS }
    ensures { NumberTells names.now word.now number.old number.new result }
{
    match find(names, word) {
        Some(place) => {
            *number = place as u32;
            CallStatus::Fine
        }
        None => CallStatus::Unknown,
    }
}

/// Hands out the name of the role, or label, with this number.
pub fn name_at(names: &[Name], number: u32, out: &mut [u8], written: &mut usize) -> CallStatus
    ensures { NameTells names.now number out.old out.new written.old written.new result }
{
    match names.get(number as usize) {
        Some(name) => hand_out(name.as_slice(), out, written),
        None => CallStatus::Unknown,
    }
}
