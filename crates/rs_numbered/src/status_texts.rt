//! What statuses say, handed out.

ghost use Rattle.rs_numbered.specs.StatusTexts.{StatusTextTells};

use crate::{CallStatus, hand_out};

/// Hands out what the status with this number says.
pub fn status_text(number: u32, out: &mut [u8], written: &mut usize) -> CallStatus
    ensures { StatusTextTells number out.old out.new written.old written.new result }
{
    match CallStatus::numbered(number) {
        Some(status) => hand_out(status.text().as_bytes(), out, written),
        None => CallStatus::Unknown,
    }
}
