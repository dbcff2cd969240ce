//! Bytes and numbers that are handed out.

ghost use Rattle.rs_numbered.specs.Copies.{CopyTells};

use crate::CallStatus;

/// Copies the items to the first places of `out` where they have room, and tells how many there are.
pub fn hand_out<T: Copy>(items: &[T], out: &mut [T], written: &mut usize) -> CallStatus
    ensures { CopyTells items.now out.old out.new written.new result }
{
    *written = items.len();
    if items.len() > out.len() {
        return CallStatus::TooSmall;
    }
    let (room, _) = out.split_at_mut(items.len());
    room.copy_from_slice(items);
    CallStatus::Fine
}
