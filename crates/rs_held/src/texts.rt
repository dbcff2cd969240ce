//! The calls of texts.

ghost use Rattle.std.specs.Prelude.{◌≡◌, IfOk};
ghost use Rattle.rs_held.specs.Opens.{Closes, Reads};
ghost use Rattle.rs_numbered.specs.Copies.{CopyTells};

use crate::{KeptText, TextHandle};
use rs_model::NoMemory;
use rs_numbered::{CallStatus, hand_out};
use std::alloc::Global;

/// A copy of the text, to be kept.
pub(crate) fn kept(alloc: Global, text: &[u8]) -> Result<Box<KeptText>, NoMemory>
    ensures { IfOk result (λ b. b.value.bytes.items ≡ text.now) }
{
    let bytes = Vec::from_slice(alloc, text)?;
    Ok(Box::new(alloc, KeptText { bytes })?)
}

/// Hands out the text.
pub fn copy(alloc: Global, text: &mut TextHandle, out: &mut [u8], written: &mut usize) -> CallStatus
    ensures { Reads text.old.value text.new.value ((out.new ≡ out.old) × (written.new ≡ written.old)) (λ held. CopyTells held.bytes.items out.old out.new written.new result) result }
{
    match text.take(alloc) {
        Some(held) => {
            let status = hand_out(held.bytes.as_slice(), out, written);
            text.put(held);
            status
        }
        None => CallStatus::Closed,
    }
}

/// Frees the text.
pub fn close(alloc: Global, text: &mut TextHandle) -> CallStatus
    ensures { Closes text.old.value text.new.value result }
{
    match text.take(alloc) {
        Some(_) => CallStatus::Fine,
        None => CallStatus::Closed,
    }
}
