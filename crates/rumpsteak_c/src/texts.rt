//! The calls of texts.

ghost use Rattle.std.specs.Prelude.{◌≡◌};
ghost use Rattle.rs_held.specs.Opens.{Closes, Reads};
ghost use Rattle.rs_numbered.specs.Copies.{CopyTells};
ghost use Rattle.rs_numbered.specs.Statuses.{Answers};

use rs_held::{TextHandle, texts};
use std::alloc::Global;

/// Hands out the text.
#[unsafe(no_mangle)]
pub extern "C" fn rumpsteak_text(
    alloc: Global,
    text: &mut TextHandle,
    out: &mut [u8],
    written: &mut usize,
) -> u32
    ensures { Answers result (λ status. Reads text.old.value text.new.value ((out.new ≡ out.old) × (written.new ≡ written.old)) (λ held. CopyTells held.bytes.items out.old out.new written.new status) status) }
{
    texts::copy(alloc, text, out, written).number()
}

/// Frees the text.
#[unsafe(no_mangle)]
pub extern "C" fn rumpsteak_text_close(alloc: Global, text: &mut TextHandle) -> u32
    ensures { Answers result (λ status. Closes text.old.value text.new.value status) }
{
    texts::close(alloc, text).number()
}
