//! What statuses say.

ghost use Rattle.rs_numbered.specs.StatusTexts.{StatusTextTells};
ghost use Rattle.rs_numbered.specs.Statuses.{Answers};

/// Hands out what the status with this number says.
#[unsafe(no_mangle)]
pub extern "C" fn rumpsteak_status_text(status: u32, out: &mut [u8], written: &mut usize) -> u32
    ensures { Answers result (StatusTextTells status out.old out.new written.old written.new) }
{
    rs_numbered::status_text(status, out, written).number()
}
