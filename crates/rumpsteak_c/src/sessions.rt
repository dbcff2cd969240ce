//! The calls of sessions.

ghost use Rattle.std.specs.Prelude.{◌≡◌};
ghost use Rattle.rs_held.specs.Opens.{Changes, Closes, Reads};
ghost use Rattle.rs_held.specs.Sessions.{HandOverTells, OpenTells};
ghost use Rattle.rs_numbered.specs.Names.{NameTells, NumberTells};
ghost use Rattle.rs_numbered.specs.declared.statuses.CallStatus.TheVariants.{Fine};
ghost use Rattle.rs_safety.specs.Room.{room_of};
ghost use Rattle.rs_numbered.specs.Statuses.{Answers};

use rs_held::{EndpointHandle, SessionHandle, TextHandle, sessions};
use std::alloc::Global;

/// Accepts the text by its own derivations where it has one of each role, as `verify` does, and else by a search, as `check` does;
/// and begins its session over rings of so many messages, 1 to 1,024, or else of as many as its room, 1,024 at most. Where the text
/// is refused `refusal` is what `explain` answers, or where one of its own derivations is at fault what `verify` does.
#[unsafe(no_mangle)]
pub extern "C" fn rumpsteak_open(
    alloc: Global,
    text: &[u8],
    capacity: u16,
    session: &mut SessionHandle,
    refusal: &mut TextHandle,
) -> u32
    ensures { Answers result (λ status. OpenTells text.now capacity session.old.value session.new.value refusal.old.value refusal.new.value status) }
{
    sessions::open_text(alloc, text, capacity, session, refusal).number()
}

/// Tells the session's room.
#[unsafe(no_mangle)]
pub extern "C" fn rumpsteak_room(alloc: Global, session: &mut SessionHandle, room: &mut u64) -> u32
    ensures { Answers result (λ status. Reads session.old.value session.new.value (room.new ≡ room.old) (λ begun. (status ≡ Fine) × (room.new ≡ room_of begun.opened.session.derivations)) status) }
{
    sessions::room(alloc, session, room).number()
}

/// Tells the number of the role with this name.
#[unsafe(no_mangle)]
pub extern "C" fn rumpsteak_role(
    alloc: Global,
    session: &mut SessionHandle,
    name: &[u8],
    role: &mut u32,
) -> u32
    ensures { Answers result (λ status. Reads session.old.value session.new.value (role.new ≡ role.old) (λ begun. NumberTells begun.opened.names.roles name.now role.old role.new status) status) }
{
    sessions::role(alloc, session, name, role).number()
}

/// Tells the number of the label with this name.
#[unsafe(no_mangle)]
pub extern "C" fn rumpsteak_label(
    alloc: Global,
    session: &mut SessionHandle,
    name: &[u8],
    label: &mut u32,
) -> u32
    ensures { Answers result (λ status. Reads session.old.value session.new.value (label.new ≡ label.old) (λ begun. NumberTells begun.opened.names.labels name.now label.old label.new status) status) }
{
    sessions::label(alloc, session, name, label).number()
}

/// Hands out the name of the role with this number.
#[unsafe(no_mangle)]
pub extern "C" fn rumpsteak_role_name(
    alloc: Global,
    session: &mut SessionHandle,
    role: u32,
    out: &mut [u8],
    written: &mut usize,
) -> u32
    ensures { Answers result (λ status. Reads session.old.value session.new.value ((out.new ≡ out.old) × (written.new ≡ written.old)) (λ begun. NameTells begun.opened.names.roles role out.old out.new written.old written.new status) status) }
{
    sessions::role_name(alloc, session, role, out, written).number()
}

/// Hands out the name of the label with this number.
#[unsafe(no_mangle)]
pub extern "C" fn rumpsteak_label_name(
    alloc: Global,
    session: &mut SessionHandle,
    label: u32,
    out: &mut [u8],
    written: &mut usize,
) -> u32
    ensures { Answers result (λ status. Reads session.old.value session.new.value ((out.new ≡ out.old) × (written.new ≡ written.old)) (λ begun. NameTells begun.opened.names.labels label out.old out.new written.old written.new status) status) }
{
    sessions::label_name(alloc, session, label, out, written).number()
}

/// Hands out the endpoint of the role, once.
#[unsafe(no_mangle)]
pub extern "C" fn rumpsteak_endpoint_of(
    alloc: Global,
    session: &mut SessionHandle,
    role: u32,
    endpoint: &mut EndpointHandle,
) -> u32
    ensures { Answers result (λ status. Changes session.old.value session.new.value (endpoint.new.value ≡ endpoint.old.value) (λ before after. HandOverTells role before after endpoint.old.value endpoint.new.value status) status) }
{
    sessions::endpoint_of(alloc, session, role, endpoint).number()
}

/// Frees the session, with the endpoints that weren't handed out.
#[unsafe(no_mangle)]
pub extern "C" fn rumpsteak_close(alloc: Global, session: &mut SessionHandle) -> u32
    ensures { Answers result (λ status. Closes session.old.value session.new.value status) }
{
    sessions::close(alloc, session).number()
}
