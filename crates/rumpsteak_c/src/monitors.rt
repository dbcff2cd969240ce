//! The calls of monitors.

ghost use Rattle.std.specs.Prelude.{◌≡◌, ⊤};
ghost use Rattle.rs_held.specs.Monitors.{WatchTells, state_or_end};
ghost use Rattle.rs_held.specs.Opens.{Changes, Closes, Reads};
ghost use Rattle.rs_monitor.specs.Monitors.{state_now};
ghost use Rattle.rs_numbered.specs.Monitors.{ActTells, MayTells, message_of, received_act, sent_act};
ghost use Rattle.rs_numbered.specs.Names.{NameTells, NumberTells};
ghost use Rattle.rs_numbered.specs.States.{ArmTells, Shows};
ghost use Rattle.rs_numbered.specs.declared.statuses.CallStatus.TheVariants.{Fine};
ghost use Rattle.rs_safety.specs.Room.{room_of};
ghost use Rattle.rs_numbered.specs.Statuses.{Answers};

use rs_held::{MonitorHandle, TextHandle, monitors};
use std::alloc::Global;

/// Accepts the text by its own derivations where it has one of each role, as `verify` does, and else by a search, as `check` does;
/// and opens the monitor of the role with this name. Where the text is refused `refusal` is what `explain` answers, or where one of
/// its own derivations is at fault what `verify` does.
#[unsafe(no_mangle)]
pub extern "C" fn rumpsteak_monitor_open(
    alloc: Global,
    text: &[u8],
    name: &[u8],
    monitor: &mut MonitorHandle,
    refusal: &mut TextHandle,
) -> u32
    ensures { Answers result (λ status. WatchTells text.now name.now monitor.old.value monitor.new.value refusal.old.value refusal.new.value status) }
{
    monitors::open_text(alloc, text, name, monitor, refusal).number()
}

/// Tells the room of the monitor's session.
#[unsafe(no_mangle)]
pub extern "C" fn rumpsteak_monitor_room(
    alloc: Global,
    monitor: &mut MonitorHandle,
    room: &mut u64,
) -> u32
    ensures { Answers result (λ status. Reads monitor.old.value monitor.new.value (room.new ≡ room.old) (λ held. (status ≡ Fine) × (room.new ≡ room_of held.opened.session.derivations)) status) }
{
    monitors::room(alloc, monitor, room).number()
}

/// Tells the number of the role with this name.
#[unsafe(no_mangle)]
pub extern "C" fn rumpsteak_monitor_role(
    alloc: Global,
    monitor: &mut MonitorHandle,
    name: &[u8],
    role: &mut u32,
) -> u32
    ensures { Answers result (λ status. Reads monitor.old.value monitor.new.value (role.new ≡ role.old) (λ held. NumberTells held.opened.names.roles name.now role.old role.new status) status) }
{
    monitors::role(alloc, monitor, name, role).number()
}

/// Tells the number of the label with this name.
#[unsafe(no_mangle)]
pub extern "C" fn rumpsteak_monitor_label(
    alloc: Global,
    monitor: &mut MonitorHandle,
    name: &[u8],
    label: &mut u32,
) -> u32
    ensures { Answers result (λ status. Reads monitor.old.value monitor.new.value (label.new ≡ label.old) (λ held. NumberTells held.opened.names.labels name.now label.old label.new status) status) }
{
    monitors::label(alloc, monitor, name, label).number()
}

/// Hands out the name of the role with this number.
#[unsafe(no_mangle)]
pub extern "C" fn rumpsteak_monitor_role_name(
    alloc: Global,
    monitor: &mut MonitorHandle,
    role: u32,
    out: &mut [u8],
    written: &mut usize,
) -> u32
    ensures { Answers result (λ status. Reads monitor.old.value monitor.new.value ((out.new ≡ out.old) × (written.new ≡ written.old)) (λ held. NameTells held.opened.names.roles role out.old out.new written.old written.new status) status) }
{
    monitors::role_name(alloc, monitor, role, out, written).number()
}

/// Hands out the name of the label with this number.
#[unsafe(no_mangle)]
pub extern "C" fn rumpsteak_monitor_label_name(
    alloc: Global,
    monitor: &mut MonitorHandle,
    label: u32,
    out: &mut [u8],
    written: &mut usize,
) -> u32
    ensures { Answers result (λ status. Reads monitor.old.value monitor.new.value ((out.new ≡ out.old) × (written.new ≡ written.old)) (λ held. NameTells held.opened.names.labels label out.old out.new written.old written.new status) status) }
{
    monitors::label_name(alloc, monitor, label, out, written).number()
}

/// Tells the direction, the peer and the number of arms of the machine's state.
#[unsafe(no_mangle)]
pub extern "C" fn rumpsteak_monitor_state(
    alloc: Global,
    monitor: &mut MonitorHandle,
    direction: &mut u32,
    peer: &mut u32,
    arms: &mut u32,
) -> u32
    ensures { Answers result (λ status. Reads monitor.old.value monitor.new.value ((direction.new ≡ direction.old) × (peer.new ≡ peer.old) × (arms.new ≡ arms.old))
        (λ held. (status ≡ Fine) × Shows (state_or_end (state_now held.monitor)) direction.new peer.new arms.new) status) }
{
    monitors::state(alloc, monitor, direction, peer, arms).number()
}

/// Tells the label and the kind of the arm at that place of the machine's state.
#[unsafe(no_mangle)]
pub extern "C" fn rumpsteak_monitor_arm(
    alloc: Global,
    monitor: &mut MonitorHandle,
    place: u32,
    label: &mut u32,
    kind: &mut u32,
) -> u32
    ensures { Answers result (λ status. Reads monitor.old.value monitor.new.value ((label.new ≡ label.old) × (kind.new ≡ kind.old))
        (λ held. ArmTells (state_or_end (state_now held.monitor)) place label.old label.new kind.old kind.new status) status) }
{
    monitors::arm(alloc, monitor, place, label, kind).number()
}

/// Tells whether the program may send such a message now.
#[unsafe(no_mangle)]
pub extern "C" fn rumpsteak_monitor_may_send(
    alloc: Global,
    monitor: &mut MonitorHandle,
    peer: u32,
    label: u32,
    kind: u32,
    natural: u64,
) -> u32
    ensures { Answers result (λ status. Reads monitor.old.value monitor.new.value ⊤ (λ held. MayTells sent_act held.monitor kind (message_of peer label kind natural) status) status) }
{
    monitors::may_send(alloc, monitor, peer, label, kind, natural).number()
}

/// Lets the send of such a message through, if it is the machine's.
#[unsafe(no_mangle)]
pub extern "C" fn rumpsteak_monitor_sent(
    alloc: Global,
    monitor: &mut MonitorHandle,
    peer: u32,
    label: u32,
    kind: u32,
    natural: u64,
) -> u32
    ensures { Answers result (λ status. Changes monitor.old.value monitor.new.value ⊤ (λ before after. ActTells sent_act before.monitor kind (message_of peer label kind natural) after.monitor status × (after.opened ≡ before.opened)) status) }
{
    monitors::sent(alloc, monitor, peer, label, kind, natural).number()
}

/// Lets the receive of such a message through, if it is the machine's.
#[unsafe(no_mangle)]
pub extern "C" fn rumpsteak_monitor_received(
    alloc: Global,
    monitor: &mut MonitorHandle,
    peer: u32,
    label: u32,
    kind: u32,
    natural: u64,
) -> u32
    ensures { Answers result (λ status. Changes monitor.old.value monitor.new.value ⊤ (λ before after. ActTells received_act before.monitor kind (message_of peer label kind natural) after.monitor status × (after.opened ≡ before.opened)) status) }
{
    monitors::received(alloc, monitor, peer, label, kind, natural).number()
}

/// Tells how many acts were let through.
#[unsafe(no_mangle)]
pub extern "C" fn rumpsteak_monitor_acts(
    alloc: Global,
    monitor: &mut MonitorHandle,
    acts: &mut u64,
) -> u32
    ensures { Answers result (λ status. Reads monitor.old.value monitor.new.value (acts.new ≡ acts.old) (λ held. (status ≡ Fine) × (acts.new ≡ held.monitor.acts)) status) }
{
    monitors::acts(alloc, monitor, acts).number()
}

/// Frees the monitor.
#[unsafe(no_mangle)]
pub extern "C" fn rumpsteak_monitor_close(alloc: Global, monitor: &mut MonitorHandle) -> u32
    ensures { Answers result (λ status. Closes monitor.old.value monitor.new.value status) }
{
    monitors::close(alloc, monitor).number()
}
