//! The calls of monitors.

ghost use Rattle.std.specs.Prelude.{◌≡◌, ◌<◌, IfOk, IfSome, IfNone, None, Some, length, slice_get, ⊤};
ghost use Rattle.rs_held.specs.Monitors.{WatchTells, state_or_end};
ghost use Rattle.rs_held.specs.Opens.{Changes, Closes, Reads};
ghost use Rattle.rs_model.specs.declared.machines.State.{State as AnyState};
ghost use Rattle.rs_monitor.specs.Monitors.{new_monitor, state_now};
ghost use Rattle.rs_numbered.specs.Monitors.{ActTells, MayTells, message_of, received_act, sent_act};
ghost use Rattle.rs_numbered.specs.Names.{NameTells, NumberTells};
ghost use Rattle.rs_numbered.specs.States.{ArmTells, Shows};
ghost use Rattle.rs_numbered.specs.declared.statuses.CallStatus.TheVariants.{Fine};
ghost use Rattle.rs_safety.specs.Room.{room_of};
ghost use Rattle.rs_text.specs.Names.{place_of};

use crate::openings::opened;
use crate::sessions::status_of;
use crate::texts::kept;
use crate::{HeldMonitor, MonitorHandle, TextHandle};
use rs_model::{NoMemory, Role, State};
use rs_monitor::Monitor;
use rs_numbered::{CallStatus, arm_at, name_at, number_of, standing};
use rs_open::{OpenRefused, OpenSession};
use rs_text::find_role;
use rs_watch::monitor_of;
use std::alloc::Global;

/// The role with this name, which has a machine.
#[tactic(auto, using(crate::proofs::Roles::has_machine))]
fn role_named(opened: &OpenSession, name: &[u8]) -> Option<Role>
    ensures some { IfSome result (λ role. place_of name.now opened.now.names.roles ≡ Some role.0) }
    ensures machine { IfSome result (λ role. role.0 < length opened.now.session.machines) }
    ensures none { IfNone result (place_of name.now opened.now.names.roles ≡ None) }
{
    find_role(opened.roles(), name)
}

/// The monitor of the role, with the session.
fn watched(alloc: Global, opened: OpenSession, role: Role) -> Result<Box<HeldMonitor>, NoMemory>
    requires { role.0 < length opened.session.machines }
    ensures same { IfOk result (λ b. b.value.opened ≡ opened) }
    ensures machine { IfOk result (λ b. slice_get opened.session.machines role.0 ≡ Some b.value.monitor.machine) }
    ensures new { IfOk result (λ b. b.value.monitor ≡ new_monitor b.value.monitor.machine) }
{
    let monitor = monitor_of(alloc, opened.accepted(), role)?;
    Ok(Box::new(alloc, HeldMonitor { opened, monitor })?)
}

/// Accepts the text by its own derivations where it has one of each role, as `verify` does, and else by a search, as `check` does;
/// and opens the monitor of the role with this name. Where the text is refused `refusal` is what `explain` answers, or where one of
/// its own derivations is at fault what `verify` does.
pub fn open_text(
    alloc: Global,
    text: &[u8],
    name: &[u8],
    monitor: &mut MonitorHandle,
    refusal: &mut TextHandle,
) -> CallStatus
    ensures { WatchTells text.now name.now monitor.old.value monitor.new.value refusal.old.value refusal.new.value result }
{
    match opened(alloc, text) {
        Ok(opened) => match role_named(&opened, name) {
            Some(role) => match watched(alloc, opened, role) {
                Ok(held) => {
                    monitor.put(held);
                    CallStatus::Fine
                }
                Err(_) => CallStatus::NoMemory,
            },
            None => CallStatus::Unknown,
        },
        Err(OpenRefused::Answered { text, verdict }) => match kept(alloc, text.as_slice()) {
            Ok(kept) => {
                refusal.put(kept);
                status_of(verdict)
            }
            Err(_) => CallStatus::NoMemory,
        },
        Err(OpenRefused::NoMemory) => CallStatus::NoMemory,
    }
}

/// Tells the room of the monitor's session.
pub fn room(alloc: Global, monitor: &mut MonitorHandle, room: &mut u64) -> CallStatus
    ensures { Reads monitor.old.value monitor.new.value (room.new ≡ room.old) (λ held. (result ≡ Fine) × (room.new ≡ room_of held.opened.session.derivations)) result }
{
    match monitor.take(alloc) {
        Some(held) => {
            *room = held.opened.room();
            monitor.put(held);
            CallStatus::Fine
        }
        None => CallStatus::Closed,
    }
}

/// Tells the number of the role with this name.
pub fn role(alloc: Global, monitor: &mut MonitorHandle, name: &[u8], role: &mut u32) -> CallStatus
    ensures { Reads monitor.old.value monitor.new.value (role.new ≡ role.old) (λ held. NumberTells held.opened.names.roles name.now role.old role.new result) result }
{
    match monitor.take(alloc) {
        Some(held) => {
            let status = number_of(held.opened.roles(), name, role);
            monitor.put(held);
            status
        }
        None => CallStatus::Closed,
    }
}

/// Tells the number of the label with this name.
pub fn label(alloc: Global, monitor: &mut MonitorHandle, name: &[u8], label: &mut u32) -> CallStatus
    ensures { Reads monitor.old.value monitor.new.value (label.new ≡ label.old) (λ held. NumberTells held.opened.names.labels name.now label.old label.new result) result }
{
    match monitor.take(alloc) {
        Some(held) => {
            let status = number_of(held.opened.names().labels.as_slice(), name, label);
            monitor.put(held);
            status
        }
        None => CallStatus::Closed,
    }
}

/// Hands out the name of the role with this number.
pub fn role_name(
    alloc: Global,
    monitor: &mut MonitorHandle,
    role: u32,
    out: &mut [u8],
    written: &mut usize,
) -> CallStatus
    ensures { Reads monitor.old.value monitor.new.value ((out.new ≡ out.old) × (written.new ≡ written.old)) (λ held. NameTells held.opened.names.roles role out.old out.new written.old written.new result) result }
{
    match monitor.take(alloc) {
        Some(held) => {
            let status = name_at(held.opened.roles(), role, out, written);
            monitor.put(held);
            status
        }
        None => CallStatus::Closed,
    }
}

/// Hands out the name of the label with this number.
pub fn label_name(
    alloc: Global,
    monitor: &mut MonitorHandle,
    label: u32,
    out: &mut [u8],
    written: &mut usize,
) -> CallStatus
    ensures { Reads monitor.old.value monitor.new.value ((out.new ≡ out.old) × (written.new ≡ written.old)) (λ held. NameTells held.opened.names.labels label out.old out.new written.old written.new result) result }
{
    match monitor.take(alloc) {
        Some(held) => {
            let status = name_at(held.opened.names().labels.as_slice(), label, out, written);
            monitor.put(held);
            status
        }
        None => CallStatus::Closed,
    }
}

/// Tells the direction, the peer and the number of arms of the machine's state. A machine without its state, which never happens, has
/// ended.
fn standing_of(monitor: &Monitor, direction: &mut u32, peer: &mut u32, arms: &mut u32)
    ensures { Shows (state_or_end (state_now monitor.now)) direction.new peer.new arms.new }
{
    match monitor.state() {
        Some(state) => standing(state, direction, peer, arms),
        None => standing(&State::Done, direction, peer, arms),
    }
}

/// Tells the label and the kind of the arm at that place of the machine's state.
fn arm_of(monitor: &Monitor, place: u32, label: &mut u32, kind: &mut u32) -> CallStatus
    ensures { ArmTells (state_or_end (state_now monitor.now)) place label.old label.new kind.old kind.new result }
{
    match monitor.state() {
        Some(state) => arm_at(state, place, label, kind),
        None => arm_at(&State::Done, place, label, kind),
    }
}

/// Tells the direction, the peer and the number of arms of the machine's state.
pub fn state(
    alloc: Global,
    monitor: &mut MonitorHandle,
    direction: &mut u32,
    peer: &mut u32,
    arms: &mut u32,
) -> CallStatus
    ensures { Reads monitor.old.value monitor.new.value ((direction.new ≡ direction.old) × (peer.new ≡ peer.old) × (arms.new ≡ arms.old))
        (λ held. (result ≡ Fine) × Shows (state_or_end (state_now held.monitor)) direction.new peer.new arms.new) result }
{
    match monitor.take(alloc) {
        Some(held) => {
            standing_of(&held.monitor, direction, peer, arms);
            monitor.put(held);
            CallStatus::Fine
        }
        None => CallStatus::Closed,
    }
}

/// Tells the label and the kind of the arm at that place of the machine's state.
pub fn arm(
    alloc: Global,
    monitor: &mut MonitorHandle,
    place: u32,
    label: &mut u32,
    kind: &mut u32,
) -> CallStatus
    ensures { Reads monitor.old.value monitor.new.value ((label.new ≡ label.old) × (kind.new ≡ kind.old))
        (λ held. ArmTells (state_or_end (state_now held.monitor)) place label.old label.new kind.old kind.new result) result }
{
    match monitor.take(alloc) {
        Some(held) => {
            let status = arm_of(&held.monitor, place, label, kind);
            monitor.put(held);
            status
        }
        None => CallStatus::Closed,
    }
}

/// Tells whether the program may send such a message now.
pub fn may_send(
    alloc: Global,
    monitor: &mut MonitorHandle,
    peer: u32,
    label: u32,
    kind: u32,
    natural: u64,
) -> CallStatus
    ensures { Reads monitor.old.value monitor.new.value ⊤ (λ held. MayTells sent_act held.monitor kind (message_of peer label kind natural) result) result }
{
    match monitor.take(alloc) {
        Some(held) => {
            let status = rs_numbered::may_send(alloc, &held.monitor, peer, label, kind, natural);
            monitor.put(held);
            status
        }
        None => CallStatus::Closed,
    }
}

/// Lets the send of such a message through, if it is the machine's.
pub fn sent(
    alloc: Global,
    monitor: &mut MonitorHandle,
    peer: u32,
    label: u32,
    kind: u32,
    natural: u64,
) -> CallStatus
    ensures { Changes monitor.old.value monitor.new.value ⊤ (λ before after. ActTells sent_act before.monitor kind (message_of peer label kind natural) after.monitor result × (after.opened ≡ before.opened)) result }
{
    match monitor.take(alloc) {
        Some(mut held) => {
            let status = rs_numbered::sent(alloc, &mut held.monitor, peer, label, kind, natural);
            monitor.put(held);
            status
        }
        None => CallStatus::Closed,
    }
}

/// Lets the receive of such a message through, if it is the machine's.
pub fn received(
    alloc: Global,
    monitor: &mut MonitorHandle,
    peer: u32,
    label: u32,
    kind: u32,
    natural: u64,
) -> CallStatus
    ensures { Changes monitor.old.value monitor.new.value ⊤ (λ before after. ActTells received_act before.monitor kind (message_of peer label kind natural) after.monitor result × (after.opened ≡ before.opened)) result }
{
    match monitor.take(alloc) {
        Some(mut held) => {
            let status = rs_numbered::received(
                alloc,
                &mut held.monitor,
                peer,
                label,
                kind,
                natural,
            );
            monitor.put(held);
            status
        }
        None => CallStatus::Closed,
    }
}

/// Tells how many acts were let through.
pub fn acts(alloc: Global, monitor: &mut MonitorHandle, acts: &mut u64) -> CallStatus
    ensures { Reads monitor.old.value monitor.new.value (acts.new ≡ acts.old) (λ held. (result ≡ Fine) × (acts.new ≡ held.monitor.acts)) result }
{
    match monitor.take(alloc) {
        Some(held) => {
            *acts = held.monitor.acts();
            monitor.put(held);
            CallStatus::Fine
        }
        None => CallStatus::Closed,
    }
}

/// Frees the monitor.
pub fn close(alloc: Global, monitor: &mut MonitorHandle) -> CallStatus
    ensures { Closes monitor.old.value monitor.new.value result }
{
    match monitor.take(alloc) {
        Some(_) => CallStatus::Fine,
        None => CallStatus::Closed,
    }
}
