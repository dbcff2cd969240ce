//! Acts of programs, by numbers, through a monitor.

ghost use Rattle.std.specs.Prelude.{◌≡◌, IfErr, IfOk};
ghost use Rattle.rs_numbered.specs.Monitors.{ActTells, MayTells, received_act, sent_act};
ghost use Rattle.rs_numbered.specs.Monitors as spec;

use crate::{CallStatus, stand_in};
use rs_model::{Label, NoMemory, Role, Value};
use rs_monitor::Monitor;
use std::alloc::Global;

/// The peer, the label and a value of the kind, where the numbers are those of such.
fn message_of(
    alloc: Global,
    peer: u32,
    label: u32,
    kind: u32,
    natural: u64,
) -> Result<Option<(Role, Label, Value)>, NoMemory>
    ensures message { IfOk result (λ m. m ≡ spec.message_of peer label kind natural) }
    ensures lists { IfErr result (λ e. kind ≡ 5) }
{
    if peer > 255 || label > 65_535 {
        return Ok(None);
    }
    match stand_in(alloc, kind, natural)? {
        Some(value) => Ok(Some((Role(peer as u8), Label(label as u16), value))),
        None => Ok(None),
    }
}

/// Tells whether the program may send a message with the label and a value of the kind; `natural` is the value where it is a `nat`.
pub fn may_send(
    alloc: Global,
    monitor: &Monitor,
    peer: u32,
    label: u32,
    kind: u32,
    natural: u64,
) -> CallStatus
    ensures { MayTells sent_act monitor.now kind (spec.message_of peer label kind natural) result }
{
    match message_of(alloc, peer, label, kind, natural) {
        Ok(Some((peer, label, value))) => match monitor.may_send(peer, label, &value) {
            Ok(()) => CallStatus::Fine,
            Err(refusal) => CallStatus::of_refusal(refusal),
        },
        Ok(None) => CallStatus::Unknown,
        Err(_) => CallStatus::NoMemory,
    }
}

/// Lets the send through, if it is the machine's.
pub fn sent(
    alloc: Global,
    monitor: &mut Monitor,
    peer: u32,
    label: u32,
    kind: u32,
    natural: u64,
) -> CallStatus
    ensures { ActTells sent_act monitor.old kind (spec.message_of peer label kind natural) monitor.new result }
{
    match message_of(alloc, peer, label, kind, natural) {
        Ok(Some((peer, label, value))) => match monitor.sent(peer, label, &value) {
            Ok(()) => CallStatus::Fine,
            Err(refusal) => CallStatus::of_refusal(refusal),
        },
        Ok(None) => CallStatus::Unknown,
        Err(_) => CallStatus::NoMemory,
    }
}

/// Lets the receive through, if it is the machine's.
pub fn received(
    alloc: Global,
    monitor: &mut Monitor,
    peer: u32,
    label: u32,
    kind: u32,
    natural: u64,
) -> CallStatus
    ensures { ActTells received_act monitor.old kind (spec.message_of peer label kind natural) monitor.new result }
{
    match message_of(alloc, peer, label, kind, natural) {
        Ok(Some((peer, label, value))) => match monitor.received(peer, label, &value) {
            Ok(()) => CallStatus::Fine,
            Err(refusal) => CallStatus::of_refusal(refusal),
        },
        Ok(None) => CallStatus::Unknown,
        Err(_) => CallStatus::NoMemory,
    }
}
