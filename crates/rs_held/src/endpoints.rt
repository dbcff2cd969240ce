//! The calls of endpoints.

ghost use Rattle.std.specs.Prelude.{◌≡◌, ⊤, IfErr, IfNone, IfOk, IfSome};
ghost use Rattle.rs_endpoints.specs.Endpoints.{HasArmFor, LookTells, StandsAt};
ghost use Rattle.rs_endpoints.specs.declared.acts.Room.TheVariants as room;
ghost use Rattle.rs_held.specs.Endpoints.{CopySendTells, HasNoArm, NumbersTell, OctetsTell, ReceiveTells, SendTells, numbered};
ghost use Rattle.rs_held.specs.Opens.{Changes, Closes, Reads};
ghost use Rattle.rs_held.specs.Sends.{NoRoomTells, SendByTells};
ghost use Rattle.rs_model.specs.declared.machines.State.{State as AnyState};
ghost use Rattle.rs_model.specs.declared.values.Value.TheVariants as kind;
ghost use Rattle.rs_numbered.specs.States.{ArmTells, Shows};
ghost use Rattle.rs_numbered.specs.declared.statuses.CallStatus.TheVariants.{Fine};

use crate::{EndpointHandle, HeldEndpoint};
use rs_endpoints::{Endpoint, Fetched, Posted, Room};
use rs_model::{Label, Numbers, Octets, Sort, Value};
use rs_numbered::{CallStatus, MessageView, arm_at, hand_out, standing, view_of};
use std::alloc::Global;

/// Tells the direction, the peer and the number of arms of the role's state.
pub fn state(
    alloc: Global,
    endpoint: &mut EndpointHandle,
    direction: &mut u32,
    peer: &mut u32,
    arms: &mut u32,
) -> CallStatus
    ensures { Reads endpoint.old.value endpoint.new.value ((direction.new ≡ direction.old) × (peer.new ≡ peer.old) × (arms.new ≡ arms.old))
        (λ held. (result ≡ Fine) × ((state : AnyState) × StandsAt held.endpoint state × Shows state direction.new peer.new arms.new)) result }
{
    match endpoint.take(alloc) {
        Some(held) => {
            standing(held.endpoint.state(), direction, peer, arms);
            endpoint.put(held);
            CallStatus::Fine
        }
        None => CallStatus::Closed,
    }
}

/// Tells the label and the kind of the arm at that place of the role's state.
pub fn arm(
    alloc: Global,
    endpoint: &mut EndpointHandle,
    place: u32,
    label: &mut u32,
    kind: &mut u32,
) -> CallStatus
    ensures { Reads endpoint.old.value endpoint.new.value ((label.new ≡ label.old) × (kind.new ≡ kind.old))
        (λ held. (state : AnyState) × StandsAt held.endpoint state × ArmTells state place label.old label.new kind.old kind.new result) result }
{
    match endpoint.take(alloc) {
        Some(held) => {
            let status = arm_at(held.endpoint.state(), place, label, kind);
            endpoint.put(held);
            status
        }
        None => CallStatus::Closed,
    }
}

/// The place of an arm with the label, if the role's state sends by one.
#[inline(always)]
fn place_of(endpoint: &Endpoint, label: u32) -> Option<u16>
    ensures some { IfSome result (λ place. HasArmFor endpoint.now place (numbered label)) }
    ensures none { IfNone result (HasNoArm endpoint.now label) }
{
    if label > 65_535 {
        return None;
    }
    endpoint.place(Label(label as u16))
}

/// Sends the value by the arm at that place. It is compiled once, with the endpoint's own send inside; its callers are compiled into
/// the exports.
#[inline(never)]
fn post_at(endpoint: &mut Endpoint, place: u16, value: Value) -> CallStatus
    ensures { SendByTells endpoint.old place value endpoint.new result }
{
    match endpoint.send(place, value) {
        Posted::Went => CallStatus::Fine,
        Posted::Full { .. } => CallStatus::Full,
        Posted::Refused { .. } => CallStatus::NotNow,
    }
}

/// Sends the value by the arm with the label.
#[inline(always)]
fn post(endpoint: &mut Endpoint, label: u32, value: Value) -> CallStatus
    ensures { SendTells endpoint.old label value endpoint.new result }
{
    match place_of(endpoint, label) {
        Some(place) => post_at(endpoint, place, value),
        None => CallStatus::NotNow,
    }
}

/// Sends the value by the arm with the label.
#[inline(always)]
pub fn send(alloc: Global, endpoint: &mut EndpointHandle, label: u32, value: Value) -> CallStatus
    ensures { Changes endpoint.old.value endpoint.new.value ⊤ (λ before after. SendTells before.endpoint label value after.endpoint result × (after.last ≡ before.last)) result }
{
    match endpoint.take(alloc) {
        Some(mut held) => {
            let status = post(&mut held.endpoint, label, value);
            endpoint.put(held);
            status
        }
        None => CallStatus::Closed,
    }
}

/// Looks for room for a value of the sort by the arm with the label, before the value is made. Returns the arm's place if there is
/// room, and otherwise the status of the send.
fn see_room(endpoint: &mut Endpoint, label: u32, sort: Sort) -> Result<u16, CallStatus>
    ensures room { IfOk result (λ place. HasArmFor endpoint.old place (numbered label) × LookTells endpoint.old place sort endpoint.new room.Free) }
    ensures none { IfErr result (λ status. NoRoomTells endpoint.old label sort endpoint.new status) }
{
    let Some(place) = place_of(endpoint, label) else {
        return Err(CallStatus::NotNow);
    };
    match endpoint.look_for_room(place, sort) {
        Room::Free => Ok(place),
        Room::Full => Err(CallStatus::Full),
        Room::Refused => Err(CallStatus::NotNow),
    }
}

/// Sends a copy of the bytes, which is made once there is room for it.
fn post_octets(alloc: Global, endpoint: &mut Endpoint, label: u32, bytes: &[u8]) -> CallStatus
    ensures { CopySendTells endpoint.old label (kind.Octets bytes.now) endpoint.new result }
{
    match see_room(endpoint, label, Sort::Octets) {
        Ok(place) => match Octets::of(alloc, bytes) {
            Ok(octets) => post_at(endpoint, place, Value::Octets(octets)),
            Err(_) => CallStatus::NoMemory,
        },
        Err(status) => status,
    }
}

/// Sends a copy of the numbers, which is made once there is room for it.
fn post_numbers(alloc: Global, endpoint: &mut Endpoint, label: u32, items: &[i64]) -> CallStatus
    ensures { CopySendTells endpoint.old label (kind.Numbers items.now) endpoint.new result }
{
    match see_room(endpoint, label, Sort::Numbers) {
        Ok(place) => match Numbers::of(alloc, items) {
            Ok(numbers) => post_at(endpoint, place, Value::Numbers(numbers)),
            Err(_) => CallStatus::NoMemory,
        },
        Err(status) => status,
    }
}

/// Sends a copy of the bytes by the arm with the label.
pub fn send_octets(
    alloc: Global,
    endpoint: &mut EndpointHandle,
    label: u32,
    bytes: &[u8],
) -> CallStatus
    ensures { Changes endpoint.old.value endpoint.new.value ⊤ (λ before after. CopySendTells before.endpoint label (kind.Octets bytes.now) after.endpoint result × (after.last ≡ before.last)) result }
{
    match endpoint.take(alloc) {
        Some(mut held) => {
            let status = post_octets(alloc, &mut held.endpoint, label, bytes);
            endpoint.put(held);
            status
        }
        None => CallStatus::Closed,
    }
}

/// Sends a copy of the numbers by the arm with the label.
pub fn send_numbers(
    alloc: Global,
    endpoint: &mut EndpointHandle,
    label: u32,
    items: &[i64],
) -> CallStatus
    ensures { Changes endpoint.old.value endpoint.new.value ⊤ (λ before after. CopySendTells before.endpoint label (kind.Numbers items.now) after.endpoint result × (after.last ≡ before.last)) result }
{
    match endpoint.take(alloc) {
        Some(mut held) => {
            let status = post_numbers(alloc, &mut held.endpoint, label, items);
            endpoint.put(held);
            status
        }
        None => CallStatus::Closed,
    }
}

/// Receives a value, keeps it, and shows its message.
fn fetch(held: &mut HeldEndpoint, message: &mut MessageView) -> CallStatus
    ensures { ReceiveTells held.old held.new message.old message.new result }
{
    match held.endpoint.receive() {
        Fetched::Got { label, value } => {
            *message = view_of(label, &value);
            held.last = value;
            CallStatus::Fine
        }
        Fetched::Empty { is_gone: false } => CallStatus::Empty,
        Fetched::Empty { is_gone: true } => CallStatus::Gone,
        Fetched::Refused => CallStatus::NotNow,
    }
}

/// Receives a message.
pub fn receive(
    alloc: Global,
    endpoint: &mut EndpointHandle,
    message: &mut MessageView,
) -> CallStatus
    ensures { Changes endpoint.old.value endpoint.new.value (message.new ≡ message.old) (λ before after. ReceiveTells before after message.old message.new result) result }
{
    match endpoint.take(alloc) {
        Some(mut held) => {
            let status = fetch(&mut held, message);
            endpoint.put(held);
            status
        }
        None => CallStatus::Closed,
    }
}

/// Hands out the bytes of the value.
fn octets_of(value: &Value, out: &mut [u8], written: &mut usize) -> CallStatus
    ensures { OctetsTell value.now out.old out.new written.old written.new result }
{
    match value {
        Value::Octets(octets) => hand_out(octets.as_slice(), out, written),
        _ => CallStatus::NotNow,
    }
}

/// Hands out the numbers of the value.
fn numbers_of(value: &Value, out: &mut [i64], written: &mut usize) -> CallStatus
    ensures { NumbersTell value.now out.old out.new written.old written.new result }
{
    match value {
        Value::Numbers(numbers) => hand_out(numbers.as_slice(), out, written),
        _ => CallStatus::NotNow,
    }
}

/// Hands out the bytes of the message that was received last.
pub fn octets(
    alloc: Global,
    endpoint: &mut EndpointHandle,
    out: &mut [u8],
    written: &mut usize,
) -> CallStatus
    ensures { Reads endpoint.old.value endpoint.new.value ((out.new ≡ out.old) × (written.new ≡ written.old)) (λ held. OctetsTell held.last out.old out.new written.old written.new result) result }
{
    match endpoint.take(alloc) {
        Some(held) => {
            let status = octets_of(&held.last, out, written);
            endpoint.put(held);
            status
        }
        None => CallStatus::Closed,
    }
}

/// Hands out the numbers of the message that was received last.
pub fn numbers(
    alloc: Global,
    endpoint: &mut EndpointHandle,
    out: &mut [i64],
    written: &mut usize,
) -> CallStatus
    ensures { Reads endpoint.old.value endpoint.new.value ((out.new ≡ out.old) × (written.new ≡ written.old)) (λ held. NumbersTell held.last out.old out.new written.old written.new result) result }
{
    match endpoint.take(alloc) {
        Some(held) => {
            let status = numbers_of(&held.last, out, written);
            endpoint.put(held);
            status
        }
        None => CallStatus::Closed,
    }
}

/// Gives the role up, and frees the endpoint.
pub fn leave(alloc: Global, endpoint: &mut EndpointHandle) -> CallStatus
    ensures { Closes endpoint.old.value endpoint.new.value result }
{
    match endpoint.take(alloc) {
        Some(_) => CallStatus::Fine,
        None => CallStatus::Closed,
    }
}
