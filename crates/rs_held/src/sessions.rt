//! The calls of sessions.

ghost use Rattle.std.specs.Prelude.{◌≡◌, ◌<◌, IfOk, None, Some, length, slice_get, slice_set};
ghost use Rattle.rs_endpoints.specs.Endpoints.{AreBegun};
ghost use Rattle.rs_held.specs.Opens.{Changes, Closes, Reads};
ghost use Rattle.rs_held.specs.Sessions.{HandOverTells, OpenTells};
ghost use Rattle.rs_held.specs.Sessions as spec;
ghost use Rattle.rs_numbered.specs.Names.{NameTells, NumberTells};
ghost use Rattle.rs_numbered.specs.declared.statuses.CallStatus.TheVariants.{Fine};
ghost use Rattle.rs_safety.specs.Room.{room_of};

use crate::openings::opened;
use crate::texts::kept;
use crate::{BegunSession, EndpointHandle, HeldEndpoint, SessionHandle, TextHandle};
use rs_answers::Verdict;
use rs_endpoints::{Endpoint, begin};
use rs_model::{Capacity, NoMemory, Value};
use rs_numbered::{CallStatus, name_at, number_of};
use rs_open::{OpenRefused, OpenSession};
use std::alloc::{AllocFailed, Global};

/// The capacity that is asked for, or where no ring has it the session's room, or the greatest that a ring has.
fn capacity_for(opened: &OpenSession, asked: u16) -> Capacity
    ensures { result ≡ spec.capacity_for asked (room_of opened.now.session.derivations) }
{
    match Capacity::new(asked) {
        Some(capacity) => capacity,
        None => opened.capacity(),
    }
}

/// Begins the session.
fn begun(alloc: Global, opened: OpenSession, asked: u16) -> Result<Box<BegunSession>, NoMemory>
    ensures same { IfOk result (λ b. b.value.opened ≡ opened) }
    ensures begun { IfOk result (λ b. AreBegun opened.session.machines (spec.capacity_for asked (room_of opened.session.derivations)) b.value.endpoints.items) }
{
    let capacity = capacity_for(&opened, asked);
    let endpoints = begin(alloc, opened.accepted(), capacity)?;
    Ok(Box::new(alloc, BegunSession { opened, endpoints })?)
}

/// The status that tells a refusal.
pub(crate) fn status_of(verdict: Verdict) -> CallStatus
    ensures { result ≡ spec.status_of verdict }
{
    match verdict {
        Verdict::Malformed => CallStatus::Malformed,
        Verdict::Unprojectable => CallStatus::Unprojectable,
        Verdict::TooLarge => CallStatus::TooLarge,
        _ => CallStatus::Refused,
    }
}

/// Accepts the text by its own derivations where it has one of each role, as `verify` does, and else by a search, as `check` does;
/// and begins its session over rings of so many messages, 1 to 1,024, or else of as many as its room, 1,024 at most. Where the text
/// is refused `refusal` is what `explain` answers, or where one of its own derivations is at fault what `verify` does.
pub fn open_text(
    alloc: Global,
    text: &[u8],
    capacity: u16,
    session: &mut SessionHandle,
    refusal: &mut TextHandle,
) -> CallStatus
    ensures { OpenTells text.now capacity session.old.value session.new.value refusal.old.value refusal.new.value result }
{
    match opened(alloc, text) {
        Ok(opened) => match begun(alloc, opened, capacity) {
            Ok(begun) => {
                session.put(begun);
                CallStatus::Fine
            }
            Err(_) => CallStatus::NoMemory,
        },
        Err(OpenRefused::Answered { text, verdict }) => match kept(alloc, text.as_slice()) {
            Ok(kept) => {
                refusal.put(kept);
                status_of(verdict)
            }
            Err(_) => CallStatus::NoMemory,
        },
        Err(OpenRefused::NoMemory) => CallStatus::NoMemory,
    }
}

/// Tells the session's room.
pub fn room(alloc: Global, session: &mut SessionHandle, room: &mut u64) -> CallStatus
    ensures { Reads session.old.value session.new.value (room.new ≡ room.old) (λ begun. (result ≡ Fine) × (room.new ≡ room_of begun.opened.session.derivations)) result }
{
    match session.take(alloc) {
        Some(begun) => {
            *room = begun.opened.room();
            session.put(begun);
            CallStatus::Fine
        }
        None => CallStatus::Closed,
    }
}

/// Tells the number of the role with this name.
pub fn role(alloc: Global, session: &mut SessionHandle, name: &[u8], role: &mut u32) -> CallStatus
    ensures { Reads session.old.value session.new.value (role.new ≡ role.old) (λ begun. NumberTells begun.opened.names.roles name.now role.old role.new result) result }
{
    match session.take(alloc) {
        Some(begun) => {
            let status = number_of(begun.opened.roles(), name, role);
            session.put(begun);
            status
        }
        None => CallStatus::Closed,
    }
}

/// Tells the number of the label with this name.
pub fn label(alloc: Global, session: &mut SessionHandle, name: &[u8], label: &mut u32) -> CallStatus
    ensures { Reads session.old.value session.new.value (label.new ≡ label.old) (λ begun. NumberTells begun.opened.names.labels name.now label.old label.new result) result }
{
    match session.take(alloc) {
        Some(begun) => {
            let status = number_of(begun.opened.names().labels.as_slice(), name, label);
            session.put(begun);
            status
        }
        None => CallStatus::Closed,
    }
}

/// Hands out the name of the role with this number.
pub fn role_name(
    alloc: Global,
    session: &mut SessionHandle,
    role: u32,
    out: &mut [u8],
    written: &mut usize,
) -> CallStatus
    ensures { Reads session.old.value session.new.value ((out.new ≡ out.old) × (written.new ≡ written.old)) (λ begun. NameTells begun.opened.names.roles role out.old out.new written.old written.new result) result }
{
    match session.take(alloc) {
        Some(begun) => {
            let status = name_at(begun.opened.roles(), role, out, written);
            session.put(begun);
            status
        }
        None => CallStatus::Closed,
    }
}

/// Hands out the name of the label with this number.
pub fn label_name(
    alloc: Global,
    session: &mut SessionHandle,
    label: u32,
    out: &mut [u8],
    written: &mut usize,
) -> CallStatus
    ensures { Reads session.old.value session.new.value ((out.new ≡ out.old) × (written.new ≡ written.old)) (λ begun. NameTells begun.opened.names.labels label out.old out.new written.old written.new result) result }
{
    match session.take(alloc) {
        Some(begun) => {
            let status = name_at(begun.opened.names().labels.as_slice(), label, out, written);
            session.put(begun);
            status
        }
        None => CallStatus::Closed,
    }
}

/// Takes the endpoint out of its place.
fn taken_out(endpoints: &mut Vec<Option<Endpoint>>, role: usize) -> Option<Endpoint>
    requires { role < length endpoints.old.items }
    ensures taken { slice_get endpoints.old.items role ≡ Some result }
    ensures left { endpoints.new.items ≡ slice_set endpoints.old.items role None }
{
    endpoints[role].take()
}

/// Puts the endpoint back at its place.
fn put_back(endpoints: &mut Vec<Option<Endpoint>>, role: usize, endpoint: Endpoint)
    requires { role < length endpoints.old.items }
    ensures { endpoints.new.items ≡ slice_set endpoints.old.items role (Some endpoint) }
{
    endpoints[role] = Some(endpoint);
}

/// Gives the endpoint of the role to its handle.
#[tactic(auto, using(crate::proofs::Setting::set_same, crate::proofs::Setting::set_back))]
fn hand_over(
    alloc: Global,
    begun: &mut BegunSession,
    role: u32,
    endpoint: &mut EndpointHandle,
) -> CallStatus
    ensures { HandOverTells role begun.old begun.new endpoint.old.value endpoint.new.value result }
{
    let role = role as usize;
    if role >= begun.endpoints.len() {
        return CallStatus::Unknown;
    }
    let Some(own) = taken_out(&mut begun.endpoints, role) else {
        return CallStatus::HandedOut;
    };
    let own = HeldEndpoint {
        endpoint: own,
        last: Value::Unit,
    };
    match Box::new(alloc, own) {
        Ok(own) => {
            endpoint.put(own);
            CallStatus::Fine
        }
        Err(AllocFailed { value }) => {
            let HeldEndpoint {
                endpoint: own,
                last: _,
            } = value;
            put_back(&mut begun.endpoints, role, own);
            CallStatus::NoMemory
        }
    }
}

/// Hands out the endpoint of the role, once.
pub fn endpoint_of(
    alloc: Global,
    session: &mut SessionHandle,
    role: u32,
    endpoint: &mut EndpointHandle,
) -> CallStatus
    ensures { Changes session.old.value session.new.value (endpoint.new.value ≡ endpoint.old.value) (λ before after. HandOverTells role before after endpoint.old.value endpoint.new.value result) result }
{
    match session.take(alloc) {
        Some(mut begun) => {
            let status = hand_over(alloc, &mut begun, role, endpoint);
            session.put(begun);
            status
        }
        None => CallStatus::Closed,
    }
}

/// Frees the session, with the endpoints that weren't handed out.
pub fn close(alloc: Global, session: &mut SessionHandle) -> CallStatus
    ensures { Closes session.old.value session.new.value result }
{
    match session.take(alloc) {
        Some(_) => CallStatus::Fine,
        None => CallStatus::Closed,
    }
}
