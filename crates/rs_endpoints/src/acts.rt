//! What the acts of endpoints answer, and when a role may make one.
ghost use Rattle.std.specs.Prelude.{◌≡◌, ◌<◌, ◌^◌, ℕ, IfNone, IfSome, Some, false, length, slice_get, true};
ghost use Rattle.rs_core.specs.Choosable.{label_of};
ghost use Rattle.rs_model.specs.declared.machines.State.TheVariants.{Puts, Takes};
ghost use Rattle.rs_endpoints.specs.Endpoints.{SendsSort};
ghost use Rattle.rs_session.specs.Acts.{SendsBy};
ghost use Rattle.rs_session.specs.Stages.{IsReceiving, IsSending, state_of_stage};

use rs_model::{Arm, Label, Role, Sort, State, Value};
use rs_session::{Receiving, Sending, Session};

/// So many acts a role makes at most: no program makes them in a thousand years.
const MOST_ACTS: u64 = 1 << 63;

/// What a send did.
#[derive(Drop)]
pub enum Posted {
    /// The value was sent.
    Went,
    /// The ring was full when the call looked. The value comes back: send it again once the receiver has taken a message.
    Full { value: Value },
    /// The role's state has no such arm, or the value isn't of the arm's sort. Nothing was looked at, and the value comes back.
    Refused { value: Value },
}

/// What a look for room found.
#[derive(Drop)]
pub enum Room {
    /// The ring has room. Only this role sends into it, so its next send isn't answered by [`Posted::Full`].
    Free,
    /// The ring was full when the call looked.
    Full,
    /// The role's state has no arm of that sort at that place. Nothing was looked at.
    Refused,
}

/// What a receive did.
#[derive(Drop)]
pub enum Fetched {
    /// The value was received, by the arm with this label.
    Got { label: Label, value: Value },
    /// The ring was empty when the call looked. Where `is_gone`, the sender was given up and all that it sent was received: so
    /// nothing will come any more.
    Empty { is_gone: bool },
    /// The role's state doesn't receive. Nothing was looked at.
    Refused,
}

/// The peer and the arms of a role that sends.
fn sending_arms<'a>(session: &'a Session, stage: &Sending) -> (Role, &'a [Arm])
    requires { IsSending session.now stage.now }
    ensures { state_of_stage session.now stage.now ≡ Some (Puts result.0 result.1.now) }
{
    match &session.machine(stage.role()).states[stage.state() as usize] {
        State::Puts { peer, arms } => (*peer, arms.as_slice()),
        _ => unreachable!(),
    }
}

/// The peer and the arms of a role that receives.
pub(crate) fn receiving_arms<'a>(session: &'a Session, stage: &Receiving) -> (Role, &'a [Arm])
    requires { IsReceiving session.now stage.now }
    ensures { state_of_stage session.now stage.now ≡ Some (Takes result.0 result.1.now) }
{
    match &session.machine(stage.role()).states[stage.state() as usize] {
        State::Takes { peer, arms } => (*peer, arms.as_slice()),
        _ => unreachable!(),
    }
}

/// Whether the role's state sends the value by an arm at that place.
fn sends_by(session: &Session, stage: &Sending, place: u16, value: &Value) -> bool
    requires { IsSending session.now stage.now }
    ensures yes { result ≡ true → SendsBy session.now stage.now place value.now }
    ensures no { result ≡ false → SendsBy session.now stage.now place value.now → ⊥ }
{
    let (_, arms) = sending_arms(session, stage);
    match arms.get(place as usize) {
        Some(arm) => value.fits(arm.sort),
        None => false,
    }
}

/// Whether the role may send the value by an arm at that place.
pub(crate) fn may_send(session: &Session, stage: &Sending, place: u16, value: &Value) -> bool
    requires { IsSending session.now stage.now }
    ensures by { result ≡ true → SendsBy session.now stage.now place value.now }
    ensures acts { result ≡ true → length stage.now.part.history < 2 ^ 63 }
    ensures no { result ≡ false → SendsBy session.now stage.now place value.now → length stage.now.part.history < 2 ^ 63 → ⊥ }
{
    stage.acts() < MOST_ACTS && sends_by(session, stage, place, value)
}

/// Whether the role's state sends values of the sort by an arm at that place.
fn sends_sort(session: &Session, stage: &Sending, place: u16, sort: Sort) -> bool
    requires { IsSending session.now stage.now }
    ensures yes { result ≡ true → SendsSort session.now stage.now place sort }
    ensures no { result ≡ false → SendsSort session.now stage.now place sort → ⊥ }
{
    let (_, arms) = sending_arms(session, stage);
    match arms.get(place as usize) {
        Some(arm) => arm.sort == sort,
        None => false,
    }
}

/// Whether the role may look for room for a value of the sort by an arm at that place.
pub(crate) fn may_look(session: &Session, stage: &Sending, place: u16, sort: Sort) -> bool
    requires { IsSending session.now stage.now }
    ensures by { result ≡ true → SendsSort session.now stage.now place sort }
    ensures acts { result ≡ true → length stage.now.part.history < 2 ^ 63 }
    ensures no { result ≡ false → SendsSort session.now stage.now place sort → length stage.now.part.history < 2 ^ 63 → ⊥ }
{
    stage.acts() < MOST_ACTS && sends_sort(session, stage, place, sort)
}

/// Whether the role may receive.
pub(crate) fn may_receive(stage: &Receiving) -> bool
    ensures yes { result ≡ true → length stage.now.part.history < 2 ^ 63 }
    ensures no { result ≡ false → length stage.now.part.history < 2 ^ 63 → ⊥ }
{
    stage.acts() < MOST_ACTS
}

/// The place of the first arm with the label.
pub(crate) fn place_of(arms: &[Arm], label: Label) -> Option<usize>
    ensures some { IfSome result (λ place. label_of (slice_get arms.now place) ≡ Some label) }
    ensures first { IfSome result (λ place. (earlier : ℕ) → earlier < place → label_of (slice_get arms.now earlier) ≡ Some label → ⊥) }
    ensures none { IfNone result ((place : ℕ) → label_of (slice_get arms.now place) ≡ Some label → ⊥) }
{
    for (place, arm) in arms.iter().enumerate() {
        if arm.label.0 == label.0 {
            return Some(place);
        }
    }
    None
}
