//! What stands in the way where no rule of the table of moves applies.
ghost use Rattle.std.specs.Prelude.{◌≡◌, Some, slice_get};
ghost use Rattle.rs_derive.specs.Moves.{arm_of};
ghost use Rattle.rs_explain.specs.ObstacleAt.{arm_obstacle, arms_obstacle, early_end, end_obstacle, obstacle_at, pay_receive_obstacle, pay_send_obstacle, receive_obstacle, receive_past_obstacle, send_obstacle, send_past_obstacle, served_obstacle};
ghost use Rattle.rs_prefix.specs.Search.{earliest};
ghost use Rattle.rs_prefix.specs.declared.earliest.ActKind.TheVariants.{Send, Receive};

use rs_derive::arm_of;
use rs_model::{Act, Arm, Role, Sort, State};
use rs_prefix::{ActKind, Found, Pending};

/// Why a machine has no move from its state and that of its projection. A `place` is that of an act that it owes, an
/// `arm` the place of one of its own arms.
#[derive(Clone, Copy, Debug, PartialEq, Eq)]
pub enum Obstacle {
    /// It has ended, and still owes acts.
    EndWhileOwing,
    /// It has ended, owes nothing, and the projection goes on.
    EndTooEarly,
    /// It acts, owes no such act, and the projection has ended.
    ActPastEnd,
    /// It chooses what to send, while it owes a send to the same role.
    ChoiceWhileOwing { place: usize },
    /// It sends another label than the earlier send to the same role that it owes.
    SendBeforeSend { place: usize },
    /// It sends the label that it owes, with a sort that doesn't serve.
    OwedSendOfOtherSort { place: usize },
    /// It sends a label that the projection doesn't send.
    UnknownSend { arm: usize },
    /// It sends a label of the projection with a sort that doesn't serve.
    SendOfOtherSort { arm: usize },
    /// It receives, and has no arm for the earlier receive from the same role that it owes.
    ReceiveBeforeReceive { place: usize },
    /// It takes the label that it owes, with a sort that isn't served.
    OwedReceiveOfOtherSort { place: usize },
    /// It receives, while it owes a send.
    ReceiveBeforeOwedSend { place: usize },
    /// It receives, owes no receive from that role, and the projection sends first.
    ReceiveBeforeSend,
}

/// What stands in the way where so much is owed, the machine stands at a state, and the projection stands there; none
/// where a rule applies. Takes no memory.
pub fn obstacle_at(pending: &Pending, state: &State, there: &State) -> Option<Obstacle>
    ensures { result ≡ obstacle_at pending.now state.now (Some there.now) }
{
    match state {
        State::Done => end_obstacle(pending, there),
        State::Puts { peer, arms } => send_obstacle(pending, *peer, arms.as_slice(), there),
        State::Takes { peer, arms } => receive_obstacle(pending, *peer, arms.as_slice(), there),
    }
}

// The machine has ended.
fn end_obstacle(pending: &Pending, there: &State) -> Option<Obstacle>
    ensures { result ≡ end_obstacle pending.now (Some there.now) }
{
    if pending.as_slice().is_empty() {
        early_end(there)
    } else {
        Some(Obstacle::EndWhileOwing)
    }
}

fn early_end(there: &State) -> Option<Obstacle>
    ensures { result ≡ early_end (Some there.now) }
{
    match there {
        State::Done => None,
        _ => Some(Obstacle::EndTooEarly),
    }
}

fn send_obstacle(pending: &Pending, peer: Role, arms: &[Arm], there: &State) -> Option<Obstacle>
    ensures { result ≡ send_obstacle pending.now peer arms.now (Some there.now) (earliest pending.now Send peer) }
{
    match pending.find(ActKind::Send, peer) {
        Found::At(place) => pay_send_obstacle(pending.as_slice(), place, arms),
        Found::Blocked(place) => Some(Obstacle::ChoiceWhileOwing { place }),
        Found::Absent => send_past_obstacle(peer, arms, there),
    }
}

fn receive_obstacle(pending: &Pending, peer: Role, arms: &[Arm], there: &State) -> Option<Obstacle>
    ensures { result ≡ receive_obstacle pending.now arms.now (Some there.now) (earliest pending.now Receive peer) }
{
    match pending.find(ActKind::Receive, peer) {
        Found::At(place) => pay_receive_obstacle(pending.as_slice(), place, arms),
        Found::Blocked(place) => Some(Obstacle::ReceiveBeforeOwedSend { place }),
        Found::Absent => receive_past_obstacle(there),
    }
}

// The machine's only arm must be the send that is owed.
fn pay_send_obstacle(pending: &[Act], place: usize, arms: &[Arm]) -> Option<Obstacle>
    ensures { result ≡ pay_send_obstacle place arms.now (slice_get pending.now place) }
{
    match (arms, pending.get(place)) {
        ([arm], Some(Act::Puts { label, sort, .. })) => {
            if arm.label.0 != label.0 {
                Some(Obstacle::SendBeforeSend { place })
            } else if arm.sort.serves(*sort) {
                None
            } else {
                Some(Obstacle::OwedSendOfOtherSort { place })
            }
        }
        _ => Some(Obstacle::ChoiceWhileOwing { place }),
    }
}

// The machine must have an arm for the receive that is owed.
fn pay_receive_obstacle(pending: &[Act], place: usize, arms: &[Arm]) -> Option<Obstacle>
    ensures { result ≡ pay_receive_obstacle place arms.now (slice_get pending.now place) }
{
    match pending.get(place) {
        Some(Act::Takes { label, sort, .. }) => served_obstacle(place, *sort, arm_of(arms, *label)),
        _ => Some(Obstacle::ReceiveBeforeReceive { place }),
    }
}

fn served_obstacle(place: usize, sort: Sort, arm: Option<Arm>) -> Option<Obstacle>
    ensures { result ≡ served_obstacle place sort arm }
{
    match arm {
        None => Some(Obstacle::ReceiveBeforeReceive { place }),
        Some(arm) => {
            if sort.serves(arm.sort) {
                None
            } else {
                Some(Obstacle::OwedReceiveOfOtherSort { place })
            }
        }
    }
}

// No send to the peer is owed.
fn send_past_obstacle(peer: Role, arms: &[Arm], there: &State) -> Option<Obstacle>
    ensures { result ≡ send_past_obstacle peer arms.now (Some there.now) }
{
    match there {
        State::Done => Some(Obstacle::ActPastEnd),
        State::Puts {
            peer: other,
            arms: theirs,
        } => {
            if other.0 == peer.0 {
                arms_obstacle(theirs.as_slice(), arms)
            } else {
                None
            }
        }
        State::Takes { .. } => None,
    }
}

// No receive from the peer is owed, and nothing blocks one.
fn receive_past_obstacle(there: &State) -> Option<Obstacle>
    ensures { result ≡ receive_past_obstacle (Some there.now) }
{
    match there {
        State::Done => Some(Obstacle::ActPastEnd),
        State::Puts { .. } => Some(Obstacle::ReceiveBeforeSend),
        State::Takes { .. } => None,
    }
}

// The first arm that isn't one of theirs, with a sort that serves.
fn arms_obstacle(theirs: &[Arm], arms: &[Arm]) -> Option<Obstacle>
    ensures { result ≡ arms_obstacle theirs.now arms.now 0 }
{
    for (place, arm) in arms.iter().enumerate() {
        let found = arm_obstacle(place, *arm, arm_of(theirs, arm.label));
        if found.is_some() {
            return found;
        }
    }
    None
}

fn arm_obstacle(place: usize, arm: Arm, their: Option<Arm>) -> Option<Obstacle>
    ensures { result ≡ arm_obstacle place arm their }
{
    match their {
        None => Some(Obstacle::UnknownSend { arm: place }),
        Some(their) => {
            if arm.sort.serves(their.sort) {
                None
            } else {
                Some(Obstacle::SendOfOtherSort { arm: place })
            }
        }
    }
}
