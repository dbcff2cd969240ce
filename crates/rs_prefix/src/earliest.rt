//! Which of the acts that are owed can be made next: the earliest of a kind with a peer that nothing before it blocks.
ghost use Rattle.std.specs.Prelude.{◌≡◌};
ghost use Rattle.rs_prefix.specs.Earliest.{has, may_overtake};

use rs_model::{Act, Role};

/// The kind of an act: it sends a message, or receives one.
#[derive(Clone, Copy, Debug, PartialEq, Eq)]
pub enum ActKind {
    /// The act sends: it puts a message into the queue to its peer.
    Send,
    /// The act receives: it takes a message from the queue from its peer.
    Receive,
}

/// The answer to the question where the earliest pending act of a kind with a peer is.
#[derive(Clone, Copy, Debug, PartialEq, Eq)]
pub enum Found {
    /// It is at this place, and may overtake all acts before it.
    At(usize),
    /// The act at this place is the first that it may not overtake.
    Blocked(usize),
    /// There is none, and nothing blocks one.
    Absent,
}

/// Returns whether the act is of that kind, with that peer: for example whether it is a send to that peer.
#[inline(always)]
pub fn has(act: Act, kind: ActKind, peer: Role) -> bool
    ensures { result ≡ has kind peer act }
{
    match (kind, act) {
        (ActKind::Send, Act::Puts { peer: theirs, .. })
        | (ActKind::Receive, Act::Takes { peer: theirs, .. }) => theirs == peer,
        _ => false,
    }
}

/// Returns whether an act of that kind with that peer may be made before the pending act `act`. A send may overtake
/// each receive, and each send to another peer. A receive may overtake receives from other peers, and no send: so messages
/// between two roles stay in order, and a machine doesn't wait before it has sent what it owes. The definition of the same
/// name follows the reorderings of precise asynchronous subtyping (Ghilezan and others, POPL 2021).
#[inline(always)]
pub fn may_overtake(act: Act, kind: ActKind, peer: Role) -> bool
    ensures { result ≡ may_overtake kind peer act }
{
    match (kind, act) {
        (ActKind::Send, Act::Takes { .. }) => true,
        (ActKind::Receive, Act::Puts { .. }) => false,
        (ActKind::Send, Act::Puts { peer: theirs, .. })
        | (ActKind::Receive, Act::Takes { peer: theirs, .. }) => theirs != peer,
    }
}
