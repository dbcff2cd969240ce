//! Acts of programs, and why an act is refused.
use rs_core::Message;
use rs_model::Role;

/// An act of a role's program: it sent a message to a peer, or received one from a peer.
#[derive(Drop, Debug)]
pub enum ProgramAct {
    Sent { peer: Role, message: Message },
    Received { peer: Role, message: Message },
}

/// Why an act isn't one of the machine's in its state. If several reasons apply, the first of them is given.
#[derive(Clone, Copy, Debug, PartialEq, Eq)]
pub enum Refusal {
    /// The state sends to, or receives from, another role.
    AnotherPeer,
    /// The act is a send, and the state receives from that peer.
    StateReceives,
    /// The act is a receive, and the state sends to that peer.
    StateSends,
    /// No arm of the state has the label.
    NoSuchLabel,
    /// The state has an arm with the label, and the value isn't of its sort.
    AnotherSort,
    /// The machine has ended: its state neither sends nor receives.
    HasEnded,
}
