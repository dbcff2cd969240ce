//! What the table's contracts see. No value of these types is made at run time but the key: a view is a ghost, and a pass
//! keeps at run time what it needs of it in its rows.
use rs_model::{Label, Machine, Role, Value};
use rs_slots::Parcel;
use std::collections::LinkedList;
use std::marker::Model;

/// One action of a role's history.
#[derive(Drop)]
pub struct PastAction {
    sent: bool,
    peer: Role,
    label: Label,
    value: Value,
}

impl Model for PastAction {
    ghost use Rattle.std.specs.Prelude.{if◌then◌else◌};
    ghost use Rattle.rs_core.specs.Histories.{Action, Sent, Got};

    ghost Value = { Action };

    ghost view = { λ d. if d.sent then Sent d.peer d.label d.value else Got d.peer d.label d.value };
}

/// One load of a word of the ring with a peer, and the number that it found.
#[derive(Drop)]
pub struct Load {
    pub peer: u8,
    pub found: u64,
}

/// A parcel that was put into the ring to a peer, or taken out of the ring from it, and how many loads the peer had made before
/// of the word that counts it.
#[derive(Drop)]
pub struct Stamp {
    pub peer: u8,
    pub loads: u64,
}

/// Where a role is within a call: between calls it is `Idle`; between the load and the store of a put it holds the slot of
/// its next parcel to that peer, and between those of a take the slot of the oldest parcel from that peer.
#[derive(Drop)]
pub enum Middle {
    Idle,
    Putting(u8),
    Taking(u8, Parcel),
}

/// What a view knows of one role: the state of its machine, its history, its loads of the head words of its rings to others
/// and of the tail words of the rings to it, the newest first, the stamps of the parcels that it put and took, the oldest first,
/// and where it is within a call.
#[derive(Drop)]
pub struct Part {
    pub role: u8,
    pub state: u32,
    pub history: LinkedList<PastAction>,
    pub heads: LinkedList<Load>,
    pub tails: LinkedList<Load>,
    pub put_stamps: LinkedList<Stamp>,
    pub take_stamps: LinkedList<Stamp>,
    pub middle: Middle,
}

/// What a seat of the table knows: a part for each role that it speaks for.
#[derive(Drop)]
pub struct View {
    pub parts: LinkedList<Part>,
}

/// What stays the same as long as the table lives.
#[derive(Drop)]
pub struct Key {
    pub roles: u8,
    pub capacity: u16,
    pub machines: Vec<Machine>,
}
