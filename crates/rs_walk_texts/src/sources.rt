//! What a walk is told from.

ghost use Rattle.std.specs.Prelude.{◌≡◌};

use rs_model::{Machine, Names, Protocol};
use rs_places::Position;
use rs_prefix::Pending;
use rs_project::Projection;
use std::marker::Model;

/// What a walk of a role's machine is told from: the names, the protocol and the positions of its talks, the projection
/// onto the role, the role's machine and the positions of its states.
#[derive(Drop)]
pub struct WalkSource<'a> {
    pub names: &'a Names,
    pub protocol: &'a Protocol,
    pub talks: &'a [Position],
    pub projection: &'a Projection,
    pub machine: &'a Machine,
    pub states: &'a [Position],
}

impl<'a> Model for WalkSource<'a> {
    ghost use Rattle.rs_walk_texts.specs.Data.{WalkSource_data};

    ghost Value = { WalkSource_data };

    ghost view = { λ s. record { names = s.names.now; protocol = s.protocol.now; talks = s.talks.now; projection = s.projection.now; machine = s.machine.now; states = s.states.now } };
}

/// A spot of a walk: a state of the machine, what it owes there, the oldest first, and a state of its projection.
#[derive(Drop)]
pub struct SpotRef<'a> {
    pub state: u32,
    pub pending: &'a Pending,
    pub above: u32,
}

impl<'a> Model for SpotRef<'a> {
    ghost use Rattle.rs_derive.specs.Moves.{Spot, spot};

    ghost Value = { Spot };

    ghost view = { λ p. spot p.state p.pending.now p.above };
}
