//! Places in a text.

use std::marker::Model;

/// A place in a text: line and column, both from 1.
#[derive(Clone, Copy, Debug, PartialEq, Eq)]
pub struct Position {
    pub line: usize,
    pub column: usize,
}

/// Where a document's talks and the states of its machines begin.
#[derive(Drop)]
pub struct Places {
    /// The talks of the protocol, by their numbers.
    pub talks: Vec<Position>,
    /// For each role in order the states of its own machine, by their numbers; none where it has no machine.
    pub machines: Vec<Vec<Position>>,
}

impl Model for Places {
    ghost use Rattle.std.specs.Prelude.{map};
    ghost use Rattle.rs_places.specs.Data.{Places_data};

    ghost Value = { Places_data };

    ghost view = { λ p. record { talks = p.talks.items; machines = map (λ m. m.items) p.machines.items } };
}
