//! The places of a graph, seen alike in protocols and machines.

ghost use Rattle.std.specs.Prelude.{◌≡◌, List, ℕ, length, slice_get};
ghost use Rattle.rs_bodies.specs.declared.dialects.Dialect.{Dialect};
ghost use Rattle.rs_bodies.specs.declared.dialects.Dialect.TheVariants.{Talks, Acts};
ghost use Rattle.rs_bodies.specs.declared.dialects.Head.TheVariants as head;
ghost use Rattle.rs_bodies.specs.declared.places.Place.{Place};
ghost use Rattle.rs_bodies.specs.declared.places.Place.TheVariants as place;
ghost use Rattle.rs_bodies.specs.Places.{place_of_node, place_of_state, places_of_protocol, places_of_machine};

use crate::dialects::{Head, Mark};
use rs_model::{Arm, Machine, Node, Protocol, Role, State};
use std::marker::Model;

/// A head with its arms, where they stand.
#[derive(Drop)]
pub struct PointRef<'a> {
    pub head: Head,
    pub arms: &'a [Arm],
}

impl<'a> Model for PointRef<'a> {
    ghost use Rattle.rs_bodies.specs.Data.{Point_data};

    ghost Value = { Point_data };

    ghost view = { λ p. record { head = p.head; arms = p.arms.now } };
}

/// What stands at a number of a graph: an end, or a head with its arms.
#[derive(Drop)]
pub enum Place<'a> {
    End,
    Point(PointRef<'a>),
}

/// The graph of a body, its places numbered from 0.
pub trait NumberedGraph {
    // The dialect of the body.
    ghost dialect: { Dialect };

    // What stands at each number.
    ghost places: { Self → List Place };

    // The number with which the body begins.
    ghost root: { Self → ℕ };

    /// How many places there are.
    fn size(&self) -> usize
        ensures { result ≡ length (places self.now) };

    /// What stands at this number.
    fn place(&self, number: u32) -> Option<Place<'_>>
        ensures { result ≡ slice_get (places self.now) number };

    /// The number with which the body begins.
    fn start(&self) -> u32
        ensures { result ≡ root self.now };
}

impl NumberedGraph for Protocol {
    ghost dialect = { Talks };

    ghost places = { λ p. places_of_protocol p };

    ghost root = { λ p. p.root };

    fn size(&self) -> usize {
        self.nodes.len()
    }

    fn place(&self, number: u32) -> Option<Place<'_>> {
        self.nodes.get(number as usize).map(place_of_node)
    }

    fn start(&self) -> u32 {
        self.root
    }
}

impl NumberedGraph for Machine {
    ghost dialect = { Acts };

    ghost places = { λ m. places_of_machine m };

    ghost root = { λ m. m.start };

    fn size(&self) -> usize {
        self.states.len()
    }

    fn place(&self, number: u32) -> Option<Place<'_>> {
        self.states.get(number as usize).map(place_of_state)
    }

    fn start(&self) -> u32 {
        self.start
    }
}

fn place_of_node(node: &Node) -> Place<'_>
    ensures { result ≡ place_of_node node.now }
{
    match node {
        Node::Finished => Place::End,
        Node::Talk {
            sender,
            receiver,
            arms,
        } => Place::Point(PointRef {
            head: Head::Talk {
                sender: *sender,
                receiver: *receiver,
            },
            arms: arms.as_slice(),
        }),
    }
}

fn place_of_state(state: &State) -> Place<'_>
    ensures { result ≡ place_of_state state.now }
{
    match state {
        State::Done => Place::End,
        State::Puts { peer, arms } => act(*peer, Mark::Puts, arms.as_slice()),
        State::Takes { peer, arms } => act(*peer, Mark::Takes, arms.as_slice()),
    }
}

fn act(peer: Role, mark: Mark, arms: &[Arm]) -> Place<'_>
    ensures { result ≡ place.Point (record { head = head.Act peer mark; arms = arms.now }) }
{
    Place::Point(PointRef {
        head: Head::Act { peer, mark },
        arms,
    })
}
