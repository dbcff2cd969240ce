//! A derivation as a vector of numbered nodes, and the greatest figures of its nodes.
ghost use Rattle.std.specs.Prelude.{◌≡◌, ◌<◌, ◌^◌, length, map, All};
ghost use Rattle.rs_derive.specs.Figures.{IsGreatest};

use rs_graph::NodeRow;
use rs_model::Role;
use rs_prefix::Pending;
use std::marker::Model;

/// A node of a derivation: a state of the machine, what the machine still owes, a state of the projection, a rank, and
/// the numbers of the nodes that its move leads to.
#[derive(Drop, Debug)]
pub struct DNode {
    /// The number of the machine's state.
    pub state: u32,
    /// The acts that the machine owes: acts of its projection that were passed and not yet made, the oldest first.
    pub pending: Pending,
    /// The number of the projection's state.
    pub above: u32,
    /// The rank: it falls along each edge that keeps the oldest pending act.
    pub rank: u32,
    /// The numbers of the nodes to which the node's move leads, one for each arm.
    pub next: NodeRow,
}

impl Model for DNode {
    ghost use Rattle.rs_derive.specs.Data.{DNode_data};

    ghost Value = { DNode_data };

    ghost view = { λ n. record { state = n.state; pending = n.pending; above = n.above; rank = n.rank; next = n.next } };
}

/// A certificate that the machine of a role may stand for its projection: nodes, numbered by their places. Node 0 is the
/// start. `IsDerivation` and `Remembers` define what makes it one; `check` tests both.
#[derive(Drop, Debug)]
pub struct Derivation {
    /// The role whose machine it is for.
    pub role: Role,
    /// The greatest number of acts that a node may owe.
    pub bound: u8,
    /// The nodes, by their numbers.
    pub nodes: Vec<DNode>,
}

impl Model for Derivation {
    ghost use Rattle.rs_derive.specs.Data.{Derivation_data};

    ghost Value = { Derivation_data };

    ghost view = { λ d. record { role = d.role; bound = d.bound; nodes = d.nodes.items } };
}

/// Returns the greatest number of acts that are pending at a node, and 0 if there is no node.
pub fn longest(derivation: &Derivation) -> u32
    requires { All (λ n. length n.pending < 2 ^ 32) derivation.now.nodes }
    ensures { IsGreatest (map (λ n. length n.pending) derivation.now.nodes) result }
{
    let mut greatest = 0;
    for node in &derivation.nodes {
        greatest = greatest.max(node.pending.as_slice().len() as u32);
    }
    greatest
}

/// Returns the greatest rank of a node, and 0 if there is no node.
pub fn top_rank(derivation: &Derivation) -> u32
    ensures { IsGreatest (map (λ n. n.rank) derivation.now.nodes) result }
{
    let mut greatest = 0;
    for node in &derivation.nodes {
        greatest = greatest.max(node.rank);
    }
    greatest
}
