//! The nexts of one node against the results of its move, arm by arm.
ghost use Rattle.std.specs.Prelude.{◌≡◌, ◌<◌, ◌^◌, [], ◌∷◌, map, slice_get, length, Some};
ghost use Rattle.rs_model.specs.declared.graph.Arm.{Arm};
ghost use Rattle.rs_derive.specs.Checks.{fault_of_edge, fault_of_count, edge_at, edge_fault, spare, nexts_fault};
ghost use Rattle.rs_derive.specs.Targets.{target_spot};
ghost use Rattle.rs_derive.specs.Derivations.{spot_of};
ghost use Rattle.rs_derive.specs.Due.{both_at};
ghost use Rattle.rs_derive.specs.Moves.{arm_of, owing_send, owing_receive};
ghost use Rattle.rs_derive.specs.Within.{IsPlaceWithin, HasLabelsOnce};
ghost use Rattle.rs_derive.specs.declared.faults.DeriveFault.TheVariants.{WrongNext};

use crate::rules::arm_of;
use crate::targets::{Change, EdgeTarget, is_guessed, is_target};
use crate::{DNode, DeriveFault};
use rs_model::{Act, Arm, Role};

/// The node that edges leave, as far as the test of an edge needs it.
#[derive(Clone, Copy)]
pub struct EdgeSource {
    /// The node's number.
    pub node: u32,
    /// The node's rank. An edge that keeps the head must lead to a lower one.
    pub rank: u32,
    /// Whether the node's edges keep its head: the oldest act that is owed is passed over.
    pub keeps: bool,
}

/// Tests the nexts of a node whose move has one result. Returns the first fault (`nexts_fault`), or none if there is one
/// next, and it names the target.
#[inline(always)]
pub fn one_fault(
    nodes: &[DNode],
    source: EdgeSource,
    node: &DNode,
    target: EdgeTarget,
) -> Option<DeriveFault>
    requires { IsPlaceWithin (length node.now.pending) target.change }
    ensures { result ≡ nexts_fault nodes.now source.keeps source.rank source.node ((target_spot node.now.pending target ∷ []) ∷ []) node.now.next 0 }
{
    match node.next.as_slice() {
        [] => Some(wrong_next(source, 0)),
        [next, rest @ ..] => {
            match edge_fault(nodes, source, 0, *next, node, target) {
                None => spare_fault(source, 1, rest),
                fault => fault,
            }
        }
    }
}

/// Tests the nexts of a node that passes a send of its projection, to `peer` with these arms. Returns the first fault
/// (`nexts_fault`), or none if there is one next, and it names a node that owes the send of one of the arms.
#[inline(always)]
pub fn guess_fault(
    nodes: &[DNode],
    source: EdgeSource,
    node: &DNode,
    peer: Role,
    arms: &[Arm],
) -> Option<DeriveFault>
    ensures { result ≡ nexts_fault nodes.now source.keeps source.rank source.node (map (λ b. owing_send (spot_of node.now) peer b) arms.now ∷ []) node.now.next 0 }
{
    match node.next.as_slice() {
        [] => Some(wrong_next(source, 0)),
        [next, rest @ ..] => {
            match guessed_fault(nodes, source, *next, node, peer, arms) {
                None => spare_fault(source, 1, rest),
                fault => fault,
            }
        }
    }
}

/// Tests the nexts of a node that passes a receive of its projection, from `peer` with these arms. Returns the first
/// fault (`nexts_fault`), or none if there is one next for each arm, in order, which owes the receive of that arm.
#[inline(always)]
pub fn follow_fault(
    nodes: &[DNode],
    source: EdgeSource,
    node: &DNode,
    peer: Role,
    arms: &[Arm],
) -> Option<DeriveFault>
    requires { HasLabelsOnce arms.now }
    ensures { result ≡ nexts_fault nodes.now source.keeps source.rank source.node (map (λ b. owing_receive (spot_of node.now) peer b ∷ []) arms.now) node.now.next 0 }
{
    let due = arms.len().min(node.next.as_slice().len());
    for place in 0..due {
        if let Some(fault) = followed_fault(nodes, source, place as u32, node, peer, arms) {
            return Some(fault);
        }
    }
    count_fault(source, due as u32, arms.len(), node.next.as_slice().len())
}

/// Tests the nexts of a node at which the machine and its projection make the same send. `arms` are the machine's, and
/// `theirs` the projection's. Returns the first fault (`nexts_fault`), or none if there is one next for each arm of the
/// machine, in order, and it names where both lead.
pub fn both_fault(
    nodes: &[DNode],
    source: EdgeSource,
    node: &DNode,
    arms: &[Arm],
    theirs: &[Arm],
) -> Option<DeriveFault>
    requires { HasLabelsOnce arms.now }
    ensures { result ≡ nexts_fault nodes.now source.keeps source.rank source.node (map (λ a. both_at node.now.pending a (arm_of theirs.now a.label)) arms.now) node.now.next 0 }
{
    let due = arms.len().min(node.next.as_slice().len());
    for place in 0..due {
        if let Some(fault) = made_fault(nodes, source, place as u32, node, arms, theirs) {
            return Some(fault);
        }
    }
    count_fault(source, due as u32, arms.len(), node.next.as_slice().len())
}

// The next for that arm of the projection's receive. No label stands at two arms, so there are at most 65,536 arms.
#[inline(always)]
fn followed_fault(
    nodes: &[DNode],
    source: EdgeSource,
    number: u32,
    node: &DNode,
    peer: Role,
    arms: &[Arm],
) -> Option<DeriveFault>
    ensures fault { result ≡ edge_at (λ b. owing_receive (spot_of node.now) peer b ∷ []) nodes.now source.keeps source.rank source.node number (slice_get arms.now number)
        (slice_get node.now.next number) }
    ensures label { (a : Arm) → slice_get arms.now number ≡ Some a → a.label.0 < 2 ^ 16 }
{
    let arm = arms.get(number as usize)?;
    let target = owing(node, peer, *arm);
    let next = node.next.as_slice().get(number as usize)?;
    edge_fault(nodes, source, number, *next, node, target)
}

// The next for that arm of the machine's send.
#[inline(always)]
fn made_fault(
    nodes: &[DNode],
    source: EdgeSource,
    number: u32,
    node: &DNode,
    arms: &[Arm],
    theirs: &[Arm],
) -> Option<DeriveFault>
    ensures fault { result ≡ edge_at (λ a. both_at node.now.pending a (arm_of theirs.now a.label)) nodes.now source.keeps source.rank source.node number (slice_get arms.now number)
        (slice_get node.now.next number) }
    ensures label { (a : Arm) → slice_get arms.now number ≡ Some a → a.label.0 < 2 ^ 16 }
{
    let arm = arms.get(number as usize)?;
    let their = arm_of(theirs, arm.label);
    let next = node.next.as_slice().get(number as usize)?;
    let Some(their) = their else {
        return Some(wrong_next(source, number));
    };
    let target = EdgeTarget {
        state: arm.next,
        change: Change::Same,
        above: their.next,
    };
    edge_fault(nodes, source, number, *next, node, target)
}

// Where passing that arm of the projection's receive leads to.
fn owing(node: &DNode, peer: Role, arm: Arm) -> EdgeTarget
    ensures spot { target_spot node.now.pending result ≡ owing_receive (spot_of node.now) peer arm }
    ensures within { IsPlaceWithin (length node.now.pending) result.change }
    ensures label { arm.label.0 < 2 ^ 16 }
{
    let act = Act::Takes {
        peer,
        label: arm.label,
        sort: arm.sort,
    };
    EdgeTarget {
        state: node.state,
        change: Change::With(act),
        above: arm.next,
    }
}

#[inline(always)]
fn edge_fault(
    nodes: &[DNode],
    source: EdgeSource,
    number: u32,
    next: u32,
    node: &DNode,
    target: EdgeTarget,
) -> Option<DeriveFault>
    requires { IsPlaceWithin (length node.now.pending) target.change }
    ensures { result ≡ edge_fault source.keeps source.rank source.node number (target_spot node.now.pending target ∷ []) (slice_get nodes.now next) }
{
    match nodes.get(next as usize) {
        None => Some(wrong_next(source, number)),
        Some(there) => {
            let named = is_target(there, node.pending.as_slice(), target);
            judge(source, number, named, there.rank)
        }
    }
}

fn guessed_fault(
    nodes: &[DNode],
    source: EdgeSource,
    next: u32,
    node: &DNode,
    peer: Role,
    arms: &[Arm],
) -> Option<DeriveFault>
    ensures { result ≡ edge_fault source.keeps source.rank source.node 0 (map (λ b. owing_send (spot_of node.now) peer b) arms.now) (slice_get nodes.now next) }
{
    match nodes.get(next as usize) {
        None => Some(wrong_next(source, 0)),
        Some(there) => judge(source, 0, is_guessed(there, node, peer, arms), there.rank),
    }
}

#[inline(always)]
fn judge(source: EdgeSource, arm: u32, named: bool, rank: u32) -> Option<DeriveFault>
    ensures { result ≡ fault_of_edge source.keeps source.rank source.node arm named rank }
{
    if !named {
        Some(wrong_next(source, arm))
    } else if source.keeps && rank >= source.rank {
        Some(DeriveFault::Forgets {
            node: source.node,
            arm,
        })
    } else {
        None
    }
}

// A next too many, or too few.
fn count_fault(source: EdgeSource, arm: u32, arms: usize, nexts: usize) -> Option<DeriveFault>
    ensures { result ≡ fault_of_count source.node arm arms nexts }
{
    if arms == nexts {
        None
    } else {
        Some(wrong_next(source, arm))
    }
}

/// Returns the fault `WrongNext` at `arm` if `rest`, the nexts after those that are due, isn't empty.
pub fn spare_fault(source: EdgeSource, arm: u32, rest: &[u32]) -> Option<DeriveFault>
    ensures { result ≡ spare source.node arm rest.now }
{
    if rest.is_empty() {
        None
    } else {
        Some(wrong_next(source, arm))
    }
}

fn wrong_next(source: EdgeSource, arm: u32) -> DeriveFault
    ensures { result ≡ WrongNext source.node arm }
{
    DeriveFault::WrongNext {
        node: source.node,
        arm,
    }
}
