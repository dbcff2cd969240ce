//! Where an edge leads, described by what changes, so that a node is compared with it without making a list.
ghost use Rattle.std.specs.Prelude.{◌≡◌, ◌↔◌, IsTrue, ◌<◌, ◌≤◌, ◌∷◌, ◌++◌, [], length, map};
ghost use Rattle.rs_prefix.specs.Earliest.{without};
ghost use Rattle.rs_derive.specs.Nodes.{names};
ghost use Rattle.rs_derive.specs.Targets.{same_act, same_acts, same_spot, owed_behind, target_spot};
ghost use Rattle.rs_derive.specs.Derivations.{spot_of};
ghost use Rattle.rs_derive.specs.Moves.{owing_send};
ghost use Rattle.rs_derive.specs.Within.{IsPlaceWithin};

use crate::DNode;
use rs_model::{Act, Arm, Role};

/// What a move does to the pending acts, that is, to those that the machine owes.
#[derive(Clone, Copy, Debug, PartialEq, Eq)]
pub enum Change {
    /// The same acts are owed as before.
    Same,
    /// The act at this place, from 0, is made, and no longer owed.
    Without(usize),
    /// This act is owed, too, after the others.
    With(Act),
}

/// Where an edge leads from a node: a state of the machine, what becomes of the node's pending acts, and a state of
/// the projection.
#[derive(Clone, Copy, Debug, PartialEq, Eq)]
pub struct EdgeTarget {
    /// The number of the machine's state.
    pub state: u32,
    /// What becomes of the pending acts of the node that the edge leaves.
    pub change: Change,
    /// The number of the projection's state.
    pub above: u32,
}

/// Returns whether `next` is the node to which the edge leads from a node with these pending acts. Allocates nothing.
#[inline(always)]
pub fn is_target(next: &DNode, pending: &[Act], target: EdgeTarget) -> bool
    requires { IsPlaceWithin (length pending.now) target.change }
    ensures { result ≡ same_spot (spot_of next.now) (target_spot pending.now target) }
{
    next.state == target.state
        && next.above == target.above
        && is_changed(next.pending.as_slice(), pending, target.change)
}

/// Returns whether `next` is a node to which `node` leads if it passes one of the projection's sends to `peer`: one that
/// owes, in addition, the send of one of the arms.
pub fn is_guessed(next: &DNode, node: &DNode, peer: Role, arms: &[Arm]) -> bool
    ensures { result ≡ names next.now (map (λ b. owing_send (spot_of node.now) peer b) arms.now) }
{
    for arm in arms {
        if is_owing_send(next, node, peer, *arm) {
            return true;
        }
    }
    false
}

fn is_owing_send(next: &DNode, node: &DNode, peer: Role, arm: Arm) -> bool
    ensures { result ≡ same_spot (spot_of next.now) (owing_send (spot_of node.now) peer arm) }
{
    let act = Act::Puts {
        peer,
        label: arm.label,
        sort: arm.sort,
    };
    let target = EdgeTarget {
        state: node.state,
        change: Change::With(act),
        above: arm.next,
    };
    is_target(next, node.pending.as_slice(), target)
}

#[inline(always)]
fn is_changed(acts: &[Act], pending: &[Act], change: Change) -> bool
    requires { IsPlaceWithin (length pending.now) change }
    ensures { result ≡ same_acts acts.now (owed_behind pending.now change) }
{
    match change {
        Change::Same => same_acts(acts, pending),
        Change::Without(place) => is_without(acts, pending, place),
        Change::With(act) => is_with(acts, pending, act),
    }
}

#[inline(always)]
fn is_without(acts: &[Act], pending: &[Act], place: usize) -> bool
    requires { place < length pending.now }
    ensures { result ≡ same_acts acts.now (without pending.now place) }
{
    if pending.len() == 1 {
        return acts.is_empty();
    }
    let (front, rest) = pending.split_at(place);
    let (_, back) = rest.split_at(1);
    is_joined(acts, front, back)
}

#[inline(always)]
fn is_with(acts: &[Act], pending: &[Act], act: Act) -> bool
    ensures { result ≡ same_acts acts.now (pending.now ++ act ∷ []) }
{
    match (acts, pending) {
        ([only], []) => *only == act,
        _ => is_joined(acts, pending, &[act]),
    }
}

fn is_joined(acts: &[Act], front: &[Act], back: &[Act]) -> bool
    ensures { result ≡ same_acts acts.now (front.now ++ back.now) }
{
    if acts.len() < front.len() {
        return false;
    }
    let (ours, later) = acts.split_at(front.len());
    same_acts(ours, front) && same_acts(later, back)
}

/// Returns whether both lists have the same acts in the same order.
pub fn same_acts(acts: &[Act], others: &[Act]) -> bool
    ensures { result ≡ same_acts acts.now others.now }
{
    are_equal(acts, others)
}

// The same, by as few steps as there are acts.
fn are_equal(acts: &[Act], others: &[Act]) -> bool
    ensures { IsTrue result ↔ (acts.now ≡ others.now) }
{
    if acts.len() != others.len() {
        return false;
    }
    for i in 0..acts.len() {
        if acts[i] != others[i] {
            return false;
        }
    }
    true
}
