//! The checker: start, nodes, moves and ranks of a derivation, down to its first fault.
ghost use Rattle.std.specs.Prelude.{◌≡◌, ◌<◌, ◌≤◌, ◌^◌, length, slice_get, None, Some, OnOk, IfErr};
ghost use Rattle.rs_model.specs.declared.limits.TheConstants.{MOST_BOUND};
ghost use Rattle.rs_derive.specs.Checks.{derive_fault, node_fault, move_fault, state_fault, length_fault};
ghost use Rattle.rs_derive.specs.Nodes.{starts};
ghost use Rattle.rs_derive.specs.Derivations.{IsProper, IsDerivation, Remembers, spot_of};
ghost use Rattle.rs_derive.specs.Due.{due, due_at, due_by};
ghost use Rattle.rs_derive.specs.Faults.{first_fault};
ghost use Rattle.rs_derive.specs.Rules.{RuleFits};
ghost use Rattle.rs_derive.specs.Within.{HasLabelsOnce, IsOnceAt};
ghost use Rattle.rs_derive.specs.declared.targets.Change.TheVariants.{Without};

use crate::nexts::{EdgeSource, both_fault, follow_fault, guess_fault, one_fault, spare_fault};
use crate::rules::{arms_at, rule_at};
use crate::targets::{Change, EdgeTarget};
use crate::{DNode, Derivation, DeriveFault, Rule};
use rs_model::{Arm, Machine, State};

/// Tests that the derivation shows how the machine `sub` may replace its projection `above`, and that nothing owed is
/// forgotten: that it starts at both starts with nothing pending, that each node names states, owes no more than
/// the bound, has a move and names the move's results in order, and that the rank falls on each edge that keeps the
/// oldest pending act.
///
/// The error is the first fault in this order: the start; then node by node the states, the length, the move, and arm
/// by arm the next and the rank. Allocates nothing, and reads each node and edge once.
pub fn check(derivation: &Derivation, sub: &Machine, above: &Machine) -> Result<(), DeriveFault>
    requires sub { IsProper sub.now }
    requires above { IsProper above.now }
    requires bound { (1 ≤ derivation.now.bound) × (derivation.now.bound ≤ MOST_BOUND) }
    requires nodes { length derivation.now.nodes < 2 ^ 32 }
    ensures derivation { OnOk result (IsDerivation derivation.now sub.now above.now) }
    ensures remembers { OnOk result (Remembers derivation.now sub.now above.now) }
    ensures none { OnOk result (first_fault derivation.now sub.now above.now ≡ None) }
    ensures err { IfErr result (λ e. first_fault derivation.now sub.now above.now ≡ Some e) }
{
    match first_fault(derivation, sub, above) {
        Some(fault) => Err(fault),
        None => Ok(()),
    }
}

fn first_fault(derivation: &Derivation, sub: &Machine, above: &Machine) -> Option<DeriveFault>
    requires sub { IsProper sub.now }
    requires above { IsProper above.now }
    requires nodes { length derivation.now.nodes < 2 ^ 32 }
    ensures { result ≡ derive_fault derivation.now sub.now above.now }
{
    if !starts(&derivation.nodes, sub, above) {
        return Some(DeriveFault::BadStart);
    }
    for (number, node) in derivation.nodes.iter().enumerate() {
        if let Some(fault) = node_fault(derivation, sub, above, number as u32, node) {
            return Some(fault);
        }
    }
    None
}

fn starts(nodes: &[DNode], sub: &Machine, above: &Machine) -> bool
    ensures { result ≡ starts sub.now above.now nodes.now }
{
    match nodes {
        [] => false,
        [first, ..] => {
            first.state == sub.start
                && first.above == above.start
                && first.pending.as_slice().is_empty()
        }
    }
}

#[inline(always)]
fn node_fault(
    derivation: &Derivation,
    sub: &Machine,
    above: &Machine,
    number: u32,
    node: &DNode,
) -> Option<DeriveFault>
    requires sub { IsProper sub.now }
    requires above { IsProper above.now }
    ensures { result ≡ node_fault derivation.now sub.now above.now number node.now }
{
    let Some(state) = sub.states.get(node.state as usize) else {
        return Some(DeriveFault::BadState { node: number });
    };
    let Some(there) = above.states.get(node.above as usize) else {
        return Some(DeriveFault::BadState { node: number });
    };
    if node.pending.as_slice().len() > derivation.bound as usize {
        return Some(DeriveFault::TooLongPending { node: number });
    }
    next_fault(&derivation.nodes, number, node, state, there)
}

// The node names these states.
#[inline(always)]
fn next_fault(
    nodes: &[DNode],
    number: u32,
    node: &DNode,
    state: &State,
    there: &State,
) -> Option<DeriveFault>
    requires ours { IsOnceAt state.now }
    requires theirs { IsOnceAt there.now }
    ensures { result ≡ move_fault nodes.now number node.now (due_at (spot_of node.now) (Some state.now) (Some there.now)) }
{
    match rule_at(&node.pending, state, there) {
        None => Some(DeriveFault::NoMove { node: number }),
        Some(rule) => rule_fault(nodes, number, node, rule, arms_at(state), arms_at(there)),
    }
}

// The rule applies at the node.
#[inline(always)]
fn rule_fault(
    nodes: &[DNode],
    number: u32,
    node: &DNode,
    rule: Rule,
    arms: &[Arm],
    theirs: &[Arm],
) -> Option<DeriveFault>
    requires ours { HasLabelsOnce arms.now }
    requires theirs { HasLabelsOnce theirs.now }
    requires fits { RuleFits node.now.pending arms.now theirs.now rule }
    ensures { result ≡ move_fault nodes.now number node.now (Some (due_by (spot_of node.now) arms.now theirs.now rule)) }
{
    let source = EdgeSource {
        node: number,
        rank: node.rank,
        keeps: rule.keeps_head(&node.pending),
    };
    match rule {
        Rule::Stops => spare_fault(source, 0, node.next.as_slice()),
        Rule::Pays { place, arm } => one_fault(
            nodes,
            source,
            node,
            target_behind_payment(node, place, arm),
        ),
        Rule::SendsBoth => both_fault(nodes, source, node, arms, theirs),
        Rule::Guesses { peer } => guess_fault(nodes, source, node, peer, theirs),
        Rule::Follows { peer } => follow_fault(nodes, source, node, peer, theirs),
    }
}

// Where making the act at the place leads, by that arm.
fn target_behind_payment(node: &DNode, place: usize, arm: Arm) -> EdgeTarget
    ensures state { result.state ≡ arm.next }
    ensures change { result.change ≡ Without place }
    ensures above { result.above ≡ node.now.above }
{
    EdgeTarget {
        state: arm.next,
        change: Change::Without(place),
        above: node.above,
    }
}
