//! Talks of a walk that lie on one way of the protocol.

ghost use Rattle.std.specs.Prelude.{◌≡◌, ◌&&◌, ◌||◌, IfOk, not, length, replicate, slice_index_or, slice_set, false, true};
ghost use Rattle.rs_walk_texts.specs.OneWay as spec;

use crate::passed::TalkArm;
use rs_model::{Arm, NoMemory, Node, Role};
use std::alloc::Global;

fn is_own(node: &Node, role: Role) -> bool
    ensures { result ≡ spec.is_own role node.now }
{
    match node {
        Node::Finished => false,
        Node::Talk {
            sender,
            receiver,
            ..
        } => sender.0 == role.0 || receiver.0 == role.0,
    }
}

/// The flag of the node; none stands where there is no such node.
pub(crate) fn flag_at(flags: &[bool], number: u32) -> bool
    ensures { result ≡ slice_index_or flags.now number false }
{
    match flags.get(number as usize) {
        Some(flag) => *flag,
        None => false,
    }
}

fn any_on(flags: &[bool], arms: &[Arm]) -> bool
    ensures { result ≡ spec.any_on flags.now arms.now }
{
    for arm in arms {
        if flag_at(flags, arm.next) {
            return true;
        }
    }
    false
}

// Whether an arm of the node leads to a flagged one.
fn leads_on(flags: &[bool], node: &Node) -> bool
    ensures { result ≡ spec.leads_on flags.now node.now }
{
    match node {
        Node::Finished => false,
        Node::Talk { arms, .. } => any_on(flags, arms.as_slice()),
    }
}

// Whether the node is flagged after the flags spread: its flag is set, or it is a talk of others of which an arm leads to a
// flagged node.
fn is_flagged_next(flags: &[bool], flag: bool, node: &Node, role: Role) -> bool
    ensures { result ≡ (flag || (not (spec.is_own role node.now) && spec.leads_on flags.now node.now)) }
{
    flag || !is_own(node, role) && leads_on(flags, node)
}

// The flags, and those of the talks of others of which an arm leads to a flagged node.
fn spread(alloc: Global, nodes: &[Node], role: Role, flags: &[bool]) -> Result<Vec<bool>, NoMemory>
    requires { length flags.now ≡ length nodes.now }
    ensures { IfOk result (λ v. v.items ≡ spec.spread_over role flags.now nodes.now flags.now) }
{
    let mut next = Vec::with_capacity(alloc, nodes.len())?;
    for n in 0..nodes.len() {
        next.push(is_flagged_next(flags, flags[n], &nodes[n], role))?;
    }
    Ok(next)
}

fn are_same(one: &[bool], other: &[bool]) -> bool
    requires { length one.now ≡ length other.now }
    ensures { result ≡ true → one.now ≡ other.now }
{
    for n in 0..one.len() {
        if one[n] != other[n] {
            return false;
        }
    }
    true
}

// The flag of the talk alone.
fn only(alloc: Global, count: usize, talk: usize) -> Result<Vec<bool>, NoMemory>
    ensures { IfOk result (λ v. v.items ≡ slice_set (replicate count false) talk true) }
{
    let mut flags = vec![in alloc; false; count]?;
    if talk < count {
        flags[talk] = true;
    }
    Ok(flags)
}

/// Of each node whether the role may meet the talk first from it.
pub(crate) fn meeting(
    alloc: Global,
    nodes: &[Node],
    role: Role,
    talk: usize,
) -> Result<Vec<bool>, NoMemory>
    ensures { IfOk result (λ v. v.items ≡ spec.meeting nodes.now role talk) }
{
    let mut flags = only(alloc, nodes.len(), talk)?;
    for count in 0..nodes.len() {
        let next = spread(alloc, nodes, role, flags.as_slice())?;
        if are_same(next.as_slice(), flags.as_slice()) {
            return Ok(flags);
        }
        flags = next;
    }
    Ok(flags)
}
