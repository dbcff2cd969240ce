//! The first parting, told by flags of the nodes.
ghost use Rattle.std.specs.Prelude.{◌≡◌, ◌<◌, ◌≤◌, ◌^◌, ◌&&◌, not, false, None, length, slice_index_or, if◌then◌else◌};
ghost use Rattle.std.specs.List.{All};
ghost use Rattle.rs_partings.specs.Searching.{arm_toward, parting_by, parting_of_arms, parting_of_nodes};
ghost use Rattle.rs_project.specs.Marks.{LeadsWithin, arms_of_node};
ghost use Rattle.rs_wellformed.specs.WellFormed.{IsWellFormed};

use rs_model::{Arm, Node, Protocol};

/// The choice at which the ways part to two members of a front: the number of a talk that doesn't involve the role, and the
/// places of two of its arms. One leads toward the first member and not toward the second, the other toward the second.
#[derive(Clone, Copy, Debug, PartialEq, Eq)]
pub struct Parting {
    pub talk: u32,
    pub one: u32,
    pub other: u32,
}

/// The first parting of all nodes that are flagged, between arms that lead to nodes flagged for the one way and the other.
pub fn first_parting(
    protocol: &Protocol,
    here: &[bool],
    ones: &[bool],
    others: &[bool],
) -> Option<Parting>
    requires well_formed { IsWellFormed protocol.now }
    requires bounded { length protocol.now.nodes < 2 ^ 32 }
    requires here { length here.now ≡ length protocol.now.nodes }
    requires ones { length ones.now ≡ length protocol.now.nodes }
    requires others { length others.now ≡ length protocol.now.nodes }
    ensures { result ≡ parting_of_nodes here.now ones.now others.now 0 protocol.now.nodes }
{
    for number in 0..protocol.nodes.len() {
        let node = &protocol.nodes[number];
        if let Some(found) = node_parting(number as u32, here[number], node, ones, others) {
            return Some(found);
        }
    }
    None
}

// The first parting at the node, where it is flagged.
fn node_parting(
    number: u32,
    here: bool,
    node: &Node,
    ones: &[bool],
    others: &[bool],
) -> Option<Parting>
    requires few { length (arms_of_node node.now) ≤ 32 }
    requires ones { LeadsWithin (length ones.now) node.now }
    requires others { LeadsWithin (length others.now) node.now }
    ensures { result ≡ if here then parting_of_arms ones.now others.now number (arms_of_node node.now) 0 (arms_of_node node.now) else None }
{
    if !here {
        return None;
    }
    match node {
        Node::Finished => None,
        Node::Talk { arms, .. } => arms_parting(number, arms.as_slice(), ones, others),
    }
}

fn arms_parting(talk: u32, arms: &[Arm], ones: &[bool], others: &[bool]) -> Option<Parting>
    requires few { length arms.now ≤ 32 }
    requires ones { All (λ a. a.next < length ones.now) arms.now }
    requires others { All (λ a. a.next < length others.now) arms.now }
    ensures { result ≡ parting_of_arms ones.now others.now talk arms.now 0 arms.now }
{
    for place in 0..arms.len() {
        if let Some(found) = arm_parting(talk, arms, place, &arms[place], ones, others) {
            return Some(found);
        }
    }
    None
}

// The parting at this arm, which leads to a node flagged for the one way alone, and the first one for the other way.
fn arm_parting(
    talk: u32,
    arms: &[Arm],
    one: usize,
    arm: &Arm,
    ones: &[bool],
    others: &[bool],
) -> Option<Parting>
    requires few { length arms.now ≤ 32 }
    requires place { one < length arms.now }
    requires arm { arm.now.next < length ones.now }
    requires also { arm.now.next < length others.now }
    requires others { All (λ a. a.next < length others.now) arms.now }
    ensures { result ≡ parting_by ones.now others.now talk arms.now one arm.now }
{
    if !ones[arm.next as usize] || others[arm.next as usize] {
        return None;
    }
    let other = arm_toward(arms, others)?;
    Some(Parting {
        talk,
        one: one as u32,
        other,
    })
}

// The place of the first arm that leads to a flagged node.
fn arm_toward(arms: &[Arm], flags: &[bool]) -> Option<u32>
    requires few { length arms.now ≤ 32 }
    requires flags { All (λ a. a.next < length flags.now) arms.now }
    ensures { result ≡ arm_toward flags.now 0 arms.now }
{
    for place in 0..arms.len() {
        if flags[arms[place].next as usize] {
            return Some(place as u32);
        }
    }
    None
}
