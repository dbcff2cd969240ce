//! Round which talks a session can go while a role is left waiting.
ghost use Rattle.std.specs.Prelude.{◌≡◌, ◌<◌, ◌^◌, ◌&&◌, ℕ, false, length, slice_get, slice_index_or, Some, IfOk};
ghost use Rattle.std.specs.List.{All};
ghost use Rattle.rs_model.specs.declared.graph.Node.{Node};
ghost use Rattle.rs_partings.specs.Waiting.{AreWaitingRound};
ghost use Rattle.rs_project.specs.Marks.{LeadsWithin, any_on, leads_on};
ghost use Rattle.rs_wellformed.specs.WellFormed.{IsWellFormed};

use crate::spreading::{flagged_numbers, reached_through, reaching_through};
use crate::surveying::{only, survey_of};
use rs_model::{Arm, NoMemory, Node, Protocol, Role};
use std::alloc::Global;

/// The talks on cycles through the node whose nodes all pass by the role, by their numbers, rising. Where the role is left
/// waiting at the node, as a projection's fault says, it is one of them.
///
/// The work is linear in the nodes and their arms. The error is want of memory.
pub fn waiting_round(
    alloc: Global,
    protocol: &Protocol,
    role: Role,
    node: u32,
) -> Result<Vec<u32>, NoMemory>
    requires well_formed { IsWellFormed protocol.now }
    requires bounded { length protocol.now.nodes < 2 ^ 32 }
    ensures { IfOk result (λ v. AreWaitingRound protocol.now role node v.items) }
{
    let passing = survey_of(alloc, protocol, role)?.passing;
    let here = only(alloc, protocol.nodes.len(), node)?;
    let there = reached_through(alloc, protocol, &passing, &here)?;
    let back = reaching_through(alloc, protocol, &passing, &here)?;
    let round = both_ways(alloc, protocol, &passing, &there, &back)?;
    flagged_numbers(alloc, &round)
}

// The nodes that are flagged twice, and lead to one that is flagged for the way back.
fn both_ways(
    alloc: Global,
    protocol: &Protocol,
    passing: &[bool],
    there: &[bool],
    back: &[bool],
) -> Result<Vec<bool>, NoMemory>
    requires well_formed { IsWellFormed protocol.now }
    requires passing { length passing.now ≡ length protocol.now.nodes }
    requires there { length there.now ≡ length protocol.now.nodes }
    requires back { length back.now ≡ length protocol.now.nodes }
    ensures size { IfOk result (λ v. length v.items ≡ length protocol.now.nodes) }
    ensures each { IfOk result (λ v. (n : ℕ) (node : Node) → slice_get protocol.now.nodes n ≡ Some node
        → slice_index_or v.items n false ≡ (slice_index_or passing.now n false && (slice_index_or there.now n false && leads_on back.now node))) }
{
    let mut flags = Vec::new(alloc);
    for i in 0..passing.len() {
        flags.push(passing[i] && there[i] && leads_on(&protocol.nodes[i], back))?;
    }
    Ok(flags)
}

// Whether an arm of the node leads to a flagged one.
fn leads_on(node: &Node, flags: &[bool]) -> bool
    requires { LeadsWithin (length flags.now) node.now }
    ensures { result ≡ leads_on flags.now node.now }
{
    match node {
        Node::Finished => false,
        Node::Talk { arms, .. } => has_next_on(arms.as_slice(), flags),
    }
}

fn has_next_on(arms: &[Arm], flags: &[bool]) -> bool
    requires { All (λ a. a.next < length flags.now) arms.now }
    ensures { result ≡ any_on flags.now arms.now }
{
    for arm in arms {
        if flags[arm.next as usize] {
            return true;
        }
    }
    false
}
