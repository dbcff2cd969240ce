//! Where a session could loop for ever without a role: found by two sweeps, or by the cycles of rows.
ghost use Rattle.std.specs.Prelude.{◌≡◌, ◌<◌, ◌≤◌, ◌&&◌, ℕ, [], true, false, length, slice_index_or, if◌then◌else◌, IfOk, MatchOption};
ghost use Rattle.rs_project.specs.Graph.{IsUnreached};
ghost use Rattle.rs_project.specs.Marks.{AreRows, IsLive, nexts_of_node};
ghost use Rattle.rs_project.specs.Numbered.{nexts_of};
ghost use Rattle.rs_project.specs.Refusals.{NoneUnreached};

use crate::peeling::sweep;
use crate::spreading::spread;
use crate::surveying::Survey;
use rs_graph::{NodeRow, least_on_cycle};
use rs_model::{Arm, NoMemory, Node, Protocol};
use std::alloc::Global;

/// The least node that the session may reach and then go round for ever, with the role left waiting. That there is none may
/// be known.
pub fn first_unreached(
    alloc: Global,
    survey: &Survey,
    is_none: bool,
) -> Result<Option<u32>, NoMemory>
    requires none { is_none ≡ true → NoneUnreached survey.now.protocol survey.now.role }
    ensures { IfOk result (λ o. MatchOption o (NoneUnreached survey.now.protocol survey.now.role) (λ node. IsUnreached survey.now.protocol survey.now.role node × ((n : ℕ)
        → IsUnreached survey.now.protocol survey.now.role n → node ≤ n))) }
{
    if is_none {
        return Ok(None);
    }
    if !may_go_round(alloc, survey)? {
        return Ok(None);
    }
    let live = live_nodes(alloc, survey)?;
    let rows = rows_of(alloc, survey.protocol, &live)?;
    least_on_cycle(alloc, &rows, &[])
}

// Whether some nodes that pass by the role are left by two sweeps: the second one sees what the first did to the nodes to
// which arms lead back.
fn may_go_round(alloc: Global, survey: &Survey) -> Result<bool, NoMemory>
    ensures { IfOk result (λ b. b ≡ false → NoneUnreached survey.now.protocol survey.now.role) }
{
    let mut left = Vec::from_slice(alloc, &survey.passing)?;
    if !sweep(survey.protocol, &mut left) {
        return Ok(false);
    }
    Ok(sweep(survey.protocol, &mut left))
}

// The nodes that pass by the role and are reached from the root.
fn live_nodes(alloc: Global, survey: &Survey) -> Result<Vec<bool>, NoMemory>
    ensures { IfOk result (λ v. IsLive survey.now.protocol survey.now.role v.items) }
{
    let protocol = survey.protocol;
    let every = vec![in alloc; true; protocol.nodes.len()]?;
    let reached = spread(alloc, protocol, &every, &[protocol.root])?;
    let live = common(alloc, &reached, &survey.passing)?;
    Ok(live)
}

fn common(alloc: Global, ours: &[bool], theirs: &[bool]) -> Result<Vec<bool>, NoMemory>
    requires { length ours.now ≡ length theirs.now }
    ensures size { IfOk result (λ v. length v.items ≡ length ours.now) }
    ensures each { IfOk result (λ v. (n : ℕ) → n < length ours.now → slice_index_or v.items n false ≡ (slice_index_or ours.now n false && slice_index_or theirs.now n false)) }
{
    let mut both = Vec::new(alloc);
    for i in 0..ours.len() {
        both.push(ours[i] && theirs[i])?;
    }
    Ok(both)
}

// A row for each node, with the numbers to which its arms lead, if the node is flagged.
fn rows_of(alloc: Global, protocol: &Protocol, flags: &[bool]) -> Result<Vec<NodeRow>, NoMemory>
    requires { length flags.now ≡ length protocol.now.nodes }
    ensures { IfOk result (λ v. AreRows protocol.now flags.now (length protocol.now.nodes) v.items) }
{
    let mut rows = Vec::new(alloc);
    for number in 0..flags.len() {
        rows.push(row_of(alloc, &protocol.nodes[number], flags[number])?)?;
    }
    Ok(rows)
}

fn row_of(alloc: Global, node: &Node, flagged: bool) -> Result<NodeRow, NoMemory>
    ensures { IfOk result (λ r. r ≡ if flagged then nexts_of_node node.now else []) }
{
    if !flagged {
        return Ok(NodeRow::new(alloc));
    }
    match node {
        Node::Finished => Ok(NodeRow::new(alloc)),
        Node::Talk { arms, .. } => nexts(alloc, arms.as_slice()),
    }
}

fn nexts(alloc: Global, arms: &[Arm]) -> Result<NodeRow, NoMemory>
    ensures { IfOk result (λ r. r ≡ nexts_of arms.now) }
{
    let mut row = NodeRow::new(alloc);
    for arm in arms {
        row.push(arm.next)?;
    }
    Ok(row)
}
