//! The numbers behind each node, and the same the other way round.
ghost use Rattle.std.specs.Prelude.{◌≡◌, ◌<◌, ◌^◌, [], ℕ, length, replicate, if◌then◌else◌, IfOk, OnOk};
ghost use Rattle.std.specs.List.{All};
ghost use Rattle.rs_partings.specs.Rows.{LeadWithin, turned, with_back};
ghost use Rattle.rs_project.specs.Marks.{AreRows, nexts_of_node};
ghost use Rattle.rs_project.specs.Numbered.{nexts_of};

use rs_graph::NodeRow;
use rs_model::{Arm, NoMemory, Node, Protocol};
use std::alloc::Global;

/// A row for each node, with the numbers behind its arms where it is flagged.
pub fn rows_through(
    alloc: Global,
    protocol: &Protocol,
    through: &[bool],
) -> Result<Vec<NodeRow>, NoMemory>
    requires { length through.now ≡ length protocol.now.nodes }
    ensures { IfOk result (λ v. AreRows protocol.now through.now (length protocol.now.nodes) v.items) }
{
    let mut rows = Vec::new(alloc);
    for number in 0..through.len() {
        rows.push(row_of(alloc, &protocol.nodes[number], through[number])?)?;
    }
    Ok(rows)
}

fn row_of(alloc: Global, node: &Node, flagged: bool) -> Result<NodeRow, NoMemory>
    ensures { IfOk result (λ r. r ≡ if flagged then nexts_of_node node.now else []) }
{
    if !flagged {
        return Ok(NodeRow::new(alloc));
    }
    match node {
        Node::Finished => Ok(NodeRow::new(alloc)),
        Node::Talk { arms, .. } => nexts(alloc, arms.as_slice()),
    }
}

fn nexts(alloc: Global, arms: &[Arm]) -> Result<NodeRow, NoMemory>
    ensures { IfOk result (λ r. r ≡ nexts_of arms.now) }
{
    let mut row = NodeRow::new(alloc);
    for arm in arms {
        row.push(arm.next)?;
    }
    Ok(row)
}

/// For each number the rows that lead to it.
pub fn turn_round(alloc: Global, rows: &[NodeRow]) -> Result<Vec<NodeRow>, NoMemory>
    requires bounded { length rows.now < 2 ^ 32 }
    requires within { LeadWithin rows.now }
    ensures { IfOk result (λ v. v.items ≡ turned 0 rows.now (replicate (length rows.now) [])) }
{
    let mut back = empty_rows(alloc, rows.len())?;
    for number in 0..rows.len() {
        add_back(&mut back, number as u32, rows[number].as_slice())?;
    }
    Ok(back)
}

fn empty_rows(alloc: Global, count: usize) -> Result<Vec<NodeRow>, NoMemory>
    ensures { IfOk result (λ v. v.items ≡ replicate count []) }
{
    let mut rows = Vec::with_capacity(alloc, count)?;
    for number in 0..count {
        rows.push(NodeRow::new(alloc))?;
    }
    Ok(rows)
}

// The number becomes one more of each row to which its own leads.
fn add_back(back: &mut Vec<NodeRow>, number: u32, row: &[u32]) -> Result<(), NoMemory>
    requires { All (λ y. y < length back.old.items) row.now }
    ensures size { OnOk result (length back.new.items ≡ length back.old.items) }
    ensures rows { OnOk result (back.new.items ≡ with_back back.old.items number row.now) }
{
    for next in row {
        back[*next as usize].push(number)?;
    }
    Ok(())
}
