//! The nodes of the derivation, from the numbered candidates.
ghost use Rattle.std.specs.Prelude.{◌≡◌, ◌<◌, ◌++◌, ◌∷◌, [], ℕ, IfOk, OnOk, length, if◌then◌else◌};
ghost use Rattle.rs_graph.specs.Lists.{Among};
ghost use Rattle.rs_derive.specs.Derivations.{spot_of};
ghost use Rattle.rs_search.specs.Nodes.{AreKept, AreNodes, node_at_spot};

use crate::table::SpotTable;
use rs_derive::DNode;
use rs_graph::NodeRow;
use rs_model::NoMemory;
use std::alloc::Global;

fn make_node(alloc: Global, at: &DNode, rank: u32, row: &NodeRow) -> Result<DNode, NoMemory>
    ensures { IfOk result (λ n. n ≡ node_at_spot (spot_of at.now) rank row.now) }
{
    Ok(DNode {
        state: at.state,
        pending: at.pending.copy(alloc)?,
        above: at.above,
        rank,
        next: row.copy(alloc)?,
    })
}

// Appends the node at a spot.
fn push_node(
    alloc: Global,
    nodes: &mut Vec<DNode>,
    at: &DNode,
    rank: u32,
    row: &NodeRow,
) -> Result<(), NoMemory>
    ensures { OnOk result (nodes.new.items ≡ nodes.old.items ++ node_at_spot (spot_of at.now) rank row.now ∷ []) }
{
    let node = make_node(alloc, at, rank, row)?;
    nodes.push(node)?;
    Ok(())
}

/// The node of each item, with a copy of what it owes.
pub fn nodes_of(
    alloc: Global,
    table: &SpotTable,
    items: &[u32],
    nexts: &[NodeRow],
    ranks: &[u32],
) -> Result<Vec<DNode>, NoMemory>
    requires within { (n : ℕ) → Among items.now n → n < length table.now.spots }
    requires nexts { length nexts.now ≡ length items.now }
    requires ranks { length ranks.now ≡ length items.now }
    ensures { IfOk result (λ v. AreNodes table.now.spots items.now nexts.now ranks.now (length items.now) v.items) }
{
    let mut nodes = Vec::new(alloc);
    for i in 0..items.len() {
        let at = table.node(items[i] as usize);
        push_node(alloc, &mut nodes, at, ranks[i], &nexts[i])?;
    }
    Ok(nodes)
}

/// The nexts of each item whose edges keep their head; nothing for the others.
pub fn kept_rows(
    alloc: Global,
    keeps: &[bool],
    items: &[u32],
    nexts: &[NodeRow],
) -> Result<Vec<NodeRow>, NoMemory>
    requires within { (n : ℕ) → Among items.now n → n < length keeps.now }
    requires nexts { length nexts.now ≡ length items.now }
    ensures { IfOk result (λ v. AreKept keeps.now items.now nexts.now (length items.now) v.items) }
{
    let mut kept = Vec::new(alloc);
    for i in 0..items.len() {
        kept.push(kept_row(alloc, keeps[items[i] as usize], &nexts[i])?)?;
    }
    Ok(kept)
}

fn kept_row(alloc: Global, keeps: bool, row: &NodeRow) -> Result<NodeRow, NoMemory>
    ensures { IfOk result (λ r. r ≡ (if keeps then row.now else [])) }
{
    if keeps {
        row.copy(alloc)
    } else {
        Ok(NodeRow::new(alloc))
    }
}
