//! Ranks of nodes: the greatest lengths of walks.
ghost use Rattle.std.specs.Prelude.{◌≡◌, ◌<◌, ◌≤◌, ◌+◌, ◌^◌, [], List, ℕ, IfOk, IfErr, OnOk, replicate, length, slice_get, slice_index_or, Some, true, false};
ghost use Rattle.rs_graph.specs.Lists.{Among};
ghost use Rattle.rs_graph.specs.Ranks.{Edge, IsOrdered};
ghost use Rattle.rs_graph.specs.RanksSoFar.{RankFits, Ranked};
ghost use Rattle.rs_graph.specs.Walks.{IsRank};
ghost use Rattle.rs_graph.specs.Unranked.{Unranks};

use crate::build::graph_of;
use crate::cycles::least_on_cycle;
use crate::graph::NodeRow;
use crate::removal::remove_uncounted;
use rs_model::NoMemory;
use std::alloc::Global;

// One more than the greatest rank of the row, and 0 for no row. The ranks are below the number.
fn top(row: &[u32], ranks: &[u32], below: usize) -> u32
    requires bounded { below < 2 ^ 32 }
    requires within { (j : ℕ) → Among row.now j → j < length ranks.now }
    requires low { (j : ℕ) → Among row.now j → slice_index_or ranks.now j 0 < below }
    ensures fits { RankFits row.now ranks.now result }
    ensures low { result ≤ below }
{
    let mut rank: u32 = 0;
    for i in 0..row.len() {
        rank = rank.max(ranks[row[i] as usize] + 1);
    }
    rank
}

/// The ranks along an order in which each number comes after all that its row leads to.
pub fn rank_all(alloc: Global, rows: &[NodeRow], order: &[u32]) -> Result<Vec<u32>, NoMemory>
    requires nodes { length rows.now < 2 ^ 32 }
    requires bounded { length order.now < 2 ^ 32 }
    requires ordered { IsOrdered rows.now order.now }
    ensures { IfOk result (λ v. Ranked rows.now order.now v.items (length order.now)) }
{
    let mut ranks: Vec<u32> = vec![in alloc; 0; rows.len()]?;
    for i in 0..order.len() {
        let n = order[i];
        let rank = top(rows[n as usize].as_slice(), ranks.as_slice(), i);
        ranks[n as usize] = rank;
    }
    Ok(ranks)
}

/// Why rows have no ranks.
#[derive(Drop, Debug)]
pub enum RankFault {
    /// Some number is on a cycle; this is the least such.
    OnCycle { node: u32 },
    /// Memory was refused.
    Memory,
}

/// The greatest length of a walk from each number; or the least number on a cycle.
pub fn rank_rows(alloc: Global, rows: &[NodeRow]) -> Result<Vec<u32>, RankFault>
    requires nodes { length rows.now + 1 < 2 ^ 32 }
    requires bounded { (n : ℕ) → length (slice_index_or rows.now n []) + 1 < 2 ^ 32 }
    requires within { (n r : ℕ) → Edge rows.now n r → r < length rows.now }
    ensures ranks { IfOk result (λ v. (i : ℕ) → IsRank (Edge rows.now) i (slice_index_or v.items i 0)) }
    ensures size { IfOk result (λ v. length v.items ≡ length rows.now) }
    ensures cycle { IfErr result (λ e. Unranks rows.now e) }
{
    let anys = match all_true(alloc, rows.len()) {
        Ok(anys) => anys,
        Err(_) => return Err(RankFault::Memory),
    };
    let graph = match graph_of(alloc, anys.as_slice(), rows) {
        Ok(graph) => graph,
        Err(_) => return Err(RankFault::Memory),
    };
    let left = match remove_uncounted(alloc, &graph) {
        Ok(left) => left,
        Err(_) => return Err(RankFault::Memory),
    };
    match least_on_cycle(alloc, rows, left.order.as_slice()) {
        Ok(Some(node)) => return Err(RankFault::OnCycle { node }),
        Ok(None) => {}
        Err(_) => return Err(RankFault::Memory),
    }
    match rank_all(alloc, rows, left.order.as_slice()) {
        Ok(ranks) => Ok(ranks),
        Err(_) => Err(RankFault::Memory),
    }
}

fn all_true(alloc: Global, count: usize) -> Result<Vec<bool>, NoMemory>
    ensures { IfOk result (λ v. v.items ≡ replicate count true) }
{
    Ok(vec![in alloc; true; count]?)
}
