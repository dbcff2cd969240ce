//! The graph of numbered items.
ghost use Rattle.std.specs.Prelude.{◌≡◌, ◌<◌, ◌≤◌, ◌+◌, ◌^◌, [], ◌∷◌, List, ℕ, IfOk, OnOk, length, map, slice_get, slice_index_or, take, Some, true, false, replicate};
ghost use Rattle.rs_graph.specs.Lists.{Among};
ghost use Rattle.rs_graph.specs.Removal.{IsInto};
ghost use Rattle.rs_graph.specs.Built.{IsBuilt};
ghost use Rattle.rs_graph.specs.Filling.{IsFilled};
ghost use Rattle.rs_graph.specs.Graphs.{moves_of};

use crate::graph::{Graph, NodeRow};
use rs_model::NoMemory;
use std::alloc::Global;

// Gives the node a move for each number.
fn fill_any(graph: &mut Graph, node: u32, row: &[u32]) -> Result<(), NoMemory>
    requires present { node < length graph.old.outs }
    requires empty { slice_index_or graph.old.outs node [] ≡ [] }
    requires bounded { length row.now + 1 < 2 ^ 32 }
    requires within { (r : ℕ) → Among row.now r → r < length graph.old.outs }
    requires into { IsInto graph.old.outs graph.old.intos }
    ensures { OnOk result (IsFilled graph.old graph.new node (moves_of true row.now)) }
{
    for i in 0..row.len() {
        let place = graph.add_move(node)?;
        graph.add_edge(node, place, row[i])?;
    }
    Ok(())
}

// Gives the node one move to all the numbers.
fn fill_all(graph: &mut Graph, node: u32, row: &[u32]) -> Result<(), NoMemory>
    requires present { node < length graph.old.outs }
    requires empty { slice_index_or graph.old.outs node [] ≡ [] }
    requires bounded { length row.now + 1 < 2 ^ 32 }
    requires within { (r : ℕ) → Among row.now r → r < length graph.old.outs }
    requires into { IsInto graph.old.outs graph.old.intos }
    ensures { OnOk result (IsFilled graph.old graph.new node (moves_of false row.now)) }
{
    graph.add_move(node)?;
    for i in 0..row.len() {
        graph.add_edge(node, 0, row[i])?;
    }
    Ok(())
}

fn fill(graph: &mut Graph, node: u32, any: bool, row: &[u32]) -> Result<(), NoMemory>
    requires present { node < length graph.old.outs }
    requires empty { slice_index_or graph.old.outs node [] ≡ [] }
    requires bounded { length row.now + 1 < 2 ^ 32 }
    requires within { (r : ℕ) → Among row.now r → r < length graph.old.outs }
    requires into { IsInto graph.old.outs graph.old.intos }
    ensures { OnOk result (IsFilled graph.old graph.new node (moves_of any row.now)) }
{
    if any {
        fill_any(graph, node, row)
    } else {
        fill_all(graph, node, row)
    }
}

// A graph of n nodes without moves.
fn bare(alloc: Global, count: usize) -> Result<Graph, NoMemory>
    requires { count + 1 < 2 ^ 32 }
    ensures outs { IfOk result (λ g. g.outs ≡ replicate count []) }
    ensures intos { IfOk result (λ g. g.intos ≡ replicate count []) }
{
    let mut graph = Graph::new(alloc);
    for i in 0..count {
        graph.add_node()?;
    }
    Ok(graph)
}

/// Makes the graph of these rows: a node that may choose has one move for each number of its row, any other node has one
/// move to all of them.
pub fn graph_of(alloc: Global, anys: &[bool], rows: &[NodeRow]) -> Result<Graph, NoMemory>
    requires nodes { length rows.now + 1 < 2 ^ 32 }
    requires anys { length anys.now ≡ length rows.now }
    requires bounded { (n : ℕ) → length (slice_index_or rows.now n []) + 1 < 2 ^ 32 }
    requires within { (n r : ℕ) → Among (slice_index_or rows.now n []) r → r < length rows.now }
    ensures { IfOk result (λ g. IsBuilt anys.now rows.now (length rows.now) g) }
{
    let mut graph = bare(alloc, rows.len())?;
    for i in 0..rows.len() {
        let row = rows[i].as_slice();
        fill(&mut graph, i as u32, anys[i], row)?;
    }
    Ok(graph)
}
