//! Numbers by first discovery: from a start by the moves at which the nodes stay.
ghost use Rattle.std.specs.Prelude.{◌≡◌, ◌≢◌, ◌<◌, ◌≤◌, ◌+◌, ◌^◌, [], ◌∷◌, ◌++◌, List, ℕ, OnOk, OnErr, IfOk, length, slice_get, slice_index_or, slice_set, Some};
ghost use Rattle.rs_graph.specs.Discovery.{IsDiscovery};
ghost use Rattle.rs_graph.specs.Naming.{AreNamed, IsNamed};
ghost use Rattle.rs_graph.specs.Lists.{Among};
ghost use Rattle.rs_graph.specs.Places.{IsPlaced, next_of};
ghost use Rattle.rs_graph.specs.Removal.{AreLeft, IsInto, at, moves_at};
ghost use Rattle.std.specs.List.{sum_by};

use crate::graph::{Graph, NodeRow};
use crate::steps::StepCount;
use rs_model::NoMemory;
use std::alloc::Global;
use std::sync::ledger::Ledger;

// The results of the move at which the node stays, in order.
fn read_move<L: Ledger>(
    alloc: Global,
    graph: &Graph,
    node: u32,
    place: u32,
    steps: &mut StepCount<L>,
) -> Result<NodeRow, NoMemory>
    requires present { node < length graph.now.outs }
    requires place { place < length (slice_index_or graph.now.outs node []) }
    requires bounded { length (slice_index_or (slice_index_or graph.now.outs node []) place []) < 2 ^ 32 }
    ensures row { IfOk result (λ row. row ≡ slice_index_or (slice_index_or graph.now.outs node []) place []) }
    ensures steps { IfOk result (λ row. steps.new ≡ steps.old + length row + 1) }
{
    let mut row = NodeRow::new(alloc);
    let mut nth: u32 = 0;
    while let Some(r) = graph.out(node, place, nth, steps) {
        row.push(r)?;
        nth += 1;
    }
    Ok(row)
}

// The number of a node, which is added where it has none.
fn number_of(items: &mut Vec<u32>, places: &mut Vec<Option<u32>>, y: u32) -> Result<u32, NoMemory>
    requires present { y < length places.old.items }
    requires bounded { length places.old.items < 2 ^ 32 }
    requires placed { IsPlaced items.old.items places.old.items }
    ensures named { IfOk result (IsNamed items.old.items y items.new.items) }
    ensures placed { OnOk result (IsPlaced items.new.items places.new.items) }
    ensures size { OnOk result (length places.new.items ≡ length places.old.items) }
{
    match places[y as usize] {
        Some(n) => Ok(n),
        None => {
            let n = items.len();
            items.push(y)?;
            places[y as usize] = Some(n as u32);
            Ok(n as u32)
        }
    }
}

// The numbers of nodes, of which the new ones are added.
fn name_all(
    alloc: Global,
    items: &mut Vec<u32>,
    places: &mut Vec<Option<u32>>,
    ys: &[u32],
) -> Result<NodeRow, NoMemory>
    requires within { (y : ℕ) → Among ys.now y → y < length places.old.items }
    requires bounded { length places.old.items < 2 ^ 32 }
    requires placed { IsPlaced items.old.items places.old.items }
    ensures named { IfOk result (AreNamed items.old.items ys.now items.new.items) }
    ensures placed { OnOk result (IsPlaced items.new.items places.new.items) }
    ensures size { OnOk result (length places.new.items ≡ length places.old.items) }
{
    let mut numbers = NodeRow::new(alloc);
    for i in 0..ys.len() {
        let n = number_of(items, places, ys[i])?;
        numbers.push(n)?;
    }
    Ok(numbers)
}

/// The nodes that node 0 reaches if each node takes one fixed move, numbered anew in order of first discovery
/// (`IsDiscovery`).
#[derive(Drop, Debug)]
pub struct NumberedNodes {
    /// At each new number: the number of that node in the graph.
    pub items: Vec<u32>,
    /// At each new number: the new numbers of the results of that node's move, in order.
    pub nexts: Vec<NodeRow>,
}

/// Numbers the nodes that are reached from node 0 by the moves at which they stay, in order of first discovery. Counts
/// one step for each node and one for each result of its move.
pub fn number_all<L: Ledger>(
    alloc: Global,
    graph: &Graph,
    current: &[u32],
    steps: &mut StepCount<L>,
) -> Result<NumberedNodes, NoMemory>
    requires nodes { length graph.now.outs < 2 ^ 32 }
    requires into { IsInto graph.now.outs graph.now.intos }
    requires left { AreLeft graph.now.outs current.now }
    requires short { (n : ℕ) → length (next_of graph.now.outs current.now n) < 2 ^ 32 }
    ensures found { IfOk result (λ d. IsDiscovery (next_of graph.now.outs current.now) 0 d.items.items d.nexts.items) }
    ensures bounded { IfOk result (λ d. length d.items.items ≤ length graph.now.outs) }
    ensures stay { IfOk result (λ d. (i n : ℕ) → slice_get d.items.items i ≡ Some n → at current.now n < moves_at graph.now.outs n) }
    ensures steps { IfOk result (λ d. steps.new ≡ steps.old + sum_by (λ n. length (next_of graph.now.outs current.now n) + 1) d.items.items) }
{
    let mut places: Vec<Option<u32>> = vec![in alloc; None; graph.nodes()]?;
    let mut items: Vec<u32> = Vec::new(alloc);
    number_of(&mut items, &mut places, 0)?;
    let mut nexts: Vec<NodeRow> = Vec::new(alloc);
    while nexts.len() < items.len() {
        let n = items[nexts.len()];
        let row = read_move(alloc, graph, n, current[n as usize], steps)?;
        let next = name_all(alloc, &mut items, &mut places, row.as_slice())?;
        nexts.push(next)?;
    }
    Ok(NumberedNodes { items, nexts })
}
