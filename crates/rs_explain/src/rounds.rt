//! How the canonical derivation forgets an act that is owed: a way leads round, on which it is never made.
ghost use Rattle.std.specs.Prelude.{◌≡◌, ◌<◌, ◌≤◌, [], ℕ, List, IfOk, length, slice_get, slice_index_or, Some, None};
ghost use Rattle.rs_derive.specs.Derivations.{IsProper, spot_of};
ghost use Rattle.rs_derive.specs.Moves.{Spot};
ghost use Rattle.rs_explain.specs.Distances.{far_at};
ghost use Rattle.rs_explain.specs.Forgetting.{IsForgetting, IsKeepingStep, IsRound};
ghost use Rattle.rs_explain.specs.KeptNodes.{AreKeptNodes, AreNumberedNodes, least_of, lesser, spots_at};
ghost use Rattle.rs_explain.specs.OnWay.{AreCharted, IsStepTo};
ghost use Rattle.rs_explain.specs.Walks.{IsFirst, WalkStep_data};
ghost use Rattle.rs_graph.specs.Lists.{Among};
ghost use Rattle.rs_graph.specs.Removal.{at};
ghost use Rattle.rs_search.specs.Canonical.{IsForgets};

use crate::distances::distances;
use crate::explaining::WalkStep;
use crate::kept::{KeptNodes, kept_nodes};
use crate::walking::{first_at, step_to};
use rs_derive::DNode;
use rs_graph::graph_of;
use rs_model::{Machine, NoMemory};
use rs_prefix::Pending;
use rs_search::{SpotTable, candidates_of};
use std::alloc::Global;
use std::marker::Model;

/// A spot at which an act is owed, and steps that lead round from it and never make the oldest one.
#[derive(Drop, Debug)]
pub struct Forgetting {
    /// The state of the machine at the spot.
    pub state: u32,
    /// What the machine owes there, the oldest first.
    pub pending: Pending,
    /// The state of the projection there.
    pub above: u32,
    pub steps: Vec<WalkStep>,
}

impl Model for Forgetting {
    ghost use Rattle.rs_derive.specs.Moves.{spot};
    ghost use Rattle.rs_explain.specs.Forgetting.{Forgetting_data};

    ghost Value = { Forgetting_data };

    ghost view = { λ f. record { spot = spot f.state f.pending f.above; steps = f.steps.items } };
}

/// A step, and the number of the node behind it.
#[derive(Drop)]
pub struct Onward {
    pub step: WalkStep,
    pub node: usize,
}

// Of each node how many edges it is from that node.
fn far_round(
    alloc: Global,
    sub: &Machine,
    above: &Machine,
    bound: u8,
    table: &SpotTable,
    nodes: &KeptNodes,
    node: u32,
) -> Result<Vec<Option<u32>>, NoMemory>
    requires nodes { AreKeptNodes sub.now above.now bound table.now.spots nodes.now.items.items nodes.now.places.items nodes.now.rows.items }
    requires present { node < length nodes.now.items.items }
    ensures { IfOk result (λ far. (x : Spot) → slice_get (spots_at table.now.spots nodes.now.items.items) node ≡ Some x
        → AreCharted (IsKeepingStep sub.now above.now bound) (λ (q : Spot). q ≡ x) (spots_at table.now.spots nodes.now.items.items)
        (λ (n : ℕ). at nodes.now.places.items n) nodes.now.rows.items far.items) }
{
    let count = nodes.rows.len();
    let anys = vec![in alloc; false; count]?;
    let graph = graph_of(alloc, anys.as_slice(), nodes.rows.as_slice())?;
    let inside = vec![in alloc; true; count]?;
    let mut ends = vec![in alloc; false; count]?;
    ends[node as usize] = true;
    let far = distances(alloc, &graph, inside.as_slice(), ends.as_slice())?;
    Ok(far)
}

// The lesser of two distances, and the known one where only one is known.
fn lesser(a: Option<u32>, b: Option<u32>) -> Option<u32>
    ensures { result ≡ lesser a b }
{
    match a {
        None => b,
        Some(d) => match b {
            None => Some(d),
            Some(e) => { if d <= e { Some(d) } else { Some(e) } }
        },
    }
}

/// The least distance of the numbers of the row that have one.
pub fn least(row: &[u32], far: &[Option<u32>]) -> Option<u32>
    requires within { (r : ℕ) → Among row.now r → r < length far.now }
    ensures { result ≡ least_of far.now None row.now }
{
    let mut least = None;
    for i in 0..row.len() {
        least = lesser(least, far[row[i] as usize]);
    }
    least
}

// The least distance of the numbers of the row, of which some one has a distance.
fn nearest(row: &[u32], far: &[Option<u32>]) -> u32
    requires within { (r : ℕ) → Among row.now r → r < length far.now }
    requires some { (i r d : ℕ) × (slice_get row.now i ≡ Some r) × (far_at far.now r ≡ Some d) }
    ensures some { (i r : ℕ) × (slice_get row.now i ≡ Some r) × (far_at far.now r ≡ Some result) }
    ensures least { (i r d : ℕ) → slice_get row.now i ≡ Some r → far_at far.now r ≡ Some d → result ≤ d }
{
    match least(row, far) {
        Some(distance) => distance,
        None => unreachable!(),
    }
}

// The step from the node by the first edge to a node with the distance.
fn step_from(
    alloc: Global,
    table: &SpotTable,
    nodes: &KeptNodes,
    far: &[Option<u32>],
    node: usize,
    distance: u32,
) -> Result<Onward, NoMemory>
    requires nodes { AreNumberedNodes table.now.spots nodes.now.items.items nodes.now.places.items nodes.now.rows.items }
    requires size { length far.now ≡ length nodes.now.items.items }
    requires present { node < length nodes.now.items.items }
    requires some { (i r : ℕ) × (slice_get (slice_index_or nodes.now.rows.items node []) i ≡ Some r) × (far_at far.now r ≡ Some distance) }
    ensures { IfOk result (λ o. IsStepTo (spots_at table.now.spots nodes.now.items.items) (at nodes.now.places.items node)
        (slice_index_or nodes.now.rows.items node []) far.now distance o.node o.step) }
{
    let row = nodes.rows[node].as_slice();
    let index = first_at(row, far, distance);
    let next = row[index] as usize;
    let place = nodes.places[node] + index as u32;
    let step = step_to(alloc, place, table.node(nodes.items[next] as usize))?;
    Ok(Onward { step, node: next })
}

// The first way round from the node.
fn round(
    alloc: Global,
    sub: &Machine,
    above: &Machine,
    bound: u8,
    table: &SpotTable,
    nodes: &KeptNodes,
    far: &[Option<u32>],
    start: u32,
) -> Result<Vec<WalkStep>, NoMemory>
    requires nodes { AreKeptNodes sub.now above.now bound table.now.spots nodes.now.items.items nodes.now.places.items nodes.now.rows.items }
    requires charted { (x : Spot) → slice_get (spots_at table.now.spots nodes.now.items.items) start ≡ Some x
        → AreCharted (IsKeepingStep sub.now above.now bound) (λ (q : Spot). q ≡ x) (spots_at table.now.spots nodes.now.items.items)
        (λ (n : ℕ). at nodes.now.places.items n) nodes.now.rows.items far.now }
    requires some { (x : Spot) × (steps : List WalkStep_data) × (slice_get (spots_at table.now.spots nodes.now.items.items) start ≡ Some x)
        × IsRound sub.now above.now bound x steps }
    ensures { IfOk result (λ steps. (x : Spot) → slice_get (spots_at table.now.spots nodes.now.items.items) start ≡ Some x
        → IsFirst (IsRound sub.now above.now bound x) steps.items) }
{
    let mut left = nearest(nodes.rows[start as usize].as_slice(), far);
    let first = step_from(alloc, table, nodes, far, start as usize, left)?;
    let mut steps = Vec::new(alloc);
    steps.push(first.step)?;
    let mut node = first.node;
    while left > 0 {
        left -= 1;
        let next = step_from(alloc, table, nodes, far, node, left)?;
        steps.push(next.step)?;
        node = next.node;
    }
    Ok(steps)
}

fn forgetting_at(alloc: Global, node: &DNode, steps: Vec<WalkStep>) -> Result<Forgetting, NoMemory>
    ensures { IfOk result (λ f. f ≡ record { spot = spot_of node.now; steps = steps.items }) }
{
    Ok(Forgetting {
        state: node.state,
        pending: node.pending.copy(alloc)?,
        above: node.above,
        steps,
    })
}

/// Where the canonical derivation of the machine `sub` from its projection `above` within the bound forgets, at the node: the
/// spot of that node, and the first way round from it on which the oldest act that is owed is never made. The candidates
/// are found again, and those that don't survive removed again.
pub fn explain_forgets(
    alloc: Global,
    sub: &Machine,
    above: &Machine,
    bound: u8,
    node: u32,
) -> Result<Forgetting, NoMemory>
    requires ours { IsProper sub.now }
    requires theirs { IsProper above.now }
    requires forgets { IsForgets sub.now above.now bound node }
    ensures { IfOk result (λ f. IsForgetting sub.now above.now bound node f) }
{
    let found = match candidates_of(alloc, sub, above, bound) {
        Ok(found) => found,
        Err(_) => return Err(NoMemory),
    };
    let table = &found.table;
    let nodes = kept_nodes(alloc, sub, above, bound, &found)?;
    let far = far_round(alloc, sub, above, bound, table, &nodes, node)?;
    let steps = round(
        alloc,
        sub,
        above,
        bound,
        table,
        &nodes,
        far.as_slice(),
        node,
    )?;
    let spot = table.node(nodes.items[node as usize] as usize);
    let forgetting = forgetting_at(alloc, spot, steps)?;
    Ok(forgetting)
}
