//! The removal of nodes until each node that is left has a move whose results are all left.
ghost use Rattle.std.specs.Prelude.{◌≡◌, ◌≢◌, ◌<◌, ◌≤◌, ◌+◌, ◌^◌, [], ◌∷◌, ◌++◌, List, ℕ, OnOk, OnErr, OnSome, IfOk, length, slice_get, slice_index_or, Some};
ghost use Rattle.rs_graph.specs.Removal.{IsInto, IsRemoval, Leads, cost_of, moves_at};
ghost use Rattle.rs_graph.specs.Removing.{Going, IsNextMove, Rest, From, whole, lowered_flags, moveless};
ghost use Rattle.std.specs.List.{sum_by};
ghost use Rattle.rs_graph.specs.declared.graph.Move.{Move};

use crate::graph::{Graph, Move};
use crate::steps::StepCount;
use rs_model::NoMemory;
use smallvec::SmallVec;
use std::alloc::Global;
use std::marker::{Brand, Model};
use std::sync::ledger::{Blank, Ledger};

/// One flag for each move of a node, which says whether the move is lost: one of its results was removed. A few flags
/// need no allocation.
#[derive(Drop, Debug)]
pub struct Flags {
    flags: SmallVec<bool, 8>,
}

impl Model for Flags {
    ghost use Rattle.std.specs.Prelude.{List, Bool};

    ghost Value = { List Bool };

    ghost view = { λ a. a.flags.items };
}

impl Flags {
    ghost use Rattle.std.specs.Prelude.{replicate, false, true, slice_set};

    /// Makes `count` flags, none of them raised. Fails if memory runs out.
    pub fn new(alloc: Global, count: usize) -> Result<Flags, NoMemory>
        ensures { IfOk result (λ f. f ≡ replicate count false) }
    {
        Ok(Flags {
            flags: SmallVec::from_elem(alloc, false, count)?,
        })
    }

    /// Returns the flags: that of the move at each place.
    pub fn as_slice(&self) -> &[bool]
        ensures { result.now ≡ self.now }
    {
        self.flags.as_slice()
    }

    /// Raises the flag at the place: that move is lost.
    pub fn raise(&mut self, place: u32)
        requires { place < length self.old }
        ensures { self.new ≡ slice_set self.old place true }
    {
        self.flags.as_mut_slice()[place as usize] = true;
    }
}

/// The result of removing nodes from a graph: which move each node that is left has, and which nodes were removed.
/// `IsRemoval` defines it.
#[derive(Drop, Debug)]
pub struct Removal {
    /// For each node the place of its first move whose results are all left. For a removed node: the number of its moves.
    pub current: Vec<u32>,
    /// The removed nodes, each after at least one result of each of its moves.
    pub order: Vec<u32>,
}

// The first place from that one on whose flag isn't raised, or the number of flags.
fn next_move(flags: &[bool], start: usize) -> usize
    requires { start ≤ length flags.now }
    ensures { IsNextMove flags.now start result }
{
    let mut next = start;
    while next < flags.len() && flags[next] {
        next += 1;
    }
    next
}

// Marks a move that has a removed result as lost; its node goes on to its next move, or is removed.
fn lose(
    m: Move,
    lost: &mut Vec<Flags>,
    current: &mut Vec<u32>,
    order: &mut Vec<u32>,
) -> Result<(), NoMemory>
    requires node { m.node < length lost.old.items }
    requires place { m.place < length (slice_index_or lost.old.items m.node []) }
    requires bounded { length (slice_index_or lost.old.items m.node []) < 2 ^ 32 }
    requires size { length current.old.items ≡ length lost.old.items }
    ensures keeps { OnOk result ((outs : List (List (List ℕ))) (k doing : ℕ) (rest : List Move) → slice_get order.old.items k ≡ Some doing → Leads outs m.node m.place doing
        → Going outs lost.old.items current.old.items order.old.items (Rest k (m ∷ rest)) → Going outs lost.new.items current.new.items order.new.items (Rest k rest)) }
    ensures order { OnOk result ((j x : ℕ) → slice_get order.old.items j ≡ Some x → slice_get order.new.items j ≡ Some x) }
{
    if lost[m.node as usize].as_slice()[m.place as usize] {
        return Ok(());
    }
    lost[m.node as usize].raise(m.place);
    let place = current[m.node as usize];
    if place != m.place {
        return Ok(());
    }
    let flags = lost[m.node as usize].as_slice();
    let next = next_move(flags, m.place as usize);
    let all = flags.len();
    current[m.node as usize] = next as u32;
    if next == all {
        order.push(m.node)?;
    }
    Ok(())
}

// Tells the moves that lead to the removed node at that place of the order that they are lost.
fn hand_on<L: Ledger>(
    graph: &Graph,
    told: usize,
    lost: &mut Vec<Flags>,
    current: &mut Vec<u32>,
    order: &mut Vec<u32>,
    steps: &mut StepCount<L>,
) -> Result<(), NoMemory>
    requires present { told < length order.old.items }
    requires into { IsInto graph.now.outs graph.now.intos }
    requires bounded { (n : ℕ) → moves_at graph.now.outs n < 2 ^ 32 }
    requires going { Going graph.now.outs lost.old.items current.old.items order.old.items (From told) }
    ensures going { OnOk result (Going graph.now.outs lost.new.items current.new.items order.new.items (From (told + 1))) }
    ensures order { OnOk result ((j x : ℕ) → slice_get order.old.items j ≡ Some x → slice_get order.new.items j ≡ Some x) }
    ensures steps { OnOk result (steps.new ≡ steps.old + cost_of graph.now.intos (slice_index_or order.old.items told 0)) }
{
    let node = order[told];
    let mut nth: usize = 0;
    while let Some(m) = graph.move_into(node, nth, steps) {
        lose(m, lost, current, order)?;
        nth += 1;
    }
    Ok(())
}

// A flag for each move.
fn no_flags(alloc: Global, graph: &Graph) -> Result<Vec<Flags>, NoMemory>
    requires { length graph.now.outs < 2 ^ 32 }
    ensures { IfOk result (λ v. v.items ≡ lowered_flags graph.now.outs) }
{
    let mut lost = Vec::new(alloc);
    for node in 0..graph.nodes() {
        lost.push(Flags::new(alloc, graph.moves(node as u32) as usize)?)?;
    }
    Ok(lost)
}

// The nodes that have no move.
fn without_moves(alloc: Global, graph: &Graph) -> Result<Vec<u32>, NoMemory>
    requires { length graph.now.outs < 2 ^ 32 }
    ensures { IfOk result (λ v. v.items ≡ moveless 0 graph.now.outs) }
{
    let mut order = Vec::new(alloc);
    for node in 0..graph.nodes() {
        if graph.moves(node as u32) == 0 {
            order.push(node as u32)?;
        }
    }
    Ok(order)
}

/// Removes nodes that have no move whose results are all left, until there is no such node, and returns what is left
/// (`IsRemoval`). Counts one step for each edge that ends at a removed node, and one more for each removed node. Fails if
/// memory runs out.
///
/// For example, let node 0 have a move to 1, node 1 a move to 2, and node 2 none. Then 2 is removed first, then 1, then 0.
/// If node 0 has a second move, which leads to 0 itself, then 0 is left, and `current` has place 1 for it.
pub fn remove<L: Ledger>(
    alloc: Global,
    graph: &Graph,
    steps: &mut StepCount<L>,
) -> Result<Removal, NoMemory>
    requires nodes { length graph.now.outs < 2 ^ 32 }
    requires bounded { (n : ℕ) → moves_at graph.now.outs n < 2 ^ 32 }
    requires into { IsInto graph.now.outs graph.now.intos }
    ensures removal { IfOk result (λ r. IsRemoval graph.now.outs r.current.items r.order.items) }
    ensures steps { IfOk result (λ r. steps.new ≡ steps.old + sum_by (λ n. cost_of graph.now.intos n) r.order.items) }
{
    let mut lost = no_flags(alloc, graph)?;
    let mut current: Vec<u32> = vec![in alloc; 0; graph.nodes()]?;
    let mut order = without_moves(alloc, graph)?;
    let mut told: usize = 0;
    while told < order.len() {
        hand_on(graph, told, &mut lost, &mut current, &mut order, steps)?;
        told += 1;
    }
    Ok(Removal { current, order })
}

/// Removes the same nodes as `remove`, without a count of steps for the caller. Fails if memory runs out.
pub fn remove_uncounted(alloc: Global, graph: &Graph) -> Result<Removal, NoMemory>
    requires nodes { length graph.now.outs < 2 ^ 32 }
    requires bounded { (n : ℕ) → moves_at graph.now.outs n < 2 ^ 32 }
    requires into { IsInto graph.now.outs graph.now.intos }
    ensures { IfOk result (λ r. IsRemoval graph.now.outs r.current.items r.order.items) }
{
    remove_by::<Brand>(alloc, graph, Blank::new(1))
}

fn remove_by<L: Ledger>(alloc: Global, graph: &Graph, blank: Blank) -> Result<Removal, NoMemory>
    requires name { blank.name ≡ L.name }
    requires parts { blank.parts ≡ L.parts }
    requires some { 0 < L.parts }
    requires nodes { length graph.now.outs < 2 ^ 32 }
    requires bounded { (n : ℕ) → moves_at graph.now.outs n < 2 ^ 32 }
    requires into { IsInto graph.now.outs graph.now.intos }
    ensures { IfOk result (λ r. IsRemoval graph.now.outs r.current.items r.order.items) }
{
    let mut steps: StepCount<L> = StepCount::new(blank);
    remove(alloc, graph, &mut steps)
}
