//! How many steps each node inside is from an end, where edges between nodes inside are walked.
ghost use Rattle.std.specs.Prelude.{◌≡◌, ◌<◌, ◌≤◌, ◌+◌, ◌^◌, [], ℕ, OnOk, IfOk, length, None, true};
ghost use Rattle.rs_explain.specs.Distances.{AreDistances, AreEnds, AreSpread, IsBegun, IsNoted, far_at, flag_at};
ghost use Rattle.rs_graph.specs.Removal.{IsInto, edges_in};

use rs_graph::{Graph, StepCount};
use rs_model::NoMemory;
use std::alloc::Global;
use std::marker::Brand;
use std::sync::ledger::{Blank, Ledger};

// Gives the node the distance, where it lies inside and has none.
fn note(
    inside: &[bool],
    source: u32,
    distance: u32,
    far: &mut Vec<Option<u32>>,
    queue: &mut Vec<u32>,
) -> Result<(), NoMemory>
    requires present { source < length inside.now }
    requires size { length far.old.items ≡ length inside.now }
    ensures { OnOk result (IsNoted inside.now source distance far.old.items queue.old.items far.new.items queue.new.items) }
{
    let node = source as usize;
    if !inside[node] {
        return Ok(());
    }
    match far[node] {
        Some(_) => Ok(()),
        None => {
            queue.push(source)?;
            far[node] = Some(distance);
            Ok(())
        }
    }
}

// Gives the sources of the edges that lead to the next node of the queue their distances.
fn tell<L: Ledger>(
    graph: &Graph,
    inside: &[bool],
    ends: &[bool],
    told: usize,
    far: &mut Vec<Option<u32>>,
    queue: &mut Vec<u32>,
    steps: &mut StepCount<L>,
) -> Result<(), NoMemory>
    requires nodes { length graph.now.outs < 2 ^ 32 }
    requires edges { edges_in graph.now.outs < 2 ^ 64 }
    requires into { IsInto graph.now.outs graph.now.intos }
    requires inside { length inside.now ≡ length graph.now.outs }
    requires present { told < length queue.old.items }
    requires spread { AreSpread graph.now.outs inside.now ends.now far.old.items queue.old.items told }
    ensures { OnOk result (AreSpread graph.now.outs inside.now ends.now far.new.items queue.new.items (told + 1)) }
{
    let node = queue[told];
    let distance = match far[node as usize] {
        Some(distance) => distance,
        None => unreachable!(),
    };
    let mut nth: u64 = 0;
    while let Some((source, _)) = graph.into(node, nth, steps) {
        note(inside, source, distance + 1, far, queue)?;
        nth += 1;
    }
    Ok(())
}

// Gives the node the distance 0, where it is an end.
fn begin_at(
    ends: &[bool],
    node: u32,
    far: &mut Vec<Option<u32>>,
    queue: &mut Vec<u32>,
) -> Result<(), NoMemory>
    requires present { node < length ends.now }
    requires size { length far.old.items ≡ length ends.now }
    ensures { OnOk result (IsBegun ends.now node far.old.items queue.old.items far.new.items queue.new.items) }
{
    if !ends[node as usize] {
        return Ok(());
    }
    queue.push(node)?;
    far[node as usize] = Some(0);
    Ok(())
}

// The ends, which have the distance 0.
fn begin(ends: &[bool], far: &mut Vec<Option<u32>>, queue: &mut Vec<u32>) -> Result<(), NoMemory>
    requires nodes { length ends.now < 2 ^ 32 }
    requires size { length far.old.items ≡ length ends.now }
    requires none { (n : ℕ) → far_at far.old.items n ≡ None }
    requires empty { queue.old.items ≡ [] }
    ensures { OnOk result (AreEnds ends.now far.new.items queue.new.items (length ends.now)) }
{
    for node in 0..ends.len() {
        begin_at(ends, node as u32, far, queue)?;
    }
    Ok(())
}

fn distances_by<L: Ledger>(
    alloc: Global,
    graph: &Graph,
    inside: &[bool],
    ends: &[bool],
    blank: Blank,
) -> Result<Vec<Option<u32>>, NoMemory>
    requires name { blank.name ≡ L.name }
    requires parts { blank.parts ≡ L.parts }
    requires some { 0 < L.parts }
    requires nodes { length graph.now.outs < 2 ^ 32 }
    requires edges { edges_in graph.now.outs < 2 ^ 64 }
    requires into { IsInto graph.now.outs graph.now.intos }
    requires inside { length inside.now ≡ length graph.now.outs }
    requires ends { length ends.now ≡ length graph.now.outs }
    requires within { (n : ℕ) → flag_at ends.now n ≡ true → flag_at inside.now n ≡ true }
    ensures { IfOk result (λ far. AreDistances graph.now.outs inside.now ends.now far.items) }
{
    let mut steps: StepCount<L> = StepCount::new(blank);
    let mut far: Vec<Option<u32>> = vec![in alloc; None; graph.nodes()]?;
    let mut queue: Vec<u32> = Vec::new(alloc);
    begin(ends, &mut far, &mut queue)?;
    let mut told: usize = 0;
    while told < queue.len() {
        tell(graph, inside, ends, told, &mut far, &mut queue, &mut steps)?;
        told += 1;
    }
    Ok(far)
}

/// Of each node inside how many steps it is from an end, by nodes inside; none where no such steps lead to one.
pub fn distances(
    alloc: Global,
    graph: &Graph,
    inside: &[bool],
    ends: &[bool],
) -> Result<Vec<Option<u32>>, NoMemory>
    requires nodes { length graph.now.outs < 2 ^ 32 }
    requires edges { edges_in graph.now.outs < 2 ^ 64 }
    requires into { IsInto graph.now.outs graph.now.intos }
    requires inside { length inside.now ≡ length graph.now.outs }
    requires ends { length ends.now ≡ length graph.now.outs }
    requires within { (n : ℕ) → flag_at ends.now n ≡ true → flag_at inside.now n ≡ true }
    ensures { IfOk result (λ far. AreDistances graph.now.outs inside.now ends.now far.items) }
{
    distances_by::<Brand>(alloc, graph, inside, ends, Blank::new(1))
}
