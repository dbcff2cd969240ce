//! The nodes of the canonical derivation, and the edges that keep the oldest act that is owed.
ghost use Rattle.std.specs.Prelude.{◌≡◌, ◌<◌, ◌≤◌, [], ℕ, IfOk, length, if◌then◌else◌};
ghost use Rattle.rs_derive.specs.Derivations.{IsProper};
ghost use Rattle.rs_explain.specs.KeptNodes.{AreKeptNodes, ArePlaces};
ghost use Rattle.rs_graph.specs.Lists.{Among};
ghost use Rattle.rs_model.specs.declared.limits.TheConstants.{MOST_CANDIDATES};
ghost use Rattle.rs_search.specs.Candidates.{start_spot};
ghost use Rattle.rs_search.specs.Found.{AreFoundCandidates};
ghost use Rattle.rs_search.specs.Nodes.{AreKept};
ghost use Rattle.rs_search.specs.Survives.{Survives};

use rs_graph::{NodeRow, StepCount, graph_of, number_all, remove_uncounted};
use rs_model::{Machine, NoMemory};
use rs_search::Candidates;
use std::alloc::Global;
use std::marker::Brand;
use std::sync::ledger::{Blank, Ledger};

/// The nodes of the canonical derivation.
#[derive(Drop)]
pub struct KeptNodes {
    /// Of each node the number of its candidate.
    pub items: Vec<u32>,
    /// The place of the first spot of its move, among all to which its candidate leads.
    pub places: Vec<u32>,
    /// The nodes to which its edges lead, where these keep the oldest act that is owed; else none.
    pub rows: Vec<NodeRow>,
}

fn places_of(alloc: Global, current: &[u32], items: &[u32]) -> Result<Vec<u32>, NoMemory>
    requires within { (n : ℕ) → Among items.now n → n < length current.now }
    ensures { IfOk result (λ v. ArePlaces current.now items.now (length items.now) v.items) }
{
    let mut places = Vec::new(alloc);
    for i in 0..items.len() {
        places.push(current[items[i] as usize])?;
    }
    Ok(places)
}

fn kept_row(alloc: Global, keeps: bool, row: &NodeRow) -> Result<NodeRow, NoMemory>
    ensures { IfOk result (λ r. r ≡ (if keeps then row.now else [])) }
{
    if keeps {
        row.copy(alloc)
    } else {
        Ok(NodeRow::new(alloc))
    }
}

fn kept_rows(
    alloc: Global,
    keeps: &[bool],
    items: &[u32],
    nexts: &[NodeRow],
) -> Result<Vec<NodeRow>, NoMemory>
    requires within { (n : ℕ) → Among items.now n → n < length keeps.now }
    requires nexts { length nexts.now ≡ length items.now }
    ensures { IfOk result (λ v. AreKept keeps.now items.now nexts.now (length items.now) v.items) }
{
    let mut kept = Vec::new(alloc);
    for i in 0..items.len() {
        kept.push(kept_row(alloc, keeps[items[i] as usize], &nexts[i])?)?;
    }
    Ok(kept)
}

fn kept_nodes_by<L: Ledger>(
    alloc: Global,
    sub: &Machine,
    above: &Machine,
    bound: u8,
    found: &Candidates,
    blank: Blank,
) -> Result<KeptNodes, NoMemory>
    requires name { blank.name ≡ L.name }
    requires parts { blank.parts ≡ L.parts }
    requires some { 0 < L.parts }
    requires theirs { IsProper above.now }
    requires found { AreFoundCandidates sub.now above.now bound found.now }
    requires bounded { length found.now.table.spots ≤ MOST_CANDIDATES }
    requires start { Survives sub.now above.now bound (start_spot sub.now above.now) }
    ensures { IfOk result (λ k. AreKeptNodes sub.now above.now bound found.now.table.spots k.items.items k.places.items k.rows.items) }
{
    let mut steps: StepCount<L> = StepCount::new(blank);
    let rows = found.table.copy_rows(alloc)?;
    let graph = graph_of(alloc, found.anys.as_slice(), rows.as_slice())?;
    let left = remove_uncounted(alloc, &graph)?;
    let current = left.current.as_slice();
    let numbers = number_all(alloc, &graph, current, &mut steps)?;
    let items = numbers.items.as_slice();
    let places = places_of(alloc, current, items)?;
    let kept = kept_rows(
        alloc,
        found.keeps.as_slice(),
        items,
        numbers.nexts.as_slice(),
    )?;
    Ok(KeptNodes {
        items: numbers.items,
        places,
        rows: kept,
    })
}

/// The nodes of the canonical derivation within the bound, where the start survives.
pub fn kept_nodes(
    alloc: Global,
    sub: &Machine,
    above: &Machine,
    bound: u8,
    found: &Candidates,
) -> Result<KeptNodes, NoMemory>
    requires theirs { IsProper above.now }
    requires found { AreFoundCandidates sub.now above.now bound found.now }
    requires bounded { length found.now.table.spots ≤ MOST_CANDIDATES }
    requires start { Survives sub.now above.now bound (start_spot sub.now above.now) }
    ensures { IfOk result (λ k. AreKeptNodes sub.now above.now bound found.now.table.spots k.items.items k.places.items k.rows.items) }
{
    kept_nodes_by::<Brand>(alloc, sub, above, bound, found, Blank::new(1))
}
