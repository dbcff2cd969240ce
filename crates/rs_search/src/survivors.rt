//! What survives among the candidates: their graph, and what is left of it.
ghost use Rattle.std.specs.Prelude.{◌≡◌, ◌≤◌, ◌+◌, ℕ, IfOk, IfErr, length};
ghost use Rattle.std.specs.List.{sum_by};
ghost use Rattle.rs_derive.specs.Derivations.{IsProper};
ghost use Rattle.rs_graph.specs.Removal.{cost_of};
ghost use Rattle.rs_search.specs.Canonical.{SearchRefuses};
ghost use Rattle.rs_search.specs.Costs.{Costs};
ghost use Rattle.rs_search.specs.Found.{AreFoundCandidates, AreSurvivors};

use crate::SearchFault;
use crate::found::{Candidates, SearchStop, find_all};
use rs_graph::{Graph, Removal, StepCount, graph_of, remove};
use rs_model::{MOST_CANDIDATES, Machine};
use std::alloc::Global;
use std::sync::ledger::Ledger;

/// The candidates that survive, if the start is one of them.
#[derive(Drop)]
pub struct Survivors {
    /// All candidates.
    pub found: Candidates,
    /// Their graph: a node for each candidate, with its moves.
    pub graph: Graph,
    /// What is left of the graph when candidates without a move are removed. The start is left.
    pub left: Removal,
}

/// The candidates within the bound.
pub fn candidates_of(
    alloc: Global,
    sub: &Machine,
    above: &Machine,
    bound: u8,
) -> Result<Candidates, SearchFault>
    requires ours { IsProper sub.now }
    requires theirs { IsProper above.now }
    ensures found { IfOk result (AreFoundCandidates sub.now above.now bound) }
    ensures bounded { IfOk result (λ d. length d.table.spots ≤ MOST_CANDIDATES) }
    ensures err { IfErr result (λ e. SearchRefuses sub.now above.now bound e) }
    ensures cost { IfErr result (λ e. (steps : ℕ) → Costs sub.now above.now bound e steps steps) }
{
    match find_all(alloc, sub, above, bound, MOST_CANDIDATES) {
        Ok(found) => Ok(found),
        Err(SearchStop::TooLarge) => Err(SearchFault::TooLarge),
        Err(SearchStop::Memory) => Err(SearchFault::NoMemory),
    }
}

/// The survivors among the candidates, where the start survives.
pub fn explore<L: Ledger>(
    alloc: Global,
    sub: &Machine,
    above: &Machine,
    bound: u8,
    found: Candidates,
    steps: &mut StepCount<L>,
) -> Result<Survivors, SearchFault>
    requires found { AreFoundCandidates sub.now above.now bound found }
    requires bounded { length found.table.spots ≤ MOST_CANDIDATES }
    ensures survivors { IfOk result (AreSurvivors sub.now above.now bound) }
    ensures err { IfErr result (λ e. SearchRefuses sub.now above.now bound e) }
    ensures steps { IfOk result (λ s. steps.new ≡ steps.old + sum_by (λ n. cost_of s.graph.intos n) s.left.order.items) }
    ensures cost { IfErr result (λ e. Costs sub.now above.now bound e steps.old steps.new) }
{
    let rows = match found.table.copy_rows(alloc) {
        Ok(rows) => rows,
        Err(_) => return Err(SearchFault::NoMemory),
    };
    let graph = match graph_of(alloc, found.anys.as_slice(), rows.as_slice()) {
        Ok(graph) => graph,
        Err(_) => return Err(SearchFault::NoMemory),
    };
    let left = match remove(alloc, &graph, steps) {
        Ok(left) => left,
        Err(_) => return Err(SearchFault::NoMemory),
    };
    if left.current[0] == graph.moves(0) {
        return Err(SearchFault::NotFound { cut: found.cut });
    }
    Ok(Survivors { found, graph, left })
}
