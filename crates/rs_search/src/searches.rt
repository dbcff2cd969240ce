//! The search.
ghost use Rattle.std.specs.Prelude.{◌≡◌, ◌<◌, ◌≤◌, ◌^◌, ℕ, IfOk, IfErr, OnOk, false, length, true};
ghost use Rattle.rs_model.specs.declared.limits.TheConstants.{MOST_CANDIDATES};
ghost use Rattle.rs_derive.specs.Derivations.{IsProper};
ghost use Rattle.rs_graph.specs.Ranks.{Edge};
ghost use Rattle.rs_search.specs.Canonical.{IsCanonical, SearchRefuses};
ghost use Rattle.rs_search.specs.Costs.{Costs, IsWithinCost};
ghost use Rattle.rs_search.specs.Forward.{AreForward};
ghost use Rattle.rs_search.specs.Found.{AreFoundCandidates};

use crate::SearchFault;
use crate::forward::forward_ranks;
use crate::found::{Candidates, SearchStop};
use crate::itself::search_itself;
use crate::nodes::{kept_rows, nodes_of};
use crate::survivors::{candidates_of, explore};
use crate::table::SpotTable;
use rs_derive::Derivation;
use rs_graph::{RankFault, StepCount, number_all, rank_rows};
use rs_model::Machine;
use std::alloc::Global;
use std::marker::Brand;
use std::sync::ledger::{Blank, Ledger};

/// Looks for the canonical derivation of the machine `sub` from its projection `above`, in which no node owes more acts
/// than the bound.
pub fn search(
    alloc: Global,
    sub: &Machine,
    above: &Machine,
    bound: u8,
) -> Result<Derivation, SearchFault>
    requires ours { IsProper sub.now }
    requires theirs { IsProper above.now }
    ensures ok { IfOk result (λ d. IsCanonical sub.now above.now bound d) }
    ensures err { IfErr result (λ e. SearchRefuses sub.now above.now bound e) }
{
    if sub.same(above) {
        return search_own(alloc, sub, bound);
    }
    search_by::<Brand>(alloc, sub, above, bound, Blank::new(1))
}

/// The search for a machine that is its projection: the canonical derivation of the machine from itself. Callers that
/// know that it is need no comparison.
pub fn search_own(alloc: Global, machine: &Machine, bound: u8) -> Result<Derivation, SearchFault>
    requires proper { IsProper machine.now }
    ensures ok { IfOk result (λ d. IsCanonical machine.now machine.now bound d) }
    ensures err { IfErr result (λ e. SearchRefuses machine.now machine.now bound e) }
{
    if bound > 0 {
        match search_itself(alloc, machine, bound) {
            Ok(derivation) => return Ok(derivation),
            Err(SearchStop::Memory) => return Err(SearchFault::NoMemory),
            Err(SearchStop::TooLarge) => {}
        }
    }
    search_by::<Brand>(alloc, machine, machine, bound, Blank::new(1))
}

fn search_by<L: Ledger>(
    alloc: Global,
    sub: &Machine,
    above: &Machine,
    bound: u8,
    blank: Blank,
) -> Result<Derivation, SearchFault>
    requires name { blank.name ≡ L.name }
    requires parts { blank.parts ≡ L.parts }
    requires some { 0 < L.parts }
    requires ours { IsProper sub.now }
    requires theirs { IsProper above.now }
    ensures ok { IfOk result (λ d. IsCanonical sub.now above.now bound d) }
    ensures err { IfErr result (λ e. SearchRefuses sub.now above.now bound e) }
{
    let mut steps: StepCount<L> = StepCount::new(blank);
    search_counted(alloc, sub, above, bound, &mut steps)
}

/// The same search, which counts its reads of the candidates' graph: at most two for each result of a move of a candidate
/// and one for each candidate, and none where there are too many candidates.
pub fn search_counted<L: Ledger>(
    alloc: Global,
    sub: &Machine,
    above: &Machine,
    bound: u8,
    steps: &mut StepCount<L>,
) -> Result<Derivation, SearchFault>
    requires ours { IsProper sub.now }
    requires theirs { IsProper above.now }
    ensures ok { IfOk result (λ d. IsCanonical sub.now above.now bound d) }
    ensures err { IfErr result (λ e. SearchRefuses sub.now above.now bound e) }
    ensures steps { OnOk result (IsWithinCost sub.now above.now bound steps.old steps.new) }
    ensures cost { IfErr result (λ e. Costs sub.now above.now bound e steps.old steps.new) }
{
    let mut found = match candidates_of(alloc, sub, above, bound) {
        Ok(found) => found,
        Err(fault) => return Err(fault),
    };
    if has_plain_ranks(found.choosing, &found.keeps, &mut found.table) {
        let Candidates { table, .. } = found;
        return Ok(Derivation {
            role: sub.role,
            bound,
            nodes: table.into_nodes(),
        });
    }
    search_among(alloc, sub, above, bound, found, steps)
}

// Whether none of the candidates chooses, and all edges that keep their head lead to greater numbers; then each has its
// rank.
fn has_plain_ranks(choosing: bool, keeps: &[bool], table: &mut SpotTable) -> bool
    requires bounded { length table.old.rows < 2 ^ 32 }
    requires known { length table.old.rows ≡ length table.old.spots }
    requires keeps { length keeps.now ≡ length table.old.rows }
    requires within { (n j : ℕ) → Edge table.old.rows n j → j < length table.old.rows }
    ensures choosing { result ≡ true → choosing ≡ false }
    ensures ranks { result ≡ true → AreForward keeps.now table.new.rows table.new.ranks 0 }
    ensures spots { table.new.spots ≡ table.old.spots }
    ensures rows { table.new.rows ≡ table.old.rows }
{
    !choosing && forward_ranks(keeps, table)
}

// The search among the candidates.
fn search_among<L: Ledger>(
    alloc: Global,
    sub: &Machine,
    above: &Machine,
    bound: u8,
    found: Candidates,
    steps: &mut StepCount<L>,
) -> Result<Derivation, SearchFault>
    requires theirs { IsProper above.now }
    requires found { AreFoundCandidates sub.now above.now bound found }
    requires bounded { length found.table.spots ≤ MOST_CANDIDATES }
    ensures ok { IfOk result (λ d. IsCanonical sub.now above.now bound d) }
    ensures err { IfErr result (λ e. SearchRefuses sub.now above.now bound e) }
    ensures steps { OnOk result (IsWithinCost sub.now above.now bound steps.old steps.new) }
    ensures cost { IfErr result (λ e. Costs sub.now above.now bound e steps.old steps.new) }
{
    let survivors = match explore(alloc, sub, above, bound, found, steps) {
        Ok(survivors) => survivors,
        Err(fault) => return Err(fault),
    };
    let current = survivors.left.current.as_slice();
    let numbers = match number_all(alloc, &survivors.graph, current, steps) {
        Ok(numbers) => numbers,
        Err(_) => return Err(SearchFault::NoMemory),
    };
    let items = numbers.items.as_slice();
    let nexts = numbers.nexts.as_slice();
    let kept = match kept_rows(alloc, survivors.found.keeps.as_slice(), items, nexts) {
        Ok(kept) => kept,
        Err(_) => return Err(SearchFault::NoMemory),
    };
    let ranks = match rank_rows(alloc, kept.as_slice()) {
        Ok(ranks) => ranks,
        Err(RankFault::OnCycle { node }) => return Err(SearchFault::Forgets { node }),
        Err(RankFault::Memory) => return Err(SearchFault::NoMemory),
    };
    match nodes_of(
        alloc,
        &survivors.found.table,
        items,
        nexts,
        ranks.as_slice(),
    ) {
        Ok(nodes) => Ok(Derivation {
            role: sub.role,
            bound,
            nodes,
        }),
        Err(_) => Err(SearchFault::NoMemory),
    }
}
