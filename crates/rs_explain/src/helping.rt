//! Which candidates a greater bound helps: they don't survive within the bound, and do within the greater one.
ghost use Rattle.std.specs.Prelude.{◌≡◌, ◌<◌, ◌≤◌, ℕ, IfOk, length, slice_index_or};
ghost use Rattle.std.specs.List.{All};
ghost use Rattle.rs_derive.specs.Derivations.{IsProper};
ghost use Rattle.rs_explain.specs.Helping.{AreNumbersAmong, IsHelpedCut, is_on_alone, is_on_twice, noted};
ghost use Rattle.rs_explain.specs.OnWay.{AreFlagged, AreFlags, IsLostGraph};
ghost use Rattle.rs_explain.specs.Walks.{IsHelped};
ghost use Rattle.rs_graph.specs.Removal.{at};
ghost use Rattle.rs_model.specs.declared.limits.TheConstants.{MOST_CANDIDATES};
ghost use Rattle.rs_search.specs.Candidates.{MeetsACut};
ghost use Rattle.rs_search.specs.Found.{AreFoundCandidates};

use crate::lost::{LostGraph, cuts, lost_graph};
use rs_model::{Machine, NoMemory};
use rs_search::{Candidates, candidates_of};
use std::alloc::Global;

// Gives each number of the row the one beside it.
fn note(row: &[u32], beside: &[u32], numbers: &mut Vec<u32>)
    requires within { All (λ n. n < length numbers.old.items) row.now }
    requires fits { length row.now ≤ length beside.now }
    ensures { numbers.new.items ≡ noted row.now beside.now numbers.old.items }
{
    for i in 0..row.len() {
        numbers[row[i] as usize] = beside[i];
    }
}

// Of each candidate its number among those within the greater bound.
fn numbers_among(
    alloc: Global,
    sub: &Machine,
    above: &Machine,
    bound: u8,
    greater: u8,
    found: &Candidates,
    those: &Candidates,
) -> Result<Vec<u32>, NoMemory>
    requires more { bound ≤ greater }
    requires found { AreFoundCandidates sub.now above.now bound found.now }
    requires those { AreFoundCandidates sub.now above.now greater those.now }
    ensures { IfOk result (λ v. AreNumbersAmong found.now.table.spots those.now.table.spots v.items) }
{
    let mut numbers: Vec<u32> = vec![in alloc; 0; found.anys.len()]?;
    for number in 0..found.anys.len() {
        let row = found.table.row(number).as_slice();
        let beside = those.table.row(numbers[number] as usize).as_slice();
        note(row, beside, &mut numbers);
    }
    Ok(numbers)
}

// Of each number whether our flag stands there, and theirs doesn't at the number beside it.
fn on_alone(
    alloc: Global,
    ours: &[bool],
    theirs: &[bool],
    numbers: &[u32],
) -> Result<Vec<bool>, NoMemory>
    requires size { length ours.now ≡ length numbers.now }
    requires within { (n : ℕ) → n < length numbers.now → at numbers.now n < length theirs.now }
    ensures { IfOk result (λ v. AreFlags (λ (n : ℕ). is_on_alone ours.now theirs.now numbers.now n) (length numbers.now) v.items) }
{
    let mut flags = Vec::new(alloc);
    for n in 0..numbers.len() {
        flags.push(ours[n] && !theirs[numbers[n] as usize])?;
    }
    Ok(flags)
}

// Of each number whether both flags stand there.
fn on_twice(alloc: Global, one: &[bool], other: &[bool]) -> Result<Vec<bool>, NoMemory>
    requires { length one.now ≡ length other.now }
    ensures { IfOk result (λ v. AreFlags (λ (n : ℕ). is_on_twice one.now other.now n) (length one.now) v.items) }
{
    let mut flags = Vec::new(alloc);
    for n in 0..one.len() {
        flags.push(one[n] && other[n])?;
    }
    Ok(flags)
}

/// Of each candidate whether the greater bound helps it. The candidates within the greater bound are found, too, and those
/// that don't survive removed.
pub fn helped_nodes(
    alloc: Global,
    sub: &Machine,
    above: &Machine,
    bound: u8,
    greater: u8,
    found: &Candidates,
    lost: &LostGraph,
) -> Result<Vec<bool>, NoMemory>
    requires ours { IsProper sub.now }
    requires theirs { IsProper above.now }
    requires more { bound ≤ greater }
    requires found { AreFoundCandidates sub.now above.now bound found.now }
    requires lost { IsLostGraph sub.now above.now bound found.now lost.now.graph lost.now.gone.items }
    ensures { IfOk result (λ v. AreFlagged (IsHelped sub.now above.now bound greater) found.now.table.spots v.items) }
{
    let those = match candidates_of(alloc, sub, above, greater) {
        Ok(those) => those,
        Err(_) => return Err(NoMemory),
    };
    let left = lost_graph(alloc, sub, above, greater, &those)?;
    let numbers = numbers_among(alloc, sub, above, bound, greater, found, &those)?;
    let helped = on_alone(
        alloc,
        lost.gone.as_slice(),
        left.gone.as_slice(),
        numbers.as_slice(),
    )?;
    Ok(helped)
}

/// Of each candidate whether the greater bound helps it and it meets a cut.
pub fn helped_cuts(
    alloc: Global,
    sub: &Machine,
    above: &Machine,
    bound: u8,
    greater: u8,
    found: &Candidates,
    lost: &LostGraph,
    helped: &[bool],
) -> Result<Vec<bool>, NoMemory>
    requires ours { IsProper sub.now }
    requires theirs { IsProper above.now }
    requires found { AreFoundCandidates sub.now above.now bound found.now }
    requires bounded { length found.now.table.spots ≤ MOST_CANDIDATES }
    requires lost { IsLostGraph sub.now above.now bound found.now lost.now.graph lost.now.gone.items }
    requires helped { AreFlagged (IsHelped sub.now above.now bound greater) found.now.table.spots helped.now }
    ensures { IfOk result (λ v. AreFlagged (IsHelpedCut sub.now above.now bound greater) found.now.table.spots v.items) }
{
    let meets = cuts(alloc, sub, above, bound, found, lost)?;
    let ends = on_twice(alloc, helped, meets.as_slice())?;
    Ok(ends)
}
