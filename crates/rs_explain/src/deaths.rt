//! After how many moves each candidate dies: numbers that are lowered until they hold.
ghost use Rattle.std.specs.Prelude.{◌≡◌, ◌<◌, ◌≤◌, ◌+◌, ◌^◌, [], ℕ, IfOk, length, slice_index_or, Some, None, false, true};
ghost use Rattle.rs_explain.specs.Deaths.{AreBounds, AreDeaths, AreInOrder, IsLowered, IsVisited, given, later, latest_of, lesser_given, lowers, one_more};
ghost use Rattle.rs_explain.specs.Distances.{far_at};
ghost use Rattle.rs_explain.specs.KeptNodes.{least_of};
ghost use Rattle.rs_graph.specs.Lists.{Among};
ghost use Rattle.rs_model.specs.declared.limits.TheConstants.{MOST_CANDIDATES};
ghost use Rattle.rs_search.specs.Found.{AreFoundCandidates};

use crate::rounds::least;
use rs_model::{Machine, NoMemory};
use rs_search::Candidates;
use std::alloc::Global;

// The greater of a number and one more than another, where both are known.
fn later(latest: Option<u32>, next: Option<u32>) -> Option<u32>
    requires low { (d : ℕ) → next ≡ Some d → d + 1 < 2 ^ 32 }
    ensures { result ≡ later latest next }
{
    match (latest, next) {
        (Some(latest), Some(next)) => {
            if latest <= next {
                Some(next + 1)
            } else {
                Some(latest)
            }
        }
        _ => None,
    }
}

// One more than the greatest of the numbers of the row, where all are known; of no numbers 0.
fn latest(row: &[u32], far: &[Option<u32>]) -> Option<u32>
    requires within { (r : ℕ) → Among row.now r → r < length far.now }
    requires low { (n d : ℕ) → far_at far.now n ≡ Some d → d + 1 < 2 ^ 32 }
    ensures { result ≡ latest_of far.now (Some 0) row.now }
{
    let mut latest = Some(0);
    for i in 0..row.len() {
        latest = later(latest, far[row[i] as usize]);
    }
    latest
}

// One more than the least of the numbers of the row that are known.
fn soonest(row: &[u32], far: &[Option<u32>]) -> Option<u32>
    requires within { (r : ℕ) → Among row.now r → r < length far.now }
    requires low { (n d : ℕ) → far_at far.now n ≡ Some d → d + 1 < 2 ^ 32 }
    ensures { result ≡ one_more (least_of far.now None row.now) }
{
    match least(row, far) {
        Some(distance) => Some(distance + 1),
        None => None,
    }
}

// The number that those of the row give, where each of these is a move of its own, or else all together are the one move.
fn given(any: bool, row: &[u32], far: &[Option<u32>]) -> Option<u32>
    requires within { (r : ℕ) → Among row.now r → r < length far.now }
    requires low { (n d : ℕ) → far_at far.now n ≡ Some d → d + 1 < 2 ^ 32 }
    ensures { result ≡ given far.now any row.now }
{
    if any {
        latest(row, far)
    } else {
        soonest(row, far)
    }
}

// The number that is given, where it is less than the known one.
fn lesser_given(known: Option<u32>, new: Option<u32>) -> Option<u32>
    ensures { result ≡ lesser_given known new }
{
    match (known, new) {
        (Some(known), Some(new)) => { if new < known { Some(new) } else { None } }
        _ => None,
    }
}

// Lowers the number of the node, where those of its row give less, and tells whether they do.
fn lower(found: &Candidates, node: u32, far: &mut Vec<Option<u32>>) -> bool
    requires present { node < length far.old.items }
    requires anys { length found.now.anys.items ≡ length far.old.items }
    requires rows { length found.now.table.rows ≡ length far.old.items }
    requires within { (r : ℕ) → Among (slice_index_or found.now.table.rows node []) r → r < length far.old.items }
    requires low { (n d : ℕ) → far_at far.old.items n ≡ Some d → d + 1 < 2 ^ 32 }
    ensures { IsLowered far.old.items node (lowers found.now.anys.items found.now.table.rows far.old.items node) far.new.items result }
{
    let number = node as usize;
    let row = found.table.row(number).as_slice();
    let new = given(found.anys[number], row, far.as_slice());
    match lesser_given(far[number], new) {
        Some(new) => {
            far[number] = Some(new);
            true
        }
        None => false,
    }
}

// Lowers the numbers of all nodes of the order, and tells whether some one was lowered.
fn lower_all(
    sub: &Machine,
    above: &Machine,
    bound: u8,
    found: &Candidates,
    order: &[u32],
    far: &mut Vec<Option<u32>>,
) -> bool
    requires found { AreFoundCandidates sub.now above.now bound found.now }
    requires bounded { length found.now.table.spots ≤ MOST_CANDIDATES }
    requires order { AreInOrder sub.now above.now bound found.now.table.spots order.now }
    requires far { AreBounds sub.now above.now bound found.now.table.spots order.now far.old.items }
    ensures far { AreBounds sub.now above.now bound found.now.table.spots order.now far.new.items }
    ensures visited { IsVisited found.now.anys.items found.now.table.rows order.now far.old.items (length order.now) far.new.items result }
{
    let mut lowered = false;
    for i in 0..order.len() {
        if lower(found, order[i], far) {
            lowered = true;
        }
    }
    lowered
}

// Of each node of the order its place there.
fn places_in(
    alloc: Global,
    sub: &Machine,
    above: &Machine,
    bound: u8,
    found: &Candidates,
    order: &[u32],
) -> Result<Vec<Option<u32>>, NoMemory>
    requires found { AreFoundCandidates sub.now above.now bound found.now }
    requires bounded { length found.now.table.spots ≤ MOST_CANDIDATES }
    requires order { AreInOrder sub.now above.now bound found.now.table.spots order.now }
    ensures { IfOk result (λ far. AreBounds sub.now above.now bound found.now.table.spots order.now far.items) }
{
    let mut far: Vec<Option<u32>> = vec![in alloc; None; found.anys.len()]?;
    for i in 0..order.len() {
        far[order[i] as usize] = Some(i as u32);
    }
    Ok(far)
}

/// Of each candidate that doesn't survive after how many moves it dies. The order gives numbers that are great enough.
pub fn deaths(
    alloc: Global,
    sub: &Machine,
    above: &Machine,
    bound: u8,
    found: &Candidates,
    order: &[u32],
) -> Result<Vec<Option<u32>>, NoMemory>
    requires found { AreFoundCandidates sub.now above.now bound found.now }
    requires bounded { length found.now.table.spots ≤ MOST_CANDIDATES }
    requires order { AreInOrder sub.now above.now bound found.now.table.spots order.now }
    ensures { IfOk result (λ far. AreDeaths sub.now above.now bound found.now.table.spots far.items) }
{
    let mut far = places_in(alloc, sub, above, bound, found, order)?;
    let mut lowered = true;
    while lowered {
        lowered = lower_all(sub, above, bound, found, order, &mut far);
    }
    Ok(far)
}
