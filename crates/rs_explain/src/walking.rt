//! Walks along the numbers of spots that go nearer to an end with each step.
ghost use Rattle.std.specs.Prelude.{◌≡◌, ◌<◌, ◌≤◌, ◌^◌, [], ℕ, IfOk, length, slice_index_or, Some, true, false};
ghost use Rattle.rs_derive.specs.Derivations.{spot_of};
ghost use Rattle.rs_explain.specs.Distances.{far_at};
ghost use Rattle.rs_explain.specs.OnWay.{AreDownhill, GoNearer, IsFirstAt};
ghost use Rattle.rs_graph.specs.Lists.{Among};

use crate::explaining::WalkStep;
use rs_derive::DNode;
use rs_model::NoMemory;
use rs_search::SpotTable;
use std::alloc::Global;

/// A walk from the start, and the number of the candidate at its end.
#[derive(Drop, Debug)]
pub struct Way {
    pub steps: Vec<WalkStep>,
    pub node: usize,
}

fn is_at(far: Option<u32>, distance: u32) -> bool
    ensures yes { result ≡ true → far ≡ Some distance }
    ensures no { result ≡ false → far ≡ Some distance → ⊥ }
{
    match far {
        Some(known) => known == distance,
        None => false,
    }
}

/// The first place of the row whose number has the distance.
pub fn first_at(row: &[u32], far: &[Option<u32>], distance: u32) -> usize
    requires within { (r : ℕ) → Among row.now r → r < length far.now }
    requires some { (r : ℕ) × Among row.now r × (far_at far.now r ≡ Some distance) }
    ensures { IsFirstAt far.now row.now distance result }
{
    for place in 0..row.len() {
        if is_at(far[row[place] as usize], distance) {
            return place;
        }
    }
    unreachable!()
}

/// Makes the step of a walk that takes the result at `place` of its move, and leads to the spot of `node`. The spot's
/// pending acts are copied, so it fails if memory runs out.
pub fn step_to(alloc: Global, place: u32, node: &DNode) -> Result<WalkStep, NoMemory>
    ensures { IfOk result (λ s. s ≡ record { place = place; spot = spot_of node.now }) }
{
    Ok(WalkStep {
        place,
        state: node.state,
        pending: node.pending.copy(alloc)?,
        above: node.above,
    })
}

/// The walk from the start on which each step goes one nearer to an end, by the first place that does.
pub fn walk(alloc: Global, table: &SpotTable, far: &[Option<u32>]) -> Result<Way, NoMemory>
    requires downhill { AreDownhill (length table.now.spots) table.now.rows far.now }
    requires short { (n : ℕ) → length (slice_index_or table.now.rows n []) ≤ 2 ^ 16 }
    requires known { (d : ℕ) × (far_at far.now 0 ≡ Some d) }
    ensures { IfOk result (λ w. GoNearer table.now.spots (λ (n : ℕ). 0) table.now.rows far.now 0 w.steps.items w.node) }
{
    let mut steps = Vec::new(alloc);
    let mut node: usize = 0;
    let mut left = match far[0] {
        Some(left) => left,
        None => unreachable!(),
    };
    while left > 0 {
        left -= 1;
        let row = table.row(node).as_slice();
        let place = first_at(row, far, left);
        node = row[place] as usize;
        steps.push(step_to(alloc, place as u32, table.node(node))?)?;
    }
    Ok(Way { steps, node })
}
