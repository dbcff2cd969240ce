//! Which nodes are reached from flagged ones, and which reach them.
ghost use Rattle.std.specs.Prelude.{◌≡◌, ◌+◌, ◌<◌, ◌≤◌, ◌^◌, [], ◌∷◌, ℕ, Bool, List, length, drop, slice_index_or, IfOk, OnOk};
ghost use Rattle.std.specs.List.{All};
ghost use Rattle.rs_partings.specs.Flags.{AreFlags, IsReachedThrough, ReachesThrough, flagged};
ghost use Rattle.rs_partings.specs.Rows.{Growing, GrownSoFar, IsReachedAlong, LeadWithin};
ghost use Rattle.rs_project.specs.Marks.{IsOn, count_of_lowered};
ghost use Rattle.rs_wellformed.specs.WellFormed.{IsWellFormed};

use crate::rows::{rows_through, turn_round};
use rs_graph::NodeRow;
use rs_model::{NoMemory, Protocol};
use std::alloc::Global;

/// The nodes that are reached from flagged starts, through the nodes whose flag in `through` stands.
pub fn reached_through(
    alloc: Global,
    protocol: &Protocol,
    through: &[bool],
    starts: &[bool],
) -> Result<Vec<bool>, NoMemory>
    requires well_formed { IsWellFormed protocol.now }
    requires bounded { length protocol.now.nodes < 2 ^ 32 }
    requires through { length through.now ≡ length protocol.now.nodes }
    requires starts { length starts.now ≡ length protocol.now.nodes }
    ensures { IfOk result (λ v. AreFlags (length protocol.now.nodes) (λ n. IsReachedThrough protocol.now through.now starts.now n) v.items) }
{
    let rows = rows_through(alloc, protocol, through)?;
    spread_along(alloc, &rows, starts)
}

/// The nodes that reach flagged targets, through the nodes whose flag in `through` stands.
pub fn reaching_through(
    alloc: Global,
    protocol: &Protocol,
    through: &[bool],
    targets: &[bool],
) -> Result<Vec<bool>, NoMemory>
    requires well_formed { IsWellFormed protocol.now }
    requires bounded { length protocol.now.nodes < 2 ^ 32 }
    requires through { length through.now ≡ length protocol.now.nodes }
    requires targets { length targets.now ≡ length protocol.now.nodes }
    ensures { IfOk result (λ v. AreFlags (length protocol.now.nodes) (λ n. ReachesThrough protocol.now through.now targets.now n) v.items) }
{
    let rows = rows_through(alloc, protocol, through)?;
    let back = turn_round(alloc, &rows)?;
    spread_along(alloc, &back, targets)
}

// The nodes that are reached along the rows from flagged ones.
fn spread_along(alloc: Global, rows: &[NodeRow], starts: &[bool]) -> Result<Vec<bool>, NoMemory>
    requires bounded { length rows.now < 2 ^ 32 }
    requires size { length starts.now ≡ length rows.now }
    requires within { LeadWithin rows.now }
    ensures { IfOk result (λ v. AreFlags (length rows.now) (λ n. IsReachedAlong rows.now starts.now n) v.items) }
{
    let mut marks = Vec::from_slice(alloc, starts)?;
    let mut numbers = flagged_numbers(alloc, starts)?;
    let mut done = 0;
    while done < numbers.len() {
        let number = numbers[done];
        done += 1;
        mark_all(&mut marks, &mut numbers, rows[number as usize].as_slice())?;
    }
    Ok(marks)
}

/// The numbers of the flags that stand, in order.
pub fn flagged_numbers(alloc: Global, flags: &[bool]) -> Result<Vec<u32>, NoMemory>
    requires { length flags.now < 2 ^ 32 }
    ensures { IfOk result (λ v. v.items ≡ flagged 0 flags.now) }
{
    let mut numbers = Vec::new(alloc);
    for number in 0..flags.len() {
        if flags[number] {
            numbers.push(number as u32)?;
        }
    }
    Ok(numbers)
}

fn mark_all(marks: &mut Vec<bool>, numbers: &mut Vec<u32>, nexts: &[u32]) -> Result<(), NoMemory>
    requires { All (λ n. n < length marks.old.items) nexts.now }
    ensures size { OnOk result (length marks.new.items ≡ length marks.old.items) }
    ensures owed { OnOk result (count_of_lowered marks.new.items + length numbers.new.items ≡ count_of_lowered marks.old.items + length numbers.old.items) }
    ensures keeps { OnOk result ((rows : List (List ℕ)) (starts : List Bool) (done : ℕ) → GrownSoFar rows starts marks.old.items numbers.old.items done nexts.now
        → GrownSoFar rows starts marks.new.items numbers.new.items done []) }
{
    for next in nexts {
        mark(marks, numbers, *next)?;
    }
    Ok(())
}

fn mark(marks: &mut Vec<bool>, numbers: &mut Vec<u32>, number: u32) -> Result<(), NoMemory>
    requires { number < length marks.old.items }
    ensures size { OnOk result (length marks.new.items ≡ length marks.old.items) }
    ensures owed { OnOk result (count_of_lowered marks.new.items + length numbers.new.items ≡ count_of_lowered marks.old.items + length numbers.old.items) }
    ensures keeps { OnOk result ((rows : List (List ℕ)) (starts : List Bool) (soon : List ℕ) (done : ℕ) → GrownSoFar rows starts marks.old.items numbers.old.items done (number ∷ soon)
        → GrownSoFar rows starts marks.new.items numbers.new.items done soon) }
{
    if marks[number as usize] {
        return Ok(());
    }
    numbers.push(number)?;
    marks[number as usize] = true;
    Ok(())
}
