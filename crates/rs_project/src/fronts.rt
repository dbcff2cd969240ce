//! What a role may meet first, found by marks.
ghost use Rattle.std.specs.Prelude.{◌≡◌, ◌↔◌, ◌<◌, ◌∷◌, [], ℕ, false, true, not, length, slice_index_or, IfOk, MatchOption};
ghost use Rattle.std.specs.List.{All, AllPairs, Contains, filter, list_any};
ghost use Rattle.std.specs.List.Sorted.{IsStrictlyIncreasing};
ghost use Rattle.rs_project.specs.Filing.{lone_front};
ghost use Rattle.rs_project.specs.Working.{IsFrontFrom};

use crate::spreading::Marks;
use crate::surveying::Survey;
use rs_model::NoMemory;
use smallvec::SmallVec;
use std::alloc::Global;
use std::marker::Model;

/// Talks, in order of their numbers. A few of them need no allocation.
pub type TalkSet = SmallVec<u32, 4>;

/// What a role may meet first: talks in order of their numbers, and maybe the end.
#[derive(Drop)]
pub struct Front {
    pub talks: TalkSet,
    pub ends: bool,
}

impl Model for Front {
    ghost use Rattle.rs_project.specs.Data.{Front_data};

    ghost Value = { Front_data };

    ghost view = { λ f. record { talks = f.talks.items; ends = f.ends } };
}

impl Front {
    /// The talk, where it is all that the role may meet first.
    pub fn lone_talk(&self) -> Option<u32>
        ensures { MatchOption result ((t : ℕ) → self.now ≡ lone_front t → ⊥) (λ t. self.now ≡ lone_front t) }
    {
        if self.ends {
            return None;
        }
        only_item(self.talks.as_slice())
    }
}

fn only_item(numbers: &[u32]) -> Option<u32>
    ensures { MatchOption result ((n : ℕ) → numbers.now ≡ n ∷ [] → ⊥) (λ n. numbers.now ≡ n ∷ []) }
{
    match numbers {
        [number] => Some(*number),
        _ => None,
    }
}

/// What the role may meet first from one of the nodes in `starts`. It is found by marks, whatever they were before.
pub fn marked_front(
    alloc: Global,
    survey: &Survey,
    marks: &mut Marks,
    starts: &[u32],
) -> Result<Front, NoMemory>
    requires starts { All (λ s. s < length survey.now.protocol.nodes) starts.now }
    ensures { IfOk result (λ f. IsFrontFrom survey.now.protocol survey.now.role starts.now f) }
{
    marks.spread(survey.protocol, &survey.passing, starts)?;
    let numbers = marks.as_slice();
    let talks = flagged_numbers(alloc, numbers, &survey.involved)?;
    let ends = has_unflagged(numbers, &survey.awaited);
    Ok(Front {
        talks: in_order(talks),
        ends,
    })
}

// Those of the numbers whose flag is set.
fn flagged_numbers(alloc: Global, numbers: &[u32], flags: &[bool]) -> Result<TalkSet, NoMemory>
    requires { All (λ n. n < length flags.now) numbers.now }
    ensures { IfOk result (λ v. v.items ≡ filter (λ n. slice_index_or flags.now n false) numbers.now) }
{
    let mut those = SmallVec::new(alloc);
    for number in numbers {
        if flags[*number as usize] {
            those.push(*number)?;
        }
    }
    Ok(those)
}

/// The numbers in order, each once.
pub fn in_order(numbers: TalkSet) -> TalkSet
    ensures rising { AllPairs (λ (n m : ℕ). n < m) result.items }
    ensures same { (n : ℕ) → Contains result.items n ↔ Contains numbers.items n }
{
    if is_rising(numbers.as_slice()) {
        return numbers;
    }
    put_in_order(numbers)
}

// Whether each number is below the next.
fn is_rising(numbers: &[u32]) -> bool
    ensures { result ≡ true → IsStrictlyIncreasing numbers.now }
{
    for place in 1..numbers.len() {
        if numbers[place - 1] >= numbers[place] {
            return false;
        }
    }
    true
}

#[inline(never)]
fn put_in_order(mut numbers: TalkSet) -> TalkSet
    ensures rising { AllPairs (λ (n m : ℕ). n < m) result.items }
    ensures same { (n : ℕ) → Contains result.items n ↔ Contains numbers.items n }
{
    numbers.as_mut_slice().sort_unstable();
    numbers.dedup();
    numbers
}

// Whether the flag of one of the numbers isn't set.
fn has_unflagged(numbers: &[u32], flags: &[bool]) -> bool
    requires { All (λ n. n < length flags.now) numbers.now }
    ensures { result ≡ list_any (λ n. not (slice_index_or flags.now n false)) numbers.now }
{
    for number in numbers {
        if !flags[*number as usize] {
            return true;
        }
    }
    false
}
