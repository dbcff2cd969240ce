//! Whether a walk leaves no other way.
ghost use Rattle.std.specs.Prelude.{◌≡◌, not};
ghost use Rattle.std.specs.List.{list_all};
ghost use Rattle.rs_derive.specs.Moves.{spot};
ghost use Rattle.rs_explain.specs.Forcing.{guesses_among, is_forced, is_guess};
ghost use Rattle.rs_explain.specs.Walks.{WalkStep_data};
ghost use Rattle.rs_search.specs.Candidates.{start_spot};

use crate::explaining::WalkStep;
use rs_derive::{Rule, arms_at, rule_at};
use rs_model::{Arm, Machine};
use rs_prefix::Pending;
use std::alloc::Global;

fn guesses_among(theirs: &[Arm], rule: Option<Rule>) -> bool
    ensures { result ≡ guesses_among theirs.now rule }
{
    match rule {
        Some(Rule::Guesses { .. }) => theirs.len() != 1,
        _ => false,
    }
}

// Whether one arm of several is guessed where the machine, what it owes and the projection stand so.
fn is_guess(sub: &Machine, above: &Machine, state: u32, pending: &Pending, there: u32) -> bool
    ensures { result ≡ is_guess sub.now above.now (spot state pending.now there) }
{
    match (
        sub.states.get(state as usize),
        above.states.get(there as usize),
    ) {
        (Some(state), Some(there)) => {
            guesses_among(arms_at(there), rule_at(pending, state, there))
        }
        _ => false,
    }
}

// Whether nothing is guessed behind any of these steps.
fn none_is_a_guess(sub: &Machine, above: &Machine, steps: &[WalkStep]) -> bool
    ensures { result ≡ list_all (λ (s : WalkStep_data). not (is_guess sub.now above.now s.spot)) steps.now }
{
    for step in steps {
        if is_guess(sub, above, step.state, &step.pending, step.above) {
            return false;
        }
    }
    true
}

/// Whether the walk from the start is forced: at none of its spots but the last is one arm of several guessed. Then each
/// move that there is, of whatever bound, leads on along the walk (`forced_walks_have_no_other_way`). Takes no memory.
pub fn is_forced(alloc: Global, sub: &Machine, above: &Machine, steps: &[WalkStep]) -> bool
    ensures { result ≡ is_forced sub.now above.now (start_spot sub.now above.now) steps.now }
{
    let Some((_, earlier)) = steps.split_last() else {
        return true;
    };
    !is_guess(sub, above, sub.start, &Pending::new(alloc), above.start)
        && none_is_a_guess(sub, above, earlier)
}
