//! How far ahead of its projection a machine comes.

ghost use Rattle.std.specs.Prelude.{◌≡◌, IfOk, Some};
ghost use Rattle.rs_derive.specs.Rules.{rule_at};
ghost use Rattle.rs_reasons.specs.Ahead as spec;

use rs_derive::{DNode, Rule, rule_at};
use rs_model::{Machine, NoMemory, State};
use rs_prefix::Pending;
use std::alloc::Global;
use std::marker::Model;

/// A state of the machine, and what is still owed behind the act that it makes there.
#[derive(Drop)]
pub struct Standing {
    pub state: u32,
    pub owed: Pending,
}

impl Model for Standing {
    ghost use Rattle.rs_reasons.specs.Ahead.{Standing_data};

    ghost Value = { Standing_data };

    ghost view = { λ s. record { state = s.state; owed = s.owed } };
}

// What is still owed behind the act that the machine makes between these states.
fn left_by(
    alloc: Global,
    pending: &Pending,
    state: &State,
    there: &State,
) -> Result<Pending, NoMemory>
    ensures { IfOk result (λ p. p ≡ spec.left_by pending.now (rule_at pending.now state.now (Some there.now))) }
{
    match rule_at(pending, state, there) {
        Some(Rule::Pays { place, .. }) => pending.copy_without(alloc, place),
        Some(Rule::SendsBoth) => pending.copy(alloc),
        Some(Rule::Stops | Rule::Guesses { .. } | Rule::Follows { .. }) | None => {
            Ok(Pending::new(alloc))
        }
    }
}

// The same at the node.
fn left_at(alloc: Global, sub: &Machine, above: &Machine, node: &DNode) -> Result<Pending, NoMemory>
    ensures { IfOk result (λ p. p ≡ (spec.standing_of sub.now above.now node.now).owed) }
{
    let Some(state) = sub.states.get(node.state as usize) else {
        return Ok(Pending::new(alloc));
    };
    let Some(there) = above.states.get(node.above as usize) else {
        return Ok(Pending::new(alloc));
    };
    left_by(alloc, &node.pending, state, there)
}

/// The first of the nodes that still owes the most behind the act that the machine makes there. Refused memory is the only
/// error.
pub fn furthest(
    alloc: Global,
    sub: &Machine,
    above: &Machine,
    nodes: &[DNode],
) -> Result<Standing, NoMemory>
    ensures { IfOk result (λ s. s ≡ spec.furthest sub.now above.now spec.nowhere nodes.now) }
{
    let mut best = Standing {
        state: 0,
        owed: Pending::new(alloc),
    };
    for node in nodes {
        let owed = left_at(alloc, sub, above, node)?;
        best = further(
            best,
            Standing {
                state: node.state,
                owed,
            },
        );
    }
    Ok(best)
}

// Of two the later one where it still owes more, else the earlier one.
fn further(one: Standing, later: Standing) -> Standing
    ensures { result ≡ spec.further one later }
{
    if one.owed.as_slice().len() < later.owed.as_slice().len() {
        later
    } else {
        one
    }
}
