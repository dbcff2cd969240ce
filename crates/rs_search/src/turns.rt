//! What a spot can do within the bound: choose one of some spots, or go on to all of them.
ghost use Rattle.std.specs.Prelude.{◌≡◌, ◌<◌, ◌≤◌, ◌^◌, ◌==◌, ◌&&◌, ℕ, List, IfSome, length, not, slice_get, Some, None, true, false};
ghost use Rattle.rs_model.specs.declared.machines.Act.{Act};
ghost use Rattle.rs_derive.specs.Targets.{target_spot};
ghost use Rattle.rs_derive.specs.Due.{due_at, due_by};
ghost use Rattle.rs_derive.specs.Moves.{spot};
ghost use Rattle.rs_derive.specs.Rules.{RuleFits, arms_at};
ghost use Rattle.rs_prefix.specs.Earliest.{without};
ghost use Rattle.rs_derive.specs.Derivations.{IsProper, spot_of};
ghost use Rattle.rs_derive.specs.Within.{HasLabelsOnce, IsPlaceWithin};
ghost use Rattle.rs_derive.specs.declared.targets.Change.{Change};
ghost use Rattle.rs_search.specs.Turns.{turn_with_cut, cuts, may_choose, owing_by, turn_by_code, turn_of};

use rs_derive::{Change, DNode, EdgeTarget, Rule, arms_at, rule_at};
use rs_model::{Act, Arm, Machine, Role, State};
use rs_prefix::{ActKind, Pending};

/// What a spot can do within the bound.
#[derive(Clone, Copy, Debug)]
pub struct SpotMoves {
    /// Whether the bound takes its moves away.
    pub cut: bool,
    /// Whether each spot to which the rule leads is a move of its own. Otherwise all of them together are one move.
    pub any: bool,
    /// Whether its edges keep the oldest act that is owed.
    pub keeps: bool,
    /// The rule that applies, or none if the spot has no move within the bound.
    pub rule: Option<Rule>,
}

/// Returns what the spot `p` can do within the bound, if the machine and its projection are in these states.
#[inline(always)]
pub fn turn_at(bound: u8, p: &DNode, state: &State, there: &State) -> SpotMoves
    requires short { length p.now.pending ≤ bound }
    ensures turn { turn_by_code (spot_of p.now) (arms_at state.now) (arms_at there.now) result ≡ turn_with_cut bound (turn_of (due_at (spot_of p.now) (Some state.now) (Some there.now))) }
    ensures fits { IfSome result.rule (λ rule. RuleFits p.now.pending (arms_at state.now) (arms_at there.now) rule) }
{
    match rule_at(&p.pending, state, there) {
        None => no_turn(false),
        Some(rule) => rule_within(bound, p, rule, state, there),
    }
}

#[inline(always)]
fn rule_within(bound: u8, p: &DNode, rule: Rule, state: &State, there: &State) -> SpotMoves
    requires fits { RuleFits p.now.pending (arms_at state.now) (arms_at there.now) rule }
    requires short { length p.now.pending ≤ bound }
    ensures turn { turn_by_code (spot_of p.now) (arms_at state.now) (arms_at there.now) result ≡ turn_with_cut bound (turn_of (Some (due_by (spot_of p.now) (arms_at state.now) (arms_at there.now) rule))) }
    ensures fits { IfSome result.rule (λ rule. RuleFits p.now.pending (arms_at state.now) (arms_at there.now) rule) }
{
    if is_cut(bound, &p.pending, there, rule) {
        return no_turn(true);
    }
    SpotMoves {
        cut: false,
        any: may_choose(state, there, rule),
        keeps: rule.keeps_head(&p.pending),
        rule: Some(rule),
    }
}

/// The state of the machine with the number.
#[inline(always)]
pub fn state_of(machine: &Machine, state: u32) -> &State
    requires proper { IsProper machine.now }
    requires state { state < length machine.now.states }
    ensures state { slice_get machine.now.states state ≡ Some result.now }
    ensures once { HasLabelsOnce (arms_at result.now) }
{
    &machine.states[state as usize]
}

// Whether the spot owes as much as the bound allows, and would owe more.
#[inline(always)]
fn is_cut(bound: u8, pending: &Pending, there: &State, rule: Rule) -> bool
    ensures { result ≡ cuts bound pending.now (arms_at there.now) rule }
{
    rule.pushes() && pending.as_slice().len() >= bound as usize && !arms_at(there).is_empty()
}

// Whether one next is due, and may be any of the spots.
#[inline(always)]
fn may_choose(state: &State, there: &State, rule: Rule) -> bool
    ensures { result ≡ may_choose (arms_at state.now) (arms_at there.now) rule }
{
    match rule {
        Rule::Stops => false,
        Rule::Pays { .. } | Rule::Guesses { .. } => true,
        Rule::SendsBoth => arms_at(state).len() == 1,
        Rule::Follows { .. } => arms_at(there).len() == 1,
    }
}

fn no_turn(cut: bool) -> SpotMoves
    ensures { (result.cut ≡ cut) × (result.any ≡ true) × (result.keeps ≡ false) × (result.rule ≡ None) }
{
    SpotMoves {
        cut,
        any: true,
        keeps: false,
        rule: None,
    }
}

/// Returns whether a turn to that number of spots leaves a choice.
#[inline(always)]
pub fn has_choice(any: bool, spots: usize) -> bool
    ensures { result ≡ (any && not (spots == 1)) }
{
    any && spots != 1
}

/// Where making the act that is owed at the place leads.
#[inline(always)]
pub fn target_behind_payment(p: &DNode, place: usize, arm: Arm) -> EdgeTarget
    ensures spot { (pending : List Act) → target_spot pending result ≡ spot arm.next (without pending place) p.now.above }
    ensures change { result.change ≡ Change.Without place }
{
    EdgeTarget {
        state: arm.next,
        change: Change::Without(place),
        above: p.above,
    }
}

/// Where arms that both send lead.
#[inline(always)]
pub fn target_of_both(arm: Arm, their: Arm) -> EdgeTarget
    ensures spot { (pending : List Act) → target_spot pending result ≡ spot arm.next pending their.next }
    ensures change { result.change ≡ Change.Same }
{
    EdgeTarget {
        state: arm.next,
        change: Change::Same,
        above: their.next,
    }
}

/// Where an arm by which the projection has sent or received leads: the machine stays where it is, and owes the act.
#[inline(always)]
pub fn target_owing(p: &DNode, kind: ActKind, peer: Role, arm: Arm) -> EdgeTarget
    ensures spot { target_spot p.now.pending result ≡ owing_by kind (spot_of p.now) peer arm }
    ensures within { (count : ℕ) → IsPlaceWithin count result.change }
    ensures label { arm.label.0 < 2 ^ 16 }
{
    let label = arm.label;
    let sort = arm.sort;
    let act = match kind {
        ActKind::Send => Act::Puts { peer, label, sort },
        ActKind::Receive => Act::Takes { peer, label, sort },
    };
    EdgeTarget {
        state: p.state,
        change: Change::With(act),
        above: arm.next,
    }
}
