//! Walks that end with a round by which the machine owes more.
ghost use Rattle.std.specs.Prelude.{◌≡◌, ◌<◌, ◌≤◌, ◌+◌, ◌||◌, [], ℕ, length, slice_get, Some};
ghost use Rattle.std.specs.List.{list_all, list_any};
ghost use Rattle.rs_derive.specs.Targets.{same_act};
ghost use Rattle.rs_explain.specs.Growth as spec;
ghost use Rattle.rs_model.specs.declared.machines.Act.{Act};
ghost use Rattle.rs_prefix.specs.Earliest.{may_overtake};
ghost use Rattle.rs_prefix.specs.declared.earliest.ActKind.TheVariants.{Receive, Send};
ghost use Rattle.rs_search.specs.Candidates.{start_spot};

use crate::explaining::WalkStep;
use rs_derive::same_acts;
use rs_model::{Act, Machine, Role, State};
use std::marker::Model;

/// A spot of a walk: a state of the machine, what it owes there, the oldest first, and a state of its projection.
#[derive(Drop)]
struct SpotView<'a> {
    state: u32,
    pending: &'a [Act],
    above: u32,
}

impl<'a> Model for SpotView<'a> {
    ghost use Rattle.rs_derive.specs.Moves.{Spot, spot};

    ghost Value = { Spot };

    ghost view = { λ p. spot p.state p.pending.now p.above };
}

// The spot behind so many steps of a walk from the first.
fn spot_after<'a>(first: &SpotView<'a>, steps: &'a [WalkStep], count: usize) -> SpotView<'a>
    ensures { result ≡ spec.spot_after first.now steps.now count }
{
    if count > 0 {
        if let Some(step) = steps.get(count - 1) {
            return SpotView {
                state: step.state,
                pending: step.pending.as_slice(),
                above: step.above,
            };
        }
    }
    SpotView {
        state: first.state,
        pending: first.pending,
        above: first.above,
    }
}

// Whether the first acts are the others.
fn begins_with(acts: &[Act], others: &[Act]) -> bool
    requires few { length others.now ≤ length acts.now }
    ensures { result ≡ spec.begins_with acts.now others.now }
{
    let (first, _) = acts.split_at(others.len());
    same_acts(others, first)
}

// Whether both machines stand at the later spot as they do at this one, and at the later the same is owed, and more.
fn is_further(spot: &SpotView, later: &SpotView) -> bool
    ensures { result ≡ spec.is_further spot.now later.now }
{
    spot.state == later.state
        && spot.above == later.above
        && spot.pending.len() < later.pending.len()
        && begins_with(later.pending, spot.pending)
}

// The start.
fn start<'a>(sub: &Machine, above: &Machine) -> SpotView<'a>
    ensures { result ≡ start_spot sub.now above.now }
{
    SpotView {
        state: sub.start,
        pending: &[],
        above: above.start,
    }
}

// The shortest round with which the walk from the start ends, where both machines come back to their states and more is owed:
// how many steps lead to where it begins.
fn round_start(sub: &Machine, above: &Machine, steps: &[WalkStep]) -> Option<usize>
    ensures first { result ≡ spec.round_start (start_spot sub.now above.now) steps.now (length steps.now) }
    ensures within { (n : ℕ) → result ≡ Some n → n < length steps.now }
{
    let first = start(sub, above);
    let end = spot_after(&first, steps, steps.len());
    let mut count = steps.len();
    while count > 0 {
        count -= 1;
        if is_further(&spot_after(&first, steps, count), &end) {
            return Some(count);
        }
    }
    None
}

fn is_same(act: Act, other: Act) -> bool
    ensures { result ≡ same_act act other }
{
    act == other
}

// Whether a send to the peer may overtake the act.
fn send_overtakes(peer: Role, act: Act) -> bool
    ensures { result ≡ may_overtake Send peer act }
{
    match act {
        Act::Puts { peer: theirs, .. } => theirs != peer,
        Act::Takes { .. } => true,
    }
}

// Whether a receive from the peer may.
fn receive_overtakes(peer: Role, act: Act) -> bool
    ensures { result ≡ may_overtake Receive peer act }
{
    match act {
        Act::Puts { .. } => false,
        Act::Takes { peer: theirs, .. } => theirs != peer,
    }
}

// Whether the machine may go on at the state, whether or not the act is owed.
fn overtakes(sub: &Machine, state: u32, act: Act) -> bool
    ensures { result ≡ spec.overtakes (slice_get sub.now.states state) act }
{
    match sub.states.get(state as usize) {
        Some(State::Puts { peer, .. }) => send_overtakes(*peer, act),
        Some(State::Takes { peer, .. }) => receive_overtakes(*peer, act),
        Some(State::Done) | None => false,
    }
}

// Whether the act is one of these.
fn is_among(act: Act, acts: &[Act]) -> bool
    ensures { result ≡ list_any (λ (c : Act). same_act act c) acts.now }
{
    for other in acts {
        if is_same(act, *other) {
            return true;
        }
    }
    false
}

fn is_known(needed: Act, acts: &[Act], act: Act) -> bool
    ensures { result ≡ spec.is_known needed acts.now act }
{
    is_same(act, needed) || is_among(act, acts)
}

fn are_known(needed: Act, acts: &[Act], pending: &[Act]) -> bool
    ensures { result ≡ list_all (spec.is_known needed acts.now) pending.now }
{
    for act in pending {
        if !is_known(needed, acts, *act) {
            return false;
        }
    }
    true
}

// Whether the machine needs no act but this one of these at the state.
fn needs_no_other(sub: &Machine, needed: Act, acts: &[Act], state: u32) -> bool
    ensures { result ≡ list_all (λ (a : Act). same_act a needed || spec.overtakes (slice_get sub.now.states state) a) acts.now }
{
    for act in acts {
        if !(is_same(*act, needed) || overtakes(sub, state, *act)) {
            return false;
        }
    }
    true
}

// The same, and that this one is owed where it is needed.
fn needs_only(sub: &Machine, needed: Act, acts: &[Act], state: u32, pending: &[Act]) -> bool
    ensures { result ≡ spec.needs_only needed acts.now (slice_get sub.now.states state) pending.now }
{
    needs_no_other(sub, needed, acts, state)
        && (overtakes(sub, state, needed) || is_among(needed, pending))
}

// Whether of these acts the machine needs but one on the walk, and no other acts come to be owed.
fn is_repeatable(
    sub: &Machine,
    needed: Act,
    acts: &[Act],
    first: &SpotView,
    steps: &[WalkStep],
) -> bool
    ensures { result ≡ spec.is_repeatable sub.now needed acts.now first.now.state first.now.pending steps.now }
{
    let mut state = first.state;
    let mut pending = first.pending;
    for step in steps {
        if !(needs_only(sub, needed, acts, state, pending)
            && are_known(needed, acts, step.pending.as_slice()))
        {
            return false;
        }
        state = step.state;
        pending = step.pending.as_slice();
    }
    true
}

// Whether of these acts the machine needs one alone on the walk.
fn needs_one(sub: &Machine, acts: &[Act], first: &SpotView, steps: &[WalkStep]) -> bool
    ensures { result ≡ list_any (λ (b : Act). spec.is_repeatable sub.now b acts.now first.now.state first.now.pending steps.now) acts.now }
{
    for act in acts {
        if is_repeatable(sub, *act, acts, first, steps) {
            return true;
        }
    }
    false
}

fn grows_from(
    sub: &Machine,
    first: &SpotView,
    steps: &[WalkStep],
    acts: &[Act],
    begin: Option<usize>,
) -> bool
    requires within { (n : ℕ) → begin ≡ Some n → n < length steps.now }
    ensures { result ≡ spec.grows_from sub.now first.now steps.now acts.now begin }
{
    let Some(begin) = begin else {
        return false;
    };
    let (_, round) = steps.split_at(begin);
    needs_one(sub, acts, &spot_after(first, steps, begin), round)
}

/// Whether the walk from the start ends with a round that can be repeated, whatever is owed: each time more is. Where the walk
/// is forced, no bound is enough (`no_bound_is_enough_for_a_round_that_grows`).
pub fn grows_for_ever(sub: &Machine, above: &Machine, steps: &[WalkStep]) -> bool
    ensures { result ≡ spec.grows_for_ever sub.now (start_spot sub.now above.now) steps.now }
{
    let first = start(sub, above);
    let end = spot_after(&first, steps, steps.len());
    grows_from(
        sub,
        &first,
        steps,
        end.pending,
        round_start(sub, above, steps),
    )
}

/// Rounds of a walk that are alike, the last of which ends the walk: each goes by the same places to the same states, and at its end
/// some acts more are owed than at the end of the one before.
#[derive(Clone, Copy, Debug, PartialEq, Eq)]
pub struct Rounds {
    /// By how many first steps of the walk the first of the rounds is done.
    pub shown: usize,
    /// How many steps a round has.
    pub size: usize,
    /// How many more rounds there are than the first.
    pub more: usize,
    /// How many acts more are owed at the end of each.
    pub owed: usize,
}

// Whether the steps at these places go by the same place.
fn go_alike(steps: &[WalkStep], place: usize, later: usize) -> bool
    ensures { result ≡ spec.go_alike (slice_get steps.now place) (slice_get steps.now later) }
{
    match (steps.get(place), steps.get(later)) {
        (Some(step), Some(other)) => step.place == other.place,
        _ => false,
    }
}

// How many acts more are owed at the later spot.
fn more_owed(spot: &SpotView, later: &SpotView) -> usize
    ensures { result ≡ spec.more_owed spot.now later.now }
{
    later.pending.len().saturating_sub(spot.pending.len())
}

// Whether it is at the place as it is a round later, but for so many acts that are owed then.
fn is_alike(first: &SpotView, steps: &[WalkStep], size: usize, more: usize, place: usize) -> bool
    requires within { place + size ≤ length steps.now }
    ensures { result ≡ spec.is_alike first.now steps.now size more place }
{
    let here = spot_after(first, steps, place);
    let later = spot_after(first, steps, place + size);
    go_alike(steps, place, place + size)
        && is_further(&here, &later)
        && more_owed(&here, &later) == more
}

// From which place up to the beginning of the last round it is so at each.
fn alike_from(first: &SpotView, steps: &[WalkStep], size: usize, more: usize, begin: usize) -> usize
    requires within { begin + size ≤ length steps.now }
    ensures from { result ≡ spec.alike_from first.now steps.now size more begin }
    ensures before { result ≤ begin }
{
    let mut place = begin;
    while place > 0 {
        if !is_alike(first, steps, size, more, place - 1) {
            return place;
        }
        place -= 1;
    }
    0
}

fn rounds_to(
    first: &SpotView,
    steps: &[WalkStep],
    begin: usize,
    size: usize,
    owed: usize,
) -> Option<Rounds>
    requires within { begin + size ≤ length steps.now }
    requires some { 0 < size }
    ensures { result ≡ spec.rounds_to first.now steps.now begin size owed }
{
    let more = (begin - alike_from(first, steps, size, owed, begin)) / size;
    if more == 0 {
        return None;
    }
    Some(Rounds {
        shown: steps.len() - more * size,
        size,
        more,
        owed,
    })
}

/// The rounds that are alike with which the walk from the start ends, where there are more than one.
pub fn rounds_of(sub: &Machine, above: &Machine, steps: &[WalkStep]) -> Option<Rounds>
    ensures { result ≡ spec.rounds_of (start_spot sub.now above.now) steps.now }
{
    let begin = round_start(sub, above, steps)?;
    let first = start(sub, above);
    let end = spot_after(&first, steps, steps.len());
    let owed = more_owed(&spot_after(&first, steps, begin), &end);
    rounds_to(&first, steps, begin, steps.len() - begin, owed)
}
