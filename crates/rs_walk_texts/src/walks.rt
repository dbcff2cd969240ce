//! How a walk of a machine beside its projection is told: a line for each step.

ghost use Rattle.std.specs.Prelude.{◌≡◌, ◌<◌, ◌++◌, IfOk, OnOk, Some, length, slice_get};
ghost use Rattle.rs_derive.specs.Rules.{arms_of};
ghost use Rattle.rs_model.specs.FirstFailed.{or_later};
ghost use Rattle.rs_walk_texts.specs.Walks as spec;

use crate::acts::{push_label, push_maybe_act, push_role};
use crate::heads::act_by;
use crate::passed::{TalkArm, passed_talk, push_talk_arm};
use crate::positions::{position_of, push_at};
use crate::sources::{SpotRef, WalkSource};
use rs_derive::{Rule, arms_at, rule_at};
use rs_explain::WalkStep;
use rs_model::{Act, Arm, Names, NoMemory, State};
use rs_text::Text;
use std::alloc::Global;

/// The rule that applies at the spot.
pub(crate) fn rule_of(source: &WalkSource, spot: &SpotRef) -> Option<Rule>
    ensures { result ≡ spec.rule_of source.now spot.now }
{
    let machine = source.machine;
    let projection = source.projection;
    let state = machine.states.get(spot.state as usize)?;
    let there = projection.machine.states.get(spot.above as usize)?;
    rule_at(spot.pending, state, there)
}

/// The arm at the place of the state with that number.
pub(crate) fn arm_at(states: &[State], number: u32, place: usize) -> Option<Arm>
    ensures { result ≡ slice_get (arms_of (slice_get states.now number)) place }
{
    let state = states.get(number as usize)?;
    arms_at(state).get(place).copied()
}

/// The act of the state with that number by the arm.
pub(crate) fn act_of(states: &[State], number: u32, arm: Option<Arm>) -> Option<Act>
    ensures { result ≡ spec.act_of (slice_get states.now number) arm }
{
    let state = states.get(number as usize)?;
    act_by(state, arm?)
}

// The machine's act by its arm, with the position of its state.
fn push_own(text: &mut Text, source: &WalkSource, spot: &SpotRef, arm: Arm) -> Result<(), NoMemory>
    ensures { OnOk result (text.new ≡ text.old ++ spec.own_text source.now spot.now (Some arm)) }
{
    let machine = source.machine;
    let act = act_of(&machine.states, spot.state, Some(arm));
    push_maybe_act(text, source.names, act)?;
    push_at(text, position_of(source.states, spot.state))
}

// The arm of the projection's act that is passed by the rule, by the arm at the place.
fn passed_arm(source: &WalkSource, spot: &SpotRef, place: u32, rule: Option<Rule>) -> Option<Arm>
    ensures { result ≡ spec.passed_arm source.now spot.now place rule }
{
    match rule {
        Some(Rule::SendsBoth) => {
            let machine = source.machine;
            arm_at(&machine.states, spot.state, place as usize)
        }
        Some(Rule::Guesses { .. } | Rule::Follows { .. }) => {
            let projection = source.projection;
            arm_at(&projection.machine.states, spot.above, place as usize)
        }
        Some(Rule::Pays { .. } | Rule::Stops) | None => None,
    }
}

// The talk of that arm, before the next one.
fn arm_talk(
    alloc: Global,
    source: &WalkSource,
    spot: &SpotRef,
    next: Option<TalkArm>,
    arm: Option<Arm>,
) -> Result<Option<TalkArm>, NoMemory>
    ensures { IfOk result (λ t. t ≡ spec.arm_talk source.now spot.now next arm) }
{
    match arm {
        Some(arm) => passed_talk(alloc, source, spot.above, arm.label, next),
        None => Ok(None),
    }
}

// The talk that a step by the arm at the place passes, before the next one.
fn step_talk(
    alloc: Global,
    source: &WalkSource,
    spot: &SpotRef,
    step: &WalkStep,
    next: Option<TalkArm>,
) -> Result<Option<TalkArm>, NoMemory>
    ensures { IfOk result (λ t. t ≡ spec.step_talk source.now spot.now step.now next) }
{
    let rule = rule_of(source, spot);
    arm_talk(
        alloc,
        source,
        spot,
        next,
        passed_arm(source, spot, step.place, rule),
    )
}

/// The spot before the step with the number.
pub(crate) fn spot_before<'a>(
    first: &SpotRef<'a>,
    steps: &'a [WalkStep],
    number: usize,
) -> SpotRef<'a>
    requires { number < length steps.now }
    ensures { result ≡ spec.spot_before first.now steps.now number }
{
    if number > 0 {
        return spot_behind(&steps[number - 1]);
    }
    SpotRef {
        state: first.state,
        pending: first.pending,
        above: first.above,
    }
}

fn or_later(talk: Option<TalkArm>, later: Option<TalkArm>) -> Option<TalkArm>
    ensures { result ≡ or_later talk later }
{
    match talk {
        Some(talk) => Some(talk),
        None => later,
    }
}

/// Of each step of a walk from the spot the talk that it passes, so that the talks lie on one way.
pub(crate) fn talks_along<'a>(
    alloc: Global,
    source: &WalkSource,
    first: &SpotRef<'a>,
    steps: &'a [WalkStep],
) -> Result<Vec<Option<TalkArm>>, NoMemory>
    ensures { IfOk result (λ v. v.items ≡ spec.talks_along source.now first.now steps.now) }
{
    let mut talks = vec![in alloc; None; steps.len()]?;
    let mut next = None;
    let mut left = steps.len();
    while left > 0 {
        left -= 1;
        let spot = spot_before(first, steps, left);
        let talk = step_talk(alloc, source, &spot, &steps[left], next)?;
        talks[left] = talk;
        next = or_later(talk, next);
    }
    Ok(talks)
}

// Both send, the machine by that arm of its own.
fn push_both(
    text: &mut Text,
    source: &WalkSource,
    spot: &SpotRef,
    talk: Option<TalkArm>,
    arm: Option<Arm>,
) -> Result<(), NoMemory>
    ensures { OnOk result (text.new ≡ text.old ++ spec.both_text source.now spot.now talk arm) }
{
    let Some(arm) = arm else {
        return Ok(());
    };
    push_own(text, source, spot, arm)?;
    text.push(b", as ")?;
    push_talk_arm(text, source, talk)
}

// What leads to a talk that is passed, of a choice between so many arms.
fn push_due_head(
    text: &mut Text,
    names: &Names,
    count: usize,
    talk: Option<TalkArm>,
) -> Result<(), NoMemory>
    ensures { OnOk result (text.new ≡ text.old ++ spec.due_head names.now count talk) }
{
    match talk {
        Some(talk) if count >= 2 => push_picked(text, names, talk),
        _ => text.push(b"due: "),
    }
}

fn push_picked(text: &mut Text, names: &Names, talk: TalkArm) -> Result<(), NoMemory>
    ensures { OnOk result (text.new ≡ text.old ++ spec.due_head names.now 2 (Some talk)) }
{
    text.push(b"due, if ")?;
    push_role(text, names, talk.sender)?;
    text.push(b" picks ")?;
    push_label(text, names, talk.arm.label)?;
    text.push(b": ")
}

// How many arms the projection's state has.
fn arms_above(source: &WalkSource, spot: &SpotRef) -> usize
    ensures { result ≡ length (arms_of (spec.above_at source.now spot.now)) }
{
    let projection = source.projection;
    match projection.machine.states.get(spot.above as usize) {
        Some(state) => arms_at(state).len(),
        None => 0,
    }
}

// The machine passes the talk.
fn push_due(
    text: &mut Text,
    source: &WalkSource,
    spot: &SpotRef,
    talk: Option<TalkArm>,
) -> Result<(), NoMemory>
    ensures { OnOk result (text.new ≡ text.old ++ spec.due_text source.now spot.now talk) }
{
    push_due_head(text, source.names, arms_above(source, spot), talk)?;
    push_talk_arm(text, source, talk)
}

// What is done at the spot by the rule, by the arm at the place, where the step passes this talk.
fn push_deed(
    text: &mut Text,
    source: &WalkSource,
    spot: &SpotRef,
    place: u32,
    talk: Option<TalkArm>,
    rule: Option<Rule>,
) -> Result<(), NoMemory>
    ensures { OnOk result (text.new ≡ text.old ++ spec.deed_text source.now spot.now place talk rule) }
{
    match rule {
        Some(Rule::Pays { arm, .. }) => push_own(text, source, spot, arm),
        Some(Rule::SendsBoth) => {
            let machine = source.machine;
            let arm = arm_at(&machine.states, spot.state, place as usize);
            push_both(text, source, spot, talk, arm)
        }
        Some(Rule::Guesses { .. } | Rule::Follows { .. }) => push_due(text, source, spot, talk),
        Some(Rule::Stops) | None => Ok(()),
    }
}

// A line: what is done at the spot, where the step passes this talk.
fn push_step(
    text: &mut Text,
    source: &WalkSource,
    spot: &SpotRef,
    step: &WalkStep,
    talk: Option<TalkArm>,
) -> Result<(), NoMemory>
    ensures { OnOk result (text.new ≡ text.old ++ spec.step_text source.now spot.now step.now talk) }
{
    text.push(b"- ")?;
    push_deed(text, source, spot, step.place, talk, rule_of(source, spot))?;
    text.push(b"\n")
}

// A line for each step of a walk that begins at the spot, where the steps pass these talks.
fn push_lines<'a>(
    text: &mut Text,
    source: &WalkSource,
    first: &SpotRef<'a>,
    steps: &'a [WalkStep],
    talks: &[Option<TalkArm>],
) -> Result<(), NoMemory>
    requires { length talks.now ≡ length steps.now }
    ensures { OnOk result (text.new ≡ text.old ++ spec.lines_text source.now first.now steps.now talks.now) }
{
    for i in 0..steps.len() {
        let spot = spot_before(first, steps, i);
        push_step(text, source, &spot, &steps[i], talks[i])?;
    }
    Ok(())
}

/// Writes a line for each step of a walk that begins at the spot, by talks that lie on one way. Refused memory is the only
/// error.
pub fn push_steps<'a>(
    alloc: Global,
    text: &mut Text,
    source: &WalkSource,
    first: &SpotRef<'a>,
    steps: &'a [WalkStep],
) -> Result<(), NoMemory>
    ensures { OnOk result (text.new ≡ text.old ++ spec.steps_text source.now first.now steps.now) }
{
    let talks = talks_along(alloc, source, first, steps)?;
    push_lines(text, source, first, steps, talks.as_slice())
}

/// The spot behind a step.
pub fn spot_behind(step: &WalkStep) -> SpotRef<'_>
    ensures { result ≡ step.now.spot }
{
    SpotRef {
        state: step.state,
        pending: &step.pending,
        above: step.above,
    }
}
