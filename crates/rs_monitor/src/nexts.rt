//! Where an act leads from a state of a machine, or why the machine doesn't have it.
ghost use Rattle.std.specs.Prelude.{◌≡◌, ◌==◌, ◌&&◌, ◌+◌, ◌<◌, IfErr, IfOk, Some, drop, length};
ghost use Rattle.std.specs.List.{list_any};
ghost use Rattle.std.specs.Option.{option_or};
ghost use Rattle.rs_core.specs.Configurations.{state_of};
ghost use Rattle.rs_model.specs.Sorts.{fits};
ghost use Rattle.rs_monitor.specs.Acts.{IsActOf};
ghost use Rattle.rs_monitor.specs.Nexts as spec;
ghost use Rattle.rs_monitor.specs.Refusals.{IsRefusedFor};
ghost use Rattle.rs_monitor.specs.declared.acts.ProgramAct.TheVariants as act;

use crate::Refusal;
use rs_model::{Arm, Label, Machine, Role, State, Value};

/// Whether an arm has that label.
fn has_label(arms: &[Arm], label: Label) -> bool
    ensures { result ≡ list_any (λ a. a.label.0 == label.0) arms.now }
{
    arms.iter().any(|arm| arm.label.0 == label.0)
}

/// Whether a message goes by the arm: it has the arm's label, and its value has the arm's sort.
#[inline(always)]
fn goes_by(arm: &Arm, label: Label, value: &Value) -> bool
    ensures { result ≡ (arm.now.label.0 == label.0) && fits value.now arm.now.sort }
{
    arm.label.0 == label.0 && value.fits(arm.sort)
}

/// The arm at that place, if the message goes by it.
#[inline(always)]
fn arm_at(arms: &[Arm], place: usize, label: Label, value: &Value) -> Option<Arm>
    requires { place < length arms.now }
    ensures { spec.arm_for (drop place arms.now) label value.now ≡ option_or result (spec.arm_for (drop (place + 1) arms.now) label value.now) }
{
    let arm = &arms[place];
    if goes_by(arm, label, value) {
        Some(*arm)
    } else {
        None
    }
}

/// The first of the arms at that place and at the next one by which the message goes.
#[inline(always)]
fn arm_of_two(arms: &[Arm], place: usize, label: Label, value: &Value) -> Option<Arm>
    requires { place + 1 < length arms.now }
    ensures { spec.arm_for (drop place arms.now) label value.now ≡ option_or result (spec.arm_for (drop (place + 2) arms.now) label value.now) }
{
    match arm_at(arms, place, label, value) {
        Some(arm) => Some(arm),
        None => arm_at(arms, place + 1, label, value),
    }
}

/// The first arm by which the message goes, of any number of arms.
fn arm_of_many(arms: &[Arm], label: Label, value: &Value) -> Option<Arm>
    ensures { result ≡ spec.arm_for arms.now label value.now }
{
    for arm in arms {
        if goes_by(arm, label, value) {
            return Some(*arm);
        }
    }
    None
}

/// The first arm by which the message goes. Most states have one to four arms, so these are tested without a loop.
#[inline(always)]
fn arm_for(arms: &[Arm], label: Label, value: &Value) -> Option<Arm>
    ensures { result ≡ spec.arm_for arms.now label value.now }
{
    if arms.len() < 2 {
        return arm_of_many(arms, label, value);
    }
    if let Some(arm) = arm_of_two(arms, 0, label, value) {
        return Some(arm);
    }
    if arms.len() < 4 {
        let (_, later) = arms.split_at(2);
        return arm_of_many(later, label, value);
    }
    if let Some(arm) = arm_of_two(arms, 2, label, value) {
        return Some(arm);
    }
    let (_, later) = arms.split_at(4);
    arm_of_many(later, label, value)
}

/// The state to which a message leads by these arms, or why it doesn't.
fn next_by_arms(arms: &[Arm], label: Label, value: &Value) -> Result<u32, Refusal>
    ensures { result ≡ spec.next_by_arms arms.now label value.now }
{
    match arm_for(arms, label, value) {
        Some(arm) => Ok(arm.next),
        None => Err(if has_label(arms, label) {
            Refusal::AnotherSort
        } else {
            Refusal::NoSuchLabel
        }),
    }
}

/// The state to which a send leads from state number `at` of the machine, or why it isn't an act of that state.
pub(crate) fn next_after_send(
    machine: &Machine,
    at: u32,
    peer: Role,
    label: Label,
    value: &Value,
) -> Result<u32, Refusal>
    ensures next { result ≡ spec.next_after (state_of (Some machine.now) at) (act.Sent peer (record { label = label; value = value.now })) }
    ensures is_act { IfOk result (λ next. IsActOf (state_of (Some machine.now) at) (act.Sent peer (record { label = label; value = value.now })) next) }
    ensures refused { IfErr result (IsRefusedFor (state_of (Some machine.now) at) (act.Sent peer (record { label = label; value = value.now }))) }
{
    send_leads(machine, at, peer, label, value)
}

/// Where a send leads, by the kind of the state.
fn send_leads(
    machine: &Machine,
    at: u32,
    peer: Role,
    label: Label,
    value: &Value,
) -> Result<u32, Refusal>
    ensures { result ≡ spec.next_after (state_of (Some machine.now) at) (act.Sent peer (record { label = label; value = value.now })) }
{
    match machine.states.get(at as usize) {
        None | Some(State::Done) => Err(Refusal::HasEnded),
        Some(State::Takes { peer: other, .. }) => Err(if other.0 == peer.0 {
            Refusal::StateReceives
        } else {
            Refusal::AnotherPeer
        }),
        Some(State::Puts { peer: other, arms }) => {
            if other.0 == peer.0 {
                next_by_arms(arms.as_slice(), label, value)
            } else {
                Err(Refusal::AnotherPeer)
            }
        }
    }
}

/// The state to which a receive leads from state number `at` of the machine, or why it isn't an act of that state.
pub(crate) fn next_after_receive(
    machine: &Machine,
    at: u32,
    peer: Role,
    label: Label,
    value: &Value,
) -> Result<u32, Refusal>
    ensures next { result ≡ spec.next_after (state_of (Some machine.now) at) (act.Received peer (record { label = label; value = value.now })) }
    ensures is_act { IfOk result (λ next. IsActOf (state_of (Some machine.now) at) (act.Received peer (record { label = label; value = value.now })) next) }
    ensures refused { IfErr result (IsRefusedFor (state_of (Some machine.now) at) (act.Received peer (record { label = label; value = value.now }))) }
{
    receive_leads(machine, at, peer, label, value)
}

/// Where a receive leads, by the kind of the state.
fn receive_leads(
    machine: &Machine,
    at: u32,
    peer: Role,
    label: Label,
    value: &Value,
) -> Result<u32, Refusal>
    ensures { result ≡ spec.next_after (state_of (Some machine.now) at) (act.Received peer (record { label = label; value = value.now })) }
{
    match machine.states.get(at as usize) {
        None | Some(State::Done) => Err(Refusal::HasEnded),
        Some(State::Puts { peer: other, .. }) => Err(if other.0 == peer.0 {
            Refusal::StateSends
        } else {
            Refusal::AnotherPeer
        }),
        Some(State::Takes { peer: other, arms }) => {
            if other.0 == peer.0 {
                next_by_arms(arms.as_slice(), label, value)
            } else {
                Err(Refusal::AnotherPeer)
            }
        }
    }
}
