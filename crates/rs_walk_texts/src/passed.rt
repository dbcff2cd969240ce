//! The talks that a state of a projection stands for, and what they say of one of its acts.

ghost use Rattle.std.specs.Prelude.{◌≡◌, ◌++◌, IfOk, OnOk, slice_get};
ghost use Rattle.std.specs.List.{flat_map};
ghost use Rattle.rs_walk_texts.specs.Heads.{behind_comma, placed_talk_text};
ghost use Rattle.rs_walk_texts.specs.OneWay.{flagged, meeting};
ghost use Rattle.rs_walk_texts.specs.Passed as spec;

use crate::acts::push_role;
use crate::oneway::{flag_at, meeting};
use crate::positions::{position_at, push_at};
use crate::sources::WalkSource;
use crate::talks::{push_placed_talk, push_talk_by};
use rs_derive::arm_of;
use rs_model::{Arm, Label, NoMemory, Node, Role};
use rs_text::Text;
use std::alloc::Global;

/// A talk by one of its arms, and the number of its node.
#[derive(Clone, Copy, Debug)]
pub(crate) struct TalkArm {
    pub number: usize,
    pub sender: Role,
    pub receiver: Role,
    pub arm: Arm,
}

/// The talks for which the state of the projection stands.
pub(crate) fn talks_of<'a>(source: &WalkSource<'a>, above: u32) -> &'a [u32]
    ensures { result.now ≡ spec.talks_of source.now above }
{
    let projection = source.projection;
    match projection.sets.get(above as usize) {
        Some(set) => set.as_slice(),
        None => &[],
    }
}

/// What stands at the node by its arm with the label, where it is a talk that has one.
pub(crate) fn talk_with(number: usize, label: Label, node: &Node) -> Option<TalkArm>
    ensures { result ≡ spec.talk_with number label (Some node.now) }
{
    match node {
        Node::Finished => None,
        Node::Talk {
            sender,
            receiver,
            arms,
        } => {
            let arm = arm_of(arms.as_slice(), label)?;
            Some(TalkArm {
                number,
                sender: *sender,
                receiver: *receiver,
                arm,
            })
        }
    }
}

fn talk_at(nodes: &[Node], label: Label, number: u32) -> Option<TalkArm>
    ensures { result ≡ spec.talk_with number label (slice_get nodes.now number) }
{
    match nodes.get(number as usize) {
        Some(node) => talk_with(number as usize, label, node),
        None => None,
    }
}

// The first of these talks that has an arm with the label, by that arm.
fn first_talk(nodes: &[Node], label: Label, numbers: &[u32]) -> Option<TalkArm>
    ensures { result ≡ spec.first_talk nodes.now label numbers.now }
{
    for number in numbers {
        let found = talk_at(nodes, label, *number);
        if found.is_some() {
            return found;
        }
    }
    None
}

/// Writes the talk as `A->B:x(sort) at L:C`, by its arm, and nothing where there is none.
pub(crate) fn push_talk_arm(
    text: &mut Text,
    source: &WalkSource,
    talk: Option<TalkArm>,
) -> Result<(), NoMemory>
    ensures { OnOk result (text.new ≡ text.old ++ spec.talk_arm_text source.now talk) }
{
    let Some(talk) = talk else {
        return Ok(());
    };
    push_talk_by(text, source.names, talk.sender, talk.receiver, talk.arm)?;
    push_at(text, position_at(source.talks, talk.number))
}

// The talk, where its arm leads to a flagged node.
fn flagged(flags: &[bool], talk: Option<TalkArm>) -> Option<TalkArm>
    ensures { result ≡ flagged flags.now talk }
{
    let talk = talk?;
    if flag_at(flags, talk.arm.next) {
        Some(talk)
    } else {
        None
    }
}

// The first of these talks that has an arm with the label, by that arm, and leads by it to a flagged node.
fn first_flagged(nodes: &[Node], flags: &[bool], label: Label, numbers: &[u32]) -> Option<TalkArm>
    ensures { result ≡ spec.first_flagged nodes.now flags.now label numbers.now }
{
    for number in numbers {
        let leading = flagged(flags, talk_at(nodes, label, *number));
        if leading.is_some() {
            return leading;
        }
    }
    None
}

// Of several talks that have the label the first behind which the role may meet the next one first.
fn talk_before(
    alloc: Global,
    source: &WalkSource,
    label: Label,
    numbers: &[u32],
    next: TalkArm,
) -> Result<Option<TalkArm>, NoMemory>
    ensures { IfOk result (λ t. t ≡ spec.first_flagged source.now.protocol.nodes (meeting source.now.protocol.nodes source.now.machine.role next.number) label numbers.now) }
{
    let protocol = source.protocol;
    let machine = source.machine;
    let flags = meeting(alloc, &protocol.nodes, machine.role, next.number)?;
    Ok(first_flagged(&protocol.nodes, flags.as_slice(), label, numbers))
}

/// Of the talks for which the projection's state stands and that have the label the first behind which the role may meet the
/// next talk first, by its arm with the label; where there is no next one, or none of them leads to it, the first.
pub(crate) fn passed_talk(
    alloc: Global,
    source: &WalkSource,
    above: u32,
    label: Label,
    next: Option<TalkArm>,
) -> Result<Option<TalkArm>, NoMemory>
    ensures { IfOk result (λ t. t ≡ spec.passed_talk source.now above label next) }
{
    let protocol = source.protocol;
    let numbers = talks_of(source, above);
    let first = first_talk(&protocol.nodes, label, numbers);
    let Some(next) = next else {
        return Ok(first);
    };
    if numbers.len() < 2 {
        return Ok(first);
    }
    let before = talk_before(alloc, source, label, numbers, next)?;
    if before.is_some() {
        return Ok(before);
    }
    Ok(first)
}

/// Writes these talks, each with its position, or that the protocol has nothing more for the role.
pub(crate) fn push_talks(
    text: &mut Text,
    source: &WalkSource,
    numbers: &[u32],
) -> Result<(), NoMemory>
    ensures { OnOk result (text.new ≡ text.old ++ spec.talks_text source.now numbers.now) }
{
    match numbers {
        [] => push_nothing_more(text, source),
        [first, later @ ..] => {
            push_talk_of_walk(text, source, *first)?;
            push_later_talks(text, source, later)
        }
    }
}

/// Writes the name of the machine's role.
pub(crate) fn push_own_name(text: &mut Text, source: &WalkSource) -> Result<(), NoMemory>
    ensures { OnOk result (text.new ≡ text.old ++ spec.own_name source.now) }
{
    let machine = source.machine;
    push_role(text, source.names, machine.role)
}

fn push_nothing_more(text: &mut Text, source: &WalkSource) -> Result<(), NoMemory>
    ensures { OnOk result (text.new ≡ text.old ++ spec.nothing_more source.now) }
{
    text.push(b"nothing more for ")?;
    push_own_name(text, source)
}

fn push_talk_of_walk(text: &mut Text, source: &WalkSource, number: u32) -> Result<(), NoMemory>
    ensures { OnOk result (text.new ≡ text.old ++ placed_talk_text source.now.names source.now.protocol.nodes source.now.talks number) }
{
    let protocol = source.protocol;
    push_placed_talk(text, source.names, &protocol.nodes, source.talks, number)
}

fn push_later_talks(text: &mut Text, source: &WalkSource, numbers: &[u32]) -> Result<(), NoMemory>
    ensures { OnOk result (text.new ≡ text.old ++ flat_map (behind_comma (placed_talk_text source.now.names source.now.protocol.nodes source.now.talks)) numbers.now) }
{
    for number in numbers {
        text.push(b", ")?;
        push_talk_of_walk(text, source, *number)?;
    }
    Ok(())
}
