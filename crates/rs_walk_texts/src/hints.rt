//! What else is told where a walk ends: the talks behind the act that stands in the way, and a choice that isn't made yet.

ghost use Rattle.std.specs.Prelude.{◌≡◌, ◌++◌, OnOk, Some, length, slice_get};
ghost use Rattle.rs_walk_texts.specs.Dues.{due_line};
ghost use Rattle.rs_walk_texts.specs.Heads.{maybe_talk_text, placed_talk_text};
ghost use Rattle.rs_walk_texts.specs.Hints as spec;
ghost use Rattle.rs_walk_texts.specs.Owing.{newest_talk, talks_owed};

use crate::dues::{push_due_line, push_dues};
use crate::elsewhere::goes;
use crate::owing::newest_talk;
use crate::positions::{position_at, push_at};
use crate::sources::{SpotRef, WalkSource};
use crate::talks::push_talk;
use rs_derive::arm_of;
use rs_explain::{Ending, Obstacle, WalkStep};
use rs_model::{Act, Arm, Label, Names, NoMemory, Node, Role};
use rs_prefix::Pending;
use rs_text::Text;
use std::alloc::Global;

// The act that is owed at the place, where there is one.
fn owed_at(pending: &Pending, place: usize) -> Option<Act>
    ensures { result ≡ slice_get pending.now place }
{
    pending.as_slice().get(place).copied()
}

// The act that is owed and stands in the way.
fn owed_in_the_way(spot: &SpotRef, obstacle: Obstacle) -> Option<Act>
    ensures { result ≡ spec.owed_in_the_way spot.now obstacle }
{
    match obstacle {
        Obstacle::EndWhileOwing => owed_at(spot.pending, 0),
        Obstacle::ChoiceWhileOwing { place }
        | Obstacle::SendBeforeSend { place }
        | Obstacle::OwedSendOfOtherSort { place }
        | Obstacle::ReceiveBeforeReceive { place }
        | Obstacle::OwedReceiveOfOtherSort { place }
        | Obstacle::ReceiveBeforeOwedSend { place } => owed_at(spot.pending, place),
        _ => None,
    }
}

// Whether one of these arms has the label, and there is another one.
fn is_one_of_several(arms: &[Arm], label: Label) -> bool
    ensures { result ≡ spec.is_one_of_several arms.now label }
{
    1 < arms.len() && arm_of(arms, label).is_some()
}

// Whether the sender chooses at the node between several messages to the receiver, of which one has the label.
fn chooses(sender: Role, receiver: Role, label: Label, node: &Node) -> bool
    ensures { result ≡ spec.chooses sender receiver label node.now }
{
    match node {
        Node::Finished => false,
        Node::Talk { arms, .. } => {
            goes(sender, receiver, node) && is_one_of_several(arms.as_slice(), label)
        }
    }
}

// The number of the first such node.
fn first_choice(sender: Role, receiver: Role, label: Label, nodes: &[Node]) -> Option<usize>
    ensures { result ≡ spec.first_choice sender receiver label 0 nodes.now }
{
    for number in 0..nodes.len() {
        if chooses(sender, receiver, label, &nodes[number]) {
            return Some(number);
        }
    }
    None
}

// The talk at which the machine's role chooses the act.
fn choice_of(source: &WalkSource, act: Act) -> Option<usize>
    ensures { result ≡ spec.choice_of source.now act }
{
    let protocol = source.protocol;
    let machine = source.machine;
    match act {
        Act::Puts { peer, label, .. } => {
            first_choice(machine.role, peer, label, protocol.nodes.as_slice())
        }
        Act::Takes { .. } => None,
    }
}

// The first of the acts that are owed that its role chooses, by that talk.
fn owed_choice(source: &WalkSource, acts: &[Act]) -> Option<usize>
    ensures { result ≡ spec.owed_choice source.now acts.now }
{
    for act in acts {
        let found = choice_of(source, *act);
        if found.is_some() {
            return found;
        }
    }
    None
}

// Where the machine sends a message that the protocol doesn't have there: the choice that the machine hasn't made yet.
fn open_choice(source: &WalkSource, spot: &SpotRef, ending: Ending) -> Option<usize>
    ensures { result ≡ spec.open_choice source.now spot.now ending }
{
    match ending {
        Ending::Blocked(Obstacle::UnknownSend { .. }) => {
            owed_choice(source, spot.pending.as_slice())
        }
        Ending::Blocked(_) | Ending::Cut => None,
    }
}

// The talk at the place, where there is one.
fn push_talk_of(
    text: &mut Text,
    names: &Names,
    nodes: &[Node],
    number: usize,
) -> Result<(), NoMemory>
    ensures { OnOk result (text.new ≡ text.old ++ maybe_talk_text names.now (slice_get nodes.now number)) }
{
    match nodes.get(number) {
        Some(node) => push_talk(text, names, node),
        None => Ok(()),
    }
}

// The talk with that number, and its position.
fn push_talk_at(text: &mut Text, source: &WalkSource, number: usize) -> Result<(), NoMemory>
    ensures { OnOk result (text.new ≡ text.old ++ placed_talk_text source.now.names source.now.protocol.nodes source.now.talks number) }
{
    let protocol = source.protocol;
    push_talk_of(text, source.names, &protocol.nodes, number)?;
    push_at(text, position_at(source.talks, number))
}

// The line of a choice that isn't made yet.
fn push_choice_at(text: &mut Text, source: &WalkSource, number: usize) -> Result<(), NoMemory>
    ensures { OnOk result (text.new ≡ text.old ++ spec.choice_line source.now (Some number)) }
{
    text.push(b"not chosen yet: ")?;
    push_talk_at(text, source, number)?;
    text.push(b"\n")
}

// The same, where there is such a choice.
fn push_choice_line(
    text: &mut Text,
    source: &WalkSource,
    choice: Option<usize>,
) -> Result<(), NoMemory>
    ensures { OnOk result (text.new ≡ text.old ++ spec.choice_line source.now choice) }
{
    match choice {
        Some(number) => push_choice_at(text, source, number),
        None => Ok(()),
    }
}

// The line of the talk of the walk behind the newest act that is owed.
fn push_newest_due<'a>(
    alloc: Global,
    text: &mut Text,
    source: &WalkSource,
    first: &SpotRef<'a>,
    steps: &'a [WalkStep],
) -> Result<(), NoMemory>
    ensures { OnOk result (text.new ≡ text.old ++ due_line source.now (newest_talk (talks_owed source.now first.now steps.now))) }
{
    let talk = newest_talk(alloc, source, first, steps)?;
    push_due_line(text, source, talk)
}

// The lines of the talks that are due at the end of a walk.
fn push_dues_of_walk<'a>(
    alloc: Global,
    text: &mut Text,
    source: &WalkSource,
    first: &SpotRef<'a>,
    steps: &'a [WalkStep],
    spot: &SpotRef,
    ending: Ending,
) -> Result<(), NoMemory>
    ensures { OnOk result (text.new ≡ text.old ++ spec.dues_text source.now first.now steps.now spot.now ending) }
{
    match ending {
        Ending::Blocked(obstacle) => push_dues(text, source, owed_in_the_way(spot, obstacle)),
        Ending::Cut => push_newest_due(alloc, text, source, first, steps),
    }
}

/// Writes what may help to find the mistake, behind a walk from the first spot to the other one: a line for each talk that is due
/// there, and one for a choice that the machine hasn't made yet, where it sends as if it had. Refused memory is the only error.
pub fn push_hints<'a>(
    alloc: Global,
    text: &mut Text,
    source: &WalkSource,
    first: &SpotRef<'a>,
    steps: &'a [WalkStep],
    spot: &SpotRef,
    ending: Ending,
) -> Result<(), NoMemory>
    ensures { OnOk result (text.new ≡ text.old ++ spec.hints_text source.now first.now steps.now spot.now ending) }
{
    push_dues_of_walk(alloc, text, source, first, steps, spot, ending)?;
    push_choice_line(text, source, open_choice(source, spot, ending))
}
