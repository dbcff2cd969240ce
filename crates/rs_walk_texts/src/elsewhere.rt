//! Messages of the machine that the protocol has between other roles alone.

ghost use Rattle.std.specs.Prelude.{◌≡◌, ◌++◌, OnOk, Some};
ghost use Rattle.rs_walk_texts.specs.Elsewhere as spec;
ghost use Rattle.rs_walk_texts.specs.Walks.{state_at};

use crate::acts::push_choice;
use crate::passed::{TalkArm, push_talk_arm};
use crate::sources::{SpotRef, WalkSource};
use crate::talks::push_way;
use rs_derive::arm_of;
use rs_model::{Arm, Names, NoMemory, Node, Role, State};
use rs_text::Text;

/// Whether the node is a talk from the sender to the receiver.
pub(crate) fn goes(sender: Role, receiver: Role, node: &Node) -> bool
    ensures { result ≡ spec.goes sender receiver node.now }
{
    match node {
        Node::Finished => false,
        Node::Talk {
            sender: s,
            receiver: r,
            ..
        } => s.0 == sender.0 && r.0 == receiver.0,
    }
}

// The first of their arms whose label one of ours has.
fn shared_arm(ours: &[Arm], theirs: &[Arm]) -> Option<Arm>
    ensures { result ≡ spec.shared_arm ours.now theirs.now }
{
    for arm in theirs {
        if arm_of(ours, arm.label).is_some() {
            return Some(*arm);
        }
    }
    None
}

// The talk by the first of its arms whose label one of ours has, where it has one.
fn talk_sharing(ours: &[Arm], number: usize, node: &Node) -> Option<TalkArm>
    ensures { result ≡ spec.talk_sharing ours.now number node.now }
{
    match node {
        Node::Finished => None,
        Node::Talk {
            sender,
            receiver,
            arms,
        } => {
            let arm = shared_arm(ours, arms.as_slice())?;
            Some(TalkArm {
                number,
                sender: *sender,
                receiver: *receiver,
                arm,
            })
        }
    }
}

// The same, where the talk goes from the sender to the receiver.
fn talk_between(
    sender: Role,
    receiver: Role,
    ours: &[Arm],
    number: usize,
    node: &Node,
) -> Option<TalkArm>
    ensures { result ≡ spec.talk_between sender receiver ours.now number node.now }
{
    if goes(sender, receiver, node) {
        talk_sharing(ours, number, node)
    } else {
        None
    }
}

// The first such talk from the sender to the receiver.
fn first_between(sender: Role, receiver: Role, ours: &[Arm], nodes: &[Node]) -> Option<TalkArm>
    ensures { result ≡ spec.first_between sender receiver ours.now 0 nodes.now }
{
    for number in 0..nodes.len() {
        let found = talk_between(sender, receiver, ours, number, &nodes[number]);
        if found.is_some() {
            return found;
        }
    }
    None
}

// The first such talk between whatever roles.
fn first_sharing(ours: &[Arm], nodes: &[Node]) -> Option<TalkArm>
    ensures { result ≡ spec.first_sharing ours.now 0 nodes.now }
{
    for number in 0..nodes.len() {
        let found = talk_sharing(ours, number, &nodes[number]);
        if found.is_some() {
            return found;
        }
    }
    None
}

// Of messages that no talk sends from the sender to the receiver, the first talk that sends one of them between other roles.
fn elsewhere(nodes: &[Node], sender: Role, receiver: Role, ours: &[Arm]) -> Option<TalkArm>
    ensures { result ≡ spec.elsewhere nodes.now sender receiver ours.now }
{
    if first_between(sender, receiver, ours, nodes).is_some() {
        None
    } else {
        first_sharing(ours, nodes)
    }
}

// The same of what a state of the role's machine sends or takes.
fn act_elsewhere(nodes: &[Node], role: Role, state: &State) -> Option<TalkArm>
    ensures { result ≡ spec.act_elsewhere nodes.now role (Some state.now) }
{
    match state {
        State::Done => None,
        State::Puts { peer, arms } => elsewhere(nodes, role, *peer, arms.as_slice()),
        State::Takes { peer, arms } => elsewhere(nodes, *peer, role, arms.as_slice()),
    }
}

/// Of what the machine sends or takes at the spot and the protocol doesn't have between these roles, the first talk that
/// sends one of the messages between other roles.
pub(crate) fn elsewhere_at(source: &WalkSource, spot: &SpotRef) -> Option<TalkArm>
    ensures { result ≡ spec.elsewhere_at source.now spot.now }
{
    let protocol = source.protocol;
    let machine = source.machine;
    match machine.states.get(spot.state as usize) {
        Some(state) => act_elsewhere(&protocol.nodes, machine.role, state),
        None => None,
    }
}

// What a state of the role's machine sends or takes, as talks have it.
fn push_as_talk(text: &mut Text, names: &Names, role: Role, state: &State) -> Result<(), NoMemory>
    ensures { OnOk result (text.new ≡ text.old ++ spec.as_talk_text names.now role (Some state.now)) }
{
    match state {
        State::Done => Ok(()),
        State::Puts { peer, arms } => {
            push_way(text, names, role, *peer)?;
            push_choice(text, names, b":", arms.as_slice())
        }
        State::Takes { peer, arms } => {
            push_way(text, names, *peer, role)?;
            push_choice(text, names, b":", arms.as_slice())
        }
    }
}

fn push_own_as_talk(text: &mut Text, source: &WalkSource, spot: &SpotRef) -> Result<(), NoMemory>
    ensures { OnOk result (text.new ≡ text.old ++ spec.as_talk_text source.now.names source.now.machine.role (state_at source.now spot.now)) }
{
    let machine = source.machine;
    match machine.states.get(spot.state as usize) {
        Some(state) => push_as_talk(text, source.names, machine.role, state),
        None => Ok(()),
    }
}

/// Writes that the protocol has no talk as the machine's state at the spot, and has the message in that one.
pub(crate) fn push_elsewhere(
    text: &mut Text,
    source: &WalkSource,
    spot: &SpotRef,
    talk: TalkArm,
) -> Result<(), NoMemory>
    ensures { OnOk result (text.new ≡ text.old ++ spec.elsewhere_text source.now spot.now talk) }
{
    text.push(b"the protocol has no ")?;
    push_own_as_talk(text, source, spot)?;
    text.push(b", and has ")?;
    push_talk_arm(text, source, Some(talk))
}
