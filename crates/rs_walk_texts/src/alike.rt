//! Labels of the machine that may be misspelt ones of the protocol.

ghost use Rattle.std.specs.Prelude.{◌≡◌, ◌++◌, OnOk, map, slice_get, Some};
ghost use Rattle.std.specs.List.{find};
ghost use Rattle.rs_derive.specs.Rules.{arms_of};
ghost use Rattle.rs_text.specs.NamePlaces.{name_at};
ghost use Rattle.rs_walk_texts.specs.Alike as spec;
ghost use Rattle.rs_walk_texts.specs.Walks.{state_at};

use crate::acts::push_label;
use crate::nearness::distance;
use crate::sources::{SpotRef, WalkSource};
use rs_derive::{arm_of, arms_at};
use rs_explain::{Ending, Obstacle};
use rs_model::{Act, Arm, Label, Names, NoMemory, Node, Role, State};
use rs_text::Text;

/// A label of the machine, and one of the protocol.
#[derive(Clone, Copy, Debug, PartialEq, Eq)]
pub(crate) struct LabelPair {
    pub own: Label,
    pub theirs: Label,
}

// The name of the label.
fn name_of(names: &Names, label: Label) -> &[u8]
    ensures { result.now ≡ name_at names.now.labels label.0 }
{
    match names.labels.get(usize::from(label.0)) {
        Some(name) => name.as_slice(),
        None => &[],
    }
}

// How far the names of both are from each other, where they are near.
fn label_distance(names: &Names, pair: LabelPair) -> Option<u32>
    ensures { result ≡ spec.label_distance names.now pair }
{
    distance(name_of(names, pair.own), name_of(names, pair.theirs))
}

fn is_this(far: u32, distance: Option<u32>) -> bool
    ensures { result ≡ spec.is_this far distance }
{
    match distance {
        Some(distance) => distance == far,
        None => false,
    }
}

// Whether the node is a talk from the sender to the receiver that has the label.
fn sends_label(sender: Role, receiver: Role, label: Label, node: &Node) -> bool
    ensures { result ≡ spec.sends_label sender receiver label node.now }
{
    match node {
        Node::Finished => false,
        Node::Talk {
            sender: s,
            receiver: r,
            arms,
        } => s.0 == sender.0 && r.0 == receiver.0 && arm_of(arms.as_slice(), label).is_some(),
    }
}

// Whether the protocol sends the label from the sender to the receiver.
fn is_known(nodes: &[Node], sender: Role, receiver: Role, label: Label) -> bool
    ensures { result ≡ spec.is_known nodes.now sender receiver label }
{
    for node in nodes {
        if sends_label(sender, receiver, label, node) {
            return true;
        }
    }
    false
}

// Whether it sends the label between the role and the peer, the way that the role's state goes.
fn is_known_beside(nodes: &[Node], role: Role, state: &State, label: Label) -> bool
    ensures { result ≡ spec.is_known_there nodes.now role (Some state.now) label }
{
    match state {
        State::Done => false,
        State::Puts { peer, .. } => is_known(nodes, role, *peer, label),
        State::Takes { peer, .. } => is_known(nodes, *peer, role, label),
    }
}

// The same of the machine's state at the spot.
fn is_known_there(source: &WalkSource, spot: &SpotRef, label: Label) -> bool
    ensures { result ≡ spec.is_known_there source.now.protocol.nodes source.now.machine.role (state_at source.now spot.now) label }
{
    let protocol = source.protocol;
    let machine = source.machine;
    match machine.states.get(spot.state as usize) {
        Some(state) => is_known_beside(&protocol.nodes, machine.role, state, label),
        None => false,
    }
}

// How far the machine's label is from the other, where it may be this one misspelt: the protocol doesn't send it that way, and
// the names are near each other.
fn slip_distance(source: &WalkSource, spot: &SpotRef, pair: LabelPair) -> Option<u32>
    ensures { result ≡ spec.slip_distance source.now spot.now pair }
{
    if is_known_there(source, spot, pair.own) {
        return None;
    }
    label_distance(source.names, pair)
}

// Whether it may be misspelt, and is as far as this from the other.
fn is_slip(source: &WalkSource, spot: &SpotRef, far: u32, pair: LabelPair) -> bool
    ensures { result ≡ spec.is_slip source.now spot.now far pair }
{
    is_this(far, slip_distance(source, spot, pair))
}

// The first of the arms of which our label may be misspelt, as one of theirs.
fn nearest_of_theirs(
    source: &WalkSource,
    spot: &SpotRef,
    far: u32,
    own: Label,
    arms: &[Arm],
) -> Option<LabelPair>
    ensures { result ≡ find (spec.is_slip source.now spot.now far) (map (λ a. spec.label_pair own a.label) arms.now) }
{
    for arm in arms {
        let pair = LabelPair {
            own,
            theirs: arm.label,
        };
        if is_slip(source, spot, far, pair) {
            return Some(pair);
        }
    }
    None
}

// The first that may be misspelt of what stands at a node, where it is a talk from the sender to the receiver.
fn nearest_at(
    source: &WalkSource,
    spot: &SpotRef,
    far: u32,
    node: &Node,
    sender: Role,
    receiver: Role,
    own: Label,
) -> Option<LabelPair>
    ensures { result ≡ find (spec.is_slip source.now spot.now far) (spec.pairs_with sender receiver own node.now) }
{
    match node {
        Node::Talk {
            sender: s,
            receiver: r,
            arms,
        } if s.0 == sender.0 && r.0 == receiver.0 => nearest_of_theirs(
            source,
            spot,
            far,
            own,
            arms.as_slice(),
        ),
        _ => None,
    }
}

// The first that may be misspelt of all that the sender sends to the receiver.
fn nearest_between(
    source: &WalkSource,
    spot: &SpotRef,
    far: u32,
    nodes: &[Node],
    sender: Role,
    receiver: Role,
    own: Label,
) -> Option<LabelPair>
    ensures { result ≡ find (spec.is_slip source.now spot.now far) (spec.pairs_between nodes.now sender receiver own) }
{
    for node in nodes {
        let found = nearest_at(source, spot, far, node, sender, receiver, own);
        if found.is_some() {
            return found;
        }
    }
    None
}

// The first that may be misspelt of all that the protocol sends to the peer in place of that arm.
fn nearest_to(
    source: &WalkSource,
    spot: &SpotRef,
    far: u32,
    peer: Role,
    arm: Option<Arm>,
) -> Option<LabelPair>
    ensures { result ≡ find (spec.is_slip source.now spot.now far) (spec.pairs_to source.now peer arm) }
{
    let own = arm?.label;
    let protocol = source.protocol;
    let machine = source.machine;
    nearest_between(source, spot, far, &protocol.nodes, machine.role, peer, own)
}

// The first that may be misspelt where the machine sends by its arm at the place.
fn nearest_sent(source: &WalkSource, spot: &SpotRef, far: u32, place: usize) -> Option<LabelPair>
    ensures { result ≡ find (spec.is_slip source.now spot.now far) (spec.pairs_sent source.now (state_at source.now spot.now) place) }
{
    let machine = source.machine;
    match machine.states.get(spot.state as usize) {
        Some(State::Puts { peer, arms }) => {
            nearest_to(
                source,
                spot,
                far,
                *peer,
                arms.as_slice().get(place).copied(),
            )
        }
        _ => None,
    }
}

/// The label of an act.
pub(crate) fn label_of(act: Act) -> Label
    ensures { result ≡ spec.label_of act }
{
    match act {
        Act::Puts { label, .. } | Act::Takes { label, .. } => label,
    }
}

// The first of the arms whose label may be that of the act that is owed, misspelt.
fn nearest_owed(
    source: &WalkSource,
    spot: &SpotRef,
    far: u32,
    arms: &[Arm],
    act: Option<Act>,
) -> Option<LabelPair>
    ensures { result ≡ find (spec.is_slip source.now spot.now far) (spec.pairs_owed arms.now act) }
{
    let theirs = label_of(act?);
    nearest_of_own(source, spot, far, arms, theirs)
}

fn nearest_of_own(
    source: &WalkSource,
    spot: &SpotRef,
    far: u32,
    arms: &[Arm],
    theirs: Label,
) -> Option<LabelPair>
    ensures { result ≡ find (spec.is_slip source.now spot.now far) (map (λ b. spec.label_pair b.label theirs) arms.now) }
{
    for arm in arms {
        let pair = LabelPair {
            own: arm.label,
            theirs,
        };
        if is_slip(source, spot, far, pair) {
            return Some(pair);
        }
    }
    None
}

/// The arms of the machine at the spot.
pub(crate) fn own_arms<'a>(source: &WalkSource<'a>, spot: &SpotRef) -> &'a [Arm]
    ensures { result.now ≡ arms_of (state_at source.now spot.now) }
{
    let machine = source.machine;
    match machine.states.get(spot.state as usize) {
        Some(state) => arms_at(state),
        None => &[],
    }
}

// The first pair of labels of which ours may be misspelt and is as far as this, of those that may explain why a walk ends at
// the spot.
fn nearest_by(source: &WalkSource, spot: &SpotRef, far: u32, ending: Ending) -> Option<LabelPair>
    ensures { result ≡ find (spec.is_slip source.now spot.now far) (spec.pairs_at source.now spot.now ending) }
{
    match ending {
        Ending::Blocked(Obstacle::UnknownSend { arm }) => nearest_sent(source, spot, far, arm),
        Ending::Blocked(
            Obstacle::SendBeforeSend { place } | Obstacle::ReceiveBeforeReceive { place },
        ) => {
            let act = spot.pending.as_slice().get(place).copied();
            nearest_owed(source, spot, far, own_arms(source, spot), act)
        }
        _ => None,
    }
}

// Of these pairs the first of the least distance.
fn nearest(source: &WalkSource, spot: &SpotRef, ending: Ending) -> Option<LabelPair>
    ensures { result ≡ spec.nearest source.now spot.now ending }
{
    let found = nearest_by(source, spot, 0, ending);
    if found.is_some() {
        return found;
    }
    nearest_by(source, spot, 1, ending)
}

// Writes `nearest: own for theirs`, a line, where there is such a pair.
fn push_nearest(text: &mut Text, names: &Names, pair: Option<LabelPair>) -> Result<(), NoMemory>
    ensures { OnOk result (text.new ≡ text.old ++ spec.nearest_text names.now pair) }
{
    let Some(pair) = pair else {
        return Ok(());
    };
    text.push(b"nearest: ")?;
    push_label(text, names, pair.own)?;
    text.push(b" for ")?;
    push_label(text, names, pair.theirs)?;
    text.push(b"\n")
}

/// Writes a line for two labels that look alike, where they may explain why a walk ends at the spot.
pub(crate) fn push_nearest_line(
    text: &mut Text,
    source: &WalkSource,
    spot: &SpotRef,
    ending: Ending,
) -> Result<(), NoMemory>
    ensures { OnOk result (text.new ≡ text.old ++ spec.nearest_text source.now.names (spec.nearest source.now spot.now ending)) }
{
    push_nearest(text, source.names, nearest(source, spot, ending))
}
