//! What is told of a protocol that has no projection onto a role.

ghost use Rattle.std.specs.Prelude.{◌≡◌, ◌++◌, ◌<◌, ◌^◌, IfOk, OnOk, Some, length, slice_get};
ghost use Rattle.rs_reasons.specs.Unprojectable as spec;
ghost use Rattle.rs_text.specs.NamePlaces.{name_at};
ghost use Rattle.rs_wellformed.specs.WellFormed.{IsWellFormed};

use crate::before::{Clash, push_before};
use crate::waits::push_waiting;
use rs_model::{Arm, Names, NoMemory, Node, Protocol, Role};
use rs_partings::{Parting, meets_member, parting, waiting_round};
use rs_places::Position;
use rs_project::ProjFault;
use rs_text::Text;
use rs_text::shown::push_name;
use rs_walk_texts::push_placed_talk;
use std::alloc::Global;

// `- A->B:x(sort) at L:C`, a line.
fn push_talk_item(
    text: &mut Text,
    names: &Names,
    protocol: &Protocol,
    talks: &[Position],
    node: u32,
) -> Result<(), NoMemory>
    ensures { OnOk result (text.new ≡ text.old ++ spec.talk_item names.now protocol.now talks.now node) }
{
    text.push(b"- ")?;
    push_placed_talk(text, names, protocol.nodes.as_slice(), talks, node)?;
    text.push(b"\n")
}

// The line of a member of a front.
fn push_member_item(
    text: &mut Text,
    names: &Names,
    protocol: &Protocol,
    talks: &[Position],
    role: Role,
    member: Option<u32>,
) -> Result<(), NoMemory>
    ensures { OnOk result (text.new ≡ text.old ++ spec.member_item names.now protocol.now talks.now role member) }
{
    match member {
        Some(node) => push_talk_item(text, names, protocol, talks, node),
        None => push_nothing_item(text, names, role),
    }
}

// That there is nothing more for the role, a line.
fn push_nothing_item(text: &mut Text, names: &Names, role: Role) -> Result<(), NoMemory>
    ensures { OnOk result (text.new ≡ text.old ++ spec.nothing_item names.now role) }
{
    text.push(b"- nothing more for ")?;
    push_role(text, names, role)?;
    text.push(b"\n")
}

/// Writes the name of the role.
pub(crate) fn push_role(text: &mut Text, names: &Names, role: Role) -> Result<(), NoMemory>
    ensures { OnOk result (text.new ≡ text.old ++ name_at names.now.roles role.0) }
{
    push_name(text, names.roles.as_slice(), usize::from(role.0))
}

// The role sends in both talks, to these receivers.
fn push_sends_apart(
    text: &mut Text,
    names: &Names,
    role: Role,
    one: Role,
    other: Role,
) -> Result<(), NoMemory>
    ensures { OnOk result (text.new ≡ text.old ++ spec.sends_apart names.now role one other) }
{
    push_role(text, names, role)?;
    if one.0 == other.0 {
        text.push(b" would send other messages to ")?;
        push_role(text, names, one)?;
        text.push(b" in the one case than in the other")
    } else {
        text.push(b" would send to ")?;
        push_role(text, names, one)?;
        text.push(b" in the one case and to ")?;
        push_role(text, names, other)?;
        text.push(b" in the other")
    }
}

// A message of the sender has two sorts.
fn push_two_sorts(text: &mut Text, names: &Names, sender: Role) -> Result<(), NoMemory>
    ensures { OnOk result (text.new ≡ text.old ++ spec.two_sorts names.now sender) }
{
    text.push(b"a message that comes from ")?;
    push_role(text, names, sender)?;
    text.push(b" in both cases has two sorts")
}

// The role receives from two senders.
fn push_two_senders(
    text: &mut Text,
    names: &Names,
    role: Role,
    one: Role,
    other: Role,
) -> Result<(), NoMemory>
    ensures { OnOk result (text.new ≡ text.old ++ spec.two_senders names.now role one other) }
{
    push_role(text, names, role)?;
    text.push(b" would wait for ")?;
    push_role(text, names, one)?;
    text.push(b" in the one case and for ")?;
    push_role(text, names, other)?;
    text.push(b" in the other")
}

// The role receives in both talks, from these senders.
fn push_waits_apart(
    text: &mut Text,
    names: &Names,
    role: Role,
    one: Role,
    other: Role,
) -> Result<(), NoMemory>
    ensures { OnOk result (text.new ≡ text.old ++ spec.waits_apart names.now role one other) }
{
    if one.0 == other.0 {
        push_two_sorts(text, names, one)
    } else {
        push_two_senders(text, names, role, one, other)
    }
}

// The role sends in one of two talks and receives in the other.
fn push_turns_apart(text: &mut Text, names: &Names, role: Role) -> Result<(), NoMemory>
    ensures { OnOk result (text.new ≡ text.old ++ spec.turns_apart names.now role) }
{
    push_role(text, names, role)?;
    text.push(b" would send in the one case and wait in the other")
}

// Why the role, which takes part in both talks, can't do the one as the other.
fn push_talks_apart(
    text: &mut Text,
    names: &Names,
    role: Role,
    one: &Node,
    other: &Node,
) -> Result<(), NoMemory>
    ensures { OnOk result (text.new ≡ text.old ++ spec.talks_apart names.now role (Some one.now) (Some other.now)) }
{
    let Node::Talk {
        sender,
        receiver,
        ..
    } = one
    else {
        return Ok(());
    };
    let Node::Talk {
        sender: sender_there,
        receiver: receiver_there,
        ..
    } = other
    else {
        return Ok(());
    };
    if sender.0 == role.0 {
        if sender_there.0 == role.0 {
            push_sends_apart(text, names, role, *receiver, *receiver_there)
        } else {
            push_turns_apart(text, names, role)
        }
    } else if sender_there.0 == role.0 {
        push_turns_apart(text, names, role)
    } else {
        push_waits_apart(text, names, role, *sender, *sender_there)
    }
}

// The same of the talks with these numbers.
fn push_nodes_apart(
    text: &mut Text,
    names: &Names,
    nodes: &[Node],
    role: Role,
    a: u32,
    b: u32,
) -> Result<(), NoMemory>
    ensures { OnOk result (text.new ≡ text.old ++ spec.talks_apart names.now role (slice_get nodes.now a) (slice_get nodes.now b)) }
{
    let Some(one) = nodes.get(a as usize) else {
        return Ok(());
    };
    let Some(other) = nodes.get(b as usize) else {
        return Ok(());
    };
    push_talks_apart(text, names, role, one, other)
}

// Why the role can't do the one member as the other.
fn push_members_apart(
    text: &mut Text,
    names: &Names,
    protocol: &Protocol,
    role: Role,
    a: u32,
    b: Option<u32>,
) -> Result<(), NoMemory>
    ensures { OnOk result (text.new ≡ text.old ++ spec.members_apart names.now protocol.now role a b) }
{
    match b {
        Some(b) => push_nodes_apart(text, names, &protocol.nodes, role, a, b),
        None => {
            push_role(text, names, role)?;
            text.push(b" takes part in the one case and has nothing more to do in the other")
        }
    }
}

// The same, as a line.
fn push_apart_line(
    text: &mut Text,
    names: &Names,
    protocol: &Protocol,
    role: Role,
    a: u32,
    b: Option<u32>,
) -> Result<(), NoMemory>
    ensures { OnOk result (text.new ≡ text.old ++ spec.apart_line names.now protocol.now role a b) }
{
    text.push(b"why: ")?;
    push_members_apart(text, names, protocol, role, a, b)?;
    text.push(b"\n")
}

// The lines of the two members that the role can't tell apart, and why not.
fn push_clash(
    text: &mut Text,
    names: &Names,
    protocol: &Protocol,
    talks: &[Position],
    role: Role,
    a: u32,
    b: Option<u32>,
) -> Result<(), NoMemory>
    ensures { OnOk result (text.new ≡ text.old ++ spec.clash_lines names.now protocol.now talks.now role a b) }
{
    push_role(text, names, role)?;
    text.push(b" can't tell which comes next:\n")?;
    push_talk_item(text, names, protocol, talks, a)?;
    push_member_item(text, names, protocol, talks, role, b)?;
    push_apart_line(text, names, protocol, role, a, b)
}

// The label of the arm at the place.
fn push_label(text: &mut Text, names: &Names, arms: &[Arm], place: u32) -> Result<(), NoMemory>
    ensures { OnOk result (text.new ≡ text.old ++ spec.arm_label names.now (slice_get arms.now place)) }
{
    match arms.get(place as usize) {
        Some(arm) => push_name(text, names.labels.as_slice(), usize::from(arm.label.0)),
        None => Ok(()),
    }
}

// The label of the node's arm at the place.
fn push_label_at(
    text: &mut Text,
    names: &Names,
    nodes: &[Node],
    node: u32,
    place: u32,
) -> Result<(), NoMemory>
    ensures { OnOk result (text.new ≡ text.old ++ spec.label_at names.now (slice_get nodes.now node) place) }
{
    match nodes.get(node as usize) {
        Some(Node::Talk { arms, .. }) => push_label(text, names, arms.as_slice(), place),
        Some(Node::Finished) | None => Ok(()),
    }
}

// Where the ways part, and by which labels.
fn push_parting(
    text: &mut Text,
    names: &Names,
    protocol: &Protocol,
    talks: &[Position],
    parting: Parting,
) -> Result<(), NoMemory>
    ensures { OnOk result (text.new ≡ text.old ++ spec.parting_line names.now protocol.now talks.now parting) }
{
    let nodes = protocol.nodes.as_slice();
    text.push(b"they part at ")?;
    push_placed_talk(text, names, nodes, talks, parting.talk)?;
    text.push(b", by ")?;
    push_label_at(text, names, nodes, parting.talk, parting.one)?;
    text.push(b" and ")?;
    push_label_at(text, names, nodes, parting.talk, parting.other)?;
    text.push(b"\n")
}

// The line of where the ways part, or the messages that come before both.
fn push_where(text: &mut Text, clash: &Clash, parting: Option<Parting>) -> Result<(), NoMemory>
    ensures { OnOk result (text.new ≡ text.old ++ spec.where_lines clash.now parting) }
{
    match parting {
        Some(parting) => push_parting(text, clash.names, clash.protocol, clash.talks, parting),
        None => push_before(text, clash),
    }
}

// Both members, and where the ways to them part.
fn push_clash_and_where(
    text: &mut Text,
    clash: &Clash,
    parting: Option<Parting>,
) -> Result<(), NoMemory>
    ensures { OnOk result (text.new ≡ text.old ++ spec.clash_text clash.now parting) }
{
    push_clash(
        text,
        clash.names,
        clash.protocol,
        clash.talks,
        clash.role,
        clash.a,
        clash.b,
    )?;
    push_where(text, clash, parting)
}

// The text of both.
fn text_of_clash(alloc: Global, clash: &Clash, parting: Option<Parting>) -> Result<Text, NoMemory>
    ensures { IfOk result (λ t. t ≡ spec.clash_text clash.now parting) }
{
    let mut text = Text::new(alloc);
    push_clash_and_where(&mut text, clash, parting)?;
    Ok(text)
}

/// What is told where the role can't tell apart a talk, and another one or the end. Refused memory is the only error.
fn clash_text(
    alloc: Global,
    names: &Names,
    protocol: &Protocol,
    talks: &[Position],
    role: Role,
    a: u32,
    b: Option<u32>,
) -> Result<Text, NoMemory>
    requires well_formed { IsWellFormed protocol.now }
    requires bounded { length protocol.now.nodes < 2 ^ 32 }
    ensures { IfOk result (spec.TellsClash names.now protocol.now talks.now role a b) }
{
    let parting = parting(alloc, protocol, role, a, b)?;
    let ones = meets_member(alloc, protocol, role, Some(a))?;
    let others = meets_member(alloc, protocol, role, b)?;
    let clash = Clash {
        names,
        protocol,
        talks,
        role,
        a,
        b,
        ones: ones.as_slice(),
        others: others.as_slice(),
    };
    text_of_clash(alloc, &clash, parting)
}

/// What is told where the role is left waiting at the node. Refused memory is the only error.
fn waiting_text(
    alloc: Global,
    names: &Names,
    protocol: &Protocol,
    talks: &[Position],
    role: Role,
    node: u32,
) -> Result<Text, NoMemory>
    requires well_formed { IsWellFormed protocol.now }
    requires bounded { length protocol.now.nodes < 2 ^ 32 }
    ensures { IfOk result (spec.TellsWaiting names.now protocol.now talks.now role node) }
{
    let round = waiting_round(alloc, protocol, role, node)?;
    let mut text = Text::new(alloc);
    push_waiting(&mut text, names, protocol, talks, role, round.as_slice())?;
    Ok(text)
}

/// What is told of a protocol that has no projection onto a role, by the reason. Refused memory is the only error.
pub fn unprojectable_text(
    alloc: Global,
    names: &Names,
    protocol: &Protocol,
    talks: &[Position],
    fault: &ProjFault,
) -> Result<Text, NoMemory>
    requires well_formed { IsWellFormed protocol.now }
    requires bounded { length protocol.now.nodes < 2 ^ 32 }
    ensures { IfOk result (spec.TellsUnprojectable names.now protocol.now talks.now fault.now) }
{
    match fault {
        ProjFault::Unmergeable { role, a, b } => {
            clash_text(alloc, names, protocol, talks, *role, *a, *b)
        }
        ProjFault::Unreached { role, node } => {
            waiting_text(alloc, names, protocol, talks, *role, *node)
        }
        ProjFault::TooManyStates { .. } => Ok(Text::new(alloc)),
        ProjFault::NoMemory => Err(NoMemory),
    }
}
