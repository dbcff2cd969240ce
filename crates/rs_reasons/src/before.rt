//! What a role has had before two members of a front, where the ways to both part nowhere.

ghost use Rattle.std.specs.Prelude.{◌≡◌, ◌++◌, OnOk, Some};
ghost use Rattle.std.specs.List.{flat_map, list_any};
ghost use Rattle.rs_reasons.specs.Before as spec;
ghost use Rattle.rs_text.specs.NamePlaces.{name_at};

use crate::at::position_at;
use rs_model::{Arm, Label, Names, NoMemory, Node, Protocol, Role};
use rs_places::Position;
use rs_text::Text;
use rs_text::shown::push_name;
use rs_walk_texts::{push_at, push_placed_talk, push_talk_by};
use std::marker::Model;

/// Two members of a front that the role can't tell apart, the talk `a` and the talk `b` or the end, and of each node whether
/// the role may meet the one first from there, and whether it may meet the other.
#[derive(Drop)]
pub struct Clash<'a> {
    pub names: &'a Names,
    pub protocol: &'a Protocol,
    pub talks: &'a [Position],
    pub role: Role,
    pub a: u32,
    pub b: Option<u32>,
    pub ones: &'a [bool],
    pub others: &'a [bool],
}

impl<'a> Model for Clash<'a> {
    ghost use Rattle.rs_reasons.specs.Before.{Clash_data};

    ghost Value = { Clash_data };

    ghost view = { λ c. record { names = c.names.now; protocol = c.protocol.now; talks = c.talks.now; role = c.role; a = c.a; b = c.b; ones = c.ones.now; others = c.others.now } };
}

// Whether the role takes part in the talk.
fn takes_part(role: Role, node: &Node) -> bool
    ensures { result ≡ spec.takes_part role node.now }
{
    match node {
        Node::Finished => false,
        Node::Talk {
            sender,
            receiver,
            ..
        } => sender.0 == role.0 || receiver.0 == role.0,
    }
}

// The flag of the node with the number.
fn flag_at(flags: &[bool], n: u32) -> bool
    ensures { result ≡ spec.flag_at flags.now n }
{
    match flags.get(n as usize) {
        Some(flag) => *flag,
        None => false,
    }
}

// Whether some arm has the label and leads to a flagged node.
fn arms_lead(flags: &[bool], label: Label, arms: &[Arm]) -> bool
    ensures { result ≡ spec.arms_lead flags.now label arms.now }
{
    for arm in arms {
        if arm.label.0 == label.0 && flag_at(flags, arm.next) {
            return true;
        }
    }
    false
}

// Whether the node is a talk of the role, and such an arm leads on.
fn talk_leads(role: Role, flags: &[bool], label: Label, node: &Node) -> bool
    ensures { result ≡ spec.talk_leads role flags.now label node.now }
{
    match node {
        Node::Finished => false,
        Node::Talk { arms, .. } => {
            takes_part(role, node) && arms_lead(flags, label, arms.as_slice())
        }
    }
}

// Whether such an arm leads on at some node.
fn nodes_lead(role: Role, flags: &[bool], label: Label, nodes: &[Node]) -> bool
    ensures { result ≡ list_any (spec.talk_leads role flags.now label) nodes.now }
{
    for node in nodes {
        if talk_leads(role, flags, label, node) {
            return true;
        }
    }
    false
}

// Whether behind some message of the role with the label the role may be at a flagged node.
fn may_lead(clash: &Clash, flags: &[bool], label: Label) -> bool
    ensures { result ≡ spec.may_lead clash.now flags.now label }
{
    let protocol = clash.protocol;
    nodes_lead(clash.role, flags, label, protocol.nodes.as_slice())
}

// The name of the role.
fn push_own_role(text: &mut Text, clash: &Clash) -> Result<(), NoMemory>
    ensures { OnOk result (text.new ≡ text.old ++ name_at clash.now.names.roles clash.now.role.0) }
{
    let names = clash.names;
    push_name(text, names.roles.as_slice(), usize::from(clash.role.0))
}

// That there is nothing more for the role.
fn push_nothing(text: &mut Text, clash: &Clash) -> Result<(), NoMemory>
    ensures { OnOk result (text.new ≡ text.old ++ spec.member_text clash.now None) }
{
    text.push(b"nothing more for ")?;
    push_own_role(text, clash)
}

// A member of the front.
fn push_member(text: &mut Text, clash: &Clash, member: Option<u32>) -> Result<(), NoMemory>
    ensures { OnOk result (text.new ≡ text.old ++ spec.member_text clash.now member) }
{
    let protocol = clash.protocol;
    match member {
        Some(node) => push_placed_talk(
            text,
            clash.names,
            protocol.nodes.as_slice(),
            clash.talks,
            node,
        ),
        None => push_nothing(text, clash),
    }
}

// The talk with that number by the arm.
fn push_message(
    text: &mut Text,
    clash: &Clash,
    number: usize,
    sender: Role,
    receiver: Role,
    arm: Arm,
) -> Result<(), NoMemory>
    ensures { OnOk result (text.new ≡ text.old ++ spec.message_item clash.now number sender receiver arm) }
{
    text.push(b"- ")?;
    push_talk_by(text, clash.names, sender, receiver, arm)?;
    push_at(text, position_at(clash.talks, number))
}

// The line of an arm, and of the member that may come behind it.
fn push_then(
    text: &mut Text,
    clash: &Clash,
    number: usize,
    sender: Role,
    receiver: Role,
    arm: Arm,
    member: Option<u32>,
) -> Result<(), NoMemory>
    ensures { OnOk result (text.new ≡ text.old ++ spec.then_line clash.now number sender receiver arm member) }
{
    push_message(text, clash, number, sender, receiver, arm)?;
    text.push(b", and then ")?;
    push_member(text, clash, member)?;
    text.push(b"\n")
}

// That line, where the member may come behind the arm, and the other one behind a message with the same label.
fn push_toward(
    text: &mut Text,
    clash: &Clash,
    number: usize,
    sender: Role,
    receiver: Role,
    arm: Arm,
    here: &[bool],
    there: &[bool],
    member: Option<u32>,
) -> Result<(), NoMemory>
    ensures { OnOk result (text.new ≡ text.old ++ spec.line_toward clash.now number sender receiver arm here.now there.now member) }
{
    if flag_at(here, arm.next) && may_lead(clash, there, arm.label) {
        push_then(text, clash, number, sender, receiver, arm, member)
    } else {
        Ok(())
    }
}

// The line of an arm behind which the one member may come.
fn push_toward_one(
    text: &mut Text,
    clash: &Clash,
    number: usize,
    sender: Role,
    receiver: Role,
    arm: Arm,
) -> Result<(), NoMemory>
    ensures { OnOk result (text.new ≡ text.old ++ spec.line_toward clash.now number sender receiver arm clash.now.ones clash.now.others (Some clash.now.a)) }
{
    let here = clash.ones;
    let there = clash.others;
    push_toward(
        text,
        clash,
        number,
        sender,
        receiver,
        arm,
        here,
        there,
        Some(clash.a),
    )
}

// The line of an arm behind which the other member may come.
fn push_toward_other(
    text: &mut Text,
    clash: &Clash,
    number: usize,
    sender: Role,
    receiver: Role,
    arm: Arm,
) -> Result<(), NoMemory>
    ensures { OnOk result (text.new ≡ text.old ++ spec.line_toward clash.now number sender receiver arm clash.now.others clash.now.ones clash.now.b) }
{
    let here = clash.others;
    let there = clash.ones;
    push_toward(
        text, clash, number, sender, receiver, arm, here, there, clash.b,
    )
}

// The lines of an arm.
fn push_arm_lines(
    text: &mut Text,
    clash: &Clash,
    number: usize,
    sender: Role,
    receiver: Role,
    arm: Arm,
) -> Result<(), NoMemory>
    ensures { OnOk result (text.new ≡ text.old ++ spec.arm_lines clash.now number sender receiver arm) }
{
    push_toward_one(text, clash, number, sender, receiver, arm)?;
    push_toward_other(text, clash, number, sender, receiver, arm)
}

// The lines of the arms.
fn push_arms(
    text: &mut Text,
    clash: &Clash,
    number: usize,
    sender: Role,
    receiver: Role,
    arms: &[Arm],
) -> Result<(), NoMemory>
    ensures { OnOk result (text.new ≡ text.old ++ flat_map (spec.arm_lines clash.now number sender receiver) arms.now) }
{
    for arm in arms {
        push_arm_lines(text, clash, number, sender, receiver, *arm)?;
    }
    Ok(())
}

// The lines of a talk of the role.
fn push_talk_lines(
    text: &mut Text,
    clash: &Clash,
    number: usize,
    node: &Node,
) -> Result<(), NoMemory>
    ensures { OnOk result (text.new ≡ text.old ++ spec.talk_lines clash.now number node.now) }
{
    match node {
        Node::Finished => Ok(()),
        Node::Talk {
            sender,
            receiver,
            arms,
        } => {
            if takes_part(clash.role, node) {
                push_arms(text, clash, number, *sender, *receiver, arms.as_slice())
            } else {
                Ok(())
            }
        }
    }
}

// The lines of these nodes.
fn push_nodes(text: &mut Text, clash: &Clash, nodes: &[Node]) -> Result<(), NoMemory>
    ensures { OnOk result (text.new ≡ text.old ++ spec.nodes_lines clash.now 0 nodes.now) }
{
    for number in 0..nodes.len() {
        push_talk_lines(text, clash, number, &nodes[number])?;
    }
    Ok(())
}

// The lines of all nodes.
fn push_all_nodes(text: &mut Text, clash: &Clash) -> Result<(), NoMemory>
    ensures { OnOk result (text.new ≡ text.old ++ spec.nodes_lines clash.now 0 clash.now.protocol.nodes) }
{
    let protocol = clash.protocol;
    push_nodes(text, clash, protocol.nodes.as_slice())
}

// The line that leads to the messages.
fn push_before_head(text: &mut Text, clash: &Clash) -> Result<(), NoMemory>
    ensures { OnOk result (text.new ≡ text.old ++ spec.before_head clash.now) }
{
    text.push(b"before both ")?;
    push_own_role(text, clash)?;
    text.push(b" has the same messages:\n")
}

/// Writes the messages of the role that have one label and lead to both members, a line each. Refused memory is the only
/// error.
pub(crate) fn push_before(text: &mut Text, clash: &Clash) -> Result<(), NoMemory>
    ensures { OnOk result (text.new ≡ text.old ++ spec.before_lines clash.now) }
{
    push_before_head(text, clash)?;
    push_all_nodes(text, clash)
}
