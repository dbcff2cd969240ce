//! How it is told round which messages talks can go while a role is left waiting.

ghost use Rattle.std.specs.Prelude.{◌≡◌, ◌++◌, OnOk, Some};
ghost use Rattle.std.specs.List.{flat_map};
ghost use Rattle.rs_reasons.specs.Waits as spec;

use crate::at::position_at;
use crate::unprojectable::push_role;
use rs_model::{Arm, Names, NoMemory, Node, Protocol, Role};
use rs_places::Position;
use rs_text::Text;
use rs_walk_texts::{push_at, push_talk_by};

// Whether the node is one of those.
fn is_among(round: &[u32], node: u32) -> bool
    ensures { result ≡ spec.is_among round.now node }
{
    for number in round {
        if *number == node {
            return true;
        }
    }
    false
}

// The talk with that number by the arm, with its position.
fn push_arm_at(
    text: &mut Text,
    names: &Names,
    talks: &[Position],
    number: u32,
    sender: Role,
    receiver: Role,
    arm: Arm,
) -> Result<(), NoMemory>
    ensures { OnOk result (text.new ≡ text.old ++ spec.arm_item names.now talks.now number sender receiver arm) }
{
    text.push(b"- ")?;
    push_talk_by(text, names, sender, receiver, arm)?;
    push_at(text, position_at(talks, number as usize))?;
    text.push(b"\n")
}

// That line, where the arm leads to a talk of the round.
fn push_within(
    text: &mut Text,
    names: &Names,
    talks: &[Position],
    round: &[u32],
    number: u32,
    sender: Role,
    receiver: Role,
    arm: Arm,
) -> Result<(), NoMemory>
    ensures { OnOk result (text.new ≡ text.old ++ spec.item_within names.now talks.now round.now number sender receiver arm) }
{
    if is_among(round, arm.next) {
        push_arm_at(text, names, talks, number, sender, receiver, arm)
    } else {
        Ok(())
    }
}

// The lines of the arms.
fn push_arms_within(
    text: &mut Text,
    names: &Names,
    talks: &[Position],
    round: &[u32],
    number: u32,
    sender: Role,
    receiver: Role,
    arms: &[Arm],
) -> Result<(), NoMemory>
    ensures { OnOk result (text.new ≡ text.old ++ flat_map (spec.item_within names.now talks.now round.now number sender receiver) arms.now) }
{
    for arm in arms {
        push_within(text, names, talks, round, number, sender, receiver, *arm)?;
    }
    Ok(())
}

// The lines of the talk with the number.
fn push_talk_items(
    text: &mut Text,
    names: &Names,
    protocol: &Protocol,
    talks: &[Position],
    round: &[u32],
    number: u32,
) -> Result<(), NoMemory>
    ensures { OnOk result (text.new ≡ text.old ++ spec.talk_items names.now protocol.now talks.now round.now number) }
{
    match protocol.nodes.get(number as usize) {
        Some(
            Node::Talk {
                sender,
                receiver,
                arms,
            },
        ) => push_arms_within(
            text,
            names,
            talks,
            round,
            number,
            *sender,
            *receiver,
            arms.as_slice(),
        ),
        Some(Node::Finished) | None => Ok(()),
    }
}

// The lines of the talks with these numbers.
fn push_items(
    text: &mut Text,
    names: &Names,
    protocol: &Protocol,
    talks: &[Position],
    round: &[u32],
    numbers: &[u32],
) -> Result<(), NoMemory>
    ensures { OnOk result (text.new ≡ text.old ++ flat_map (spec.talk_items names.now protocol.now talks.now round.now) numbers.now) }
{
    for number in numbers {
        push_talk_items(text, names, protocol, talks, round, *number)?;
    }
    Ok(())
}

// The line that leads to the messages.
fn push_head_line(text: &mut Text, names: &Names, role: Role) -> Result<(), NoMemory>
    ensures { OnOk result (text.new ≡ text.old ++ spec.waiting_head names.now role) }
{
    push_role(text, names, role)?;
    text.push(b" may be left waiting while these go round:\n")
}

// The cure.
fn push_cure(text: &mut Text, names: &Names, role: Role) -> Result<(), NoMemory>
    ensures { OnOk result (text.new ≡ text.old ++ spec.cure_line names.now role) }
{
    text.push(b"cure: each time round, send ")?;
    push_role(text, names, role)?;
    text.push(b" a message, even one that says there is nothing to do\n")
}

/// Writes a line for each message that leads from one talk of the round to another, and the cure. Refused memory is the only
/// error.
pub(crate) fn push_waiting(
    text: &mut Text,
    names: &Names,
    protocol: &Protocol,
    talks: &[Position],
    role: Role,
    round: &[u32],
) -> Result<(), NoMemory>
    ensures { OnOk result (text.new ≡ text.old ++ spec.waiting_lines names.now protocol.now talks.now role round.now) }
{
    push_head_line(text, names, role)?;
    push_items(text, names, protocol, talks, round, round)?;
    push_cure(text, names, role)
}
