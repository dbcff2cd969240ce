//! The pictures of protocols.

ghost use Rattle.std.specs.Prelude.{◌≡◌, ◌<◌, ◌≤◌, ◌+◌, ◌*◌, ◌++◌, IfOk, OnOk, Some, length, slice_get};
ghost use Rattle.std.specs.List.{list_any};
ghost use Rattle.rs_model.specs.declared.graph.Node.TheVariants.{Talk};
ghost use Rattle.rs_model.specs.declared.limits.TheConstants.{MOST_TALKS};
ghost use Rattle.rs_text.specs.Sound.{IsSound};
ghost use Rattle.rs_bodies.specs.Places.{place_of_node, places_of_protocol};
ghost use Rattle.rs_bodies.specs.Shapes.{leads_to, place_leads, leads_from};
ghost use Rattle.rs_global.specs.Canonical.{IsTextShaped};
ghost use Rattle.rs_global.specs.Enough.{AreEnough};
ghost use Rattle.rs_pictures.specs.Drawing.{AddsCases, AddsPlace, AddsTalk, EndsLast, NoEndBelow};
ghost use Rattle.rs_pictures.specs.Sequences.{IsPictureOf, participant_text, participants_text};

use crate::lines::{
    push_all_end, push_back, push_case, push_close, push_loop, push_message, push_participant,
};
use rs_model::{Arm, Name, Names, NoMemory, Node, Protocol, Role};
use rs_text::Text;
use std::alloc::Global;

/// Draws a protocol as a sequence diagram: its roles as participants, each talk as a message, a choice as alternatives, and
/// what is gone back to as a loop. A role has the alias `R` and its number, so that its name may be any word.
///
/// Refused memory is the only error.
pub fn sequence_picture(alloc: Global, names: &Names, protocol: &Protocol) -> Result<Text, NoMemory>
    requires shaped { IsTextShaped protocol.now }
    requires sound { IsSound names.now }
    requires enough { AreEnough names.now protocol.now }
    ensures { IfOk result (IsPictureOf names.now protocol.now) }
{
    let mut text = Text::new(alloc);
    text.push(b"sequenceDiagram\n")?;
    push_participants(&mut text, &names.roles)?;
    draw_place(&mut text, names, protocol, 1, 0, protocol.root as usize)?;
    Ok(text)
}

fn push_participants(text: &mut Text, roles: &[Name]) -> Result<(), NoMemory>
    ensures { OnOk result (text.new ≡ text.old ++ participants_text 0 roles.now) }
{
    for number in 0..roles.len() {
        push_role(text, number as u64, &roles[number])?;
    }
    Ok(())
}

fn push_role(text: &mut Text, number: u64, name: &Name) -> Result<(), NoMemory>
    ensures { OnOk result (text.new ≡ text.old ++ participant_text number name.now) }
{
    text.push(b"    participant ")?;
    push_participant(text, number)?;
    text.push(b" as ")?;
    text.push(name.as_slice())?;
    text.push(b"\n")
}

fn leads_to(arms: &[Arm], number: usize) -> bool
    ensures { result ≡ list_any (leads_to number) arms.now }
{
    arms.iter().any(|arm| arm.next as usize == number)
}

fn node_leads(node: &Node, number: usize) -> bool
    ensures { result ≡ place_leads number (place_of_node node.now) }
{
    match node {
        Node::Finished => false,
        Node::Talk { arms, .. } => leads_to(arms.as_slice(), number),
    }
}

/// Whether an arm of the talk with this number or of a later one leads to it.
fn is_gone_back_to(protocol: &Protocol, number: usize) -> bool
    requires { number ≤ length protocol.now.nodes }
    ensures { result ≡ leads_from (places_of_protocol protocol.now) number number }
{
    let (_, later) = protocol.nodes.split_at(number);
    any_leads(later, number)
}

fn any_leads(nodes: &[Node], number: usize) -> bool
    ensures { result ≡ list_any (λ node. place_leads number (place_of_node node)) nodes.now }
{
    nodes.iter().any(|node| node_leads(node, number))
}

/// Draws what is written for a number: a talk below `from` is a loop round this place, and any other is drawn whole.
#[cycle(drawing)]
fn draw_place(
    text: &mut Text,
    names: &Names,
    protocol: &Protocol,
    depth: u64,
    from: usize,
    number: usize,
) -> Result<(), NoMemory>
    requires few { length protocol.now.nodes ≤ MOST_TALKS + 1 }
    requires roles { 1 ≤ protocol.now.roles }
    requires ends_last { EndsLast protocol.now }
    requires sound { IsSound names.now }
    requires shallow { depth ≤ 2 * from + 1 }
    requires within { from ≤ length protocol.now.nodes }
    requires behind { NoEndBelow protocol.now from }
    ensures { OnOk result (AddsPlace names.now protocol.now depth from number text.old text.new) }
{
    if number < from {
        return push_back(text, protocol.roles, depth, number as u64);
    }
    match protocol.nodes.get(number) {
        Some(
            Node::Talk {
                sender,
                receiver,
                arms,
            },
        ) => draw_loop(
            text,
            names,
            protocol,
            depth,
            number,
            *sender,
            *receiver,
            arms.as_slice(),
        ),
        Some(Node::Finished) => push_all_end(text, protocol.roles, depth),
        None => push_all_end(text, protocol.roles, depth),
    }
}

/// Draws a talk, in a loop where it is gone back to.
#[cycle(drawing)]
fn draw_loop(
    text: &mut Text,
    names: &Names,
    protocol: &Protocol,
    depth: u64,
    number: usize,
    sender: Role,
    receiver: Role,
    arms: &[Arm],
) -> Result<(), NoMemory>
    requires few { length protocol.now.nodes ≤ MOST_TALKS + 1 }
    requires roles { 1 ≤ protocol.now.roles }
    requires ends_last { EndsLast protocol.now }
    requires sound { IsSound names.now }
    requires shallow { depth ≤ 2 * number + 1 }
    requires present { number < length protocol.now.nodes }
    requires stands { slice_get protocol.now.nodes number ≡ Some (Talk sender receiver arms.now) }
    ensures { OnOk result (AddsPlace names.now protocol.now depth number number text.old text.new) }
{
    if is_gone_back_to(protocol, number) {
        push_loop(text, depth, number as u64)?;
        draw_talk(
            text,
            names,
            protocol,
            depth + 1,
            number,
            sender,
            receiver,
            arms,
        )?;
        push_close(text, depth)
    } else {
        draw_talk(text, names, protocol, depth, number, sender, receiver, arms)
    }
}

/// Draws a talk: one arm as a message, several as a choice of messages.
#[cycle(drawing)]
#[tactic(auto, using(crate::proofs::Drawn::none_below))]
fn draw_talk(
    text: &mut Text,
    names: &Names,
    protocol: &Protocol,
    depth: u64,
    number: usize,
    sender: Role,
    receiver: Role,
    arms: &[Arm],
) -> Result<(), NoMemory>
    requires few { length protocol.now.nodes ≤ MOST_TALKS + 1 }
    requires roles { 1 ≤ protocol.now.roles }
    requires ends_last { EndsLast protocol.now }
    requires sound { IsSound names.now }
    requires shallow { depth ≤ 2 * number + 2 }
    requires present { number < length protocol.now.nodes }
    requires stands { slice_get protocol.now.nodes number ≡ Some (Talk sender receiver arms.now) }
    ensures { OnOk result (AddsTalk names.now protocol.now depth number text.old text.new) }
{
    if arms.len() == 1 {
        let only = arms[0];
        push_message(text, names, depth, sender, receiver, only)?;
        draw_place(text, names, protocol, depth, number + 1, only.next as usize)
    } else {
        draw_cases(
            text,
            names,
            protocol,
            depth,
            number + 1,
            sender,
            receiver,
            true,
            arms,
        )?;
        push_close(text, depth)
    }
}

/// Draws alternatives, of which the first one begins the choice or follows others.
#[cycle(drawing)]
fn draw_cases(
    text: &mut Text,
    names: &Names,
    protocol: &Protocol,
    depth: u64,
    from: usize,
    sender: Role,
    receiver: Role,
    first: bool,
    arms: &[Arm],
) -> Result<(), NoMemory>
    requires few { length protocol.now.nodes ≤ MOST_TALKS + 1 }
    requires roles { 1 ≤ protocol.now.roles }
    requires ends_last { EndsLast protocol.now }
    requires sound { IsSound names.now }
    requires shallow { depth ≤ 2 * from }
    requires within { from ≤ length protocol.now.nodes }
    requires behind { NoEndBelow protocol.now from }
    ensures { OnOk result (AddsCases names.now protocol.now depth from sender receiver first arms.now text.old text.new) }
{
    match arms.split_first() {
        None => Ok(()),
        Some((arm, later)) => {
            push_case(text, names, depth, first, *arm)?;
            push_message(text, names, depth + 1, sender, receiver, *arm)?;
            draw_place(text, names, protocol, depth + 1, from, arm.next as usize)?;
            draw_cases(
                text, names, protocol, depth, from, sender, receiver, false, later,
            )
        }
    }
}
