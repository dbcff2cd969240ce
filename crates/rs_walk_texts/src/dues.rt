//! The talks that may stand behind an act that is owed.

ghost use Rattle.std.specs.Prelude.{◌≡◌, ◌++◌, OnOk};
ghost use Rattle.rs_walk_texts.specs.Dues as spec;

use crate::elsewhere::goes;
use crate::passed::{TalkArm, push_talk_arm, talk_with};
use crate::sources::WalkSource;
use rs_model::{Act, Label, NoMemory, Node, Role};
use rs_text::Text;

// The talk with the number by its arm with the label, where it goes from the sender to the receiver and has one.
fn talk_of(
    sender: Role,
    receiver: Role,
    label: Label,
    number: usize,
    node: &Node,
) -> Option<TalkArm>
    ensures { result ≡ spec.talk_of sender receiver label number node.now }
{
    if goes(sender, receiver, node) {
        talk_with(number, label, node)
    } else {
        None
    }
}

/// Writes the line of the talk, where there is one. Refused memory is the only error.
pub(crate) fn push_due_line(
    text: &mut Text,
    source: &WalkSource,
    talk: Option<TalkArm>,
) -> Result<(), NoMemory>
    ensures { OnOk result (text.new ≡ text.old ++ spec.due_line source.now talk) }
{
    match talk {
        Some(talk) => push_due_talk(text, source, talk),
        None => Ok(()),
    }
}

fn push_due_talk(text: &mut Text, source: &WalkSource, talk: TalkArm) -> Result<(), NoMemory>
    ensures { OnOk result (text.new ≡ text.old ++ spec.due_line source.now (Some talk)) }
{
    text.push(b"due: ")?;
    push_talk_arm(text, source, Some(talk))?;
    text.push(b"\n")
}

// The lines of all talks from the sender to the receiver that have the label.
fn push_due_lines(
    text: &mut Text,
    source: &WalkSource,
    sender: Role,
    receiver: Role,
    label: Label,
    nodes: &[Node],
) -> Result<(), NoMemory>
    ensures { OnOk result (text.new ≡ text.old ++ spec.due_lines source.now sender receiver label 0 nodes.now) }
{
    for number in 0..nodes.len() {
        let talk = talk_of(sender, receiver, label, number, &nodes[number]);
        push_due_line(text, source, talk)?;
    }
    Ok(())
}

/// Writes a line for each talk that may stand behind the act of the machine, as `due: A->B:x(sort) at L:C`. Refused memory
/// is the only error.
pub fn push_dues(text: &mut Text, source: &WalkSource, act: Option<Act>) -> Result<(), NoMemory>
    ensures { OnOk result (text.new ≡ text.old ++ spec.act_dues source.now act) }
{
    let protocol = source.protocol;
    let machine = source.machine;
    let nodes = protocol.nodes.as_slice();
    match act {
        None => Ok(()),
        Some(Act::Puts { peer, label, .. }) => {
            push_due_lines(text, source, machine.role, peer, label, nodes)
        }
        Some(Act::Takes { peer, label, .. }) => {
            push_due_lines(text, source, peer, machine.role, label, nodes)
        }
    }
}
