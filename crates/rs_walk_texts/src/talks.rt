//! How talks of a protocol are written.

ghost use Rattle.std.specs.Prelude.{◌≡◌, ◌++◌, slice_get, OnOk};
ghost use Rattle.rs_walk_texts.specs.Heads as spec;

use crate::acts::{push_arm, push_choice, push_role};
use crate::positions::{position_of, push_at};
use rs_model::{Arm, Names, NoMemory, Node, Role};
use rs_places::Position;
use rs_text::Text;

/// Writes `A->B`.
pub(crate) fn push_way(
    text: &mut Text,
    names: &Names,
    sender: Role,
    receiver: Role,
) -> Result<(), NoMemory>
    ensures { OnOk result (text.new ≡ text.old ++ spec.way_text names.now sender receiver) }
{
    push_role(text, names, sender)?;
    text.push(b"->")?;
    push_role(text, names, receiver)
}

/// Writes a talk by one of its arms, as `A->B:x(sort)`. Refused memory is the only error.
pub fn push_talk_by(
    text: &mut Text,
    names: &Names,
    sender: Role,
    receiver: Role,
    arm: Arm,
) -> Result<(), NoMemory>
    ensures { OnOk result (text.new ≡ text.old ++ spec.talk_by_text names.now sender receiver arm) }
{
    push_way(text, names, sender, receiver)?;
    text.push(b":")?;
    push_arm(text, names, arm)
}

/// Writes what stands at a node: `A->B:x(sort)` with one arm, `A->B{x(sort), y()}` with several, and `the end`. Refused
/// memory is the only error.
pub fn push_talk(text: &mut Text, names: &Names, node: &Node) -> Result<(), NoMemory>
    ensures { OnOk result (text.new ≡ text.old ++ spec.talk_text names.now node.now) }
{
    match node {
        Node::Finished => text.push(b"the end"),
        Node::Talk {
            sender,
            receiver,
            arms,
        } => {
            push_way(text, names, *sender, *receiver)?;
            push_choice(text, names, b":", arms.as_slice())
        }
    }
}

// The talk at the node with that number, where there is one.
fn push_talk_of(text: &mut Text, names: &Names, nodes: &[Node], number: u32) -> Result<(), NoMemory>
    ensures { OnOk result (text.new ≡ text.old ++ spec.maybe_talk_text names.now (slice_get nodes.now number)) }
{
    match nodes.get(number as usize) {
        Some(node) => push_talk(text, names, node),
        None => Ok(()),
    }
}

/// Writes `TALK at L:C`, the talk at the node with that number and its position, and nothing for what there isn't.
/// Refused memory is the only error.
pub fn push_placed_talk(
    text: &mut Text,
    names: &Names,
    nodes: &[Node],
    positions: &[Position],
    number: u32,
) -> Result<(), NoMemory>
    ensures { OnOk result (text.new ≡ text.old ++ spec.placed_talk_text names.now nodes.now positions.now number) }
{
    push_talk_of(text, names, nodes, number)?;
    push_at(text, position_of(positions, number))
}
