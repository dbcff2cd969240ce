//! Labels with their sorts, so that a receive is compared with all before it at once.
ghost use Rattle.std.specs.Prelude.{◌≡◌, ◌<◌, true, length};
ghost use Rattle.std.specs.List.{All};
ghost use Rattle.rs_project.specs.Noted.{AllNoted, IsNotedTalk, IsNotedWith, KeepsNotes};

use rs_model::{Arm, MOST_LABELS, NoMemory, Node, Protocol, Role, Sort};
use std::alloc::Global;

// With fewer talks it costs less to compare each with each.
const FEW: usize = 5;

/// What was noted of receives: for each label its sort. The notes are of all receives so far, or of none.
#[derive(Drop)]
pub struct Notes {
    pub sorts: Vec<Option<Sort>>,
    pub tell: bool,
}

impl Notes {
    /// Nothing is noted yet; for few talks nothing will be.
    pub fn new(alloc: Global, talks: usize) -> Result<Notes, NoMemory> {
        if talks < FEW {
            return Ok(Notes {
                sorts: Vec::new(alloc),
                tell: false,
            });
        }
        Ok(Notes {
            sorts: vec![in alloc; None; MOST_LABELS]?,
            tell: true,
        })
    }
}

/// The sender of the first talk.
pub fn first_sender(protocol: &Protocol, talks: &[u32]) -> Role
    requires { All (λ t. t < length protocol.now.nodes) talks.now }
{
    match talks {
        [] => Role(0),
        [first, ..] => match &protocol.nodes[*first as usize] {
            Node::Finished => Role(0),
            Node::Talk { sender, .. } => *sender,
        },
    }
}

/// Notes a receive of the role from the sender, where no label was noted with another sort; whether it did.
pub fn joins(sorts: &mut Vec<Option<Sort>>, role: Role, sender: Role, node: &Node) -> bool
    ensures noted { result ≡ true → IsNotedTalk role sender sorts.new.items node.now }
    ensures keeps { KeepsNotes sorts.old.items sorts.new.items }
{
    match node {
        Node::Finished => false,
        Node::Talk {
            sender: from,
            receiver,
            arms,
        } => {
            if from.0 == sender.0 && receiver.0 == role.0 {
                note_all(sorts, arms.as_slice())
            } else {
                false
            }
        }
    }
}

fn note_all(sorts: &mut Vec<Option<Sort>>, arms: &[Arm]) -> bool
    ensures noted { result ≡ true → AllNoted sorts.new.items arms.now }
    ensures keeps { KeepsNotes sorts.old.items sorts.new.items }
{
    for arm in arms {
        if !note(sorts, *arm) {
            return false;
        }
    }
    true
}

// Notes the arm's label with its sort, where it wasn't noted with another; whether it did.
fn note(sorts: &mut Vec<Option<Sort>>, arm: Arm) -> bool
    ensures noted { result ≡ true → IsNotedWith sorts.new.items arm }
    ensures keeps { KeepsNotes sorts.old.items sorts.new.items }
{
    let label = usize::from(arm.label.0);
    if label >= sorts.len() {
        return false;
    }
    match sorts[label] {
        Some(sort) => sort == arm.sort,
        None => {
            sorts[label] = Some(arm.sort);
            true
        }
    }
}
