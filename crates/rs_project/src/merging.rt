//! Choices of several talks as one state's arms.
ghost use Rattle.std.specs.Prelude.{◌≡◌, ◌<◌, ◌++◌, ◌∷◌, [], ◌==◌, true, map, length, slice_get, Some, IfOk, IfSome, OnOk};
ghost use Rattle.std.specs.List.{All, flat_map, list_any};
ghost use Rattle.rs_project.specs.Marks.{arms_of_node, labelled_nexts, labelled_nexts_of};
ghost use Rattle.rs_project.specs.Projection.{choice_of, choices_of, first_choices, merged_choices};
ghost use Rattle.rs_project.specs.Working.{AreLedBy, IsOneChoice};

use rs_model::{Arm, Label, NoMemory, Node, Protocol};
use smallvec::SmallVec;
use std::alloc::Global;

/// What several talks say where they have one choice together: the first of their arms, and the nodes to which all lead.
#[derive(Drop)]
pub struct OneChoice {
    pub arm: Arm,
    pub starts: SmallVec<u32, 4>,
}

/// The one choice of the talks, where each of them has one arm, and all arms have one label.
pub fn one_choice(
    alloc: Global,
    protocol: &Protocol,
    talks: &[u32],
) -> Result<Option<OneChoice>, NoMemory>
    requires { All (λ t. t < length protocol.now.nodes) talks.now }
    ensures { IfOk result (λ found. IfSome found (λ one. IsOneChoice protocol.now talks.now one.starts.items (choice_of one.arm))) }
{
    let [first, ..] = talks else {
        return Ok(None);
    };
    let Some(arm) = only_arm_in(&protocol.nodes[*first as usize]) else {
        return Ok(None);
    };
    let Some(starts) = starts_by(alloc, protocol, talks, arm)? else {
        return Ok(None);
    };
    Ok(Some(OneChoice { arm, starts }))
}

// The nodes to which the talks lead, where each has one arm, with the label of this one.
fn starts_by(
    alloc: Global,
    protocol: &Protocol,
    talks: &[u32],
    arm: Arm,
) -> Result<Option<SmallVec<u32, 4>>, NoMemory>
    requires { All (λ t. t < length protocol.now.nodes) talks.now }
    ensures { IfOk result (λ found. IfSome found (λ v. AreLedBy protocol.now talks.now v.items (choice_of arm))) }
{
    let mut starts = SmallVec::with_capacity(alloc, talks.len())?;
    for talk in talks {
        let Some(other) = arm_with(&protocol.nodes[*talk as usize], arm.label) else {
            return Ok(None);
        };
        starts.push_reserved(other.next);
    }
    Ok(Some(starts))
}

// The only arm of the node, where it has the label.
fn arm_with(node: &Node, label: Label) -> Option<Arm>
    ensures { IfSome result (λ arm. (arms_of_node node.now ≡ arm ∷ []) × (arm.label.0 == label.0 ≡ true)) }
{
    match only_arm_in(node) {
        Some(arm) => {
            if arm.label != label {
                return None;
            }
            Some(arm)
        }
        None => None,
    }
}

fn only_arm_in(node: &Node) -> Option<Arm>
    ensures { IfSome result (λ arm. arms_of_node node.now ≡ arm ∷ []) }
{
    match node {
        Node::Finished => None,
        Node::Talk { arms, .. } => only_arm(arms.as_slice()),
    }
}

fn only_arm(arms: &[Arm]) -> Option<Arm>
    ensures { IfSome result (λ arm. arms.now ≡ arm ∷ []) }
{
    match arms {
        [arm] => Some(*arm),
        _ => None,
    }
}

/// The arms of the talks, one talk after the other, each label once.
pub fn merged_arms(
    alloc: Global,
    protocol: &Protocol,
    talks: &[u32],
) -> Result<SmallVec<Arm, 4>, NoMemory>
    requires { All (λ t. t < length protocol.now.nodes) talks.now }
    ensures { IfOk result (λ v. map choice_of v.items ≡ merged_choices protocol.now talks.now) }
{
    let mut merged = SmallVec::new(alloc);
    for talk in talks {
        add_node(&mut merged, &protocol.nodes[*talk as usize])?;
    }
    Ok(merged)
}

fn add_node(merged: &mut SmallVec<Arm, 4>, node: &Node) -> Result<(), NoMemory>
    ensures { OnOk result (map choice_of merged.new.items ≡ map choice_of merged.old.items ++ first_choices (choices_of (Some node.now)) (map choice_of merged.old.items)) }
{
    match node {
        Node::Finished => Ok(()),
        Node::Talk { arms, .. } => add_arms(merged, arms.as_slice()),
    }
}

fn add_arms(merged: &mut SmallVec<Arm, 4>, arms: &[Arm]) -> Result<(), NoMemory>
    ensures { OnOk result (map choice_of merged.new.items ≡ map choice_of merged.old.items ++ first_choices (map choice_of arms.now) (map choice_of merged.old.items)) }
{
    for arm in arms {
        add_arm(merged, *arm)?;
    }
    Ok(())
}

fn add_arm(merged: &mut SmallVec<Arm, 4>, arm: Arm) -> Result<(), NoMemory>
    ensures { OnOk result (map choice_of merged.new.items ≡ map choice_of merged.old.items ++ first_choices (choice_of arm ∷ []) (map choice_of merged.old.items)) }
{
    if has_label(merged.as_slice(), arm.label) {
        return Ok(());
    }
    merged.push(arm)?;
    Ok(())
}

fn has_label(arms: &[Arm], label: Label) -> bool
    ensures { result ≡ list_any (λ a. a.label.0 == label.0) arms.now }
{
    arms.iter().any(|arm| arm.label == label)
}

/// The nodes to which arms of the talks with the label lead.
pub fn starts_behind(
    alloc: Global,
    protocol: &Protocol,
    talks: &[u32],
    label: Label,
) -> Result<SmallVec<u32, 4>, NoMemory>
    requires { All (λ t. t < length protocol.now.nodes) talks.now }
    ensures { IfOk result (λ v. v.items ≡ flat_map (λ t. labelled_nexts_of label (slice_get protocol.now.nodes t)) talks.now) }
{
    let mut starts = SmallVec::new(alloc);
    for talk in talks {
        add_starts(&mut starts, &protocol.nodes[*talk as usize], label)?;
    }
    Ok(starts)
}

fn add_starts(starts: &mut SmallVec<u32, 4>, node: &Node, label: Label) -> Result<(), NoMemory>
    ensures { OnOk result (starts.new.items ≡ starts.old.items ++ labelled_nexts_of label (Some node.now)) }
{
    match node {
        Node::Finished => Ok(()),
        Node::Talk { arms, .. } => add_nexts(starts, arms.as_slice(), label),
    }
}

fn add_nexts(starts: &mut SmallVec<u32, 4>, arms: &[Arm], label: Label) -> Result<(), NoMemory>
    ensures { OnOk result (starts.new.items ≡ starts.old.items ++ labelled_nexts label arms.now) }
{
    for arm in arms {
        if arm.label == label {
            starts.push(arm.next)?;
        }
    }
    Ok(())
}
