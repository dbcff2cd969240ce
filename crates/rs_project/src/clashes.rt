//! Which two of the talks that a role may meet first don't go together.
ghost use Rattle.std.specs.Prelude.{◌≡◌, ◌<◌, ◌≤◌, ◌+◌, ℕ, [], true, false, length, slice_get, Some, None, IfOk, MatchOption};
ghost use Rattle.std.specs.List.{All, list_any};
ghost use Rattle.rs_project.specs.Clashes.{AgreeBefore, AllAgree, ClashesWith, HasEndAlone, TalksClash, agree_nodes, both_receive};
ghost use Rattle.rs_project.specs.Clashes.{both_send, has_all, is_choice, is_other_sort, same_sorts, is_sender_in};
ghost use Rattle.rs_project.specs.Noted.{AreNotedTalks};
ghost use Rattle.rs_project.specs.Projection.{Agree};
ghost use Rattle.rs_project.specs.Refusals.{FirstClash};
ghost use Rattle.rs_wellformed.specs.WellFormed.{IsWellFormed};

use crate::fronts::Front;
use crate::noting::{Notes, first_sender, joins};
use rs_model::{Arm, NoMemory, Node, Protocol, Role};
use std::alloc::Global;

/// Two members that clash: the earlier one, and the later one, which is None for the end.
#[derive(Clone, Copy)]
pub struct Clash {
    pub a: u32,
    pub b: Option<u32>,
}

/// The first two members that clash: the least later one, and for it the least earlier one.
pub fn first_clash(
    alloc: Global,
    protocol: &Protocol,
    role: Role,
    front: &Front,
) -> Result<Option<Clash>, NoMemory>
    requires well_formed { IsWellFormed protocol.now }
    requires talks { All (λ t. t < length protocol.now.nodes) front.now.talks }
    ensures { IfOk result (λ found. MatchOption found (AllAgree protocol.now role front.now.talks (length front.now.talks) × HasEndAlone front.now)
        (λ clash. FirstClash protocol.now role front.now clash.a clash.b)) }
{
    let found = talk_clash(alloc, protocol, role, front.talks.as_slice())?;
    if let Some(clash) = found {
        return Ok(Some(clash));
    }
    if let Some(clash) = end_clash(front) {
        return Ok(Some(clash));
    }
    Ok(None)
}

// The end and the first talk, where both are there.
fn end_clash(front: &Front) -> Option<Clash>
    ensures { MatchOption result (HasEndAlone front.now) (λ clash. (front.now.ends ≡ true) × (slice_get front.now.talks 0 ≡ Some clash.a) × (clash.b ≡ None)) }
{
    if !front.ends {
        return None;
    }
    if front.talks.is_empty() {
        return None;
    }
    Some(Clash {
        a: front.talks[0],
        b: None,
    })
}

fn talk_clash(
    alloc: Global,
    protocol: &Protocol,
    role: Role,
    talks: &[u32],
) -> Result<Option<Clash>, NoMemory>
    requires well_formed { IsWellFormed protocol.now }
    requires talks { All (λ t. t < length protocol.now.nodes) talks.now }
    ensures { IfOk result (λ found. MatchOption found (AllAgree protocol.now role talks.now (length talks.now)) (λ clash. TalksClash protocol.now role talks.now clash.a clash.b)) }
{
    if talks.len() == 2 {
        return Ok(pair_clash(protocol, role, talks));
    }
    let sender = first_sender(protocol, talks);
    let mut notes = Notes::new(alloc, talks.len())?;
    for later in 0..talks.len() {
        if let Some(earlier) = clash_at(protocol, role, sender, talks, later, &mut notes) {
            return Ok(Some(Clash {
                a: talks[earlier],
                b: Some(talks[later]),
            }));
        }
    }
    Ok(None)
}

// The two talks, where they clash.
#[inline(always)]
fn pair_clash(protocol: &Protocol, role: Role, talks: &[u32]) -> Option<Clash>
    requires talks { All (λ t. t < length protocol.now.nodes) talks.now }
    requires two { length talks.now ≡ 2 }
    ensures { MatchOption result (AllAgree protocol.now role talks.now (length talks.now)) (λ clash. TalksClash protocol.now role talks.now clash.a clash.b) }
{
    if do_agree(protocol, role, talks[0], talks[1]) {
        return None;
    }
    Some(Clash {
        a: talks[0],
        b: Some(talks[1]),
    })
}

// The place of the first talk that clashes with the one at a later place, where those before it agree. While all talks so
// far are receives from the sender whose labels are noted, the notes show that none does.
fn clash_at(
    protocol: &Protocol,
    role: Role,
    sender: Role,
    talks: &[u32],
    later: usize,
    notes: &mut Notes,
) -> Option<usize>
    requires well_formed { IsWellFormed protocol.now }
    requires earlier { AllAgree protocol.now role talks.now later }
    requires talks { All (λ t. t < length protocol.now.nodes) talks.now }
    requires later { later < length talks.now }
    requires noted { notes.old.tell ≡ true → AreNotedTalks protocol.now role sender notes.old.sorts.items talks.now later }
    ensures clash { MatchOption result (AgreeBefore protocol.now role talks.now later later) (λ i. ClashesWith protocol.now role talks.now i later) }
    ensures noted { notes.new.tell ≡ true → AreNotedTalks protocol.now role sender notes.new.sorts.items talks.now (later + 1) }
{
    let talk = &protocol.nodes[talks[later] as usize];
    if notes.tell && joins(&mut notes.sorts, role, sender, talk) {
        return None;
    }
    notes.tell = false;
    clash_before(protocol, role, talks, later)
}

// The place of the first talk that clashes with the one at a later place, where those before it agree.
fn clash_before(protocol: &Protocol, role: Role, talks: &[u32], later: usize) -> Option<usize>
    requires well_formed { IsWellFormed protocol.now }
    requires earlier { AllAgree protocol.now role talks.now later }
    requires talks { All (λ t. t < length protocol.now.nodes) talks.now }
    requires later { later < length talks.now }
    ensures { MatchOption result (AgreeBefore protocol.now role talks.now later later) (λ i. ClashesWith protocol.now role talks.now i later) }
{
    let enough = enough_before(protocol, role, talks, later);
    for earlier in 0..enough {
        let agree = do_agree(protocol, role, talks[earlier], talks[later]);
        if !agree {
            return Some(earlier);
        }
    }
    None
}

// With how many of the talks before it one has to be compared: where the role sends in the first, that one stands for all.
fn enough_before(protocol: &Protocol, role: Role, talks: &[u32], later: usize) -> usize
    requires well_formed { IsWellFormed protocol.now }
    requires earlier { AllAgree protocol.now role talks.now later }
    requires talks { All (λ t. t < length protocol.now.nodes) talks.now }
    requires later { later < length talks.now }
    ensures most { result ≤ later }
    ensures enough { AgreeBefore protocol.now role talks.now result later → AgreeBefore protocol.now role talks.now later later }
{
    if later > 1 && sends(role, &protocol.nodes[talks[0] as usize]) {
        return 1;
    }
    later
}

fn sends(role: Role, node: &Node) -> bool
    ensures { result ≡ is_sender_in role node.now }
{
    match node {
        Node::Finished => false,
        Node::Talk { sender, .. } => *sender == role,
    }
}

fn do_agree(protocol: &Protocol, role: Role, one: u32, other: u32) -> bool
    requires one { one < length protocol.now.nodes }
    requires other { other < length protocol.now.nodes }
    ensures sound { result ≡ true → Agree protocol.now role one other }
    ensures whole { result ≡ false → Agree protocol.now role one other → ⊥ }
{
    agree_nodes(
        role,
        &protocol.nodes[one as usize],
        &protocol.nodes[other as usize],
    )
}

fn agree_nodes(role: Role, one: &Node, other: &Node) -> bool
    ensures { result ≡ agree_nodes role one.now other.now }
{
    both_send(role, one, other) || both_receive(role, one, other)
}

fn both_send(role: Role, one: &Node, other: &Node) -> bool
    ensures { result ≡ both_send role one.now other.now }
{
    match (one, other) {
        (
            Node::Talk {
                sender,
                receiver,
                arms,
            },
            Node::Talk {
                sender: their_sender,
                receiver: their_receiver,
                arms: theirs,
            },
        ) => {
            *sender == role
                && *their_sender == role
                && *receiver == *their_receiver
                && has_all(theirs.as_slice(), arms.as_slice())
                && has_all(arms.as_slice(), theirs.as_slice())
        }
        _ => false,
    }
}

fn both_receive(role: Role, one: &Node, other: &Node) -> bool
    ensures { result ≡ both_receive role one.now other.now }
{
    match (one, other) {
        (
            Node::Talk {
                sender,
                receiver,
                arms,
            },
            Node::Talk {
                sender: their_sender,
                receiver: their_receiver,
                arms: theirs,
            },
        ) => {
            *receiver == role
                && *their_receiver == role
                && *sender == *their_sender
                && same_sorts(theirs.as_slice(), arms.as_slice())
        }
        _ => false,
    }
}

// Whether each of our choices is one of theirs.
fn has_all(theirs: &[Arm], ours: &[Arm]) -> bool
    ensures { result ≡ has_all theirs.now ours.now }
{
    for arm in ours {
        if !has_choice(theirs, *arm) {
            return false;
        }
    }
    true
}

fn has_choice(arms: &[Arm], choice: Arm) -> bool
    ensures { result ≡ list_any (λ a. is_choice a choice) arms.now }
{
    arms.iter().any(|arm| is_choice(*arm, choice))
}

fn is_choice(arm: Arm, choice: Arm) -> bool
    ensures { result ≡ is_choice arm choice }
{
    arm.label == choice.label && arm.sort == choice.sort
}

// Whether each label that is in both lists has one sort.
fn same_sorts(theirs: &[Arm], ours: &[Arm]) -> bool
    ensures { result ≡ same_sorts theirs.now ours.now }
{
    for arm in ours {
        if has_other_sort(theirs, *arm) {
            return false;
        }
    }
    true
}

fn has_other_sort(arms: &[Arm], choice: Arm) -> bool
    ensures { result ≡ list_any (λ a. is_other_sort a choice) arms.now }
{
    arms.iter().any(|arm| is_other_sort(*arm, choice))
}

fn is_other_sort(arm: Arm, choice: Arm) -> bool
    ensures { result ≡ is_other_sort arm choice }
{
    arm.label == choice.label && arm.sort != choice.sort
}
