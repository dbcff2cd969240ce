//! The acts of transcripts, with the sorts that the machines give them.

ghost use Rattle.std.specs.Prelude.{◌≡◌, ◌++◌, IfOk, OnOk, None, Some, map, slice_get};
ghost use Rattle.rs_core.specs.Ways as ways;
ghost use Rattle.rs_run_pictures.specs.Acts as spec;

use crate::scenes::RoleActs;
use rs_core::{Entry, Player, SeededActor};
use rs_model::{Act, Arm, Label, Machine, NoMemory, Sort, State};
use std::alloc::Global;

fn entry_label(entry: &Entry) -> Label
    ensures { result ≡ spec.entry_label entry.now }
{
    match entry {
        Entry::Sent { label, .. } => *label,
        Entry::Got { label, .. } => *label,
    }
}

/// The arms of the state with this number.
fn arms_at(machine: &Machine, state: u32) -> &[Arm]
    ensures { result.now ≡ spec.state_arms (slice_get machine.now.states state) }
{
    match machine.states.get(state as usize) {
        Some(State::Puts { arms, .. }) => arms.as_slice(),
        Some(State::Takes { arms, .. }) => arms.as_slice(),
        Some(State::Done) => &[],
        None => &[],
    }
}

fn arm_with(arms: &[Arm], label: Label) -> Option<Arm>
    ensures { result ≡ ways.arm_with arms.now label }
{
    for arm in arms {
        if arm.label.0 == label.0 {
            return Some(*arm);
        }
    }
    None
}

fn sort_by(arm: Option<Arm>) -> Sort
    ensures { result ≡ spec.sort_by arm }
{
    match arm {
        Some(arm) => arm.sort,
        None => Sort::Unit,
    }
}

fn state_after(state: u32, arm: Option<Arm>) -> u32
    ensures { result ≡ spec.state_after state arm }
{
    match arm {
        Some(arm) => arm.next,
        None => state,
    }
}

fn act_with(sort: Sort, entry: &Entry) -> Act
    ensures { result ≡ spec.act_with sort entry.now }
{
    match entry {
        Entry::Sent { peer, label } => Act::Puts {
            peer: *peer,
            label: *label,
            sort,
        },
        Entry::Got { peer, label, .. } => Act::Takes {
            peer: *peer,
            label: *label,
            sort,
        },
    }
}

/// The acts of the entries that the machine makes from its start on.
fn acts_from_start(
    alloc: Global,
    machine: &Machine,
    entries: &[Entry],
) -> Result<RoleActs, NoMemory>
    ensures { IfOk result (λ acts. acts ≡ spec.acts_from machine.now machine.now.start entries.now) }
{
    let mut acts = Vec::with_capacity(alloc, entries.len())?;
    let mut state = machine.start;
    for entry in entries {
        let arm = arm_with(arms_at(machine, state), entry_label(entry));
        acts.push(act_with(sort_by(arm), entry))?;
        state = state_after(state, arm);
    }
    Ok(RoleActs::of(acts))
}

/// Appends the acts of each role, by its machine and its transcript.
pub(crate) fn push_acts(
    alloc: Global,
    all: &mut Vec<RoleActs>,
    machines: &[Machine],
    players: &[Player<SeededActor>],
) -> Result<(), NoMemory>
    ensures { OnOk result (all.new.items ≡ all.old.items ++ spec.acts_of machines.now (map (λ x. x.transcript) players.now)) }
{
    let [machine, machines @ ..] = machines else {
        return Ok(());
    };
    let [player, players @ ..] = players else {
        return Ok(());
    };
    all.push(acts_from_start(alloc, machine, player.transcript.as_slice())?)?;
    push_acts(alloc, all, machines, players)
}
