//! What is told of the machines of a session that is accepted: how far ahead each comes, and which receives it never makes.

ghost use Rattle.std.specs.Prelude.{◌≡◌, ◌++◌, OnOk, map};
ghost use Rattle.rs_reasons.specs.Accepted as spec;
ghost use Rattle.rs_reasons.specs.Flagged.{flagged_arms, flagged_lines, flagged_state, unless_flagged};

use crate::ahead::{Standing, furthest};
use crate::at::{name_at, places_at, position_at};
use crate::uses::{StateUse, uses_of};
use rs_derive::{DNode, Derivation};
use rs_model::{Act, Arm, Machine, Names, NoMemory, Role, State};
use rs_places::Position;
use rs_project::Projection;
use rs_text::Text;
use rs_walk_texts::{push_act, push_acts, push_at, push_placed_head};
use std::alloc::Global;

// How far ahead the machine comes, and where.
fn push_standing(
    text: &mut Text,
    names: &Names,
    places: &[Position],
    machine: &Machine,
    standing: &Standing,
) -> Result<(), NoMemory>
    ensures { OnOk result (text.new ≡ text.old ++ spec.standing_text names.now places.now machine.now standing.now) }
{
    let owed = standing.owed.as_slice();
    text.push(b" is ahead by ")?;
    text.push_number(owed.len() as u64)?;
    text.push(b": at ")?;
    push_placed_head(
        text,
        names,
        machine.states.as_slice(),
        places,
        standing.state,
    )?;
    text.push(b" it still owes ")?;
    push_acts(text, names, owed)
}

// The same, where it comes ahead.
fn push_ahead(
    text: &mut Text,
    names: &Names,
    places: &[Position],
    machine: &Machine,
    standing: &Standing,
) -> Result<(), NoMemory>
    ensures { OnOk result (text.new ≡ text.old ++ spec.ahead_text names.now places.now machine.now standing.now) }
{
    if standing.owed.as_slice().is_empty() {
        return text.push(b" is never ahead");
    }
    push_standing(text, names, places, machine, standing)
}

// `P: nothing brings Q?x(sort) at L:C`, a line.
fn push_unused_line(
    text: &mut Text,
    names: &Names,
    role: &[u8],
    peer: Role,
    arm: Arm,
    at: Option<Position>,
) -> Result<(), NoMemory>
    ensures { OnOk result (text.new ≡ text.old ++ spec.unused_line names.now role.now peer arm at) }
{
    text.push(role)?;
    text.push(b": nothing brings ")?;
    push_act(
        text,
        names,
        Act::Takes {
            peer,
            label: arm.label,
            sort: arm.sort,
        },
    )?;
    push_at(text, at)?;
    text.push(b"\n")
}

// The line of an arm that isn't taken.
fn push_arm_unless(
    text: &mut Text,
    names: &Names,
    role: &[u8],
    at: Option<Position>,
    peer: Role,
    arm: Arm,
    taken: bool,
) -> Result<(), NoMemory>
    ensures { OnOk result (text.new ≡ text.old ++ unless_flagged names.now role.now at peer arm taken) }
{
    if taken {
        return Ok(());
    }
    push_unused_line(text, names, role, peer, arm, at)
}

// The lines of the arms that aren't taken.
fn push_unused_arms(
    text: &mut Text,
    names: &Names,
    role: &[u8],
    at: Option<Position>,
    peer: Role,
    arms: &[Arm],
    taken: &[bool],
) -> Result<(), NoMemory>
    ensures { OnOk result (text.new ≡ text.old ++ flagged_arms names.now role.now at peer arms.now taken.now) }
{
    for place in 0..arms.len().min(taken.len()) {
        push_arm_unless(text, names, role, at, peer, arms[place], taken[place])?;
    }
    Ok(())
}

// The lines of a state's arms, where some node stands there.
fn push_unused_of_state(
    text: &mut Text,
    names: &Names,
    role: &[u8],
    at: Option<Position>,
    state: &State,
    uses: &StateUse,
) -> Result<(), NoMemory>
    ensures { OnOk result (text.new ≡ text.old ++ flagged_state names.now role.now at state.now uses.now) }
{
    if !uses.visited {
        return Ok(());
    }
    match state {
        State::Done | State::Puts { .. } => Ok(()),
        State::Takes { peer, arms } => push_unused_arms(
            text,
            names,
            role,
            at,
            *peer,
            arms.as_slice(),
            uses.taken.as_slice(),
        ),
    }
}

// The lines of all states at which some node stands.
fn push_flagged(
    text: &mut Text,
    names: &Names,
    role: &[u8],
    places: &[Position],
    states: &[State],
    uses: &[StateUse],
) -> Result<(), NoMemory>
    ensures { OnOk result (text.new ≡ text.old ++ flagged_lines names.now role.now places.now 0 states.now uses.now) }
{
    for number in 0..states.len().min(uses.len()) {
        push_unused_of_state(
            text,
            names,
            role,
            position_at(places, number),
            &states[number],
            &uses[number],
        )?;
    }
    Ok(())
}

// The lines of the receives that no node makes.
fn push_unused(
    text: &mut Text,
    alloc: Global,
    names: &Names,
    role: &[u8],
    places: &[Position],
    states: &[State],
    nodes: &[DNode],
) -> Result<(), NoMemory>
    ensures { OnOk result (text.new ≡ text.old ++ spec.unused_lines names.now role.now places.now nodes.now 0 states.now) }
{
    let uses = uses_of(alloc, states, nodes)?;
    push_flagged(text, names, role, places, states, uses.as_slice())
}

// All that is told of a role's own machine.
fn push_machine(
    text: &mut Text,
    alloc: Global,
    names: &Names,
    role: &[u8],
    places: &[Position],
    machine: &Machine,
    above: &Machine,
    derivation: &Derivation,
) -> Result<(), NoMemory>
    ensures { OnOk result (text.new ≡ text.old ++ spec.machine_lines names.now role.now places.now machine.now above.now derivation.now) }
{
    let nodes = derivation.nodes.as_slice();
    let standing = furthest(alloc, machine, above, nodes)?;
    text.push(role)?;
    push_ahead(text, names, places, machine, &standing)?;
    text.push(b"\n")?;
    push_unused(
        text,
        alloc,
        names,
        role,
        places,
        machine.states.as_slice(),
        nodes,
    )
}

// All that is told of the machine of the role with that number, where it has one of its own.
fn push_own(
    text: &mut Text,
    alloc: Global,
    names: &Names,
    places: &[Vec<Position>],
    role: usize,
    own: &Option<Machine>,
    projection: &Projection,
    derivation: &Derivation,
) -> Result<(), NoMemory>
    ensures { OnOk result (text.new ≡ text.old ++ spec.own_lines names.now (map (λ m. m.items) places.now) role own.now projection.now derivation.now) }
{
    let Some(machine) = own else {
        return Ok(());
    };
    push_machine(
        text,
        alloc,
        names,
        name_at(names.roles.as_slice(), role),
        places_at(places, role),
        machine,
        &projection.machine,
        derivation,
    )
}

/// Writes what is told of the roles' own machines, in role order: how far ahead of its projection each comes, and which of
/// its receives it never makes. Refused memory is the only error.
pub fn push_machines(
    text: &mut Text,
    alloc: Global,
    names: &Names,
    places: &[Vec<Position>],
    machines: &[Option<Machine>],
    projections: &[Projection],
    derivations: &[Derivation],
) -> Result<(), NoMemory>
    ensures { OnOk result (text.new ≡ text.old ++ spec.machines_lines names.now (map (λ m. m.items) places.now) 0 machines.now projections.now derivations.now) }
{
    let count = machines.len().min(projections.len()).min(derivations.len());
    for role in 0..count {
        push_own(
            text,
            alloc,
            names,
            places,
            role,
            &machines[role],
            &projections[role],
            &derivations[role],
        )?;
    }
    Ok(())
}
