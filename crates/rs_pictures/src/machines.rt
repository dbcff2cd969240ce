//! The pictures of machines.

ghost use Rattle.std.specs.Prelude.{◌≡◌, ◌++◌, codes, IfOk, OnOk};
ghost use Rattle.std.specs.List.{flat_map};
ghost use Rattle.rs_pictures.specs.Machines as spec;

use rs_model::{Arm, Machine, Names, NoMemory, Role, State};
use rs_text::Text;
use rs_text::shown::{push_name, push_sort};
use std::alloc::Global;

/// Draws a machine as a state diagram: a state for each of its states, named `s` and the number, an arrow for each arm with
/// its act, and arrows from and to `[*]` for the start and the ends.
///
/// A role or label that has no name is written as nothing. Refused memory is the only error.
pub fn machine_picture(alloc: Global, names: &Names, machine: &Machine) -> Result<Text, NoMemory>
    ensures { IfOk result (λ text. text ≡ spec.machine_picture names.now machine.now) }
{
    let mut text = Text::new(alloc);
    text.push(b"stateDiagram-v2\n    [*] --> ")?;
    push_state_name(&mut text, u64::from(machine.start))?;
    text.push(b"\n")?;
    push_states(&mut text, names, &machine.states)?;
    Ok(text)
}

/// Appends what is written beside a state, by its number: how many acts the machine puts off there.
pub fn push_puts_off(text: &mut Text, number: u64, acts: u64) -> Result<(), NoMemory>
    ensures { OnOk result (text.new ≡ text.old ++ spec.state_puts_off number acts) }
{
    text.push(b"    ")?;
    push_state_name(text, number)?;
    text.push(b": ")?;
    push_state_name(text, number)?;
    text.push(b" puts off ")?;
    text.push_number(acts)?;
    text.push(b"\n")
}

fn push_state_name(text: &mut Text, number: u64) -> Result<(), NoMemory>
    ensures { OnOk result (text.new ≡ text.old ++ spec.state_name number) }
{
    text.push(b"s")?;
    text.push_number(number)
}

fn push_states(text: &mut Text, names: &Names, states: &[State]) -> Result<(), NoMemory>
    ensures { OnOk result (text.new ≡ text.old ++ spec.arrows_from names.now 0 states.now) }
{
    for (number, state) in states.iter().enumerate() {
        push_state(text, names, number as u64, state)?;
    }
    Ok(())
}

fn push_state(text: &mut Text, names: &Names, number: u64, state: &State) -> Result<(), NoMemory>
    ensures { OnOk result (text.new ≡ text.old ++ spec.state_arrows names.now number state.now) }
{
    match state {
        State::Done => push_end(text, number),
        State::Puts { peer, arms } => push_arrows(
            text,
            names,
            number,
            *peer,
            b"!",
            arms.as_slice(),
        ),
        State::Takes { peer, arms } => push_arrows(
            text,
            names,
            number,
            *peer,
            b"?",
            arms.as_slice(),
        ),
    }
}

fn push_end(text: &mut Text, number: u64) -> Result<(), NoMemory>
    ensures { OnOk result (text.new ≡ text.old ++ codes "    " ++ spec.state_name number ++ codes " --> [*]\n") }
{
    text.push(b"    ")?;
    push_state_name(text, number)?;
    text.push(b" --> [*]\n")
}

fn push_arrows(
    text: &mut Text,
    names: &Names,
    number: u64,
    peer: Role,
    mark: &[u8],
    arms: &[Arm],
) -> Result<(), NoMemory>
    ensures { OnOk result (text.new ≡ text.old ++ flat_map (spec.arrow_text names.now number peer mark.now) arms.now) }
{
    for arm in arms {
        push_arrow(text, names, number, peer, mark, arm)?;
    }
    Ok(())
}

fn push_arrow(
    text: &mut Text,
    names: &Names,
    number: u64,
    peer: Role,
    mark: &[u8],
    arm: &Arm,
) -> Result<(), NoMemory>
    ensures { OnOk result (text.new ≡ text.old ++ spec.arrow_text names.now number peer mark.now arm.now) }
{
    text.push(b"    ")?;
    push_state_name(text, number)?;
    text.push(b" --> ")?;
    push_state_name(text, u64::from(arm.next))?;
    text.push(b": ")?;
    push_act(text, names, peer, mark, arm)?;
    text.push(b"\n")
}

fn push_act(
    text: &mut Text,
    names: &Names,
    peer: Role,
    mark: &[u8],
    arm: &Arm,
) -> Result<(), NoMemory>
    ensures { OnOk result (text.new ≡ text.old ++ spec.act_text names.now peer mark.now arm.now) }
{
    push_name(text, &names.roles, usize::from(peer.0))?;
    text.push(mark)?;
    push_name(text, &names.labels, usize::from(arm.label.0))?;
    text.push(b"(")?;
    push_sort(text, arm.sort)?;
    text.push(b")")
}
