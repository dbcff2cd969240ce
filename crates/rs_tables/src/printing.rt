//! The printer of tables.

ghost use Rattle.std.specs.Prelude.{◌≡◌, ◌++◌, IfOk, OnOk};
ghost use Rattle.std.specs.List.{flat_map};
ghost use Rattle.rs_tables.specs.Tables.{arm_in_table, later_arm_in_table, arms_in_table, choice_in_table, state_in_table, row, rows_from, table_of};

use rs_model::{Arm, Machine, Names, NoMemory, Role, State};
use rs_text::Text;
use rs_text::shown::{push_name, push_sort};
use std::alloc::Global;

/// Prints a machine that starts at state 0 as a table: a line a state, with its number, its peer, `!` or `?`, and each
/// arm's label, sort and next state.
///
/// The start isn't printed. A role or label that has no name is written as nothing.
pub fn print_table(alloc: Global, names: &Names, machine: &Machine) -> Result<Text, NoMemory>
    ensures { IfOk result (λ text. text ≡ table_of names.now machine.now) }
{
    let mut text = Text::new(alloc);
    text.push(b"table ")?;
    push_name(&mut text, &names.roles, usize::from(machine.role.0))?;
    text.push(b" {\n")?;
    push_rows(&mut text, names, &machine.states)?;
    text.push(b"}\n")?;
    Ok(text)
}

fn push_rows(text: &mut Text, names: &Names, states: &[State]) -> Result<(), NoMemory>
    ensures { OnOk result (text.new ≡ text.old ++ rows_from names.now 0 states.now) }
{
    for (number, state) in states.iter().enumerate() {
        push_row(text, names, number as u64, state)?;
    }
    Ok(())
}

fn push_row(text: &mut Text, names: &Names, number: u64, state: &State) -> Result<(), NoMemory>
    ensures { OnOk result (text.new ≡ text.old ++ row names.now number state.now) }
{
    text.push_number(number)?;
    text.push(b" ")?;
    push_state(text, names, state)?;
    text.push(b"\n")
}

fn push_state(text: &mut Text, names: &Names, state: &State) -> Result<(), NoMemory>
    ensures { OnOk result (text.new ≡ text.old ++ state_in_table names.now state.now) }
{
    match state {
        State::Done => text.push(b"end"),
        State::Puts { peer, arms } => push_choice(text, names, *peer, b"!", arms.as_slice()),
        State::Takes { peer, arms } => push_choice(text, names, *peer, b"?", arms.as_slice()),
    }
}

fn push_choice(
    text: &mut Text,
    names: &Names,
    peer: Role,
    mark: &[u8],
    arms: &[Arm],
) -> Result<(), NoMemory>
    ensures { OnOk result (text.new ≡ text.old ++ choice_in_table names.now peer mark.now arms.now) }
{
    push_name(text, &names.roles, usize::from(peer.0))?;
    text.push(mark)?;
    text.push(b"{")?;
    push_arms(text, names, arms)?;
    text.push(b"}")
}

fn push_arms(text: &mut Text, names: &Names, arms: &[Arm]) -> Result<(), NoMemory>
    ensures { OnOk result (text.new ≡ text.old ++ arms_in_table names.now arms.now) }
{
    match arms {
        [] => Ok(()),
        [first, later @ ..] => {
            push_arm(text, names, first)?;
            push_later(text, names, later)
        }
    }
}

fn push_later(text: &mut Text, names: &Names, arms: &[Arm]) -> Result<(), NoMemory>
    ensures { OnOk result (text.new ≡ text.old ++ flat_map (later_arm_in_table names.now) arms.now) }
{
    for arm in arms {
        push_later_arm(text, names, arm)?;
    }
    Ok(())
}

fn push_later_arm(text: &mut Text, names: &Names, arm: &Arm) -> Result<(), NoMemory>
    ensures { OnOk result (text.new ≡ text.old ++ later_arm_in_table names.now arm.now) }
{
    text.push(b", ")?;
    push_arm(text, names, arm)
}

fn push_arm(text: &mut Text, names: &Names, arm: &Arm) -> Result<(), NoMemory>
    ensures { OnOk result (text.new ≡ text.old ++ arm_in_table names.now arm.now) }
{
    push_name(text, &names.labels, usize::from(arm.label.0))?;
    text.push(b"(")?;
    push_sort(text, arm.sort)?;
    text.push(b") ")?;
    text.push_number(u64::from(arm.next))
}
