//! How acts and choices are written.

ghost use Rattle.std.specs.Prelude.{◌≡◌, ◌++◌, OnOk};
ghost use Rattle.std.specs.List.{flat_map};
ghost use Rattle.rs_text.specs.NamePlaces.{name_at};
ghost use Rattle.rs_walk_texts.specs.Heads as spec;

use rs_model::{Act, Arm, Label, Names, NoMemory, Role, Sort};
use rs_text::Text;
use rs_text::shown::{push_name, push_sort};

/// Writes the name of a role.
pub(crate) fn push_role(text: &mut Text, names: &Names, role: Role) -> Result<(), NoMemory>
    ensures { OnOk result (text.new ≡ text.old ++ name_at names.now.roles role.0) }
{
    push_name(text, names.roles.as_slice(), usize::from(role.0))
}

/// Writes the name of a label.
pub(crate) fn push_label(text: &mut Text, names: &Names, label: Label) -> Result<(), NoMemory>
    ensures { OnOk result (text.new ≡ text.old ++ name_at names.now.labels label.0) }
{
    push_name(text, names.labels.as_slice(), usize::from(label.0))
}

// `x(sort)`
fn push_message(text: &mut Text, names: &Names, label: Label, sort: Sort) -> Result<(), NoMemory>
    ensures { OnOk result (text.new ≡ text.old ++ spec.message_text names.now label sort) }
{
    push_label(text, names, label)?;
    text.push(b"(")?;
    push_sort(text, sort)?;
    text.push(b")")
}

/// Writes an act as `Q!x(sort)` or `Q?x(sort)`. Refused memory is the only error.
pub fn push_act(text: &mut Text, names: &Names, act: Act) -> Result<(), NoMemory>
    ensures { OnOk result (text.new ≡ text.old ++ spec.act_text names.now act) }
{
    match act {
        Act::Puts { peer, label, sort } => {
            push_role(text, names, peer)?;
            text.push(b"!")?;
            push_message(text, names, label, sort)
        }
        Act::Takes { peer, label, sort } => {
            push_role(text, names, peer)?;
            text.push(b"?")?;
            push_message(text, names, label, sort)
        }
    }
}

// The name of a sort; the unit carries nothing.
fn push_sort_name(text: &mut Text, sort: Sort) -> Result<(), NoMemory>
    ensures { OnOk result (text.new ≡ text.old ++ spec.sort_name sort) }
{
    match sort {
        Sort::Unit => text.push(b"nothing"),
        Sort::Flag | Sort::Natural | Sort::Whole | Sort::Octets | Sort::Numbers => {
            push_sort(text, sort)
        }
    }
}

// `Q!x` or `Q?x`
fn push_bare(text: &mut Text, names: &Names, act: Act) -> Result<(), NoMemory>
    ensures { OnOk result (text.new ≡ text.old ++ spec.bare_text names.now act) }
{
    match act {
        Act::Puts { peer, label, .. } => {
            push_role(text, names, peer)?;
            text.push(b"!")?;
            push_label(text, names, label)
        }
        Act::Takes { peer, label, .. } => {
            push_role(text, names, peer)?;
            text.push(b"?")?;
            push_label(text, names, label)
        }
    }
}

/// Writes an act without its sort, as `Q!x`, and nothing where there is none.
pub(crate) fn push_maybe_bare(
    text: &mut Text,
    names: &Names,
    act: Option<Act>,
) -> Result<(), NoMemory>
    ensures { OnOk result (text.new ≡ text.old ++ spec.maybe_bare_text names.now act) }
{
    match act {
        Some(act) => push_bare(text, names, act),
        None => Ok(()),
    }
}

/// Writes the name of an act's sort, and nothing where there is no act.
pub(crate) fn push_act_sort(text: &mut Text, act: Option<Act>) -> Result<(), NoMemory>
    ensures { OnOk result (text.new ≡ text.old ++ spec.act_sort_name act) }
{
    match act {
        Some(Act::Puts { sort, .. } | Act::Takes { sort, .. }) => push_sort_name(text, sort),
        None => Ok(()),
    }
}

/// Writes the name of an arm's sort, and nothing where there is no arm.
pub(crate) fn push_arm_sort(text: &mut Text, arm: Option<Arm>) -> Result<(), NoMemory>
    ensures { OnOk result (text.new ≡ text.old ++ spec.arm_sort_name arm) }
{
    match arm {
        Some(arm) => push_sort_name(text, arm.sort),
        None => Ok(()),
    }
}

/// Writes an act, and nothing where there is none. Refused memory is the only error.
pub fn push_maybe_act(text: &mut Text, names: &Names, act: Option<Act>) -> Result<(), NoMemory>
    ensures { OnOk result (text.new ≡ text.old ++ spec.maybe_act_text names.now act) }
{
    match act {
        Some(act) => push_act(text, names, act),
        None => Ok(()),
    }
}

/// Writes acts as `Q!x(nat), R?y()`. Refused memory is the only error.
pub fn push_acts(text: &mut Text, names: &Names, acts: &[Act]) -> Result<(), NoMemory>
    ensures { OnOk result (text.new ≡ text.old ++ spec.acts_text names.now acts.now) }
{
    match acts {
        [] => Ok(()),
        [first, later @ ..] => {
            push_act(text, names, *first)?;
            push_later_acts(text, names, later)
        }
    }
}

fn push_later_acts(text: &mut Text, names: &Names, acts: &[Act]) -> Result<(), NoMemory>
    ensures { OnOk result (text.new ≡ text.old ++ flat_map (spec.behind_comma (spec.act_text names.now)) acts.now) }
{
    for act in acts {
        text.push(b", ")?;
        push_act(text, names, *act)?;
    }
    Ok(())
}

/// Writes a line of what is owed, as `owed: Q!x(nat), R?y()`, or `owed: nothing`. Refused memory is the only error.
pub fn push_owed_line(text: &mut Text, names: &Names, acts: &[Act]) -> Result<(), NoMemory>
    ensures { OnOk result (text.new ≡ text.old ++ spec.owed_line names.now acts.now) }
{
    match acts {
        [] => text.push(b"owed: nothing\n"),
        [_, ..] => {
            text.push(b"owed: ")?;
            push_acts(text, names, acts)?;
            text.push(b"\n")
        }
    }
}

/// Writes the message of an arm.
pub(crate) fn push_arm(text: &mut Text, names: &Names, arm: Arm) -> Result<(), NoMemory>
    ensures { OnOk result (text.new ≡ text.old ++ spec.arm_text names.now arm) }
{
    push_message(text, names, arm.label, arm.sort)
}

/// Writes a choice: its only arm behind the mark, or its arms in braces.
pub(crate) fn push_choice(
    text: &mut Text,
    names: &Names,
    mark: &[u8],
    arms: &[Arm],
) -> Result<(), NoMemory>
    ensures { OnOk result (text.new ≡ text.old ++ spec.choice_text names.now mark.now arms.now) }
{
    match arms {
        [] => text.push(b"{}"),
        [arm] => {
            text.push(mark)?;
            push_arm(text, names, *arm)
        }
        [first, later @ ..] => {
            text.push(b"{")?;
            push_arm(text, names, *first)?;
            push_later_arms(text, names, later)?;
            text.push(b"}")
        }
    }
}

fn push_later_arms(text: &mut Text, names: &Names, arms: &[Arm]) -> Result<(), NoMemory>
    ensures { OnOk result (text.new ≡ text.old ++ flat_map (spec.behind_comma (spec.arm_text names.now)) arms.now) }
{
    for arm in arms {
        text.push(b", ")?;
        push_arm(text, names, *arm)?;
    }
    Ok(())
}
