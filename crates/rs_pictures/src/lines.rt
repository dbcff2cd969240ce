//! The lines of sequence diagrams.

ghost use Rattle.std.specs.Prelude.{◌≡◌, ◌≤◌, ◌++◌, ℕ, OnOk};
ghost use Rattle.rs_text.specs.NamePlaces.{name_at};
ghost use Rattle.rs_text.specs.Shown.{shown_sort};
ghost use Rattle.rs_bodies.specs.Places.{name_of_place};
ghost use Rattle.rs_pictures.specs.Drawing.{case_of};
ghost use Rattle.rs_pictures.specs.Lines as spec;

use rs_model::{Arm, Names, NoMemory, Role};
use rs_text::Text;
use rs_text::shown::{push_name, push_sort};

#[tactic(auto, using(crate::proofs::Pieces::one_level_more))]
fn push_indent(text: &mut Text, depth: u64) -> Result<(), NoMemory>
    ensures { OnOk result (text.new ≡ text.old ++ spec.indent depth) }
{
    for _ in 0..depth {
        text.push(b"    ")?;
    }
    Ok(())
}

/// Appends the participant of a role.
pub fn push_participant(text: &mut Text, role: u64) -> Result<(), NoMemory>
    ensures { OnOk result (text.new ≡ text.old ++ spec.participant role) }
{
    text.push(b"R")?;
    text.push_number(role)
}

fn push_words(
    text: &mut Text,
    names: &Names,
    sender: Role,
    receiver: Role,
    arm: Arm,
) -> Result<(), NoMemory>
    ensures { (roles : ℕ) → OnOk result (text.new ≡ text.old ++ spec.says_text roles (spec.message sender receiver (name_at names.now.labels arm.label.0) (shown_sort arm.sort))) }
{
    push_participant(text, u64::from(sender.0))?;
    text.push(b"->>")?;
    push_participant(text, u64::from(receiver.0))?;
    text.push(b": ")?;
    push_name(text, &names.labels, usize::from(arm.label.0))?;
    text.push(b"(")?;
    push_sort(text, arm.sort)?;
    text.push(b")")
}

/// Appends the message of an arm from one role to another.
pub fn push_message(
    text: &mut Text,
    names: &Names,
    depth: u64,
    sender: Role,
    receiver: Role,
    arm: Arm,
) -> Result<(), NoMemory>
    ensures { (roles : ℕ) → OnOk result (text.new ≡ text.old ++ spec.line_text roles (spec.at depth (spec.message sender receiver (name_at names.now.labels arm.label.0) (shown_sort arm.sort)))) }
{
    push_indent(text, depth)?;
    push_words(text, names, sender, receiver, arm)?;
    text.push(b"\n")
}

/// Appends the begin of an alternative, which is the first one or a later one of its choice.
pub fn push_case(
    text: &mut Text,
    names: &Names,
    depth: u64,
    first: bool,
    arm: Arm,
) -> Result<(), NoMemory>
    ensures { (roles : ℕ) → OnOk result (text.new ≡ text.old ++ spec.line_text roles (spec.at depth (case_of first (name_at names.now.labels arm.label.0)))) }
{
    push_indent(text, depth)?;
    if first {
        text.push(b"alt ")?;
    } else {
        text.push(b"else ")?;
    }
    push_name(text, &names.labels, usize::from(arm.label.0))?;
    text.push(b"\n")
}

fn push_place_name(text: &mut Text, number: u64) -> Result<(), NoMemory>
    ensures { OnOk result (text.new ≡ text.old ++ name_of_place number) }
{
    text.push(b"X")?;
    text.push_number(number)
}

/// Appends the begin of the loop of a talk.
pub fn push_loop(text: &mut Text, depth: u64, number: u64) -> Result<(), NoMemory>
    ensures { (roles : ℕ) → OnOk result (text.new ≡ text.old ++ spec.line_text roles (spec.at depth (spec.begins_loop (name_of_place number)))) }
{
    push_indent(text, depth)?;
    text.push(b"loop ")?;
    push_place_name(text, number)?;
    text.push(b"\n")
}

fn push_note(text: &mut Text, roles: u8, depth: u64) -> Result<(), NoMemory>
    requires { 1 ≤ roles }
    ensures { OnOk result (text.new ≡ text.old ++ spec.indent depth ++ spec.note_text roles) }
{
    push_indent(text, depth)?;
    text.push(b"Note over R0,")?;
    push_participant(text, u64::from(roles - 1))?;
    text.push(b": ")
}

/// Appends the note that the loop of a talk goes round once more.
pub fn push_back(text: &mut Text, roles: u8, depth: u64, number: u64) -> Result<(), NoMemory>
    requires { 1 ≤ roles }
    ensures { OnOk result (text.new ≡ text.old ++ spec.line_text roles (spec.at depth (spec.goes_back (name_of_place number)))) }
{
    push_note(text, roles, depth)?;
    text.push(b"back to ")?;
    push_place_name(text, number)?;
    text.push(b"\n")
}

/// Appends the note that all roles end.
pub fn push_all_end(text: &mut Text, roles: u8, depth: u64) -> Result<(), NoMemory>
    requires { 1 ≤ roles }
    ensures { OnOk result (text.new ≡ text.old ++ spec.line_text roles (spec.at depth spec.all_end)) }
{
    push_note(text, roles, depth)?;
    text.push(b"end\n")
}

/// Appends the end of a choice or a loop.
pub fn push_close(text: &mut Text, depth: u64) -> Result<(), NoMemory>
    ensures { (roles : ℕ) → OnOk result (text.new ≡ text.old ++ spec.line_text roles (spec.at depth spec.closes)) }
{
    push_indent(text, depth)?;
    text.push(b"end\n")
}
