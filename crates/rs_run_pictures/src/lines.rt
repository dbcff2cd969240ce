//! The lines of the picture of a run.

ghost use Rattle.std.specs.Prelude.{◌≡◌, ◌++◌, codes, IfOk, None, OnOk, map, slice_get};
ghost use Rattle.std.specs.Fmt.{decimal};
ghost use Rattle.rs_pictures.specs.Lines as pictures;
ghost use Rattle.rs_pictures.specs.Sequences.{participant_text, participants_text};
ghost use Rattle.rs_run_pictures.specs.Acts.{acts_of};
ghost use Rattle.rs_run_pictures.specs.Lines as spec;

use crate::acts::push_acts;
use crate::scenes::{DrawnAct, acts_in_rounds};
use rs_core::{End, Player, SeededActor};
use rs_model::{Act, Label, Machine, Name, Names, NoMemory, Role, Sort};
use rs_text::Text;
use rs_text::shown::{push_name, push_sort};
use std::alloc::Global;

/// Appends the participant of a role.
fn push_participant(text: &mut Text, role: usize) -> Result<(), NoMemory>
    ensures { OnOk result (text.new ≡ text.old ++ pictures.participant role) }
{
    text.push(b"R")?;
    text.push_number(role as u64)
}

/// Appends the line of a role: its participant, shown by its name.
fn push_role(text: &mut Text, number: usize, name: &Name) -> Result<(), NoMemory>
    ensures { OnOk result (text.new ≡ text.old ++ participant_text number name.now) }
{
    text.push(b"    participant ")?;
    push_participant(text, number)?;
    text.push(b" as ")?;
    text.push(name.as_slice())?;
    text.push(b"\n")
}

/// Appends the lines of the roles, in order.
fn push_participants(text: &mut Text, roles: &[Name]) -> Result<(), NoMemory>
    ensures { OnOk result (text.new ≡ text.old ++ participants_text 0 roles.now) }
{
    for number in 0..roles.len() {
        push_role(text, number, &roles[number])?;
    }
    Ok(())
}

/// Appends a message: its label, and its sort in parentheses.
fn push_message(text: &mut Text, names: &Names, label: Label, sort: Sort) -> Result<(), NoMemory>
    ensures { OnOk result (text.new ≡ text.old ++ spec.message_text names.now label sort) }
{
    push_name(text, &names.labels, usize::from(label.0))?;
    text.push(b"(")?;
    push_sort(text, sort)?;
    text.push(b")")
}

/// Appends how many messages a queue holds.
fn push_waiting(text: &mut Text, many: u64) -> Result<(), NoMemory>
    ensures { OnOk result (text.new ≡ text.old ++ spec.waiting_text many) }
{
    text.push(b", ")?;
    text.push_number(many)?;
    text.push(b" waiting")
}

/// Appends the begin of a note over a role.
fn push_note_over(text: &mut Text, role: usize) -> Result<(), NoMemory>
    ensures { OnOk result (text.new ≡ text.old ++ codes "Note over R" ++ decimal role) }
{
    text.push(b"Note over R")?;
    text.push_number(role as u64)
}

/// Appends a send in a line of its own, without the line's ends.
fn push_send(
    text: &mut Text,
    names: &Names,
    role: usize,
    peer: Role,
    label: Label,
    sort: Sort,
    waiting: u64,
) -> Result<(), NoMemory>
    ensures { OnOk result (text.new ≡ text.old ++ spec.act_words names.now role (Act.Puts peer label sort) waiting) }
{
    push_participant(text, role)?;
    text.push(b"-)")?;
    push_participant(text, usize::from(peer.0))?;
    text.push(b": ")?;
    push_message(text, names, label, sort)?;
    push_waiting(text, waiting)
}

/// Appends a receive in a line of its own, without the line's ends.
fn push_receive(
    text: &mut Text,
    names: &Names,
    role: usize,
    peer: Role,
    label: Label,
    sort: Sort,
    waiting: u64,
) -> Result<(), NoMemory>
    ensures { OnOk result (text.new ≡ text.old ++ spec.act_words names.now role (Act.Takes peer label sort) waiting) }
{
    push_note_over(text, role)?;
    text.push(b": takes ")?;
    push_message(text, names, label, sort)?;
    text.push(b" of ")?;
    push_name(text, &names.roles, usize::from(peer.0))?;
    push_waiting(text, waiting)
}

/// Appends an act in a line of its own, without the line's ends.
fn push_act(text: &mut Text, names: &Names, drawn: DrawnAct) -> Result<(), NoMemory>
    ensures { OnOk result (text.new ≡ text.old ++ spec.act_words names.now drawn.role drawn.act drawn.waiting) }
{
    match drawn.act {
        Act::Puts { peer, label, sort } => push_send(
            text,
            names,
            drawn.role,
            peer,
            label,
            sort,
            drawn.waiting,
        ),
        Act::Takes { peer, label, sort } => push_receive(
            text,
            names,
            drawn.role,
            peer,
            label,
            sort,
            drawn.waiting,
        ),
    }
}

/// Appends a send with its receive, without the line's ends.
fn push_both(text: &mut Text, names: &Names, drawn: DrawnAct) -> Result<(), NoMemory>
    ensures { OnOk result (text.new ≡ text.old ++ spec.both_words names.now drawn.role drawn.act) }
{
    match drawn.act {
        Act::Puts { peer, label, sort } => {
            push_participant(text, drawn.role)?;
            text.push(b"->>")?;
            push_participant(text, usize::from(peer.0))?;
            text.push(b": ")?;
            push_message(text, names, label, sort)
        }
        Act::Takes { .. } => Ok(()),
    }
}

/// Whether the first act sends the only message in its queue, and the second one takes it.
fn takes_it(sent: DrawnAct, taken: DrawnAct) -> bool
    ensures { result ≡ spec.takes_it sent.role sent.act sent.waiting taken.role taken.act }
{
    match (sent.act, taken.act) {
        (Act::Puts { peer: receiver, .. }, Act::Takes { peer: sender, .. }) => {
            usize::from(receiver.0) == taken.role
                && usize::from(sender.0) == sent.role
                && sent.waiting == 1
        }
        _ => false,
    }
}

fn is_taken(sent: Option<DrawnAct>, taken: Option<DrawnAct>) -> bool
    ensures { result ≡ spec.is_taken sent taken }
{
    match (sent, taken) {
        (Some(sent), Some(taken)) => takes_it(sent, taken),
        _ => false,
    }
}

/// Appends the lines of an act between the act before it and the next one.
fn push_drawn(
    text: &mut Text,
    names: &Names,
    before: Option<DrawnAct>,
    drawn: DrawnAct,
    next: Option<DrawnAct>,
) -> Result<(), NoMemory>
    ensures { OnOk result (text.new ≡ text.old ++ spec.act_text names.now before drawn next) }
{
    if is_taken(before, Some(drawn)) {
        return Ok(());
    }
    text.push(b"    ")?;
    if is_taken(Some(drawn), next) {
        push_both(text, names, drawn)?;
    } else {
        push_act(text, names, drawn)?;
    }
    text.push(b"\n")
}

fn act_at(acts: &[DrawnAct], place: usize) -> Option<DrawnAct>
    ensures { result ≡ slice_get acts.now place }
{
    match acts.get(place) {
        Some(act) => Some(*act),
        None => None,
    }
}

/// Appends the lines of the acts.
fn push_acts_lines(text: &mut Text, names: &Names, acts: &[DrawnAct]) -> Result<(), NoMemory>
    ensures { OnOk result (text.new ≡ text.old ++ spec.acts_text names.now None acts.now) }
{
    let mut before = None;
    for place in 0..acts.len() {
        let drawn = acts[place];
        push_drawn(text, names, before, drawn, act_at(acts, place + 1))?;
        before = Some(drawn);
    }
    Ok(())
}

/// Appends how the run ended, without the line's ends.
fn push_end(text: &mut Text, names: &Names, end: End) -> Result<(), NoMemory>
    ensures { OnOk result (text.new ≡ text.old ++ spec.end_words names.now end) }
{
    match end {
        End::Ended => {
            text.push(b"Note over R0,")?;
            push_participant(text, names.roles.len().saturating_sub(1))?;
            text.push(b": end")
        }
        End::Stopped(role) => {
            push_note_over(text, usize::from(role.0))?;
            text.push(b": stopped")
        }
        End::Full { sender, receiver } => {
            push_note_over(text, usize::from(sender.0))?;
            text.push(b": full to ")?;
            push_name(text, &names.roles, usize::from(receiver.0))
        }
    }
}

/// The picture of a run of the machines over queues of this capacity, by the players that it left and its end.
pub(crate) fn run_picture(
    alloc: Global,
    names: &Names,
    machines: &[Machine],
    capacity: u16,
    players: &[Player<SeededActor>],
    end: End,
) -> Result<Text, NoMemory>
    ensures { IfOk result (λ text. text ≡ spec.run_picture names.now machines.now capacity (map (λ x. x.transcript) players.now) end) }
{
    let mut acts = Vec::with_capacity(alloc, machines.len())?;
    push_acts(alloc, &mut acts, machines, players)?;
    let drawn = acts_in_rounds(alloc, capacity, acts)?;
    let mut text = Text::new(alloc);
    text.push(b"sequenceDiagram\n")?;
    push_participants(&mut text, &names.roles)?;
    push_acts_lines(&mut text, names, &drawn)?;
    text.push(b"    ")?;
    push_end(&mut text, names, end)?;
    text.push(b"\n")?;
    Ok(text)
}
