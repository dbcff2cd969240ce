//! What roles have done, as texts.

use rs_core::{Actor, Entry, Outcome, Run};
use rs_model::{NoMemory, Value};
use rs_text::Text;
use std::alloc::Global;

pub(crate) type Words = [&'static str; 3];

fn word(words: &Words, number: usize) -> &'static str {
    match words.get(number) {
        Some(word) => word,
        None => "none",
    }
}

/// The bytes of a value, each after a blank.
fn push_octets(text: &mut Text, value: &Value) -> Result<(), NoMemory> {
    if let Value::Octets(bytes) = value {
        for byte in bytes.as_slice() {
            text.push(b" ")?;
            text.push_number(u64::from(*byte))?;
        }
    }
    Ok(())
}

/// Adds the entries, as `S!ready.T?ready.S?copy 129 107.`, by the names of the roles and the labels.
pub(crate) fn push_entries(
    text: &mut Text,
    entries: &[Entry],
    roles: &Words,
    labels: &Words,
) -> Result<(), NoMemory> {
    for entry in entries {
        match entry {
            Entry::Sent { peer, label } => {
                text.push(word(roles, usize::from(peer.0)).as_bytes())?;
                text.push(b"!")?;
                text.push(word(labels, usize::from(label.0)).as_bytes())?;
            }
            Entry::Got { peer, label, value } => {
                text.push(word(roles, usize::from(peer.0)).as_bytes())?;
                text.push(b"?")?;
                text.push(word(labels, usize::from(label.0)).as_bytes())?;
                push_octets(text, value)?;
            }
        }
        text.push(b".")?;
    }
    Ok(())
}

/// How the run ended: the transcripts, each with a line of its own, or which role was stopped.
pub(crate) fn text_of<A: Actor>(
    alloc: Global,
    run: &Run<A>,
    roles: &Words,
    labels: &Words,
) -> Result<Text, NoMemory> {
    let mut text = Text::new(alloc);
    match &run.outcome {
        Outcome::Ended(transcripts) => {
            for transcript in transcripts.as_slice() {
                push_entries(&mut text, transcript.as_slice(), roles, labels)?;
                text.push(b"\n")?;
            }
        }
        Outcome::Stopped(role) => {
            text.push(b"stopped ")?;
            text.push_number(u64::from(role.0))?;
        }
    }
    Ok(text)
}
