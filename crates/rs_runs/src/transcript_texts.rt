//! How transcripts are written.

ghost use Rattle.std.specs.Prelude.{◌≡◌, ◌<◌, ◌++◌, OnOk, false};
ghost use Rattle.std.specs.Fmt.{digit_glyph, signed_decimal};
ghost use Rattle.std.specs.List.{flat_map};
ghost use Rattle.rs_runs.specs.TranscriptTexts as spec;

use rs_answers::Piece::{Number, Words};
use rs_answers::{label_name, push_pieces, role_name};
use rs_core::{Entry, Transcript};
use rs_model::{Name, Names, NoMemory, Value};
use rs_text::Text;
use std::alloc::Global;

fn flag_text(flag: bool) -> &'static [u8]
    ensures { result.now ≡ spec.flag_text flag }
{
    if flag { b"true" } else { b"false" }
}

fn hex_digit(digit: u8) -> u8
    requires { digit < 16 }
    ensures { result ≡ digit_glyph false digit }
{
    if digit < 10 {
        b'0' + digit
    } else {
        b'a' - 10 + digit
    }
}

/// Appends each byte as two hexadecimal digits.
fn push_octets(text: &mut Text, octets: &[u8]) -> Result<(), NoMemory>
    ensures { OnOk result (text.new ≡ text.old ++ flat_map spec.hex_text octets.now) }
{
    for octet in octets {
        text.push(&[hex_digit(octet / 16), hex_digit(octet % 16)])?;
    }
    Ok(())
}

fn push_whole(alloc: Global, text: &mut Text, number: i64) -> Result<(), NoMemory>
    ensures { OnOk result (text.new ≡ text.old ++ signed_decimal number) }
{
    let digits = number.to_string(alloc)?;
    text.push(digits.as_bytes())
}

/// Appends the numbers, each behind a comma.
fn push_behind_commas(alloc: Global, text: &mut Text, numbers: &[i64]) -> Result<(), NoMemory>
    ensures { OnOk result (text.new ≡ text.old ++ flat_map spec.number_behind numbers.now) }
{
    for number in numbers {
        text.push(b",")?;
        push_whole(alloc, text, *number)?;
    }
    Ok(())
}

fn push_numbers(alloc: Global, text: &mut Text, numbers: &[i64]) -> Result<(), NoMemory>
    ensures { OnOk result (text.new ≡ text.old ++ spec.integers_text numbers.now) }
{
    let [number, numbers @ ..] = numbers else {
        return Ok(());
    };
    push_whole(alloc, text, *number)?;
    push_behind_commas(alloc, text, numbers)
}

/// Appends the value in parentheses, and nothing for the only value of its sort.
fn push_value(alloc: Global, text: &mut Text, value: &Value) -> Result<(), NoMemory>
    ensures { OnOk result (text.new ≡ text.old ++ spec.value_text value.now) }
{
    match value {
        Value::Unit => Ok(()),
        Value::Flag(flag) => {
            push_pieces(text, &[Words(b"("), Words(flag_text(*flag)), Words(b")")])
        }
        Value::Natural(number) => {
            push_pieces(text, &[Words(b"("), Number(*number), Words(b")")])
        }
        Value::Whole(number) => {
            text.push(b"(")?;
            push_whole(alloc, text, *number)?;
            text.push(b")")
        }
        Value::Octets(octets) => {
            text.push(b"(")?;
            push_octets(text, octets.as_slice())?;
            text.push(b")")
        }
        Value::Numbers(numbers) => {
            text.push(b"([")?;
            push_numbers(alloc, text, numbers.as_slice())?;
            text.push(b"])")
        }
    }
}

/// Appends a send as ` Q!label`, and a receive as ` Q?label(value)`.
fn push_entry(alloc: Global, text: &mut Text, names: &Names, entry: &Entry) -> Result<(), NoMemory>
    ensures { OnOk result (text.new ≡ text.old ++ spec.entry_text names.now entry.now) }
{
    match entry {
        Entry::Sent { peer, label } => push_pieces(
            text,
            &[
                Words(b" "),
                Words(role_name(names, *peer)),
                Words(b"!"),
                Words(label_name(names, *label)),
            ],
        ),
        Entry::Got { peer, label, value } => {
            push_pieces(
                text,
                &[
                    Words(b" "),
                    Words(role_name(names, *peer)),
                    Words(b"?"),
                    Words(label_name(names, *label)),
                ],
            )?;
            push_value(alloc, text, value)
        }
    }
}

fn push_entries(
    alloc: Global,
    text: &mut Text,
    names: &Names,
    entries: &[Entry],
) -> Result<(), NoMemory>
    ensures { OnOk result (text.new ≡ text.old ++ flat_map (spec.entry_text names.now) entries.now) }
{
    for entry in entries {
        push_entry(alloc, text, names, entry)?;
    }
    Ok(())
}

/// Appends a line: the role's name, and all that the role did.
fn push_transcript(
    alloc: Global,
    text: &mut Text,
    names: &Names,
    role: &Name,
    entries: &[Entry],
) -> Result<(), NoMemory>
    ensures { OnOk result (text.new ≡ text.old ++ spec.transcript_text names.now role.now entries.now) }
{
    text.push(role.as_slice())?;
    text.push(b":")?;
    push_entries(alloc, text, names, entries)?;
    text.push(b"\n")
}

/// Appends a line for each role, in order.
pub fn push_transcripts(
    alloc: Global,
    text: &mut Text,
    names: &Names,
    roles: &[Name],
    transcripts: &[Transcript],
) -> Result<(), NoMemory>
    ensures { OnOk result (text.new ≡ text.old ++ spec.transcripts_text names.now roles.now transcripts.now) }
{
    let [role, roles @ ..] = roles else {
        return Ok(());
    };
    let [transcript, transcripts @ ..] = transcripts else {
        return Ok(());
    };
    push_transcript(alloc, text, names, role, transcript.as_slice())?;
    push_transcripts(alloc, text, names, roles, transcripts)
}
