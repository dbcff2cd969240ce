//! How a walk that ends with rounds that are alike is written.

ghost use Rattle.std.specs.Prelude.{◌≡◌, ◌++◌, OnOk, take};
ghost use Rattle.rs_walk_texts.specs.Rounds as spec;

use crate::acts::{push_acts, push_role};
use crate::sources::{SpotRef, WalkSource};
use crate::walks::push_steps;
use rs_explain::{Rounds, WalkStep, rounds_of};
use rs_model::{Act, NoMemory};
use rs_prefix::Pending;
use rs_text::Text;
use std::alloc::Global;

// `1 step`, `5 steps`
fn push_counted(text: &mut Text, count: usize, word: &[u8]) -> Result<(), NoMemory>
    ensures { OnOk result (text.new ≡ text.old ++ spec.counted count word.now) }
{
    text.push_number(count as u64)?;
    text.push(b" ")?;
    text.push(word)?;
    push_plural(text, count)
}

fn push_plural(text: &mut Text, count: usize) -> Result<(), NoMemory>
    ensures { OnOk result (text.new ≡ text.old ++ spec.plural count) }
{
    if count == 1 {
        return Ok(());
    }
    text.push(b"s")
}

// The last so many acts.
fn last_acts(acts: &[Act], count: usize) -> &[Act]
    ensures { result.now ≡ spec.last_acts acts.now count }
{
    let (_, last) = acts.split_at(acts.len().saturating_sub(count));
    last
}

// How many more rounds there are, and of how many steps.
fn push_more_rounds(text: &mut Text, rounds: Rounds) -> Result<(), NoMemory>
    ensures { OnOk result (text.new ≡ text.old ++ spec.more_rounds rounds) }
{
    push_counted(text, rounds.more, b"more round")?;
    text.push(b" of the last ")?;
    push_counted(text, rounds.size, b"step")
}

// A line: how many more rounds there are, and what each owes more, where so much is owed behind the last.
fn push_rounds_line(
    text: &mut Text,
    source: &WalkSource,
    owed: &[Act],
    rounds: Rounds,
) -> Result<(), NoMemory>
    ensures { OnOk result (text.new ≡ text.old ++ spec.rounds_line source.now owed.now rounds) }
{
    text.push(b"- ")?;
    push_more_rounds(text, rounds)?;
    text.push(b": each owes ")?;
    push_acts(text, source.names, last_acts(owed, rounds.owed))?;
    text.push(b" more\n")
}

// The first so many steps of a walk.
fn first_steps(steps: &[WalkStep], count: usize) -> &[WalkStep]
    ensures { result.now ≡ take count steps.now }
{
    if count >= steps.len() {
        return steps;
    }
    let (first, _) = steps.split_at(count);
    first
}

// What is owed behind the last of the steps.
fn owed_at_end(steps: &[WalkStep]) -> &[Act]
    ensures { result.now ≡ spec.owed_at_end steps.now }
{
    match steps.get(steps.len().saturating_sub(1)) {
        Some(step) => step.pending.as_slice(),
        None => &[],
    }
}

// The steps of a walk: all of them, or up to the first of the rounds, and what the others add.
fn push_folded<'a>(
    alloc: Global,
    text: &mut Text,
    source: &WalkSource,
    first: &SpotRef<'a>,
    steps: &'a [WalkStep],
    rounds: Option<Rounds>,
) -> Result<(), NoMemory>
    ensures { OnOk result (text.new ≡ text.old ++ spec.folded_text source.now first.now steps.now rounds) }
{
    match rounds {
        None => push_steps(alloc, text, source, first, steps),
        Some(rounds) => {
            push_steps(alloc, text, source, first, first_steps(steps, rounds.shown))?;
            push_rounds_line(text, source, owed_at_end(steps), rounds)
        }
    }
}

/// Writes a walk from the start: a line that leads to the steps, and a line for each step. Where the walk ends with rounds that are
/// alike, the steps of the first of them are written, and how many more there are and what each adds to what is owed. Refused
/// memory is the only error.
pub fn push_walk(
    alloc: Global,
    text: &mut Text,
    source: &WalkSource,
    steps: &[WalkStep],
) -> Result<(), NoMemory>
    ensures { OnOk result (text.new ≡ text.old ++ spec.walk_text source.now steps.now) }
{
    let machine = source.machine;
    let projection = source.projection;
    push_role(text, source.names, machine.role)?;
    text.push(b", act by act:\n")?;
    let pending = Pending::new(alloc);
    let start = SpotRef {
        state: machine.start,
        pending: &pending,
        above: projection.machine.start,
    };
    let rounds = rounds_of(machine, &projection.machine, steps);
    push_folded(alloc, text, source, &start, steps, rounds)
}
