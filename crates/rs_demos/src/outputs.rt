//! What a demo prints.

ghost use Rattle.std.specs.Prelude.{◌≡◌, ◌++◌, ℤ, List, map, IfOk, OnOk, slice_get};
ghost use Rattle.std.specs.Fmt.{signed_decimal};
ghost use Rattle.rs_demos.specs.Outputs.{bytes_of, output_of, result_of};
ghost use Rattle.rs_demos.specs.Printing.{joined_text, further_numbers_text};
ghost use Rattle.rs_demos.specs.Results.{results_text};

use crate::actors::{DemoActor, DemoTalker};
use rs_actors::TalkingActor;
use rs_model::{Demo, NoMemory};
use rs_text::Text;
use std::alloc::Global;

/// What the demo prints of the actors that an ended run leaves, which are in role order: the bytes that the sink has
/// joined, or the results, separated by one space, and LF. The one error is that memory was refused.
pub fn demo_output(alloc: Global, kind: Demo, actors: &[DemoActor]) -> Result<Text, NoMemory>
    ensures { IfOk result (λ text. text ≡ output_of kind actors.now) }
{
    let mut text = Text::new(alloc);
    match kind {
        Demo::Double => text.push(bytes_at(actors, 2))?,
        Demo::Stream => text.push(bytes_at(actors, 1))?,
        Demo::Ring | Demo::Butterfly => push_results(alloc, &mut text, actors)?,
    }
    Ok(text)
}

/// The same of actors that it takes: the bytes that the sink has joined are handed on, and not copied.
pub fn into_demo_output(alloc: Global, kind: Demo, actors: Vec<DemoActor>) -> Result<Text, NoMemory>
    ensures { IfOk result (λ text. text ≡ output_of kind actors.items) }
{
    match kind {
        Demo::Double => Ok(into_bytes_at(alloc, actors, 2)),
        Demo::Stream => Ok(into_bytes_at(alloc, actors, 1)),
        Demo::Ring | Demo::Butterfly => demo_output(alloc, kind, actors.as_slice()),
    }
}

fn into_bytes_at(alloc: Global, mut actors: Vec<DemoActor>, place: usize) -> Text
    ensures { result ≡ bytes_of (slice_get actors.items place) }
{
    if place < actors.len() {
        if let DemoTalker::Sink(sink) = actors.swap_remove(place).into_talker() {
            return sink.into_text();
        }
    }
    Text::new(alloc)
}

fn bytes_at(actors: &[DemoActor], place: usize) -> &[u8]
    ensures { result.now ≡ bytes_of (slice_get actors.now place) }
{
    match actors.get(place).map(TalkingActor::talker) {
        Some(DemoTalker::Sink(sink)) => sink.as_slice(),
        _ => &[],
    }
}

fn result_of(actor: &DemoActor) -> i64
    ensures { result ≡ result_of actor.now }
{
    match actor.talker() {
        DemoTalker::RingMember(member) => member.sum,
        DemoTalker::ButterflyMember(member) => member.held,
        _ => 0,
    }
}

fn push_signed(alloc: Global, text: &mut Text, number: i64) -> Result<(), NoMemory>
    ensures { OnOk result (text.new ≡ text.old ++ signed_decimal number) }
{
    let digits = number.to_string(alloc)?;
    text.push(digits.as_bytes())
}

fn push_results(alloc: Global, text: &mut Text, actors: &[DemoActor]) -> Result<(), NoMemory>
    ensures { OnOk result (text.new ≡ text.old ++ results_text (map result_of actors.now)) }
{
    push_joined(alloc, text, actors)?;
    text.push(b"\n")
}

/// The results of the actors, with a space between each two.
fn push_joined(alloc: Global, text: &mut Text, actors: &[DemoActor]) -> Result<(), NoMemory>
    ensures { OnOk result (text.new ≡ text.old ++ joined_text (map result_of actors.now)) }
{
    match actors.split_first() {
        Some((first, others)) => {
            push_signed(alloc, text, result_of(first))?;
            push_others(alloc, text, others)
        }
        None => Ok(()),
    }
}

/// The results of these actors, each with a space before it.
fn push_others(alloc: Global, text: &mut Text, actors: &[DemoActor]) -> Result<(), NoMemory>
    ensures { OnOk result (text.new ≡ text.old ++ further_numbers_text (map result_of actors.now)) }
{
    for actor in actors {
        text.push(b" ")?;
        push_signed(alloc, text, result_of(actor))?;
    }
    Ok(())
}
