//! Actors that draw, and transcripts.

use rs_core::{Actor, Entry, SeededActor, Transcript, Transcripts};
use rs_model::{Arm, Label, NoMemory, Role, Sort, Value};
use rs_text::Text;
use std::alloc::Global;
use std::test::Fail;

fn arms(alloc: Global, sort: Sort, many: u32) -> Result<Vec<Arm>, NoMemory> {
    let mut arms = Vec::new(alloc);
    for _ in 0..many {
        arms.push(Arm {
            label: Label(0),
            sort,
            next: 0,
        })?;
    }
    Ok(arms)
}

fn chosen(alloc: Global, actor: &mut SeededActor, arms: &[Arm]) -> Result<(u16, Value), NoMemory> {
    if arms.is_empty() {
        return Err(NoMemory);
    }
    let choice = actor.choose(alloc, arms)?;
    actor.take(alloc, arms, choice.0, &choice.1)?;
    Ok(choice)
}

fn natural_of(value: &Value) -> u64 {
    match value {
        Value::Natural(number) => *number,
        _ => u64::MAX,
    }
}

/// Three choices in a row, as `0 21468.`: among 32,768 arms the number of the arm is the draw.
fn draws(alloc: Global, seed: u32, role: u8) -> Result<Text, NoMemory> {
    let arms = arms(alloc, Sort::Natural, 32_768)?;
    let mut actor = SeededActor::new(seed, Role(role));
    let mut text = Text::new(alloc);
    for _ in 0..3 {
        let (place, value) = chosen(alloc, &mut actor, &arms)?;
        text.push_number(u64::from(place))?;
        text.push(b" ")?;
        text.push_number(natural_of(&value))?;
        text.push(b".")?;
    }
    Ok(text)
}

#[test]
fn draws_are_the_stated_ones(rt: HostRuntime) -> Result<(), Fail> {
    let alloc = rt.alloc();
    let first = b"0 21468.9988 22117.3498 16927.".as_slice();
    let second = b"16838 5758.10113 17515.31051 5627.".as_slice();
    assert!(rt; draws(alloc, 0, 0)?.as_slice() == first);
    assert!(rt; draws(alloc, 0, 1)?.as_slice() == second);
    assert!(rt; draws(alloc, 1, 0)?.as_slice() == second);
    assert!(rt; draws(alloc, 2_147_483_647, 1)?.as_slice() == first);
    Ok(())
}

fn drawn(alloc: Global, number: u32, sort: Sort) -> Result<Value, NoMemory> {
    let mut actor = SeededActor::new(number, Role(0));
    let (_, value) = chosen(alloc, &mut actor, &arms(alloc, sort, 1)?)?;
    Ok(value)
}

fn octets_are(value: &Value, bytes: &[u8]) -> bool {
    match value {
        Value::Octets(found) => found.as_slice() == bytes,
        _ => false,
    }
}

fn numbers_are(value: &Value, numbers: &[i64]) -> bool {
    match value {
        Value::Numbers(found) => found.as_slice() == numbers,
        _ => false,
    }
}

#[test]
fn each_sort_is_drawn(rt: HostRuntime) -> Result<(), Fail> {
    let alloc = rt.alloc();
    assert!(rt; matches!(drawn(alloc, 0, Sort::Unit)?, Value::Unit));
    assert!(rt; matches!(drawn(alloc, 0, Sort::Flag)?, Value::Flag(false)));
    assert!(rt; matches!(drawn(alloc, 0, Sort::Whole)?, Value::Whole(5_084)));
    assert!(rt; octets_are(&drawn(alloc, 1, Sort::Octets)?, &[129, 107, 75]));
    assert!(rt; numbers_are(&drawn(alloc, 1, Sort::Numbers)?, &[-6_271, 1_131, 14_667]));
    Ok(())
}

#[test]
fn transcripts_are_lists(rt: HostRuntime) -> Result<(), Fail> {
    let alloc = rt.alloc();
    let mut entries = Vec::new(alloc);
    entries.push(Entry::Sent {
        peer: Role(1),
        label: Label(0),
    })?;
    let mut list = Vec::new(alloc);
    list.push(Transcript::of(entries))?;
    for transcript in Transcripts::of(list).as_slice() {
        assert!(rt; transcript.as_slice().len() == 1);
    }
    Ok(())
}
