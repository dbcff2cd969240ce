//! The acts of one role through a monitor, with no queue beside it.

use rs_model::{Arm, Arms, Label, Machine, NoMemory, Role, Sort, State, Value};
use rs_monitor::Monitor;
use std::alloc::Global;

/// To whom all messages go.
const PEER: Role = Role(1);

/// A machine that sends numbers for ever, each by one of `labels` labels.
fn sender(alloc: Global, labels: u16) -> Result<Machine, NoMemory> {
    let mut arms = Arms::new(alloc);
    for number in 0..labels {
        arms.push(Arm {
            label: Label(number),
            sort: Sort::Natural,
            next: 0,
        })?;
    }
    let mut states = Vec::new(alloc);
    states.push(State::Puts { peer: PEER, arms })?;
    Ok(Machine {
        role: Role(0),
        states,
        start: 0,
    })
}

/// How many of `count` sends the monitor of that machine lets through, up to the first that it refuses. The labels take turns.
pub fn let_through(alloc: Global, labels: u16, count: u32) -> Result<u64, NoMemory> {
    let mut monitor = Monitor::new(sender(alloc, labels)?);
    let mut label = 0;
    for number in 0..count {
        let value = Value::Natural(u64::from(number));
        if monitor.sent(PEER, Label(label), &value).is_err() {
            return Ok(monitor.acts());
        }
        label = next_label(label, labels);
    }
    Ok(monitor.acts())
}

/// The loop of `let_through` alone: a sum of the numbers and the labels that would have been sent.
pub fn summed(labels: u16, count: u32) -> u64 {
    let mut sum = 0u64;
    let mut label = 0;
    for number in 0..count {
        sum = sum.wrapping_add(u64::from(number ^ u32::from(label)));
        label = next_label(label, labels);
    }
    sum
}

/// The label whose turn it is after this one.
fn next_label(label: u16, labels: u16) -> u16 {
    let next = label.wrapping_add(1);
    if next < labels { next } else { 0 }
}
