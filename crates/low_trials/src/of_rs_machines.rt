//! Whether some text reads to a machine that is made by code.

use rs_machines::{machine_text_shaped, read_machine};
use rs_model::{Arm, Arms, Label, Machine, Name, Names, NoMemory, Role, Sort, State};
use rs_text::sound;
use std::alloc::Global;
use std::test::Fail;

/// The roles K, S and T and the labels ready, copy and stop.
pub(crate) fn three_roles(alloc: Global) -> Result<Names, NoMemory> {
    let mut names = Names {
        roles: Vec::new(alloc),
        labels: Vec::new(alloc),
    };
    names.roles.push(Name::of(alloc, b"K")?)?;
    names.roles.push(Name::of(alloc, b"S")?)?;
    names.roles.push(Name::of(alloc, b"T")?)?;
    names.labels.push(Name::of(alloc, b"ready")?)?;
    names.labels.push(Name::of(alloc, b"copy")?)?;
    names.labels.push(Name::of(alloc, b"stop")?)?;
    Ok(names)
}

/// Whether the machine that a text spells is text-shaped with this start, and with one more end after it.
fn is_shaped(alloc: Global, bytes: &[u8], start: u32, more: bool) -> Result<bool, NoMemory> {
    let mut names = three_roles(alloc)?;
    if sound(&names) && names.roles.len() <= 16 && names.labels.len() <= 256 {
        if let Ok((machine, _until)) = read_machine(alloc, bytes, 0, &mut names) {
            let mut machine = machine;
            machine.start = start;
            if more {
                machine.states.push(State::Done)?;
            }
            return Ok(machine_text_shaped(&machine));
        }
    }
    Ok(false)
}

#[test]
fn tells_text_shaped(rt: HostRuntime) -> Result<(), Fail> {
    let alloc = rt.alloc();
    let sends = b"machine K: S!x(). end";
    assert!(rt; is_shaped(alloc, sends, 0, false)?);
    assert!(rt; !is_shaped(alloc, sends, 1, false)?);
    assert!(rt; !is_shaped(alloc, sends, 0, true)?);
    assert!(rt; is_shaped(alloc, b"machine T: end", 0, false)?);
    let round = b"machine T: rec X. K?x(). X";
    assert!(rt; is_shaped(alloc, round, 0, false)?);
    assert!(rt; !is_shaped(alloc, round, 1, false)?);
    assert!(rt; !is_shaped(alloc, round, 0, true)?);
    Ok(())
}

fn arm(label: u16, next: u32) -> Arm {
    Arm {
        label: Label(label),
        sort: Sort::Unit,
        next,
    }
}

/// Whether `count` sends are text-shaped, each in the first arm of the one before, with a second arm to the end where `braces`
/// says so.
fn is_row_shaped(alloc: Global, count: u32, braces: bool) -> Result<bool, NoMemory> {
    let mut states = Vec::new(alloc);
    for state in 0..count {
        let mut arms = Arms::new(alloc);
        arms.push(arm(0, state + 1))?;
        if braces {
            arms.push(arm(0, count))?;
        }
        states.push(State::Puts {
            peer: Role(1),
            arms,
        })?;
    }
    states.push(State::Done)?;
    Ok(machine_text_shaped(&Machine {
        role: Role(0),
        states,
        start: 0,
    }))
}

/// Whether a machine that sends one message is text-shaped.
fn is_sender_shaped(alloc: Global, role: u8, peer: u8, label: u16) -> Result<bool, NoMemory> {
    let mut arms = Arms::new(alloc);
    arms.push(arm(label, 1))?;
    let mut states = Vec::new(alloc);
    states.push(State::Puts {
        peer: Role(peer),
        arms,
    })?;
    states.push(State::Done)?;
    Ok(machine_text_shaped(&Machine {
        role: Role(role),
        states,
        start: 0,
    }))
}

#[test]
fn tells_limits_and_numbers_without_names(rt: HostRuntime) -> Result<(), Fail> {
    let alloc = rt.alloc();
    assert!(rt; is_row_shaped(alloc, 256, false)?);
    assert!(rt; !is_row_shaped(alloc, 257, false)?);
    assert!(rt; is_row_shaped(alloc, 200, true)?);
    assert!(rt; !is_row_shaped(alloc, 201, true)?);
    assert!(rt; is_sender_shaped(alloc, 0, 1, 0)?);
    assert!(rt; is_sender_shaped(alloc, 15, 14, 255)?);
    assert!(rt; is_sender_shaped(alloc, 14, 15, 255)?);
    assert!(rt; !is_sender_shaped(alloc, 16, 1, 0)?);
    assert!(rt; !is_sender_shaped(alloc, 200, 1, 0)?);
    assert!(rt; !is_sender_shaped(alloc, 0, 16, 0)?);
    assert!(rt; !is_sender_shaped(alloc, 0, 1, 256)?);
    Ok(())
}
