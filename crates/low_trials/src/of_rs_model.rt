//! Machines that are made by signs: their faults and copies.

use rs_model::{
    Arm, Arms, Label, Machine, MachineFault, Name, NoMemory, Numbers, Octets, Role, Sort, State,
    Value,
};
use std::alloc::Global;
use std::mem;
use std::test::Fail;

/// A machine by two signs an item: a label and a next for each arm, then `!` or `?` and the peer of its state; `..` is
/// the end.
fn machine(alloc: Global, role: u8, start: u32, signs: &str) -> Result<Machine, NoMemory> {
    let mut states = Vec::new(alloc);
    let mut arms = Arms::new(alloc);
    for item in signs.as_bytes().chunks(3) {
        match item {
            [b'.', ..] => states.push(State::Done)?,
            [b'!', peer, ..] => states.push(State::Puts {
                peer: Role(*peer & 15),
                arms: mem::replace(&mut arms, Arms::new(alloc)),
            })?,
            [b'?', peer, ..] => states.push(State::Takes {
                peer: Role(*peer & 15),
                arms: mem::replace(&mut arms, Arms::new(alloc)),
            })?,
            [label, next, ..] => arms.push(Arm {
                label: Label(u16::from(*label & 15)),
                sort: Sort::Natural,
                next: u32::from(*next & 15),
            })?,
            _ => {}
        }
    }
    Ok(Machine {
        role: Role(role),
        states,
        start,
    })
}

const RIGHT: &str = "01 12 !0 70 ?2 ..";

const BAD_START: MachineFault = MachineFault::BadNext { state: 0 };

const TWICE_FOUR: MachineFault = MachineFault::TwiceLabel {
    state: 0,
    label: Label(4),
};

const TWICE_FIVE: MachineFault = MachineFault::TwiceLabel {
    state: 0,
    label: Label(5),
};

/// The role, the start and the states of machines, and what is written of them among three roles.
const CHECKS: [(u8, u32, &str, Result<(), MachineFault>); 19] = [
    (1, 0, RIGHT, Ok(())),
    (1, 2, RIGHT, Ok(())),
    (0, 0, "..", Ok(())),
    // the start, the role
    (1, 3, RIGHT, Err(MachineFault::BadNext { state: 3 })),
    (3, 1, RIGHT, Err(MachineFault::BadNext { state: 1 })),
    (1, 0, "", Err(BAD_START)),
    // the states
    (1, 0, "!0", Err(MachineFault::NoArms { state: 0 })),
    (1, 0, ".. ?0", Err(MachineFault::NoArms { state: 1 })),
    (1, 0, "00 !1", Err(MachineFault::SelfPeer { state: 0 })),
    (1, 0, "00 ?3", Err(MachineFault::UnknownPeer { state: 0 })),
    (1, 0, "40 50 40 !0", Err(TWICE_FOUR)),
    (1, 0, "40 50 50 40 ?0", Err(TWICE_FIVE)),
    (1, 0, "00 11 !0", Err(BAD_START)),
    // two faults
    (1, 1, "!0", Err(MachineFault::BadNext { state: 1 })),
    (1, 0, "!1", Err(MachineFault::NoArms { state: 0 })),
    (1, 0, "40 40 !1", Err(MachineFault::SelfPeer { state: 0 })),
    (1, 0, "49 !3", Err(MachineFault::UnknownPeer { state: 0 })),
    (1, 0, "49 40 !0", Err(TWICE_FOUR)),
    (1, 0, "49 !0 ?0", Err(BAD_START)),
];

/// How many of the rows are right.
fn right_checks(
    alloc: Global,
    rows: &[(u8, u32, &str, Result<(), MachineFault>)],
) -> Result<u32, NoMemory> {
    let mut right: u32 = 0;
    for (role, start, signs, wanted) in rows {
        let machine = machine(alloc, *role, *start, signs)?;
        if machine.states.len() < 10 && machine.check(3) == *wanted {
            right = right.wrapping_add(1);
        }
    }
    Ok(right)
}

#[test]
fn first_faults(rt: HostRuntime) -> Result<(), Fail> {
    assert!(rt; right_checks(rt.alloc(), &CHECKS)? == 19);
    Ok(())
}

#[test]
fn copies_are_made(rt: HostRuntime) -> Result<(), Fail> {
    let alloc = rt.alloc();
    let machine = machine(alloc, 1, 0, "01 !0 ..")?;
    let copy = machine.copy(alloc)?;
    assert!(rt; copy.same(&machine));
    assert!(rt; copy.states.len() == 2);

    let name = Name::of(alloc, b"A")?;
    assert!(rt; name.as_slice() == b"A".as_slice());
    let bytes = Value::Octets(Octets::of(alloc, &[1, 2])?).copy(alloc)?;
    assert!(rt; bytes.fits(Sort::Octets) && !bytes.fits(Sort::Numbers));
    let numbers = Value::Numbers(Numbers::of(alloc, &[-1])?).copy(alloc)?;
    assert!(rt; numbers.fits(Sort::Numbers));
    Ok(())
}

#[test]
fn a_nat_has_two_sorts(rt: HostRuntime) {
    let greatest = Value::Natural(9_223_372_036_854_775_807);
    assert!(rt; greatest.fits(Sort::Natural) && greatest.fits(Sort::Whole));
    let greater = Value::Natural(9_223_372_036_854_775_808);
    assert!(rt; !greater.fits(Sort::Natural) && !greater.fits(Sort::Whole));
    let number = Value::Whole(7);
    assert!(rt; number.fits(Sort::Whole) && !number.fits(Sort::Natural));
    assert!(rt; Sort::Natural.serves(Sort::Whole) && !Sort::Whole.serves(Sort::Natural));
}
