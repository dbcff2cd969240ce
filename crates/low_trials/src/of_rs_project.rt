//! Projections of graphs that no text spells, and the talks for which their states stand.

use crate::of_rs_wellformed::{arm, arms_of, number, protocol};
use rs_model::{Arm, Arms, Machine, NoMemory, Node, Protocol, Role, State};
use rs_project::{ProjFault, Projection, project};
use rs_wellformed::well_formed;
use std::alloc::Global;
use std::test::Fail;

/// A state by signs: `end`, or as `2!1a4,2b0` the peer, `!` or `?`, and the arms.
fn state(alloc: Global, word: &[u8]) -> Result<State, NoMemory> {
    let [peer, mark, arms @ ..] = word else {
        return Ok(State::Done);
    };
    let arms = arms_of(alloc, arms)?;
    let peer = Role(*peer & 15);
    match *mark {
        b'!' => Ok(State::Puts { peer, arms }),
        b'?' => Ok(State::Takes { peer, arms }),
        _ => Ok(State::Done),
    }
}

/// The machine of a role that starts at state 0, by signs, a word a state.
fn machine(alloc: Global, role: u8, signs: &str) -> Result<Machine, NoMemory> {
    let mut states = Vec::new(alloc);
    for word in signs.split(' ') {
        states.push(state(alloc, word.as_bytes())?)?;
    }
    Ok(Machine {
        role: Role(role),
        states,
        start: 0,
    })
}

/// The talks of a set by signs, with `+` between; `-` is none.
fn set(alloc: Global, signs: &[u8]) -> Result<Vec<u32>, NoMemory> {
    let mut talks = Vec::new(alloc);
    for item in signs.split(|sign| *sign == b'+') {
        if item != b"-".as_slice() {
            talks.push(number(item))?;
        }
    }
    Ok(talks)
}

/// Whether the projection has these sets, by signs, a word a set.
fn has_sets(alloc: Global, found: &Projection, sets: &str) -> Result<bool, NoMemory> {
    let mut place: usize = 0;
    let mut same = true;
    for word in sets.split(' ') {
        let wanted = set(alloc, word.as_bytes())?;
        same = same
            && place < found.sets.len()
            && found.sets[place].as_slice() == wanted.as_slice();
        place = place.wrapping_add(1);
    }
    Ok(same && place == found.sets.len())
}

/// The projection of a protocol that is well formed, with that role.
fn projected(alloc: Global, protocol: &Protocol, role: u8) -> Result<Projection, ProjFault> {
    if protocol.nodes.len() > 4096 || role >= protocol.roles || well_formed(protocol).is_err() {
        return Err(ProjFault::NoMemory);
    }
    project(alloc, protocol, Role(role))
}

/// Whether the projection of a graph of three roles has these states and sets.
fn is_projected(
    alloc: Global,
    graph: &str,
    role: u8,
    states: &str,
    sets: &str,
) -> Result<bool, NoMemory> {
    let protocol = protocol(alloc, 3, graph, 0)?;
    match projected(alloc, &protocol, role) {
        Ok(found) => Ok(
            machine(alloc, role, states)?.same(&found.machine) && has_sets(alloc, &found, sets)?,
        ),
        Err(_fault) => Ok(false),
    }
}

const DOUBLE_BUFFER: &str = "0>1:0u1 2>0:0u2 1>0:1b3,2u4 0>2:1b0 0>1:0u5 0>2:2u6 end";

/// A run of talks between others, of which one offers a choice that changes nothing, and talks of role 2 with arms that lead
/// back into it at each place.
const BACK_INTO_A_RUN: &str =
    "0>1:0u1 0>1:0u2,1u3 0>1:0u4 1>0:0u4 0>2:0u0,1u1,2u2,3u3,4u5 0>2:0u0,1u2,2u6 end";

/// Talks that lead back into a run that ends at a choice of others, after which role 2 meets one of two talks.
const BACK_BEFORE_A_CHOICE: &str =
    "0>1:0u1 0>1:0u2,1u3 0>2:0u4 0>2:1u5 0>2:0u0,1u1,2u6 0>2:0u1,1u6 end";

#[test]
fn states_stand_for_talks(rt: HostRuntime) -> Result<(), Fail> {
    let alloc = rt.alloc();
    let kernel = "1!0u1 2?0u2 1?1b3,2u4 2!1b0 1!0u5 2!2u6 end";
    assert!(rt; is_projected(alloc, DOUBLE_BUFFER, 0, kernel, "0 1 2 3 4 5 -")?);
    let source = "0?0u1 0!1b0,2u2 0?0u3 end";
    assert!(rt; is_projected(alloc, DOUBLE_BUFFER, 1, source, "0 2 4 -")?);
    let sink = "0!0u1 0?1b0,2u2 end";
    assert!(rt; is_projected(alloc, DOUBLE_BUFFER, 2, sink, "1 3+5 -")?);
    let run = "0?0u0,1u0,2u0,3u0,4u1 0?0u0,1u0,2u2 end";
    assert!(rt; is_projected(alloc, BACK_INTO_A_RUN, 2, run, "4 5 -")?);
    let choice = "0?0u1,1u2 0?0u0,1u0,2u3 0?0u0,1u3 end";
    assert!(rt; is_projected(alloc, BACK_BEFORE_A_CHOICE, 2, choice, "2+3 4 5 -")?);
    Ok(())
}

/// Whether role 0 doesn't learn of the end of a round at that node.
fn is_unreached(alloc: Global, protocol: &Protocol, node: u32) -> bool {
    let wanted = ProjFault::Unreached {
        role: Role(0),
        node,
    };
    projected(alloc, protocol, 0).err() == Some(wanted)
}

/// `before` messages from role 1 to role 2, and then a loop of one more, after which role 0 has one.
fn round_behind(alloc: Global, before: u16) -> Result<Protocol, NoMemory> {
    let before = u32::from(before);
    let mut nodes = Vec::new(alloc);
    for i in 0..before {
        nodes.push(message(alloc, 2, &[arm(0, b'u', i + 1)])?)?;
    }
    nodes.push(message(alloc, 2, &[arm(1, b'u', before), arm(2, b'u', before + 1)])?)?;
    nodes.push(message(alloc, 0, &[arm(3, b'u', before + 2)])?)?;
    nodes.push(Node::Finished)?;
    Ok(Protocol {
        roles: 3,
        nodes,
        root: 0,
    })
}

fn message(alloc: Global, receiver: u8, alternatives: &[Arm]) -> Result<Node, NoMemory> {
    let mut arms = Arms::new(alloc);
    for arm in alternatives {
        arms.push(*arm)?;
    }
    Ok(Node::Talk {
        sender: Role(1),
        receiver: Role(receiver),
        arms,
    })
}

#[test]
fn rounds_of_others_are_refused(rt: HostRuntime) -> Result<(), Fail> {
    let alloc = rt.alloc();
    let back = protocol(alloc, 3, "1>2:0u2 1>2:0u1,1u3 1>2:0u2,1u1 1>0:0u4 end", 0)?;
    assert!(rt; is_unreached(alloc, &back, 1));
    let far = protocol(
        alloc,
        3,
        "1>2:0u3 2>1:0u3 2>1:0u4 1>2:0u1,1u2 1>0:0u5 end",
        0,
    )?;
    assert!(rt; is_unreached(alloc, &far, 1));
    assert!(rt; is_unreached(alloc, &round_behind(alloc, 2000)?, 2000));
    Ok(())
}
