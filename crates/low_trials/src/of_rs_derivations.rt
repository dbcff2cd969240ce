//! Derivations that no document spells.

use crate::of_rs_machines::three_roles;
use rs_derivations::read_derivation;
use rs_derive::{DNode, Derivation, DeriveFault, check, longest, top_rank};
use rs_graph::NodeRow;
use rs_model::{Act, Label, Machine, NoMemory, Role, Sort, State};
use rs_prefix::Pending;
use rs_text::{Text, TextFault, TextKind, sound};
use std::alloc::Global;
use std::test::Fail;

/// The fault of a text, or none.
fn fault_of(alloc: Global, bytes: &[u8]) -> Result<Option<TextFault>, NoMemory> {
    let mut names = three_roles(alloc)?;
    if sound(&names) && names.roles.len() <= 16 && names.labels.len() <= 256 {
        return match read_derivation(alloc, bytes, 0, &mut names) {
            Ok((_derivation, _until)) => Ok(None),
            Err(fault) => Ok(Some(fault)),
        };
    }
    Ok(None)
}

/// A derivation of `nodes` nodes, without its last brace.
fn long_text(alloc: Global, nodes: u64) -> Result<Text, NoMemory> {
    let mut text = Text::new(alloc);
    text.push(b"derivation K bound 1 {")?;
    for number in 0..nodes {
        text.push_number(number)?;
        text.push(b":0[]0 rank 0 next[]")?;
    }
    Ok(text)
}

#[test]
fn counts_nodes(rt: HostRuntime) -> Result<(), Fail> {
    let alloc = rt.alloc();
    let mut all = long_text(alloc, 65_536)?;
    let mut more = long_text(alloc, 65_536)?;
    let wanted = TextFault {
        kind: TextKind::TooManyNodes,
        at: all.as_slice().len(),
    };
    all.push(b"}")?;
    more.push(b"65536:")?;
    assert!(rt; fault_of(alloc, all.as_slice())?.is_none());
    assert!(rt; fault_of(alloc, more.as_slice())? == Some(wanted));
    Ok(())
}

/// A node at which `pending` receives from the role 0 are pending.
fn node(alloc: Global, pending: u16, state: u32, rank: u32, above: u32) -> Result<DNode, NoMemory> {
    let mut acts = Pending::new(alloc);
    for label in 0..pending {
        acts.push(Act::Takes {
            peer: Role(0),
            label: Label(label),
            sort: Sort::Unit,
        })?;
    }
    Ok(DNode {
        state,
        pending: acts,
        above,
        rank,
        next: NodeRow::new(alloc),
    })
}

/// The greatest number of pending acts, and the greatest rank.
fn figures(derivation: &Derivation) -> Option<(u32, u32)> {
    let short = derivation
        .nodes
        .iter()
        .all(|node| node.pending.as_slice().len() < 100);
    if short {
        Some((longest(derivation), top_rank(derivation)))
    } else {
        None
    }
}

/// What is written of a derivation of the machine that is at its end from itself.
fn verdict(alloc: Global, derivation: &Derivation) -> Result<Option<DeriveFault>, NoMemory> {
    let mut states = Vec::new(alloc);
    states.push(State::Done)?;
    let ended = Machine {
        role: Role(7),
        states,
        start: 0,
    };
    let few = derivation.nodes.len() < 100 && derivation.bound >= 1 && derivation.bound <= 64;
    if few && ended.states.len() < 100 && ended.check(8).is_ok() {
        return Ok(check(derivation, &ended, &ended).err());
    }
    Ok(None)
}

#[test]
fn derivations_have_figures(rt: HostRuntime) -> Result<(), Fail> {
    let alloc = rt.alloc();
    let none = Derivation {
        role: Role(0),
        bound: 1,
        nodes: Vec::new(alloc),
    };
    assert!(rt; figures(&none) == Some((0, 0)));
    assert!(rt; verdict(alloc, &none)? == Some(DeriveFault::BadStart));
    let mut nodes = Vec::new(alloc);
    nodes.push(node(alloc, 1, 0, 1, 1)?)?;
    nodes.push(node(alloc, 2, 0, 3, 2)?)?;
    nodes.push(node(alloc, 1, 1, 1, 3)?)?;
    let three = Derivation {
        role: Role(0),
        bound: 16,
        nodes,
    };
    assert!(rt; figures(&three) == Some((2, 3)));
    Ok(())
}
