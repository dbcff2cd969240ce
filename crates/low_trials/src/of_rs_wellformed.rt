//! Graphs of protocols that are made by signs: their faults, and whether some text reads to them.

use rs_global::text_shaped;
use rs_model::{Arm, Arms, Label, NoMemory, Node, Protocol, Role, Sort};
use rs_wellformed::{WfFault, well_formed};
use std::alloc::Global;
use std::test::Fail;

/// A graph by signs, a word a node: `end`, or a talk as `0>2:1a4,2b0`, from role 0 to role 2, whose arms are label 1 with
/// sort `a` and node 4 after it, and label 2 with sort `b` and node 0. Sort `u` is unit, `b` bytes, `n` nat.
pub(crate) fn protocol(
    alloc: Global,
    roles: u8,
    signs: &str,
    root: u32,
) -> Result<Protocol, NoMemory> {
    let mut nodes = Vec::new(alloc);
    for word in signs.split(' ') {
        if !word.is_empty() {
            nodes.push(node(alloc, word.as_bytes())?)?;
        }
    }
    Ok(Protocol { roles, nodes, root })
}

fn node(alloc: Global, word: &[u8]) -> Result<Node, NoMemory> {
    let [sender, b'>', receiver, b':', arms @ ..] = word else {
        return Ok(Node::Finished);
    };
    Ok(Node::Talk {
        sender: Role(*sender & 15),
        receiver: Role(*receiver & 15),
        arms: arms_of(alloc, arms)?,
    })
}

/// The arms by their signs, with commas between.
pub(crate) fn arms_of(alloc: Global, signs: &[u8]) -> Result<Arms, NoMemory> {
    let mut arms = Arms::new(alloc);
    for item in signs.split(|sign| *sign == b',') {
        if let [label, sort, next @ ..] = item {
            arms.push(arm(*label & 15, *sort, number(next)))?;
        }
    }
    Ok(arms)
}

pub(crate) fn arm(label: u8, sort: u8, next: u32) -> Arm {
    let sort = match sort {
        b'b' => Sort::Octets,
        b'n' => Sort::Natural,
        _ => Sort::Unit,
    };
    Arm {
        label: Label(u16::from(label)),
        sort,
        next,
    }
}

pub(crate) fn number(digits: &[u8]) -> u32 {
    let mut number: u32 = 0;
    for digit in digits {
        number = number.wrapping_mul(10).wrapping_add(u32::from(*digit & 15));
    }
    number
}

const TWICE: WfFault = WfFault::TwiceLabel {
    node: 0,
    label: Label(4),
};

/// Graphs of three roles that no text spells, from their roots, and what is written of them.
const FAULTS: [(u32, &str, Result<(), WfFault>); 14] = [
    (1, "end 2>0:4u0,5u1", Ok(())),
    (0, "", Err(WfFault::BadNext { node: 0 })),
    (1, "end", Err(WfFault::BadNext { node: 1 })),
    (0, "end 0>1:", Err(WfFault::NoArms { node: 1 })),
    (0, "0>1:4u0,5u2 end", Err(WfFault::BadNext { node: 0 })),
    (0, "end 3>1:4u0", Err(WfFault::BadNext { node: 1 })),
    (0, "end 1>3:4u0", Err(WfFault::BadNext { node: 1 })),
    (2, "1>1:4u0", Err(WfFault::BadNext { node: 2 })),
    (0, "1>1:", Err(WfFault::SelfTalk { node: 0 })),
    (0, "3>3:4u0", Err(WfFault::SelfTalk { node: 0 })),
    (0, "3>1:", Err(WfFault::NoArms { node: 0 })),
    (0, "0>1:4u9,4u0", Err(TWICE)),
    (0, "3>1:4u0,4u0", Err(TWICE)),
    (0, "0>1:4u9 1>1:4u0", Err(WfFault::BadNext { node: 0 })),
];

/// How many of the rows are right.
fn right_faults(alloc: Global, rows: &[(u32, &str, Result<(), WfFault>)]) -> Result<u32, NoMemory> {
    let mut right: u32 = 0;
    for (root, signs, wanted) in rows {
        let protocol = protocol(alloc, 3, signs, *root)?;
        if protocol.nodes.len() < 10 && well_formed(&protocol) == *wanted {
            right = right.wrapping_add(1);
        }
    }
    Ok(right)
}

#[test]
fn first_faults(rt: HostRuntime) -> Result<(), Fail> {
    assert!(rt; right_faults(rt.alloc(), &FAULTS)? == 14);
    Ok(())
}

/// The roles, the nodes and the root of graphs, and whether some text reads to them.
const SHAPES: [(u8, &str, u32, bool); 21] = [
    // an end
    (2, "end", 0, true),
    // one role
    (1, "end", 0, false),
    // sixteen roles
    (16, "end", 0, true),
    // seventeen roles
    (17, "end", 0, false),
    // no node
    (2, "", 0, false),
    // one talk
    (2, "0>1:0u1 end", 0, true),
    // no end
    (2, "0>1:0u1", 0, false),
    // a loop
    (2, "0>1:0u0", 0, true),
    // an end that nothing leads to
    (2, "0>1:0u0 end", 0, false),
    // no arms
    (2, "0>1:", 0, false),
    // a label twice
    (2, "0>1:0u1,0u1 end", 0, true),
    // two talks
    (2, "0>1:0u1 0>1:1u2 end", 0, true),
    // another root
    (2, "0>1:0u2 0>1:1u0 end", 1, false),
    // labels in another order
    (2, "0>1:1u1 0>1:0u2 end", 0, false),
    // a label left out
    (2, "0>1:0u1 0>1:2u2 end", 0, false),
    // a talk that nothing leads to
    (2, "0>1:0u2 0>1:0u2 end", 0, false),
    // a choice
    (2, "0>1:0u1,1u2 0>1:0u3 0>1:1u3 end", 0, true),
    // talks in another order
    (2, "0>1:0u2,1u1 0>1:0u3 0>1:1u3 end", 0, false),
    // a way back to the first
    (2, "0>1:0u1,1u2 0>1:0u3 0>1:1u0 end", 0, true),
    // a way back into another arm
    (2, "0>1:0u1,1u2 0>1:0u3 0>1:1u1 end", 0, false),
    // one talk for two arms
    (2, "0>1:0u1,1u1 0>1:0u2 end", 0, false),
];

/// How many of the rows are right.
fn right_shapes(alloc: Global, rows: &[(u8, &str, u32, bool)]) -> Result<u32, NoMemory> {
    let mut right: u32 = 0;
    for (roles, signs, root, wanted) in rows {
        if text_shaped(&protocol(alloc, *roles, signs, *root)?) == *wanted {
            right = right.wrapping_add(1);
        }
    }
    Ok(right)
}

/// Whether `count` talks are text-shaped, each in the first arm of the one before, with a second arm to the end where
/// `braces` says so.
fn is_row_shaped(alloc: Global, count: u32, braces: bool) -> Result<bool, NoMemory> {
    let mut nodes = Vec::new(alloc);
    for n in 0..count {
        let mut arms = Arms::new(alloc);
        arms.push(arm(0, b'u', n + 1))?;
        if braces {
            arms.push(arm(0, b'u', count))?;
        }
        nodes.push(Node::Talk {
            sender: Role(0),
            receiver: Role(1),
            arms,
        })?;
    }
    nodes.push(Node::Finished)?;
    Ok(text_shaped(&Protocol {
        roles: 2,
        nodes,
        root: 0,
    }))
}

/// Whether a talk with `count` labels is text-shaped.
fn is_talk_shaped(alloc: Global, count: u16) -> Result<bool, NoMemory> {
    let mut arms = Arms::new(alloc);
    for label in 0..count {
        arms.push(Arm {
            label: Label(label),
            sort: Sort::Unit,
            next: 1,
        })?;
    }
    let mut nodes = Vec::new(alloc);
    nodes.push(Node::Talk {
        sender: Role(0),
        receiver: Role(1),
        arms,
    })?;
    nodes.push(Node::Finished)?;
    Ok(text_shaped(&Protocol {
        roles: 2,
        nodes,
        root: 0,
    }))
}

#[test]
fn tells_shapes(rt: HostRuntime) -> Result<(), Fail> {
    let alloc = rt.alloc();
    assert!(rt; right_shapes(alloc, &SHAPES)? == 21);
    assert!(rt; is_row_shaped(alloc, 1024, false)?);
    assert!(rt; !is_row_shaped(alloc, 1025, false)?);
    assert!(rt; is_row_shaped(alloc, 200, true)?);
    assert!(rt; !is_row_shaped(alloc, 201, true)?);
    assert!(rt; is_talk_shaped(alloc, 256)?);
    assert!(rt; !is_talk_shaped(alloc, 257)?);
    Ok(())
}
