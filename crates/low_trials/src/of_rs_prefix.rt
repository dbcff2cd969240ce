//! The earliest of pending acts.

use rs_model::{Act, Label, NoMemory, Role, Sort};
use rs_prefix::{ActKind, Found, Pending};
use std::alloc::Global;
use std::test::Fail;

/// Acts by two signs each: `!` or `?` and the peer. Each has its place as its label.
fn pending(alloc: Global, signs: &str) -> Result<Pending, NoMemory> {
    let mut acts = Pending::new(alloc);
    for (place, item) in signs.as_bytes().chunks(3).enumerate() {
        let label = Label((place % 16) as u16);
        let sort = Sort::Unit;
        match item {
            [b'!', peer, ..] => {
                let peer = Role(*peer & 15);
                acts.push(Act::Puts { peer, label, sort })?
            }
            [b'?', peer, ..] => {
                let peer = Role(*peer & 15);
                acts.push(Act::Takes { peer, label, sort })?
            }
            _ => {}
        }
    }
    Ok(acts)
}

fn earliest(alloc: Global, signs: &str, kind: ActKind) -> Result<Found, NoMemory> {
    Ok(pending(alloc, signs)?.find(kind, Role(1)))
}

#[test]
fn the_earliest_act(rt: HostRuntime) -> Result<(), Fail> {
    let alloc = rt.alloc();
    assert!(rt; earliest(alloc, "", ActKind::Send)? == Found::Absent);
    assert!(rt; earliest(alloc, "", ActKind::Receive)? == Found::Absent);
    // a send passes receives, and sends to others
    assert!(rt; earliest(alloc, "?1 !2 !1 !1", ActKind::Send)? == Found::At(2));
    assert!(rt; earliest(alloc, "?1 !2", ActKind::Send)? == Found::Absent);
    // a receive passes receives from others, and no send
    assert!(rt; earliest(alloc, "?2 ?1 !1 ?1", ActKind::Receive)? == Found::At(1));
    assert!(rt; earliest(alloc, "?2 ?3", ActKind::Receive)? == Found::Absent);
    assert!(rt; earliest(alloc, "!2 ?1", ActKind::Receive)? == Found::Blocked(0));
    assert!(rt; earliest(alloc, "?2 !1 !3", ActKind::Receive)? == Found::Blocked(1));
    Ok(())
}

#[test]
fn acts_are_taken(rt: HostRuntime) -> Result<(), Fail> {
    let mut acts = pending(rt.alloc(), "!1 ?2 !3")?;
    assert!(rt; acts.as_slice().len() == 3);
    let taken = acts.take(1);
    let wanted = Act::Takes {
        peer: Role(2),
        label: Label(1),
        sort: Sort::Unit,
    };
    assert!(rt; taken == wanted);
    assert!(rt; acts.find(ActKind::Send, Role(3)) == Found::At(1));
    Ok(())
}
