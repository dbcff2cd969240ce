//! Runs on one thread, over unbounded queues, bounded ones and rings.

use crate::documents::{BUFFERING, ENDLESS_BUFFERING, TWICE};
use crate::runs::{QueueKind, seeded, session_run};
use crate::transcripts::{Words, text_of};
use rs_core::RunFault;
use rs_model::{NoMemory, Role};
use rs_text::Text;
use std::alloc::Global;
use std::test::Fail;

/// Why a seeded run has no outcome.
fn fault_of(
    alloc: Global,
    text: &[u8],
    roles: u8,
    queues: QueueKind,
) -> Result<Option<RunFault>, NoMemory> {
    match session_run(alloc, text, seeded(alloc, roles, 0)?, queues, 1_000_000) {
        Some(Err(fault)) => Ok(Some(fault)),
        _ => Ok(None),
    }
}

fn full(sent: u64) -> RunFault {
    RunFault::Full {
        sender: Role(0),
        receiver: Role(1),
        sent,
        taken: 0,
    }
}

#[test]
fn full_queues_are_told(rt: HostRuntime) -> Result<(), Fail> {
    let alloc = rt.alloc();
    assert!(rt; fault_of(alloc, TWICE, 2, QueueKind::Rings(1))? == Some(full(1)));
    // K's first act finds its queue full, T's too, and S waits
    assert!(rt; fault_of(alloc, BUFFERING, 3, QueueKind::Bounded(0))? == Some(full(0)));
    Ok(())
}

const BUFFERING_ROLES: Words = ["K", "S", "T"];

const BUFFERING_LABELS: Words = ["ready", "copy", "stop"];

/// How a seeded run of double buffering ends, with how many actors.
fn buffered(alloc: Global, text: &[u8], queues: QueueKind, limit: u32) -> Result<Text, NoMemory> {
    match session_run(alloc, text, seeded(alloc, 3, 0)?, queues, limit) {
        Some(Ok(run)) => {
            let mut told = text_of(alloc, &run, &BUFFERING_ROLES, &BUFFERING_LABELS)?;
            told.push(b" by ")?;
            told.push_number(run.actors.len() as u64)?;
            Ok(told)
        }
        _ => Ok(Text::new(alloc)),
    }
}

#[test]
fn double_buffering_ends(rt: HostRuntime) -> Result<(), Fail> {
    let alloc = rt.alloc();
    let wanted =
        b"S!ready.S!ready.T?ready.S?copy 129 107 75.T!copy.S!ready.T?ready.S?stop.T!stop.\nK?ready.K!copy.K?ready.K!stop.K?ready.\nK!ready.K?copy 170 31.K!ready.K?stop.\n by 3".as_slice();
    assert!(rt; buffered(alloc, BUFFERING, QueueKind::Unbounded, 100)?.as_slice() == wanted);
    assert!(rt; buffered(alloc, BUFFERING, QueueKind::Bounded(1), 100)?.as_slice() == wanted);
    assert!(rt; buffered(alloc, BUFFERING, QueueKind::Bounded(2), 100)?.as_slice() == wanted);
    assert!(rt; buffered(alloc, BUFFERING, QueueKind::Bounded(16), 100)?.as_slice() == wanted);
    Ok(())
}

#[test]
fn limits_stop(rt: HostRuntime) -> Result<(), Fail> {
    let alloc = rt.alloc();
    let wanted = b"stopped 0 by 3".as_slice();
    assert!(rt; buffered(alloc, BUFFERING, QueueKind::Unbounded, 3)?.as_slice() == wanted);
    assert!(rt; buffered(alloc, ENDLESS_BUFFERING, QueueKind::Rings(16), 3)?.as_slice() == wanted);
    assert!(rt; buffered(alloc, ENDLESS_BUFFERING, QueueKind::Unbounded, 3)?.as_slice() == wanted);
    Ok(())
}
