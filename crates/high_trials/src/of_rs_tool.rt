//! `command` over sources and sinks in memory, with one worker and with several.

use rs_io::{MemSink, MemSource, NeverSink, NeverSource};
use rs_pool::{Gate, NoGate};
use rs_tool::{Status, check_never, command};
use session_trials::documents::{BUFFERING, ENDLESS_BUFFERING, TWICE, WAITS};
use session_trials::gates::Meeting;
use std::alloc::Global;
use std::sync::Wait;
use std::test::Fail;
use std::thread::Threads;

/// What `command` answers: the status, what was written, and whether a session was handed out.
#[derive(Drop)]
struct Told {
    status: Status,
    written: Vec<u8>,
    closed: bool,
}

/// The words, with a blank between each two; none if there is no byte.
fn strings(alloc: Global, words: &str) -> Result<Vec<String>, Fail> {
    let mut strings = Vec::new(alloc);
    if !words.is_empty() {
        for word in words.split(' ') {
            strings.push(String::from_str(alloc, word)?)?;
        }
    }
    Ok(strings)
}

fn answer<R: Threads + Wait + Sync, G: Gate + Sync>(
    rt: &R,
    alloc: Global,
    words: &str,
    source: MemSource,
    sink: MemSink,
    gate: &G,
) -> Result<Told, Fail> {
    let strings = strings(alloc, words)?;
    let mut source = source;
    let mut sink = sink;
    let reply = command(rt, alloc, strings.as_slice(), &mut source, &mut sink, gate);
    Ok(Told {
        status: reply.status,
        written: sink.bytes().to_vec(alloc)?,
        closed: reply.closed.is_some(),
    })
}

/// The same, on this input, with a sink that takes all.
fn answer_to<R: Threads + Wait + Sync, G: Gate + Sync>(
    rt: &R,
    alloc: Global,
    words: &str,
    input: &[u8],
    gate: &G,
) -> Result<Told, Fail> {
    let source = MemSource::new(input.to_vec(alloc)?, 65_536, Vec::new(alloc));
    let sink = MemSink::new(alloc, 65_536, 65_536, Vec::new(alloc))?;
    answer(rt, alloc, words, source, sink, gate)
}

/// Words, their input, and what is answered.
type Row = (&'static str, &'static [u8], Status, &'static str, bool);

const BUFFERED: &str =
    "ended\nK: S!ready S!ready T?ready S?copy(816b4b) T!copy S!ready T?ready S?stop T!stop\nS: K?ready K!copy K?ready K!stop K?ready\nT: K!ready K?copy(aa1f) K!ready K?stop\n";

const TO_EIGHT: &[u8] = b"1 2 3 4 5 6 7 8";

const TRANSFORMED: &str = "36 -4 -8 0 -16 0 0 0\n";

const BY_WORKERS: [Row; 18] = [
    ("run --workers 2", BUFFERING, Status::Fine, BUFFERED, true),
    ("run --workers 4", BUFFERING, Status::Fine, BUFFERED, true),
    ("run --workers 8", BUFFERING, Status::Fine, BUFFERED, true),
    (
        "run --workers=16 --ring=16",
        BUFFERING,
        Status::Fine,
        BUFFERED,
        true,
    ),
    (
        "run --workers 2 --ring 15",
        BUFFERING,
        Status::RoomTooSmall,
        "room too small: ring 15 room 16\n",
        false,
    ),
    (
        "run --ring 1 --workers 2",
        TWICE,
        Status::RoomTooSmall,
        "room too small: ring 1 room 11\n",
        false,
    ),
    (
        "run --ring 11 --workers 2",
        TWICE,
        Status::Fine,
        "ended\nA: B!x B!x B?y B?y\nB: A!y A!y A?x A?x\n",
        true,
    ),
    (
        "run --workers 2",
        WAITS,
        Status::Refused,
        "refused\nA: not found, cut no\n",
        false,
    ),
    (
        "run --workers 2",
        b"roles A, B\nprotocol X\n",
        Status::Malformed,
        "malformed 2:10 unbound name\n",
        false,
    ),
    (
        "demo butterfly --workers 2",
        TO_EIGHT,
        Status::Fine,
        TRANSFORMED,
        true,
    ),
    (
        "demo butterfly --workers 4",
        TO_EIGHT,
        Status::Fine,
        TRANSFORMED,
        true,
    ),
    (
        "demo butterfly --workers 16",
        TO_EIGHT,
        Status::Fine,
        TRANSFORMED,
        true,
    ),
    (
        "demo butterfly --workers 8",
        TO_EIGHT,
        Status::Fine,
        TRANSFORMED,
        true,
    ),
    (
        "demo butterfly --ring 3 --workers 2",
        b"1 2",
        Status::RoomTooSmall,
        "room too small: ring 3 room 4\n",
        false,
    ),
    (
        "demo ring --workers 3",
        b"1 2 3",
        Status::Fine,
        "6 6 6\n",
        true,
    ),
    (
        "demo ring --workers 3",
        b"5",
        Status::Malformed,
        "malformed numbers\n",
        false,
    ),
    (
        "demo stream --workers 2",
        b"a stream",
        Status::Fine,
        "a stream",
        true,
    ),
    (
        "run --workers 17",
        BUFFERING,
        Status::Usage,
        "usage\n",
        false,
    ),
];

/// How many of the rows are right.
fn right_rows<R: Threads + Wait + Sync>(rt: &R, alloc: Global, rows: &[Row]) -> Result<u32, Fail> {
    let mut right: u32 = 0;
    for (words, input, status, written, closed) in rows {
        let told = answer_to(rt, alloc, words, input, &NoGate)?;
        if told.status == *status
            && told.written.as_slice() == written.as_bytes()
            && told.closed == *closed
        {
            right = right.wrapping_add(1);
        }
    }
    Ok(right)
}

#[test]
fn workers_answer_as_one_does(rt: HostRuntime) -> Result<(), Fail> {
    assert!(rt; right_rows(&rt, rt.alloc(), &BY_WORKERS)? == 18);
    Ok(())
}

#[test]
fn some_role_is_stopped(rt: HostRuntime) -> Result<(), Fail> {
    let words = "run --limit 3 --workers 2";
    let told = answer_to(&rt, rt.alloc(), words, ENDLESS_BUFFERING, &NoGate)?;
    assert!(rt; told.status == Status::Stopped);
    let written = told.written.as_slice();
    assert!(rt; written == b"stopped K\n".as_slice() || written == b"stopped S\n".as_slice());
    assert!(rt; told.closed);
    Ok(())
}

#[test]
fn two_workers_meet(rt: HostRuntime) -> Result<(), Fail> {
    let gate = Meeting::new();
    let told = answer_to(
        &rt,
        rt.alloc(),
        "demo butterfly --workers 2",
        TO_EIGHT,
        &gate,
    )?;
    assert!(rt; told.status == Status::Fine);
    assert!(rt; told.written.as_slice() == TRANSFORMED.as_bytes());
    assert!(rt; gate.was_held());
    Ok(())
}

/// Words for which nothing is read, and what is answered.
const UNREAD: [(&str, Status, &str); 17] = [
    ("", Status::Usage, "usage\n"),
    ("check x", Status::Usage, "usage\n"),
    ("show x", Status::Usage, "usage\n"),
    ("check --bound 0", Status::Usage, "usage\n"),
    ("check --bound 65", Status::Usage, "usage\n"),
    ("check --bound 016", Status::Usage, "usage\n"),
    ("check --bound 8 --bound 8", Status::Usage, "usage\n"),
    ("demo", Status::Usage, "usage\n"),
    ("demo square", Status::Usage, "usage\n"),
    ("gen -1", Status::Usage, "usage\n"),
    ("frob", Status::Usage, "usage\n"),
    ("Check", Status::Usage, "usage\n"),
    ("run --workers 2 --bound 65", Status::Usage, "usage\n"),
    (
        "gen 0",
        Status::Fine,
        "roles 2 ahead 0 rounds 1\naccepted\nR0: nodes 3 pending 1 rank 0\nR1: nodes 3 pending 1 rank 0\nroom 3\n",
    ),
    (
        "gen 3",
        Status::Fine,
        "roles 5 ahead 3 rounds 4\naccepted\nR0: nodes 17 pending 3 rank 5\nR1: nodes 12 pending 1 rank 0\nR2: nodes 12 pending 1 rank 0\nR3: nodes 12 pending 1 rank 0\nR4: nodes 12 pending 1 rank 0\nroom 22\n",
    ),
    (
        "gen 4294967295",
        Status::Fine,
        "roles 5 ahead 0 rounds 57\naccepted\nR0: nodes 171 pending 1 rank 0\nR1: nodes 171 pending 1 rank 0\nR2: nodes 171 pending 1 rank 0\nR3: nodes 171 pending 1 rank 0\nR4: nodes 171 pending 1 rank 0\nroom 3\n",
    ),
    (
        "gen 4269",
        Status::Fine,
        "roles 15 ahead 4 rounds 61\naccepted\nR0: nodes 190 pending 4 rank 7\nR1: nodes 183 pending 1 rank 0\nR2: nodes 183 pending 1 rank 0\nR3: nodes 183 pending 1 rank 0\nR4: nodes 183 pending 1 rank 0\nR5: nodes 183 pending 1 rank 0\nR6: nodes 183 pending 1 rank 0\nR7: nodes 183 pending 1 rank 0\nR8: nodes 183 pending 1 rank 0\nR9: nodes 183 pending 1 rank 0\nR10: nodes 183 pending 1 rank 0\nR11: nodes 183 pending 1 rank 0\nR12: nodes 183 pending 1 rank 0\nR13: nodes 183 pending 1 rank 0\nR14: nodes 183 pending 1 rank 0\nroom 37\n",
    ),
];

/// How many of the rows are right, with a source that fails when it is read.
fn right_unread<R: Threads + Wait + Sync>(
    rt: &R,
    alloc: Global,
    rows: &[(&str, Status, &str)],
) -> Result<u32, Fail> {
    let mut right: u32 = 0;
    for (words, status, written) in rows {
        let source = MemSource::new(Vec::new(alloc), 65_536, [1].to_vec(alloc)?);
        let sink = MemSink::new(alloc, 65_536, 65_536, Vec::new(alloc))?;
        let told = answer(rt, alloc, words, source, sink, &NoGate)?;
        if told.status == *status && told.written.as_slice() == written.as_bytes() {
            right = right.wrapping_add(1);
        }
    }
    Ok(right)
}

#[test]
fn words_that_read_nothing_have_their_answers(rt: HostRuntime) -> Result<(), Fail> {
    assert!(rt; right_unread(&rt, rt.alloc(), &UNREAD)? == 17);
    Ok(())
}

/// A's machine receives as its projection does.
const SESSION: &[u8] =
    b"roles A, B\nprotocol A->B:x(). B->A:y(). end\nmachine A: B!x(). B?y(). end\n";

#[test]
fn reads_and_writes_that_fail_are_told(rt: HostRuntime) -> Result<(), Fail> {
    let alloc = rt.alloc();
    let source = MemSource::new(SESSION.to_vec(alloc)?, 65_536, [2].to_vec(alloc)?);
    let sink = MemSink::new(alloc, 4_096, 4_096, Vec::new(alloc))?;
    let told = answer(&rt, alloc, "check", source, sink, &NoGate)?;
    assert!(rt; told.status == Status::ReadFault);
    assert!(rt; told.written.is_empty());

    let source = MemSource::new(SESSION.to_vec(alloc)?, 65_536, Vec::new(alloc));
    let sink = MemSink::new(alloc, 4_096, 4, [3].to_vec(alloc)?)?;
    let told = answer(&rt, alloc, "check", source, sink, &NoGate)?;
    assert!(rt; told.status == Status::WriteFault);
    assert!(rt; told.written.as_slice() == b"accepted".as_slice());
    Ok(())
}

/// The report of double buffering.
const BUFFERING_REPORT: &[u8] =
    b"accepted\nK: nodes 13 pending 3 rank 3\nS: nodes 6 pending 1 rank 0\nT: nodes 5 pending 1 rank 0\nroom 16\n";

/// What `check` answers to double buffering, which is read by seven bytes, if this read fails.
fn answer_by_sevens<R: Threads + Wait + Sync>(
    rt: &R,
    alloc: Global,
    failing: u32,
) -> Result<Told, Fail> {
    let source = MemSource::new(BUFFERING.to_vec(alloc)?, 7, [failing].to_vec(alloc)?);
    let sink = MemSink::new(alloc, 4_096, 4_096, Vec::new(alloc))?;
    answer(rt, alloc, "check", source, sink, &NoGate)
}

/// What `check` answers to it, if the report is written by three bytes, and this write fails.
fn answer_by_threes<R: Threads + Wait + Sync>(
    rt: &R,
    alloc: Global,
    failing: u32,
) -> Result<Told, Fail> {
    let source = MemSource::new(BUFFERING.to_vec(alloc)?, 65_536, Vec::new(alloc));
    let sink = MemSink::new(alloc, 4_096, 3, [failing].to_vec(alloc)?)?;
    answer(rt, alloc, "check", source, sink, &NoGate)
}

#[test]
fn each_read_that_fails_is_told(rt: HostRuntime) -> Result<(), Fail> {
    // 35 reads give 245 bytes, and the next one finds the end
    for failing in 1..37 {
        let told = answer_by_sevens(&rt, rt.alloc(), failing)?;
        assert!(rt; told.status == Status::ReadFault);
        assert!(rt; told.written.is_empty());
    }
    let told = answer_by_sevens(&rt, rt.alloc(), 37)?;
    assert!(rt; told.status == Status::Fine);
    assert!(rt; told.written.as_slice() == BUFFERING_REPORT);
    Ok(())
}

#[test]
fn each_write_that_fails_is_told(rt: HostRuntime) -> Result<(), Fail> {
    let mut failing: u32 = 1;
    let mut front = Vec::new(rt.alloc());
    for piece in BUFFERING_REPORT.chunks(3) {
        let told = answer_by_threes(&rt, rt.alloc(), failing)?;
        assert!(rt; told.status == Status::WriteFault);
        assert!(rt; told.written.as_slice() == front.as_slice());
        front.extend_from_slice(piece)?;
        failing = failing.wrapping_add(1);
    }
    assert!(rt; failing == 35);
    let told = answer_by_threes(&rt, rt.alloc(), failing)?;
    assert!(rt; told.status == Status::Fine);
    assert!(rt; told.written.as_slice() == BUFFERING_REPORT);
    Ok(())
}

/// The status of a `check` of this text, over a source and a sink that never fail.
fn status_of(alloc: Global, text: &[u8]) -> Result<Status, Fail> {
    let mut words = Vec::new(alloc);
    words.push(String::from_str(alloc, "check")?)?;
    let mut source = NeverSource::new(text.to_vec(alloc)?);
    let status = check_never(alloc, words.as_slice(), &mut source, &mut NeverSink::new());
    Ok(status)
}

#[test]
fn a_check_without_faults_has_its_status(rt: HostRuntime) -> Result<(), Fail> {
    assert!(rt; status_of(rt.alloc(), BUFFERING)? == Status::Fine);
    assert!(rt; status_of(rt.alloc(), WAITS)? == Status::Refused);
    assert!(rt; status_of(rt.alloc(), b"roles A")? == Status::Malformed);
    Ok(())
}
