//! Sources and sinks in memory, and what is read and written by them.

ghost use Rattle.std.specs.Prelude.{◌<◌, None};

use rs_io::{
    Failed, MemSink, MemSource, NeverSink, NeverSource, ReadStop, Sink, Source, WriteFault,
    read_all, write_all,
};
use rs_model::NoMemory;
use rs_text::Text;
use std::alloc::Global;
use std::test::Fail;

#[test]
fn stops_have_their_messages(rt: HostRuntime) -> Result<(), Fail> {
    let told = format!(in rt.alloc();
        "{}, {}, {}, {}",
        ReadStop::ReadFault,
        ReadStop::TooLong,
        ReadStop::NoMemory,
        WriteFault
    )?;
    assert!(rt; told.as_str() == "read fault, too long, no memory, write fault");
    Ok(())
}

/// Adds how many bytes a call gave or took.
fn tell(text: &mut Text, answer: Result<usize, Failed>) -> Result<(), NoMemory> {
    match answer {
        Ok(count) => text.push_number(count as u64),
        Err(Failed) => text.push(b"failed"),
    }
}

/// Five reads of at most three bytes, and the first two of the buffer after each: as `2 ab.`.
fn reads_told(alloc: Global, source: MemSource) -> Result<Text, NoMemory> {
    let mut source = source;
    let mut into = [0u8; 3];
    let mut text = Text::new(alloc);
    for _ in 0..5 {
        tell(&mut text, source.read(&mut into))?;
        text.push(b" ")?;
        text.push(&into[..2])?;
        text.push(b".")?;
    }
    Ok(text)
}

#[test]
fn memory_gives_pieces(rt: HostRuntime) -> Result<(), Fail> {
    let alloc = rt.alloc();
    let source = MemSource::new(b"abcde".to_vec(alloc)?, 2, [2].to_vec(alloc)?);
    let told = reads_told(alloc, source)?;
    assert!(rt; told.as_slice() == b"2 ab.failed ab.2 cd.1 ed.0 ed.".as_slice());
    Ok(())
}

/// A write of each of these, and what the sink has then: as `2.1. ab`.
fn writes_told(alloc: Global, sink: MemSink, pieces: &[&str]) -> Result<Text, NoMemory> {
    let mut sink = sink;
    let mut text = Text::new(alloc);
    for piece in pieces {
        tell(&mut text, sink.write(piece.as_bytes()))?;
        text.push(b".")?;
    }
    text.push(b" ")?;
    text.push(sink.bytes())?;
    Ok(text)
}

#[test]
fn memory_takes_pieces(rt: HostRuntime) -> Result<(), Fail> {
    let alloc = rt.alloc();
    let sink = MemSink::new(alloc, 5, 2, [2].to_vec(alloc)?)?;
    let told = writes_told(alloc, sink, &["abc", "cde", "c", "", "def", "f", ""])?;
    assert!(rt; told.as_slice() == b"2.failed.1.0.2.failed.0. abcde".as_slice());
    Ok(())
}

/// What reading `abc` up to the limit gives, or why it stops, if one call fails.
fn tell_all(text: &mut Text, alloc: Global, limit: usize, failing: u32) -> Result<(), NoMemory>
    requires { limit < 100 }
{
    let mut source = MemSource::new(b"abc".to_vec(alloc)?, 2, [failing].to_vec(alloc)?);
    match read_all(alloc, &mut source, limit) {
        Ok(all) => text.push(all.as_slice()),
        Err(ReadStop::ReadFault) => text.push(b"read fault"),
        Err(ReadStop::TooLong) => text.push(b"too long"),
        Err(ReadStop::NoMemory) => text.push(b"no memory"),
    }?;
    text.push(b".")
}

#[test]
fn all_is_read_up_to_the_limit(rt: HostRuntime) -> Result<(), Fail> {
    let alloc = rt.alloc();
    let mut told = Text::new(alloc);
    tell_all(&mut told, alloc, 4, 9)?;
    tell_all(&mut told, alloc, 3, 9)?;
    tell_all(&mut told, alloc, 2, 9)?;
    tell_all(&mut told, alloc, 0, 9)?;
    tell_all(&mut told, alloc, 3, 2)?;
    tell_all(&mut told, alloc, 3, 3)?;
    assert!(rt; told.as_slice() == b"abc.abc.too long.too long.read fault.read fault.".as_slice());
    let mut never = NeverSource::new(b"abc".to_vec(alloc)?);
    assert!(rt; read_all(alloc, &mut never, 3)?.as_slice() == b"abc".as_slice());
    Ok(())
}

/// Gives at most a piece per call, and notes the calls and the greatest place that was asked for.
#[derive(Drop)]
struct Watched {
    piece: usize,
    bytes: usize,
    given: usize,
    calls: u32,
    reach: usize,
}

impl Source for Watched {
    ghost left = { λ _. None };

    ghost faults = { λ _. 0 };

    ghost last = { λ _. ⊥ };

    fn read(&mut self, into: &mut [u8]) -> Result<usize, Failed> {
        let count = self.bytes.min(into.len().min(self.piece));
        self.calls = self.calls.saturating_add(1);
        self.reach = self.reach.max(self.given.saturating_add(into.len()));
        self.bytes -= count;
        self.given = self.given.saturating_add(count);
        Ok(count)
    }
}

/// Whether that number of bytes is read by pieces up to the limit, how many were given, in how many calls, and up to which place.
fn tell_watched(
    text: &mut Text,
    alloc: Global,
    piece: usize,
    bytes: usize,
    limit: usize,
) -> Result<(), NoMemory>
    requires { limit < 1_000_000 }
{
    let mut source = Watched {
        piece,
        bytes,
        given: 0,
        calls: 0,
        reach: 0,
    };
    text.push(match read_all(alloc, &mut source, limit) {
        Ok(_) => b"read ".as_slice(),
        Err(_) => b"stopped ".as_slice(),
    })?;
    text.push_number(source.given as u64)?;
    text.push(b" ")?;
    text.push_number(u64::from(source.calls))?;
    text.push(b" ")?;
    text.push_number(source.reach as u64)?;
    text.push(b".")
}

#[test]
fn no_turn_is_idle_or_asks_past_the_limit(rt: HostRuntime) -> Result<(), Fail> {
    let alloc = rt.alloc();
    let mut told = Text::new(alloc);
    tell_watched(&mut told, alloc, 3, 0, 10)?;
    tell_watched(&mut told, alloc, 3, 9, 10)?;
    tell_watched(&mut told, alloc, 3, 10, 10)?;
    tell_watched(&mut told, alloc, 3, 11, 10)?;
    tell_watched(&mut told, alloc, 3, 50, 10)?;
    let wanted = b"read 0 1 11.read 9 4 11.read 10 5 11.stopped 11 4 11.stopped 11 4 11.";
    assert!(rt; told.as_slice() == wanted.as_slice());

    // turns that give all lead to wider ones
    let mut told = Text::new(alloc);
    tell_watched(&mut told, alloc, 10_000, 10_000, 100_000)?;
    tell_watched(&mut told, alloc, 2_000, 10_000, 100_000)?;
    assert!(rt; told.as_slice() == b"read 10000 5 18192.read 10000 7 12048.".as_slice());
    Ok(())
}

/// What is taken of a text by pieces of ten bytes, if one call fails, and whether all of it was.
fn tell_written(text: &mut Text, alloc: Global, failing: u32) -> Result<(), NoMemory> {
    let mut sink = MemSink::new(alloc, 100, 10, [failing].to_vec(alloc)?)?;
    text.push(match write_all(&mut sink, b"accepted\nK 2") {
        Ok(()) => b"whole ".as_slice(),
        Err(WriteFault) => b"front ".as_slice(),
    })?;
    text.push(sink.bytes())?;
    text.push(b".")
}

#[test]
fn a_fault_leaves_the_front_written(rt: HostRuntime) -> Result<(), Fail> {
    let alloc = rt.alloc();
    let mut told = Text::new(alloc);
    tell_written(&mut told, alloc, 1)?;
    tell_written(&mut told, alloc, 2)?;
    tell_written(&mut told, alloc, 3)?;
    assert!(rt; told.as_slice() == b"front .front accepted\nK.whole accepted\nK 2.".as_slice());
    assert!(rt; write_all(&mut NeverSink::new(), b"accepted\nK 2").is_ok());
    Ok(())
}
