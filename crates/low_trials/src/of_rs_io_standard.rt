//! Readers and writers of std as sources and sinks.

use rs_io::{Failed, ReadStop, Sink, Source, StdSink, StdSource, read_all, write_all};
use std::io;
use std::io::{ErrorKind, Read, Write};
use std::test::Fail;

/// A reader and writer whose first `calls` calls are interrupted, and the later ones are fine.
#[derive(Drop)]
struct Interrupted {
    calls: u32,
}

impl Interrupted {
    fn call(&mut self) -> io::Result<()> {
        if self.calls > 0 {
            self.calls -= 1;
            return Err(io::Error::from(ErrorKind::Interrupted));
        }
        Ok(())
    }
}

impl Read for Interrupted {
    fn read(&mut self, _into: &mut [u8]) -> io::Result<usize> {
        self.call()?;
        Ok(0)
    }
}

impl Write for Interrupted {
    fn write(&mut self, bytes: &[u8]) -> io::Result<usize> {
        self.call()?;
        Ok(bytes.len())
    }

    fn flush(&mut self) -> io::Result<()> {
        self.call()
    }
}

#[test]
fn a_call_that_failed_is_not_tried_again(rt: HostRuntime) -> Result<(), Fail> {
    let mut source = StdSource::new(Interrupted { calls: 1 });
    let mut into = [0u8; 2];
    assert!(rt; matches!(source.read(&mut into), Err(Failed)));
    assert!(rt; matches!(source.read(&mut into), Ok(0)));

    let mut sink = StdSink::new(Interrupted { calls: 1 });
    assert!(rt; matches!(sink.write(b"abc"), Err(Failed)));
    assert!(rt; matches!(sink.write(b"abc"), Ok(3)));

    let mut sink = StdSink::new(Interrupted { calls: 1 });
    assert!(rt; sink.flush().is_err());
    assert!(rt; sink.flush().is_ok());
    Ok(())
}

#[test]
fn a_reader_of_std_is_a_source(rt: HostRuntime) -> Result<(), Fail> {
    let alloc = rt.alloc();
    let mut source = StdSource::new(b"abc".as_slice());
    let mut into = [0u8; 2];
    assert!(rt; matches!(source.read(&mut into), Ok(2)));
    assert!(rt; into == *b"ab");
    assert!(rt; read_all(alloc, &mut source, 1)?.as_slice() == b"c".as_slice());
    let stopped = read_all(alloc, &mut StdSource::new(Interrupted { calls: 9 }), 1);
    assert!(rt; matches!(stopped, Err(ReadStop::ReadFault)));
    Ok(())
}

#[test]
fn a_writer_of_std_is_a_sink(rt: HostRuntime) -> Result<(), Fail> {
    let mut kept = Vec::new(rt.alloc());
    let mut sink = StdSink::new(&mut kept);
    assert!(rt; write_all(&mut sink, b"abc").is_ok());
    assert!(rt; sink.flush().is_ok());
    assert!(rt; kept.as_slice() == b"abc".as_slice());

    // A slice takes what it has room for, and then 0 bytes.
    let mut room = [0u8; 2];
    assert!(rt; write_all(&mut StdSink::new(room.as_mut_slice()), b"abc").is_err());
    assert!(rt; room == *b"ab");

    let mut broken = StdSink::new(Interrupted { calls: 9 });
    assert!(rt; broken.write(b"abc").is_err());
    assert!(rt; broken.flush().is_err());
    Ok(())
}
