//! The documents of pipelines.

use rs_io::{MemSink, MemSource};
use rs_tool::{command_serial, pipeline_of, pipeline_text};
use std::test::Fail;

const NONE_AHEAD: &str = "roles R0, R1\nprotocol rec X0. R0->R1:v(nat). R1->R0:ack(). X0\n";

const ONE_AHEAD: &str =
    "roles R0, R1, R2\nprotocol rec X0. R0->R1:v(nat). R1->R2:v(nat). R2->R0:ack(). R0->R1:v(nat). R1->R2:v(nat). R2->R0:ack(). X0\nmachine R0: R1!v(nat). rec X1. R1!v(nat). R2?ack(). X1\n";

#[test]
fn small_pipelines(rt: HostRuntime) -> Result<(), Fail> {
    let alloc = rt.alloc();
    let none_ahead = pipeline_text(alloc, pipeline_of(0))?;
    assert!(rt; none_ahead.as_slice() == NONE_AHEAD.as_bytes());
    let one_ahead = pipeline_text(alloc, pipeline_of(1))?;
    assert!(rt; one_ahead.as_slice() == ONE_AHEAD.as_bytes());
    Ok(())
}

/// The document of each pipeline that there is, 14 times 5 times 61 of them, is canonical text: it is shown as itself.
#[test]
fn documents_are_shown_as_themselves(rt: HostRuntime) -> Result<(), Fail> {
    let alloc = rt.alloc();
    let mut show = Vec::new(alloc);
    show.push(String::from_str(alloc, "show")?)?;
    for number in 0..4_270 {
        let text = pipeline_text(alloc, pipeline_of(number))?;
        let mut source = MemSource::new(text.as_slice().to_vec(alloc)?, 65_536, Vec::new(alloc));
        let mut sink = MemSink::new(alloc, 65_536, 65_536, Vec::new(alloc))?;
        command_serial(alloc, show.as_slice(), &mut source, &mut sink);
        assert!(rt; sink.bytes() == text.as_slice());
    }
    Ok(())
}
