//! All bytes into a sink.

ghost use Rattle.std.specs.Prelude.{OnOk, OnErr};
ghost use Rattle.std.specs.Io.KnownBytes.{Appends};
ghost use Rattle.rs_io.specs.Faults.{Rose, NeverFalls};
ghost use Rattle.rs_io.specs.Prefix.{AppendsPrefix};

use crate::Sink;
use thiserror::Error;

/// The sink failed.
#[derive(Debug, Drop, Error)]
#[error("write fault")]
pub struct WriteFault;

/// Writes all bytes.
/// `WriteFault`: the sink failed in this call; it took some of the first bytes.
pub fn write_all<K: Sink>(sink: &mut K, bytes: &[u8]) -> Result<(), WriteFault>
    ensures ok { OnOk result (Appends (K.written sink.old) (K.written sink.new) bytes.now) }
    ensures err { OnErr result (AppendsPrefix (K.written sink.old) (K.written sink.new) bytes.now) }
    ensures count { NeverFalls (K.faults sink.old) (K.faults sink.new) (K.last sink.old) (K.last sink.new) }
    ensures cause { OnErr result (Rose (K.faults sink.old) (K.faults sink.new) (K.last sink.new)) }
{
    let mut done = 0;
    while done < bytes.len() {
        let (_, rest) = bytes.split_at(done);
        match sink.write(rest) {
            Ok(count) => done += count,
            Err(_) => return Err(WriteFault),
        }
    }
    Ok(())
}
