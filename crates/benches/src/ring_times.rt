//! How fast parcels go.

ghost use Rattle.std.specs.Prelude.{◌≡◌, ◌<◌};
ghost use Rattle.rs_model.specs.Limits.{IsCapacity};

use crate::channel_runs::{stream_by_channel, stream_by_ring};
use crate::ring_sessions;
use rs_model::NoMemory;
use std::alloc::{Alloc, Global};
use std::io;
use std::sync::Wait;
use std::thread::Threads;
use std::time::{Clock, Instant};

/// How many parcels each measured session moves.
const COUNT: u64 = 1_000_000;

/// What carries the parcels.
#[derive(Clone, Copy)]
pub enum Carrier {
    /// The rings of a session.
    Rings,
    /// The kit's channel.
    Channel,
    /// The kit's ring from one thread to one other.
    KitRing,
}

/// So many parcels from A to B: how many came in order.
fn stream<R: Threads + Wait + Sync + Alloc<A = Global>>(
    rt: &R,
    carrier: Carrier,
    threads: u8,
    capacity: u16,
) -> Result<u64, NoMemory>
    requires { IsCapacity capacity }
{
    match carrier {
        Carrier::Rings => ring_sessions::stream(rt, rt.alloc(), threads, capacity, COUNT),
        Carrier::Channel => stream_by_channel(rt, rt.alloc(), threads, capacity, COUNT),
        Carrier::KitRing => stream_by_ring(rt, rt.alloc(), threads, capacity, COUNT),
    }
}

/// How many parcels go from A to B in a second, on that number of threads: the best of five streams.
pub fn of_stream<R: Threads + Wait + Sync + Clock + Alloc<A = Global>>(
    rt: &R,
    carrier: Carrier,
    threads: u8,
    capacity: u16,
) -> io::Result<u128>
    requires { IsCapacity capacity }
{
    let mut best = 0;
    for _ in 0..5 {
        let begun = Instant::now(rt)?;
        let Ok(_right) = stream(rt, carrier, threads, capacity) else {
            return Err(io::Error::from(io::ErrorKind::OutOfMemory));
        };
        let nanos = begun.elapsed(rt)?.as_nanos();
        let rate = COUNT as u128 * 1_000_000_000 / nanos.max(1);
        if rate > best {
            best = rate;
        }
    }
    Ok(best)
}
