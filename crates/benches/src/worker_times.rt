//! How fast acts go.

ghost use Rattle.std.specs.Prelude.{◌≤◌};
ghost use Rattle.rs_model.specs.declared.limits.TheConstants.{MOST_WORKERS};

use crate::worker_runs::{Workload, run_of};
use std::alloc::{Alloc, Global};
use std::io;
use std::sync::Wait;
use std::thread::Threads;
use std::time::{Clock, Instant};

/// How many acts a role may make in each measured run.
const LIMIT: u32 = 200_000;

/// How many acts all roles of the text's session make in a second, with that number of rounds of work at each: the best of three runs.
pub fn acts_a_second<R: Threads + Wait + Sync + Clock + Alloc<A = Global>>(
    rt: &R,
    text: &[u8],
    rounds: u32,
    workers: u8,
) -> io::Result<u128>
    requires { (1 ≤ workers) × (workers ≤ MOST_WORKERS) }
{
    let load = Workload {
        rounds,
        limit: LIMIT,
        workers,
    };
    let mut best = 0;
    for _ in 0..3 {
        let begun = Instant::now(rt)?;
        let Some(end) = run_of(rt, rt.alloc(), text, load) else {
            return Err(io::Error::from(io::ErrorKind::Other));
        };
        let nanos = begun.elapsed(rt)?.as_nanos();
        let rate = u128::from(end.all_acts) * 1_000_000_000 / nanos.max(1);
        if rate > best {
            best = rate;
        }
    }
    Ok(best)
}
