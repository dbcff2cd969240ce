//! Sessions over rings, on one thread and on several, and sessions by several workers, whose actors do a stated amount of work
//! at each act: how many parcels came in order and how far the workers came; with the word `rings` how many parcels came in a
//! second, and with the word `workers` how many acts were made. With the word `opening`, `stages` or `endpoints` it plays a
//! session of no acts, by stages or by endpoints. With the word `watched1` to `watched4` it makes sends through a monitor of a
//! machine with that number of labels, and with `unwatched` it runs the same loop without a monitor. Without a word it ends
//! with status 1 if one of some further sessions doesn't go as it should.
#![tactic(auto)]

mod act_sessions;
mod channel_runs;
mod endpoint_acts;
mod monitor_acts;
mod ring_machines;
mod ring_players;
mod ring_runs;
mod ring_sessions;
mod ring_threads;
mod ring_times;
mod ring_trials;
mod stage_acts;
mod stream_types;
mod worker_actors;
mod worker_runs;
mod worker_sessions;
mod worker_times;

use act_sessions::Way;
use ring_times::Carrier;
use rs_model::NoMemory;
use std::alloc::{Alloc, Global};
use std::env::{self, Env};
use std::io;
use std::process::ExitCode;
use std::sync::Wait;
use std::thread::Threads;
use std::time::Clock;
use worker_runs::{Workload, run_of};
use worker_sessions::SESSIONS;

/// The threads and the capacities of rings that are tried.
const ROWS: [(u8, u16); 4] = [(1, 16), (2, 1), (2, 16), (2, 1024)];

/// The numbers of workers that are tried.
const WORKERS: [u8; 3] = [1, 2, 4];

/// The rounds of work at each act that are timed.
const ROUNDS: [u32; 5] = [0, 100, 300, 1000, 3000];

/// How many numbers go from A to B in the sessions whose instructions are counted.
const NUMBERS: u32 = 100_000;

/// What is asked for.
enum Asked {
    /// Whether all goes as it should.
    Trials,
    /// How fast parcels go through rings.
    RingTimes,
    /// How fast workers make acts.
    WorkerTimes,
    /// A session of that number of numbers, played in that way.
    Acts(Way, u32),
    /// The second number of sends through a monitor of a machine with the first number of labels.
    Watched(u16, u32),
    /// The loop of that number of sends, without a monitor.
    Unwatched(u32),
}

/// What the first word after the program's name asks for.
fn what_is_asked<R: Env + Alloc<A = Global>>(rt: &R) -> io::Result<Asked> {
    for (place, word) in env::args(rt)?.enumerate() {
        if place == 1 {
            if word.as_str() == "rings" {
                return Ok(Asked::RingTimes);
            }
            if word.as_str() == "workers" {
                return Ok(Asked::WorkerTimes);
            }
            if word.as_str() == "opening" {
                return Ok(Asked::Acts(Way::Stages, 0));
            }
            if word.as_str() == "stages" {
                return Ok(Asked::Acts(Way::Stages, NUMBERS));
            }
            if word.as_str() == "endpoints" {
                return Ok(Asked::Acts(Way::Endpoints, NUMBERS));
            }
            if word.as_str() == "unwatched" {
                return Ok(Asked::Unwatched(NUMBERS));
            }
            if word.as_str() == "watched1" {
                return Ok(Asked::Watched(1, NUMBERS));
            }
            if word.as_str() == "watched2" {
                return Ok(Asked::Watched(2, NUMBERS));
            }
            if word.as_str() == "watched3" {
                return Ok(Asked::Watched(3, NUMBERS));
            }
            if word.as_str() == "watched4" {
                return Ok(Asked::Watched(4, NUMBERS));
            }
        }
    }
    Ok(Asked::Trials)
}

/// Prints how many parcels came in order.
fn tell_orders<R: Threads + Wait + Sync + Print + Alloc<A = Global>>(rt: &R) -> io::Result<()> {
    for (threads, capacity) in ROWS {
        let right = told(ring_sessions::stream(rt, rt.alloc(), threads, capacity, 1000))?;
        println!(rt;
            "threads {threads}, capacity {capacity}: {right} of 1000 parcels came in order"
        )?;
    }
    let right = told(ring_sessions::rounds(rt, rt.alloc(), 3, 1000))?;
    println!(rt; "both ways, capacity 3: {right} of 2000 parcels came in order")?;
    let right = told(ring_sessions::held(rt, rt.alloc(), 10))?;
    println!(rt; "one pass held: {right} of 33 parcels came in order")
}

fn told<T>(right: Result<T, NoMemory>) -> io::Result<T> {
    match right {
        Ok(right) => Ok(right),
        Err(_refused) => Err(io::Error::from(io::ErrorKind::OutOfMemory)),
    }
}

/// Prints what the role that first made 1,000 acts has worked out.
fn tell_numbers<R: Threads + Wait + Sync + Print + Alloc<A = Global>>(rt: &R) -> io::Result<()> {
    for session in SESSIONS {
        for workers in WORKERS {
            let load = Workload {
                rounds: 10,
                limit: 1000,
                workers,
            };
            match run_of(rt, rt.alloc(), session.text.as_bytes(), load) {
                Some(end) => println!(rt;
                    "{}, workers {workers}: a role has made {} acts, and its number is {}",
                    session.name, end.first_acts, end.first_number
                )?,
                None => println!(rt; "{}, workers {workers}: no run", session.name)?,
            }
        }
    }
    Ok(())
}

/// Prints how many numbers came in order in a session that is played in that way.
fn tell_acts<R: Print + Alloc<A = Global>>(rt: &R, way: Way, count: u32) -> io::Result<()> {
    let by = match way {
        Way::Stages => "stages",
        Way::Endpoints => "endpoints",
    };
    match act_sessions::right_of(rt.alloc(), way, count) {
        Some(right) => println!(rt; "by {by}: {right} of {count} numbers came in order"),
        None => println!(rt; "by {by}: no session"),
    }
}

/// Prints how many sends the monitor let through.
fn tell_watched<R: Print + Alloc<A = Global>>(rt: &R, labels: u16, count: u32) -> io::Result<()> {
    let through = told(monitor_acts::let_through(rt.alloc(), labels, count))?;
    println!(rt; "labels {labels}: {through} of {count} sends were let through")
}

/// Prints how many parcels came in a second: by the rings of a session, by the kit's channel, and by its ring of two threads.
fn tell_ring_times<R: Threads + Wait + Sync + Clock + Print + Alloc<A = Global>>(
    rt: &R,
) -> io::Result<()> {
    for (threads, capacity) in ROWS {
        let rings = ring_times::of_stream(rt, Carrier::Rings, threads, capacity)?;
        let channel = ring_times::of_stream(rt, Carrier::Channel, threads, capacity)?;
        let kit_ring = ring_times::of_stream(rt, Carrier::KitRing, threads, capacity)?;
        println!(rt; "{threads}\t{capacity}\t{rings}\t{channel}\t{kit_ring}")?;
    }
    Ok(())
}

/// Prints how many acts were made in a second.
fn tell_worker_times<R: Threads + Wait + Sync + Clock + Print + Alloc<A = Global>>(
    rt: &R,
) -> io::Result<()> {
    for session in SESSIONS {
        for rounds in ROUNDS {
            for workers in WORKERS {
                let rate = worker_times::acts_a_second(
                    rt,
                    session.text.as_bytes(),
                    rounds,
                    workers,
                )?;
                println!(rt; "{}\t{rounds}\t{workers}\t{rate}", session.name)?;
            }
        }
    }
    Ok(())
}

/// Whether all went as it should.
fn run<R: Threads + Wait + Sync + Clock + Print + Env + Alloc<A = Global>>(
    rt: &R,
) -> io::Result<bool> {
    match what_is_asked(rt)? {
        Asked::RingTimes => {
            tell_ring_times(rt)?;
            Ok(true)
        }
        Asked::WorkerTimes => {
            tell_worker_times(rt)?;
            Ok(true)
        }
        Asked::Acts(way, count) => {
            tell_acts(rt, way, count)?;
            Ok(true)
        }
        Asked::Watched(labels, count) => {
            tell_watched(rt, labels, count)?;
            Ok(true)
        }
        Asked::Unwatched(count) => {
            println!(rt; "no monitor: the sum is {}", monitor_acts::summed(4, count))?;
            Ok(true)
        }
        Asked::Trials => {
            tell_orders(rt)?;
            tell_numbers(rt)?;
            tell_acts(rt, Way::Stages, 1000)?;
            tell_acts(rt, Way::Endpoints, 1000)?;
            tell_watched(rt, 1, 1000)?;
            tell_watched(rt, 4, 1000)?;
            told(ring_trials::are_right(rt, rt.alloc()))
        }
    }
}

fn main(rt: HostRuntime) -> ExitCode {
    match run(&rt) {
        Ok(true) => ExitCode::from(0),
        _ => ExitCode::from(1),
    }
}
