//! Sessions from their start to their end.

ghost use Rattle.std.specs.Prelude.{◌≡◌, ◌+◌, ◌*◌, ◌<◌, ◌≤◌, ◌^◌, IfOk};
ghost use Rattle.rs_model.specs.Limits.{IsCapacity};
ghost use Rattle.rs_model.specs.declared.limits.TheConstants.{MOST_CAPACITY};

use crate::ring_machines;
use crate::ring_players::{RingPlayer, begin, gather, give_up, pair_of, player_of};
use crate::ring_runs::{hear, in_turn};
use crate::ring_threads::{relay_by_two, rounds_by_two, stream_by_two};
use rs_model::{MOST_CAPACITY, NoMemory, Role};
use std::alloc::Global;
use std::sync::Wait;
use std::thread::Threads;

/// A sends B the numbers below `count` by rings of that capacity, on one thread or two. Returns how many came in order.
#[tactic(auto, using(crate::proofs::Safe::is_stream_safe, crate::proofs::Safe::is_stream_fits))]
pub fn stream<R: Threads + Wait + Sync>(
    rt: &R,
    alloc: Global,
    threads: u8,
    capacity: u16,
    count: u64,
) -> Result<u64, NoMemory>
    requires capacity { IsCapacity capacity }
    requires bounded { count < 2 ^ 62 }
{
    let machines = ring_machines::stream(alloc)?;
    let (rings, pass) = begin(alloc, machines.as_slice(), capacity)?;
    let (a, b) = pair_of(&rings, pass);
    let mut a = a;
    let mut b = b;
    let right = if threads == 1 {
        in_turn(&rings, &mut a, &mut b, count)
    } else {
        stream_by_two(rt, &rings, &mut a, &mut b, count)
    };
    give_up(rings, a, b);
    Ok(right)
}

/// A and B send each other the numbers below `count` by rings of that capacity, each on a thread of its own: how many came
/// in order.
#[tactic(auto, using(crate::proofs::Safe::is_rounds_safe, crate::proofs::Safe::is_rounds_fit))]
pub fn rounds<R: Threads + Wait + Sync>(
    rt: &R,
    alloc: Global,
    capacity: u16,
    count: u64,
) -> Result<u64, NoMemory>
    requires capacity { IsCapacity capacity }
    requires bounded { count < 2 ^ 62 }
{
    let machines = ring_machines::rounds(alloc)?;
    let (rings, pass) = begin(alloc, machines.as_slice(), capacity)?;
    let (a, b) = pair_of(&rings, pass);
    let mut a = a;
    let mut b = b;
    let right = rounds_by_two(rt, &rings, &mut a, &mut b, count);
    give_up(rings, a, b);
    Ok(right)
}

/// B and C make one round, and B reports it to A. Then this thread holds A's pass in the middle of its session, while B and
/// C make `rounds` rounds more, each on a thread of its own. At last A takes what B reported of them. Returns how many
/// parcels came in order.
#[tactic(auto, using(crate::proofs::Safe::is_relay_safe, crate::proofs::Safe::is_relay_fits, crate::proofs::Plays::all_of_three))]
pub fn held<R: Threads + Wait + Sync>(rt: &R, alloc: Global, rounds: u64) -> Result<u64, NoMemory>
    requires bounded { rounds ≤ MOST_CAPACITY }
{
    let machines = ring_machines::relay(alloc)?;
    let (rings, pass) = begin(alloc, machines.as_slice(), MOST_CAPACITY as u16)?;
    let mut pass = pass;
    let mut b = player_of(&rings, &mut pass, Role(1), 0);
    let mut c = player_of(&rings, &mut pass, Role(2), 0);
    let mut a = RingPlayer {
        pass,
        role: Role(0),
        state: 0,
        acts: 0,
    };
    let before = relay_by_two(rt, &rings, &mut b, &mut c, 0, 1);
    let told = hear(rt, &rings, &mut a, 0, 1);
    let beside = relay_by_two(rt, &rings, &mut b, &mut c, 1, rounds);
    let after = hear(rt, &rings, &mut a, 1, rounds);
    let RingPlayer {
        pass,
        role: _,
        state: _,
        acts: _,
    } = a;
    let mut pass = pass;
    gather(&rings, &mut pass, b);
    gather(&rings, &mut pass, c);
    rings.abandon(pass);
    Ok(before + told + beside + after)
}
