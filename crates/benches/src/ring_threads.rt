//! Sessions on several threads, which share the rings.

ghost use Rattle.std.specs.Prelude.{◌≡◌, ◌+◌, ◌*◌, ◌<◌, ◌≤◌, ◌^◌};
ghost use Rattle.benches.specs.Players.{IsAt};
ghost use Rattle.benches.specs.Sessions.{machines_of_relay, machines_of_rounds, machines_of_stream};

use crate::ring_players::RingPlayer;
use crate::ring_runs::{answer, ask, drain, feed, talk};
use rs_model::Role;
use rs_rings::Rings;
use std::sync::Wait;
use std::thread::{Threads, join_mut};

/// One thread sends the numbers below `count`, and another takes them: how many came in order.
pub fn stream_by_two<R: Threads + Wait + Sync>(
    rt: &R,
    rings: &Rings,
    a: &mut RingPlayer,
    b: &mut RingPlayer,
    count: u64,
) -> u64
    requires machines { rings.now.machines ≡ machines_of_stream }
    requires at { IsAt rings.now a.old × IsAt rings.now b.old }
    requires start { (a.old.role.0 ≡ 0) × (a.old.state ≡ 0) × (a.old.acts ≡ 0) × (b.old.role.0 ≡ 1) × (b.old.state ≡ 0) × (b.old.acts ≡ 0) }
    requires bounded { count < 2 ^ 62 }
    ensures at { IsAt rings.now a.new × IsAt rings.now b.new }
    ensures roles { (a.new.role ≡ a.old.role) × (b.new.role ≡ b.old.role) }
    ensures bounded { result ≤ count }
{
    let (_, right) = join_mut(
        rt,
        &mut || feed(rt, rings, a, count),
        &mut || drain(rt, rings, b, count),
    );
    right
}

/// Two threads send each other the numbers below `count`, each one before it takes the other's: how many came in order.
pub fn rounds_by_two<R: Threads + Wait + Sync>(
    rt: &R,
    rings: &Rings,
    a: &mut RingPlayer,
    b: &mut RingPlayer,
    count: u64,
) -> u64
    requires machines { rings.now.machines ≡ machines_of_rounds }
    requires at { IsAt rings.now a.old × IsAt rings.now b.old }
    requires start { (a.old.role.0 ≡ 0) × (a.old.state ≡ 0) × (a.old.acts ≡ 0) × (b.old.role.0 ≡ 1) × (b.old.state ≡ 0) × (b.old.acts ≡ 0) }
    requires bounded { count < 2 ^ 62 }
    ensures at { IsAt rings.now a.new × IsAt rings.now b.new }
    ensures roles { (a.new.role ≡ a.old.role) × (b.new.role ≡ b.old.role) }
    ensures bounded { result ≤ 2 * count }
{
    let (of_b, of_a) = join_mut(
        rt,
        &mut || talk(rt, rings, a, Role(1), count),
        &mut || talk(rt, rings, b, Role(0), count),
    );
    of_a + of_b
}

/// B and C go through `count` rounds from the round `first` on, each on a thread of its own: how many parcels came in order.
pub fn relay_by_two<R: Threads + Wait + Sync>(
    rt: &R,
    rings: &Rings,
    b: &mut RingPlayer,
    c: &mut RingPlayer,
    first: u64,
    count: u64,
) -> u64
    requires machines { rings.now.machines ≡ machines_of_relay }
    requires at { IsAt rings.now b.old × IsAt rings.now c.old }
    requires start { (b.old.role.0 ≡ 1) × (b.old.state ≡ 0) × (c.old.role.0 ≡ 2) × (c.old.state ≡ 0) }
    requires bounded { (first + count < 2 ^ 62) × (b.old.acts + 3 * count < 2 ^ 62) × (c.old.acts + 3 * count < 2 ^ 62) }
    ensures at { IsAt rings.now b.new × IsAt rings.now c.new }
    ensures roles { (b.new.role ≡ b.old.role) × (c.new.role ≡ c.old.role) }
    ensures stand { (b.new.state ≡ 0) × (b.new.acts ≡ b.old.acts + 3 * count) × (c.new.state ≡ 0) × (c.new.acts ≡ c.old.acts + 2 * count) }
    ensures bounded { result ≤ 2 * count }
{
    let (asked, answered) = join_mut(
        rt,
        &mut || ask(rt, rings, b, first, count),
        &mut || answer(rt, rings, c, first, count),
    );
    asked + answered
}
