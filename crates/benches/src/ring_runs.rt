//! Whole runs of the sessions, on one thread or on several.

ghost use Rattle.std.specs.Prelude.{◌≡◌, ◌+◌, ◌*◌, ◌<◌, ◌≤◌, ◌^◌, ℕ};
ghost use Rattle.rs_model.specs.declared.values.Value.TheVariants as value;
ghost use Rattle.benches.specs.Players.{IsAt};
ghost use Rattle.benches.specs.Sessions.{machines_of_relay, machines_of_rounds, machines_of_stream};

use crate::ring_players::{RingPlayer, receive, send, try_receive, try_send};
use rs_model::{Label, Role, Value};
use rs_rings::Rings;
use rs_slots::Parcel;
use std::sync::Wait;

const A: Role = Role(0);

const B: Role = Role(1);

const C: Role = Role(2);

/// A label with a number.
pub fn natural(label: u16, number: u64) -> Parcel
    ensures { result ≡ record { label = record { 0 = label }; value = value.Natural number } }
{
    Parcel {
        label: Label(label),
        value: Value::Natural(number),
    }
}

/// Whether the parcel has that label and that number.
pub fn is_natural(parcel: &Parcel, label: u16, number: u64) -> bool {
    match &parcel.value {
        Value::Natural(found) => parcel.label.0 == label && *found == number,
        _ => false,
    }
}

/// A sends the numbers below `count` in order.
#[tactic(auto, using(crate::proofs::Sends::stream_fits, crate::proofs::Sends::stream_puts))]
pub fn feed<R: Wait>(rt: &R, rings: &Rings, player: &mut RingPlayer, count: u64)
    requires machines { rings.now.machines ≡ machines_of_stream }
    requires at { IsAt rings.now player.old }
    requires start { (player.old.role.0 ≡ 0) × (player.old.state ≡ 0) × (player.old.acts ≡ 0) }
    requires bounded { count < 2 ^ 62 }
    ensures at { IsAt rings.now player.new }
    ensures role { player.new.role ≡ player.old.role }
{
    for n in 0..count {
        send(rt, rings, player, B, natural(0, n), 0);
    }
}

/// B takes `count` parcels. Returns how many of them were the next number in order.
#[tactic(auto, using(crate::proofs::Sends::stream_takes))]
pub fn drain<R: Wait>(rt: &R, rings: &Rings, player: &mut RingPlayer, count: u64) -> u64
    requires machines { rings.now.machines ≡ machines_of_stream }
    requires at { IsAt rings.now player.old }
    requires start { (player.old.role.0 ≡ 1) × (player.old.state ≡ 0) × (player.old.acts ≡ 0) }
    requires bounded { count < 2 ^ 62 }
    ensures at { IsAt rings.now player.new }
    ensures role { player.new.role ≡ player.old.role }
    ensures bounded { result ≤ count }
{
    let mut right = 0;
    for n in 0..count {
        let parcel = receive(rt, rings, player, A, 0);
        if is_natural(&parcel, 0, n) {
            right += 1;
        }
    }
    right
}

/// A puts a number and B takes it, on one thread, for each number below `count`. Returns how many came in order.
#[tactic(auto, using(crate::proofs::Sends::stream_fits, crate::proofs::Sends::stream_puts, crate::proofs::Sends::stream_takes))]
pub fn in_turn(rings: &Rings, a: &mut RingPlayer, b: &mut RingPlayer, count: u64) -> u64
    requires machines { rings.now.machines ≡ machines_of_stream }
    requires at { IsAt rings.now a.old × IsAt rings.now b.old }
    requires start { (a.old.role.0 ≡ 0) × (a.old.state ≡ 0) × (a.old.acts ≡ 0) × (b.old.role.0 ≡ 1) × (b.old.state ≡ 0) × (b.old.acts ≡ 0) }
    requires bounded { count < 2 ^ 62 }
    ensures at { IsAt rings.now a.new × IsAt rings.now b.new }
    ensures roles { (a.new.role ≡ a.old.role) × (b.new.role ≡ b.old.role) }
{
    let mut right = 0;
    for n in 0..count {
        if let Some(_parcel) = try_send(rings, a, B, natural(0, n), 0) {
            return right;
        }
        if let Some(parcel) = try_receive(rings, b, A, 0) {
            if is_natural(&parcel, 0, n) {
                right += 1;
            }
        }
    }
    right
}

/// In each of `count` rounds the player sends the round's number to its peer and then takes the peer's. Returns how
/// many came in order.
#[tactic(auto, using(crate::proofs::Sends::rounds_fit, crate::proofs::Sends::rounds_puts, crate::proofs::Sends::rounds_takes))]
pub fn talk<R: Wait>(rt: &R, rings: &Rings, player: &mut RingPlayer, peer: Role, count: u64) -> u64
    requires machines { rings.now.machines ≡ machines_of_rounds }
    requires at { IsAt rings.now player.old }
    requires peers { player.old.role.0 + peer.0 ≡ 1 }
    requires start { (player.old.state ≡ 0) × (player.old.acts ≡ 0) }
    requires bounded { count < 2 ^ 62 }
    ensures at { IsAt rings.now player.new }
    ensures role { player.new.role ≡ player.old.role }
    ensures bounded { result ≤ count }
{
    let mut right = 0;
    let own = player.role.0 as u16;
    for n in 0..count {
        send(rt, rings, player, peer, natural(own, n), 1);
        let parcel = receive(rt, rings, player, peer, 0);
        if is_natural(&parcel, peer.0 as u16, n) {
            right += 1;
        }
    }
    right
}

/// B asks C in each of `count` rounds from the round `first` on, takes its answer, and reports the round to A. Returns how
/// many answers were right.
#[tactic(auto, using(crate::proofs::Sends::relay_fits, crate::proofs::Sends::ask_puts, crate::proofs::Sends::ask_takes, crate::proofs::Sends::tell_puts))]
pub fn ask<R: Wait>(rt: &R, rings: &Rings, player: &mut RingPlayer, first: u64, count: u64) -> u64
    requires machines { rings.now.machines ≡ machines_of_relay }
    requires at { IsAt rings.now player.old }
    requires start { (player.old.role.0 ≡ 1) × (player.old.state ≡ 0) }
    requires bounded { (first + count < 2 ^ 62) × (player.old.acts + 3 * count < 2 ^ 62) }
    ensures at { IsAt rings.now player.new }
    ensures role { player.new.role ≡ player.old.role }
    ensures stands { (player.new.state ≡ 0) × (player.new.acts ≡ player.old.acts + 3 * count) }
    ensures bounded { result ≤ count }
{
    let mut right = 0;
    for n in first..first + count {
        send(rt, rings, player, C, natural(0, n), 1);
        let answer = receive(rt, rings, player, C, 2);
        if is_natural(&answer, 1, n) {
            right += 1;
        }
        send(rt, rings, player, A, natural(2, n), 0);
    }
    right
}

/// C takes a number and answers with the round's, in each of `count` rounds. Returns how many came in order.
#[tactic(auto, using(crate::proofs::Sends::relay_fits, crate::proofs::Sends::answer_takes, crate::proofs::Sends::answer_puts))]
pub fn answer<R: Wait>(
    rt: &R,
    rings: &Rings,
    player: &mut RingPlayer,
    first: u64,
    count: u64,
) -> u64
    requires machines { rings.now.machines ≡ machines_of_relay }
    requires at { IsAt rings.now player.old }
    requires start { (player.old.role.0 ≡ 2) × (player.old.state ≡ 0) }
    requires bounded { (first + count < 2 ^ 62) × (player.old.acts + 3 * count < 2 ^ 62) }
    ensures at { IsAt rings.now player.new }
    ensures role { player.new.role ≡ player.old.role }
    ensures stands { (player.new.state ≡ 0) × (player.new.acts ≡ player.old.acts + 2 * count) }
    ensures bounded { result ≤ count }
{
    let mut right = 0;
    for n in first..first + count {
        let asked = receive(rt, rings, player, B, 1);
        if is_natural(&asked, 0, n) {
            right += 1;
        }
        send(rt, rings, player, B, natural(1, n), 0);
    }
    right
}

/// A takes what B reported of `count` rounds. Returns how many came in order.
#[tactic(auto, using(crate::proofs::Sends::hear_takes))]
pub fn hear<R: Wait>(rt: &R, rings: &Rings, player: &mut RingPlayer, first: u64, count: u64) -> u64
    requires machines { rings.now.machines ≡ machines_of_relay }
    requires at { IsAt rings.now player.old }
    requires start { (player.old.role.0 ≡ 0) × (player.old.state ≡ 0) }
    requires bounded { (first + count < 2 ^ 62) × (player.old.acts + 3 * count < 2 ^ 62) }
    ensures at { IsAt rings.now player.new }
    ensures role { player.new.role ≡ player.old.role }
    ensures stands { (player.new.state ≡ 0) × (player.new.acts ≡ player.old.acts + count) }
    ensures bounded { result ≤ count }
{
    let mut right = 0;
    for n in first..first + count {
        let told = receive(rt, rings, player, B, 0);
        if is_natural(&told, 2, n) {
            right += 1;
        }
    }
    right
}
