//! Small sessions, and long ones on two threads.

ghost use Rattle.std.specs.Prelude.{◌≡◌, ◌+◌, ◌<◌, ◌≤◌, ◌^◌, false};
ghost use Rattle.rs_model.specs.declared.values.Value.TheVariants as value;
ghost use Rattle.rs_model.specs.Limits.{IsCapacity};
ghost use Rattle.rs_rings.specs.Views.{speaks};
ghost use Rattle.benches.specs.Players.{IsAt};
ghost use Rattle.benches.specs.Sessions.{machines_of_swap};

use crate::ring_players::{RingPlayer, begin, gather, give_up, pair_of, receive, send, try_send};
use crate::ring_runs::{is_natural, natural};
use crate::{ring_machines, ring_sessions};
use rs_model::{Label, NoMemory, Role, Value};
use rs_rings::{Closed, Loose, Rings};
use rs_slots::Parcel;
use std::alloc::Global;
use std::sync::Wait;
use std::thread::Threads;

const A: Role = Role(0);

const B: Role = Role(1);

/// A label without a value.
fn unit(label: u16) -> Parcel
    ensures { result ≡ record { label = record { 0 = label }; value = value.Unit } }
{
    Parcel {
        label: Label(label),
        value: Value::Unit,
    }
}

/// A and B have swapped their labels and have ended: which labels they got, and what is left.
#[tactic(auto, using(crate::proofs::Safe::is_swap_safe, crate::proofs::Safe::is_swap_fits, crate::proofs::Sends::swap_puts, crate::proofs::Sends::swap_takes))]
fn end_of_swap<R: Wait>(rt: &R, alloc: Global) -> Result<(u16, u16, Closed), NoMemory> {
    let machines = ring_machines::swap(alloc)?;
    let (rings, pass) = begin(alloc, machines.as_slice(), 2)?;
    let (a, b) = pair_of(&rings, pass);
    let mut a = a;
    let mut b = b;
    send(rt, &rings, &mut a, B, unit(0), 1);
    send(rt, &rings, &mut b, A, unit(1), 1);
    let y = receive(rt, &rings, &mut a, B, 2);
    let x = receive(rt, &rings, &mut b, A, 2);
    Ok((y.label.0, x.label.0, close(rings, a, b)))
}

#[tactic(auto, using(crate::proofs::Plays::all_of_two, crate::proofs::Plays::both_done))]
fn close(rings: Rings, a: RingPlayer, b: RingPlayer) -> Closed
    requires rings { (rings.roles ≡ 2) × (rings.machines ≡ machines_of_swap) }
    requires roles { (a.role.0 ≡ 0) × (b.role.0 ≡ 1) }
    requires at { IsAt rings a × IsAt rings b }
    requires ended { (a.state ≡ 2) × (b.state ≡ 2) }
    requires quiet { speaks 1 a.pass.view.parts ≡ false }
{
    let RingPlayer {
        pass,
        role: _,
        state: _,
        acts: _,
    } = a;
    let mut pass = pass;
    gather(&rings, &mut pass, b);
    rings.close(pass)
}

/// A and B have sent their labels and are left there: what is still in the rings.
#[tactic(auto, using(crate::proofs::Safe::is_swap_safe, crate::proofs::Safe::is_swap_fits, crate::proofs::Sends::swap_puts, crate::proofs::Plays::all_of_two))]
fn loose_labels<R: Wait>(rt: &R, alloc: Global) -> Result<Vec<Loose>, NoMemory> {
    let loose = Vec::with_capacity(alloc, 4)?;
    let machines = ring_machines::swap(alloc)?;
    let (rings, pass) = begin(alloc, machines.as_slice(), 2)?;
    let (a, b) = pair_of(&rings, pass);
    let mut a = a;
    let mut b = b;
    send(rt, &rings, &mut a, B, unit(0), 1);
    send(rt, &rings, &mut b, A, unit(1), 1);
    let RingPlayer {
        pass,
        role: _,
        state: _,
        acts: _,
    } = a;
    let mut pass = pass;
    gather(&rings, &mut pass, b);
    let (_closed, loose) = rings.close_left(pass, loose);
    Ok(loose)
}

/// A ring of one slot has room for one parcel, and gives the next one back.
#[tactic(auto, using(crate::proofs::Safe::is_stream_safe, crate::proofs::Safe::is_stream_fits, crate::proofs::Sends::stream_puts))]
fn one_has_room(alloc: Global) -> Result<bool, NoMemory> {
    let machines = ring_machines::stream(alloc)?;
    let (rings, pass) = begin(alloc, machines.as_slice(), 1)?;
    let (a, b) = pair_of(&rings, pass);
    let mut a = a;
    let first = try_send(&rings, &mut a, B, natural(0, 7), 0);
    let second = try_send(&rings, &mut a, B, natural(0, 8), 0);
    let right = match (first, second) {
        (None, Some(back)) => is_natural(&back, 0, 8),
        _ => false,
    };
    give_up(rings, a, b);
    Ok(right)
}

/// Whether A and B get each other's labels, and both roles have ended.
fn swap_ends<R: Wait>(rt: &R, alloc: Global) -> Result<bool, NoMemory> {
    let (y, x, closed) = end_of_swap(rt, alloc)?;
    Ok(y == 1 && x == 0 && closed.roles() == 2)
}

fn is_loose(loose: &Loose, sender: u8, receiver: u8, label: u16) -> bool {
    loose.sender.0 == sender
        && loose.receiver.0 == receiver
        && loose.parcel.label.0 == label
        && matches!(loose.parcel.value, Value::Unit)
}

/// Whether both labels are handed out if A and B are left.
fn labels_are_left<R: Wait>(rt: &R, alloc: Global) -> Result<bool, NoMemory> {
    let loose = loose_labels(rt, alloc)?;
    match loose.as_slice() {
        [x, y] => Ok(is_loose(x, 0, 1, 0) && is_loose(y, 1, 0, 1)),
        _ => Ok(false),
    }
}

/// Whether 100,000 parcels each way come in order.
fn order_is_kept<R: Threads + Wait + Sync>(
    rt: &R,
    alloc: Global,
    capacity: u16,
) -> Result<bool, NoMemory>
    requires { IsCapacity capacity }
{
    Ok(ring_sessions::rounds(rt, alloc, capacity, 100_000)? == 200_000)
}

/// Whether parcels come in order while one thread holds its pass.
fn pass_is_held<R: Threads + Wait + Sync>(rt: &R, alloc: Global) -> Result<bool, NoMemory> {
    Ok(ring_sessions::held(rt, alloc, 1000)? == 3003)
}

/// Whether all of these sessions go as they should.
pub fn are_right<R: Threads + Wait + Sync>(rt: &R, alloc: Global) -> Result<bool, NoMemory> {
    Ok(
        swap_ends(rt, alloc)?
            && labels_are_left(rt, alloc)?
            && one_has_room(alloc)?
            && order_is_kept(rt, alloc, 1)?
            && order_is_kept(rt, alloc, 3)?
            && order_is_kept(rt, alloc, 1024)?
            && pass_is_held(rt, alloc)?,
    )
}
