//! The parcels of the stream through the kit's channel, and through its ring from one thread to one other.

use crate::ring_runs::{is_natural, natural};
use crossbeam_channel::{Receiver, Sender, bounded};
use rs_model::NoMemory;
use rs_slots::Parcel;
use rtrb::{Consumer, Producer, PushError, RingBuffer};
use std::alloc::Global;
use std::sync::Wait;
use std::thread::{self, Threads, join_mut};

/// Sends the numbers below `count` through the channel, in order.
fn feed_channel<R: Wait>(rt: &R, sender: &Sender<Parcel, Global>, count: u64) {
    for n in 0..count {
        if sender.send(rt, natural(0, n)).is_err() {
            return;
        }
    }
}

/// Takes `count` parcels out of the channel. Returns how many of them were the next number in order.
fn drain_channel<R: Wait>(rt: &R, receiver: &Receiver<Parcel, Global>, count: u64) -> u64 {
    let mut right: u64 = 0;
    for n in 0..count {
        let Ok(parcel) = receiver.recv(rt) else {
            return right;
        };
        if is_natural(&parcel, 0, n) {
            right = right.saturating_add(1);
        }
    }
    right
}

/// Sends the numbers below `count` through a channel of that capacity, on one thread or two. Returns how many came in order.
pub fn stream_by_channel<R: Threads + Wait + Sync>(
    rt: &R,
    alloc: Global,
    threads: u8,
    capacity: u16,
    count: u64,
) -> Result<u64, NoMemory> {
    let (mut sender, mut receiver) = bounded(alloc, capacity as usize)?;
    if threads == 1 {
        let mut right: u64 = 0;
        for n in 0..count {
            feed_channel(rt, &sender, 1);
            right = right.saturating_add(drain_channel(rt, &receiver, 1));
        }
        return Ok(right);
    }
    let (_, right) = join_mut(
        rt,
        &mut || feed_channel(rt, &sender, count),
        &mut || drain_channel(rt, &receiver, count),
    );
    Ok(right)
}

/// Pushes a parcel as soon as there is a slot.
fn push<R: Wait>(rt: &R, producer: &mut Producer<Parcel>, parcel: Parcel) {
    let mut parcel = parcel;
    for _ in rt.forever() {
        match producer.push(parcel) {
            Ok(()) => return,
            Err(PushError::Full(back)) => parcel = back,
        }
        thread::yield_now();
    }
    unreachable!()
}

/// Pops a parcel as soon as there is one.
fn pop<R: Wait>(rt: &R, consumer: &mut Consumer<Parcel>) -> Parcel {
    for _ in rt.forever() {
        if let Ok(parcel) = consumer.pop() {
            return parcel;
        }
        thread::yield_now();
    }
    unreachable!()
}

fn feed_ring<R: Wait>(rt: &R, producer: &mut Producer<Parcel>, count: u64) {
    for n in 0..count {
        push(rt, producer, natural(0, n));
    }
}

fn drain_ring<R: Wait>(rt: &R, consumer: &mut Consumer<Parcel>, count: u64) -> u64 {
    let mut right: u64 = 0;
    for n in 0..count {
        let parcel = pop(rt, consumer);
        if is_natural(&parcel, 0, n) {
            right = right.saturating_add(1);
        }
    }
    right
}

/// The same through a ring of the kit.
pub fn stream_by_ring<R: Threads + Wait + Sync>(
    rt: &R,
    alloc: Global,
    threads: u8,
    capacity: u16,
    count: u64,
) -> Result<u64, NoMemory> {
    let (mut producer, mut consumer) = RingBuffer::new(alloc, capacity as usize)?;
    if threads == 1 {
        let mut right: u64 = 0;
        for n in 0..count {
            push(rt, &mut producer, natural(0, n));
            let parcel = pop(rt, &mut consumer);
            if is_natural(&parcel, 0, n) {
                right = right.saturating_add(1);
            }
        }
        return Ok(right);
    }
    let (_, right) = join_mut(
        rt,
        &mut || feed_ring(rt, &mut producer, count),
        &mut || drain_ring(rt, &mut consumer, count),
    );
    Ok(right)
}
