//! Sources and sinks in memory that fail at chosen calls.

ghost use Rattle.std.specs.Prelude.{◌≡◌, ◌-◌, ◌<◌, ◌≤◌, ◌==◌, ◌&&◌, ◌||◌, min, nat_lt, [], length, Some, IfOk, OnErr, is_err};
ghost use Rattle.std.specs.Io.{ReadsAtMost, WritesAtMost};
ghost use Rattle.std.specs.Io.KnownBytes.{ReadConsumes, WriteAppends};
ghost use Rattle.rs_io.specs.Calls.{source_behind, sink_behind};
ghost use Rattle.rs_io.specs.Faults.{IsLast, Rose, NeverFalls, one_count_more, is_listed};

use crate::stock::Stock;
use crate::{Failed, Sink, Source};
use rs_model::NoMemory;
use std::alloc::Global;
use std::marker::Model;

/// A source over bytes in memory, which gives them in pieces and fails at chosen calls.
#[derive(Drop, Debug)]
pub struct MemSource {
    stock: Stock,
    piece: usize,
    failing: Vec<u32>,
    calls: u64,
    faults: u64,
}

impl Model for MemSource {
    ghost use Rattle.std.specs.Prelude.{◌≤◌};
    ghost use Rattle.rs_io.specs.Data.{MemSource_data};

    ghost Value = { MemSource_data };

    ghost view = { λ s. record { left = s.stock; piece = s.piece; failing = s.failing.items; calls = s.calls; faults = s.faults } };

    ghost invariant = { λ s. 1 ≤ s.piece };
}

impl MemSource {
    /// A source that gives the bytes, at most `piece` per call, and fails at the calls whose
    /// numbers, from 1, are in `failing`.
    pub fn new(bytes: Vec<u8>, piece: usize, failing: Vec<u32>) -> MemSource
        requires { 1 ≤ piece }
        ensures bytes { result.left ≡ bytes.items }
        ensures piece { result.piece ≡ piece }
        ensures failing { result.failing ≡ failing.items }
        ensures fresh { (result.calls ≡ 0) × (result.faults ≡ 0) }
    {
        MemSource {
            stock: Stock::new(bytes),
            piece,
            failing,
            calls: 0,
            faults: 0,
        }
    }
}

impl Source for MemSource {
    ghost left = { λ s. Some s.left };

    ghost faults = { λ s. s.faults };

    ghost last = { λ s. IsLast s.faults };

    /// Gives as many bytes as a piece has, are left and `into` holds.
    /// `Failed`: the number of the call is listed.
    fn read(&mut self, into: &mut [u8]) -> Result<usize, Failed>
        ensures bound { ReadsAtMost result into.new }
        ensures bytes { ReadConsumes (Some self.old.left) (Some self.new.left) result into.new }
        ensures count { NeverFalls self.old.faults self.new.faults (IsLast self.old.faults) (IsLast self.new.faults) }
        ensures cause { OnErr result (Rose self.old.faults self.new.faults (IsLast self.new.faults)) }
        ensures refuses { is_err result ≡ is_listed (one_count_more self.old.calls) self.old.failing }
        ensures gives { IfOk result (λ n. n ≡ min self.old.piece (min (length self.old.left) (length into.old))) }
        ensures rest { self.new ≡ source_behind (is_err result) self.new.left self.old }
    {
        self.calls = self.calls.saturating_add(1);
        if lists(self.failing.as_slice(), self.calls) {
            self.faults = self.faults.saturating_add(1);
            return Err(Failed);
        }
        Ok(self.stock.give(self.piece, into))
    }
}

/// A sink that keeps bytes in memory, takes them in pieces and fails at chosen calls.
#[derive(Drop, Debug)]
pub struct MemSink {
    taken: Vec<u8>,
    room: usize,
    piece: usize,
    failing: Vec<u32>,
    calls: u64,
    faults: u64,
}

impl Model for MemSink {
    ghost use Rattle.std.specs.Prelude.{◌≤◌, vec_len, vec_capacity};
    ghost use Rattle.rs_io.specs.Data.{MemSink_data};

    ghost Value = { MemSink_data };

    ghost view = { λ s. record { written = s.taken.items; room = s.room; piece = s.piece; failing = s.failing.items; calls = s.calls; faults = s.faults } };

    ghost invariant = { λ s. (vec_len s.taken ≤ s.room) × (s.room ≤ vec_capacity s.taken) × (1 ≤ s.piece) };
}

impl MemSink {
    /// A sink with room for `room` bytes, that takes at most `piece` per call and fails at the
    /// calls whose numbers, from 1, are in `failing`, and where its room is used up.
    /// `NoMemory`: the room was refused.
    pub fn new(
        alloc: Global,
        room: usize,
        piece: usize,
        failing: Vec<u32>,
    ) -> Result<MemSink, NoMemory>
        requires { 1 ≤ piece }
        ensures written { IfOk result (λ s. s.written ≡ []) }
        ensures room { IfOk result (λ s. s.room ≡ room) }
        ensures piece { IfOk result (λ s. s.piece ≡ piece) }
        ensures failing { IfOk result (λ s. s.failing ≡ failing.items) }
        ensures fresh { IfOk result (λ s. (s.calls ≡ 0) × (s.faults ≡ 0)) }
    {
        Ok(MemSink {
            taken: Vec::with_capacity(alloc, room)?,
            room,
            piece,
            failing,
            calls: 0,
            faults: 0,
        })
    }

    /// The bytes taken so far.
    pub fn bytes(&self) -> &[u8]
        ensures { result.now ≡ self.now.written }
    {
        self.taken.as_slice()
    }
}

impl Sink for MemSink {
    ghost written = { λ s. Some s.written };

    ghost faults = { λ s. s.faults };

    ghost last = { λ s. IsLast s.faults };

    /// Takes as many bytes as a piece has, are given and there is room for.
    /// `Failed`: the number of the call is listed, or there are bytes and the room is used up.
    fn write(&mut self, bytes: &[u8]) -> Result<usize, Failed>
        ensures bound { WritesAtMost result bytes.now }
        ensures progress { IfOk result (λ n. 0 < length bytes.now → 1 ≤ n) }
        ensures bytes { WriteAppends (Some self.old.written) (Some self.new.written) result bytes.now }
        ensures count { NeverFalls self.old.faults self.new.faults (IsLast self.old.faults) (IsLast self.new.faults) }
        ensures cause { OnErr result (Rose self.old.faults self.new.faults (IsLast self.new.faults)) }
        ensures refuses { is_err result ≡ (is_listed (one_count_more self.old.calls) self.old.failing
            || (nat_lt 0 (length bytes.now) && (length self.old.written == self.old.room))) }
        ensures takes { IfOk result (λ n. n ≡ min self.old.piece (min (self.old.room - length self.old.written) (length bytes.now))) }
        ensures rest { self.new ≡ sink_behind (is_err result) self.new.written self.old }
    {
        self.calls = self.calls.saturating_add(1);
        let left = self.room - self.taken.len();
        if lists(self.failing.as_slice(), self.calls) || (!bytes.is_empty() && left == 0) {
            self.faults = self.faults.saturating_add(1);
            return Err(Failed);
        }
        let count = self.piece.min(left.min(bytes.len()));
        let (front, _) = bytes.split_at(count);
        self.taken.extend_from_slice(front).unwrap();
        Ok(count)
    }
}

// Whether the number of a call is listed.
fn lists(failing: &[u32], call: u64) -> bool
    ensures { result ≡ is_listed call failing.now }
{
    failing.iter().any(|number| u64::from(*number) == call)
}
