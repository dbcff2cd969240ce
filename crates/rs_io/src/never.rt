//! Sources and sinks in memory that never fail.

ghost use Rattle.std.specs.Prelude.{◌≡◌, ◌<◌, ◌≤◌, min, length, None, Some, Ok, IfOk, OnErr};
ghost use Rattle.std.specs.Io.{ReadsAtMost, WritesAtMost};
ghost use Rattle.std.specs.Io.KnownBytes.{ReadConsumes, WriteAppends};
ghost use Rattle.rs_io.specs.Faults.{Rose, NeverFalls};

use crate::stock::Stock;
use crate::{Failed, Sink, Source};
use std::marker::Model;

/// A source over bytes in memory that never fails.
#[derive(Drop, Debug)]
pub struct NeverSource {
    stock: Stock,
}

// Seen as the bytes that are left.
impl Model for NeverSource {
    ghost use Rattle.std.specs.Prelude.{ℕ, List};

    ghost Value = { List ℕ };

    ghost view = { λ s. s.stock };
}

impl NeverSource {
    /// A source that gives the bytes.
    pub fn new(bytes: Vec<u8>) -> NeverSource
        ensures { result ≡ bytes.items }
    {
        NeverSource {
            stock: Stock::new(bytes),
        }
    }
}

impl Source for NeverSource {
    ghost left = { λ s. Some s };

    ghost faults = { λ _. 0 };

    ghost last = { λ _. ⊥ };

    /// Gives as many bytes as are left and `into` holds.
    fn read(&mut self, into: &mut [u8]) -> Result<usize, Failed>
        ensures bound { ReadsAtMost result into.new }
        ensures bytes { ReadConsumes (Some self.old) (Some self.new) result into.new }
        ensures count { NeverFalls 0 0 ⊥ ⊥ }
        ensures cause { OnErr result (Rose 0 0 ⊥) }
        ensures gives { result ≡ Ok (min (length self.old) (length into.old)) }
    {
        Ok(self.stock.give(into.len(), into))
    }
}

/// A sink that forgets the bytes and never fails.
#[derive(Drop, Debug)]
pub struct NeverSink;

impl NeverSink {
    /// A sink that never fails, and to which nothing was written.
    pub fn new() -> NeverSink {
        NeverSink
    }
}

impl Sink for NeverSink {
    ghost written = { λ _. None };

    ghost faults = { λ _. 0 };

    ghost last = { λ _. ⊥ };

    /// Takes all bytes.
    fn write(&mut self, bytes: &[u8]) -> Result<usize, Failed>
        ensures bound { WritesAtMost result bytes.now }
        ensures progress { IfOk result (λ n. 0 < length bytes.now → 1 ≤ n) }
        ensures bytes { WriteAppends None None result bytes.now }
        ensures count { NeverFalls 0 0 ⊥ ⊥ }
        ensures cause { OnErr result (Rose 0 0 ⊥) }
        ensures takes { result ≡ Ok (length bytes.now) }
    {
        Ok(bytes.len())
    }
}
