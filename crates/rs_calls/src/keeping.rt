//! A sink that keeps all bytes.

ghost use Rattle.std.specs.Prelude.{◌≡◌, ◌<◌, ◌≤◌, [], length, Some, IfOk, OnErr};
ghost use Rattle.std.specs.Io.{WritesAtMost};
ghost use Rattle.std.specs.Io.KnownBytes.{WriteAppends};
ghost use Rattle.rs_io.specs.Faults.{IsLast, Rose, NeverFalls};

use rs_io::{Failed, Sink};
use std::alloc::Global;
use std::marker::Model;

/// A sink that keeps all bytes that are written to it. It fails only if memory runs out.
#[derive(Drop)]
pub struct KeptBytes {
    bytes: Vec<u8>,
    faults: u64,
}

impl Model for KeptBytes {
    ghost use Rattle.rs_calls.specs.Keeping.{Kept_data};

    ghost Value = { Kept_data };

    ghost view = { λ k. record { written = k.bytes.items; faults = k.faults } };
}

impl KeptBytes {
    /// A sink to which nothing was written.
    pub fn new(alloc: Global) -> KeptBytes
        ensures { result.written ≡ [] }
    {
        KeptBytes {
            bytes: Vec::new(alloc),
            faults: 0,
        }
    }

    /// The bytes that were written.
    pub fn into_bytes(self) -> Vec<u8>
        ensures { result.items ≡ self.written }
    {
        self.bytes
    }
}

impl Sink for KeptBytes {
    ghost written = { λ k. Some k.written };

    ghost faults = { λ k. k.faults };

    ghost last = { λ k. IsLast k.faults };

    /// Takes all bytes. `Failed`: memory was refused.
    fn write(&mut self, bytes: &[u8]) -> Result<usize, Failed>
        ensures bound { WritesAtMost result bytes.now }
        ensures progress { IfOk result (λ n. 0 < length bytes.now → 1 ≤ n) }
        ensures bytes { WriteAppends (Some self.old.written) (Some self.new.written) result bytes.now }
        ensures count { NeverFalls self.old.faults self.new.faults (IsLast self.old.faults) (IsLast self.new.faults) }
        ensures cause { OnErr result (Rose self.old.faults self.new.faults (IsLast self.new.faults)) }
        ensures all { IfOk result (λ n. n ≡ length bytes.now) }
    {
        match self.bytes.extend_from_slice(bytes) {
            Ok(()) => Ok(bytes.len()),
            Err(_) => {
                self.faults = self.faults.saturating_add(1);
                Err(Failed)
            }
        }
    }
}
