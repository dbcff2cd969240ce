//! Bytes in memory that are given in order.

ghost use Rattle.std.specs.Prelude.{◌≡◌, min, length, take, ◌++◌};

use std::marker::Model;

// Bytes in memory that are given in order, seen as those that are left.
#[derive(Drop, Debug)]
pub(crate) struct Stock {
    bytes: Vec<u8>,
    at: usize,
}

impl Model for Stock {
    ghost use Rattle.std.specs.Prelude.{ℕ, List, ◌≤◌, drop, vec_len};

    ghost Value = { List ℕ };

    ghost view = { λ s. drop s.at s.bytes.items };

    ghost invariant = { λ s. s.at ≤ vec_len s.bytes };
}

impl Stock {
    pub(crate) fn new(bytes: Vec<u8>) -> Stock
        ensures { result ≡ bytes.items }
    {
        Stock { bytes, at: 0 }
    }

    // Moves as many bytes as are left and `into` holds, and at most `most`, to the front of `into`.
    pub(crate) fn give(&mut self, most: usize, into: &mut [u8]) -> usize
        ensures count { result ≡ min most (min (length self.old) (length into.old)) }
        ensures moved { self.old ≡ take result into.new ++ self.new }
    {
        let (_, left) = self.bytes.as_slice().split_at(self.at);
        let count = most.min(left.len().min(into.len()));
        into[..count].copy_from_slice(&left[..count]);
        self.at += count;
        count
    }
}
