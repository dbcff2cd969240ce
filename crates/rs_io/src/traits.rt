//! What a source and a sink promise.

ghost use Rattle.std.specs.Prelude.{ℕ, List, ◌<◌, ◌≤◌, length, Option, IfOk, OnErr};
ghost use Rattle.std.specs.Io.{ReadsAtMost, WritesAtMost};
ghost use Rattle.std.specs.Io.KnownBytes.{ReadConsumes, WriteAppends};
ghost use Rattle.rs_io.specs.Faults.{Rose, NeverFalls};

/// A read or a write that failed.
#[derive(Clone, Copy, Debug, PartialEq, Eq)]
pub struct Failed;

/// What bytes are read from.
pub trait Source {
    // The bytes that it has still to give, where it tells them.
    ghost left: { Self → Option (List ℕ) };

    // The faults so far.
    ghost faults: { Self → ℕ };

    // The count of faults stands at its last value.
    ghost last: { Self → Type 0 };

    /// Takes the first bytes that are left to the front of `into`, and answers how many: none only
    /// where `into` is empty or none are left.
    /// `Failed`: a fault rose, and no byte was taken.
    fn read(&mut self, into: &mut [u8]) -> Result<usize, Failed>
        ensures bound { ReadsAtMost result into.new }
        ensures bytes { ReadConsumes (left self.old) (left self.new) result into.new }
        ensures count { NeverFalls (faults self.old) (faults self.new) (last self.old) (last self.new) }
        ensures cause { OnErr result (Rose (faults self.old) (faults self.new) (last self.new)) };
}

/// What bytes are written to.
pub trait Sink {
    // The bytes taken so far, where it tells them.
    ghost written: { Self → Option (List ℕ) };

    // The faults so far.
    ghost faults: { Self → ℕ };

    // The count of faults stands at its last value.
    ghost last: { Self → Type 0 };

    /// Takes the first of the bytes, and answers how many: none only where `bytes` is empty.
    /// `Failed`: a fault rose, and no byte was taken.
    fn write(&mut self, bytes: &[u8]) -> Result<usize, Failed>
        ensures bound { WritesAtMost result bytes.now }
        ensures progress { IfOk result (λ n. 0 < length bytes.now → 1 ≤ n) }
        ensures bytes { WriteAppends (written self.old) (written self.new) result bytes.now }
        ensures count { NeverFalls (faults self.old) (faults self.new) (last self.old) (last self.new) }
        ensures cause { OnErr result (Rose (faults self.old) (faults self.new) (last self.new)) };
}
