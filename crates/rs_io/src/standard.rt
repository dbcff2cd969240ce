//! Readers and writers of std as sources and sinks.

ghost use Rattle.std.specs.Prelude.{◌≡◌, ◌<◌, ◌≤◌, length, IfOk, OnErr, is_err, if◌then◌else◌};
ghost use Rattle.std.specs.Io.{ReadsAtMost, WritesAtMost};
ghost use Rattle.std.specs.Io.KnownBytes.{ReadConsumes, WriteAppends, Keeps};
ghost use Rattle.rs_io.specs.Faults.{IsLast, Rose, NeverFalls, one_count_more};

use crate::{Failed, Sink, Source};
use std::io::{Read, Write};
use std::marker::Model;

/// A reader of std as a source. It tells the bytes that the reader tells.
#[derive(Drop)]
pub struct StdSource<R> {
    inner: R,
    faults: u64,
}

impl<R> Model for StdSource<R> {
    ghost use Rattle.rs_io.specs.Data.{Std_data};

    ghost Value = { Std_data R };

    ghost view = { λ s. record { inner = s.inner; faults = s.faults } };
}

impl<R: Read> StdSource<R> {
    /// A source that reads from the reader. No fault was met yet.
    pub fn new(inner: R) -> StdSource<R>
        ensures inner { result.inner ≡ inner }
        ensures fresh { result.faults ≡ 0 }
    {
        StdSource { inner, faults: 0 }
    }
}

impl<R: Read> Source for StdSource<R> {
    ghost left = { λ s. R.remaining s.inner };

    ghost faults = { λ s. s.faults };

    ghost last = { λ s. IsLast s.faults };

    /// `Failed`: the reader answered an error.
    fn read(&mut self, into: &mut [u8]) -> Result<usize, Failed>
        ensures bound { ReadsAtMost result into.new }
        ensures bytes { ReadConsumes (R.remaining self.old.inner) (R.remaining self.new.inner) result into.new }
        ensures count { NeverFalls self.old.faults self.new.faults (IsLast self.old.faults) (IsLast self.new.faults) }
        ensures cause { OnErr result (Rose self.old.faults self.new.faults (IsLast self.new.faults)) }
        ensures faults { self.new.faults ≡ (if is_err result then one_count_more self.old.faults else self.old.faults) }
    {
        match self.inner.read(into) {
            Ok(count) => Ok(count),
            Err(_) => {
                self.faults = self.faults.saturating_add(1);
                Err(Failed)
            }
        }
    }
}

/// A writer of std as a sink. It tells the bytes that the writer tells.
#[derive(Drop)]
pub struct StdSink<W> {
    inner: W,
    faults: u64,
}

impl<W> Model for StdSink<W> {
    ghost use Rattle.rs_io.specs.Data.{Std_data};

    ghost Value = { Std_data W };

    ghost view = { λ s. record { inner = s.inner; faults = s.faults } };
}

impl<W: Write> StdSink<W> {
    /// A sink that writes to the writer. No fault was met yet.
    pub fn new(inner: W) -> StdSink<W>
        ensures inner { result.inner ≡ inner }
        ensures fresh { result.faults ≡ 0 }
    {
        StdSink { inner, faults: 0 }
    }

    /// Passes on what the writer still holds back.
    /// `Failed`: the writer answered an error.
    pub fn flush(&mut self) -> Result<(), Failed>
        ensures kept { Keeps (W.contents self.old.inner) (W.contents self.new.inner) }
        ensures count { NeverFalls self.old.faults self.new.faults (IsLast self.old.faults) (IsLast self.new.faults) }
        ensures cause { OnErr result (Rose self.old.faults self.new.faults (IsLast self.new.faults)) }
        ensures faults { self.new.faults ≡ (if is_err result then one_count_more self.old.faults else self.old.faults) }
    {
        match self.inner.flush() {
            Ok(()) => Ok(()),
            Err(_) => {
                self.faults = self.faults.saturating_add(1);
                Err(Failed)
            }
        }
    }
}

impl<W: Write> Sink for StdSink<W> {
    ghost written = { λ s. W.contents s.inner };

    ghost faults = { λ s. s.faults };

    ghost last = { λ s. IsLast s.faults };

    /// `Failed`: the writer answered an error, or took none of the bytes where there are some.
    fn write(&mut self, bytes: &[u8]) -> Result<usize, Failed>
        ensures bound { WritesAtMost result bytes.now }
        ensures progress { IfOk result (λ n. 0 < length bytes.now → 1 ≤ n) }
        ensures bytes { WriteAppends (W.contents self.old.inner) (W.contents self.new.inner) result bytes.now }
        ensures count { NeverFalls self.old.faults self.new.faults (IsLast self.old.faults) (IsLast self.new.faults) }
        ensures cause { OnErr result (Rose self.old.faults self.new.faults (IsLast self.new.faults)) }
        ensures faults { self.new.faults ≡ (if is_err result then one_count_more self.old.faults else self.old.faults) }
    {
        match self.inner.write(bytes) {
            Ok(count) if count > 0 || bytes.is_empty() => Ok(count),
            _ => {
                self.faults = self.faults.saturating_add(1);
                Err(Failed)
            }
        }
    }
}
