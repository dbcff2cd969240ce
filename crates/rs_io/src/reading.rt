//! All bytes of a source.

ghost use Rattle.std.specs.Prelude.{◌≡◌, ℕ, ◌+◌, ◌<◌, ◌≤◌, ◌^◌, List, length, vec_len, IfOk, IfSome, OnOk, MatchResult};
ghost use Rattle.std.specs.Io.KnownBytes.{Consumes, IsAtEnd};
ghost use Rattle.rs_io.specs.Faults.{Rose, NeverFalls};
ghost use Rattle.rs_io.specs.Stops.{StopsAfter};

use crate::Source;
use std::alloc::Global;
use thiserror::Error;

/// Why reading stopped before the end.
#[derive(Debug, Drop, Error)]
pub enum ReadStop {
    /// The source failed.
    #[error("read fault")]
    ReadFault,
    /// There is a byte past the limit.
    #[error("too long")]
    TooLong,
    /// Memory was refused.
    #[error("no memory")]
    NoMemory,
}

// The most bytes that the first turn asks for.
const FIRST_PIECE: usize = 1_024;

// The most bytes that any turn asks for.
const PIECE: usize = 65_536;

// Doubles the buffer, up to a whole piece; where memory is refused it stays as it is. So what is cleared of it is never
// more than the bytes that were read and a first piece.
fn widen(buffer: &mut Vec<u8>)
    ensures { vec_len buffer.old ≤ vec_len buffer.new }
{
    if buffer.len() < PIECE {
        let _widened = buffer.resize(PIECE.min(2 * buffer.len()), 0);
    }
}

/// Reads all bytes that are left, at most `limit` of them.
/// `ReadFault`: the source failed in this call. `TooLong`: one byte more than `limit` was taken.
/// `NoMemory`: memory was refused.
pub fn read_all<S: Source>(alloc: Global, source: &mut S, limit: usize) -> Result<Vec<u8>, ReadStop>
    requires { limit + 1 < 2 ^ 64 }
    ensures all { IfOk result (λ v. IfSome (S.left source.old) (λ bytes. v.items ≡ bytes)) }
    ensures within { IfOk result (λ v. vec_len v ≤ limit) }
    ensures end { OnOk result (IsAtEnd (S.left source.new)) }
    // The bytes that were taken are those of the answer, and tell which stop it is.
    ensures taken { (bytes : List ℕ) × Consumes (S.left source.old) (S.left source.new) bytes
        × MatchResult result (λ v. v.items ≡ bytes) (StopsAfter limit (length bytes)) }
    ensures count { NeverFalls (S.faults source.old) (S.faults source.new) (S.last source.old) (S.last source.new) }
    ensures too_long { result ≡ Err ReadStop.TooLong → IfSome (S.left source.old) (λ bytes. limit < length bytes) }
    ensures read_fault { result ≡ Err ReadStop.ReadFault → Rose (S.faults source.old) (S.faults source.new) (S.last source.new) }
{
    let mut all = Vec::new(alloc);
    let Ok(mut buffer) = vec![in alloc; 0u8; FIRST_PIECE.min(limit + 1)] else {
        return Err(ReadStop::NoMemory);
    };
    loop {
        let room = buffer.len().min(limit - all.len() + 1);
        let (piece, _) = buffer.as_mut_slice().split_at_mut(room);
        let Ok(count) = source.read(piece) else {
            return Err(ReadStop::ReadFault);
        };
        if count == 0 {
            return Ok(all);
        }
        if count > limit - all.len() {
            return Err(ReadStop::TooLong);
        }
        if all.extend_from_slice(&piece[..count]).is_err() {
            return Err(ReadStop::NoMemory);
        }
        if count == buffer.len() {
            widen(&mut buffer);
        }
    }
}
