//! How many bytes of one load, from the first, words are made of.

ghost use Rattle.std.specs.Prelude.{◌≡◌, ◌≤◌, length, take};
ghost use Rattle.rs_text.specs.Lexing.{word_length};
ghost use Rattle.rs_text.specs.WordLanes.{first_set};

use std::simd::prelude::*;

pub(crate) const LANES: usize = 16;

/// How many of the first sixteen bytes, from the first, words are made of.
#[inline(always)]
pub(crate) fn word_run(bytes: &[u8]) -> usize
    requires { LANES ≤ length bytes.now }
    ensures { result ≡ word_length (take LANES bytes.now) }
{
    let load = u8x16::from_slice(bytes);
    // Bit 0x20 makes capitals small.
    let from_a = (load | u8x16::splat(0x20)) - u8x16::splat(b'a');
    let from_zero = load - u8x16::splat(b'0');
    let is_neither = from_a.simd_ge(u8x16::splat(26)) & from_zero.simd_ge(u8x16::splat(10));
    let stops = is_neither & load.simd_ne(u8x16::splat(b'_'));
    first_set(stops.to_bitmask())
}

#[inline(always)]
fn first_set(mask: u64) -> usize
    ensures { result ≡ first_set mask }
{
    if mask == 0 {
        LANES
    } else {
        mask.trailing_zeros() as usize
    }
}
