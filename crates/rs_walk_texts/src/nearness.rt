//! Names that are near each other, so that the one may be meant for the other.
ghost use Rattle.std.specs.Prelude.{◌≡◌, ◌↔◌, ◌&&◌, IsTrue, length, nat_lt};
ghost use Rattle.std.specs.Str.{bytes_eq};
ghost use Rattle.rs_walk_texts.specs.Nearness as spec;

/// Whether the names differ, and are the same but for the case of their letters or, where one of them has three bytes at
/// least, differ by one byte or by two neighbouring bytes that change places, as "qurey" and "query".
pub fn is_near(one: &[u8], other: &[u8]) -> bool
    ensures test { result ≡ spec.is_near one.now other.now }
    ensures told { IsTrue result ↔ spec.IsNear one.now other.now }
{
    if are_same(one, other) {
        return false;
    }
    if one.eq_ignore_ascii_case(other) {
        return true;
    }
    if are_short(one, other) {
        return false;
    }
    differ_by_one(one, other)
}

/// How far near names are from each other: 0 where they are the same but for the case of their letters, else 1. None where
/// they aren't near.
pub(crate) fn distance(one: &[u8], other: &[u8]) -> Option<u32>
    ensures { result ≡ spec.distance one.now other.now }
{
    if !is_near(one, other) {
        return None;
    }
    if one.eq_ignore_ascii_case(other) {
        Some(0)
    } else {
        Some(1)
    }
}

// Whether both names have fewer than three bytes.
fn are_short(one: &[u8], other: &[u8]) -> bool
    ensures { result ≡ (nat_lt (length one.now) 3 && nat_lt (length other.now) 3) }
{
    one.len() < 3 && other.len() < 3
}

fn are_same(one: &[u8], other: &[u8]) -> bool
    ensures { result ≡ bytes_eq one.now other.now }
{
    one == other
}

// Whether each name begins with the byte that comes second in the other, and goes on the same behind it.
fn are_swapped(first: u8, ours: &[u8], second: u8, theirs: &[u8]) -> bool
    ensures { result ≡ spec.are_swapped first ours.now second theirs.now }
{
    match (ours, theirs) {
        ([here, ours @ ..], [there, theirs @ ..]) => {
            *here == second && *there == first && are_same(ours, theirs)
        }
        _ => false,
    }
}

// Whether the rests from the first difference on differ by one.
fn differ_by_one(one: &[u8], other: &[u8]) -> bool
    ensures { result ≡ spec.differ_by_one one.now other.now }
{
    match (one, other) {
        ([], []) => false,
        ([], [_, rest @ ..]) => rest.is_empty(),
        ([_, rest @ ..], []) => rest.is_empty(),
        ([first, ours @ ..], [second, theirs @ ..]) => {
            if first == second {
                return differ_by_one(ours, theirs);
            }
            are_same(ours, theirs)
                || are_same(ours, other)
                || are_same(one, theirs)
                || are_swapped(*first, ours, *second, theirs)
        }
    }
}
