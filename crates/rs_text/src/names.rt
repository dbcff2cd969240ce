//! Names and their places in a list.

ghost use Rattle.std.specs.Prelude.{◌≡◌, ◌≤◌, ◌+◌, ◌↔◌, IsTrue, ◌++◌, ◌∷◌, [], length, OnOk, OnErr, IfOk, IfSome, IfNone, Some, None};
ghost use Rattle.std.specs.List.{list_all};
ghost use Rattle.std.specs.Str.{bytes_eq};
ghost use Rattle.rs_model.specs.declared.limits.TheConstants.{MOST_ROLES};
ghost use Rattle.rs_text.specs.Names.{place_of, is_among};
ghost use Rattle.rs_text.specs.Names as naming;
ghost use Rattle.rs_text.specs.Bytes as bytes;
ghost use Rattle.rs_text.specs.Words as words;
ghost use Rattle.rs_text.specs.Bytes.{begins};
ghost use Rattle.rs_text.specs.Eights.{half_at, word_at};
ghost use Rattle.rs_text.specs.Sound as spec;

use crate::lexing::{is_digit, is_letter};
use rs_model::{MOST_NAME_BYTES, Name, Names, NoMemory, Role};
use std::alloc::Global;

/// The place of a name among others, the first one if it stands there more than once.
#[inline(never)]
pub fn find(names: &[Name], word: &[u8]) -> Option<usize>
    ensures { result ≡ place_of word.now names.now }
{
    for (place, name) in names.iter().enumerate() {
        if is_same(name.as_slice(), word) {
            return Some(place);
        }
    }
    None
}

/// The role with this name.
#[tactic(auto, using(crate::proofs::Numbers::place_below))]
pub fn find_role(roles: &[Name], word: &[u8]) -> Option<Role>
    requires { length roles.now ≤ MOST_ROLES }
    ensures some { IfSome result (λ role. place_of word.now roles.now ≡ Some role.0) }
    ensures none { IfNone result (place_of word.now roles.now ≡ None) }
{
    let place = find(roles, word)?;
    Some(Role(place as u8))
}

/// Whether two texts are equal. Long ones are compared from the end, since names often begin alike.
#[inline(always)]
pub(crate) fn are_equal(one: &[u8], other: &[u8]) -> bool
    ensures { IsTrue result ↔ (one.now ≡ other.now) }
{
    if one.len() != other.len() {
        return false;
    }
    match one.len() {
        0 => true,
        1..=3 => are_bytes_equal(one, other),
        4..=7 => are_halves_equal(one, other),
        _ => are_words_equal(one, other),
    }
}

// By the last, the middle and the first byte.
#[inline(always)]
#[tactic(auto, using(crate::proofs::Eights::few_all))]
fn are_bytes_equal(one: &[u8], other: &[u8]) -> bool
    requires size { length one.now ≡ length other.now }
    requires some { 1 ≤ length one.now }
    requires few { length one.now ≤ 3 }
    ensures { IsTrue result ↔ (one.now ≡ other.now) }
{
    let last = one.len() - 1;
    let middle = one.len() / 2;
    one[last] == other[last] && one[middle] == other[middle] && one[0] == other[0]
}

// By halves of words, which may overlap.
#[inline(always)]
fn are_halves_equal(one: &[u8], other: &[u8]) -> bool
    requires size { length one.now ≡ length other.now }
    requires many { 4 ≤ length one.now }
    requires few { length one.now ≤ 8 }
    ensures { IsTrue result ↔ (one.now ≡ other.now) }
{
    let end = one.len() - 4;
    half_at(one, end) == half_at(other, end) && half_at(one, 0) == half_at(other, 0)
}

// By words of eight bytes; the last two may overlap.
#[inline(always)]
fn are_words_equal(one: &[u8], other: &[u8]) -> bool
    requires size { length one.now ≡ length other.now }
    requires many { 8 ≤ length one.now }
    ensures { IsTrue result ↔ (one.now ≡ other.now) }
{
    let mut left = one.len();
    while left > 8 {
        left -= 8;
        if word_at(one, left) != word_at(other, left) {
            return false;
        }
    }
    word_at(one, 0) == word_at(other, 0)
}

/// The four bytes from this place on as a number.
#[inline(always)]
pub(crate) fn half_at(bytes: &[u8], place: usize) -> u32
    requires { place + 4 ≤ length bytes.now }
    ensures { result ≡ half_at bytes.now place }
{
    u32::from_le_bytes([
        bytes[place],
        bytes[place + 1],
        bytes[place + 2],
        bytes[place + 3],
    ])
}

/// The eight bytes from this place on as a number.
#[inline(always)]
pub(crate) fn word_at(bytes: &[u8], place: usize) -> u64
    requires { place + 8 ≤ length bytes.now }
    ensures { result ≡ word_at bytes.now place }
{
    u64::from_le_bytes([
        bytes[place],
        bytes[place + 1],
        bytes[place + 2],
        bytes[place + 3],
        bytes[place + 4],
        bytes[place + 5],
        bytes[place + 6],
        bytes[place + 7],
    ])
}

/// The same, as the definition tells it.
#[inline(always)]
pub(crate) fn is_same(one: &[u8], other: &[u8]) -> bool
    ensures { result ≡ bytes_eq one.now other.now }
{
    are_equal(one, other)
}

/// Puts a name behind the others and gives its place; where memory is refused nothing changes.
pub fn add(alloc: Global, names: &mut Vec<Name>, word: &[u8]) -> Result<usize, NoMemory>
    ensures place { IfOk result (λ place. place ≡ length names.old.items) }
    ensures added { OnOk result (names.new.items ≡ names.old.items ++ word.now ∷ []) }
    ensures kept { OnErr result (names.new.items ≡ names.old.items) }
{
    let place = names.len();
    let name = Name::of(alloc, word)?;
    names.push(name)?;
    Ok(place)
}

/// Whether texts can have these names: the names of roles differ and are words other than `rec` and `end`, and the
/// names of labels differ and are words.
pub fn sound(names: &Names) -> bool
    ensures means { IsTrue result ↔ spec.IsSound names.now }
    ensures test { result ≡ spec.are_sound names.now }
{
    passes(names)
}

fn passes(names: &Names) -> bool
    ensures { result ≡ spec.are_sound names.now }
{
    let roles = names.roles.as_slice();
    let labels = names.labels.as_slice();
    differ(roles) && are_role_words(roles) && differ(labels) && are_words(labels)
}

fn differ(names: &[Name]) -> bool
    ensures { result ≡ naming.differ names.now }
{
    for (place, name) in names.iter().enumerate() {
        let (_, later) = names.split_at(place + 1);
        if has(later, name.as_slice()) {
            return false;
        }
    }
    true
}

fn has(names: &[Name], word: &[u8]) -> bool
    ensures { result ≡ is_among word.now names.now }
{
    names.iter().any(|name| name.as_slice() == word)
}

fn are_role_words(names: &[Name]) -> bool
    ensures { result ≡ list_all words.is_role_word names.now }
{
    names.iter().all(|name| is_role_word(name.as_slice()))
}

fn are_words(names: &[Name]) -> bool
    ensures { result ≡ list_all words.is_word names.now }
{
    names.iter().all(|name| is_word(name.as_slice()))
}

/// Whether the text is a word other than `rec` and `end`, which may name a role.
pub fn is_role_word(text: &[u8]) -> bool
    ensures { result ≡ words.is_role_word text.now }
{
    is_word(text) && text != b"rec".as_slice() && text != b"end".as_slice()
}

/// Whether the text is a word: a letter or `_`, then letters, digits and `_`, 64 bytes at most.
pub fn is_word(text: &[u8]) -> bool
    ensures { result ≡ words.is_word text.now }
{
    starts_as_word(text) && are_word_bytes(text) && text.len() <= MOST_NAME_BYTES
}

fn starts_as_word(text: &[u8]) -> bool
    ensures { result ≡ begins bytes.is_letter text.now }
{
    match text {
        [first, ..] => is_letter(*first),
        [] => false,
    }
}

fn are_word_bytes(text: &[u8]) -> bool
    ensures { result ≡ list_all bytes.is_word_byte text.now }
{
    text.iter().all(|byte| is_letter(*byte) || is_digit(*byte))
}
