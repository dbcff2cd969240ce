//! Words in one piece of bytes, with a zero between two of them.

ghost use Rattle.std.specs.Prelude.{◌≡◌, ◌==◌, IfOk, IfSome, IfNone, IsUtf8, map, string_bytes};
ghost use Rattle.std.specs.List.{slice_split};
ghost use Rattle.rs_words.specs.Words.{bytes_of_words};
ghost use Rattle.rs_calls.specs.Words.{HasNoText, words_in};

use rs_model::NoMemory;
use std::alloc::{AllocError, Global};

/// The pieces between the zeros, of which there is one at least.
fn split_at_zeros(alloc: Global, bytes: &[u8]) -> Result<Vec<&[u8]>, AllocError>
    ensures { IfOk result (λ v. map (λ x. x.now) v.items ≡ slice_split (λ b. b == 0) bytes.now) }
{
    bytes.split(|byte| *byte == 0).collect(alloc)
}

/// The pieces between the zeros; none where there are no bytes.
#[tactic(auto, using(crate::proofs::Splitting::split_of))]
fn pieces(alloc: Global, bytes: &[u8]) -> Result<Vec<&[u8]>, NoMemory>
    ensures { IfOk result (λ v. map (λ x. x.now) v.items ≡ words_in bytes.now) }
{
    if bytes.is_empty() {
        return Ok(Vec::new(alloc));
    }
    Ok(split_at_zeros(alloc, bytes)?)
}

/// The piece as a word; None where it isn't UTF-8.
fn word_of(alloc: Global, piece: &[u8]) -> Result<Option<String>, NoMemory>
    ensures some { IfOk result (λ found. IfSome found (λ word. string_bytes word ≡ piece.now)) }
    ensures none { IfOk result (λ found. IfNone found (IsUtf8 piece.now → ⊥)) }
{
    match str::from_utf8(piece) {
        Ok(word) => Ok(Some(String::from_str(alloc, word)?)),
        Err(_) => Ok(None),
    }
}

/// The pieces as words; None where one isn't UTF-8.
fn strings(alloc: Global, pieces: &[&[u8]]) -> Result<Option<Vec<String>>, NoMemory>
    ensures some { IfOk result (λ found. IfSome found (λ words. bytes_of_words words.items ≡ map (λ x. x.now) pieces.now)) }
    ensures none { IfOk result (λ found. IfNone found (HasNoText (map (λ x. x.now) pieces.now))) }
{
    let mut words = Vec::new(alloc);
    for piece in pieces {
        match word_of(alloc, piece)? {
            Some(word) => words.push(word)?,
            None => return Ok(None),
        }
    }
    Ok(Some(words))
}

/// The words between the zeros; None where one isn't UTF-8.
pub(crate) fn words_of(alloc: Global, bytes: &[u8]) -> Result<Option<Vec<String>>, NoMemory>
    ensures some { IfOk result (λ found. IfSome found (λ words. bytes_of_words words.items ≡ words_in bytes.now)) }
    ensures none { IfOk result (λ found. IfNone found (HasNoText (words_in bytes.now))) }
{
    let pieces = pieces(alloc, bytes)?;
    strings(alloc, pieces.as_slice())
}
