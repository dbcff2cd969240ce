//! What words name.

ghost use Rattle.std.specs.Prelude.{◌≡◌};
ghost use Rattle.rs_text.specs.Names.{is_among};
ghost use Rattle.rs_text.specs.Seen.{sort_named};

use crate::names::is_same;
use rs_model::{Name, Sort};

/// The sort with this name.
pub fn sort(word: &[u8]) -> Option<Sort>
    ensures { result ≡ sort_named word.now }
{
    if is_same(word, b"unit".as_slice()) {
        Some(Sort::Unit)
    } else if is_same(word, b"bool".as_slice()) {
        Some(Sort::Flag)
    } else if is_same(word, b"nat".as_slice()) {
        Some(Sort::Natural)
    } else if is_same(word, b"int".as_slice()) {
        Some(Sort::Whole)
    } else if is_same(word, b"bytes".as_slice()) {
        Some(Sort::Octets)
    } else if is_same(word, b"list".as_slice()) {
        Some(Sort::Numbers)
    } else {
        None
    }
}

/// Whether the name is among the names.
pub fn is_among(names: &[Name], word: &[u8]) -> bool
    ensures { result ≡ is_among word.now names.now }
{
    names.iter().any(|name| is_same(name.as_slice(), word))
}
