//! The dashes at the begin of words: clap would take some words that the program doesn't.

ghost use Rattle.std.specs.Prelude.{◌≡◌, false};
ghost use Rattle.rs_words.specs.Clap as spec;
ghost use Rattle.rs_words.specs.Grammar.{begins_with_dash};
ghost use Rattle.rs_words.specs.Words.{bytes_of_words};

/// Whether the word begins with `-`.
fn begins_with_dash(word: &str) -> bool
    ensures { result ≡ begins_with_dash word.now }
{
    match word.as_bytes() {
        [] => false,
        [first, ..] => *first == b'-',
    }
}

/// Whether the word begins with `--`.
fn begins_with_two_dashes(word: &str) -> bool
    ensures { result ≡ spec.begins_with_two_dashes word.now }
{
    match word.as_bytes() {
        [] => false,
        [_] => false,
        [first, second, ..] => *first == b'-' && *second == b'-',
    }
}

/// Whether the word may stand behind the word `--`, or before it.
fn dash_is_allowed(behind: bool, word: &str) -> bool
    ensures { result ≡ spec.dash_is_allowed behind word.now }
{
    if behind {
        !begins_with_dash(word)
    } else {
        !begins_with_dash(word) || begins_with_two_dashes(word)
    }
}

/// Whether no word begins with one dash alone, and none behind the word `--` with a dash at all.
pub(crate) fn dashes_are_allowed(words: &[String]) -> bool
    ensures { result ≡ spec.dashes_are_allowed (bytes_of_words words.now) false }
{
    let mut behind = false;
    for word in words {
        if !dash_is_allowed(behind, word.as_str()) {
            return false;
        }
        behind = behind || word.as_str() == "--";
    }
    true
}
