//! The numbers of an input.

ghost use Rattle.std.specs.Prelude.{◌≡◌, ◌<◌, ◌^◌, ℤ, FitsSigned, IfErr, IfNone, IfOk, IfSome, OnOk, ◌++◌, ◌∷◌, []};
ghost use Rattle.std.specs.Int.{w64};
ghost use Rattle.std.specs.Str.Parse.{digits_value};
ghost use Rattle.rs_demos.specs.Numbers.{IsNumber, SpellsNumbers, is_blank, with_sign};
ghost use Rattle.rs_demos.specs.Reading.{AreDigits, SpellsNone, behind_blanks, blanks_before, word_len};

use crate::faults::DemoFault;
use rs_model::NoMemory;
use std::alloc::Global;

fn is_blank(byte: u8) -> bool
    ensures { result ≡ is_blank byte }
{
    byte == b' ' || byte == b'\t' || byte == b'\r' || byte == b'\n'
}

fn blanks_before(bytes: &[u8]) -> usize
    ensures { result ≡ blanks_before bytes.now }
{
    bytes.iter().take_while(|byte| is_blank(**byte)).count()
}

fn word_len(bytes: &[u8]) -> usize
    ensures { result ≡ word_len bytes.now }
{
    bytes.iter().take_while(|byte| !is_blank(**byte)).count()
}

fn behind_blanks(bytes: &[u8]) -> &[u8]
    ensures { result.now ≡ behind_blanks bytes.now }
{
    bytes.split_at(blanks_before(bytes)).1
}

/// The number that the digits write, where they can be those of a number.
fn magnitude_of(digits: &[u8]) -> Option<u128>
    ensures some { IfSome result (λ n. n ≡ digits_value 10 digits.now) }
    ensures digits { IfSome result (λ n. AreDigits digits.now) }
    ensures none { IfNone result (AreDigits digits.now → ⊥) }
{
    if digits.is_empty() || digits.len() > 20 {
        return None;
    }
    let mut number = 0;
    for digit in digits {
        if !digit.is_ascii_digit() {
            return None;
        }
        number = number * 10 + u128::from(*digit - b'0');
    }
    Some(number)
}

/// The number with its sign, where 64 bits hold it.
fn signed(minus: bool, magnitude: u128) -> Option<i64>
    requires { magnitude < 10 ^ 20 }
    ensures some { IfSome result (λ z. z ≡ with_sign minus magnitude) }
    ensures none { IfNone result (FitsSigned w64 (with_sign minus magnitude) → ⊥) }
{
    let magnitude = magnitude as i128;
    i64::try_from(if minus { -magnitude } else { magnitude }).ok()
}

/// The number that the bytes write, if any.
fn number_of(word: &[u8]) -> Option<i64>
    ensures some { IfSome result (λ z. IsNumber word.now z) }
    ensures none { IfNone result ((z : ℤ) → IsNumber word.now z → ⊥) }
{
    let (minus, digits) = match word.split_first() {
        Some((b'-', digits)) => (true, digits),
        _ => (false, word),
    };
    signed(minus, magnitude_of(digits)?)
}

/// The numbers that the bytes spell, with blanks between them.
pub(crate) fn numbers_of(alloc: Global, bytes: &[u8]) -> Result<Vec<i64>, DemoFault>
    ensures ok { IfOk result (λ numbers. SpellsNumbers numbers.items bytes.now) }
    ensures err { IfErr result (λ e. SpellsNone bytes.now e) }
{
    let mut numbers = Vec::new(alloc);
    let mut left = behind_blanks(bytes);
    while !left.is_empty() {
        let (word, behind) = left.split_at(word_len(left));
        let Some(number) = number_of(word) else {
            return Err(DemoFault::BadNumbers);
        };
        push(&mut numbers, number)?;
        left = behind_blanks(behind);
    }
    Ok(numbers)
}

fn push(numbers: &mut Vec<i64>, number: i64) -> Result<(), NoMemory>
    ensures { OnOk result (numbers.new.items ≡ numbers.old.items ++ number ∷ []) }
{
    numbers.push(number)?;
    Ok(())
}
