//! The numbers among the words.

ghost use Rattle.std.specs.Prelude.{◌≡◌, IfOk, IfSome, option_map};
ghost use Rattle.rs_model.specs.Limits.{IsFromTo};
ghost use Rattle.rs_words.specs.Meaning as spec;

use crate::limits::{DEFAULT_DRAWN_LIMIT, DEFAULT_LIMIT, MOST_LIMIT, MOST_SEED, MOST_SWAPS};
use rs_model::{
    Bound, Capacity, Crew, DEFAULT_BOUND, MOST_BOUND, MOST_CAPACITY, MOST_WORKERS, Workers,
};
use std::alloc::{AllocError, Global};

/// The number whose decimal text this is, where it lies from the low one to the high one.
pub(crate) fn number_in(
    alloc: Global,
    low: u32,
    high: u32,
    text: &str,
) -> Result<Option<u32>, AllocError>
    ensures value { IfOk result (λ r. r ≡ spec.number_from_to low high text.now) }
    ensures range { IfOk result (λ r. IfSome r (IsFromTo low high)) }
{
    let Ok(number) = text.parse::<u32>() else {
        return Ok(None);
    };
    if number < low || number > high {
        return Ok(None);
    }
    let written = number.to_string(alloc)?;
    if written.as_str() == text {
        Ok(Some(number))
    } else {
        Ok(None)
    }
}

/// The same, or the first number where no text is given.
fn number_or(
    alloc: Global,
    fallback: u32,
    low: u32,
    high: u32,
    text: Option<&str>,
) -> Result<Option<u32>, AllocError>
    requires { IsFromTo low high fallback }
    ensures value { IfOk result (λ r. r ≡ spec.number_or_else fallback low high (option_map (λ s. s.now) text.entry)) }
    ensures range { IfOk result (λ r. IfSome r (IsFromTo low high)) }
{
    match text {
        None => Ok(Some(fallback)),
        Some(text) => number_in(alloc, low, high, text),
    }
}

/// The same, or no number where no text is given.
fn optional_in(
    alloc: Global,
    low: u32,
    high: u32,
    text: Option<&str>,
) -> Result<Option<Option<u32>>, AllocError>
    ensures value { IfOk result (λ r. r ≡ spec.optional_in low high (option_map (λ s. s.now) text.entry)) }
    ensures range { IfOk result (λ r. IfSome r (λ o. IfSome o (IsFromTo low high))) }
{
    match text {
        None => Ok(Some(None)),
        Some(text) => match number_in(alloc, low, high, text)? {
            None => Ok(None),
            Some(number) => Ok(Some(Some(number))),
        },
    }
}

/// The bound of a search.
pub(crate) fn bound_in(alloc: Global, text: Option<&str>) -> Result<Option<Bound>, AllocError>
    ensures { IfOk result (λ r. r ≡ spec.bound_of_option (option_map (λ s. s.now) text.entry)) }
{
    match number_or(alloc, u32::from(DEFAULT_BOUND), 1, MOST_BOUND as u32, text)? {
        None => Ok(None),
        Some(number) => Ok(Bound::new(number as u8)),
    }
}

/// Who makes the turns of a run.
pub(crate) fn workers_in(alloc: Global, text: Option<&str>) -> Result<Option<Workers>, AllocError>
    ensures { IfOk result (λ r. r ≡ spec.workers_in (option_map (λ s. s.now) text.entry)) }
{
    match number_or(alloc, 1, 1, MOST_WORKERS, text)? {
        None => Ok(None),
        Some(1) => Ok(Some(Workers::One)),
        Some(number) => match Crew::new(number as u8) {
            Some(crew) => Ok(Some(Workers::Several(crew))),
            None => Ok(None),
        },
    }
}

/// The capacity of the rings, where one is given.
pub(crate) fn ring_in(
    alloc: Global,
    text: Option<&str>,
) -> Result<Option<Option<Capacity>>, AllocError>
    ensures { IfOk result (λ r. r ≡ spec.ring_in (option_map (λ s. s.now) text.entry)) }
{
    match optional_in(alloc, 1, MOST_CAPACITY, text)? {
        None => Ok(None),
        Some(None) => Ok(Some(None)),
        Some(Some(number)) => match Capacity::new(number as u16) {
            Some(capacity) => Ok(Some(Some(capacity))),
            None => Ok(None),
        },
    }
}

/// The most acts of each role.
pub(crate) fn limit_in(alloc: Global, text: Option<&str>) -> Result<Option<u32>, AllocError>
    ensures { IfOk result (λ r. r ≡ spec.limit_in (option_map (λ s. s.now) text.entry)) }
{
    number_or(alloc, DEFAULT_LIMIT, 1, MOST_LIMIT, text)
}

/// The most acts of each role in a run that is drawn.
pub(crate) fn drawn_limit_in(alloc: Global, text: Option<&str>) -> Result<Option<u32>, AllocError>
    ensures { IfOk result (λ r. r ≡ spec.drawn_limit_in (option_map (λ s. s.now) text.entry)) }
{
    number_or(alloc, DEFAULT_DRAWN_LIMIT, 1, MOST_LIMIT, text)
}

/// The most swaps of an improvement.
pub(crate) fn swaps_in(alloc: Global, text: Option<&str>) -> Result<Option<u32>, AllocError>
    ensures { IfOk result (λ r. r ≡ spec.swaps_in (option_map (λ s. s.now) text.entry)) }
{
    number_or(alloc, 1, 1, MOST_SWAPS, text)
}

/// The seed of the actors' choices.
pub(crate) fn seed_in(alloc: Global, text: Option<&str>) -> Result<Option<u32>, AllocError>
    ensures { IfOk result (λ r. r ≡ spec.seed_in (option_map (λ s. s.now) text.entry)) }
{
    number_or(alloc, 0, 0, MOST_SEED, text)
}
