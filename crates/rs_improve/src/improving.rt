//! A machine that is swapped as far as is asked.

ghost use Rattle.std.specs.Prelude.{◌<◌, ◌≡◌, ◌≤◌, IfErr, IfOk};
ghost use Rattle.rs_derive.specs.Derivations.{IsDerivation, IsProper, Remembers};
ghost use Rattle.rs_search.specs.Canonical.{IsCanonical};
ghost use Rattle.rs_improve.specs.Attempts.{IsAttempt, IsSearched, IsSwappedSoFar};
ghost use Rattle.rs_improve.specs.Improved.{IsImproved, RefusesToImprove};

use crate::swaps::{SwapAnswer, swap};
use rs_derive::Derivation;
use rs_model::{Machine, NoMemory};
use rs_search::{SearchFault, search};
use std::alloc::Global;
use std::marker::Model;

/// Why a machine isn't swapped again.
#[derive(Clone, Copy, Debug, PartialEq, Eq)]
pub enum Ceased {
    /// The number of swaps that was asked for was made.
    Asked,
    /// No state can be swapped.
    NoSwap,
    /// The next machine would have more than 1,024 states.
    TooManyStates,
    /// The next machine has more than 65,536 candidates.
    TooLarge,
    /// The search finds no derivation of the next machine within the bound; `cut` as in `SearchFault`.
    NotFound { cut: bool },
    /// The canonical derivation of the next machine forgets, at this node.
    Forgets { node: u32 },
}

/// A machine that sends earlier than the one that it was made from, with its derivation from that one.
#[derive(Drop, Debug)]
pub struct Improved {
    pub machine: Machine,
    /// How many swaps were made.
    pub swaps: u32,
    pub ceased: Ceased,
    pub derivation: Derivation,
}

impl Model for Improved {
    ghost use Rattle.rs_improve.specs.Data.{Improved_data};

    ghost Value = { Improved_data };

    ghost view = { λ i. record { machine = i.machine; swaps = i.swaps; ceased = i.ceased; derivation = i.derivation } };
}

/// Why a machine can't be improved.
#[derive(Clone, Copy, Debug, PartialEq, Eq)]
pub enum ImproveFault {
    /// There are more than 65,536 candidates for a derivation of the machine from itself.
    TooLarge,
    /// Memory was refused.
    NoMemory,
}

impl From<NoMemory> for ImproveFault {
    ghost use Rattle.std.specs.Prelude.{◌≡◌};
    ghost use Rattle.rs_improve.specs.declared.improving.ImproveFault.TheVariants.{NoMemory};

    ghost from_gives = { λ _ e. e ≡ NoMemory };

    fn from(_refused: NoMemory) -> Self {
        ImproveFault::NoMemory
    }
}

// The result of one more swap: the next machine with its derivation, or why there is none.
#[derive(Drop)]
pub(crate) enum Attempt {
    Ceases {
        reason: Ceased,
    },
    Succeeds {
        machine: Machine,
        derivation: Derivation,
    },
}

/// Swaps the machine `above` as often as is asked, or until no state can be swapped, the next machine has more than 1,024
/// states, or the search refuses the next machine: it has too many candidates, no derivation from `above` within the
/// bound, or a canonical derivation that forgets. The bound isn't 0.
///
/// The errors are `TooLarge`, if the machine has too many candidates against itself, and `NoMemory`.
pub fn improve(
    alloc: Global,
    above: &Machine,
    bound: u8,
    asked: u32,
) -> Result<Improved, ImproveFault>
    requires proper { IsProper above.now }
    requires some { 0 < bound }
    ensures improved { IfOk result (IsImproved above.now bound asked) }
    ensures proper { IfOk result (λ i. IsProper i.machine) }
    ensures follows { IfOk result (λ i. IsDerivation i.derivation i.machine above.now) }
    ensures remembers { IfOk result (λ i. Remembers i.derivation i.machine above.now) }
    ensures fault { IfErr result (RefusesToImprove above.now bound) }
{
    let derivation = derive_itself(alloc, above, bound)?;
    match attempt_swap(alloc, above, bound, asked, 0, above)? {
        Attempt::Ceases { reason } => Ok(Improved {
            machine: above.copy(alloc)?,
            swaps: 0,
            ceased: reason,
            derivation,
        }),
        Attempt::Succeeds {
            machine,
            derivation,
        } => Ok(improve_on(alloc, above, bound, asked, machine, derivation)?),
    }
}

// The derivation of the machine from itself; it has one, unless there are too many candidates.
fn derive_itself(alloc: Global, machine: &Machine, bound: u8) -> Result<Derivation, ImproveFault>
    requires proper { IsProper machine.now }
    requires some { 0 < bound }
    ensures ok { IfOk result (IsCanonical machine.now machine.now bound) }
    ensures err { IfErr result (RefusesToImprove machine.now bound) }
{
    match search(alloc, machine, machine, bound) {
        Ok(derivation) => Ok(derivation),
        Err(SearchFault::TooLarge) => Err(ImproveFault::TooLarge),
        Err(SearchFault::NoMemory) => Err(ImproveFault::NoMemory),
        Err(SearchFault::NotFound { .. }) => unreachable!(),
        Err(SearchFault::Forgets { .. }) => unreachable!(),
    }
}

// Goes on from the machine to which one swap led.
fn improve_on(
    alloc: Global,
    above: &Machine,
    bound: u8,
    asked: u32,
    first: Machine,
    derivation: Derivation,
) -> Result<Improved, NoMemory>
    requires above { IsProper above.now }
    requires once { IsSwappedSoFar above.now bound asked 1 first derivation }
    ensures improved { IfOk result (IsImproved above.now bound asked) }
    ensures proper { IfOk result (λ i. IsProper i.machine) }
{
    let mut machine = first;
    let mut derivation = derivation;
    let mut swaps = 1;
    loop {
        match attempt_swap(alloc, above, bound, asked, swaps, &machine)? {
            Attempt::Ceases { reason } => {
                return Ok(Improved {
                    machine,
                    swaps,
                    ceased: reason,
                    derivation,
                });
            }
            Attempt::Succeeds {
                machine: next,
                derivation: found,
            } => {
                machine = next;
                derivation = found;
                swaps += 1;
            }
        }
    }
}

// Swaps the machine, to which n swaps led, once more.
fn attempt_swap(
    alloc: Global,
    above: &Machine,
    bound: u8,
    asked: u32,
    swaps: u32,
    machine: &Machine,
) -> Result<Attempt, NoMemory>
    requires above { IsProper above.now }
    requires proper { IsProper machine.now }
    requires most { swaps ≤ asked }
    ensures { IfOk result (IsAttempt above.now bound asked swaps machine.now) }
{
    if swaps == asked {
        return Ok(Attempt::Ceases {
            reason: Ceased::Asked,
        });
    }
    match swap(alloc, machine)? {
        SwapAnswer::Nothing => Ok(Attempt::Ceases {
            reason: Ceased::NoSwap,
        }),
        SwapAnswer::TooManyStates => Ok(Attempt::Ceases {
            reason: Ceased::TooManyStates,
        }),
        SwapAnswer::To { machine: next } => derive_next(alloc, next, above, bound),
    }
}

// The next machine with its derivation, or why there is none.
fn derive_next(
    alloc: Global,
    next: Machine,
    above: &Machine,
    bound: u8,
) -> Result<Attempt, NoMemory>
    requires proper { IsProper next }
    requires above { IsProper above.now }
    ensures { IfOk result (IsSearched next above.now bound) }
{
    let reason = match search(alloc, &next, above, bound) {
        Ok(derivation) => {
            return Ok(Attempt::Succeeds {
                machine: next,
                derivation,
            });
        }
        Err(SearchFault::TooLarge) => Ceased::TooLarge,
        Err(SearchFault::NotFound { cut }) => Ceased::NotFound { cut },
        Err(SearchFault::Forgets { node }) => Ceased::Forgets { node },
        Err(SearchFault::NoMemory) => return Err(NoMemory),
    };
    Ok(Attempt::Ceases { reason })
}
