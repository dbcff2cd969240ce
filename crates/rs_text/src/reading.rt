//! Why a reading of a text stops, and what is told of it.

ghost use Rattle.std.specs.Prelude.{◌≡◌, Err};
ghost use Rattle.rs_text.specs.Readings as spec;

use crate::{TextFault, TextKind, TokenFault, Wanted};
use rs_model::NoMemory;
use std::alloc::{AllocError, AllocFailed};

/// Why a reading stops.
#[derive(Clone, Copy, Debug, PartialEq, Eq)]
pub enum Stop {
    /// Memory that was asked for was refused.
    Memory,
    /// A fault of the text.
    Fault(TextFault),
}

impl Stop {
    /// The fault that is told of a reading that began at the offset `at`: a refusal of memory stands there.
    pub fn into_fault(self, at: usize) -> TextFault
        ensures { result ≡ spec.fault_of_stop self at }
    {
        match self {
            Stop::Fault(fault) => fault,
            Stop::Memory => TextFault {
                kind: TextKind::NoMemory,
                at,
            },
        }
    }
}

impl From<NoMemory> for Stop {
    ghost use Rattle.std.specs.Prelude.{◌≡◌};
    ghost use Rattle.rs_text.specs.declared.reading.Stop.TheVariants as stops;

    ghost from_gives = { λ _ e. e ≡ stops.Memory };

    fn from(_refused: NoMemory) -> Self {
        Stop::Memory
    }
}

impl From<AllocError> for Stop {
    ghost use Rattle.std.specs.Prelude.{◌≡◌};
    ghost use Rattle.rs_text.specs.declared.reading.Stop.TheVariants as stops;

    ghost from_gives = { λ _ e. e ≡ stops.Memory };

    fn from(_error: AllocError) -> Self {
        Stop::Memory
    }
}

impl<T: Drop> From<AllocFailed<T>> for Stop {
    ghost use Rattle.std.specs.Prelude.{◌≡◌};
    ghost use Rattle.rs_text.specs.declared.reading.Stop.TheVariants as stops;

    ghost from_gives = { λ _ e. e ≡ stops.Memory };

    fn from(_refused: AllocFailed<T>) -> Self {
        Stop::Memory
    }
}

impl From<TokenFault> for Stop {
    ghost use Rattle.std.specs.Prelude.{◌≡◌};
    ghost use Rattle.rs_text.specs.Faults.{kind_of};
    ghost use Rattle.rs_text.specs.declared.reading.Stop.TheVariants as stops;

    ghost from_gives = { λ fault e. e ≡ stops.Fault (record { kind = kind_of fault.kind; at = fault.at }) };

    fn from(fault: TokenFault) -> Self {
        Stop::Fault(TextFault::from(fault))
    }
}

/// Refuses a token for this fault.
pub fn fault<T>(kind: TextKind, at: usize) -> Result<T, Stop>
    ensures { result ≡ Err (Stop.Fault (record { kind = kind; at = at })) }
{
    Err(Stop::Fault(TextFault { kind, at }))
}

/// Refuses a token where something else is wanted.
pub fn expected<T>(wanted: Wanted, at: usize) -> Result<T, Stop>
    ensures { result ≡ Err (Stop.Fault (record { kind = TextKind.Expected wanted; at = at })) }
{
    fault(TextKind::Expected(wanted), at)
}
