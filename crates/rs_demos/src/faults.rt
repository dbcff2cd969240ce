//! Why a demo has no actors.

ghost use Rattle.std.specs.Prelude.{◌≡◌};

use rs_model::NoMemory;

/// Why a demo has no actors.
#[derive(Clone, Copy, Debug, PartialEq, Eq)]
pub enum DemoFault {
    /// The bytes aren't the numbers that the demo asks for.
    BadNumbers,
    /// Memory that was asked for was refused.
    NoMemory,
}

impl From<NoMemory> for DemoFault {
    ghost use Rattle.rs_demos.specs.declared.faults.DemoFault.TheVariants as fault;

    ghost from_gives = { λ _ e. e ≡ fault.NoMemory };

    fn from(_refused: NoMemory) -> Self {
        DemoFault::NoMemory
    }
}
