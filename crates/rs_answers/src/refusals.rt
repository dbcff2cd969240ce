//! Why a document is refused.

ghost use Rattle.std.specs.Prelude.{◌≡◌, IfOk, OnOk};
ghost use Rattle.rs_answers.specs.Refusals as spec;

use crate::answers::Answer;
use crate::derivations::Underivable;
use crate::refusal_texts::{blame_answer, machine_answer, proj_answer, search_answer, wf_answer};
use crate::verifying::Blame;
use rs_model::{MachineFault, Names, NoMemory, Role};
use rs_project::ProjFault;
use rs_search::SearchFault;
use rs_wellformed::WfFault;
use std::alloc::Global;

/// Why a document is refused.
#[derive(Drop, Debug)]
pub enum Refusal {
    /// The protocol isn't well formed.
    IllFormed(WfFault),
    /// The protocol has no projection onto a role.
    Unprojectable(ProjFault),
    /// The role's machine isn't well formed.
    IllMachine { role: Role, fault: MachineFault },
    /// No derivation of a role's machine is found.
    Underivable(Underivable),
    /// A role's own derivation doesn't show that its machine may stand for its projection.
    Blamed { role: Role, blame: Blame },
    /// Memory was refused, and nothing is said of the document.
    NoMemory,
}

impl From<NoMemory> for Refusal {
    ghost use Rattle.std.specs.Prelude.{◌≡◌};
    ghost use Rattle.rs_answers.specs.declared.refusals.Refusal.TheVariants.{NoMemory};

    ghost from_gives = { λ _ e. e ≡ NoMemory };

    fn from(_refused: NoMemory) -> Self {
        Refusal::NoMemory
    }
}

impl From<WfFault> for Refusal {
    ghost use Rattle.std.specs.Prelude.{◌≡◌};
    ghost use Rattle.rs_answers.specs.declared.refusals.Refusal.TheVariants.{IllFormed};

    ghost from_gives = { λ fault e. e ≡ IllFormed fault };

    fn from(fault: WfFault) -> Self {
        Refusal::IllFormed(fault)
    }
}

impl From<ProjFault> for Refusal {
    ghost use Rattle.std.specs.Prelude.{◌≡◌};
    ghost use Rattle.rs_answers.specs.Refusals.{of_projecting};

    ghost from_gives = { λ fault e. e ≡ of_projecting fault };

    fn from(fault: ProjFault) -> Self {
        match fault {
            ProjFault::NoMemory => Refusal::NoMemory,
            _ => Refusal::Unprojectable(fault),
        }
    }
}

impl From<Underivable> for Refusal {
    ghost use Rattle.std.specs.Prelude.{◌≡◌};
    ghost use Rattle.rs_answers.specs.Refusals.{of_searching};

    ghost from_gives = { λ u e. e ≡ of_searching u.role u.fault };

    fn from(underivable: Underivable) -> Self {
        match underivable.fault {
            SearchFault::NoMemory => Refusal::NoMemory,
            _ => Refusal::Underivable(underivable),
        }
    }
}

/// The answer to a document that is refused; no answer if memory ran out.
pub fn refusal_answer(alloc: Global, names: &Names, refusal: Refusal) -> Result<Answer, NoMemory>
    ensures answer { IfOk result (λ a. a ≡ spec.refusal_answer names.now refusal) }
    ensures memory { OnOk result (refusal ≡ Refusal.NoMemory → ⊥) }
{
    match refusal {
        Refusal::IllFormed(fault) => wf_answer(alloc, names, fault),
        Refusal::Unprojectable(fault) => proj_answer(alloc, names, fault),
        Refusal::IllMachine { role, fault } => machine_answer(alloc, names, role, fault),
        Refusal::Underivable(underivable) => {
            search_answer(alloc, names, underivable.role, underivable.fault)
        }
        Refusal::Blamed { role, blame } => blame_answer(alloc, names, role, blame),
        Refusal::NoMemory => Err(NoMemory),
    }
}
