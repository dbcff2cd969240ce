//! The report of an accepted session.

ghost use Rattle.std.specs.Prelude.{◌≡◌, All, IfOk, map};
ghost use Rattle.rs_safety.specs.Figures as figures;
ghost use Rattle.rs_safety.specs.Figures.{OwesFew};
ghost use Rattle.rs_answers.specs.Report as spec;

use crate::answers::Answer;
use crate::lines::report_by_figures;
use rs_derive::Derivation;
use rs_model::{Name, NoMemory};
use rs_safety::{Figures, figures_of};
use std::alloc::Global;

/// The figures of each derivation.
fn all_figures(alloc: Global, derivations: &[Derivation]) -> Result<Vec<Figures>, NoMemory>
    requires { All OwesFew derivations.now }
    ensures { IfOk result (λ all. all.items ≡ map figures.figures_of derivations.now) }
{
    let mut all = Vec::new(alloc);
    for derivation in derivations {
        all.push(figures_of(derivation))?;
    }
    Ok(all)
}

/// The report of an accepted session, from its derivations.
pub fn report(alloc: Global, names: &[Name], derivations: &[Derivation]) -> Result<Answer, NoMemory>
    requires { All OwesFew derivations.now }
    ensures { IfOk result (λ a. a ≡ spec.report names.now derivations.now) }
{
    let all = all_figures(alloc, derivations)?;
    report_by_figures(alloc, names, all.as_slice())
}
