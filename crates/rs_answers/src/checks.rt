//! What `check` answers to a document.

ghost use Rattle.std.specs.Prelude.{◌≡◌, Some, false, length, map, true, IfOk};
ghost use Rattle.rs_answers.specs.Checks.{Checks};
ghost use Rattle.rs_documents.specs.Canonical.{CanBeShown};
ghost use Rattle.rs_documents.specs.Ready.{DocumentIsReady};

use crate::answers::Answer;
use crate::derivations::derived_session;
use crate::figures::session_figures;
use crate::lines::report_by_figures;
use crate::refusals::refusal_answer;
use crate::shown::show;
use rs_derive::Derivation;
use rs_documents::Document;
use rs_model::{Bound, NoMemory};
use std::alloc::Global;

/// Returns what `check` answers to a document, with a search within the bound: the first reason to refuse it, or, if there is
/// none, the report of its session, with the figures of its derivations.
pub fn check(alloc: Global, document: &Document, bound: Bound) -> Result<Answer, NoMemory>
    requires ready { DocumentIsReady document.now }
    ensures { IfOk result (Checks bound false document.now) }
{
    let names = &document.names;
    match session_figures(alloc, document, bound) {
        Ok(figures) => report_by_figures(alloc, names.roles.as_slice(), figures.as_slice()),
        Err(refusal) => refusal_answer(alloc, names, refusal),
    }
}

/// A derivation for each role.
pub(crate) fn one_for_each_role(
    alloc: Global,
    derivations: Vec<Derivation>,
) -> Result<Vec<Option<Derivation>>, NoMemory>
    ensures { IfOk result (λ own. own.items ≡ map Some derivations.items) }
{
    let mut own = Vec::new(alloc);
    for derivation in derivations {
        own.push(Some(derivation))?;
    }
    Ok(own)
}

/// Returns what `check --derivations` answers to a document, with a search within the bound: the first reason to refuse it,
/// or, if there is none, the document with the derivations that were found, in place of its own.
pub fn check_with_derivations(
    alloc: Global,
    mut document: Document,
    bound: Bound,
) -> Result<Answer, NoMemory>
    requires ready { DocumentIsReady document }
    requires shown { CanBeShown document }
    ensures { IfOk result (Checks bound true document) }
{
    match derived_session(alloc, &document, bound) {
        Ok(session) => {
            document.derivations = one_for_each_role(alloc, session.derivations)?;
            show(alloc, &document)
        }
        Err(refusal) => refusal_answer(alloc, &document.names, refusal),
    }
}
