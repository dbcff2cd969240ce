//! What is told of a machine of which the search meets too many candidates: what a search within a lesser bound finds.

ghost use Rattle.std.specs.Prelude.{◌≡◌, ◌≤◌, ◌++◌, IfOk};
ghost use Rattle.rs_derive.specs.Derivations.{IsProper};
ghost use Rattle.rs_model.specs.declared.limits.TheConstants.{MOST_BOUND};
ghost use Rattle.rs_reasons.specs.Underivable as spec;
ghost use Rattle.rs_search.specs.Canonical.{SearchRefuses};

use crate::underivable::{forgets_text, not_found_text, push_accepted, push_refused};
use rs_model::NoMemory;
use rs_search::{SearchFault, search};
use rs_text::Text;
use rs_walk_texts::WalkSource;
use std::alloc::Global;

// That the role's machine is accepted with this bound.
fn accepted_text(alloc: Global, source: &WalkSource, bound: u8) -> Result<Text, NoMemory>
    ensures { IfOk result (λ text. text ≡ spec.accepted_line source.now bound) }
{
    let mut text = Text::new(alloc);
    push_accepted(&mut text, source, bound)?;
    Ok(text)
}

// That it isn't accepted with this bound either, and why.
fn refused_text(
    alloc: Global,
    source: &WalkSource,
    bound: u8,
    reason: &Text,
) -> Result<Text, NoMemory>
    ensures { IfOk result (λ text. text ≡ spec.refused_line source.now bound ++ reason.now) }
{
    let mut text = Text::new(alloc);
    push_refused(&mut text, source, bound)?;
    text.push(reason.as_slice())?;
    Ok(text)
}

// What is told of a search within this bound that finds none, by the reason; nothing of too many candidates.
fn reason_text(
    alloc: Global,
    source: &WalkSource,
    bound: u8,
    fault: SearchFault,
) -> Result<Option<Text>, NoMemory>
    requires ours { IsProper source.now.machine }
    requires theirs { IsProper source.now.projection.machine }
    requires refused { SearchRefuses source.now.machine source.now.projection.machine bound fault }
    requires within { bound ≤ MOST_BOUND }
    ensures { IfOk result (spec.TellsReason source.now bound fault) }
{
    match fault {
        SearchFault::NotFound { cut } => {
            let reason = not_found_text(alloc, source, bound, cut)?;
            Ok(Some(reason))
        }
        SearchFault::Forgets { node } => {
            let reason = forgets_text(alloc, source, bound, node)?;
            Ok(Some(reason))
        }
        SearchFault::TooLarge => Ok(None),
        SearchFault::NoMemory => Err(NoMemory),
    }
}

// What is told of the reason why a search within this bound finds none.
fn with_reason(
    alloc: Global,
    source: &WalkSource,
    bound: u8,
    fault: SearchFault,
) -> Result<Option<Text>, NoMemory>
    requires ours { IsProper source.now.machine }
    requires theirs { IsProper source.now.projection.machine }
    requires refused { SearchRefuses source.now.machine source.now.projection.machine bound fault }
    requires within { bound ≤ MOST_BOUND }
    ensures { IfOk result (spec.TellsWithin source.now bound) }
{
    match reason_text(alloc, source, bound, fault)? {
        Some(reason) => {
            let text = refused_text(alloc, source, bound, &reason)?;
            Ok(Some(text))
        }
        None => Ok(None),
    }
}

// What is told of a search within this bound, and nothing where it meets too many candidates.
fn within_text(alloc: Global, source: &WalkSource, bound: u8) -> Result<Option<Text>, NoMemory>
    requires ours { IsProper source.now.machine }
    requires theirs { IsProper source.now.projection.machine }
    requires within { bound ≤ MOST_BOUND }
    ensures { IfOk result (spec.TellsWithin source.now bound) }
{
    let projection = source.projection;
    match search(alloc, source.machine, &projection.machine, bound) {
        Ok(_) => {
            let text = accepted_text(alloc, source, bound)?;
            Ok(Some(text))
        }
        Err(fault) => with_reason(alloc, source, bound, fault),
    }
}

// What is told of the first of these bounds that is less and within which there aren't too many candidates.
fn first_lesser(
    alloc: Global,
    source: &WalkSource,
    bound: u8,
    bounds: &[u8],
) -> Result<Text, NoMemory>
    requires ours { IsProper source.now.machine }
    requires theirs { IsProper source.now.projection.machine }
    requires within { bound ≤ MOST_BOUND }
    ensures { IfOk result (spec.TellsTooLarge source.now bound bounds.now) }
{
    for lesser in bounds {
        if *lesser < bound {
            if let Some(text) = within_text(alloc, source, *lesser)? {
                return Ok(text);
            }
        }
    }
    Ok(Text::new(alloc))
}

/// What is told of a machine of which the search meets too many candidates within the bound. Refused memory is the only error.
pub(crate) fn too_large_text(
    alloc: Global,
    source: &WalkSource,
    bound: u8,
) -> Result<Text, NoMemory>
    requires ours { IsProper source.now.machine }
    requires theirs { IsProper source.now.projection.machine }
    requires within { bound ≤ MOST_BOUND }
    ensures { IfOk result (spec.TellsTooLarge source.now bound spec.lesser_bounds) }
{
    first_lesser(alloc, source, bound, &[8, 4, 2, 1])
}
