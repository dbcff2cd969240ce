//! Of each act that is owed after a walk the talk behind it, as the walk passes it.

ghost use Rattle.std.specs.Prelude.{◌≡◌, [], IfOk, OnOk, length};
ghost use Rattle.std.specs.List.{remove};
ghost use Rattle.rs_walk_texts.specs.Owing as spec;

use crate::passed::TalkArm;
use crate::sources::{SpotRef, WalkSource};
use crate::walks::{rule_of, spot_before, talks_along};
use rs_derive::Rule;
use rs_explain::WalkStep;
use rs_model::NoMemory;
use std::alloc::Global;

// Takes away what stands at the place, where there is something.
fn take_away(owed: &mut Vec<Option<TalkArm>>, place: usize)
    ensures { owed.new.items ≡ remove owed.old.items place }
{
    if place < owed.len() {
        owed.remove(place);
    }
}

// After a step by the rule, which passes this talk.
fn note_step(
    owed: &mut Vec<Option<TalkArm>>,
    rule: Option<Rule>,
    talk: Option<TalkArm>,
) -> Result<(), NoMemory>
    ensures { OnOk result (owed.new.items ≡ spec.owed_after rule talk owed.old.items) }
{
    match rule {
        Some(Rule::Pays { place, .. }) => take_away(owed, place),
        Some(Rule::Guesses { .. } | Rule::Follows { .. }) => owed.push(talk)?,
        Some(Rule::Stops | Rule::SendsBoth) | None => {}
    }
    Ok(())
}

// After the steps of a walk, which pass these talks.
fn owed_along<'a>(
    alloc: Global,
    source: &WalkSource,
    first: &SpotRef<'a>,
    steps: &'a [WalkStep],
    talks: &[Option<TalkArm>],
) -> Result<Vec<Option<TalkArm>>, NoMemory>
    requires { length talks.now ≡ length steps.now }
    ensures { IfOk result (λ v. v.items ≡ spec.owed_along source.now first.now steps.now talks.now []) }
{
    let mut owed = Vec::new(alloc);
    for i in 0..steps.len() {
        let spot = spot_before(first, steps, i);
        note_step(&mut owed, rule_of(source, &spot), talks[i])?;
    }
    Ok(owed)
}

// After a walk.
fn talks_owed<'a>(
    alloc: Global,
    source: &WalkSource,
    first: &SpotRef<'a>,
    steps: &'a [WalkStep],
) -> Result<Vec<Option<TalkArm>>, NoMemory>
    ensures { IfOk result (λ v. v.items ≡ spec.talks_owed source.now first.now steps.now) }
{
    let talks = talks_along(alloc, source, first, steps)?;
    owed_along(alloc, source, first, steps, talks.as_slice())
}

// The talk behind the newest act that is owed.
fn newest_of(owed: &[Option<TalkArm>]) -> Option<TalkArm>
    ensures { result ≡ spec.newest_talk owed.now }
{
    match owed.get(owed.len().saturating_sub(1)) {
        Some(talk) => *talk,
        None => None,
    }
}

/// The talk behind the newest act that is owed after a walk.
pub(crate) fn newest_talk<'a>(
    alloc: Global,
    source: &WalkSource,
    first: &SpotRef<'a>,
    steps: &'a [WalkStep],
) -> Result<Option<TalkArm>, NoMemory>
    ensures { IfOk result (λ t. t ≡ spec.newest_talk (spec.talks_owed source.now first.now steps.now)) }
{
    let owed = talks_owed(alloc, source, first, steps)?;
    Ok(newest_of(owed.as_slice()))
}
