//! What is told of a machine of which no derivation is found.

ghost use Rattle.std.specs.Prelude.{◌≡◌, ◌≤◌, ◌++◌, codes, false, true, slice_get, IfOk, OnOk};
ghost use Rattle.std.specs.Fmt.{decimal};
ghost use Rattle.rs_derive.specs.Derivations.{IsProper};
ghost use Rattle.rs_explain.specs.Explanations.{IsExplanation};
ghost use Rattle.rs_model.specs.declared.limits.TheConstants.{MOST_BOUND};
ghost use Rattle.rs_search.specs.Canonical.{IsCanonical, IsForgets, IsNotFound, SearchRefuses};
ghost use Rattle.rs_text.specs.NamePlaces.{name_at};
ghost use Rattle.rs_reasons.specs.Underivable as spec;

use crate::lesser::too_large_text;
use rs_derive::Derivation;
use rs_explain::{
    Ending, Explanation, Forgetting, WalkStep, explain, explain_cut, explain_forgets,
    grows_for_ever, is_forced,
};
use rs_model::{Act, MOST_BOUND, Names, NoMemory};
use rs_prefix::Pending;
use rs_safety::figures_of;
use rs_search::{SearchFault, search};
use rs_text::Text;
use rs_text::shown::push_name;
use rs_walk_texts::{
    SpotRef, WalkSource, push_act, push_dues, push_hints, push_owed_line, push_steps, push_stop,
    push_walk,
};
use std::alloc::Global;

// Why a walk that begins at the spot ends, and what may help to find the mistake.
fn push_end<'a>(
    alloc: Global,
    text: &mut Text,
    source: &WalkSource,
    first: &SpotRef<'a>,
    steps: &'a [WalkStep],
    ending: Ending,
    bound: u8,
) -> Result<(), NoMemory>
    ensures { OnOk result (text.new ≡ text.old ++ spec.end_text source.now first.now steps.now ending bound) }
{
    let mut state = first.state;
    let mut pending = first.pending;
    let mut above = first.above;
    for step in steps {
        state = step.state;
        pending = &step.pending;
        above = step.above;
    }
    let end = SpotRef {
        state,
        pending,
        above,
    };
    push_stop(text, source, &end, ending, bound)?;
    push_hints(alloc, text, source, first, steps, &end, ending)
}

// The steps of a walk from the start, and why it ends.
fn push_way(
    alloc: Global,
    text: &mut Text,
    source: &WalkSource,
    bound: u8,
    steps: &[WalkStep],
    ending: Ending,
) -> Result<(), NoMemory>
    ensures { OnOk result (text.new ≡ text.old ++ spec.way_text source.now bound steps.now ending) }
{
    let machine = source.machine;
    let projection = source.projection;
    push_walk(alloc, text, source, steps)?;
    let pending = Pending::new(alloc);
    let start = SpotRef {
        state: machine.start,
        pending: &pending,
        above: projection.machine.start,
    };
    push_end(alloc, text, source, &start, steps, ending, bound)
}

// The name of the machine's role.
fn push_own_name(text: &mut Text, source: &WalkSource) -> Result<(), NoMemory>
    ensures { OnOk result (text.new ≡ text.old ++ name_at source.now.names.roles source.now.machine.role.0) }
{
    let names = source.names;
    let machine = source.machine;
    push_name(text, names.roles.as_slice(), usize::from(machine.role.0))
}

// The first words of a line of what comes of a bound.
fn push_with_bound(text: &mut Text, bound: u8) -> Result<(), NoMemory>
    ensures { OnOk result (text.new ≡ text.old ++ (codes "with --bound " ++ decimal bound ++ codes " ")) }
{
    text.push(b"with --bound ")?;
    text.push_number(u64::from(bound))?;
    text.push(b" ")
}

// That the role's machine is accepted with this bound, a line.
pub(crate) fn push_accepted(text: &mut Text, source: &WalkSource, bound: u8) -> Result<(), NoMemory>
    ensures { OnOk result (text.new ≡ text.old ++ spec.with_bound_line bound (name_at source.now.names.roles source.now.machine.role.0 ++ codes " is accepted")) }
{
    push_with_bound(text, bound)?;
    push_own_name(text, source)?;
    text.push(b" is accepted")?;
    text.push(b"\n")
}

// That the role's machine isn't accepted with that bound either, a line.
pub(crate) fn push_refused(text: &mut Text, source: &WalkSource, bound: u8) -> Result<(), NoMemory>
    ensures { OnOk result (text.new ≡ text.old ++ spec.refused_line source.now bound) }
{
    push_with_bound(text, bound)?;
    push_own_name(text, source)?;
    text.push(b" isn't accepted either")?;
    text.push(b"\n")
}

// That there are too many candidates with the greatest bound, a line.
fn push_too_large(text: &mut Text, source: &WalkSource) -> Result<(), NoMemory>
    ensures { OnOk result (text.new ≡ text.old ++ spec.refusing_line source.now SearchFault.TooLarge) }
{
    push_with_bound(text, MOST_BOUND as u8)?;
    text.push(b"there are too many candidates")?;
    text.push(b"\n")
}

// The last line, where the search within the greatest bound finds none either and forgets nothing.
fn push_refusing(text: &mut Text, source: &WalkSource, fault: SearchFault) -> Result<(), NoMemory>
    ensures { OnOk result (text.new ≡ text.old ++ spec.refusing_line source.now fault) }
{
    match fault {
        SearchFault::NotFound { cut: false } => text.push(b"no bound helps\n"),
        SearchFault::NotFound { cut: true } => push_refused(text, source, MOST_BOUND as u8),
        SearchFault::TooLarge => push_too_large(text, source),
        SearchFault::Forgets { .. } | SearchFault::NoMemory => Ok(()),
    }
}

fn is_blocked(ending: Ending) -> bool
    ensures { result ≡ spec.is_blocked ending }
{
    match ending {
        Ending::Blocked(_) => true,
        Ending::Cut => false,
    }
}

// Whether the way doesn't lead on, if nothing is chosen on it.
fn leads_nowhere(source: &WalkSource, explanation: &Explanation) -> bool
    ensures { result ≡ spec.leads_nowhere source.now explanation.now }
{
    let projection = source.projection;
    is_blocked(explanation.ending)
        || grows_for_ever(
            source.machine,
            &projection.machine,
            explanation.steps.as_slice(),
        )
}

// Whether no greater bound helps.
fn is_hopeless(alloc: Global, source: &WalkSource, cut: bool, explanation: &Explanation) -> bool
    ensures { result ≡ spec.is_hopeless source.now cut explanation.now }
{
    if !cut {
        return true;
    }
    let projection = source.projection;
    leads_nowhere(source, explanation)
        && is_forced(
            alloc,
            source.machine,
            &projection.machine,
            explanation.steps.as_slice(),
        )
}

// What is told where no greater bound helps.
fn hopeless_text(
    alloc: Global,
    source: &WalkSource,
    bound: u8,
    explanation: &Explanation,
) -> Result<Text, NoMemory>
    ensures { IfOk result (λ text. text ≡ spec.way_text source.now bound explanation.now.steps explanation.now.ending ++ spec.hopeless_line) }
{
    let mut text = Text::new(alloc);
    push_way(
        alloc,
        &mut text,
        source,
        bound,
        explanation.steps.as_slice(),
        explanation.ending,
    )?;
    text.push(b"no bound helps\n")?;
    Ok(text)
}

// What is told where the search within the greatest bound finds none either.
fn refusing_text(
    alloc: Global,
    source: &WalkSource,
    bound: u8,
    explanation: &Explanation,
    fault: SearchFault,
) -> Result<Text, NoMemory>
    ensures { IfOk result (λ text. text ≡ spec.way_text source.now bound explanation.now.steps explanation.now.ending ++ spec.refusing_line source.now fault) }
{
    let mut text = Text::new(alloc);
    push_way(
        alloc,
        &mut text,
        source,
        bound,
        explanation.steps.as_slice(),
        explanation.ending,
    )?;
    push_refusing(&mut text, source, fault)?;
    Ok(text)
}

// What is told where the search within the greatest bound finds a derivation, for which this bound is enough.
fn helped_text(
    alloc: Global,
    source: &WalkSource,
    bound: u8,
    steps: &[WalkStep],
    enough: u8,
) -> Result<Text, NoMemory>
    ensures { IfOk result (λ text. text ≡ spec.way_text source.now bound steps.now Ending.Cut ++ spec.with_bound_line enough (name_at source.now.names.roles source.now.machine.role.0 ++ codes " is accepted")) }
{
    let mut text = Text::new(alloc);
    push_way(alloc, &mut text, source, bound, steps, Ending::Cut)?;
    push_accepted(&mut text, source, enough)?;
    Ok(text)
}

// What is told where the search within the greatest bound finds a derivation.
fn greatest_helps_text(
    alloc: Global,
    source: &WalkSource,
    bound: u8,
    cut: bool,
    explanation: &Explanation,
    derivation: &Derivation,
) -> Result<Text, NoMemory>
    requires ours { IsProper source.now.machine }
    requires theirs { IsProper source.now.projection.machine }
    requires refused { IsNotFound source.now.machine source.now.projection.machine bound cut }
    requires within { bound ≤ MOST_BOUND }
    requires explained { IsExplanation source.now.machine source.now.projection.machine bound explanation.now }
    requires hopeful { spec.is_hopeless source.now cut explanation.now ≡ false }
    requires found { IsCanonical source.now.machine source.now.projection.machine MOST_BOUND derivation.now }
    ensures { IfOk result (spec.TellsNotFound source.now bound cut) }
{
    let projection = source.projection;
    let most = MOST_BOUND as u8;
    let steps = explain_cut(alloc, source.machine, &projection.machine, bound, most)?;
    let figures = figures_of(derivation);
    helped_text(alloc, source, bound, steps.as_slice(), figures.owed)
}

// What is told where the derivation within the greatest bound forgets an act.
fn greatest_forgets_text(
    alloc: Global,
    source: &WalkSource,
    bound: u8,
    cut: bool,
    explanation: &Explanation,
    node: u32,
) -> Result<Text, NoMemory>
    requires ours { IsProper source.now.machine }
    requires theirs { IsProper source.now.projection.machine }
    requires explained { IsExplanation source.now.machine source.now.projection.machine bound explanation.now }
    requires hopeful { spec.is_hopeless source.now cut explanation.now ≡ false }
    requires forgets { IsForgets source.now.machine source.now.projection.machine MOST_BOUND node }
    ensures { IfOk result (spec.TellsNotFound source.now bound cut) }
{
    let projection = source.projection;
    let most = MOST_BOUND as u8;
    let forgetting = explain_forgets(alloc, source.machine, &projection.machine, most, node)?;
    round_text(alloc, source, &forgetting)
}

// What is told where the search within the greatest bound finds none either.
fn greatest_refuses_text(
    alloc: Global,
    source: &WalkSource,
    bound: u8,
    cut: bool,
    explanation: &Explanation,
    fault: SearchFault,
) -> Result<Text, NoMemory>
    requires ours { IsProper source.now.machine }
    requires theirs { IsProper source.now.projection.machine }
    requires explained { IsExplanation source.now.machine source.now.projection.machine bound explanation.now }
    requires hopeful { spec.is_hopeless source.now cut explanation.now ≡ false }
    requires refused { SearchRefuses source.now.machine source.now.projection.machine MOST_BOUND fault }
    ensures { IfOk result (spec.TellsNotFound source.now bound cut) }
{
    match fault {
        SearchFault::NoMemory => Err(NoMemory),
        SearchFault::Forgets { node } => {
            greatest_forgets_text(alloc, source, bound, cut, explanation, node)
        }
        SearchFault::NotFound { .. } => { refusing_text(alloc, source, bound, explanation, fault) }
        SearchFault::TooLarge => refusing_text(alloc, source, bound, explanation, fault),
    }
}

// What is told where a greater bound may help. What the search within the greatest bound gives isn't sought again.
fn with_greatest_text(
    alloc: Global,
    source: &WalkSource,
    bound: u8,
    cut: bool,
    explanation: &Explanation,
) -> Result<Text, NoMemory>
    requires ours { IsProper source.now.machine }
    requires theirs { IsProper source.now.projection.machine }
    requires refused { IsNotFound source.now.machine source.now.projection.machine bound cut }
    requires within { bound ≤ MOST_BOUND }
    requires explained { IsExplanation source.now.machine source.now.projection.machine bound explanation.now }
    requires hopeful { spec.is_hopeless source.now cut explanation.now ≡ false }
    ensures { IfOk result (spec.TellsNotFound source.now bound cut) }
{
    if usize::from(bound) == MOST_BOUND {
        let fault = SearchFault::NotFound { cut };
        return greatest_refuses_text(alloc, source, bound, cut, explanation, fault);
    }
    let projection = source.projection;
    match search(alloc, source.machine, &projection.machine, MOST_BOUND as u8) {
        Ok(derivation) => {
            greatest_helps_text(alloc, source, bound, cut, explanation, &derivation)
        }
        Err(fault) => greatest_refuses_text(alloc, source, bound, cut, explanation, fault),
    }
}

// What is told where the search finds none within the bound.
pub(crate) fn not_found_text(
    alloc: Global,
    source: &WalkSource,
    bound: u8,
    cut: bool,
) -> Result<Text, NoMemory>
    requires ours { IsProper source.now.machine }
    requires theirs { IsProper source.now.projection.machine }
    requires refused { IsNotFound source.now.machine source.now.projection.machine bound cut }
    requires within { bound ≤ MOST_BOUND }
    ensures { IfOk result (spec.TellsNotFound source.now bound cut) }
{
    let projection = source.projection;
    let explanation = explain(alloc, source.machine, &projection.machine, bound)?;
    if is_hopeless(alloc, source, cut, &explanation) {
        return hopeless_text(alloc, source, bound, &explanation);
    }
    with_greatest_text(alloc, source, bound, cut, &explanation)
}

// The oldest act that is owed.
fn oldest(pending: &[Act]) -> Option<Act>
    ensures { result ≡ slice_get pending.now 0 }
{
    pending.first().copied()
}

// What isn't done with the message of an act.
fn push_how(text: &mut Text, act: Act) -> Result<(), NoMemory>
    ensures { OnOk result (text.new ≡ text.old ++ spec.undone act) }
{
    match act {
        Act::Puts { .. } => text.push(b" isn't sent while it goes round"),
        Act::Takes { .. } => text.push(b" isn't received while it goes round"),
    }
}

// The act, and that it isn't done.
fn push_undone(text: &mut Text, names: &Names, act: Option<Act>) -> Result<(), NoMemory>
    ensures { OnOk result (text.new ≡ text.old ++ spec.never_text names.now act) }
{
    let Some(act) = act else {
        return Ok(());
    };
    push_act(text, names, act)?;
    push_how(text, act)
}

// What isn't done on a way round: the oldest act that is owed.
fn push_never(text: &mut Text, names: &Names, pending: &[Act]) -> Result<(), NoMemory>
    ensures { OnOk result (text.new ≡ text.old ++ spec.never_line names.now pending.now) }
{
    text.push(b"why: ")?;
    push_undone(text, names, oldest(pending))?;
    text.push(b"\n")
}

// A way round from a spot, what is owed there, what isn't done on it, and the talks that may stand behind that.
fn push_round(
    alloc: Global,
    text: &mut Text,
    source: &WalkSource,
    forgetting: &Forgetting,
) -> Result<(), NoMemory>
    ensures { OnOk result (text.new ≡ text.old ++ spec.round_text source.now forgetting.now) }
{
    let names = source.names;
    let machine = source.machine;
    let first = SpotRef {
        state: forgetting.state,
        pending: &forgetting.pending,
        above: forgetting.above,
    };
    push_name(text, names.roles.as_slice(), usize::from(machine.role.0))?;
    text.push(b", round and round:\n")?;
    push_steps(alloc, text, source, &first, forgetting.steps.as_slice())?;
    push_owed_line(text, names, forgetting.pending.as_slice())?;
    push_never(text, names, forgetting.pending.as_slice())?;
    push_dues(text, source, oldest(forgetting.pending.as_slice()))
}

// A way round, and that no bound helps.
fn round_text(alloc: Global, source: &WalkSource, forgetting: &Forgetting) -> Result<Text, NoMemory>
    ensures { IfOk result (λ text. text ≡ spec.round_text source.now forgetting.now ++ spec.hopeless_line) }
{
    let mut text = Text::new(alloc);
    push_round(alloc, &mut text, source, forgetting)?;
    text.push(b"no bound helps\n")?;
    Ok(text)
}

// What is told where the derivation that the search finds forgets an act.
pub(crate) fn forgets_text(
    alloc: Global,
    source: &WalkSource,
    bound: u8,
    node: u32,
) -> Result<Text, NoMemory>
    requires ours { IsProper source.now.machine }
    requires theirs { IsProper source.now.projection.machine }
    requires refused { IsForgets source.now.machine source.now.projection.machine bound node }
    ensures { IfOk result (spec.TellsForgets source.now bound node) }
{
    let projection = source.projection;
    let forgetting = explain_forgets(alloc, source.machine, &projection.machine, bound, node)?;
    round_text(alloc, source, &forgetting)
}

/// What is told of a machine of which the search finds no derivation within the bound, by the reason. Refused memory is
/// the only error.
pub fn underivable_text(
    alloc: Global,
    source: &WalkSource,
    bound: u8,
    fault: SearchFault,
) -> Result<Text, NoMemory>
    requires ours { IsProper source.now.machine }
    requires theirs { IsProper source.now.projection.machine }
    requires refused { SearchRefuses source.now.machine source.now.projection.machine bound fault }
    requires within { bound ≤ MOST_BOUND }
    ensures { IfOk result (spec.TellsUnderivable source.now bound fault) }
{
    match fault {
        SearchFault::NotFound { cut } => not_found_text(alloc, source, bound, cut),
        SearchFault::Forgets { node } => forgets_text(alloc, source, bound, node),
        SearchFault::TooLarge => too_large_text(alloc, source, bound),
        SearchFault::NoMemory => Err(NoMemory),
    }
}
