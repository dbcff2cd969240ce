//! What `explain` answers to a document.

ghost use Rattle.std.specs.Prelude.{◌≡◌, ◌⊎◌, All, ℕ, IfOk};
ghost use Rattle.rs_safety.specs.Figures.{OwesFew};
ghost use Rattle.rs_answers.specs.Derivations.{AreCanonical, IsUnderivable};
ghost use Rattle.rs_answers.specs.Refusals.{HasNoSession};
ghost use Rattle.rs_answers.specs.Sessions.{HasMachines};
ghost use Rattle.rs_documents.specs.Ready.{DocumentIsReady};
ghost use Rattle.rs_reasons.specs.Explains as spec;
ghost use Rattle.rs_reasons.specs.Explains.{Explains, ExplainsBy, TellsWhy};

use crate::accepted::push_machines;
use crate::at::places_at;
use crate::faults::{push_state_line, push_talk_line};
use crate::underivable::underivable_text;
use crate::unprojectable::unprojectable_text;
use rs_answers::{
    Answer, ProjectedSession, Refusal, Underivable, derivations_of, refusal_answer, report,
    session_of,
};
use rs_derive::Derivation;
use rs_documents::Document;
use rs_model::{Bound, MachineFault, NoMemory, Role};
use rs_places::{Places, places_of};
use rs_search::SearchFault;
use rs_text::Text;
use rs_walk_texts::WalkSource;
use rs_wellformed::WfFault;
use std::alloc::Global;

// The line of the talk that is at fault.
fn talk_text(
    alloc: Global,
    document: &Document,
    places: &Places,
    fault: WfFault,
) -> Result<Text, NoMemory>
    ensures { IfOk result (λ text. (bound : ℕ) → TellsWhy bound document.now places.now (Refusal.IllFormed fault) text) }
{
    let mut text = Text::new(alloc);
    push_talk_line(
        &mut text,
        &document.names,
        &document.protocol,
        places.talks.as_slice(),
        fault,
    )?;
    Ok(text)
}

// The line of the state that is at fault, in the role's own machine.
fn state_text(
    alloc: Global,
    document: &Document,
    places: &Places,
    role: Role,
    fault: MachineFault,
) -> Result<Text, NoMemory>
    ensures { IfOk result (λ text. (bound : ℕ) → TellsWhy bound document.now places.now (Refusal.IllMachine role fault) text) }
{
    let place = usize::from(role.0);
    let mut text = Text::new(alloc);
    if let Some(Some(machine)) = document.machines.get(place) {
        let states = places_at(places.machines.as_slice(), place);
        push_state_line(&mut text, &document.names, states, machine, fault)?;
    }
    Ok(text)
}

// What is told of the reason why a document has no session.
fn no_session_text(
    alloc: Global,
    document: &Document,
    places: &Places,
    refusal: &Refusal,
) -> Result<Text, NoMemory>
    requires ready { DocumentIsReady document.now }
    requires none { (refusal.now ≡ Refusal.NoMemory) ⊎ HasNoSession document.now refusal.now }
    ensures { IfOk result (λ text. (bound : ℕ) → TellsWhy bound document.now places.now refusal.now text) }
{
    match refusal {
        Refusal::IllFormed(fault) => talk_text(alloc, document, places, *fault),
        Refusal::Unprojectable(fault) => unprojectable_text(
            alloc,
            &document.names,
            &document.protocol,
            places.talks.as_slice(),
            fault,
        ),
        Refusal::IllMachine { role, fault } => state_text(alloc, document, places, *role, *fault),
        Refusal::Underivable(_) | Refusal::Blamed { .. } => unreachable!(),
        Refusal::NoMemory => Err(NoMemory),
    }
}

// The answer, with the lines behind it.
fn with_lines(mut answer: Answer, lines: &Text) -> Result<Answer, NoMemory>
    ensures { IfOk result (λ a. a ≡ spec.with_lines answer lines.now) }
{
    answer.text.push(lines.as_slice())?;
    Ok(answer)
}

// What is answered to a document that has no session, by the reason.
fn explain_no_session(
    alloc: Global,
    document: &Document,
    places: &Places,
    refusal: Refusal,
) -> Result<Answer, NoMemory>
    requires ready { DocumentIsReady document.now }
    requires none { (refusal ≡ Refusal.NoMemory) ⊎ HasNoSession document.now refusal }
    ensures { IfOk result (λ a. (bound : ℕ) → ExplainsBy places.now bound document.now a) }
{
    let lines = no_session_text(alloc, document, places, &refusal)?;
    let answer = refusal_answer(alloc, &document.names, refusal)?;
    with_lines(answer, &lines)
}

// What is told of the first role for whose machine no derivation is found.
fn of_machine_text(
    alloc: Global,
    document: &Document,
    places: &Places,
    session: &ProjectedSession,
    underivable: Underivable,
    bound: Bound,
) -> Result<Text, NoMemory>
    requires ready { DocumentIsReady document.now }
    requires has { HasMachines document.now session.now.projections.items session.now.machines.items }
    requires refused { IsUnderivable bound session.now.machines.items session.now.projections.items underivable.role underivable.fault }
    ensures { IfOk result (λ text. TellsWhy bound document.now places.now (Refusal.Underivable underivable) text) }
{
    let place = usize::from(underivable.role.0);
    let source = WalkSource {
        names: &document.names,
        protocol: &document.protocol,
        talks: places.talks.as_slice(),
        projection: &session.projections[place],
        machine: &session.machines[place],
        states: places_at(places.machines.as_slice(), place),
    };
    underivable_text(alloc, &source, bound.number(), underivable.fault)
}

// What is answered to a document, of the first role for whose machine no derivation is found.
fn explain_underivable(
    alloc: Global,
    document: &Document,
    places: &Places,
    session: &ProjectedSession,
    underivable: Underivable,
    bound: Bound,
) -> Result<Answer, NoMemory>
    requires ready { DocumentIsReady document.now }
    requires has { HasMachines document.now session.now.projections.items session.now.machines.items }
    requires refused { (underivable.fault ≡ SearchFault.NoMemory) ⊎ IsUnderivable bound session.now.machines.items session.now.projections.items underivable.role underivable.fault }
    ensures { IfOk result (ExplainsBy places.now bound document.now) }
{
    if let SearchFault::NoMemory = underivable.fault {
        return Err(NoMemory);
    }
    let lines = of_machine_text(alloc, document, places, session, underivable, bound)?;
    let answer = refusal_answer(alloc, &document.names, Refusal::Underivable(underivable))?;
    with_lines(answer, &lines)
}

// What is answered to a document whose session is accepted: the report, and what its own machines do.
fn explain_accepted(
    alloc: Global,
    document: &Document,
    places: &Places,
    session: &ProjectedSession,
    derivations: &[Derivation],
) -> Result<Answer, NoMemory>
    requires has { HasMachines document.now session.now.projections.items session.now.machines.items }
    requires few { All OwesFew derivations.now }
    ensures { IfOk result (λ a. (bound : ℕ) → AreCanonical bound session.now.machines.items session.now.projections.items derivations.now → ExplainsBy places.now bound document.now a) }
{
    let names = &document.names;
    let mut answer = report(alloc, names.roles.as_slice(), derivations)?;
    push_machines(
        &mut answer.text,
        alloc,
        names,
        places.machines.as_slice(),
        document.machines.as_slice(),
        session.projections.as_slice(),
        derivations,
    )?;
    Ok(answer)
}

// What is answered to a document that has a session.
fn explain_session(
    alloc: Global,
    document: &Document,
    places: &Places,
    session: &ProjectedSession,
    bound: Bound,
) -> Result<Answer, NoMemory>
    requires ready { DocumentIsReady document.now }
    requires has { HasMachines document.now session.now.projections.items session.now.machines.items }
    ensures { IfOk result (ExplainsBy places.now bound document.now) }
{
    let own = document.machines.as_slice();
    match derivations_of(alloc, own, session.projections.as_slice(), bound.number()) {
        Ok(derivations) => explain_accepted(
            alloc,
            document,
            places,
            session,
            derivations.as_slice(),
        ),
        Err(underivable) => {
            explain_underivable(alloc, document, places, session, underivable, bound)
        }
    }
}

/// What `explain` answers to a document that was read from these bytes, with a search within the bound: what `check`
/// answers, and behind it why the document is refused and where, or what its own machines do.
///
/// Refused memory is the only error.
pub fn explain(
    alloc: Global,
    document: &Document,
    bytes: &[u8],
    bound: Bound,
) -> Result<Answer, NoMemory>
    requires ready { DocumentIsReady document.now }
    ensures { IfOk result (Explains bound bytes.now document.now) }
{
    let names = &document.names;
    let places = places_of(alloc, bytes, names.roles.as_slice())?;
    match session_of(alloc, document) {
        Ok(session) => explain_session(alloc, document, &places, &session, bound),
        Err(refusal) => explain_no_session(alloc, document, &places, refusal),
    }
}
