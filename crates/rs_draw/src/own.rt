//! The picture of a role's machine in the document, with the number of acts that it puts off at each state.

ghost use Rattle.std.specs.Prelude.{◌≡◌, ◌≢◌, ◌<◌, ◌++◌, ◌^◌, IfOk, OnOk, None, Some, length, slice_get};
ghost use Rattle.rs_derive.specs.Derivations.{IsProper};
ghost use Rattle.rs_derive.specs.Rules.{rule_at};
ghost use Rattle.rs_documents.specs.Ready.{DocumentIsReady};
ghost use Rattle.rs_pictures.specs.Machines.{states_put_off};
ghost use Rattle.rs_draw.specs.Draws as draws;
ghost use Rattle.rs_draw.specs.PutsOff as spec;
ghost use Rattle.rs_draw.specs.PutsOff.{DrawsBeside, DrawsOwn, Finds};

use rs_answers::{Answer, Verdict, projections_of};
use rs_derive::{DNode, Derivation, Rule, rule_at};
use rs_documents::Document;
use rs_model::{DEFAULT_BOUND, Machine, Names, NoMemory, State};
use rs_pictures::{machine_picture, push_puts_off};
use rs_prefix::Pending;
use rs_project::ProjFault;
use rs_search::{SearchFault, search};
use rs_text::Text;
use rs_wellformed::well_formed;
use std::alloc::Global;

/// How many of the pending acts are still owed after the act that the machine makes between these states; 0 if it makes none.
fn left_by(pending: &Pending, state: &State, there: &State) -> usize
    ensures { result ≡ spec.left_by pending.now (rule_at pending.now state.now (Some there.now)) }
{
    match rule_at(pending, state, there) {
        Some(Rule::Pays { .. }) => pending.as_slice().len().saturating_sub(1),
        Some(Rule::SendsBoth) => pending.as_slice().len(),
        Some(Rule::Stops | Rule::Guesses { .. } | Rule::Follows { .. }) | None => 0,
    }
}

/// The same at the node.
fn left_at_node(sub: &Machine, above: &Machine, node: &DNode) -> usize
    ensures { result ≡ spec.left_between node.now.pending (slice_get sub.now.states node.now.state) (slice_get above.now.states node.now.above) }
{
    let Some(state) = sub.states.get(node.state as usize) else {
        return 0;
    };
    let Some(there) = above.states.get(node.above as usize) else {
        return 0;
    };
    left_by(&node.pending, state, there)
}

/// The same at the node, if it has this state; 0 otherwise.
fn left_at(sub: &Machine, above: &Machine, state: usize, node: &DNode) -> usize
    ensures { result ≡ spec.left_at sub.now above.now state node.now }
{
    if node.state as usize == state {
        left_at_node(sub, above, node)
    } else {
        0
    }
}

/// The most acts that the machine still owes after an act that it makes at this state.
fn puts_off_at(sub: &Machine, above: &Machine, derivation: &Derivation, state: usize) -> usize
    ensures { result ≡ spec.puts_off_at sub.now above.now derivation.now state }
{
    let mut most = 0;
    for node in &derivation.nodes {
        most = most.max(left_at(sub, above, state, node));
    }
    most
}

/// Appends for each state how many acts the machine puts off there.
fn push_states_put_off(
    text: &mut Text,
    states: &[State],
    sub: &Machine,
    above: &Machine,
    derivation: &Derivation,
) -> Result<(), NoMemory>
    ensures { OnOk result (text.new ≡ text.old ++ states_put_off (spec.puts_off_at sub.now above.now derivation.now) 0 states.now) }
{
    for (number, _state) in states.iter().enumerate() {
        let acts = puts_off_at(sub, above, derivation, number);
        push_puts_off(text, number as u64, acts as u64)?;
    }
    Ok(())
}

/// The picture of the machine, with what it puts off if there is a derivation.
fn own_picture(
    alloc: Global,
    names: &Names,
    sub: &Machine,
    above: &Machine,
    derivation: &Option<Derivation>,
) -> Result<Text, NoMemory>
    ensures { IfOk result (λ text. text ≡ spec.own_picture names.now sub.now above.now derivation.now) }
{
    let mut text = machine_picture(alloc, names, sub)?;
    if let Some(derivation) = derivation {
        push_states_put_off(&mut text, sub.states.as_slice(), sub, above, derivation)?;
    }
    Ok(text)
}

/// No derivation, since the search refuses the machine. The one error is that memory was refused.
fn none_searched(fault: SearchFault) -> Result<Option<Derivation>, NoMemory>
    ensures none { IfOk result (λ found. found ≡ None) }
    ensures cause { OnOk result (fault ≢ SearchFault.NoMemory) }
{
    match fault {
        SearchFault::NoMemory => Err(NoMemory),
        SearchFault::NotFound { .. } | SearchFault::Forgets { .. } | SearchFault::TooLarge => Ok(
            None,
        ),
    }
}

/// The derivation that the search finds for the machine from its projection, if there is one.
fn found(
    alloc: Global,
    machine: &Machine,
    projection: &Machine,
) -> Result<Option<Derivation>, NoMemory>
    requires ours { IsProper machine.now }
    requires theirs { IsProper projection.now }
    ensures { IfOk result (Finds machine.now projection.now) }
{
    match search(alloc, machine, projection, DEFAULT_BOUND) {
        Ok(derivation) => Ok(Some(derivation)),
        Err(fault) => none_searched(fault),
    }
}

/// The picture of the machine, with what it puts off if the search accepts it.
fn draw_beside(
    alloc: Global,
    names: &Names,
    machine: &Machine,
    projection: &Machine,
) -> Result<Answer, NoMemory>
    requires ours { IsProper machine.now }
    requires theirs { IsProper projection.now }
    ensures { IfOk result (DrawsBeside names.now machine.now projection.now) }
{
    let derivation = found(alloc, machine, projection)?;
    Ok(Answer {
        text: own_picture(alloc, names, machine, projection, &derivation)?,
        verdict: Verdict::Fine,
    })
}

/// The picture of the machine alone.
pub fn drawn_machine(alloc: Global, names: &Names, machine: &Machine) -> Result<Answer, NoMemory>
    ensures { IfOk result (λ a. a ≡ draws.drawn_machine names.now machine.now) }
{
    Ok(Answer {
        text: machine_picture(alloc, names, machine)?,
        verdict: Verdict::Fine,
    })
}

/// The picture of the machine alone, since the protocol has no projections. The one error is that memory was refused.
fn drawn_unprojected(
    alloc: Global,
    names: &Names,
    machine: &Machine,
    fault: ProjFault,
) -> Result<Answer, NoMemory>
    ensures drawn { IfOk result (λ a. a ≡ draws.drawn_machine names.now machine.now) }
    ensures cause { OnOk result (fault ≢ ProjFault.NoMemory) }
{
    match fault {
        ProjFault::NoMemory => Err(NoMemory),
        ProjFault::Unmergeable { .. }
        | ProjFault::Unreached { .. }
        | ProjFault::TooManyStates { .. } => { drawn_machine(alloc, names, machine) }
    }
}

/// The picture of the machine of the role with this place, which the document has.
pub fn draw_own(
    alloc: Global,
    document: &Document,
    place: usize,
    machine: &Machine,
) -> Result<Answer, NoMemory>
    requires ready { DocumentIsReady document.now }
    requires role { place < length document.now.names.roles }
    requires few { length machine.now.states < 2 ^ 32 }
    ensures { IfOk result (DrawsOwn document.now place machine.now) }
{
    let names = &document.names;
    let protocol = &document.protocol;
    if let Err(_fault) = well_formed(protocol) {
        return drawn_machine(alloc, names, machine);
    }
    if let Err(_fault) = machine.check(protocol.roles) {
        return drawn_machine(alloc, names, machine);
    }
    let projections = match projections_of(alloc, protocol) {
        Ok(projections) => projections,
        Err(fault) => return drawn_unprojected(alloc, names, machine, fault),
    };
    draw_beside(alloc, names, machine, &projections[place].machine)
}
