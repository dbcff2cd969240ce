//! How it is told where a walk ends, and why it can't go on.

ghost use Rattle.std.specs.Prelude.{◌≡◌, ◌++◌, OnOk, Some, slice_get};
ghost use Rattle.rs_derive.specs.Rules.{arms_of};
ghost use Rattle.rs_explain.specs.declared.obstacles.Obstacle.TheVariants as told;
ghost use Rattle.rs_walk_texts.specs.Elsewhere.{elsewhere_at};
ghost use Rattle.rs_walk_texts.specs.Heads.{acts_text, owed_line};
ghost use Rattle.rs_walk_texts.specs.Stops as spec;
ghost use Rattle.rs_walk_texts.specs.Walks.{above_at, state_at};

use crate::acts::{
    push_act_sort, push_acts, push_arm_sort, push_maybe_act, push_maybe_bare, push_owed_line,
};
use crate::alike::{label_of, own_arms, push_nearest_line};
use crate::elsewhere::{elsewhere_at, push_elsewhere};
use crate::heads::{push_head_of, push_placed_head};
use crate::passed::{push_own_name, push_talks, talks_of};
use crate::sources::{SpotRef, WalkSource};
use crate::walks::{act_of, arm_at};
use rs_derive::{arm_of, arms_at};
use rs_explain::{Ending, Obstacle};
use rs_model::{Act, Arm, NoMemory, State};
use rs_text::Text;

// The head of the machine's state.
fn push_own_head(text: &mut Text, source: &WalkSource, spot: &SpotRef) -> Result<(), NoMemory>
    ensures { OnOk result (text.new ≡ text.old ++ spec.own_head source.now spot.now) }
{
    let machine = source.machine;
    push_head_of(text, source.names, &machine.states, spot.state)
}

// The head of the projection's state.
fn push_above_head(text: &mut Text, source: &WalkSource, spot: &SpotRef) -> Result<(), NoMemory>
    ensures { OnOk result (text.new ≡ text.old ++ spec.above_head source.now spot.now) }
{
    let projection = source.projection;
    push_head_of(text, source.names, &projection.machine.states, spot.above)
}

// The act that is owed at the place.
fn push_owed_act(
    text: &mut Text,
    source: &WalkSource,
    spot: &SpotRef,
    place: usize,
) -> Result<(), NoMemory>
    ensures { OnOk result (text.new ≡ text.old ++ spec.owed_act source.now spot.now place) }
{
    push_maybe_act(text, source.names, owed_at(spot, place))
}

// The machine's act by its arm at the place.
fn push_own_act(
    text: &mut Text,
    source: &WalkSource,
    spot: &SpotRef,
    place: usize,
) -> Result<(), NoMemory>
    ensures { OnOk result (text.new ≡ text.old ++ spec.own_act source.now spot.now place) }
{
    push_maybe_act(text, source.names, own_deed(source, spot, place))
}

// The act that is owed at the place, where there is one.
fn owed_at(spot: &SpotRef, place: usize) -> Option<Act>
    ensures { result ≡ slice_get spot.now.pending place }
{
    spot.pending.as_slice().get(place).copied()
}

// The machine's arm at the place, as an act.
fn own_deed(source: &WalkSource, spot: &SpotRef, place: usize) -> Option<Act>
    ensures { result ≡ spec.own_deed source.now spot.now place }
{
    let machine = source.machine;
    let arm = arm_at(&machine.states, spot.state, place);
    act_of(&machine.states, spot.state, arm)
}

// The arms of the projection at the spot.
fn above_arms<'a>(source: &WalkSource<'a>, spot: &SpotRef) -> &'a [Arm]
    ensures { result.now ≡ arms_of (above_at source.now spot.now) }
{
    let projection = source.projection;
    match projection.machine.states.get(spot.above as usize) {
        Some(state) => arms_at(state),
        None => &[],
    }
}

// The sort that the arm with the act's label has.
fn push_sort_beside(text: &mut Text, arms: &[Arm], act: Option<Act>) -> Result<(), NoMemory>
    ensures { OnOk result (text.new ≡ text.old ++ spec.sort_beside arms.now act) }
{
    match act {
        Some(act) => push_arm_sort(text, arm_of(arms, label_of(act))),
        None => Ok(()),
    }
}

// How the act is owed, beside a choice between these arms.
fn push_owed_how(text: &mut Text, arms: &[Arm], act: Option<Act>) -> Result<(), NoMemory>
    ensures { OnOk result (text.new ≡ text.old ++ spec.owed_how arms.now act) }
{
    let Some(act) = act else {
        return Ok(());
    };
    match arm_of(arms, label_of(act)) {
        Some(_) => text.push(b" already"),
        None => text.push(b" first"),
    }
}

// The machine sends, and owes the act at the place.
fn push_send_while_owing(
    text: &mut Text,
    source: &WalkSource,
    spot: &SpotRef,
    place: usize,
) -> Result<(), NoMemory>
    ensures { OnOk result (text.new ≡ text.old ++ spec.send_while_owing source.now spot.now place) }
{
    text.push(b"the machine sends ")?;
    push_own_act(text, source, spot, 0)?;
    text.push(b", and owes ")?;
    push_owed_act(text, source, spot, place)
}

// The machine's act by its arm at the place, without its sort.
fn push_own_bare(
    text: &mut Text,
    source: &WalkSource,
    spot: &SpotRef,
    place: usize,
) -> Result<(), NoMemory>
    ensures { OnOk result (text.new ≡ text.old ++ spec.own_bare source.now spot.now place) }
{
    push_maybe_bare(text, source.names, own_deed(source, spot, place))
}

// The sort of that act.
fn push_own_sort(
    text: &mut Text,
    source: &WalkSource,
    spot: &SpotRef,
    place: usize,
) -> Result<(), NoMemory>
    ensures { OnOk result (text.new ≡ text.old ++ spec.own_sort source.now spot.now place) }
{
    push_act_sort(text, own_deed(source, spot, place))
}

// The act that is owed at the place, without its sort.
fn push_owed_bare(
    text: &mut Text,
    source: &WalkSource,
    spot: &SpotRef,
    place: usize,
) -> Result<(), NoMemory>
    ensures { OnOk result (text.new ≡ text.old ++ spec.owed_bare source.now spot.now place) }
{
    push_maybe_bare(text, source.names, owed_at(spot, place))
}

// The sort of the act that is owed at the place.
fn push_owed_sort_name(text: &mut Text, spot: &SpotRef, place: usize) -> Result<(), NoMemory>
    ensures { OnOk result (text.new ≡ text.old ++ spec.owed_sort spot.now place) }
{
    push_act_sort(text, owed_at(spot, place))
}

// The sort that the projection has for the machine's act.
fn push_sort_above(
    text: &mut Text,
    source: &WalkSource,
    spot: &SpotRef,
    place: usize,
) -> Result<(), NoMemory>
    ensures { OnOk result (text.new ≡ text.old ++ spec.sort_above source.now spot.now place) }
{
    push_sort_beside(
        text,
        above_arms(source, spot),
        own_deed(source, spot, place),
    )
}

// The sort that the machine has for the act that is owed.
fn push_sort_here(
    text: &mut Text,
    source: &WalkSource,
    spot: &SpotRef,
    place: usize,
) -> Result<(), NoMemory>
    ensures { OnOk result (text.new ≡ text.old ++ spec.sort_here source.now spot.now place) }
{
    push_sort_beside(text, own_arms(source, spot), owed_at(spot, place))
}

// How the act is owed that is beside the machine's choice.
fn push_owed_here(
    text: &mut Text,
    source: &WalkSource,
    spot: &SpotRef,
    place: usize,
) -> Result<(), NoMemory>
    ensures { OnOk result (text.new ≡ text.old ++ spec.owed_here source.now spot.now place) }
{
    push_owed_how(text, own_arms(source, spot), owed_at(spot, place))
}

// What the machine sends by its arm at the place, and with which sort.
fn push_sends_with(
    text: &mut Text,
    source: &WalkSource,
    spot: &SpotRef,
    place: usize,
) -> Result<(), NoMemory>
    ensures { OnOk result (text.new ≡ text.old ++ spec.sends_with source.now spot.now place) }
{
    text.push(b"the machine sends ")?;
    push_own_bare(text, source, spot, place)?;
    text.push(b" with ")?;
    push_own_sort(text, source, spot, place)
}

// The machine sends with another sort than it owes.
fn push_owed_sort(
    text: &mut Text,
    source: &WalkSource,
    spot: &SpotRef,
    place: usize,
) -> Result<(), NoMemory>
    ensures { OnOk result (text.new ≡ text.old ++ spec.owed_sort_text source.now spot.now place) }
{
    push_sends_with(text, source, spot, 0)?;
    text.push(b", and owes it with ")?;
    push_owed_sort_name(text, spot, place)
}

// The machine sends by an arm that the protocol doesn't have.
fn push_unknown(
    text: &mut Text,
    source: &WalkSource,
    spot: &SpotRef,
    place: usize,
) -> Result<(), NoMemory>
    ensures { OnOk result (text.new ≡ text.old ++ spec.unknown_text source.now spot.now place) }
{
    text.push(b"the machine sends ")?;
    push_own_act(text, source, spot, place)?;
    text.push(b", where the protocol has ")?;
    push_above_head(text, source, spot)
}

// The machine sends by an arm that the protocol has with another sort.
fn push_sent_sort(
    text: &mut Text,
    source: &WalkSource,
    spot: &SpotRef,
    place: usize,
) -> Result<(), NoMemory>
    ensures { OnOk result (text.new ≡ text.old ++ spec.sent_sort_text source.now spot.now place) }
{
    push_sends_with(text, source, spot, place)?;
    text.push(b", where the protocol has it with ")?;
    push_sort_above(text, source, spot, place)
}

// A receive is owed that the machine doesn't take.
fn push_untaken(
    text: &mut Text,
    source: &WalkSource,
    spot: &SpotRef,
    place: usize,
) -> Result<(), NoMemory>
    ensures { OnOk result (text.new ≡ text.old ++ spec.untaken_text source.now spot.now place) }
{
    push_owed_act(text, source, spot, place)?;
    text.push(b" comes next, and the machine takes ")?;
    push_own_head(text, source, spot)
}

// The machine takes the receive that is owed with another sort.
fn push_taken_sort(
    text: &mut Text,
    source: &WalkSource,
    spot: &SpotRef,
    place: usize,
) -> Result<(), NoMemory>
    ensures { OnOk result (text.new ≡ text.old ++ spec.taken_sort_text source.now spot.now place) }
{
    push_owed_bare(text, source, spot, place)?;
    text.push(b" comes with ")?;
    push_owed_sort_name(text, spot, place)?;
    text.push(b", and the machine takes it with ")?;
    push_sort_here(text, source, spot, place)
}

// The machine waits.
fn push_waits(text: &mut Text, source: &WalkSource, spot: &SpotRef) -> Result<(), NoMemory>
    ensures { OnOk result (text.new ≡ text.old ++ spec.waits_text source.now spot.now) }
{
    text.push(b"the machine waits for ")?;
    push_own_head(text, source, spot)
}

// What leads to the head of a state.
fn push_doing(text: &mut Text, state: &State) -> Result<(), NoMemory>
    ensures { OnOk result (text.new ≡ text.old ++ spec.doing_text (Some state.now)) }
{
    match state {
        State::Takes { .. } => text.push(b"the machine waits for "),
        State::Done | State::Puts { .. } => text.push(b"the machine sends "),
    }
}

// What the machine does at its state, whether it sends or waits.
fn push_own_doing(text: &mut Text, source: &WalkSource, spot: &SpotRef) -> Result<(), NoMemory>
    ensures { OnOk result (text.new ≡ text.old ++ spec.doing_text (state_at source.now spot.now)) }
{
    let machine = source.machine;
    match machine.states.get(spot.state as usize) {
        Some(state) => push_doing(text, state),
        None => text.push(b"the machine sends "),
    }
}

// The protocol has nothing more for the role, and the machine goes on.
fn push_past_end(text: &mut Text, source: &WalkSource, spot: &SpotRef) -> Result<(), NoMemory>
    ensures { OnOk result (text.new ≡ text.old ++ spec.past_end_text source.now spot.now) }
{
    push_own_doing(text, source, spot)?;
    push_own_head(text, source, spot)?;
    text.push(b", and the protocol has nothing more for ")?;
    push_own_name(text, source)
}

// All acts that are owed.
fn push_all_owed(text: &mut Text, source: &WalkSource, spot: &SpotRef) -> Result<(), NoMemory>
    ensures { OnOk result (text.new ≡ text.old ++ acts_text source.now.names spot.now.pending) }
{
    push_acts(text, source.names, spot.pending.as_slice())
}

// The machine has ended, and still owes acts.
fn push_end_while_owing(
    text: &mut Text,
    source: &WalkSource,
    spot: &SpotRef,
) -> Result<(), NoMemory>
    ensures { OnOk result (text.new ≡ text.old ++ spec.obstacle_text source.now spot.now told.EndWhileOwing) }
{
    text.push(b"the machine ends, and still owes ")?;
    push_all_owed(text, source, spot)
}

// The machine has ended, and its role goes on by the protocol.
fn push_end_too_early(text: &mut Text, source: &WalkSource, spot: &SpotRef) -> Result<(), NoMemory>
    ensures { OnOk result (text.new ≡ text.old ++ spec.obstacle_text source.now spot.now told.EndTooEarly) }
{
    text.push(b"the machine ends, and the protocol goes on with ")?;
    push_above_head(text, source, spot)
}

// The machine chooses, and owes the act at the place.
fn push_choice_while_owing(
    text: &mut Text,
    source: &WalkSource,
    spot: &SpotRef,
    place: usize,
) -> Result<(), NoMemory>
    ensures { OnOk result (text.new ≡ text.old ++ spec.choice_text source.now spot.now place) }
{
    text.push(b"the machine chooses ")?;
    push_own_head(text, source, spot)?;
    text.push(b", and owes ")?;
    push_owed_act(text, source, spot, place)?;
    push_owed_here(text, source, spot, place)
}

// The machine sends, and owes the act at the place first.
fn push_send_before_send(
    text: &mut Text,
    source: &WalkSource,
    spot: &SpotRef,
    place: usize,
) -> Result<(), NoMemory>
    ensures { OnOk result (text.new ≡ text.old ++ spec.obstacle_text source.now spot.now (told.SendBeforeSend place)) }
{
    push_send_while_owing(text, source, spot, place)?;
    text.push(b" first")
}

// The machine waits, and owes the act at the place first.
fn push_receive_before_owed(
    text: &mut Text,
    source: &WalkSource,
    spot: &SpotRef,
    place: usize,
) -> Result<(), NoMemory>
    ensures { OnOk result (text.new ≡ text.old ++ spec.obstacle_text source.now spot.now (told.ReceiveBeforeOwedSend place)) }
{
    push_waits(text, source, spot)?;
    text.push(b", and owes ")?;
    push_owed_act(text, source, spot, place)?;
    text.push(b" first")
}

// The machine waits, and its role sends first by the protocol.
fn push_send_first(text: &mut Text, source: &WalkSource, spot: &SpotRef) -> Result<(), NoMemory>
    ensures { OnOk result (text.new ≡ text.old ++ spec.send_first_text source.now spot.now) }
{
    push_waits(text, source, spot)?;
    text.push(b", and by the protocol ")?;
    push_own_name(text, source)?;
    text.push(b" first sends ")?;
    push_above_head(text, source, spot)
}

// What stands in the machine's way.
fn push_obstacle(
    text: &mut Text,
    source: &WalkSource,
    spot: &SpotRef,
    obstacle: Obstacle,
) -> Result<(), NoMemory>
    ensures { OnOk result (text.new ≡ text.old ++ spec.obstacle_text source.now spot.now obstacle) }
{
    match obstacle {
        Obstacle::EndWhileOwing => push_end_while_owing(text, source, spot),
        Obstacle::EndTooEarly => push_end_too_early(text, source, spot),
        Obstacle::ActPastEnd => push_past_end(text, source, spot),
        Obstacle::ChoiceWhileOwing { place } => push_choice_while_owing(text, source, spot, place),
        Obstacle::SendBeforeSend { place } => push_send_before_send(text, source, spot, place),
        Obstacle::OwedSendOfOtherSort { place } => push_owed_sort(text, source, spot, place),
        Obstacle::UnknownSend { arm } => push_unknown(text, source, spot, arm),
        Obstacle::SendOfOtherSort { arm } => push_sent_sort(text, source, spot, arm),
        Obstacle::ReceiveBeforeReceive { place } => push_untaken(text, source, spot, place),
        Obstacle::OwedReceiveOfOtherSort { place } => push_taken_sort(text, source, spot, place),
        Obstacle::ReceiveBeforeOwedSend { place } => {
            push_receive_before_owed(text, source, spot, place)
        }
        Obstacle::ReceiveBeforeSend => push_send_first(text, source, spot),
    }
}

// Its move would make it owe too much.
fn push_cut(text: &mut Text, bound: u8) -> Result<(), NoMemory>
    ensures { OnOk result (text.new ≡ text.old ++ spec.cut_text bound) }
{
    text.push(b"the machine would put off more acts than --bound ")?;
    text.push_number(u64::from(bound))?;
    text.push(b" allows")
}

// Why a walk ends.
fn push_ending(
    text: &mut Text,
    source: &WalkSource,
    spot: &SpotRef,
    bound: u8,
    ending: Ending,
) -> Result<(), NoMemory>
    ensures { OnOk result (text.new ≡ text.old ++ spec.ending_text source.now spot.now bound ending) }
{
    match ending {
        Ending::Blocked(obstacle) => push_obstacle(text, source, spot, obstacle),
        Ending::Cut => push_cut(text, bound),
    }
}

// Why a walk ends, where the protocol may have the machine's message between other roles alone.
fn push_reason(
    text: &mut Text,
    source: &WalkSource,
    spot: &SpotRef,
    bound: u8,
    ending: Ending,
) -> Result<(), NoMemory>
    ensures { OnOk result (text.new ≡ text.old ++ spec.reason_text source.now spot.now bound ending (elsewhere_at source.now spot.now)) }
{
    match elsewhere_at(source, spot) {
        Some(talk) => push_elsewhere(text, source, spot, talk),
        None => push_ending(text, source, spot, bound, ending),
    }
}

// A line: what is owed.
fn push_owed_at(text: &mut Text, source: &WalkSource, spot: &SpotRef) -> Result<(), NoMemory>
    ensures { OnOk result (text.new ≡ text.old ++ owed_line source.now.names spot.now.pending) }
{
    push_owed_line(text, source.names, spot.pending.as_slice())
}

// A line: the head of the machine's state.
fn push_machine_line(text: &mut Text, source: &WalkSource, spot: &SpotRef) -> Result<(), NoMemory>
    ensures { OnOk result (text.new ≡ text.old ++ spec.machine_line source.now spot.now) }
{
    let machine = source.machine;
    text.push(b"machine: ")?;
    push_placed_head(
        text,
        source.names,
        &machine.states,
        source.states,
        spot.state,
    )?;
    text.push(b"\n")
}

// A line: the talks for which the projection's state stands.
fn push_protocol_line(text: &mut Text, source: &WalkSource, spot: &SpotRef) -> Result<(), NoMemory>
    ensures { OnOk result (text.new ≡ text.old ++ spec.protocol_line source.now spot.now) }
{
    text.push(b"protocol: ")?;
    push_talks(text, source, talks_of(source, spot.above))?;
    text.push(b"\n")
}

// A line: why a walk ends.
fn push_why_line(
    text: &mut Text,
    source: &WalkSource,
    spot: &SpotRef,
    ending: Ending,
    bound: u8,
) -> Result<(), NoMemory>
    ensures { OnOk result (text.new ≡ text.old ++ spec.why_line source.now spot.now ending bound) }
{
    text.push(b"why: ")?;
    push_reason(text, source, spot, bound, ending)?;
    text.push(b"\n")
}

/// Writes the lines behind a walk that ends at the spot, where so many acts may be owed: what is owed, where the machine and
/// the protocol stand, why it ends, and two labels that look alike. Refused memory is the only error.
pub fn push_stop(
    text: &mut Text,
    source: &WalkSource,
    spot: &SpotRef,
    ending: Ending,
    bound: u8,
) -> Result<(), NoMemory>
    ensures { OnOk result (text.new ≡ text.old ++ spec.stop_text source.now spot.now ending bound) }
{
    push_owed_at(text, source, spot)?;
    push_machine_line(text, source, spot)?;
    push_protocol_line(text, source, spot)?;
    push_why_line(text, source, spot, ending, bound)?;
    push_nearest_line(text, source, spot, ending)
}
