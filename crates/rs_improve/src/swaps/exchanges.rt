//! The least state of a machine that can be swapped.

ghost use Rattle.std.specs.Prelude.{◌≡◌, ◌↔◌, ◌<◌, ℕ, length, IsTrue, Some, slice_get};
ghost use Rattle.rs_derive.specs.Derivations.{IsProper};
ghost use Rattle.rs_graph.specs.Lists.{Among};
ghost use Rattle.rs_model.specs.declared.graph.Arm.{Arm};
ghost use Rattle.rs_improve.specs.Swapping.{IsExchangeAt, IsLeastIn};
ghost use Rattle.rs_improve.specs.Swaps.{HaveSameMessages, LeadsToSends};

use rs_model::{Arm, Machine, Role, State};
use std::marker::Model;

/// A receive that can be swapped: its number, from whom and what it takes, and to whom and what all states after it send.
#[derive(Drop)]
pub(crate) struct Exchange<'a> {
    pub(crate) state: usize,
    pub(crate) from: Role,
    pub(crate) takes: &'a [Arm],
    pub(crate) to: Role,
    pub(crate) puts: &'a [Arm],
}

impl<'a> Model for Exchange<'a> {
    ghost use Rattle.rs_improve.specs.Swaps.{Exchange_data};

    ghost Value = { Exchange_data };

    ghost view = { λ x. record { state = x.state; from = x.from; takes = x.takes.now; to = x.to; puts = x.puts.now } };
}

/// The exchange at the least state that can be swapped.
pub(crate) fn least_exchange(machine: &Machine) -> Option<Exchange<'_>>
    requires { IsProper machine.now }
    ensures { IsLeastIn machine.now result }
{
    for state in 0..machine.states.len() {
        let x = exchange_at(machine, state);
        if x.is_some() {
            return x;
        }
    }
    None
}

// The exchange at the state.
fn exchange_at(machine: &Machine, state: usize) -> Option<Exchange<'_>>
    requires proper { IsProper machine.now }
    requires present { state < length machine.now.states }
    ensures { IsExchangeAt machine.now state result }
{
    match &machine.states[state] {
        State::Takes { peer, arms } => exchange_of(machine, state, *peer, arms.as_slice()),
        _ => None,
    }
}

// The exchange at a state that takes from the peer.
fn exchange_of<'a>(
    machine: &'a Machine,
    state: usize,
    from: Role,
    takes: &'a [Arm],
) -> Option<Exchange<'a>>
    requires proper { IsProper machine.now }
    requires stands { slice_get machine.now.states state ≡ Some (State.Takes from takes.now) }
    ensures { IsExchangeAt machine.now state result }
{
    match &machine.states[takes[0].next as usize] {
        State::Puts { peer, arms } => {
            let puts = arms.as_slice();
            if all_lead_to_sends(machine, takes, *peer, puts) {
                Some(Exchange {
                    state,
                    from,
                    takes,
                    to: *peer,
                    puts,
                })
            } else {
                None
            }
        }
        _ => None,
    }
}

// Whether all arms lead to states that send these messages to the peer.
fn all_lead_to_sends(machine: &Machine, takes: &[Arm], to: Role, puts: &[Arm]) -> bool
    requires within { (arm : Arm) → Among takes.now arm → arm.next < length machine.now.states }
    ensures { IsTrue result ↔ ((arm : Arm) → Among takes.now arm → LeadsToSends machine.now to puts.now arm) }
{
    for i in 0..takes.len() {
        if !leads_to_sends(machine, takes[i], to, puts) {
            return false;
        }
    }
    true
}

// Whether the arm leads to a state that sends these messages to the peer.
fn leads_to_sends(machine: &Machine, arm: Arm, to: Role, puts: &[Arm]) -> bool
    requires within { arm.next < length machine.now.states }
    ensures { IsTrue result ↔ LeadsToSends machine.now to puts.now arm }
{
    match &machine.states[arm.next as usize] {
        State::Puts { peer, arms } => *peer == to && have_same_messages(arms.as_slice(), puts),
        _ => false,
    }
}

// Whether both have the same labels and sorts, in the same order.
fn have_same_messages(ours: &[Arm], theirs: &[Arm]) -> bool
    ensures { IsTrue result ↔ HaveSameMessages ours.now theirs.now }
{
    if ours.len() != theirs.len() {
        return false;
    }
    for i in 0..ours.len() {
        if !is_same_message(ours[i], theirs[i]) {
            return false;
        }
    }
    true
}

// Whether both have the same label and sort.
fn is_same_message(ours: Arm, theirs: Arm) -> bool
    ensures { IsTrue result ↔ ((ours.label ≡ theirs.label) × (ours.sort ≡ theirs.sort)) }
{
    ours.label == theirs.label && ours.sort == theirs.sort
}
