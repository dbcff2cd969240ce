//! Which receives of its own a machine never makes, by the nodes of its derivation.

ghost use Rattle.std.specs.Prelude.{◌≡◌, ◌++◌, ◌∷◌, ℕ, List, [], IfOk, length};
ghost use Rattle.rs_derive.specs.Data.{DNode_data};
ghost use Rattle.rs_reasons.specs.Marks.{AreUses, arms_of_receive, marked, noted, use_of};
ghost use Rattle.rs_reasons.specs.Uses as spec;

use rs_derive::DNode;
use rs_model::{Act, Arm, Label, NoMemory, Role, State};
use rs_prefix::{ActKind, Found, Pending};
use std::alloc::Global;
use std::marker::Model;

/// What the nodes of a derivation do at a state: whether one stands there, and of each arm of a receive whether one
/// takes it.
#[derive(Drop)]
pub struct StateUse {
    pub visited: bool,
    pub taken: Vec<bool>,
}

impl Model for StateUse {
    ghost use Rattle.rs_reasons.specs.Marks.{StateUse_data};

    ghost Value = { StateUse_data };

    ghost view = { λ u. record { visited = u.visited; taken = u.taken.items } };
}

/// The label of the receive from the peer that is made next; none where none is owed that can be made.
fn label_next(pending: &Pending, peer: Role) -> Option<Label>
    ensures { result ≡ spec.label_next pending.now peer }
{
    match pending.find(ActKind::Receive, peer) {
        Found::At(place) => match pending.as_slice().get(place) {
            Some(Act::Puts { label, .. } | Act::Takes { label, .. }) => Some(*label),
            None => None,
        },
        Found::Blocked(_) | Found::Absent => None,
    }
}

/// How many receives the state chooses from.
fn receives_of(state: &State) -> usize
    ensures { result ≡ length (arms_of_receive state.now) }
{
    match state {
        State::Takes { arms, .. } => arms.as_slice().len(),
        State::Done | State::Puts { .. } => 0,
    }
}

/// Sets the flags of the arms with the label.
fn mark(taken: &mut Vec<bool>, arms: &[Arm], label: Label)
    ensures { taken.new.items ≡ marked label arms.now taken.old.items }
{
    for (place, arm) in arms.iter().enumerate() {
        if let Some(flag) = taken.get_mut(place) {
            *flag |= arm.label == label;
        }
    }
}

impl StateUse {
    /// That of no node.
    fn new(alloc: Global, state: &State) -> Result<StateUse, NoMemory>
        ensures { IfOk result (λ u. (number : ℕ) → u ≡ use_of [] number state.now) }
    {
        Ok(StateUse {
            visited: false,
            taken: vec![in alloc; false; receives_of(state)]?,
        })
    }

    /// Notes that one node more stands at the state, and owes these acts.
    fn note(&mut self, state: &State, pending: &Pending)
        ensures { self.new ≡ noted state.now pending.now self.old }
    {
        self.visited = true;
        let State::Takes { peer, arms } = state else {
            return;
        };
        if let Some(label) = label_next(pending, *peer) {
            mark(&mut self.taken, arms.as_slice(), label);
        }
    }
}

/// Notes what the node does at its state.
fn note_node(uses: &mut Vec<StateUse>, states: &[State], node: &DNode)
    requires { length uses.old.items ≡ length states.now }
    ensures { (nodes : List DNode_data) → AreUses nodes states.now uses.old.items → AreUses (nodes ++ node.now ∷ []) states.now uses.new.items }
{
    let place = node.state as usize;
    if place < states.len() {
        uses[place].note(&states[place], &node.pending);
    }
}

/// Of each of the states that no node stands there yet.
fn no_uses(alloc: Global, states: &[State]) -> Result<Vec<StateUse>, NoMemory>
    ensures { IfOk result (λ uses. AreUses [] states.now uses.items) }
{
    let mut uses = Vec::new(alloc);
    for state in states {
        uses.push(StateUse::new(alloc, state)?)?;
    }
    Ok(uses)
}

/// Of each of the states what the nodes do there.
pub fn uses_of(alloc: Global, states: &[State], nodes: &[DNode]) -> Result<Vec<StateUse>, NoMemory>
    ensures { IfOk result (λ uses. AreUses nodes.now states.now uses.items) }
{
    let mut uses = no_uses(alloc, states)?;
    for node in nodes {
        note_node(&mut uses, states, node);
    }
    Ok(uses)
}
