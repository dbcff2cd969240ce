//! The states of a swapped machine that are found, numbered in order of discovery.

ghost use Rattle.std.specs.Prelude.{◌≡◌, ◌≢◌, ◌<◌, ◌≤◌, ◌∷◌, [], length, IfOk, OnOk, Some};
ghost use Rattle.rs_derive.specs.Derivations.{IsProper};
ghost use Rattle.rs_graph.specs.Lists.{Among};
ghost use Rattle.rs_graph.specs.Naming.{IsNamed};
ghost use Rattle.rs_model.specs.declared.limits.TheConstants.{MOST_STATES};
ghost use Rattle.rs_improve.specs.Swapping.{AreNumberedIn, AreNamedWithin, HasSlot, number_slot};
ghost use Rattle.rs_improve.specs.declared.swaps.SwappedState.{SwappedState};
ghost use Rattle.rs_improve.specs.declared.swaps.SwappedState.TheVariants.{Old};

use super::SwappedState;
use super::exchanges::Exchange;
use rs_graph::NodeRow;
use rs_model::{MOST_STATES, Machine, NoMemory};
use std::alloc::Global;

/// The states that are found, in order, and their numbers: of those that are old and of those that are new.
#[derive(Drop)]
pub(crate) struct NumberedStates {
    pub(crate) items: Vec<SwappedState>,
    pub(crate) olds: Vec<Option<u32>>,
    pub(crate) news: Vec<Option<u32>>,
}

impl NumberedStates {
    /// The start alone.
    pub(crate) fn begin(
        alloc: Global,
        machine: &Machine,
        x: &Exchange<'_>,
    ) -> Result<NumberedStates, NoMemory>
        requires proper { IsProper machine.now }
        ensures items { IfOk result (λ f. f.items.items ≡ Old machine.now.start ∷ []) }
        ensures filed { IfOk result (λ f. AreNumberedIn f.items.items f.olds.items f.news.items) }
        ensures olds { IfOk result (λ f. length f.olds.items ≡ length machine.now.states) }
        ensures news { IfOk result (λ f. length f.news.items ≡ length x.now.puts) }
    {
        let mut found = NumberedStates {
            items: Vec::new(alloc),
            olds: vec![in alloc; None; machine.states.len()]?,
            news: vec![in alloc; None; x.puts.len()]?,
        };
        found.number_of(SwappedState::Old {
            state: machine.start,
        })?;
        Ok(found)
    }

    // The number that the state has, if it is found.
    fn slot(&self, state: SwappedState) -> Option<u32>
        requires slot { HasSlot (length self.now.olds.items) (length self.now.news.items) state }
        ensures { number_slot self.now.olds.items self.now.news.items state ≡ Some result }
    {
        match state {
            SwappedState::Old { state } => self.olds[state as usize],
            SwappedState::New { send } => self.news[send],
        }
    }

    // From now on the state has this number.
    fn set_slot(&mut self, state: SwappedState, n: u32)
        requires slot { HasSlot (length self.old.olds.items) (length self.old.news.items) state }
        ensures items { self.new.items ≡ self.old.items }
        ensures here { number_slot self.new.olds.items self.new.news.items state ≡ Some (Some n) }
        ensures others { (s : SwappedState) → s ≢ state → number_slot self.new.olds.items self.new.news.items s ≡ number_slot self.old.olds.items self.old.news.items s }
        ensures olds { length self.new.olds.items ≡ length self.old.olds.items }
        ensures news { length self.new.news.items ≡ length self.old.news.items }
    {
        match state {
            SwappedState::Old { state } => self.olds[state as usize] = Some(n),
            SwappedState::New { send } => self.news[send] = Some(n),
        }
    }

    // The number of the state, which is added where it has none.
    fn number_of(&mut self, state: SwappedState) -> Result<u32, NoMemory>
        requires slot { HasSlot (length self.old.olds.items) (length self.old.news.items) state }
        requires bounded { length self.old.items.items ≤ MOST_STATES }
        requires filed { AreNumberedIn self.old.items.items self.old.olds.items self.old.news.items }
        ensures named { IfOk result (IsNamed self.old.items.items state self.new.items.items) }
        ensures filed { OnOk result (AreNumberedIn self.new.items.items self.new.olds.items self.new.news.items) }
        ensures olds { OnOk result (length self.new.olds.items ≡ length self.old.olds.items) }
        ensures news { OnOk result (length self.new.news.items ≡ length self.old.news.items) }
    {
        match self.slot(state) {
            Some(n) => Ok(n),
            None => {
                let n = self.items.len() as u32;
                self.items.push(state)?;
                self.set_slot(state, n);
                Ok(n)
            }
        }
    }
}

/// The numbers of states, of which the new ones are added; none where more are found than there may be.
pub(crate) fn name_all(
    alloc: Global,
    found: &mut NumberedStates,
    states: &[SwappedState],
) -> Result<Option<NodeRow>, NoMemory>
    requires slots { (s : SwappedState) → Among states.now s → HasSlot (length found.old.olds.items) (length found.old.news.items) s }
    requires bounded { length found.old.items.items ≤ MOST_STATES }
    requires filed { AreNumberedIn found.old.items.items found.old.olds.items found.old.news.items }
    ensures named { IfOk result (AreNamedWithin found.old.items.items states.now found.new.items.items) }
    ensures filed { OnOk result (AreNumberedIn found.new.items.items found.new.olds.items found.new.news.items) }
    ensures olds { OnOk result (length found.new.olds.items ≡ length found.old.olds.items) }
    ensures news { OnOk result (length found.new.news.items ≡ length found.old.news.items) }
{
    let mut row = NodeRow::new(alloc);
    for i in 0..states.len() {
        let n = found.number_of(states[i])?;
        if found.items.len() > MOST_STATES {
            return Ok(None);
        }
        row.push(n)?;
    }
    Ok(Some(row))
}
