//! The figures of the derivation of a machine from itself, which need no search where its states are numbered in order.
ghost use Rattle.std.specs.Prelude.{◌≡◌, ◌<◌, ℕ, IfNone, IfSome, length};
ghost use Rattle.rs_model.specs.declared.limits.TheConstants.{MOST_CANDIDATES};
ghost use Rattle.rs_derive.specs.Derivations.{IsProper};
ghost use Rattle.rs_search.specs.Candidates.{AreMoreThan};
ghost use Rattle.rs_search.specs.Figures.{AreStatesInOrder, HasOwnFigures};
ghost use Rattle.rs_search.specs.OwnSpots.{owing_at};

use rs_model::{MOST_CANDIDATES, Machine, State};

/// The figures of the derivation of a machine from itself.
#[derive(Clone, Copy, Debug)]
pub struct OwnFigures {
    /// How many nodes it has.
    pub nodes: u32,
    /// Whether an act is owed at one of them; no node owes two.
    pub owes: bool,
}

/// The figures of the canonical derivation of a machine from itself, which is the same within each bound that allows one
/// act to be owed. Returns none if the search would find too many candidates.
pub fn own_figures(machine: &Machine) -> Option<OwnFigures>
    requires proper { IsProper machine.now }
    requires order { AreStatesInOrder machine.now }
    ensures some { IfSome result (λ f. (bound : ℕ) → 0 < bound → HasOwnFigures machine.now bound f) }
    ensures none { IfNone result ((bound : ℕ) → 0 < bound → AreMoreThan machine.now machine.now bound MOST_CANDIDATES) }
{
    let mut nodes = 0;
    let mut owes = false;
    for state in &machine.states {
        let owing = count_owing(state);
        if owing >= MOST_CANDIDATES - nodes {
            return None;
        }
        nodes += owing + 1;
        owes = owes || owing > 0;
    }
    Some(OwnFigures {
        nodes: nodes as u32,
        owes,
    })
}

// At how many nodes an act is owed while the machine is at the state.
fn count_owing(state: &State) -> usize
    ensures { (s : ℕ) → result ≡ length (owing_at s state.now) }
{
    match state {
        State::Takes { arms, .. } => arms.as_slice().len(),
        State::Done | State::Puts { .. } => 0,
    }
}
