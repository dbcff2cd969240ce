//! The table of moves.
ghost use Rattle.std.specs.Prelude.{◌≡◌, ◌<◌, ◌^◌, slice_get, IfSome, Some};
ghost use Rattle.rs_derive.specs.Moves.{arm_of};
ghost use Rattle.rs_derive.specs.Rules.{RuleFits, all_serve, arms_at, end_rule, keeps_head, pay_receive_rule, pay_send_rule, receive_rule, rule_at, send_past_rule, send_rule, serves_some};
ghost use Rattle.rs_prefix.specs.Search.{earliest};
ghost use Rattle.rs_prefix.specs.declared.earliest.ActKind.TheVariants.{Send, Receive};

use rs_model::{Act, Arm, Label, Role, State};
use rs_prefix::{ActKind, Found, Pending};

/// A rule of the table of moves, by which a machine follows its projection.
#[derive(Clone, Copy, Debug, PartialEq, Eq)]
pub enum Rule {
    /// Both have ended, and nothing is owed.
    Stops,
    /// The machine makes the act that is owed at the place, by this arm of its own.
    Pays { place: usize, arm: Arm },
    /// Both send to the same peer, and the projection has each arm of the machine.
    SendsBoth,
    /// The projection sends first, to this peer: one of its arms is guessed, and owed from there on.
    Guesses { peer: Role },
    /// The projection receives first, from this peer: each of its arms is followed, and owed from there on.
    Follows { peer: Role },
}

impl Rule {
    ghost use Rattle.rs_derive.specs.Rules.{pushes};

    /// Whether the move adds an act to what is owed.
    #[inline(always)]
    pub fn pushes(self) -> bool
        ensures { result ≡ pushes self }
    {
        matches!(self, Rule::Guesses { .. } | Rule::Follows { .. })
    }

    /// Whether the edges of the move keep the oldest act that is owed: something is owed, and another act is made.
    #[inline(always)]
    pub fn keeps_head(self, pending: &Pending) -> bool
        ensures { result ≡ keeps_head pending.now self }
    {
        match self {
            Rule::Stops => false,
            Rule::Pays { place, .. } => place > 0,
            _ => !pending.as_slice().is_empty(),
        }
    }
}

/// Returns the rule that applies when these acts are owed, the machine is at `state`, and the projection is at `there`;
/// none if there is no move. Allocates nothing.
#[inline(always)]
pub fn rule_at(pending: &Pending, state: &State, there: &State) -> Option<Rule>
    ensures rule { result ≡ rule_at pending.now state.now (Some there.now) }
    ensures fits { IfSome result (λ rule. RuleFits pending.now (arms_at state.now) (arms_at there.now) rule) }
{
    find_rule(pending, state, there)
}

#[inline(always)]
fn find_rule(pending: &Pending, state: &State, there: &State) -> Option<Rule>
    ensures { result ≡ rule_at pending.now state.now (Some there.now) }
{
    match state {
        State::Done => end_rule(pending, there),
        State::Puts { peer, arms } => send_rule(pending, *peer, arms.as_slice(), there),
        State::Takes { peer, arms } => receive_rule(pending, *peer, arms.as_slice(), there),
    }
}

/// The arms of a state; the end has none.
#[inline(always)]
pub fn arms_at(state: &State) -> &[Arm]
    ensures { result.now ≡ arms_at state.now }
{
    match state {
        State::Done => &[],
        State::Puts { arms, .. } | State::Takes { arms, .. } => arms.as_slice(),
    }
}

// The machine has ended.
#[inline(always)]
fn end_rule(pending: &Pending, there: &State) -> Option<Rule>
    ensures { result ≡ end_rule pending.now (Some there.now) }
{
    match there {
        State::Done if pending.as_slice().is_empty() => Some(Rule::Stops),
        _ => None,
    }
}

#[inline(always)]
fn send_rule(pending: &Pending, peer: Role, arms: &[Arm], there: &State) -> Option<Rule>
    ensures { result ≡ send_rule pending.now peer arms.now (Some there.now) (earliest pending.now Send peer) }
{
    match pending.find(ActKind::Send, peer) {
        Found::At(place) => pay_send_rule(pending.as_slice(), place, arms),
        Found::Blocked(_) => None,
        Found::Absent => send_past_rule(peer, arms, there),
    }
}

#[inline(always)]
fn receive_rule(pending: &Pending, peer: Role, arms: &[Arm], there: &State) -> Option<Rule>
    ensures { result ≡ receive_rule pending.now arms.now (Some there.now) (earliest pending.now Receive peer) }
{
    match (pending.find(ActKind::Receive, peer), there) {
        (Found::At(place), _) => pay_receive_rule(pending.as_slice(), place, arms),
        (Found::Absent, State::Takes { peer, .. }) => Some(Rule::Follows { peer: *peer }),
        _ => None,
    }
}

// The machine's only arm must be the send that is owed.
#[inline(always)]
fn pay_send_rule(pending: &[Act], place: usize, arms: &[Arm]) -> Option<Rule>
    ensures { result ≡ pay_send_rule place arms.now (slice_get pending.now place) }
{
    match (arms, pending.get(place)) {
        ([arm], Some(Act::Puts { label, sort, .. }))
            if arm.label.0 == label.0 && arm.sort.serves(*sort) => {
            Some(Rule::Pays { place, arm: *arm })
        }
        _ => None,
    }
}

// The machine must have an arm for the receive that is owed.
#[inline(always)]
fn pay_receive_rule(pending: &[Act], place: usize, arms: &[Arm]) -> Option<Rule>
    ensures { result ≡ pay_receive_rule place arms.now (slice_get pending.now place) }
{
    let Some(Act::Takes { label, sort, .. }) = pending.get(place) else {
        return None;
    };
    match arm_of(arms, *label) {
        Some(arm) if sort.serves(arm.sort) => Some(Rule::Pays { place, arm }),
        _ => None,
    }
}

// No send to the peer is owed.
#[inline(always)]
fn send_past_rule(peer: Role, arms: &[Arm], there: &State) -> Option<Rule>
    ensures { result ≡ send_past_rule peer arms.now (Some there.now) }
{
    match there {
        State::Done => None,
        State::Puts {
            peer: other,
            arms: theirs,
        } => {
            if other.0 != peer.0 {
                Some(Rule::Guesses { peer: *other })
            } else if all_serve(theirs.as_slice(), arms) {
                Some(Rule::SendsBoth)
            } else {
                None
            }
        }
        State::Takes { peer: other, .. } => Some(Rule::Follows { peer: *other }),
    }
}

/// The first arm with the label.
pub fn arm_of(arms: &[Arm], label: Label) -> Option<Arm>
    ensures arm { result ≡ arm_of arms.now label }
    ensures label { label.0 < 2 ^ 16 }
{
    for arm in arms {
        if arm.label.0 == label.0 {
            return Some(*arm);
        }
    }
    None
}

// Whether each arm is one of theirs, with a sort that serves.
fn all_serve(theirs: &[Arm], arms: &[Arm]) -> bool
    ensures { result ≡ all_serve theirs.now arms.now }
{
    for arm in arms {
        if !serves_some(*arm, arm_of(theirs, arm.label)) {
            return false;
        }
    }
    true
}

fn serves_some(arm: Arm, their: Option<Arm>) -> bool
    ensures { result ≡ serves_some arm their }
{
    match their {
        Some(their) => arm.sort.serves(their.sort),
        None => false,
    }
}
