//! The test of a machine.

ghost use Rattle.std.specs.Prelude.{◌≡◌, ◌==◌, ◌<◌, ◌^◌, [], length, nat_le, IfErr, OnOk, None, Some};
ghost use Rattle.std.specs.List.{list_any};
ghost use Rattle.rs_model.specs.Checks.{choice_fault, machine_fault, state_fault};
ghost use Rattle.rs_model.specs.Repeats.{first_repeat};
ghost use Rattle.rs_model.specs.Faults.{first_fault};
ghost use Rattle.rs_model.specs.WellFormed.{IsWellFormedMachine};

use crate::{Arm, Label, Machine, Role, State};

/// Why a machine isn't well formed. `state` is the number of the state that is at fault.
#[derive(Clone, Copy, Debug, PartialEq, Eq)]
pub enum MachineFault {
    /// An arm of the state leads to no state. At the number of the start also: the start is no state, or the
    /// machine's role isn't one of the roles.
    BadNext { state: u32 },
    /// The state puts or takes and has no arms.
    NoArms { state: u32 },
    /// The label stands at two arms of the state; it is the first one that repeats an earlier one.
    TwiceLabel { state: u32, label: Label },
    /// The peer of the state is the machine's own role.
    SelfPeer { state: u32 },
    /// The peer of the state isn't one of the roles.
    UnknownPeer { state: u32 },
}

impl Machine {
    /// Tests that the machine is well formed among `roles` roles: its role is one of them, it starts at a state, and
    /// each state that puts or takes has arms, another of the roles as its peer, no label twice, and a state behind
    /// each arm.
    ///
    /// The error is the first fault in this order: the start and the role; then state by state that there are arms,
    /// the peer, all labels, and all nexts. Takes no memory.
    pub fn check(&self, roles: u8) -> Result<(), MachineFault>
        requires { length self.now.states < 2 ^ 32 }
        ensures ok { OnOk result (IsWellFormedMachine self.now roles) }
        ensures none { OnOk result (first_fault self.now roles ≡ None) }
        ensures err { IfErr result (λ e. first_fault self.now roles ≡ Some e) }
    {
        match self.fault(roles) {
            Some(fault) => Err(fault),
            None => Ok(()),
        }
    }

    fn fault(&self, roles: u8) -> Option<MachineFault>
        requires { length self.now.states < 2 ^ 32 }
        ensures { result ≡ machine_fault self.now roles }
    {
        if self.start as usize >= self.states.len() || self.role.0 >= roles {
            return Some(MachineFault::BadNext { state: self.start });
        }
        for (number, state) in self.states.iter().enumerate() {
            if let Some(fault) = self.state_fault(roles, number as u32, state) {
                return Some(fault);
            }
        }
        None
    }

    fn state_fault(&self, roles: u8, number: u32, state: &State) -> Option<MachineFault>
        ensures { result ≡ state_fault self.now roles number state.now }
    {
        match state {
            State::Done => None,
            State::Puts { peer, arms } | State::Takes { peer, arms } => {
                self.choice_fault(roles, number, *peer, arms.as_slice())
            }
        }
    }

    fn choice_fault(&self, roles: u8, state: u32, peer: Role, arms: &[Arm]) -> Option<MachineFault>
        ensures { result ≡ choice_fault self.now roles state peer arms.now }
    {
        if arms.is_empty() {
            Some(MachineFault::NoArms { state })
        } else if peer == self.role {
            Some(MachineFault::SelfPeer { state })
        } else if peer.0 >= roles {
            Some(MachineFault::UnknownPeer { state })
        } else if let Some(label) = first_repeat(arms) {
            Some(MachineFault::TwiceLabel { state, label })
        } else if has_next_from(arms, self.states.len()) {
            Some(MachineFault::BadNext { state })
        } else {
            None
        }
    }
}

/// The first label that repeats an earlier one. It reads at most one arm more than there are labels.
pub fn first_repeat(arms: &[Arm]) -> Option<Label>
    ensures { result ≡ first_repeat arms.now [] }
{
    for (i, arm) in arms.iter().enumerate() {
        let (earlier, _) = arms.split_at(i);
        if has_label(earlier, arm.label) {
            return Some(arm.label);
        }
    }
    None
}

fn has_label(arms: &[Arm], label: Label) -> bool
    ensures { result ≡ list_any (λ a. a.label.0 == label.0) arms.now }
{
    arms.iter().any(|arm| arm.label.0 == label.0)
}

/// Whether an arm leads to the state or node numbered `count` or to a later one.
pub fn has_next_from(arms: &[Arm], count: usize) -> bool
    ensures { result ≡ list_any (λ a. nat_le count a.next) arms.now }
{
    arms.iter().any(|arm| arm.next as usize >= count)
}
