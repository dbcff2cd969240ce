//! The monitor of one role.
ghost use Rattle.std.specs.Prelude.{◌≡◌, IfErr, MatchOption, OnErr, OnOk, None, Some, ℕ};
ghost use Rattle.rs_monitor.specs.Acts.{Received, Sent, IsActOf};
ghost use Rattle.rs_monitor.specs.Monitors.{LetsThrough, after_act, has_ended, new_monitor, state_now};
ghost use Rattle.rs_monitor.specs.Refusals.{IsRefusedFor};

use crate::Refusal;
use crate::nexts::{next_after_receive, next_after_send};
use rs_model::{Label, Machine, Role, State, Value};
use std::marker::Model;

/// Watches the acts of one role's program: it knows the role's machine and the state in which the machine stands.
///
/// It owns its machine. No call takes memory, takes a lock or waits.
#[derive(Drop)]
pub struct Monitor {
    machine: Machine,
    at: u32,
    // How many more acts can be counted: it costs less to count down to 0 than up to a limit.
    uncounted: u64,
}

impl Model for Monitor {
    ghost use Rattle.std.specs.Prelude.{◌^◌, ◌-◌};
    ghost use Rattle.rs_monitor.specs.Monitors.{Monitor_data};

    ghost Value = { Monitor_data };

    ghost view = { λ m. record { machine = m.machine; at = m.at; acts = 2 ^ 64 - 1 - m.uncounted } };
}

impl Monitor {
    /// The monitor of a program that has made no act yet.
    pub fn new(machine: Machine) -> Monitor
        ensures { result ≡ new_monitor machine }
    {
        let at = machine.start;
        Monitor {
            machine,
            at,
            uncounted: u64::MAX,
        }
    }

    /// The machine.
    pub fn machine(&self) -> &Machine
        ensures { result.now ≡ self.now.machine }
    {
        &self.machine
    }

    /// The number of the state in which the machine stands.
    pub fn state_number(&self) -> u32
        ensures { result ≡ self.now.at }
    {
        self.at
    }

    /// The state in which the machine stands: it has ended, or it says with which peer, and by which arms, the machine sends or
    /// receives next. `None` if the machine has no state of that number, which never happens to a well-formed machine.
    pub fn state(&self) -> Option<&State>
        ensures { MatchOption result (state_now self.now ≡ None) (λ s. state_now self.now ≡ Some s.now) }
    {
        self.machine.states.get(self.at as usize)
    }

    /// How many acts were let through, counted up to 2^64 - 1.
    pub fn acts(&self) -> u64
        ensures { result ≡ self.now.acts }
    {
        u64::MAX - self.uncounted
    }

    /// Whether the machine has ended: its state neither sends nor receives.
    pub fn is_ended(&self) -> bool
        ensures { result ≡ has_ended (state_now self.now) }
    {
        !matches!(self.state(), Some(State::Puts { .. } | State::Takes { .. }))
    }

    /// Tests whether the machine may send this message now. The error is the first reason why not.
    pub fn may_send(&self, peer: Role, label: Label, value: &Value) -> Result<(), Refusal>
        ensures may { OnOk result ((next : ℕ) × IsActOf (state_now self.now) (Sent peer (record { label = label; value = value.now })) next) }
        ensures refused { IfErr result (IsRefusedFor (state_now self.now) (Sent peer (record { label = label; value = value.now }))) }
    {
        next_after_send(&self.machine, self.at, peer, label, value)?;
        Ok(())
    }

    /// Lets a send through: the program may now put this message into its queue to the peer.
    ///
    /// The error is the first reason why the machine doesn't send it in its state; then nothing changes, and the program has to
    /// keep the message back.
    pub fn sent(&mut self, peer: Role, label: Label, value: &Value) -> Result<(), Refusal>
        ensures sent { OnOk result (LetsThrough self.old (Sent peer (record { label = label; value = value.now })) self.new) }
        ensures refused { IfErr result (IsRefusedFor (state_now self.old) (Sent peer (record { label = label; value = value.now }))) }
        ensures same { OnErr result (self.new ≡ self.old) }
    {
        let next = next_after_send(&self.machine, self.at, peer, label, value)?;
        self.go(next);
        Ok(())
    }

    /// Lets a receive through: the program took this message from its queue from the peer.
    ///
    /// The error is the first reason why the machine doesn't receive it in its state; then nothing changes.
    pub fn received(&mut self, peer: Role, label: Label, value: &Value) -> Result<(), Refusal>
        ensures received { OnOk result (LetsThrough self.old (Received peer (record { label = label; value = value.now })) self.new) }
        ensures refused { IfErr result (IsRefusedFor (state_now self.old) (Received peer (record { label = label; value = value.now }))) }
        ensures same { OnErr result (self.new ≡ self.old) }
    {
        let next = next_after_receive(&self.machine, self.at, peer, label, value)?;
        self.go(next);
        Ok(())
    }

    /// Counts an act that leads to this state.
    pub(crate) fn go(&mut self, next: u32)
        ensures { self.new ≡ after_act self.old next }
    {
        self.at = next;
        self.uncounted = self.uncounted.saturating_sub(1);
    }
}
