//! Monitors that keep the acts that they let through.
ghost use Rattle.std.specs.Prelude.{◌≡◌, ◌++◌, ◌∷◌, [], IfErr, OnErr, OnOk};
ghost use Rattle.rs_monitor.specs.Acts.{IsActOf, Received, Sent};
ghost use Rattle.rs_monitor.specs.Monitors.{LetsThrough, after_act, new_monitor, state_now};
ghost use Rattle.rs_monitor.specs.Replays.{Makes};
ghost use Rattle.rs_monitor.specs.Traces.{IsUntraced};

use crate::nexts::{next_after_receive, next_after_send};
use crate::{Monitor, ProgramAct, Refusal};
use rs_core::Message;
use rs_model::{Label, Machine, NoMemory, Role, Value};
use std::alloc::Global;
use std::marker::Model;

/// Why an act wasn't let through by a monitor that keeps its acts.
#[derive(Clone, Copy, Debug, PartialEq, Eq)]
pub enum TraceFault {
    /// The act isn't one of the machine's in its state.
    Refused(Refusal),
    /// The machine has the act, and there was no memory to keep it.
    NoMemory,
}

impl From<Refusal> for TraceFault {
    ghost use Rattle.rs_monitor.specs.declared.traces.TraceFault.TheVariants as fault;

    ghost from_gives = { λ r e. e ≡ fault.Refused r };

    fn from(refusal: Refusal) -> Self {
        TraceFault::Refused(refusal)
    }
}

impl From<NoMemory> for TraceFault {
    ghost use Rattle.rs_monitor.specs.declared.traces.TraceFault.TheVariants as fault;

    ghost from_gives = { λ _ e. e ≡ fault.NoMemory };

    fn from(_refused: NoMemory) -> Self {
        TraceFault::NoMemory
    }
}

/// A monitor that keeps the acts that it lets through, so that they can be printed, or tested by [`crate::replay`].
///
/// Keeping an act takes memory, and a copy of its value.
#[derive(Drop)]
pub struct TracedMonitor {
    monitor: Monitor,
    trace: Vec<ProgramAct>,
}

impl Model for TracedMonitor {
    ghost use Rattle.rs_monitor.specs.Replays.{Makes};
    ghost use Rattle.rs_monitor.specs.Traces.{TracedMonitor_data};

    ghost Value = { TracedMonitor_data };

    ghost view = { λ t. record { monitor = t.monitor; trace = t.trace.items } };

    ghost invariant = { λ t. Makes t.monitor.machine t.monitor.machine.start t.trace.items t.monitor.at };
}

impl TracedMonitor {
    /// The monitor of a program that has made no act yet.
    pub fn new(alloc: Global, machine: Machine) -> TracedMonitor
        ensures monitor { result.monitor ≡ new_monitor machine }
        ensures trace { result.trace ≡ [] }
    {
        TracedMonitor {
            monitor: Monitor::new(machine),
            trace: Vec::new(alloc),
        }
    }

    /// The monitor: its machine, its state and the number of its acts.
    pub fn monitor(&self) -> &Monitor
        ensures { result.now ≡ self.now.monitor }
    {
        &self.monitor
    }

    /// The acts that were let through, in order. The machine makes them from its start, and they lead to its state.
    pub fn trace(&self) -> &[ProgramAct]
        ensures trace { result.now ≡ self.now.trace }
        ensures makes { Makes self.now.monitor.machine self.now.monitor.machine.start result.now self.now.monitor.at }
    {
        self.trace.as_slice()
    }

    /// Lets a send through, as [`Monitor::sent`] does, and keeps it.
    ///
    /// The error is why the machine doesn't send the message in its state, or that there was no memory to keep it. Then nothing
    /// changes.
    pub fn sent(&mut self, peer: Role, label: Label, value: &Value) -> Result<(), TraceFault>
        ensures sent { OnOk result (LetsThrough self.old.monitor (Sent peer (record { label = label; value = value.now })) self.new.monitor) }
        ensures trace { OnOk result (self.new.trace ≡ self.old.trace ++ (Sent peer (record { label = label; value = value.now }) ∷ [])) }
        ensures refused { IfErr result (IsUntraced (state_now self.old.monitor) (Sent peer (record { label = label; value = value.now }))) }
        ensures same { OnErr result (self.new ≡ self.old) }
    {
        let next = next_after_send(
            self.monitor.machine(),
            self.monitor.state_number(),
            peer,
            label,
            value,
        )?;
        let message = Message {
            label,
            value: value.copy(*self.trace.allocator())?,
        };
        self.keep(next, ProgramAct::Sent { peer, message })?;
        Ok(())
    }

    /// Lets a receive through, as [`Monitor::received`] does, and keeps it.
    ///
    /// The error is why the machine doesn't receive the message in its state, or that there was no memory to keep it. Then
    /// nothing changes.
    pub fn received(&mut self, peer: Role, label: Label, value: &Value) -> Result<(), TraceFault>
        ensures received { OnOk result (LetsThrough self.old.monitor (Received peer (record { label = label; value = value.now })) self.new.monitor) }
        ensures trace { OnOk result (self.new.trace ≡ self.old.trace ++ (Received peer (record { label = label; value = value.now }) ∷ [])) }
        ensures refused { IfErr result (IsUntraced (state_now self.old.monitor) (Received peer (record { label = label; value = value.now }))) }
        ensures same { OnErr result (self.new ≡ self.old) }
    {
        let next = next_after_receive(
            self.monitor.machine(),
            self.monitor.state_number(),
            peer,
            label,
            value,
        )?;
        let message = Message {
            label,
            value: value.copy(*self.trace.allocator())?,
        };
        self.keep(next, ProgramAct::Received { peer, message })?;
        Ok(())
    }

    /// Counts and keeps an act of the state, which leads to the state numbered `next`.
    #[tactic(auto, using(crate::proofs::Making::makes_one))]
    fn keep(&mut self, next: u32, act: ProgramAct) -> Result<(), NoMemory>
        requires is_act { IsActOf (state_now self.old.monitor) act next }
        ensures monitor { OnOk result (self.new.monitor ≡ after_act self.old.monitor next) }
        ensures trace { OnOk result (self.new.trace ≡ self.old.trace ++ (act ∷ [])) }
        ensures same { OnErr result (self.new ≡ self.old) }
    {
        self.trace.reserve(1)?;
        self.monitor.go(next);
        self.trace.push_reserved(act);
        Ok(())
    }
}
