//! Recorded acts, tested against a machine.
ghost use Rattle.std.specs.Prelude.{◌≡◌, IfErr, IfOk, Some};
ghost use Rattle.rs_core.specs.Configurations.{state_of};
ghost use Rattle.rs_monitor.specs.Nexts as spec;
ghost use Rattle.rs_monitor.specs.Replays.{DepartsAt, Makes};

use crate::nexts::{next_after_receive, next_after_send};
use crate::{ProgramAct, Refusal};
use rs_model::Machine;

/// The first act of a list that a machine doesn't make.
#[derive(Clone, Copy, Debug, PartialEq, Eq)]
pub struct Departure {
    /// Its place in the list, from 0.
    pub place: usize,
    /// The number of the state to which the acts before it lead. That state says what the machine would have done.
    pub state: u32,
    /// Why the act isn't one of that state's.
    pub refusal: Refusal,
}

/// The state to which an act leads from state number `at` of the machine, or why it isn't an act of that state.
fn next_after_act(machine: &Machine, at: u32, act: &ProgramAct) -> Result<u32, Refusal>
    ensures { result ≡ spec.next_after (state_of (Some machine.now) at) act.now }
{
    match act {
        ProgramAct::Sent { peer, message } => {
            next_after_send(machine, at, *peer, message.label, &message.value)
        }
        ProgramAct::Received { peer, message } => {
            next_after_receive(machine, at, *peer, message.label, &message.value)
        }
    }
}

/// Tests whether the machine makes these acts, one after another, from its start: for logs of programs that ran without a
/// monitor. Returns the number of the state to which they lead.
///
/// The error is the first act that the machine doesn't make. Takes no memory.
#[tactic(auto, using(crate::proofs::Making::makes_none, crate::proofs::Making::makes_all))]
pub fn replay(machine: &Machine, acts: &[ProgramAct]) -> Result<u32, Departure>
    ensures made { IfOk result (Makes machine.now machine.now.start acts.now) }
    ensures departs { IfErr result (DepartsAt machine.now acts.now) }
{
    let mut at = machine.start;
    for (place, act) in acts.iter().enumerate() {
        match next_after_act(machine, at, act) {
            Ok(next) => at = next,
            Err(refusal) => {
                return Err(Departure {
                    place,
                    state: at,
                    refusal,
                });
            }
        }
    }
    Ok(at)
}
