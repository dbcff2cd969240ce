//! Where a protocol or a machine that isn't well formed is at fault.

ghost use Rattle.std.specs.Prelude.{◌≡◌, ◌++◌, OnOk};
ghost use Rattle.rs_reasons.specs.Faults as spec;

use rs_model::{Machine, MachineFault, Names, NoMemory, Protocol};
use rs_places::Position;
use rs_text::Text;
use rs_walk_texts::{push_placed_head, push_placed_talk};
use rs_wellformed::WfFault;

/// The node that is at fault.
fn node_of(fault: WfFault) -> u32
    ensures { result ≡ spec.node_of fault }
{
    match fault {
        WfFault::SelfTalk { node }
        | WfFault::NoArms { node }
        | WfFault::TooManyArms { node }
        | WfFault::TwiceLabel { node, .. }
        | WfFault::BadNext { node } => node,
    }
}

/// Writes the line of the talk that is at fault. Refused memory is the only error.
pub fn push_talk_line(
    text: &mut Text,
    names: &Names,
    protocol: &Protocol,
    talks: &[Position],
    fault: WfFault,
) -> Result<(), NoMemory>
    ensures { OnOk result (text.new ≡ text.old ++ spec.talk_line names.now protocol.now talks.now fault) }
{
    text.push(b"talk: ")?;
    push_placed_talk(
        text,
        names,
        protocol.nodes.as_slice(),
        talks,
        node_of(fault),
    )?;
    text.push(b"\n")
}

/// The state that is at fault.
fn state_of(fault: MachineFault) -> u32
    ensures { result ≡ spec.state_of fault }
{
    match fault {
        MachineFault::BadNext { state }
        | MachineFault::NoArms { state }
        | MachineFault::TwiceLabel { state, .. }
        | MachineFault::SelfPeer { state }
        | MachineFault::UnknownPeer { state } => state,
    }
}

/// Writes the line of the state that is at fault. Refused memory is the only error.
pub fn push_state_line(
    text: &mut Text,
    names: &Names,
    states: &[Position],
    machine: &Machine,
    fault: MachineFault,
) -> Result<(), NoMemory>
    ensures { OnOk result (text.new ≡ text.old ++ spec.state_line names.now states.now machine.now fault) }
{
    text.push(b"state: ")?;
    push_placed_head(
        text,
        names,
        machine.states.as_slice(),
        states,
        state_of(fault),
    )?;
    text.push(b"\n")
}
