//! The test of a protocol.

ghost use Rattle.std.specs.Prelude.{◌≡◌, ◌<◌, ◌^◌, length, IfErr, OnOk, None};
ghost use Rattle.rs_wellformed.specs.Checks.{node_fault, protocol_fault, talk_fault};
ghost use Rattle.rs_wellformed.specs.Faults.{first_fault};
ghost use Rattle.rs_wellformed.specs.WellFormed.{IsWellFormed};

use rs_model::{Arm, Label, MOST_ARMS, Node, Protocol, Role, first_repeat, has_next_from};

/// Why a protocol isn't well formed. `node` is the number of the node that is at fault.
#[derive(Clone, Copy, Debug, PartialEq, Eq)]
pub enum WfFault {
    /// The sender of the talk is its receiver.
    SelfTalk { node: u32 },
    /// The talk has no arms.
    NoArms { node: u32 },
    /// The talk has more than 32 arms.
    TooManyArms { node: u32 },
    /// The label stands at two arms of the talk; it is the first one that repeats an earlier one.
    TwiceLabel { node: u32, label: Label },
    /// An arm of the talk leads to no node, or its sender or its receiver isn't one of the roles. With the root's own
    /// number also: the root is no node.
    BadNext { node: u32 },
}

/// Tests that the protocol is well formed: its root is a node, and each talk is between two of its roles and has 1 to
/// 32 arms, no label twice, and a node behind each arm.
///
/// The error is the first fault in this order: the root; then node by node that the sender isn't the receiver, that
/// there are arms and at most 32, all labels, and all nexts and roles. Takes no memory.
pub fn well_formed(protocol: &Protocol) -> Result<(), WfFault>
    requires { length protocol.now.nodes < 2 ^ 32 }
    ensures ok { OnOk result (IsWellFormed protocol.now) }
    ensures none { OnOk result (first_fault protocol.now ≡ None) }
    ensures err { IfErr result (λ e. first_fault protocol.now ≡ Some e) }
{
    match protocol_fault(protocol) {
        Some(fault) => Err(fault),
        None => Ok(()),
    }
}

fn protocol_fault(protocol: &Protocol) -> Option<WfFault>
    requires { length protocol.now.nodes < 2 ^ 32 }
    ensures { result ≡ protocol_fault protocol.now }
{
    if protocol.root as usize >= protocol.nodes.len() {
        return Some(WfFault::BadNext {
            node: protocol.root,
        });
    }
    for (number, node) in protocol.nodes.iter().enumerate() {
        if let Some(fault) = node_fault(protocol, number as u32, node) {
            return Some(fault);
        }
    }
    None
}

fn node_fault(protocol: &Protocol, number: u32, node: &Node) -> Option<WfFault>
    ensures { result ≡ node_fault protocol.now number node.now }
{
    match node {
        Node::Finished => None,
        Node::Talk {
            sender,
            receiver,
            arms,
        } => talk_fault(protocol, number, *sender, *receiver, arms.as_slice()),
    }
}

fn talk_fault(
    protocol: &Protocol,
    node: u32,
    sender: Role,
    receiver: Role,
    arms: &[Arm],
) -> Option<WfFault>
    ensures { result ≡ talk_fault protocol.now node sender receiver arms.now }
{
    if sender == receiver {
        Some(WfFault::SelfTalk { node })
    } else if arms.is_empty() {
        Some(WfFault::NoArms { node })
    } else if arms.len() > MOST_ARMS {
        Some(WfFault::TooManyArms { node })
    } else if let Some(label) = first_repeat(arms) {
        Some(WfFault::TwiceLabel { node, label })
    } else if has_next_from(arms, protocol.nodes.len())
        || sender.0 >= protocol.roles
        || receiver.0 >= protocol.roles
    {
        Some(WfFault::BadNext { node })
    } else {
        None
    }
}
