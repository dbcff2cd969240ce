//! What each node is for a role.
ghost use Rattle.std.specs.Prelude.{◌≡◌, ◌<◌, ◌^◌, ℕ, map, length, replicate, true, IfOk};
ghost use Rattle.rs_partings.specs.Flags.{AreBut, AreFlags, only_flag};
ghost use Rattle.rs_project.specs.Graph.{Involves, IsReached, PassesBy};
ghost use Rattle.rs_project.specs.Marks.{IsAwaited, involves_role};
ghost use Rattle.rs_wellformed.specs.WellFormed.{IsWellFormed};

use crate::spreading::{reached_through, reaching_through};
use rs_model::{NoMemory, Node, Protocol, Role};
use std::alloc::Global;

/// For each node of a protocol whether it is a talk of the role, whether such a talk can be reached from it, and whether it
/// passes by the role.
#[derive(Drop)]
pub struct Survey {
    pub involved: Vec<bool>,
    pub awaited: Vec<bool>,
    pub passing: Vec<bool>,
}

/// What each node of the protocol is for the role.
pub fn survey_of(alloc: Global, protocol: &Protocol, role: Role) -> Result<Survey, NoMemory>
    requires well_formed { IsWellFormed protocol.now }
    requires bounded { length protocol.now.nodes < 2 ^ 32 }
    ensures involved { IfOk result (λ s. AreFlags (length protocol.now.nodes) (λ n. Involves protocol.now role n) s.involved.items) }
    ensures awaited { IfOk result (λ s. AreFlags (length protocol.now.nodes) (λ n. IsAwaited protocol.now role n) s.awaited.items) }
    ensures passing { IfOk result (λ s. AreFlags (length protocol.now.nodes) (λ n. PassesBy protocol.now role n) s.passing.items) }
{
    let involved = involved_nodes(alloc, protocol, role)?;
    let awaited = awaited_nodes(alloc, protocol, role, &involved)?;
    let passing = all_but(alloc, &awaited, &involved)?;
    Ok(Survey {
        involved,
        awaited,
        passing,
    })
}

fn involved_nodes(alloc: Global, protocol: &Protocol, role: Role) -> Result<Vec<bool>, NoMemory>
    ensures { IfOk result (λ v. v.items ≡ map (λ n. involves_role role n) protocol.now.nodes) }
{
    let mut involved = Vec::with_capacity(alloc, protocol.nodes.len())?;
    for node in &protocol.nodes {
        involved.push(involves(node, role))?;
    }
    Ok(involved)
}

fn involves(node: &Node, role: Role) -> bool
    ensures { result ≡ involves_role role node.now }
{
    match node {
        Node::Finished => false,
        Node::Talk {
            sender,
            receiver,
            ..
        } => *sender == role || *receiver == role,
    }
}

// The nodes from which a talk of the role can be reached.
fn awaited_nodes(
    alloc: Global,
    protocol: &Protocol,
    role: Role,
    involved: &[bool],
) -> Result<Vec<bool>, NoMemory>
    requires well_formed { IsWellFormed protocol.now }
    requires bounded { length protocol.now.nodes < 2 ^ 32 }
    requires involved { AreFlags (length protocol.now.nodes) (λ n. Involves protocol.now role n) involved.now }
    ensures { IfOk result (λ v. AreFlags (length protocol.now.nodes) (λ n. IsAwaited protocol.now role n) v.items) }
{
    let every = vec![in alloc; true; protocol.nodes.len()]?;
    reaching_through(alloc, protocol, &every, involved)
}

/// The nodes that are reached from the root.
pub fn reached_nodes(alloc: Global, protocol: &Protocol) -> Result<Vec<bool>, NoMemory>
    requires well_formed { IsWellFormed protocol.now }
    requires bounded { length protocol.now.nodes < 2 ^ 32 }
    ensures { IfOk result (λ v. AreFlags (length protocol.now.nodes) (λ n. IsReached protocol.now n) v.items) }
{
    let every = vec![in alloc; true; protocol.nodes.len()]?;
    let root = only(alloc, protocol.nodes.len(), protocol.root)?;
    reached_through(alloc, protocol, &every, &root)
}

/// The flag of one of so many nodes stands alone; none where there is no such node.
pub fn only(alloc: Global, count: usize, number: u32) -> Result<Vec<bool>, NoMemory>
    ensures { IfOk result (λ v. v.items ≡ only_flag count number) }
{
    let mut flags = vec![in alloc; false; count]?;
    if (number as usize) < count {
        flags[number as usize] = true;
    }
    Ok(flags)
}

/// The flags of the first list without those of the second.
pub fn all_but(alloc: Global, ours: &[bool], theirs: &[bool]) -> Result<Vec<bool>, NoMemory>
    requires { length theirs.now ≡ length ours.now }
    ensures { IfOk result (λ v. AreBut ours.now theirs.now v.items) }
{
    let mut flags = Vec::new(alloc);
    for i in 0..ours.len() {
        flags.push(ours[i] && !theirs[i])?;
    }
    Ok(flags)
}
