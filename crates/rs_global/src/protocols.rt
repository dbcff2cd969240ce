//! The reader of protocols.

ghost use Rattle.std.specs.Prelude.{◌≡◌, ◌≤◌, ◌+◌, ◌++◌, length, map, IfOk, IfErr};
ghost use Rattle.rs_text.specs.FirstFaults.{IsRefusal};
ghost use Rattle.rs_text.specs.Sound.{AreReadable};
ghost use Rattle.rs_global.specs.Faults.{FirstFault};
ghost use Rattle.rs_global.specs.Graph.{finish_of};
ghost use Rattle.rs_global.specs.Parts.{graph_spelt, node_of_point, node_of_head};
ghost use Rattle.rs_global.specs.Read.{IsProtocolRead};

use rs_bodies::{Dialect, Head, Point, Spelling, read_part};
use rs_model::{Arms, Names, NoMemory, Node, Protocol};
use rs_text::{Stop, TextFault};
use std::alloc::Global;

/// Reads a roles line and a protocol from the offset `at` on, and gives the names, the protocol and the offset of the
/// first byte behind them that is neither a blank nor in a comment, or the length.
///
/// Talks are numbered in order of text. All ends are one node behind the last talk, which is there exactly where the
/// text has an end. A recursion name stands for the first node of its body.
///
/// A fault has the offset of its token: what was wanted instead, an unknown role, a name that is unbound or unguarded,
/// a role that is there already, one too many of nesting, roles, talks or labels, or a faulty token.
pub fn read_protocol(
    alloc: Global,
    bytes: &[u8],
    at: usize,
) -> Result<(Names, Protocol, usize), TextFault>
    requires { at ≤ length bytes.now }
    ensures ok { IfOk result (λ r. IsProtocolRead bytes.now at r.0 r.1 r.2) }
    ensures err { IfErr result (λ e. IsRefusal (FirstFault bytes.now at) bytes.now e) }
    ensures names { IfOk result (λ r. AreReadable r.0) }
{
    let mut names = Names {
        roles: Vec::new(alloc),
        labels: Vec::new(alloc),
    };
    let (spelling, until) = read_part(alloc, Dialect::Talks, bytes, at, &mut names)?;
    let roles = names.roles.len() as u8;
    match graph(alloc, roles, spelling) {
        Ok(protocol) => Ok((names, protocol, until)),
        Err(_) => Err(Stop::Memory.into_fault(at)),
    }
}

/// The graph of what was read.
fn graph(alloc: Global, roles: u8, spelling: Spelling) -> Result<Protocol, NoMemory>
    ensures protocol { IfOk result (λ r. r ≡ graph_spelt roles spelling) }
    ensures count { IfOk result (λ r. length r.nodes ≤ length spelling.points + 1) }
{
    let root = spelling.start;
    let ended = spelling.ended;
    Ok(Protocol {
        roles,
        nodes: nodes(alloc, spelling.points, ended)?,
        root,
    })
}

/// The nodes of heads, with the end behind them where there is one.
fn nodes(alloc: Global, points: Vec<Point>, ended: bool) -> Result<Vec<Node>, NoMemory>
    ensures nodes { IfOk result (λ nodes. nodes.items ≡ map node_of_point points.items ++ finish_of ended) }
    ensures count { IfOk result (λ nodes. length nodes.items ≤ length points.items + 1) }
{
    let mut nodes = talks(alloc, points)?;
    if ended {
        nodes.push(Node::Finished)?;
    }
    Ok(nodes)
}

fn talks(alloc: Global, points: Vec<Point>) -> Result<Vec<Node>, NoMemory>
    ensures count { IfOk result (λ nodes. length nodes.items ≡ length points.items) }
    ensures nodes { IfOk result (λ nodes. nodes.items ≡ map node_of_point points.items) }
{
    let mut nodes = Vec::with_capacity(alloc, points.len().saturating_add(1))?;
    for point in points {
        let Point { head, arms } = point;
        nodes.reserve(1)?;
        nodes.push_reserved(node(head, arms));
    }
    Ok(nodes)
}

/// The node of a head. A protocol has talks alone.
fn node(head: Head, arms: Arms) -> Node
    ensures { result ≡ node_of_head head arms }
{
    match head {
        Head::Talk { sender, receiver } => Node::Talk {
            sender,
            receiver,
            arms,
        },
        Head::Act { .. } => Node::Finished,
    }
}
