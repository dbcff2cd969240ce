//! The graph of the candidates, which of these don't survive, and which meet a cut.
ghost use Rattle.std.specs.Prelude.{◌≡◌, ◌<◌, ◌≤◌, ◌^◌, ℕ, IfOk, length, ◌==◌, ◌&&◌};
ghost use Rattle.rs_derive.specs.Derivations.{IsProper, spot_of};
ghost use Rattle.rs_explain.specs.Deaths.{AreInOrder};
ghost use Rattle.rs_explain.specs.OnWay.{AreFlagged, AreFlags, IsLostGraph, has_cut_at};
ghost use Rattle.rs_graph.specs.Removal.{at, moves_at};
ghost use Rattle.rs_model.specs.declared.limits.TheConstants.{MOST_CANDIDATES};
ghost use Rattle.rs_search.specs.Candidates.{MeetsACut};
ghost use Rattle.rs_search.specs.Found.{AreFoundCandidates};

use crate::Ending;
use crate::explaining::ending_of;
use rs_derive::DNode;
use rs_graph::{Graph, graph_of, remove_uncounted};
use rs_model::{Machine, NoMemory};
use rs_search::Candidates;
use std::alloc::Global;

/// The graph of the candidates, of each whether it doesn't survive, and those that don't in the order of their removal.
#[derive(Drop)]
pub struct LostGraph {
    pub graph: Graph,
    pub gone: Vec<bool>,
    pub order: Vec<u32>,
}

// Of each node whether it was removed.
fn gone_nodes(alloc: Global, graph: &Graph, current: &[u32]) -> Result<Vec<bool>, NoMemory>
    requires nodes { length graph.now.outs < 2 ^ 32 }
    requires size { length current.now ≡ length graph.now.outs }
    ensures { IfOk result (λ v. AreFlags (λ (n : ℕ). at current.now n == moves_at graph.now.outs n) (length graph.now.outs) v.items) }
{
    let mut gone = Vec::new(alloc);
    for node in 0..graph.nodes() {
        gone.push(current[node] == graph.moves(node as u32))?;
    }
    Ok(gone)
}

/// The graph of the candidates, and which of them don't survive.
pub fn lost_graph(
    alloc: Global,
    sub: &Machine,
    above: &Machine,
    bound: u8,
    found: &Candidates,
) -> Result<LostGraph, NoMemory>
    requires found { AreFoundCandidates sub.now above.now bound found.now }
    requires bounded { length found.now.table.spots ≤ MOST_CANDIDATES }
    ensures lost { IfOk result (λ l. IsLostGraph sub.now above.now bound found.now l.graph l.gone.items) }
    ensures order { IfOk result (λ l. AreInOrder sub.now above.now bound found.now.table.spots l.order.items) }
{
    let rows = found.table.copy_rows(alloc)?;
    let graph = graph_of(alloc, found.anys.as_slice(), rows.as_slice())?;
    let left = remove_uncounted(alloc, &graph)?;
    let gone = gone_nodes(alloc, &graph, left.current.as_slice())?;
    Ok(LostGraph {
        graph,
        gone,
        order: left.order,
    })
}

// Whether the candidate with so many moves meets a cut: it has none, and nothing else stands in the way of one.
fn meets_a_cut(sub: &Machine, above: &Machine, node: &DNode, moves: u32) -> bool
    requires state { node.now.state < length sub.now.states }
    requires present { node.now.above < length above.now.states }
    ensures { result ≡ (moves == 0 && has_cut_at sub.now above.now (spot_of node.now)) }
{
    if moves != 0 {
        return false;
    }
    match ending_of(sub, above, node) {
        Ending::Cut => true,
        Ending::Blocked(_) => false,
    }
}

/// Of each candidate whether it meets a cut.
pub fn cuts(
    alloc: Global,
    sub: &Machine,
    above: &Machine,
    bound: u8,
    found: &Candidates,
    lost: &LostGraph,
) -> Result<Vec<bool>, NoMemory>
    requires ours { IsProper sub.now }
    requires theirs { IsProper above.now }
    requires found { AreFoundCandidates sub.now above.now bound found.now }
    requires bounded { length found.now.table.spots ≤ MOST_CANDIDATES }
    requires lost { IsLostGraph sub.now above.now bound found.now lost.now.graph lost.now.gone.items }
    ensures { IfOk result (λ v. AreFlagged (MeetsACut sub.now above.now bound) found.now.table.spots v.items) }
{
    let mut cuts = Vec::new(alloc);
    for number in 0..lost.graph.nodes() {
        let moves = lost.graph.moves(number as u32);
        cuts.push(meets_a_cut(sub, above, found.table.node(number), moves))?;
    }
    Ok(cuts)
}
