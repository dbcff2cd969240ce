//! The least node on a cycle: a path is followed, whose parts go round or are one node. A part of which each edge was
//! looked at is left, and then it is known of its nodes whether they are on a cycle. Each edge is looked at twice at most.
ghost use Rattle.std.specs.Prelude.{◌≡◌, ◌≢◌, ◌<◌, ◌≤◌, ◌+◌, ◌^◌, [], ◌∷◌, ◌++◌, List, ℕ, IfOk, OnOk, MatchOption, length, replicate, slice_get, Some, true, false};
ghost use Rattle.rs_graph.specs.Lists.{Among};
ghost use Rattle.rs_graph.specs.Paths.{AreRight, NoneMoreAhead, Joining, Leaving, Resting, Searching, TakenOff, ahead, to_do};
ghost use Rattle.rs_graph.specs.Ranks.{Edge, IsOrdered};
ghost use Rattle.rs_graph.specs.Walks.{IsLeastOnCycle, IsOnCycle, Walk};
ghost use Rattle.rs_graph.specs.declared.cycles.NodeMark.{NodeMark};
ghost use Rattle.rs_graph.specs.declared.cycles.NodeMark.TheVariants.{Ahead, On};

use crate::graph::NodeRow;
use rs_model::NoMemory;
use std::alloc::Global;

/// What is known of a node.
#[derive(Clone, Copy, Debug)]
pub enum NodeMark {
    /// The search hasn't come to it.
    Ahead,
    /// It is on the path, at this place.
    On { place: u32 },
    /// Whether it is on a cycle.
    Known { round: bool },
}

/// A part of the path.
#[derive(Clone, Copy, Debug)]
pub struct PathPart {
    /// The place of its first node.
    pub start: usize,
    /// The place of its first edge that is still to be looked at.
    pub edges: usize,
    /// Whether it goes round.
    pub round: bool,
}

// The search for cycles.
#[derive(Drop, Debug)]
struct Search {
    marks: Vec<NodeMark>,
    path: Vec<u32>,
    edges: Vec<u32>,
    parts: Vec<PathPart>,
}

// The node becomes a part of its own, with all its edges.
fn enter(rows: &[NodeRow], search: &mut Search, y: u32) -> Result<(), NoMemory>
    requires nodes { length rows.now < 2 ^ 32 }
    requires new { slice_get search.old.marks.items y ≡ Some Ahead }
    requires led { (x : ℕ) → Among search.old.path.items x → (n : ℕ) × Walk (Edge rows.now) x n y }
    requires searching { Searching rows.now search.old.marks.items search.old.path.items search.old.edges.items search.old.parts.items }
    ensures searching { OnOk result (Searching rows.now search.new.marks.items search.new.path.items search.new.edges.items search.new.parts.items) }
    ensures less { OnOk result (to_do rows.now search.new.marks.items search.new.edges.items search.new.parts.items
        < to_do rows.now search.old.marks.items search.old.edges.items search.old.parts.items) }
    ensures on { OnOk result (NoneMoreAhead search.old.marks.items search.new.marks.items) }
    ensures here { OnOk result (slice_get search.new.marks.items y ≢ Some Ahead) }
{
    let start = search.path.len();
    let edges = search.edges.len();
    search.marks[y as usize] = NodeMark::On {
        place: start as u32,
    };
    search.path.push(y)?;
    search.edges.extend_from_slice(rows[y as usize].as_slice())?;
    search.parts.push(PathPart {
        start,
        edges,
        round: false,
    })?;
    Ok(())
}

// The last nodes of the path leave it: of each it is known whether it is on a cycle.
fn leave(marks: &mut Vec<NodeMark>, path: &mut Vec<u32>, start: usize, round: bool)
    requires start { start ≤ length path.old.items }
    requires on { (i x : ℕ) → slice_get path.old.items i ≡ Some x → slice_get marks.old.items x ≡ Some (On i) }
    ensures leaving { Leaving marks.old.items path.old.items marks.new.items path.new.items round }
    ensures start { length path.new.items ≡ start }
    ensures ahead { ahead marks.new.items ≡ ahead marks.old.items }
{
    while path.len() > start {
        let Some(x) = path.pop() else { return };
        marks[x as usize] = NodeMark::Known { round };
    }
}

// The last parts become one that goes round: those after the place and the one that has it.
fn join(parts: &mut Vec<PathPart>, last: PathPart, place: u32) -> Result<(), NoMemory>
    ensures joined { OnOk result ((rows : List (List ℕ)) (marks : List NodeMark) (path edges : List ℕ) (y : ℕ) → AreRight rows marks path → slice_get marks y ≡ Some (On place)
        → Joining rows marks path edges parts.old.items last.start last.edges y → Searching rows marks path edges parts.new.items) }
    ensures less { OnOk result (length parts.new.items ≤ length parts.old.items + 1) }
{
    let mut joined = last;
    while joined.start > place as usize {
        match parts.pop() {
            Some(before) => joined = before,
            None => return Ok(()),
        }
    }
    parts.push(PathPart {
        start: joined.start,
        edges: joined.edges,
        round: true,
    })?;
    Ok(())
}

// Looks at one edge of the part that was taken off the path, or leaves it where there is none.
fn look(rows: &[NodeRow], search: &mut Search, part: PathPart) -> Result<(), NoMemory>
    requires nodes { length rows.now < 2 ^ 32 }
    requires within { (x y : ℕ) → Edge rows.now x y → y < length rows.now }
    requires right { AreRight rows.now search.old.marks.items search.old.path.items }
    requires off { TakenOff rows.now search.old.marks.items search.old.path.items search.old.edges.items search.old.parts.items part }
    ensures searching { OnOk result (Searching rows.now search.new.marks.items search.new.path.items search.new.edges.items search.new.parts.items) }
    ensures less { OnOk result (to_do rows.now search.new.marks.items search.new.edges.items search.new.parts.items
        < to_do rows.now search.old.marks.items search.old.edges.items search.old.parts.items + 1) }
    ensures on { OnOk result (NoneMoreAhead search.old.marks.items search.new.marks.items) }
{
    let count = search.edges.len();
    if count == part.edges {
        leave(&mut search.marks, &mut search.path, part.start, part.round);
        return Ok(());
    }
    let y = search.edges[count - 1];
    match search.marks[y as usize] {
        NodeMark::Ahead => {
            search.parts.push(part)?;
            enter(rows, search, y)
        }
        NodeMark::On { place } => {
            search.edges.pop();
            join(&mut search.parts, part, place)
        }
        NodeMark::Known { .. } => {
            search.edges.pop();
            search.parts.push(part)?;
            Ok(())
        }
    }
}

// Follows the path until it is left.
fn follow(rows: &[NodeRow], search: &mut Search) -> Result<(), NoMemory>
    requires nodes { length rows.now < 2 ^ 32 }
    requires within { (x y : ℕ) → Edge rows.now x y → y < length rows.now }
    requires searching { Searching rows.now search.old.marks.items search.old.path.items search.old.edges.items search.old.parts.items }
    ensures searching { OnOk result (Searching rows.now search.new.marks.items search.new.path.items search.new.edges.items search.new.parts.items) }
    ensures on { OnOk result (NoneMoreAhead search.old.marks.items search.new.marks.items) }
    ensures none { OnOk result (search.new.path.items ≡ []) }
{
    while let Some(part) = search.parts.pop() {
        look(rows, search, part)?;
    }
    Ok(())
}

// Goes on until it is known whether the number is on a cycle.
fn come_to(rows: &[NodeRow], search: &mut Search, v: u32) -> Result<(), NoMemory>
    requires nodes { length rows.now < 2 ^ 32 }
    requires present { v < length rows.now }
    requires within { (x y : ℕ) → Edge rows.now x y → y < length rows.now }
    requires resting { Resting rows.now search.old.marks.items search.old.path.items search.old.edges.items search.old.parts.items }
    ensures resting { OnOk result (Resting rows.now search.new.marks.items search.new.path.items search.new.edges.items search.new.parts.items) }
    ensures come { OnOk result (slice_get search.new.marks.items v ≢ Some Ahead) }
{
    match search.marks[v as usize] {
        NodeMark::Ahead => {
            enter(rows, search, v)?;
            follow(rows, search)?;
            Ok(())
        }
        NodeMark::On { .. } | NodeMark::Known { .. } => Ok(()),
    }
}

// Whether the number is on a cycle.
fn is_on_cycle(rows: &[NodeRow], search: &mut Search, v: u32) -> Result<bool, NoMemory>
    requires nodes { length rows.now < 2 ^ 32 }
    requires present { v < length rows.now }
    requires within { (x y : ℕ) → Edge rows.now x y → y < length rows.now }
    requires resting { Resting rows.now search.old.marks.items search.old.path.items search.old.edges.items search.old.parts.items }
    ensures resting { OnOk result (Resting rows.now search.new.marks.items search.new.path.items search.new.edges.items search.new.parts.items) }
    ensures yes { IfOk result (λ b. b ≡ true → IsOnCycle (Edge rows.now) v) }
    ensures no { IfOk result (λ b. b ≡ false → IsOnCycle (Edge rows.now) v → ⊥) }
{
    come_to(rows, search, v)?;
    match search.marks[v as usize] {
        NodeMark::Known { round } => Ok(round),
        NodeMark::Ahead | NodeMark::On { .. } => unreachable!(),
    }
}

fn begin(alloc: Global, count: usize) -> Result<Search, NoMemory>
    ensures marks { IfOk result (λ s. s.marks.items ≡ replicate count Ahead) }
    ensures path { IfOk result (λ s. s.path.items ≡ []) }
    ensures edges { IfOk result (λ s. s.edges.items ≡ []) }
    ensures parts { IfOk result (λ s. s.parts.items ≡ []) }
{
    Ok(Search {
        marks: vec![in alloc; NodeMark::Ahead; count]?,
        path: Vec::new(alloc),
        edges: Vec::new(alloc),
        parts: Vec::new(alloc),
    })
}

/// Returns the least number that lies on a cycle of the rows, or none if there is no cycle. The numbers in `order` lie on
/// none; if it has all of them, nothing is searched. Fails if memory runs out.
pub fn least_on_cycle(
    alloc: Global,
    rows: &[NodeRow],
    order: &[u32],
) -> Result<Option<u32>, NoMemory>
    requires nodes { length rows.now < 2 ^ 32 }
    requires ordered { IsOrdered rows.now order.now }
    requires within { (x y : ℕ) → Edge rows.now x y → y < length rows.now }
    ensures { IfOk result (λ o. MatchOption o ((k : ℕ) → IsOnCycle (Edge rows.now) k → ⊥) (λ v. IsLeastOnCycle (Edge rows.now) v)) }
{
    if order.len() == rows.len() {
        return Ok(None);
    }
    let mut search = begin(alloc, rows.len())?;
    for v in 0..rows.len() {
        if is_on_cycle(rows, &mut search, v as u32)? {
            return Ok(Some(v as u32));
        }
    }
    Ok(None)
}
