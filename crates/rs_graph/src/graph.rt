//! Graphs whose nodes have moves.
ghost use Rattle.std.specs.Prelude.{◌≡◌, ◌<◌, ◌+◌, ◌^◌, [], ◌∷◌, ◌++◌, List, ℕ, OnOk, OnErr, OnSome, IfOk, length, slice_get, slice_index_or, slice_set};
ghost use Rattle.rs_graph.specs.Graphs.{pair_of, with_end, with_move, with_result};
ghost use Rattle.rs_graph.specs.declared.graph.Move.{Move};

use crate::steps::StepCount;
use rs_model::NoMemory;
use smallvec::SmallVec;
use std::alloc::Global;
use std::default::MadeWith;
use std::marker::Model;
use std::sync::ledger::Ledger;

/// The name of a move: the node that has it, and its place among that node's moves.
#[derive(Clone, Copy, Debug, Default, PartialEq, Eq)]
pub struct Move {
    /// The number of the node.
    pub node: u32,
    /// The place among the node's moves, from 0.
    pub place: u32,
}

/// Numbers of nodes, in order. A few of them need no allocation.
#[derive(Drop, Debug)]
pub struct NodeRow {
    numbers: SmallVec<u32, 4>,
}

impl MadeWith<Global> for NodeRow {
    fn made_with(alloc: Global) -> NodeRow {
        NodeRow::new(alloc)
    }
}

impl Model for NodeRow {
    ghost use Rattle.std.specs.Prelude.{List, ℕ};

    ghost Value = { List ℕ };

    ghost view = { λ a. a.numbers.items };
}

impl NodeRow {
    /// Makes an empty row.
    #[inline(always)]
    pub fn new(alloc: Global) -> NodeRow
        ensures { result ≡ [] }
    {
        NodeRow {
            numbers: SmallVec::new(alloc),
        }
    }

    /// Makes a row of one number, which needs no allocation.
    #[inline(always)]
    pub fn of_one(alloc: Global, n: u32) -> NodeRow
        ensures { result ≡ n ∷ [] }
    {
        let mut numbers = SmallVec::new(alloc);
        numbers.push_reserved(n);
        NodeRow { numbers }
    }

    /// Returns the numbers in the order in which they were added.
    #[inline(always)]
    pub fn as_slice(&self) -> &[u32]
        ensures { result.now ≡ self.now }
    {
        self.numbers.as_slice()
    }

    /// Makes another row with the same numbers. Fails if memory runs out.
    pub fn copy(&self, alloc: Global) -> Result<NodeRow, NoMemory>
        ensures { IfOk result (λ r. r ≡ self.now) }
    {
        Ok(NodeRow {
            numbers: SmallVec::from_slice(alloc, self.numbers.as_slice())?,
        })
    }

    /// Adds a number at the end. If memory runs out, it fails, and the row is as before.
    #[inline(always)]
    pub fn push(&mut self, n: u32) -> Result<(), NoMemory>
        ensures ok { OnOk result (self.new ≡ self.old ++ n ∷ []) }
        ensures err { OnErr result (self.new ≡ self.old) }
    {
        self.numbers.push(n)?;
        Ok(())
    }
}

/// The moves of a node, each with its results. One move needs no allocation.
#[derive(Drop)]
pub struct MoveResults {
    rows: SmallVec<NodeRow, 1>,
}

impl Model for MoveResults {
    ghost use Rattle.std.specs.Prelude.{List, ℕ};

    ghost Value = { List (List ℕ) };

    ghost view = { λ a. a.rows.items };

    ghost use Rattle.std.specs.Prelude.{◌<◌, ◌^◌, length};

    ghost invariant = { λ a. length a.rows.items < 2 ^ 32 };
}

impl MoveResults {
    /// Makes the moves of a node that has none yet. Allocates nothing.
    pub fn new(alloc: Global) -> MoveResults
        ensures { result ≡ [] }
    {
        MoveResults {
            rows: SmallVec::new(alloc),
        }
    }

    /// Returns the moves in the order in which they were added: of each one the row of its results.
    pub fn as_slice(&self) -> &[NodeRow]
        ensures { result.now ≡ self.now }
    {
        self.rows.as_slice()
    }

    /// Returns the number of moves.
    pub fn count(&self) -> u32
        ensures { result ≡ length self.now }
    {
        self.rows.len() as u32
    }

    /// Adds a move with these results, after the others. If memory runs out, it fails, and the moves are as before.
    pub fn push(&mut self, row: NodeRow) -> Result<(), NoMemory>
        requires { length self.old + 1 < 2 ^ 32 }
        ensures ok { OnOk result (self.new ≡ self.old ++ row ∷ []) }
        ensures err { OnErr result (self.new ≡ self.old) }
    {
        self.rows.push(row)?;
        Ok(())
    }

    /// Adds the node `n` to the results of the move at `place`, after the results that it has. If memory runs out, it
    /// fails, and the moves are as before.
    pub fn push_at(&mut self, place: u32, n: u32) -> Result<(), NoMemory>
        requires { place < length self.old }
        ensures ok { OnOk result (self.new ≡ slice_set self.old place (slice_index_or self.old place [] ++ n ∷ [])) }
        ensures err { OnErr result (self.new ≡ self.old) }
    {
        self.rows.as_mut_slice()[place as usize].push(n)
    }
}

/// The moves that lead to a node. A few of them need no allocation.
#[derive(Drop)]
pub struct IncomingMoves {
    moves: SmallVec<Move, 2>,
}

impl Model for IncomingMoves {
    ghost use Rattle.std.specs.Prelude.{List};
    ghost use Rattle.rs_graph.specs.declared.graph.Move.{Move};

    ghost Value = { List Move };

    ghost view = { λ a. a.moves.items };
}

impl IncomingMoves {
    /// Makes the list of a node to which no move leads yet. Allocates nothing.
    pub fn new(alloc: Global) -> IncomingMoves
        ensures { result ≡ [] }
    {
        IncomingMoves {
            moves: SmallVec::new(alloc),
        }
    }

    /// Returns the moves in the order in which they were added. A move that leads to the node twice is in the list
    /// twice.
    pub fn as_slice(&self) -> &[Move]
        ensures { result.now ≡ self.now }
    {
        self.moves.as_slice()
    }

    /// Adds a move at the end. If memory runs out, it fails, and the list is as before.
    pub fn push(&mut self, m: Move) -> Result<(), NoMemory>
        ensures ok { OnOk result (self.new ≡ self.old ++ m ∷ []) }
        ensures err { OnErr result (self.new ≡ self.old) }
    {
        self.moves.push(m)?;
        Ok(())
    }

    /// Takes the last move away.
    pub fn pop(&mut self)
        ensures { (m : Move) (ms : List Move) → self.old ≡ ms ++ m ∷ [] → self.new ≡ ms }
    {
        self.moves.pop();
    }
}

/// A graph whose nodes have moves, and whose moves have results: each move of a node leads to any number of nodes. It also
/// keeps, for each node, the moves that lead to it. Results are read by calls that count a step.
#[derive(Drop)]
pub struct Graph {
    outs: Vec<MoveResults>,
    intos: Vec<IncomingMoves>,
}

impl Model for Graph {
    ghost use Rattle.rs_graph.specs.Graphs.{Graph_data};

    ghost Value = { Graph_data };

    ghost view = { λ g. record { outs = g.outs.items; intos = g.intos.items } };

    ghost use Rattle.std.specs.Prelude.{◌≡◌, length};

    ghost invariant = { λ g. length g.outs.items ≡ length g.intos.items };
}

impl Graph {
    /// Makes a graph without nodes. Allocates nothing.
    pub fn new(alloc: Global) -> Graph
        ensures outs { result.outs ≡ [] }
        ensures intos { result.intos ≡ [] }
    {
        Graph {
            outs: Vec::new(alloc),
            intos: Vec::new(alloc),
        }
    }

    /// Returns the number of nodes.
    pub fn nodes(&self) -> usize
        ensures nodes { result ≡ length self.now.outs }
        ensures same { length self.now.outs ≡ length self.now.intos }
    {
        self.outs.len()
    }

    /// Adds a node without moves, and returns its number: nodes are numbered from 0 in order of addition. If memory runs
    /// out, it fails, and the graph is as before.
    pub fn add_node(&mut self) -> Result<u32, NoMemory>
        requires { length self.old.outs + 1 < 2 ^ 32 }
        ensures number { IfOk result (λ n. n ≡ length self.old.outs) }
        ensures outs { OnOk result (self.new.outs ≡ self.old.outs ++ [] ∷ []) }
        ensures intos { OnOk result (self.new.intos ≡ self.old.intos ++ [] ∷ []) }
        ensures err { OnErr result (self.new ≡ self.old) }
    {
        let alloc = *self.outs.allocator();
        let number = self.outs.len() as u32;
        self.outs.push(MoveResults::new(alloc))?;
        if self.intos.push(IncomingMoves::new(alloc)).is_err() {
            self.outs.pop();
            return Err(NoMemory);
        }
        Ok(number)
    }

    /// Adds a move without results to the node, and returns its place among the node's moves. If memory runs out, it
    /// fails, and the graph is as before.
    pub fn add_move(&mut self, node: u32) -> Result<u32, NoMemory>
        requires present { node < length self.old.outs }
        requires bounded { length (slice_index_or self.old.outs node []) + 1 < 2 ^ 32 }
        ensures place { IfOk result (λ p. p ≡ length (slice_index_or self.old.outs node [])) }
        ensures outs { OnOk result (self.new.outs ≡ with_move self.old.outs node) }
        ensures intos { OnOk result (self.new.intos ≡ self.old.intos) }
        ensures err { OnErr result (self.new ≡ self.old) }
    {
        let alloc = *self.outs.allocator();
        let place = self.outs[node as usize].as_slice().len() as u32;
        self.outs[node as usize].push(NodeRow::new(alloc))?;
        Ok(place)
    }

    /// Adds the node `target` to the results of the move at `place` of `node`. If memory runs out, it fails, and the graph
    /// is as before.
    pub fn add_edge(&mut self, node: u32, place: u32, target: u32) -> Result<(), NoMemory>
        requires present { node < length self.old.outs }
        requires place { place < length (slice_index_or self.old.outs node []) }
        requires target { target < length self.old.outs }
        ensures outs { OnOk result (self.new.outs ≡ with_result self.old.outs node place target) }
        ensures intos { OnOk result (self.new.intos ≡ with_end self.old.intos target (record { node = node; place = place })) }
        ensures err { OnErr result (self.new ≡ self.old) }
    {
        self.intos[target as usize].push(Move { node, place })?;
        if self.outs[node as usize].push_at(place, target).is_err() {
            self.intos[target as usize].pop();
            return Err(NoMemory);
        }
        Ok(())
    }

    /// Returns the number of the node's moves.
    pub fn moves(&self, node: u32) -> u32
        requires { node < length self.now.outs }
        ensures { result ≡ length (slice_index_or self.now.outs node []) }
    {
        self.outs[node as usize].count()
    }

    /// Returns the nth result of the move, from 0, or none if it has fewer. Counts one step.
    pub fn out<L: Ledger>(
        &self,
        node: u32,
        place: u32,
        nth: u32,
        steps: &mut StepCount<L>,
    ) -> Option<u32>
        requires present { node < length self.now.outs }
        requires place { place < length (slice_index_or self.now.outs node []) }
        ensures value { result ≡ slice_get (slice_index_or (slice_index_or self.now.outs node []) place []) nth }
        ensures step { steps.new ≡ steps.old + 1 }
    {
        steps.tick();
        let row = self.outs[node as usize].as_slice()[place as usize].as_slice();
        let nth = nth as usize;
        if nth < row.len() {
            Some(row[nth])
        } else {
            None
        }
    }

    /// Returns the nth edge that ends at the node, from 0 and in order of addition, as the node and the place of its move;
    /// none if there are fewer. Counts one step.
    pub fn into<L: Ledger>(
        &self,
        node: u32,
        nth: u64,
        steps: &mut StepCount<L>,
    ) -> Option<(u32, u32)>
        requires { node < length self.now.outs }
        ensures value { result ≡ pair_of (slice_get (slice_index_or self.now.intos node []) nth) }
        ensures step { steps.new ≡ steps.old + 1 }
    {
        match self.move_into(node, nth as usize, steps) {
            Some(m) => Some((m.node, m.place)),
            None => None,
        }
    }

    // The same as a move.
    pub(crate) fn move_into<L: Ledger>(
        &self,
        node: u32,
        nth: usize,
        steps: &mut StepCount<L>,
    ) -> Option<Move>
        requires { node < length self.now.outs }
        ensures value { result ≡ slice_get (slice_index_or self.now.intos node []) nth }
        ensures fits { OnSome result (nth + 1 < 2 ^ 64) }
        ensures step { steps.new ≡ steps.old + 1 }
    {
        steps.tick();
        let row = self.intos[node as usize].as_slice();
        if nth < row.len() {
            Some(row[nth])
        } else {
            None
        }
    }
}
