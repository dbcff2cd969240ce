//! Spots, numbered in order of first sight and found again by an index.
ghost use Rattle.std.specs.Prelude.{◌≡◌, ◌≢◌, ◌<◌, ◌≤◌, ◌+◌, ◌^◌, [], ◌∷◌, ◌++◌, List, ℕ, OnOk, OnErr, IfOk, IfErr, MatchOption, MatchResult, length, slice_get, Some, replicate, true, false};
ghost use Rattle.rs_derive.specs.Targets.{owed_behind, target_spot};
ghost use Rattle.rs_derive.specs.Data.{DNode_data};
ghost use Rattle.rs_derive.specs.Derivations.{spot_of};
ghost use Rattle.rs_derive.specs.Moves.{Spot, spot};
ghost use Rattle.rs_derive.specs.Within.{IsPlaceWithin};
ghost use Rattle.rs_search.specs.Buckets.{act_code, acts_code, bucket_by, bucket_of_spot, codes_of};
ghost use Rattle.rs_model.specs.Chains.{AllAreChained, IsChained};
ghost use Rattle.rs_search.specs.Nodes.{AreNodes, places_of};
ghost use Rattle.rs_search.specs.Table.{GoesBefore, IsBucketCount, IsFiled, StaysFiled, codes_in, links_of, spots_of};
ghost use Rattle.rs_search.specs.declared.found.SearchStop.TheVariants.{TooLarge, Memory};

use crate::found::SearchStop;
use rs_derive::{Change, DNode, EdgeTarget, is_target};
use rs_graph::NodeRow;
use rs_model::{Act, MOST_CANDIDATES, NoMemory};
use rs_prefix::Pending;
use std::alloc::Global;
use std::marker::Model;

// A great odd number, by which the codes of different acts come apart.
const CODE_FACTOR: u64 = 11_400_714_819_323_198_485;

// The most buckets of an index that grows.
const MOST_BUCKETS: usize = 2 * MOST_CANDIDATES;

// One more than the greatest number of a state.
const STATE_FACTOR: u64 = 4_294_967_296;

#[inline(always)]
fn act_code(act: Act) -> u64
    ensures code { result ≡ act_code act }
    ensures some { 0 < result }
    ensures small { result < 2 ^ 26 }
{
    match act {
        Act::Puts { peer, label, .. } | Act::Takes { peer, label, .. } => {
            u64::from(label.0) * 512 + u64::from(peer.0) + 1
        }
    }
}

// The code of one act more.
#[inline(always)]
fn next_code(code: u64, act: Act) -> u64
    ensures { result ≡ acts_code code (act ∷ []) }
{
    code.wrapping_add(act_code(act)).wrapping_mul(CODE_FACTOR)
}

// The code of acts, from that of those before them.
#[inline(always)]
fn acts_code(before: u64, acts: &[Act]) -> u64
    ensures { result ≡ acts_code before acts.now }
{
    let mut code = before;
    for act in acts {
        code = next_code(code, *act);
    }
    code
}

// The code of what is owed after a change, from that of what was owed before.
#[inline(always)]
fn code_behind(code: u64, pending: &[Act], change: Change) -> u64
    requires within { IsPlaceWithin (length pending.now) change }
    requires code { code ≡ acts_code 0 pending.now }
    ensures { result ≡ acts_code 0 (owed_behind pending.now change) }
{
    match change {
        Change::Same => code,
        Change::With(act) => next_code(code, act),
        Change::Without(place) => code_without(pending, place),
    }
}

#[inline(always)]
fn code_without(pending: &[Act], place: usize) -> u64
    requires { place < length pending.now }
    ensures { result ≡ acts_code 0 (owed_behind pending.now (Change.Without place)) }
{
    if pending.len() == 1 {
        return 0;
    }
    let (front, rest) = pending.split_at(place);
    let (_, back) = rest.split_at(1);
    acts_code(acts_code(0, front), back)
}

// The number of the bucket of a spot, by the code of what it owes.
#[tactic(auto, using(crate::proofs::Bucketing::share_below, crate::proofs::Bucketing::share_fits))]
#[inline(always)]
fn bucket_by(size: usize, code: u64, state: u32, above: u32) -> usize
    requires some { 0 < size }
    requires bounded { size < 2 ^ 32 }
    ensures within { result < size }
    ensures bucket { result ≡ bucket_by size code state above }
{
    let states = u64::from(state) * STATE_FACTOR + u64::from(above);
    let high = code.wrapping_add(states).wrapping_mul(CODE_FACTOR) / STATE_FACTOR;
    (high * size as u64 / STATE_FACTOR) as usize
}

/// What is filed of a spot: the code of what it owes, and the next number of its chain.
#[derive(Clone, Copy, Debug)]
struct Entry {
    code: u64,
    link: u32,
}

/// Where the numbers of spots are found again: of each bucket the head of a chain of numbers, and of each number what is
/// filed of its spot. Heads and links are one more than the number; 0 ends a chain.
#[derive(Drop, Debug)]
struct Index {
    heads: Vec<u32>,
    entries: Vec<Entry>,
}

/// Spots, numbered in order of first sight, as nodes without a rank; and of the first of them the numbers of what each
/// leads to.
#[derive(Drop, Debug)]
pub struct SpotTable {
    nodes: Vec<DNode>,
    index: Index,
    known: usize,
}

impl Model for SpotTable {
    ghost use Rattle.std.specs.Prelude.{take};
    ghost use Rattle.rs_search.specs.Spots.{SpotTable_data, nexts_of_nodes, ranks_of, spots_of};
    ghost use Rattle.rs_search.specs.Table.{IsTable};

    ghost Value = { SpotTable_data };

    ghost view = { λ t. record { spots = spots_of t.nodes.items; rows = take t.known (nexts_of_nodes t.nodes.items); ranks = ranks_of t.nodes.items } };

    ghost invariant = { λ t. IsTable t.nodes.items t.index.heads.items t.index.entries.items t.known };
}

// So many buckets, with no number in them.
fn empty_heads(alloc: Global, size: usize) -> Result<Vec<u32>, NoMemory>
    ensures { IfOk result (λ v. v.items ≡ replicate size 0) }
{
    Ok(vec![in alloc; 0; size]?)
}

// Whether the node is at the spot of the target.
#[tactic(auto, using(crate::proofs::Same::spot_is, crate::proofs::Same::not_spot))]
#[inline(always)]
fn is_at(node: &DNode, pending: &[Act], target: EdgeTarget) -> bool
    requires { IsPlaceWithin (length pending.now) target.change }
    ensures same { result ≡ true → spot_of node.now ≡ target_spot pending.now target }
    ensures other { result ≡ false → spot_of node.now ≢ target_spot pending.now target }
{
    is_target(node, pending, target)
}

// The number of the spot of the target, along a chain.
#[inline(always)]
fn seek(
    nodes: &[DNode],
    entries: &[Entry],
    head: u32,
    pending: &[Act],
    target: EdgeTarget,
) -> Option<u32>
    requires size { length entries.now ≡ length nodes.now }
    requires within { head ≤ length nodes.now }
    requires falls { (m next : ℕ) → slice_get (links_of entries.now) m ≡ Some next → next ≤ m }
    requires place { IsPlaceWithin (length pending.now) target.change }
    ensures { MatchOption result ((n : ℕ) → IsChained (links_of entries.now) head n → slice_get (spots_of nodes.now) n ≢ Some (target_spot pending.now target))
        (λ n. slice_get (spots_of nodes.now) n ≡ Some (target_spot pending.now target)) }
{
    let mut left = head;
    while left > 0 {
        let n = left - 1;
        if is_at(&nodes[n as usize], pending, target) {
            return Some(n);
        }
        left = entries[n as usize].link;
    }
    None
}

// What is owed after a change, in memory of its own.
#[inline(always)]
fn pending_behind(alloc: Global, pending: &Pending, change: Change) -> Result<Pending, NoMemory>
    requires { IsPlaceWithin (length pending.now) change }
    ensures { IfOk result (λ p. p ≡ owed_behind pending.now change) }
{
    match change {
        Change::Same => pending.copy(alloc),
        Change::With(act) => pending.copy_with(alloc, act),
        Change::Without(place) => pending.copy_without(alloc, place),
    }
}

// Whether nothing is owed after a change.
#[inline(always)]
fn owes_nothing(pending: &Pending, change: Change) -> bool
    requires { IsPlaceWithin (length pending.now) change }
    ensures { result ≡ true → owed_behind pending.now change ≡ [] }
{
    match change {
        Change::Same => pending.as_slice().is_empty(),
        Change::With(_) => false,
        Change::Without(_) => pending.as_slice().len() == 1,
    }
}

// The node at the states of the target, with nothing owed; it takes no memory.
#[inline(always)]
fn free_node(alloc: Global, target: EdgeTarget) -> DNode
    ensures { spot_of result ≡ spot target.state [] target.above }
{
    DNode {
        state: target.state,
        pending: Pending::new(alloc),
        above: target.above,
        rank: 0,
        next: NodeRow::new(alloc),
    }
}

// The node at the spot of the target, without rank and nexts.
#[inline(always)]
fn node_at(alloc: Global, pending: &Pending, target: EdgeTarget) -> Result<DNode, NoMemory>
    requires { IsPlaceWithin (length pending.now) target.change }
    ensures spot { IfOk result (λ node. spot_of node ≡ target_spot pending.now target) }
{
    if owes_nothing(pending, target.change) {
        return Ok(free_node(alloc, target));
    }
    Ok(DNode {
        state: target.state,
        pending: pending_behind(alloc, pending, target.change)?,
        above: target.above,
        rank: 0,
        next: NodeRow::new(alloc),
    })
}

// Adds a node, with what is filed of it, at the head of the chain of its bucket.
#[inline(always)]
fn add(
    nodes: &mut Vec<DNode>,
    index: &mut Index,
    node: DNode,
    entry: Entry,
    bucket: usize,
) -> Result<(), SearchStop>
    requires before { GoesBefore index.old.heads.items bucket node entry }
    requires fits { length nodes.old.items + 1 < 2 ^ 32 }
    requires chained { AllAreChained (bucket_of_spot (length index.old.heads.items)) (spots_of nodes.old.items) index.old.heads.items (links_of index.old.entries.items) }
    ensures filed { OnOk result (IsFiled nodes.old.items nodes.new.items index.old.entries.items index.new.entries.items index.new.heads.items (length index.old.heads.items) node entry) }
    ensures size { length index.new.heads.items ≡ length index.old.heads.items }
    ensures err { IfErr result (λ e. e ≡ Memory) }
    ensures stays { OnErr result (StaysFiled nodes.old.items nodes.new.items index.old.heads.items index.new.heads.items index.old.entries.items index.new.entries.items) }
{
    nodes.reserve(1)?;
    index.entries.reserve(1)?;
    let number = nodes.len() as u32;
    nodes.push_reserved(node);
    index.entries.push_reserved(entry);
    index.heads[bucket] = number + 1;
    Ok(())
}

// The number, if it is below the limit.
#[inline(always)]
fn number_within(n: usize, limit: usize) -> Result<u32, SearchStop>
    requires within { n ≤ limit }
    requires fits { limit < 2 ^ 32 }
    ensures number { IfOk result (λ m. m ≡ n) }
    ensures limit { MatchResult result (λ _. n < limit) (λ _. limit ≤ n) }
{
    if n == limit {
        return Err(SearchStop::TooLarge);
    }
    Ok(n as u32)
}

// The number of buckets to go to from `size`: at first `usual`, later about eight times `size`, up to `MOST_BUCKETS`.
fn more_buckets(size: usize, usual: usize) -> usize
    requires { IsBucketCount usual }
    ensures { IsBucketCount result }
{
    if size < usual {
        usual
    } else if size < MOST_BUCKETS / 8 {
        size * 8 + 1
    } else {
        MOST_BUCKETS
    }
}

// The heads of the chains of all nodes, in a given number of buckets; the links are made anew.
fn new_heads(
    alloc: Global,
    nodes: &[DNode],
    entries: &mut Vec<Entry>,
    buckets: usize,
) -> Result<Vec<u32>, NoMemory>
    requires buckets { IsBucketCount buckets }
    requires fits { length nodes.now < 2 ^ 32 }
    requires coded { codes_in entries.old.items ≡ codes_of (spots_of nodes.now) }
    ensures codes { codes_in entries.new.items ≡ codes_in entries.old.items }
    ensures size { IfOk result (λ heads. length heads.items ≡ buckets) }
    ensures chained { IfOk result (λ heads. AllAreChained (bucket_of_spot buckets) (spots_of nodes.now) heads.items (links_of entries.new.items)) }
    ensures same { OnErr result (entries.new.items ≡ entries.old.items) }
{
    let mut heads = empty_heads(alloc, buckets)?;
    for number in 0..nodes.len() {
        let node = &nodes[number];
        let code = entries[number].code;
        let bucket = bucket_by(buckets, code, node.state, node.above);
        let link = heads[bucket];
        entries[number] = Entry { code, link };
        heads[bucket] = number as u32 + 1;
    }
    Ok(heads)
}

impl SpotTable {
    ghost use Rattle.std.specs.Prelude.{◌≡◌, ◌<◌, ◌≤◌, ◌+◌, ◌^◌, [], ◌∷◌, ◌++◌, IfOk, MatchResult, length, slice_get, slice_set, Some};
    ghost use Rattle.rs_derive.specs.Derivations.{spot_of};
    ghost use Rattle.rs_derive.specs.Moves.{spot};
    ghost use Rattle.rs_search.specs.Nodes.{AreNodes, places_of};
    ghost use Rattle.rs_search.specs.Table.{AddsAt, IsBucketCount, IsNamedAt, IsWithinAt, StandsWithin};
    ghost use Rattle.rs_search.specs.declared.found.SearchStop.TheVariants.{TooLarge};

    /// Makes a table of one spot, which has these states and owes nothing, with that number of buckets and with room for
    /// `room` spots.
    pub(crate) fn new(
        alloc: Global,
        state: u32,
        above: u32,
        buckets: usize,
        room: usize,
    ) -> Result<SpotTable, NoMemory>
        requires some { 0 < buckets }
        requires bounded { buckets < 2 ^ 32 }
        ensures spots { IfOk result (λ t. t.spots ≡ spot state [] above ∷ []) }
        ensures rows { IfOk result (λ t. t.rows ≡ []) }
    {
        let mut heads = empty_heads(alloc, buckets)?;
        let mut entries = Vec::with_capacity(alloc, room)?;
        let mut nodes = Vec::with_capacity(alloc, room)?;
        nodes.push(DNode {
            state,
            pending: Pending::new(alloc),
            above,
            rank: 0,
            next: NodeRow::new(alloc),
        })?;
        entries.push(Entry { code: 0, link: 0 })?;
        heads[bucket_by(buckets, 0, state, above)] = 1;
        Ok(SpotTable {
            nodes,
            index: Index { heads, entries },
            known: 0,
        })
    }

    /// How many spots there are.
    #[inline(always)]
    pub(crate) fn len(&self) -> usize
        ensures { result ≡ length self.now.spots }
    {
        self.nodes.len()
    }

    /// Of how many it is known what they lead to.
    #[inline(always)]
    pub(crate) fn known(&self) -> usize
        ensures count { result ≡ length self.now.rows }
        ensures within { result ≤ length self.now.spots }
        ensures ranks { length self.now.ranks ≡ length self.now.spots }
    {
        self.known
    }

    /// The node at the spot with the number.
    #[inline(always)]
    pub fn node(&self, number: usize) -> &DNode
        requires { number < length self.now.spots }
        ensures { slice_get self.now.spots number ≡ Some (spot_of result.now) }
    {
        &self.nodes[number]
    }

    /// The numbers of what the spot with the number leads to.
    #[inline(always)]
    pub fn row(&self, number: usize) -> &NodeRow
        requires { number < length self.now.rows }
        ensures { slice_get self.now.rows number ≡ Some result.now }
    {
        &self.nodes[number].next
    }

    /// The rank of the spot with the number.
    #[inline(always)]
    pub(crate) fn rank(&self, number: usize) -> u32
        requires { number < length self.now.ranks }
        ensures { slice_get self.now.ranks number ≡ Some result }
    {
        self.nodes[number].rank
    }

    /// Gives the spot with the number that rank.
    #[inline(always)]
    pub(crate) fn set_rank(&mut self, number: usize, rank: u32)
        requires { number < length self.old.ranks }
        ensures ranks { self.new.ranks ≡ slice_set self.old.ranks number rank }
        ensures spots { self.new.spots ≡ self.old.spots }
        ensures rows { self.new.rows ≡ self.old.rows }
    {
        let node = &mut self.nodes[number];
        node.rank = rank;
    }

    /// The number of the spot of the target from the spot `k`, which is added where it is new.
    #[inline(always)]
    pub(crate) fn number_of(
        &mut self,
        alloc: Global,
        k: usize,
        target: EdgeTarget,
        limit: usize,
    ) -> Result<u32, SearchStop>
        requires within { StandsWithin self.old.spots k limit }
        requires place { IsWithinAt self.old.spots k target }
        ensures adds { AddsAt self.old.spots k target self.new.spots }
        ensures longer { length self.old.spots ≤ length self.new.spots }
        ensures named { IfOk result (IsNamedAt self.old.spots k target self.new.spots) }
        ensures limit { MatchResult result (λ _. length self.new.spots ≤ limit) (λ e. e ≡ TooLarge → limit < length self.new.spots) }
        ensures rows { self.new.rows ≡ self.old.rows }
    {
        let from = &self.nodes[k];
        let pending = from.pending.as_slice();
        let code = code_behind(self.index.entries[k].code, pending, target.change);
        let bucket = bucket_by(self.index.heads.len(), code, target.state, target.above);
        let link = self.index.heads[bucket];
        if let Some(n) = seek(&self.nodes, &self.index.entries, link, pending, target) {
            return Ok(n);
        }
        let node = node_at(alloc, &from.pending, target)?;
        let n = self.nodes.len();
        let entry = Entry { code, link };
        add(&mut self.nodes, &mut self.index, node, entry, bucket)?;
        number_within(n, limit)
    }

    /// Makes more buckets if there are too many spots for those that the table has: first the given number, later about
    /// eight times as many each time.
    #[inline(always)]
    pub(crate) fn spread(&mut self, alloc: Global, buckets: usize) -> Result<(), NoMemory>
        requires buckets { IsBucketCount buckets }
        requires fits { length self.old.spots < 2 ^ 32 }
        ensures spots { self.new.spots ≡ self.old.spots }
        ensures rows { self.new.rows ≡ self.old.rows }
        ensures ranks { self.new.ranks ≡ self.old.ranks }
    {
        let size = self.index.heads.len();
        let count = self.nodes.len();
        if size < count && (size < buckets || size < count / 2) {
            return self.refile(alloc, more_buckets(size, buckets));
        }
        Ok(())
    }

    #[inline(never)]
    fn refile(&mut self, alloc: Global, buckets: usize) -> Result<(), NoMemory>
        requires buckets { IsBucketCount buckets }
        requires fits { length self.old.spots < 2 ^ 32 }
        ensures spots { self.new.spots ≡ self.old.spots }
        ensures rows { self.new.rows ≡ self.old.rows }
        ensures ranks { self.new.ranks ≡ self.old.ranks }
    {
        let heads = new_heads(alloc, &self.nodes, &mut self.index.entries, buckets)?;
        self.index.heads = heads;
        Ok(())
    }

    /// Notes what the first spot of which it isn't known leads to.
    #[inline(always)]
    pub(crate) fn push_row(&mut self, row: NodeRow)
        requires { length self.old.rows < length self.old.spots }
        ensures spots { self.new.spots ≡ self.old.spots }
        ensures rows { self.new.rows ≡ self.old.rows ++ row ∷ [] }
    {
        let known = self.known;
        let node = &mut self.nodes[known];
        node.next = row;
        self.known = known + 1;
    }

    /// What each spot leads to, in memory of its own.
    pub fn copy_rows(&self, alloc: Global) -> Result<Vec<NodeRow>, NoMemory>
        ensures { IfOk result (λ v. v.items ≡ self.now.rows) }
    {
        let count = self.known();
        let mut rows = Vec::with_capacity(alloc, count)?;
        for number in 0..count {
            rows.push(self.row(number).copy(alloc)?)?;
        }
        Ok(rows)
    }

    /// The nodes at the spots.
    pub(crate) fn into_nodes(self) -> Vec<DNode>
        requires { length self.rows ≡ length self.spots }
        ensures { AreNodes self.spots (places_of 0 self.spots) self.rows self.ranks (length self.spots) result.items }
    {
        let SpotTable { nodes, .. } = self;
        nodes
    }
}
