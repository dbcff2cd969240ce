//! Lists of pending acts, numbered in order of first use and found again by an index.

ghost use Rattle.std.specs.Prelude.{◌≡◌, ◌<◌, ◌≤◌, ◌-◌, ◌^◌, ◌++◌, ◌∷◌, [], ℕ, false, length, map, slice_get, Some, IfOk, OnOk};
ghost use Rattle.rs_model.specs.Chains.{IsChained};
ghost use Rattle.rs_derivations.specs.ListTables.{act_code, bucket_among, bucket_of};
ghost use Rattle.rs_derivations.specs.PendingLists.{is_one_of, list_number, with_list, with_lists};
ghost use Rattle.rs_derivations.specs.declared.lists.TheConstants.{BUCKETS};

use rs_derive::{DNode, same_acts};
use rs_model::{Act, NoMemory};
use std::alloc::Global;
use std::marker::Model;

// The most buckets of an index; no limit of what is filed.
const BUCKETS: usize = 4096;

/// Lists of acts, each once, with an index by which one is found: of each bucket the head of a chain of numbers, and of
/// each list the next of its chain. The number of a list is its place from 1 on; 0 ends a chain.
#[derive(Drop)]
pub(crate) struct ListTable<'a> {
    lists: Vec<&'a [Act]>,
    heads: Vec<usize>,
    links: Vec<usize>,
}

impl<'a> Model for ListTable<'a> {
    ghost use Rattle.std.specs.Prelude.{List, map};
    ghost use Rattle.rs_model.specs.declared.machines.Act.{Act};
    ghost use Rattle.rs_derivations.specs.ListTables.{AreFiled};

    ghost Value = { List (List Act) };

    ghost view = { λ t. map (λ x. x.now) t.lists.items };

    ghost invariant = { λ t. AreFiled (map (λ x. x.now) t.lists.items) t.heads.items t.links.items };
}

impl<'a> ListTable<'a> {
    /// The lists of pending acts that these nodes have, in order of first use.
    pub(crate) fn of_nodes(alloc: Global, nodes: &'a [DNode]) -> Result<ListTable<'a>, NoMemory>
        ensures { IfOk result (λ table. table ≡ with_lists [] (map (λ n. n.pending) nodes.now)) }
    {
        let mut table = ListTable::new(alloc, nodes.len())?;
        for node in nodes {
            table.add(node.pending.as_slice())?;
        }
        Ok(table)
    }

    // No lists, and buckets for so many.
    fn new(alloc: Global, count: usize) -> Result<ListTable<'a>, NoMemory>
        ensures { IfOk result (λ table. table ≡ []) }
    {
        let buckets = count.min(BUCKETS - 1) + 1;
        let heads = vec![in alloc; 0; buckets]?;
        Ok(ListTable {
            lists: Vec::new(alloc),
            heads,
            links: Vec::new(alloc),
        })
    }

    /// The lists, in order of their numbers.
    pub(crate) fn as_slice(&self) -> &[&'a [Act]]
        ensures { map (λ x. x.now) result.now ≡ self.now }
    {
        self.lists.as_slice()
    }

    /// The number of a list: 0 for no acts and for a list that isn't there.
    pub(crate) fn number_of(&self, acts: &[Act]) -> usize
        ensures { result ≡ list_number self.now acts.now }
    {
        if acts.is_empty() {
            return 0;
        }
        let head = self.heads[bucket_among(acts, self.heads.len())];
        number_along(self.lists.as_slice(), &self.links, head, acts)
    }

    // Puts a list after the others where it has acts and isn't there.
    fn add(&mut self, acts: &'a [Act]) -> Result<(), NoMemory>
        ensures { OnOk result (self.new ≡ with_list self.old acts.now) }
    {
        if acts.is_empty() || self.number_of(acts) > 0 {
            return Ok(());
        }
        self.push(acts)
    }

    fn push(&mut self, acts: &'a [Act]) -> Result<(), NoMemory>
        requires new { is_one_of self.old acts.now ≡ false }
        ensures { OnOk result (self.new ≡ self.old ++ acts.now ∷ []) }
    {
        self.lists.reserve(1)?;
        self.links.reserve(1)?;
        let bucket = bucket_among(acts, self.heads.len());
        self.lists.push_reserved(acts);
        self.links.push_reserved(self.heads[bucket]);
        self.heads[bucket] = self.lists.len();
        Ok(())
    }
}

// The bucket of a list, one of so many.
fn bucket_among(acts: &[Act], buckets: usize) -> usize
    requires some { 0 < buckets }
    ensures bucket { result ≡ bucket_among buckets acts.now }
    ensures within { result < buckets }
{
    bucket_of(acts) % buckets
}

fn bucket_of(acts: &[Act]) -> usize
    ensures bucket { result ≡ bucket_of acts.now }
    ensures within { result < BUCKETS }
{
    let mut bucket = 0;
    for act in acts {
        bucket = (bucket * 31 + act_code(*act)) % BUCKETS;
    }
    bucket
}

fn act_code(act: Act) -> usize
    ensures code { result ≡ act_code act }
    ensures small { result < 2 ^ 21 }
{
    match act {
        Act::Puts { peer, label, .. } | Act::Takes { peer, label, .. } => {
            usize::from(label.0) * 16 + usize::from(peer.0)
        }
    }
}

// The number of a list along a chain, 0 where it isn't in it.
fn number_along(lists: &[&[Act]], links: &[usize], head: usize, acts: &[Act]) -> usize
    requires size { length links.now ≡ length lists.now }
    requires within { head ≤ length lists.now }
    requires falls { (m next : ℕ) → slice_get links.now m ≡ Some next → next ≤ m }
    ensures none { result ≡ 0 → (n : ℕ) → IsChained links.now head n → slice_get (map (λ x. x.now) lists.now) n ≡ Some acts.now → ⊥ }
    ensures found { 0 < result → slice_get (map (λ x. x.now) lists.now) (result - 1) ≡ Some acts.now }
{
    let mut left = head;
    while left > 0 && !same_acts(lists[left - 1], acts) {
        left = links[left - 1];
    }
    left
}
