//! Fronts by their numbers, and their numbers by what they hold.
ghost use Rattle.std.specs.Prelude.{◌≡◌, ◌==◌, ◌<◌, ◌≤◌, ◌++◌, ◌∷◌, [], ℕ, true, false, length, slice_get, slice_index_or, Some, IfOk, IfSome, OnOk, OnErr, MatchOption};
ghost use Rattle.rs_model.specs.declared.limits.TheConstants.{MOST_STATES};
ghost use Rattle.rs_model.specs.Chains.{IsChained, bucket_on};
ghost use Rattle.rs_project.specs.Filing.{IsFiledUnder, IsInBucket, lone_front, with_number};
ghost use Rattle.rs_project.specs.declared.filing.TheConstants.{BUCKETS};
ghost use Rattle.rs_project.specs.Working.{FrontIsNew};

use crate::fronts::Front;
use crate::straight::lone_front;
use rs_model::{MOST_STATES, NoMemory};
use std::alloc::Global;
use std::marker::Model;

const BUCKETS: usize = 512;

/// Under what a front is filed: its talk if it is that of one talk alone, otherwise its bucket.
#[derive(Clone, Copy)]
pub enum Filing {
    Lone(u32),
    Shared(usize),
}

/// Under what the front is filed.
#[inline(always)]
pub fn filing_of(front: &Front) -> Filing
    ensures { IsFiledUnder result front.now }
{
    match front.lone_talk() {
        Some(talk) => Filing::Lone(talk),
        None => Filing::Shared(bucket_of(front.talks.as_slice())),
    }
}

/// Fronts in the order in which they were found, with an index by which one is found again: of each bucket the head of a
/// chain of numbers, and of each number the next of its chain. A front of one talk alone is found by the talk, and stands
/// in no chain. Each is one more than the number; 0 is none.
#[derive(Drop)]
pub struct Fronts {
    items: Vec<Front>,
    heads: Vec<u16>,
    links: Vec<u16>,
    lone: Vec<u16>,
}

impl Model for Fronts {
    ghost use Rattle.std.specs.Prelude.{List};
    ghost use Rattle.rs_project.specs.Data.{Front_data};
    ghost use Rattle.rs_project.specs.Filing.{FrontsAreKept};

    ghost Value = { List Front_data };

    ghost view = { λ f. f.items.items };

    ghost invariant = { λ f. FrontsAreKept f.items.items f.heads.items f.links.items f.lone.items };
}

impl Fronts {
    /// No fronts, with room for a number of fronts, among a number of talks.
    pub fn with_room(alloc: Global, room: usize, talks: usize) -> Result<Fronts, NoMemory>
        ensures { IfOk result (λ f. f ≡ []) }
    {
        Ok(Fronts {
            items: Vec::with_capacity(alloc, room)?,
            heads: vec![in alloc; 0; BUCKETS]?,
            links: Vec::with_capacity(alloc, room)?,
            lone: vec![in alloc; 0; talks]?,
        })
    }

    /// The fronts, by their numbers.
    pub fn as_slice(&self) -> &[Front]
        ensures { result.now ≡ self.now }
    {
        self.items.as_slice()
    }

    /// The fronts, without the index.
    pub fn into_items(self) -> Vec<Front>
        ensures { result.items ≡ self }
    {
        let Fronts { items, .. } = self;
        items
    }

    /// How many there are.
    pub fn len(&self) -> usize
        ensures count { result ≡ length self.now }
        ensures bounded { result ≤ MOST_STATES }
    {
        self.items.len()
    }

    /// Whether no more can be added.
    pub fn is_full(&self) -> bool
        ensures { result ≡ (length self.now == MOST_STATES) }
    {
        self.items.len() == MOST_STATES
    }

    /// The number of the front, where it was found before.
    #[inline(always)]
    pub fn number_of(&self, front: &Front, filing: Filing) -> Option<u32>
        requires { IsFiledUnder filing front.now }
        ensures { MatchOption result (FrontIsNew self.now front.now) (λ n. slice_get self.now n ≡ Some front.now) }
    {
        match filing {
            Filing::Lone(talk) => self.number_of_lone(talk),
            Filing::Shared(bucket) => self.number_of_shared(front, bucket),
        }
    }

    #[inline(always)]
    fn number_of_shared(&self, front: &Front, bucket: usize) -> Option<u32>
        requires { IsInBucket bucket front.now }
        ensures { MatchOption result (FrontIsNew self.now front.now) (λ n. slice_get self.now n ≡ Some front.now) }
    {
        let head = self.heads[bucket];
        number_along(&self.items, &self.links, head, front)
    }

    /// The number of the front of this talk alone, where it was found before.
    pub fn number_of_lone(&self, talk: u32) -> Option<u32>
        ensures { MatchOption result (FrontIsNew self.now (lone_front talk)) (λ n. slice_get self.now n ≡ Some (lone_front talk)) }
    {
        let number = number_at(&self.lone, talk);
        if number == 0 {
            return None;
        }
        Some(u32::from(number) - 1)
    }

    /// Adds a front at the end.
    #[inline(always)]
    pub fn add(&mut self, front: Front, filing: Filing) -> Result<(), NoMemory>
        requires room { length self.old < MOST_STATES }
        requires filing { IsFiledUnder filing front }
        ensures ok { OnOk result (self.new ≡ self.old ++ (front ∷ [])) }
        ensures err { OnErr result (self.new ≡ self.old) }
    {
        match filing {
            Filing::Lone(talk) => self.add_at(front, talk),
            Filing::Shared(bucket) => self.add_shared(front, bucket),
        }
    }

    #[inline(always)]
    fn add_shared(&mut self, front: Front, bucket: usize) -> Result<(), NoMemory>
        requires room { length self.old < MOST_STATES }
        requires bucket { IsInBucket bucket front }
        ensures ok { OnOk result (self.new ≡ self.old ++ (front ∷ [])) }
        ensures err { OnErr result (self.new ≡ self.old) }
    {
        let number = self.items.len() as u16;
        let head = self.heads[bucket];
        self.items.reserve(1)?;
        self.links.reserve(1)?;
        self.items.push_reserved(front);
        self.links.push_reserved(head);
        self.heads[bucket] = number + 1;
        Ok(())
    }

    /// Adds the front of this talk alone at the end.
    pub fn add_lone(&mut self, alloc: Global, talk: u32) -> Result<(), NoMemory>
        requires { length self.old < MOST_STATES }
        ensures ok { OnOk result (self.new ≡ self.old ++ (lone_front talk ∷ [])) }
        ensures err { OnErr result (self.new ≡ self.old) }
    {
        self.add_at(lone_front(alloc, talk), talk)
    }

    #[inline(always)]
    fn add_at(&mut self, front: Front, talk: u32) -> Result<(), NoMemory>
        requires room { length self.old < MOST_STATES }
        requires lone { front ≡ lone_front talk }
        ensures ok { OnOk result (self.new ≡ self.old ++ (front ∷ [])) }
        ensures err { OnErr result (self.new ≡ self.old) }
    {
        let number = self.items.len() as u16;
        make_room(&mut self.lone, Some(talk))?;
        self.items.reserve(1)?;
        self.links.reserve(1)?;
        self.items.push_reserved(front);
        self.links.push_reserved(0);
        set_number(&mut self.lone, Some(talk), number + 1);
        Ok(())
    }
}

/// What is filed at the node.
pub fn number_at(numbers: &[u16], talk: u32) -> u16
    ensures { result ≡ slice_index_or numbers.now talk 0 }
{
    match numbers.get(talk as usize) {
        Some(number) => *number,
        None => 0,
    }
}

/// Makes a place for the node.
pub fn make_room(numbers: &mut Vec<u16>, talk: Option<u32>) -> Result<(), NoMemory>
    ensures same { (n : ℕ) → slice_index_or numbers.new.items n 0 ≡ slice_index_or numbers.old.items n 0 }
    ensures room { OnOk result (IfSome talk (λ t. t < length numbers.new.items)) }
{
    let Some(talk) = talk else {
        return Ok(());
    };
    if (talk as usize) < numbers.len() {
        return Ok(());
    }
    lengthen(numbers, talk as usize + 1)
}

// Rare, and apart from `make_room`, so that it stays small.
#[inline(never)]
fn lengthen(numbers: &mut Vec<u16>, count: usize) -> Result<(), NoMemory>
    requires { length numbers.old.items ≤ count }
    ensures same { (n : ℕ) → slice_index_or numbers.new.items n 0 ≡ slice_index_or numbers.old.items n 0 }
    ensures room { OnOk result (length numbers.new.items ≡ count) }
{
    numbers.resize(count, 0)?;
    Ok(())
}

/// Notes the number at the node.
pub fn set_number(numbers: &mut Vec<u16>, talk: Option<u32>, number: u16)
    requires { IfSome talk (λ t. t < length numbers.old.items) }
    ensures { numbers.new.items ≡ with_number talk number numbers.old.items }
{
    if let Some(talk) = talk {
        numbers[talk as usize] = number;
    }
}

#[inline(always)]
fn bucket_of(talks: &[u32]) -> usize
    ensures bucket { result ≡ bucket_on BUCKETS 0 talks.now }
    ensures within { result < BUCKETS }
{
    let mut bucket = 0;
    for talk in talks {
        bucket = (bucket * 31 + *talk as usize) % BUCKETS;
    }
    bucket
}

// The number along a chain that is the front's.
fn number_along(fronts: &[Front], links: &[u16], head: u16, front: &Front) -> Option<u32>
    requires size { length links.now ≡ length fronts.now }
    requires within { head ≤ length fronts.now }
    requires falls { (m next : ℕ) → slice_get links.now m ≡ Some next → next ≤ m }
    ensures { MatchOption result ((n : ℕ) → IsChained links.now head n → slice_get fronts.now n ≡ Some front.now → ⊥) (λ n. slice_get fronts.now n ≡ Some front.now) }
{
    let mut left = head;
    while left > 0 {
        let number = u32::from(left) - 1;
        if is_at(fronts, number, front) {
            return Some(number);
        }
        left = links[number as usize];
    }
    None
}

#[inline(always)]
fn is_at(fronts: &[Front], number: u32, front: &Front) -> bool
    ensures sound { result ≡ true → slice_get fronts.now number ≡ Some front.now }
    ensures whole { result ≡ false → slice_get fronts.now number ≡ Some front.now → ⊥ }
{
    match fronts.get(number as usize) {
        Some(known) => same_front(known, front),
        None => false,
    }
}

#[inline(always)]
fn same_front(one: &Front, other: &Front) -> bool
    ensures sound { result ≡ true → one.now ≡ other.now }
    ensures whole { result ≡ false → one.now ≡ other.now → ⊥ }
{
    if one.ends != other.ends {
        return false;
    }
    same_talks(one.talks.as_slice(), other.talks.as_slice())
}

#[inline(always)]
fn same_talks(one: &[u32], other: &[u32]) -> bool
    ensures sound { result ≡ true → one.now ≡ other.now }
    ensures whole { result ≡ false → one.now ≡ other.now → ⊥ }
{
    one == other
}
