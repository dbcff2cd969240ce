//! Names with an index by which one is found.

ghost use Rattle.std.specs.Prelude.{◌≡◌, ◌+◌, ◌*◌, ◌^◌, ◌<◌, ◌≤◌, ◌++◌, ◌∷◌, [], ℕ, true, false, length, slice_get, Some, None, IfOk, IfSome, IfNone, OnOk, OnErr, MatchOption};
ghost use Rattle.rs_text.specs.Names.{place_of};
ghost use Rattle.rs_model.specs.declared.limits.TheConstants.{MOST_ROLES};
ghost use Rattle.rs_model.specs.Chains.{IsChained};
ghost use Rattle.rs_text.specs.Tables.{AreFiled, AreFiledIn, bucket_of, last_word};
ghost use Rattle.rs_text.specs.declared.tables.TheConstants.{BUCKETS};

use crate::names::{are_equal, find, half_at, word_at};
use rs_model::{Name, NoMemory, Role};
use std::alloc::Global;
use std::marker::Model;

// The buckets of the index; no limit of what is filed.
const BUCKETS: usize = 256;

// Odd, and about 2^64 over the golden ratio: words that are alike fall into buckets far apart.
const SPREAD: u64 = 0x9E37_79B9_7F4A_7C15;

// Fewer names are found as fast without an index.
const FEW: usize = 8;

/// Names in order, with an index by which one is found: of each bucket the head of a chain of places, and of each place
/// the next of its chain. Each is one more than the place; 0 ends a chain. For few names, and without memory for the
/// buckets, there are none.
#[derive(Drop)]
pub struct NameTable {
    names: Vec<Name>,
    heads: Vec<usize>,
    links: Vec<usize>,
}

impl Model for NameTable {
    ghost use Rattle.std.specs.Prelude.{List, ℕ};
    ghost use Rattle.rs_text.specs.Tables.{AreFiledIn};

    ghost Value = { List (List ℕ) };

    ghost view = { λ t. t.names.items };

    ghost invariant = { λ t. AreFiledIn t.heads.items t.names.items t.links.items };
}

impl NameTable {
    /// These names.
    pub fn new(alloc: Global, names: Vec<Name>) -> NameTable
        ensures { result ≡ names.items }
    {
        let mut table = NameTable {
            names,
            heads: Vec::new(alloc),
            links: Vec::new(alloc),
        };
        if table.len() >= FEW {
            table.file(alloc);
        }
        table
    }

    // Makes the index, where there is memory for it.
    fn file(&mut self, alloc: Global)
        ensures { self.new ≡ self.old }
    {
        if let Ok(index) = index_of(alloc, self.names.as_slice()) {
            let Index { heads, links } = index;
            self.heads = heads;
            self.links = links;
        }
    }

    /// The names, by their places.
    pub fn as_slice(&self) -> &[Name]
        ensures { result.now ≡ self.now }
    {
        self.names.as_slice()
    }

    /// The names, without the index.
    pub fn into_names(self) -> Vec<Name>
        ensures { result.items ≡ self }
    {
        let NameTable { names, .. } = self;
        names
    }

    /// How many there are.
    pub fn len(&self) -> usize
        ensures { result ≡ length self.now }
    {
        self.names.len()
    }

    /// The place of a name, the first one if it stands there more than once.
    #[inline(always)]
    pub fn find(&self, word: &[u8]) -> Option<usize>
        ensures { result ≡ place_of word.now self.now }
    {
        if self.heads.is_empty() {
            return find(self.names.as_slice(), word);
        }
        find_filed(self.names.as_slice(), &self.heads, &self.links, word)
    }

    /// The role with this name.
    #[tactic(auto, using(crate::proofs::Numbers::place_below))]
    pub fn find_role(&self, word: &[u8]) -> Option<Role>
        requires { length self.now ≤ MOST_ROLES }
        ensures some { IfSome result (λ role. place_of word.now self.now ≡ Some role.0) }
        ensures none { IfNone result (place_of word.now self.now ≡ None) }
    {
        let place = self.find(word)?;
        Some(Role(place as u8))
    }

    /// Puts a name behind the others and gives its place; where memory is refused nothing changes.
    pub fn add(&mut self, alloc: Global, word: &[u8]) -> Result<usize, NoMemory>
        ensures place { IfOk result (λ place. place ≡ length self.old) }
        ensures added { OnOk result (self.new ≡ self.old ++ word.now ∷ []) }
        ensures kept { OnErr result (self.new ≡ self.old) }
    {
        let place = self.names.len();
        let name = Name::of(alloc, word)?;
        self.links.reserve(1)?;
        self.names.push(name)?;
        if self.heads.is_empty() {
            if self.len() == FEW {
                self.file(alloc);
            }
            return Ok(place);
        }
        let bucket = bucket_of(word);
        self.links.push(self.heads[bucket]).unwrap();
        self.heads[bucket] = place + 1;
        Ok(place)
    }
}

// The place of a name among names that are filed.
#[inline(never)]
fn find_filed(names: &[Name], heads: &[usize], links: &[usize], word: &[u8]) -> Option<usize>
    requires { AreFiled names.now heads.now links.now }
    ensures { result ≡ place_of word.now names.now }
{
    let head = heads[bucket_of(word)];
    place_along(names, links, head, word)
}

#[derive(Drop)]
struct Index {
    heads: Vec<usize>,
    links: Vec<usize>,
}

fn index_of(alloc: Global, names: &[Name]) -> Result<Index, NoMemory>
    ensures { IfOk result (λ i. AreFiled names.now i.heads.items i.links.items) }
{
    let mut heads = vec![in alloc; 0; BUCKETS]?;
    let mut links = Vec::with_capacity(alloc, names.len())?;
    for name in names {
        let bucket = bucket_of(name.as_slice());
        let head = heads[bucket];
        links.push(head)?;
        heads[bucket] = links.len();
    }
    Ok(Index { heads, links })
}

// The top eight bits of a product, which depend on each byte of the word.
#[inline(always)]
fn bucket_of(name: &[u8]) -> usize
    ensures bucket { result ≡ bucket_of name.now }
    ensures within { result < BUCKETS }
{
    (last_word(name).wrapping_mul(SPREAD) >> 56) as usize
}

// The last bytes of a name as one number, eight at most.
#[inline(always)]
fn last_word(name: &[u8]) -> u64
    ensures { result ≡ last_word name.now }
{
    match name.len() {
        0 => 0,
        1..=3 => three_bytes(name[0], name[name.len() / 2], name[name.len() - 1]),
        4..=7 => two_halves(half_at(name, 0), half_at(name, name.len() - 4)),
        _ => word_at(name, name.len() - 8),
    }
}

#[inline(always)]
fn three_bytes(first: u8, middle: u8, last: u8) -> u64
    ensures { result ≡ (first * 256 + middle) * 256 + last }
{
    (u64::from(first) * 256 + u64::from(middle)) * 256 + u64::from(last)
}

#[inline(always)]
fn two_halves(first: u32, last: u32) -> u64
    ensures { result ≡ first * 2 ^ 32 + last }
{
    u64::from(first) * 0x1_0000_0000 + u64::from(last)
}

// The least place along a chain at which the word stands.
fn place_along(names: &[Name], links: &[usize], head: usize, word: &[u8]) -> Option<usize>
    requires size { length links.now ≡ length names.now }
    requires within { head ≤ length names.now }
    requires falls { (m next : ℕ) → slice_get links.now m ≡ Some next → next ≤ m }
    ensures { MatchOption result ((n : ℕ) → IsChained links.now head n → slice_get names.now n ≡ Some word.now
        → ⊥) (λ p. (slice_get names.now p ≡ Some word.now) × ((n : ℕ) → IsChained links.now head n → slice_get names.now n ≡ Some word.now → p ≤ n)) }
{
    let mut found = None;
    let mut left = head;
    while left > 0 {
        let place = left - 1;
        if is_at(names, place, word) {
            found = Some(place);
        }
        left = links[place];
    }
    found
}

fn is_at(names: &[Name], place: usize, word: &[u8]) -> bool
    requires { place < length names.now }
    ensures sound { result ≡ true → slice_get names.now place ≡ Some word.now }
    ensures whole { result ≡ false → slice_get names.now place ≡ Some word.now → ⊥ }
{
    is_same(names[place].as_slice(), word)
}

fn is_same(one: &[u8], other: &[u8]) -> bool
    ensures sound { result ≡ true → one.now ≡ other.now }
    ensures whole { result ≡ false → one.now ≡ other.now → ⊥ }
{
    are_equal(one, other)
}
