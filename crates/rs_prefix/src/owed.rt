//! What a machine still owes, a list of acts that grows at its end and from which any act may be taken.
ghost use Rattle.std.specs.Prelude.{◌≡◌, ◌<◌, [], ◌∷◌, ◌++◌, length, slice_get, IfOk, Some, OnOk, OnErr};
ghost use Rattle.rs_prefix.specs.Earliest.{Finds, without};
ghost use Rattle.rs_prefix.specs.Search.{earliest};

use crate::earliest::{has, may_overtake};
use crate::{ActKind, Found};
use rs_model::{Act, NoMemory, Role};
use smallvec::SmallVec;
use std::alloc::Global;
use std::marker::Model;

/// The acts that a machine owes, the oldest first. A few of them need no allocation.
#[derive(Drop, Debug)]
pub struct Pending {
    acts: SmallVec<Act, 4>,
}

impl Model for Pending {
    ghost use Rattle.std.specs.Prelude.{List};
    ghost use Rattle.rs_model.specs.declared.machines.Act.{Act};

    ghost Value = { List Act };

    ghost view = { λ p. p.acts.items };
}

// Lists are made out of line: a caller that has it inline copies the unused places one by one.
impl Pending {
    /// Nothing owed.
    #[inline(never)]
    pub fn new(alloc: Global) -> Pending
        ensures { result ≡ [] }
    {
        Pending {
            acts: SmallVec::new(alloc),
        }
    }

    // One act owed, which needs no allocation.
    #[inline(never)]
    fn of_one(alloc: Global, act: Act) -> Pending
        ensures { result ≡ act ∷ [] }
    {
        let mut acts = SmallVec::new(alloc);
        acts.push_reserved(act);
        Pending { acts }
    }

    /// The same acts in memory of their own.
    #[inline(always)]
    pub fn copy(&self, alloc: Global) -> Result<Pending, NoMemory>
        ensures { IfOk result (λ p. p ≡ self.now) }
    {
        if self.acts.is_empty() {
            return Ok(Pending::new(alloc));
        }
        Ok(Pending {
            acts: SmallVec::from_slice(alloc, self.acts.as_slice())?,
        })
    }

    /// A copy with one act more, the newest.
    #[inline(always)]
    pub fn copy_with(&self, alloc: Global, act: Act) -> Result<Pending, NoMemory>
        ensures { IfOk result (λ p. p ≡ self.now ++ act ∷ []) }
    {
        if self.acts.is_empty() {
            return Ok(Pending::of_one(alloc, act));
        }
        self.longer_copy(alloc, act)
    }

    #[inline(never)]
    fn longer_copy(&self, alloc: Global, act: Act) -> Result<Pending, NoMemory>
        ensures { IfOk result (λ p. p ≡ self.now ++ act ∷ []) }
    {
        let mut acts = SmallVec::with_capacity(alloc, self.acts.len().saturating_add(1))?;
        acts.extend_from_slice(self.acts.as_slice())?;
        acts.push(act)?;
        Ok(Pending { acts })
    }

    /// A copy without the act at the place; those after it close up.
    #[inline(always)]
    pub fn copy_without(&self, alloc: Global, place: usize) -> Result<Pending, NoMemory>
        requires { place < length self.now }
        ensures { IfOk result (λ p. p ≡ without self.now place) }
    {
        if self.acts.len() == 1 {
            return Ok(Pending::new(alloc));
        }
        self.shorter_copy(alloc, place)
    }

    #[inline(never)]
    fn shorter_copy(&self, alloc: Global, place: usize) -> Result<Pending, NoMemory>
        requires { place < length self.now }
        ensures { IfOk result (λ p. p ≡ without self.now place) }
    {
        let (before, rest) = self.acts.as_slice().split_at(place);
        let (_, behind) = rest.split_at(1);
        let mut acts = SmallVec::with_capacity(alloc, self.acts.len())?;
        acts.extend_from_slice(before)?;
        acts.extend_from_slice(behind)?;
        Ok(Pending { acts })
    }

    /// Appends an act. If memory runs out, it fails, and the list is as before.
    pub fn push(&mut self, act: Act) -> Result<(), NoMemory>
        ensures ok { OnOk result (self.new ≡ self.old ++ act ∷ []) }
        ensures err { OnErr result (self.new ≡ self.old) }
    {
        self.acts.push(act)?;
        Ok(())
    }

    /// The earliest pending act of the kind with the peer: its place if it may overtake all acts before it,
    /// otherwise the place of the first act that it may not overtake. A send may overtake receives, and sends to others; a
    /// receive may overtake receives from others, and no send. Allocates nothing.
    #[inline(always)]
    pub fn find(&self, kind: ActKind, peer: Role) -> Found
        ensures means { Finds self.now kind peer result }
        ensures found { result ≡ earliest self.now kind peer }
    {
        self.scan(kind, peer)
    }

    #[inline(always)]
    fn scan(&self, kind: ActKind, peer: Role) -> Found
        ensures { result ≡ earliest self.now kind peer }
    {
        for (place, act) in self.acts.as_slice().iter().enumerate() {
            if has(*act, kind, peer) {
                return Found::At(place);
            }
            if !may_overtake(*act, kind, peer) {
                return Found::Blocked(place);
            }
        }
        Found::Absent
    }

    /// Takes the act at the place out of the list; those after it close up. Allocates nothing.
    pub fn take(&mut self, place: usize) -> Act
        requires { place < length self.now }
        ensures act { slice_get self.old place ≡ Some result }
        ensures rest { self.new ≡ without self.old place }
    {
        self.acts.remove(place)
    }

    /// The acts, the oldest first.
    #[inline(always)]
    pub fn as_slice(&self) -> &[Act]
        ensures { result.now ≡ self.now }
    {
        self.acts.as_slice()
    }
}
