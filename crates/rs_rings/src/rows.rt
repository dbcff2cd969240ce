//! What a pass keeps at run time of each role that it speaks for, so that no call loads a word that its own role stores.
ghost use Rattle.std.specs.Prelude.{◌≡◌, ℕ, ◌+◌, ◌==◌, ◌<◌, ◌≤◌, ◌^◌, List, Option, None, Some, slice_get, slice_set, slice_index_or, replicate, length, IfOk, OnOk, ◌≢◌, if◌then◌else◌};
ghost use Rattle.rs_model.specs.declared.limits.TheConstants.{MOST_ROLES};
ghost use Rattle.rs_rings.specs.Rows.{row_at, with_sent_count, with_got_count, row_at_start, new_row, either_row};

use rs_model::{Machine, NoMemory, Role};
use std::alloc::Global;

/// A role's state, and how many parcels it has sent to each other role and got from it.
#[derive(Drop)]
pub struct Row {
    pub state: u32,
    pub sent: [u64; 16],
    pub got: [u64; 16],
}

/// The rows of the roles that a pass speaks for, by their numbers.
#[derive(Drop)]
pub struct Rows {
    pub items: [Option<Box<Row>>; 16],
}

impl Rows {
    /// A row for each machine.
    pub fn begin(alloc: Global, machines: &[Machine]) -> Result<Rows, NoMemory>
        requires { length machines.now ≤ MOST_ROLES }
        ensures some { IfOk result (λ r. (k : ℕ) → k < length machines.now → row_at r.items k ≡ row_at_start (slice_get machines.now k)) }
        ensures none { IfOk result (λ r. (k : ℕ) → length machines.now ≤ k → row_at r.items k ≡ None) }
    {
        let mut rows = Rows { items: no_rows() };
        for i in 0..machines.len() {
            let machine = &machines[i];
            rows.start(alloc, i, machine.start)?;
        }
        Ok(rows)
    }

    fn start(&mut self, alloc: Global, i: usize, start: u32) -> Result<(), NoMemory>
        requires { i < MOST_ROLES }
        ensures { OnOk result ((k : ℕ) → row_at self.new.items k ≡ (if k == i then Some (new_row start) else row_at self.old.items k)) }
    {
        self.items[i] = Some(Box::new(
            alloc,
            Row {
                state: start,
                sent: [0; 16],
                got: [0; 16],
            },
        )?);
        Ok(())
    }

    /// Cuts off the row of the role.
    pub fn split(&mut self, role: Role) -> Rows
        requires { role.0 < MOST_ROLES }
        ensures left { (i : ℕ) → row_at self.new.items i ≡ (if i == role.0 then None else row_at self.old.items i) }
        ensures right { (i : ℕ) → row_at result.items i ≡ (if i == role.0 then row_at self.old.items i else None) }
    {
        let mut own = no_rows();
        own[role.0 as usize] = self.items[role.0 as usize].take();
        Rows { items: own }
    }

    /// Adds the rows of the other, where there is none.
    pub fn join(&mut self, mut other: Rows)
        ensures { (k : ℕ) → k < MOST_ROLES → row_at self.new.items k ≡ either_row (row_at self.old.items k) (row_at other.items k) }
    {
        for i in 0..16 {
            self.join_one(&mut other, i);
        }
    }

    fn join_one(&mut self, other: &mut Rows, i: usize)
        requires { i < MOST_ROLES }
        ensures own { (k : ℕ) → row_at self.new.items k ≡ (if k == i then either_row (row_at self.old.items k) (row_at other.old.items k) else row_at self.old.items k) }
        ensures rest { (k : ℕ) → k ≢ i → row_at other.new.items k ≡ row_at other.old.items k }
    {
        if self.items[i].is_none() {
            self.items[i] = other.items[i].take();
        }
    }

    /// The number of the role's state.
    #[inline(always)]
    pub fn state(&self, role: Role) -> u32
        requires present { role.0 < MOST_ROLES }
        requires row { (r : Row) × (row_at self.now.items role.0 ≡ Some r) }
        ensures { (r : Row) → row_at self.now.items role.0 ≡ Some r → result ≡ r.state }
    {
        match &self.items[role.0 as usize] {
            Some(row) => row.state,
            None => unreachable!(),
        }
    }

    /// The role's state, and how much it has sent to the peer and got from it.
    #[inline(always)]
    pub fn counts(&self, role: Role, peer: Role) -> Counts
        requires present { (role.0 < MOST_ROLES) × (peer.0 < MOST_ROLES) }
        requires row { (r : Row) × (row_at self.now.items role.0 ≡ Some r) }
        ensures { (r : Row) → row_at self.now.items role.0 ≡ Some r → (result.state ≡ r.state) × (slice_get r.sent peer.0 ≡ Some result.sent) × (slice_get r.got peer.0 ≡ Some result.got) }
    {
        match &self.items[role.0 as usize] {
            Some(row) => Counts {
                state: row.state,
                sent: row.sent[peer.0 as usize],
                got: row.got[peer.0 as usize],
            },
            None => unreachable!(),
        }
    }

    /// Notes that the role has sent to the peer, and its next state.
    #[inline(always)]
    pub fn note_sent(&mut self, role: Role, peer: Role, sent: u64, next: u32)
        requires present { (role.0 < MOST_ROLES) × (peer.0 < MOST_ROLES) }
        ensures { (i : ℕ) → row_at self.new.items i ≡ (if i == role.0 then with_sent_count peer.0 sent next (row_at self.old.items i) else row_at self.old.items i) }
    {
        if let Some(row) = &mut self.items[role.0 as usize] {
            row.state = next;
            row.sent[peer.0 as usize] = sent;
        }
    }

    /// Notes that the role has got from the peer, and its next state.
    #[inline(always)]
    pub fn note_got(&mut self, role: Role, peer: Role, got: u64, next: u32)
        requires present { (role.0 < MOST_ROLES) × (peer.0 < MOST_ROLES) }
        ensures { (i : ℕ) → row_at self.new.items i ≡ (if i == role.0 then with_got_count peer.0 got next (row_at self.old.items i) else row_at self.old.items i) }
    {
        if let Some(row) = &mut self.items[role.0 as usize] {
            row.state = next;
            row.got[peer.0 as usize] = got;
        }
    }
}

/// What a call reads of a role's row.
#[derive(Clone, Copy)]
pub struct Counts {
    pub state: u32,
    pub sent: u64,
    pub got: u64,
}

fn no_rows() -> [Option<Box<Row>>; 16]
    ensures { result ≡ replicate 16 None }
{
    [
        None, None, None, None, None, None, None, None, None, None, None, None, None, None, None,
        None,
    ]
}
