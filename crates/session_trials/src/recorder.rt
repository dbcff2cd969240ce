//! A gate that records its calls.

use crossbeam_utils::Backoff;
use rs_model::{NoMemory, Role};
use rs_pool::Gate;
use std::alloc::Global;
use std::sync::atomic::AtomicU64;
use std::sync::atomic::Ordering::SeqCst;

/// How often a worker looks for the others, at most.
const TRIES: u32 = 10_000_000;

/// Counts of calls, one for each place.
#[derive(Drop)]
struct Counts {
    counts: Vec<AtomicU64>,
}

impl Counts {
    fn new(alloc: Global, places: usize) -> Result<Counts, NoMemory> {
        let mut counts = Vec::new(alloc);
        for _ in 0..places {
            counts.push(AtomicU64::new(0))?;
        }
        Ok(Counts { counts })
    }

    /// The count at a place: 0 if there is none.
    fn at(&self, place: usize) -> u64 {
        match self.counts.get(place) {
            Some(count) => count.load(SeqCst),
            None => 0,
        }
    }

    /// One more at the place, if it is there.
    fn add(&self, place: usize) {
        if let Some(count) = self.counts.get(place) {
            count.fetch_add(1, SeqCst);
        }
    }

    /// Puts a number in the place of another; whether that was there.
    fn exchange(&self, place: usize, old: u64, new: u64) -> bool {
        match self.counts.get(place) {
            Some(count) => count.compare_exchange(old, new, SeqCst, SeqCst).is_ok(),
            None => false,
        }
    }
}

/// A gate that records its calls. At its first turn each worker waits until all have come, or until it has looked so often
/// that it gives up.
#[derive(Drop)]
pub(crate) struct Recorder {
    workers: u8,
    roles: u8,
    /// How often each worker was called with each role before a turn, and how often after it.
    before: Counts,
    after: Counts,
    /// By which worker a turn of the role has begun and not ended: its number and one, or 0.
    turning: Counts,
    come: AtomicU64,
    missed: AtomicU64,
    wrong: AtomicU64,
}

impl Recorder {
    pub(crate) fn new(alloc: Global, workers: u8, roles: u8) -> Result<Recorder, NoMemory> {
        let places = usize::from(workers) * usize::from(roles);
        Ok(Recorder {
            workers,
            roles,
            before: Counts::new(alloc, places)?,
            after: Counts::new(alloc, places)?,
            turning: Counts::new(alloc, usize::from(roles))?,
            come: AtomicU64::new(0),
            missed: AtomicU64::new(0),
            wrong: AtomicU64::new(0),
        })
    }

    fn place(&self, worker: u8, role: u8) -> usize {
        usize::from(worker) * usize::from(self.roles) + usize::from(role)
    }

    /// How many turns of the role lay between two calls of one worker: none if some worker's calls aren't as many before
    /// turns as after them.
    pub(crate) fn turns_of(&self, role: u8) -> Option<u64> {
        let mut turns: u64 = 0;
        for worker in 0..self.workers {
            let place = self.place(worker, role);
            if self.before.at(place) != self.after.at(place) {
                return None;
            }
            turns = turns.saturating_add(self.before.at(place));
        }
        Some(turns)
    }

    /// Whether the worker has had a turn.
    fn has_come(&self, worker: u8) -> bool {
        for role in 0..self.roles {
            if self.before.at(self.place(worker, role)) != 0 {
                return true;
            }
        }
        false
    }

    /// Whether all workers were there at once, and each call was of one of them and of one of the roles, one turn of a role at a
    /// time.
    pub(crate) fn is_in_order(&self) -> bool {
        self.come.load(SeqCst) == u64::from(self.workers)
            && self.missed.load(SeqCst) == 0
            && self.wrong.load(SeqCst) == 0
    }

    /// Waits until all workers have come.
    fn wait_for_all(&self) {
        let backoff = Backoff::new();
        for _ in 0..TRIES {
            if self.come.load(SeqCst) >= u64::from(self.workers) {
                return;
            }
            backoff.snooze();
        }
        self.missed.store(1, SeqCst);
    }
}

impl Gate for Recorder {
    fn before_turn(&self, worker: u8, role: Role) {
        let first = !self.has_come(worker);
        let begins = self
            .turning
            .exchange(usize::from(role.0), 0, u64::from(worker) + 1);
        if worker >= self.workers || !begins {
            self.wrong.fetch_add(1, SeqCst);
        }
        self.before.add(self.place(worker, role.0));
        if first {
            self.come.fetch_add(1, SeqCst);
            self.wait_for_all();
        }
    }

    fn after_turn(&self, worker: u8, role: Role) {
        let ends = self
            .turning
            .exchange(usize::from(role.0), u64::from(worker) + 1, 0);
        if worker >= self.workers || !ends {
            self.wrong.fetch_add(1, SeqCst);
        }
        self.after.add(self.place(worker, role.0));
    }
}
