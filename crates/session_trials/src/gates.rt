//! A gate at which two workers meet.

use crossbeam_utils::Backoff;
use rs_model::Role;
use rs_pool::Gate;
use std::sync::atomic::AtomicU64;
use std::sync::atomic::Ordering::SeqCst;

/// How often a worker looks for the other, at most.
const TRIES: u32 = 10_000_000;

/// A gate for two workers: the first turn of each waits until the first turn of the other has begun, or until it has looked so
/// often that it gives up.
#[derive(Drop)]
pub struct Meeting {
    first: AtomicU64,
    second: AtomicU64,
    missed: AtomicU64,
}

impl Meeting {
    /// A gate that wasn't called yet.
    pub fn new() -> Meeting {
        Meeting {
            first: AtomicU64::new(0),
            second: AtomicU64::new(0),
            missed: AtomicU64::new(0),
        }
    }

    /// Whether both came, and met.
    pub fn was_held(&self) -> bool {
        self.first.load(SeqCst) == 1
            && self.second.load(SeqCst) == 1
            && self.missed.load(SeqCst) == 0
    }
}

impl Gate for Meeting {
    fn before_turn(&self, worker: u8, _role: Role) {
        let (mine, other) = if worker == 0 {
            (&self.first, &self.second)
        } else {
            (&self.second, &self.first)
        };
        if mine.load(SeqCst) != 0 {
            return;
        }
        mine.store(1, SeqCst);
        let backoff = Backoff::new();
        for _ in 0..TRIES {
            if other.load(SeqCst) != 0 {
                return;
            }
            backoff.snooze();
        }
        self.missed.store(1, SeqCst);
    }

    fn after_turn(&self, _worker: u8, _role: Role) {}
}
