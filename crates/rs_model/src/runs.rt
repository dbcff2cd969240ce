//! What a search and a run are told: numbers that lie in their ranges, and who makes the turns.

ghost use Rattle.std.specs.Prelude.{◌≡◌, ◌≤◌, ℕ, IfNone, IfSome, min};
ghost use Rattle.rs_model.specs.Limits.{IsBound, IsCapacity, IsCrew};

use crate::limits::{DEFAULT_BOUND, MOST_BOUND, MOST_CAPACITY, MOST_WORKERS};
use std::marker::Model;

/// The bound of a search, from 1 to 64: the most acts that a derivation may owe at a node.
#[derive(Clone, Copy, Debug, PartialEq, Eq)]
pub struct Bound {
    number: u8,
}

impl Model for Bound {
    ghost Value = { ℕ };

    ghost view = { λ b. b.number };

    ghost invariant = { λ b. IsBound b.number };

    ghost inverse = { λ n. record { number = n } };
}

impl Bound {
    /// The bound of this number; None where no search is bounded by it.
    pub fn new(number: u8) -> Option<Bound>
        ensures some { IfSome result (λ b. b ≡ number) }
        ensures none { IfNone result (IsBound number → ⊥) }
    {
        if 1 <= number && number as usize <= MOST_BOUND {
            Some(Bound { number })
        } else {
            None
        }
    }

    /// The bound where none is told.
    pub fn standard() -> Bound
        ensures { result ≡ DEFAULT_BOUND }
    {
        Bound {
            number: DEFAULT_BOUND,
        }
    }

    /// Its number.
    pub fn number(self) -> u8
        ensures number { result ≡ self }
        ensures range { IsBound result }
    {
        self.number
    }
}

/// How many messages a ring holds, from 1 to 1,024.
#[derive(Clone, Copy, Debug, PartialEq, Eq)]
pub struct Capacity {
    messages: u16,
}

impl Model for Capacity {
    ghost Value = { ℕ };

    ghost view = { λ c. c.messages };

    ghost invariant = { λ c. IsCapacity c.messages };

    ghost inverse = { λ n. record { messages = n } };
}

impl Capacity {
    /// The capacity of so many messages; None where no ring has it.
    pub fn new(messages: u16) -> Option<Capacity>
        ensures some { IfSome result (λ c. c ≡ messages) }
        ensures none { IfNone result (IsCapacity messages → ⊥) }
    {
        if 1 <= messages && u32::from(messages) <= MOST_CAPACITY {
            Some(Capacity { messages })
        } else {
            None
        }
    }

    /// The capacity of so many messages, or the greatest that there is where they are more.
    pub fn at_most(messages: u64) -> Capacity
        requires { 1 ≤ messages }
        ensures { result ≡ min messages MOST_CAPACITY }
    {
        Capacity {
            messages: messages.min(u64::from(MOST_CAPACITY)) as u16,
        }
    }

    /// How many messages it is.
    pub fn messages(self) -> u16
        ensures messages { result ≡ self }
        ensures range { IsCapacity result }
    {
        self.messages
    }
}

/// How many workers run a session together, from 2 to 16.
#[derive(Clone, Copy, Debug, PartialEq, Eq)]
pub struct Crew {
    workers: u8,
}

impl Model for Crew {
    ghost Value = { ℕ };

    ghost view = { λ c. c.workers };

    ghost invariant = { λ c. IsCrew c.workers };

    ghost inverse = { λ n. record { workers = n } };
}

impl Crew {
    /// The crew of so many workers; None where it is none.
    pub fn new(workers: u8) -> Option<Crew>
        ensures some { IfSome result (λ c. c ≡ workers) }
        ensures none { IfNone result (IsCrew workers → ⊥) }
    {
        if 2 <= workers && u32::from(workers) <= MOST_WORKERS {
            Some(Crew { workers })
        } else {
            None
        }
    }

    /// How many workers it has.
    pub fn workers(self) -> u8
        ensures workers { result ≡ self }
        ensures range { IsCrew result }
    {
        self.workers
    }
}

/// Who makes the turns of a run.
#[derive(Clone, Copy, Debug, PartialEq, Eq)]
pub enum Workers {
    /// The thread that calls, round after round.
    One,
    /// So many workers, on threads of their own, as they come.
    Several(Crew),
}

/// How a session is derived and run.
#[derive(Clone, Copy, Debug, PartialEq, Eq)]
pub struct RunOptions {
    /// The bound of the search.
    pub bound: Bound,
    /// How many messages each ring holds. Where it isn't told, it is the session's room, or 1,024 where that is greater.
    pub ring: Option<Capacity>,
    /// How many acts a role makes, at most, before the run is stopped.
    pub limit: u32,
    /// Where the draws of the actors begin.
    pub seed: u32,
}
