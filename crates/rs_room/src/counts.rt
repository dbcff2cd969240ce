//! A square of numbers, by sender and receiver.
ghost use Rattle.std.specs.Prelude.{◌≡◌, ◌<◌, ◌^◌, [], IfOk, length, replicate, slice_index_or};
ghost use Rattle.rs_room.specs.Counts.{CanCount, counts_behind, count_for_pair};

use rs_model::{NoMemory, Role};
use std::alloc::Global;
use std::marker::Model;

/// Numbers of one sender, one for each receiver.
#[derive(Drop)]
struct SenderCounts {
    numbers: Vec<u64>,
}

impl Model for SenderCounts {
    ghost use Rattle.std.specs.Prelude.{List, ℕ};

    ghost Value = { List ℕ };

    ghost view = { λ r. r.numbers.items };
}

/// A number for each ordered pair of roles.
#[derive(Drop)]
pub(crate) struct PairCounts {
    rows: Vec<SenderCounts>,
}

impl Model for PairCounts {
    ghost use Rattle.std.specs.Prelude.{List, ℕ};

    ghost Value = { List (List ℕ) };

    ghost view = { λ c. c.rows.items };
}

impl PairCounts {
    /// Zero for each pair of roles.
    pub(crate) fn new(alloc: Global, roles: usize) -> Result<PairCounts, NoMemory>
        ensures { IfOk result (λ c. c ≡ replicate roles (replicate roles 0)) }
    {
        let mut rows = Vec::with_capacity(alloc, roles)?;
        for _ in 0..roles {
            rows.push(zeros(alloc, roles)?)?;
        }
        Ok(PairCounts { rows })
    }

    /// The number for the pair.
    pub(crate) fn number(&self, sender: Role, receiver: Role) -> u64
        requires sender { sender.0 < length self.now }
        requires receiver { receiver.0 < length (slice_index_or self.now sender.0 []) }
        ensures number { result ≡ count_for_pair self.now sender.0 receiver.0 }
        ensures small { result < 2 ^ 64 }
    {
        self.rows[sender.0 as usize].numbers[receiver.0 as usize]
    }

    /// Adds one to the number for the pair, if one is given.
    pub(crate) fn count(&mut self, pair: Option<(Role, Role)>)
        requires { CanCount self.old pair }
        ensures { self.new ≡ counts_behind self.old pair }
    {
        if let Some((sender, receiver)) = pair {
            self.rows[sender.0 as usize].numbers[receiver.0 as usize] += 1;
        }
    }
}

fn zeros(alloc: Global, count: usize) -> Result<SenderCounts, NoMemory>
    ensures { IfOk result (λ r. r ≡ replicate count 0) }
{
    let mut numbers = Vec::with_capacity(alloc, count)?;
    for _ in 0..count {
        numbers.push(0)?;
    }
    Ok(SenderCounts { numbers })
}
