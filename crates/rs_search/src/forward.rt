//! Ranks along edges that all lead to greater numbers, from the last number to the first.
ghost use Rattle.std.specs.Prelude.{◌≡◌, ◌<◌, ◌≤◌, ◌+◌, ◌^◌, [], List, ℕ, IfOk, IfSome, length, slice_index_or, true};
ghost use Rattle.rs_graph.specs.Lists.{Among};
ghost use Rattle.rs_graph.specs.Ranks.{Edge};
ghost use Rattle.rs_graph.specs.RanksSoFar.{RankFits};
ghost use Rattle.rs_search.specs.Forward.{AreForward, kept_row};

use crate::table::SpotTable;

// One more than the greatest rank of the row; none where it leads to a number that isn't greater.
fn rank_behind(row: &[u32], number: usize, table: &SpotTable) -> Option<u32>
    requires bounded { length table.now.ranks < 2 ^ 32 }
    requires here { number < length table.now.ranks }
    requires within { (j : ℕ) → Among row.now j → j < length table.now.ranks }
    requires low { (j : ℕ) → number < j → j < length table.now.ranks → slice_index_or table.now.ranks j 0 + j < length table.now.ranks }
    ensures fits { IfSome result (λ rank. RankFits row.now table.now.ranks rank) }
    ensures on { IfSome result (λ rank. (j : ℕ) → Among row.now j → number < j) }
    ensures low { IfSome result (λ rank. rank + number < length table.now.ranks) }
{
    let mut rank: u32 = 0;
    for i in 0..row.len() {
        let next = row[i] as usize;
        if next <= number {
            return None;
        }
        rank = rank.max(table.rank(next) + 1);
    }
    Some(rank)
}

// The same where the row is kept; 0 where it isn't.
fn rank_of(keeps: bool, number: usize, table: &SpotTable) -> Option<u32>
    requires bounded { length table.now.ranks < 2 ^ 32 }
    requires here { number < length table.now.ranks }
    requires known { number < length table.now.rows }
    requires within { (j : ℕ) → Among (slice_index_or table.now.rows number []) j → j < length table.now.ranks }
    requires low { (j : ℕ) → number < j → j < length table.now.ranks → slice_index_or table.now.ranks j 0 + j < length table.now.ranks }
    ensures fits { IfSome result (λ rank. RankFits (kept_row keeps (slice_index_or table.now.rows number [])) table.now.ranks rank) }
    ensures on { IfSome result (λ rank. (j : ℕ) → Among (kept_row keeps (slice_index_or table.now.rows number [])) j → number < j) }
    ensures low { IfSome result (λ rank. rank + number < length table.now.ranks) }
{
    if keeps {
        rank_behind(table.row(number).as_slice(), number, table)
    } else {
        Some(0)
    }
}

/// Gives each spot its rank, the greatest length of a walk of kept edges from it, and returns true. If some kept edge
/// doesn't lead to a greater number, it returns false, and no rank means anything.
pub fn forward_ranks(keeps: &[bool], table: &mut SpotTable) -> bool
    requires bounded { length table.old.rows < 2 ^ 32 }
    requires known { length table.old.rows ≡ length table.old.spots }
    requires keeps { length keeps.now ≡ length table.old.rows }
    requires within { (n j : ℕ) → Edge table.old.rows n j → j < length table.old.rows }
    ensures ranks { result ≡ true → AreForward keeps.now table.new.rows table.new.ranks 0 }
    ensures spots { table.new.spots ≡ table.old.spots }
    ensures rows { table.new.rows ≡ table.old.rows }
{
    let mut number = table.known();
    while number > 0 {
        number -= 1;
        match rank_of(keeps[number], number, table) {
            Some(rank) => table.set_rank(number, rank),
            None => return false,
        }
    }
    true
}
