//! The table of jobs: a table with a word and a slot for each role, and one word more, the word of ends.
ghost use Rattle.std.specs.Prelude.{◌≡◌, ◌⊎◌, ◌+◌, ◌<◌, ◌≤◌, [], ◌∷◌, true, false, Some, None, IfOk, IfErr, map, replicate, vec_len, vec_capacity};
ghost use Rattle.rs_model.specs.declared.limits.TheConstants.{MOST_ROLES};
ghost use Rattle.rs_pool.specs.Calls.{AreSeated, AreCollected, HasClaimed, HasRead, SeatRests};
ghost use Rattle.rs_pool.specs.Jobs.{JobFits, Over};
ghost use Rattle.rs_pool.specs.Rule.{IsAmount, view_with_one_share, amount_in, counting, view_at_start, view_without_job, sum_of_views, view_behind_share};

use crate::jobs::Job;
use crate::plays::{
    Claim, CountEnd, GiveHome, JoinShares, PoolTableRule, ReadEnds, SplitShare, StartName,
};
use crate::vectors::put;
use crate::views::{JobKey, JobView};
use atomic_table::{Refused, Seat, Table};
use rs_core::Actor;
use std::alloc::Global;

pub(crate) type JobTable<A, N> = Table<
    Option<Job<A>>,
    JobView,
    JobKey,
    PoolTableRule<A, N>,
    Global,
>;

pub(crate) type JobSeat<A> = Seat<Option<Job<A>>, JobView>;

/// The table, and for how many roles it is.
pub(crate) struct PoolTable<A: Actor, N: StartName<A>> {
    table: JobTable<A, N>,
    pub(crate) roles: u8,
    pub ghost keyed: { table.shared.key.roles ≡ roles },
    pub ghost wide: { table.shared.table_id.words ≡ roles + 1 },
}

/// The word of a job that is at home.
fn home_word(counted: bool) -> u64
    ensures counted { counted ≡ true → result ≡ 2 }
    ensures free { counted ≡ false → result ≡ 0 }
{
    if counted { 2 } else { 0 }
}

impl<A: Actor, N: StartName<A>> PoolTable<A, N> {
    /// A table with these jobs, and the first seat, which has a share for each worker and one more. The error hands the jobs back.
    pub(crate) fn open(
        alloc: Global,
        words: &[u64],
        slots: Vec<Option<Job<A>>>,
        workers: u8,
    ) -> Result<(PoolTable<A, N>, JobSeat<A>), Vec<Option<Job<A>>>>
        requires bounded { vec_len slots ≤ MOST_ROLES }
        requires words { words.now ≡ replicate (vec_len slots + 1) 0 }
        requires begun { AreSeated (JobFits A.behaviour N.start) (vec_len slots) slots.items }
        ensures table { IfOk result (λ t. t.1.table_id ≡ t.0.table.shared.table_id) }
        ensures first { IfOk result (λ t. t.1.me ≡ (view_at_start (workers + 1), [])) }
        ensures key { IfOk result (λ t. (t.0.roles ≡ vec_len slots) × (t.0.table.shared.key.shares ≡ workers + 1)) }
        ensures back { IfErr result (λ back. back.items ≡ slots.items) }
    {
        let roles = slots.len() as u8;
        let key = JobKey {
            roles,
            shares: workers as u32 + 1,
        };
        match Table::new(alloc, words, slots, &key) {
            Ok((table, seat)) => Ok((PoolTable { table, roles }, seat)),
            Err(Refused { slots }) => Err(slots),
        }
    }

    /// Takes the role's job, if it is at home and its role isn't counted.
    pub(crate) fn claim(&self, seat: &mut JobSeat<A>, role: u8) -> Option<Job<A>>
        requires table { seat.old.table_id ≡ self.now.table.shared.table_id }
        requires role { role < self.now.roles }
        requires rests { (seat.old.me.0.held ≡ None) × (seat.old.me.1 ≡ []) × (0 < seat.old.me.0.shares) }
        ensures table { seat.new.table_id ≡ seat.old.table_id }
        ensures claimed { HasClaimed (JobFits A.behaviour N.start role) role seat.old.me seat.new.me result }
    {
        let word = self
            .table
            .shared
            .compare_exchange::<Claim<A, N>>(seat, role as usize, 0, 1);
        if word != 0 {
            return None;
        }
        match self.table.shared.exchange(seat, role as usize, None) {
            Some(job) => Some(job),
            None => unreachable!(),
        }
    }

    /// Gives the role's job home, and lets the others know whether its role was counted.
    pub(crate) fn give_back(&self, seat: &mut JobSeat<A>, role: u8, job: Job<A>, counted: bool)
        requires table { seat.old.table_id ≡ self.now.table.shared.table_id }
        requires role { role < self.now.roles }
        requires holds { (seat.old.me.0.held ≡ Some role) × (seat.old.me.1 ≡ (role, None) ∷ []) }
        requires fits { JobFits A.behaviour N.start role job }
        requires over { Over (amount_in role seat.old.me.0.counted) job }
        requires counted { (counted ≡ false → amount_in role seat.old.me.0.counted ≡ 0) × (counted ≡ true → 0 < amount_in role seat.old.me.0.counted) }
        ensures table { seat.new.table_id ≡ seat.old.table_id }
        ensures given { seat.new.me ≡ (view_without_job seat.old.me.0, []) }
    {
        match self.table.shared.exchange(seat, role as usize, Some(job)) {
            None => {}
            Some(_) => unreachable!(),
        }
        self.table
            .shared
            .store::<GiveHome>(seat, role as usize, home_word(counted));
    }

    /// Counts the role whose job the seat has.
    pub(crate) fn count_end(&self, seat: &mut JobSeat<A>, role: u8, amount: u64)
        requires table { seat.old.table_id ≡ self.now.table.shared.table_id }
        requires holds { seat.old.me.0.held ≡ Some role }
        requires once { amount_in role seat.old.me.0.counted ≡ 0 }
        requires amount { (amount ≡ 1) ⊎ (amount ≡ 16) }
        ensures table { seat.new.table_id ≡ seat.old.table_id }
        ensures counted { seat.new.me ≡ (counting role amount seat.old.me.0, seat.old.me.1) }
    {
        self.table
            .shared
            .fetch_add::<CountEnd>(seat, self.roles as usize, amount);
    }

    /// Whether as much was counted as there are roles: then all have ended, or one has stopped.
    pub(crate) fn all_counted(&self, seat: &mut JobSeat<A>) -> bool
        requires table { seat.old.table_id ≡ self.now.table.shared.table_id }
        ensures table { seat.new.table_id ≡ seat.old.table_id }
        ensures read { HasRead self.now.roles seat.old.me seat.new.me result }
    {
        let word = self
            .table
            .shared
            .load::<ReadEnds>(seat, self.roles as usize);
        word >= self.roles as u64
    }

    /// A new seat, with one share.
    pub(crate) fn split(&self, seat: &mut JobSeat<A>) -> JobSeat<A>
        requires table { seat.old.table_id ≡ self.now.table.shared.table_id }
        requires shares { 2 ≤ seat.old.me.0.shares }
        ensures tables { (seat.new.table_id ≡ seat.old.table_id) × (result.table_id ≡ seat.old.table_id) }
        ensures old { seat.new.me ≡ (view_behind_share seat.old.me.0, seat.old.me.1) }
        ensures new { result.me ≡ (view_with_one_share seat.old.me.0, []) }
    {
        self.table.shared.split_seat::<SplitShare>(seat)
    }

    /// The other seat's shares are added to this one.
    pub(crate) fn join(&self, seat: &mut JobSeat<A>, other: JobSeat<A>)
        requires table { (seat.old.table_id ≡ self.now.table.shared.table_id) × (other.table_id ≡ self.now.table.shared.table_id) }
        requires rests { (other.me.0.held ≡ None) × (other.me.1 ≡ []) }
        ensures table { seat.new.table_id ≡ seat.old.table_id }
        ensures both { seat.new.me ≡ (sum_of_views seat.old.me.0 other.me.0, seat.old.me.1) }
    {
        self.table.shared.join_seat::<JoinShares>(seat, other);
    }

    /// Counts the role whose job the seat has, where there is something to count, and gives the job home.
    pub(crate) fn settle(&self, seat: &mut JobSeat<A>, role: u8, job: Job<A>, amount: u64)
        requires table { seat.old.table_id ≡ self.now.table.shared.table_id }
        requires role { role < self.now.roles }
        requires holds { (seat.old.me.0.held ≡ Some role) × (seat.old.me.1 ≡ (role, None) ∷ []) }
        requires once { amount_in role seat.old.me.0.counted ≡ 0 }
        requires fits { JobFits A.behaviour N.start role job }
        requires over { IsAmount amount × Over amount job }
        ensures table { seat.new.table_id ≡ seat.old.table_id }
        ensures rests { SeatRests seat.old.me.0.shares seat.new.me }
    {
        if amount > 0 {
            self.count_end(seat, role, amount);
        }
        self.give_back(seat, role, job, amount > 0);
    }

    /// Takes each job out once, in role order, into the empty list, which has room for them. The seat has all shares.
    pub(crate) fn collect(self, main: JobSeat<A>, mut jobs: Vec<Job<A>>) -> Vec<Job<A>>
        requires table { main.table_id ≡ self.table.shared.table_id }
        requires main { SeatRests self.table.shared.key.shares main.me }
        requires over { self.roles ≤ main.me.0.seen }
        requires room { (jobs.items ≡ []) × (self.roles ≤ vec_capacity jobs) }
        ensures collected { AreCollected (JobFits A.behaviour N.start) Over self.roles result.items }
    {
        let PoolTable { table, roles: _ } = self;
        let mut closed = table.close_with(main);
        let mut i = 0;
        while i < closed.slot_count() {
            match closed.take(i) {
                Some(job) => put(&mut jobs, job),
                None => unreachable!(),
            }
            i += 1;
        }
        closed.free();
        jobs
    }
}
