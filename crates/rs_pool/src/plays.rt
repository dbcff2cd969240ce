//! The rule of the table of jobs, and its kinds of step.
use crate::jobs::Job;
use crate::views::{JobKey, JobView};
use atomic_table::{Join, Play, Split, TableRule};
use rs_core::Actor;
use std::marker::{Brand, PhantomData};

/// What all jobs began with: the session, the limit and the actors that were given. They are there for the proof alone.
pub(crate) trait StartName<A> {
    ghost use Rattle.rs_pool.specs.Jobs.{Start};

    ghost start: { Start A };
}

impl<A> StartName<A> for Brand {
    ghost use Rattle.std.specs.Prelude.{[]};

    ghost start = { record {
      session = record {
        table = record { words = 0; slots = 0; views_name = 0; atom = 0; block = 0; offset = 0; slot_names = [] };
        roles = 0;
        capacity = 0;
        machines = [];
      };
      limit = 0;
      given = [];
    } };
}

/// What holds between any two steps.
pub(crate) struct PoolTableRule<A: Actor, N: StartName<A>> {
    name: PhantomData<(A, N)>,
}

impl<A: Actor, N: StartName<A>> TableRule<Option<Job<A>>, JobView, JobKey> for PoolTableRule<A, N> {
    ghost use Rattle.rs_pool.specs.Rule.{PoolShows, view_at_start};
    ghost use Rattle.rs_pool.specs.Jobs.{JobFits, Over};

    ghost holds = { λ key s. PoolShows (JobFits A.behaviour N.start) Over key.roles key.shares s };

    ghost first = { λ key. view_at_start key.shares };
}

/// A compare_exchange from 0 to 1 on a role's word.
pub(crate) struct Claim<A: Actor, N: StartName<A>> {
    name: PhantomData<(A, N)>,
}

impl<A: Actor, N: StartName<A>> Play<Option<Job<A>>, JobView> for Claim<A, N> {
    ghost use Rattle.rs_pool.specs.Plays.{ClaimTells};
    ghost use Rattle.rs_pool.specs.Jobs.{JobFits};

    ghost then = { ClaimTells (JobFits A.behaviour N.start) };
}

/// A store on a role's word.
pub(crate) struct GiveHome;

impl<A: Actor> Play<Option<Job<A>>, JobView> for GiveHome {
    ghost use Rattle.rs_pool.specs.Plays.{GiveTells};

    ghost then = { GiveTells };
}

/// A fetch_add on the word of ends.
pub(crate) struct CountEnd;

impl<A: Actor> Play<Option<Job<A>>, JobView> for CountEnd {
    ghost use Rattle.rs_pool.specs.Plays.{CountTells};

    ghost then = { CountTells };
}

/// A load of the word of ends.
pub(crate) struct ReadEnds;

impl<A: Actor> Play<Option<Job<A>>, JobView> for ReadEnds {
    ghost use Rattle.rs_pool.specs.Plays.{ReadTells};

    ghost then = { ReadTells };
}

/// A view gives a share to a new view.
pub(crate) struct SplitShare;

impl Split<JobView> for SplitShare {
    ghost use Rattle.rs_pool.specs.Rule.{view_behind_share, view_with_one_share};

    ghost left = { view_behind_share };

    ghost right = { view_with_one_share };
}

/// A view takes in another.
pub(crate) struct JoinShares;

impl Join<JobView> for JoinShares {
    ghost use Rattle.rs_pool.specs.Rule.{sum_of_views, view_of_nothing};

    ghost both = { sum_of_views };

    ghost spent = { view_of_nothing };
}
