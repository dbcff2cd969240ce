//! The rule of the table, and its kinds of step.
use crate::views::{Key, View};
use atomic_table::{Join, Play, Split, TableRule};
use rs_slots::Parcel;
use std::marker::{Brand, PhantomData};

/// What holds between any two steps.
pub struct RingTableRule;

impl TableRule<Option<Parcel>, View, Key> for RingTableRule {
    ghost use Rattle.rs_rings.specs.Rule.{RingsShow, first_view};

    ghost holds = { RingsShow };

    ghost first = { first_view };
}

/// Which call a step belongs to.
pub trait CallName {
    ghost use Rattle.rs_rings.specs.Steps.{Call};

    ghost call: { Call };
}

impl CallName for Brand {
    ghost use Rattle.std.specs.Prelude.{[]};

    ghost call = { record { roles = 0; capacity = 0; sender = 0; receiver = 0; next = 0; arms = []; machines = [] } };
}

/// The sender loads the head word.
pub struct LoadHead<N: CallName> {
    name: PhantomData<N>,
}

impl<N: CallName> Play<Option<Parcel>, View> for LoadHead<N> {
    ghost use Rattle.rs_rings.specs.Steps.{LoadsHead};

    ghost then = { LoadsHead N.call };
}

/// The sender loads the head word, and gains no slot.
pub struct LookAtHead<N: CallName> {
    name: PhantomData<N>,
}

impl<N: CallName> Play<Option<Parcel>, View> for LookAtHead<N> {
    ghost use Rattle.rs_rings.specs.Steps.{LooksAtHead};

    ghost then = { LooksAtHead N.call };
}

/// The sender stores the tail word, and gives the filled slot home.
pub struct StoreTail<N: CallName> {
    name: PhantomData<N>,
}

impl<N: CallName> Play<Option<Parcel>, View> for StoreTail<N> {
    ghost use Rattle.rs_rings.specs.Steps.{StoresTail};

    ghost then = { StoresTail N.call };
}

/// The receiver loads the tail word.
pub struct LoadTail<N: CallName> {
    name: PhantomData<N>,
}

impl<N: CallName> Play<Option<Parcel>, View> for LoadTail<N> {
    ghost use Rattle.rs_rings.specs.Steps.{LoadsTail};

    ghost then = { LoadsTail N.call };
}

/// The receiver stores the head word, and gives the emptied slot home.
pub struct StoreHead<N: CallName> {
    name: PhantomData<N>,
}

impl<N: CallName> Play<Option<Parcel>, View> for StoreHead<N> {
    ghost use Rattle.rs_rings.specs.Steps.{StoresHead};

    ghost then = { StoresHead N.call };
}

/// Which role a split is about.
pub trait RoleName {
    ghost use Rattle.std.specs.Prelude.{ℕ};

    ghost role: { ℕ };
}

impl RoleName for Brand {
    ghost role = { 0 };
}

/// A view gives up a role to a new view.
pub struct SplitRole<N: RoleName> {
    name: PhantomData<N>,
}

impl<N: RoleName> Split<View> for SplitRole<N> {
    ghost use Rattle.rs_rings.specs.Views.{view_without_role, alone};

    ghost left = { view_without_role N.role };

    ghost right = { alone N.role };
}

/// A view takes in the roles of another.
pub struct JoinPasses;

impl Join<View> for JoinPasses {
    ghost use Rattle.rs_rings.specs.Views.{joint_view, spent_view};

    ghost both = { joint_view };

    ghost spent = { spent_view };
}
