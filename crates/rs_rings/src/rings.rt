//! The rings as their users see them: begin, split and join passes, put, look for room, take, and three ways to end.
ghost use Rattle.std.specs.Prelude.{◌≡◌, ◌<◌, ◌≤◌, ◌^◌, ◌*◌, [], vec_capacity, ℕ, Some, length, slice_get, IfOk};
ghost use Rattle.rs_model.specs.declared.limits.TheConstants.{MOST_ROLES};
ghost use Rattle.rs_model.specs.Limits.{IsCapacity};
ghost use Rattle.rs_core.specs.Choices.{AreWellFormed};
ghost use Rattle.rs_core.specs.Configurations.{state_of};
ghost use Rattle.rs_core.specs.Safety.{IsSafe};
ghost use Rattle.rs_model.specs.declared.machines.State.TheVariants.{Done, Takes};
ghost use Rattle.rs_slots.specs.Places.{ring_count};
ghost use Rattle.rs_rings.specs.Acts.{MayPut};
ghost use Rattle.rs_rings.specs.Closed.{IsLeft, IsOver, loose_in};
ghost use Rattle.rs_rings.specs.Passes.{CanPut, CanTake, PutTells, RoomTells, SendsTo, TakeByTells, TakeTells};
ghost use Rattle.rs_rings.specs.Views.{SpeaksFor, state_in, history_in, starting, view_without_role, alone, joint_view};

use crate::answers::{Got, GotOn, Put};
use crate::closed::Closed;
use crate::loose::Loose;
use crate::passes::Pass;
use crate::rows::Rows;
use crate::tables::RingTable;
use rs_model::{Arm, Machine, NoMemory, Role, copies_of};
use rs_slots::Parcel;
use std::alloc::Global;
use std::marker::Model;

/// Bounded first-in-first-out rings between the roles of a session, one for each ordered pair of different roles. Threads
/// share them by `&Rings`, each with a pass of its own; no call takes a lock or waits for another thread.
#[derive(Drop)]
pub struct Rings {
    inner: RingTable,
}

impl Model for Rings {
    ghost use Rattle.rs_core.specs.Choices.{AreWellFormed};
    ghost use Rattle.rs_rings.specs.Passes.{Rings_data};
    ghost use Rattle.rs_rings.specs.Rule.{machines_in_key};

    ghost Value = { Rings_data };

    ghost view = { λ r. record { table = r.inner.board.shared.table_id; roles = r.inner.layout.roles; capacity = r.inner.layout.capacity; machines = machines_in_key r.inner.board.shared.key } };

    ghost invariant = { λ r. AreWellFormed (machines_in_key r.inner.board.shared.key) };
}

impl Rings {
    /// The rings of these machines, each with `capacity` slots, and the pass that speaks for all roles. It takes all the
    /// memory that the rings and their passes ever use.
    pub fn begin(
        alloc: Global,
        machines: &[Machine],
        capacity: u16,
    ) -> Result<(Rings, Pass), NoMemory>
        requires roles { (2 ≤ length machines.now) × (length machines.now ≤ MOST_ROLES) }
        requires capacity { IsCapacity capacity }
        requires safe { IsSafe machines.now }
        requires well_formed { AreWellFormed machines.now }
        ensures rings { IfOk result (λ t. (t.0.roles ≡ length machines.now) × (t.0.capacity ≡ capacity) × (t.0.machines ≡ machines.now)) }
        ensures table { IfOk result (λ t. t.1.table ≡ t.0.table) }
        ensures pass { IfOk result (λ t. t.1.view ≡ starting machines.now) }
    {
        let rows = Rows::begin(alloc, machines)?;
        let copies = copies_of(alloc, machines)?;
        let (inner, seat) = RingTable::begin(alloc, copies, capacity)?;
        Ok((Rings { inner }, Pass { seat, rows }))
    }

    /// The machines, in role order.
    pub fn machines(&self) -> &[Machine]
        ensures { result.now ≡ self.now.machines }
    {
        self.inner.machines.as_slice()
    }

    /// Cuts off a pass that speaks for the role alone; `pass` no longer speaks for it.
    pub fn split(&self, pass: &mut Pass, role: Role) -> Pass
        requires table { pass.old.table ≡ self.now.table }
        requires speaks { SpeaksFor pass.old.view role.0 }
        ensures table { (pass.new.table ≡ pass.old.table) × (result.table ≡ pass.old.table) }
        ensures old { pass.new.view ≡ view_without_role role.0 pass.old.view }
        ensures new { result.view ≡ alone role.0 pass.old.view }
    {
        let seat = self.inner.split(&mut pass.seat, role);
        let rows = pass.rows.split(role);
        Pass { seat, rows }
    }

    /// Gives `pass` the roles of the other pass too.
    pub fn join(&self, pass: &mut Pass, other: Pass)
        requires table { (pass.old.table ≡ self.now.table) × (other.table ≡ self.now.table) }
        ensures table { pass.new.table ≡ pass.old.table }
        ensures both { pass.new.view ≡ joint_view pass.old.view other.view }
    {
        let Pass { seat, rows } = other;
        self.inner.join(&mut pass.seat, seat);
        pass.rows.join(rows);
    }

    /// Puts the parcel into the ring from `sender` to `receiver`.
    ///
    /// It loads the ring's head word, once. Where the ring has a free slot it fills it, stores the tail word, and answers
    /// `Done`: the sender has sent the parcel. Else it answers `Full`, and nothing has changed but what the pass knows of the
    /// head word.
    #[inline(always)]
    pub fn put(&self, pass: &mut Pass, sender: Role, receiver: Role, parcel: Parcel) -> Put
        requires table { pass.old.table ≡ self.now.table }
        requires speaks { SpeaksFor pass.old.view sender.0 }
        requires can { CanPut self.now.machines sender.0 receiver (state_in pass.old.view sender.0) parcel }
        requires acts { length (history_in pass.old.view sender.0) < 2 ^ 63 }
        ensures table { pass.new.table ≡ pass.old.table }
        ensures told { PutTells self.now.machines self.now.capacity sender.0 receiver.0 parcel pass.old.view pass.new.view result }
    {
        self.inner
            .put(&mut pass.seat, &mut pass.rows, sender, receiver, parcel)
    }

    /// Puts the parcel into the ring from `sender` to `receiver`, by an arm that leads to the state `next`.
    ///
    /// The outcome is that of [`Rings::put`]. Nothing is looked up.
    #[inline(always)]
    pub fn put_next(
        &self,
        pass: &mut Pass,
        sender: Role,
        receiver: Role,
        parcel: Parcel,
        next: u32,
    ) -> Put
        requires table { pass.old.table ≡ self.now.table }
        requires speaks { SpeaksFor pass.old.view sender.0 }
        requires can { MayPut self.now.machines sender.0 receiver.0 (state_in pass.old.view sender.0) parcel next }
        requires acts { length (history_in pass.old.view sender.0) < 2 ^ 63 }
        ensures table { pass.new.table ≡ pass.old.table }
        ensures told { PutTells self.now.machines self.now.capacity sender.0 receiver.0 parcel pass.old.view pass.new.view result }
    {
        self.inner.put_next(
            &mut pass.seat,
            &mut pass.rows,
            sender,
            receiver,
            parcel,
            next,
        )
    }

    /// Whether the ring from `sender` to `receiver` has room for a parcel of the sender, whose state sends to the receiver.
    ///
    /// It loads the ring's head word, once, and changes nothing but what the pass knows of that word. Only the sender puts into
    /// the ring: so after the answer `true` the sender's next put there isn't refused, whatever the other roles do meanwhile
    /// ([`seen_room_stays`](crate::laws::seen_room_stays)).
    #[inline(always)]
    pub fn has_room(&self, pass: &mut Pass, sender: Role, receiver: Role) -> bool
        requires table { pass.old.table ≡ self.now.table }
        requires speaks { SpeaksFor pass.old.view sender.0 }
        requires sends { SendsTo self.now.machines sender.0 receiver (state_in pass.old.view sender.0) }
        requires acts { length (history_in pass.old.view sender.0) < 2 ^ 63 }
        ensures table { pass.new.table ≡ pass.old.table }
        ensures told { RoomTells self.now.machines self.now.capacity sender.0 receiver.0 pass.old.view pass.new.view result }
    {
        self.inner
            .has_room(&mut pass.seat, &pass.rows, sender, receiver)
    }

    /// Takes the oldest parcel out of the ring from `sender` to `receiver`.
    ///
    /// It loads the ring's tail word, once. Where a parcel is there it empties its slot, stores the head word, and answers
    /// `One`: the receiver has got the parcel, which fits its state. Else it answers `Empty`, and nothing has changed but
    /// what the pass knows of the tail word.
    #[inline(always)]
    pub fn look_take(&self, pass: &mut Pass, receiver: Role, sender: Role) -> Got
        requires table { pass.old.table ≡ self.now.table }
        requires speaks { SpeaksFor pass.old.view receiver.0 }
        requires can { CanTake self.now.machines receiver.0 sender (state_in pass.old.view receiver.0) }
        requires acts { length (history_in pass.old.view receiver.0) < 2 ^ 63 }
        ensures table { pass.new.table ≡ pass.old.table }
        ensures told { TakeTells self.now.machines self.now.capacity receiver.0 sender.0 pass.old.view pass.new.view result }
    {
        self.inner
            .take(&mut pass.seat, &mut pass.rows, receiver, sender)
    }

    /// Takes the oldest parcel out of the ring from `sender` to `receiver`, which stands at a state with these arms.
    ///
    /// The outcome is that of [`Rings::look_take`], and of a parcel it tells the place of the arm with its label. The state
    /// isn't looked up.
    #[inline(always)]
    pub fn take_by(&self, pass: &mut Pass, receiver: Role, sender: Role, arms: &[Arm]) -> GotOn
        requires table { pass.old.table ≡ self.now.table }
        requires speaks { SpeaksFor pass.old.view receiver.0 }
        requires stands { state_of (slice_get self.now.machines receiver.0) (state_in pass.old.view receiver.0) ≡ Some (Takes sender arms.now) }
        requires acts { length (history_in pass.old.view receiver.0) < 2 ^ 63 }
        ensures table { pass.new.table ≡ pass.old.table }
        ensures told { TakeByTells self.now.machines self.now.capacity receiver.0 sender.0 arms.now pass.old.view pass.new.view result }
    {
        self.inner
            .take_by(&mut pass.seat, &mut pass.rows, receiver, sender, arms)
    }

    /// Ends a session in which all roles have ended. Every ring is empty.
    pub fn close(self, pass: Pass) -> Closed
        requires table { pass.table ≡ self.table }
        requires all { (r : ℕ) → r < self.roles → SpeaksFor pass.view r }
        requires ended { (r : ℕ) → r < self.roles → state_of (slice_get self.machines r) (state_in pass.view r) ≡ Some Done }
        ensures closed { (result.machines ≡ self.machines) × (result.last ≡ pass.view) }
        ensures capacity { result.capacity ≡ self.capacity }
        ensures over { IsOver result }
    {
        let Pass { seat, rows: _ } = pass;
        let Rings { inner } = self;
        inner.close(seat)
    }

    /// Gives a session up, wherever its roles stand. What the rings hold is dropped. It takes no memory.
    pub fn abandon(self, pass: Pass) -> Closed
        requires table { pass.table ≡ self.table }
        requires all { (r : ℕ) → r < self.roles → SpeaksFor pass.view r }
        ensures closed { (result.machines ≡ self.machines) × (result.last ≡ pass.view) }
        ensures capacity { result.capacity ≡ self.capacity }
        ensures left { IsLeft result }
    {
        let Pass { seat, rows: _ } = pass;
        let Rings { inner } = self;
        inner.close(seat)
    }

    /// How many slots all rings have together: no more parcels can be under way.
    pub fn slots(&self) -> usize
        ensures { result ≡ ring_count self.now.roles * self.now.capacity }
    {
        self.inner.layout.slots()
    }

    /// Gives a session up, and hands out what the rings hold, in `loose`: ordered by sender, then by receiver, then the
    /// oldest first. `loose` needs room for as many parcels as `slots` tells; no other memory is taken.
    pub fn close_left(self, pass: Pass, mut loose: Vec<Loose>) -> (Closed, Vec<Loose>)
        requires table { pass.table ≡ self.table }
        requires all { (r : ℕ) → r < self.roles → SpeaksFor pass.view r }
        requires none { loose.items ≡ [] }
        requires room { ring_count self.roles * self.capacity ≤ vec_capacity loose }
        ensures closed { (result.0.machines ≡ self.machines) × (result.0.last ≡ pass.view) }
        ensures capacity { result.0.capacity ≡ self.capacity }
        ensures left { IsLeft result.0 }
        ensures loose { result.1.items ≡ loose_in pass.view self.roles (ring_count self.roles) }
    {
        let Pass { seat, rows } = pass;
        let Rings { inner } = self;
        let closed = inner.close_left(seat, &rows, &mut loose);
        (closed, loose)
    }
}
