//! The table and its steps. What a call has to know of its roles without a load, their states and counts, the caller keeps.
ghost use Rattle.std.specs.Prelude.{◌≡◌, ℕ, ◌+◌, ◌*◌, ◌<◌, ◌≤◌, [], slice_get, vec_len, vec_capacity, IsSome, IfSome, IfOk, true, length, Some};
ghost use Rattle.rs_model.specs.declared.limits.TheConstants.{MOST_ROLES};
ghost use Rattle.rs_model.specs.Limits.{IsCapacity};
ghost use Rattle.rs_core.specs.Choices.{AreWellFormed};
ghost use Rattle.rs_core.specs.Configurations.{state_of};
ghost use Rattle.rs_core.specs.Ways.{arm_with};
ghost use Rattle.rs_core.specs.Safety.{IsSafe};
ghost use Rattle.rs_model.specs.declared.graph.Arm.{Arm};
ghost use Rattle.rs_model.specs.declared.graph.Role.{Role};
ghost use Rattle.rs_model.specs.declared.machines.State.TheVariants.{Takes};
ghost use Rattle.rs_slots.specs.Places.{IsPair, ring_count};
ghost use Rattle.rs_rings.specs.Acts.{MayPut, MayTake, parcels_sent, parcels_got};
ghost use Rattle.rs_rings.specs.Asked.{IsActCall, IsCallOn, IsCountOf, IsIdleAt, IsLookCall, IsTakingAt};
ghost use Rattle.rs_rings.specs.Closed.{IsClosedAs, loose_in};
ghost use Rattle.rs_rings.specs.Places.{head_word_of, tail_of, slot_place};
ghost use Rattle.rs_rings.specs.Rows.{IsBetweenCalls};
ghost use Rattle.rs_rings.specs.Rule.{machines_in_key, first_view};
ghost use Rattle.rs_rings.specs.Told.{arms_in_state, IsLegalEnd, HasGiven, HasPut, HasLooked, HasLookedForRoom, HasTaken};
ghost use Rattle.rs_rings.specs.Views.{the_part, speaks, view_without_role, alone, joint_view};

use crate::answers::{Looked, Put, Took};
use crate::closed::Closed;
use crate::emptying::empty_all;
use crate::loose::Loose;
use crate::plays::{
    CallName, JoinPasses, LoadHead, LoadTail, LookAtHead, RingTableRule, RoleName, SplitRole,
    StoreHead, StoreTail,
};
use crate::rows::Rows;
use crate::views::{Key, View};
use atomic_table::{Perch, Seat, Table};
use rs_core::place_by_label;
use rs_model::{Arm, Label, Machine, NoMemory, Role, State};
use rs_slots::{Layout, Parcel};
use std::alloc::Global;
use std::marker::Brand;

/// The words, the slots and the views, with their rule.
pub type Board = Table<Option<Parcel>, View, Key, RingTableRule, Global>;

/// A seat of the table: what it knows of its roles, and the slots that it holds.
pub type RingSeat = Seat<Option<Parcel>, View>;

/// The table, its layout, and the machines beside it.
#[derive(Drop)]
pub struct RingTable {
    pub board: Board,
    pub layout: Layout,
    pub capacity: u16,
    pub machines: Vec<Machine>,
    pub ghost keyed: { (board.shared.key.roles ≡ layout.roles) × (board.shared.key.capacity ≡ layout.capacity) },
    pub ghost same: { machines_in_key board.shared.key ≡ machines.items },
    pub ghost sized: { layout.capacity ≡ capacity },
    pub ghost wide: { board.shared.table_id.words ≡ 2 * ring_count layout.roles },
    pub ghost machine_count: { length machines.items ≡ layout.roles },
}

impl RingTable {
    /// A table with empty rings of `capacity` slots between the roles of these machines, and the seat that speaks for all roles.
    ///
    /// The error is that memory was refused. No other call takes memory.
    pub fn begin(
        alloc: Global,
        machines: Vec<Machine>,
        capacity: u16,
    ) -> Result<(RingTable, RingSeat), NoMemory>
        requires roles { (2 ≤ vec_len machines) × (vec_len machines ≤ MOST_ROLES) }
        requires capacity { IsCapacity capacity }
        requires safe { IsSafe machines.items }
        requires well_formed { AreWellFormed machines.items }
        ensures table { IfOk result (λ t. t.1.table_id ≡ t.0.board.shared.table_id) }
        ensures first { IfOk result (λ t. t.1.me ≡ (first_view t.0.board.shared.key, [])) }
        ensures key { IfOk result (λ t. (t.0.layout.roles ≡ vec_len machines) × (t.0.layout.capacity ≡ capacity) × (machines_in_key t.0.board.shared.key ≡ machines.items)) }
    {
        let roles = machines.len() as u8;
        let layout = Layout::new(roles, capacity);
        let key = Key {
            roles,
            capacity,
            machines,
        };
        let words = Vec::from_elem(alloc, 0u64, layout.words())?;
        let (board, seat) = Table::vacant(alloc, words.as_slice(), layout.slots(), &key)?;
        let Key {
            roles: _,
            capacity,
            machines,
        } = key;
        Ok((
            RingTable {
                board,
                layout,
                capacity,
                machines,
            },
            seat,
        ))
    }

    #[inline(always)]
    fn head_word(&self, sender: Role, receiver: Role) -> usize
        requires pair { IsPair self.now.layout.roles sender.0 receiver.0 }
        ensures value { result ≡ head_word_of self.now.layout.roles sender.0 receiver.0 }
        ensures below { result < self.now.board.shared.table_id.words }
    {
        self.layout.head_word(self.layout.ring(sender, receiver))
    }

    #[inline(always)]
    fn tail_word(&self, sender: Role, receiver: Role) -> usize
        requires pair { IsPair self.now.layout.roles sender.0 receiver.0 }
        ensures value { result ≡ tail_of self.now.layout.roles sender.0 receiver.0 }
        ensures below { result < self.now.board.shared.table_id.words }
    {
        self.layout.tail_word(self.layout.ring(sender, receiver))
    }

    #[inline(always)]
    fn slot(&self, sender: Role, receiver: Role, count: u64) -> usize
        requires pair { IsPair self.now.layout.roles sender.0 receiver.0 }
        ensures value { result ≡ slot_place self.now.layout.roles self.now.layout.capacity sender.0 receiver.0 count }
    {
        self.layout.slot(self.layout.ring(sender, receiver), count)
    }

    // One load of the head word; where there is room, an exchange that fills the slot of the tail, and one store of the tail
    // word.
    #[inline(always)]
    fn put_as<N: CallName>(
        &self,
        seat: &mut RingSeat,
        sender: Role,
        receiver: Role,
        sent: u64,
        parcel: Parcel,
        next: u32,
    ) -> Put
        requires table { seat.old.table_id ≡ self.now.board.shared.table_id }
        requires pair { IsPair self.now.layout.roles sender.0 receiver.0 }
        requires idle { IsIdleAt sender.0 seat.old.me }
        requires may { MayPut (machines_in_key self.now.board.shared.key) sender.0 receiver.0 (the_part sender.0 seat.old.me.0.parts).state parcel N.call.next }
        requires sent { IsCountOf sent (parcels_sent receiver.0 (the_part sender.0 seat.old.me.0.parts).history) }
        requires call { IsActCall N.call self.now.layout.roles self.now.layout.capacity sender.0 receiver.0 (machines_in_key self.now.board.shared.key) next }
        ensures table { seat.new.table_id ≡ seat.old.table_id }
        ensures done { HasPut (machines_in_key self.now.board.shared.key) N.call.next sender.0 receiver.0 self.now.layout.capacity sent parcel
            (the_part sender.0 seat.old.me.0.parts) seat.old.me.0 seat.new.me result }
    {
        let taken = self
            .board
            .shared
            .load::<LoadHead<N>>(seat, self.head_word(sender, receiver));
        if sent - taken == self.capacity as u64 {
            return Put::Full {
                sent,
                taken,
                parcel,
            };
        }
        match self
            .board
            .shared
            .exchange(seat, self.slot(sender, receiver, sent), Some(parcel))
        {
            None => {}
            Some(_) => unreachable!(),
        }
        self.board
            .shared
            .store::<StoreTail<N>>(seat, self.tail_word(sender, receiver), sent + 1);
        Put::Done
    }

    // One load of the head word. Nothing else changes.
    #[inline(always)]
    fn has_room_as<N: CallName>(
        &self,
        seat: &mut RingSeat,
        sender: Role,
        receiver: Role,
        sent: u64,
    ) -> bool
        requires table { seat.old.table_id ≡ self.now.board.shared.table_id }
        requires pair { IsPair self.now.layout.roles sender.0 receiver.0 }
        requires idle { IsIdleAt sender.0 seat.old.me }
        requires sent { sent ≡ length (parcels_sent receiver.0 (the_part sender.0 seat.old.me.0.parts).history) }
        requires call { IsCallOn N.call self.now.layout.roles self.now.layout.capacity sender.0 receiver.0 (machines_in_key self.now.board.shared.key) }
        ensures table { seat.new.table_id ≡ seat.old.table_id }
        ensures looked { HasLookedForRoom (machines_in_key self.now.board.shared.key) sender.0 receiver.0 self.now.layout.capacity sent
            (the_part sender.0 seat.old.me.0.parts) seat.old.me.0 seat.new.me result }
    {
        let taken = self
            .board
            .shared
            .load::<LookAtHead<N>>(seat, self.head_word(sender, receiver));
        sent - taken != self.capacity as u64
    }

    // One load of the tail word; where a parcel is there, an exchange that empties the slot of the head.
    #[inline(always)]
    fn look_as<N: CallName>(
        &self,
        seat: &mut RingSeat,
        receiver: Role,
        sender: Role,
        got: u64,
        arms: &[Arm],
    ) -> Looked
        requires table { seat.old.table_id ≡ self.now.board.shared.table_id }
        requires pair { IsPair self.now.layout.roles sender.0 receiver.0 }
        requires idle { IsIdleAt receiver.0 seat.old.me }
        requires stands { state_of (slice_get (machines_in_key self.now.board.shared.key) receiver.0) (the_part receiver.0 seat.old.me.0.parts).state ≡ Some (Takes sender N.call.arms) }
        requires got { got ≡ length (parcels_got sender.0 (the_part receiver.0 seat.old.me.0.parts).history) }
        requires call { IsLookCall N.call self.now.layout.roles self.now.layout.capacity sender.0 receiver.0 (machines_in_key self.now.board.shared.key) arms.now }
        ensures table { seat.new.table_id ≡ seat.old.table_id }
        ensures looked { HasLooked (machines_in_key self.now.board.shared.key) self.now.layout.capacity N.call.arms sender.0 receiver.0
            (slot_place self.now.layout.roles self.now.layout.capacity sender.0 receiver.0 got) got
            (the_part receiver.0 seat.old.me.0.parts) seat.old.me.0 seat.new.me result }
    {
        let seen = self
            .board
            .shared
            .load::<LoadTail<N>>(seat, self.tail_word(sender, receiver));
        if seen == got {
            return Looked::Nothing { seen };
        }
        match self
            .board
            .shared
            .exchange(seat, self.slot(sender, receiver, got), None)
        {
            Some(parcel) => Looked::Found { seen, parcel },
            None => unreachable!(),
        }
    }

    // One store of the head word, which ends a take.
    #[inline(always)]
    fn give_as<N: CallName>(
        &self,
        seat: &mut RingSeat,
        receiver: Role,
        sender: Role,
        got: u64,
        parcel: &Parcel,
        next: u32,
    )
        requires table { seat.old.table_id ≡ self.now.board.shared.table_id }
        requires pair { IsPair self.now.layout.roles sender.0 receiver.0 }
        requires middle { IsTakingAt receiver.0 sender.0 parcel.now (slot_place self.now.layout.roles self.now.layout.capacity sender.0 receiver.0 got) seat.old.me }
        requires may { MayTake (machines_in_key self.now.board.shared.key) receiver.0 sender.0 (the_part receiver.0 seat.old.me.0.parts).state parcel.now N.call.next }
        requires got { IsCountOf got (parcels_got sender.0 (the_part receiver.0 seat.old.me.0.parts).history) }
        requires call { IsActCall N.call self.now.layout.roles self.now.layout.capacity sender.0 receiver.0 (machines_in_key self.now.board.shared.key) next }
        ensures table { seat.new.table_id ≡ seat.old.table_id }
        ensures given { HasGiven (machines_in_key self.now.board.shared.key) receiver.0 sender.0 parcel.now N.call.next seat.old.me.0 seat.new.me }
    {
        self.board
            .shared
            .store::<StoreHead<N>>(seat, self.head_word(sender, receiver), got + 1);
    }

    fn split_as<N: RoleName>(&self, seat: &mut RingSeat, role: Role) -> RingSeat
        requires table { seat.old.table_id ≡ self.now.board.shared.table_id }
        requires speaks { speaks role.0 seat.old.me.0.parts ≡ true }
        requires name { N.role ≡ role.0 }
        requires ring { 0 < self.now.board.shared.table_id.words }
        ensures tables { (seat.new.table_id ≡ seat.old.table_id) × (result.table_id ≡ seat.old.table_id) }
        ensures old { seat.new.me ≡ (view_without_role role.0 seat.old.me.0, seat.old.me.1) }
        ensures new { result.me ≡ (alone role.0 seat.old.me.0, []) }
    {
        self.board.shared.split_seat::<SplitRole<N>>(seat)
    }

    /// Cuts off a seat that speaks for the role alone. The old seat no longer speaks for it.
    pub fn split(&self, seat: &mut RingSeat, role: Role) -> RingSeat
        requires table { seat.old.table_id ≡ self.now.board.shared.table_id }
        requires speaks { speaks role.0 seat.old.me.0.parts ≡ true }
        ensures tables { (seat.new.table_id ≡ seat.old.table_id) × (result.table_id ≡ seat.old.table_id) }
        ensures old { seat.new.me ≡ (view_without_role role.0 seat.old.me.0, seat.old.me.1) }
        ensures new { result.me ≡ (alone role.0 seat.old.me.0, []) }
    {
        self.split_as::<Brand>(seat, role)
    }

    /// Gives the seat the roles of the other seat too, which holds no slot.
    pub fn join(&self, seat: &mut RingSeat, other: RingSeat)
        requires table { (seat.old.table_id ≡ self.now.board.shared.table_id) × (other.table_id ≡ self.now.board.shared.table_id) }
        requires idle { other.me.1 ≡ [] }
        ensures table { seat.new.table_id ≡ seat.old.table_id }
        ensures both { seat.new.me ≡ (joint_view seat.old.me.0 other.me.0, seat.old.me.1) }
    {
        self.board.shared.join_seat::<JoinPasses>(seat, other);
    }

    /// Ends the session by the seat that speaks for all roles. The parcels that the rings hold are dropped.
    pub fn close(self, seat: RingSeat) -> Closed
        requires table { seat.table_id ≡ self.board.shared.table_id }
        requires all { (r : ℕ) → r < self.layout.roles → speaks r seat.me.0.parts ≡ true }
        ensures closed { IsClosedAs result (machines_in_key self.board.shared.key) self.layout.capacity seat.me.0 }
        ensures ends { IsLegalEnd (machines_in_key self.board.shared.key) self.layout.roles seat.me.0 }
    {
        let last = Perch::new(&seat, 0);
        let RingTable {
            board,
            layout: _,
            capacity,
            machines,
        } = self;
        let mut closed = board.close_with(seat);
        let mut i = 0;
        while i < closed.slot_count() {
            closed.take(i);
            i += 1;
        }
        closed.free();
        Closed {
            machines,
            capacity,
            last,
        }
    }

    /// Ends the session by the seat that speaks for all roles, and moves the parcels that the rings hold to the end of `loose`:
    /// ordered by sender, then by receiver, then the oldest first. `loose` has room for as many parcels as there are slots.
    pub fn close_left(self, seat: RingSeat, rows: &Rows, loose: &mut Vec<Loose>) -> Closed
        requires table { seat.table_id ≡ self.board.shared.table_id }
        requires all { (r : ℕ) → r < self.layout.roles → speaks r seat.me.0.parts ≡ true }
        requires kept { IsBetweenCalls seat.me rows.now.items }
        requires none { loose.old.items ≡ [] }
        requires room { vec_len loose.old + ring_count self.layout.roles * self.layout.capacity ≤ vec_capacity loose.old }
        ensures closed { IsClosedAs result (machines_in_key self.board.shared.key) self.layout.capacity seat.me.0 }
        ensures ends { IsLegalEnd (machines_in_key self.board.shared.key) self.layout.roles seat.me.0 }
        ensures loose { loose.new.items ≡ loose_in seat.me.0 self.layout.roles (ring_count self.layout.roles) }
    {
        let last = Perch::new(&seat, 0);
        let RingTable {
            board,
            layout: _,
            capacity,
            machines,
        } = self;
        let mut closed = board.close_with(seat);
        empty_all(&mut closed, machines.len(), capacity, &last, rows, loose);
        closed.free();
        Closed {
            machines,
            capacity,
            last,
        }
    }

    /// Puts the parcel into the ring, for a sender that has sent so many parcels to the receiver and goes on to the state `next`.
    ///
    /// `Put::Full` returns the parcel, and then nothing has changed but what the seat knows of the head word.
    #[inline(always)]
    pub fn put_to(
        &self,
        seat: &mut RingSeat,
        sender: Role,
        receiver: Role,
        sent: u64,
        parcel: Parcel,
        next: u32,
    ) -> Put
        requires table { seat.old.table_id ≡ self.now.board.shared.table_id }
        requires pair { IsPair self.now.layout.roles sender.0 receiver.0 }
        requires idle { IsIdleAt sender.0 seat.old.me }
        requires may { MayPut (machines_in_key self.now.board.shared.key) sender.0 receiver.0 (the_part sender.0 seat.old.me.0.parts).state parcel next }
        requires sent { IsCountOf sent (parcels_sent receiver.0 (the_part sender.0 seat.old.me.0.parts).history) }
        ensures table { seat.new.table_id ≡ seat.old.table_id }
        ensures done { HasPut (machines_in_key self.now.board.shared.key) next sender.0 receiver.0 self.now.layout.capacity sent parcel
            (the_part sender.0 seat.old.me.0.parts) seat.old.me.0 seat.new.me result }
    {
        self.put_as::<Brand>(seat, sender, receiver, sent, parcel, next)
    }

    /// Whether the ring has room, for a sender that has sent so many parcels to the receiver.
    #[inline(always)]
    pub fn has_room_behind(
        &self,
        seat: &mut RingSeat,
        sender: Role,
        receiver: Role,
        sent: u64,
    ) -> bool
        requires table { seat.old.table_id ≡ self.now.board.shared.table_id }
        requires pair { IsPair self.now.layout.roles sender.0 receiver.0 }
        requires idle { IsIdleAt sender.0 seat.old.me }
        requires sent { sent ≡ length (parcels_sent receiver.0 (the_part sender.0 seat.old.me.0.parts).history) }
        ensures table { seat.new.table_id ≡ seat.old.table_id }
        ensures looked { HasLookedForRoom (machines_in_key self.now.board.shared.key) sender.0 receiver.0 self.now.layout.capacity sent
            (the_part sender.0 seat.old.me.0.parts) seat.old.me.0 seat.new.me result }
    {
        self.has_room_as::<Brand>(seat, sender, receiver, sent)
    }

    #[inline(always)]
    fn look(
        &self,
        seat: &mut RingSeat,
        receiver: Role,
        sender: Role,
        got: u64,
        arms: &[Arm],
    ) -> Looked
        requires table { seat.old.table_id ≡ self.now.board.shared.table_id }
        requires pair { IsPair self.now.layout.roles sender.0 receiver.0 }
        requires idle { IsIdleAt receiver.0 seat.old.me }
        requires stands { state_of (slice_get (machines_in_key self.now.board.shared.key) receiver.0) (the_part receiver.0 seat.old.me.0.parts).state ≡ Some (Takes sender arms.now) }
        requires got { got ≡ length (parcels_got sender.0 (the_part receiver.0 seat.old.me.0.parts).history) }
        ensures table { seat.new.table_id ≡ seat.old.table_id }
        ensures looked { HasLooked (machines_in_key self.now.board.shared.key) self.now.layout.capacity arms.now sender.0 receiver.0
            (slot_place self.now.layout.roles self.now.layout.capacity sender.0 receiver.0 got) got
            (the_part receiver.0 seat.old.me.0.parts) seat.old.me.0 seat.new.me result }
    {
        self.look_as::<Brand>(seat, receiver, sender, got, arms)
    }

    #[inline(always)]
    fn give(
        &self,
        seat: &mut RingSeat,
        receiver: Role,
        sender: Role,
        got: u64,
        parcel: &Parcel,
        next: u32,
    )
        requires table { seat.old.table_id ≡ self.now.board.shared.table_id }
        requires pair { IsPair self.now.layout.roles sender.0 receiver.0 }
        requires middle { IsTakingAt receiver.0 sender.0 parcel.now (slot_place self.now.layout.roles self.now.layout.capacity sender.0 receiver.0 got) seat.old.me }
        requires may { MayTake (machines_in_key self.now.board.shared.key) receiver.0 sender.0 (the_part receiver.0 seat.old.me.0.parts).state parcel.now next }
        requires got { IsCountOf got (parcels_got sender.0 (the_part receiver.0 seat.old.me.0.parts).history) }
        ensures table { seat.new.table_id ≡ seat.old.table_id }
        ensures given { HasGiven (machines_in_key self.now.board.shared.key) receiver.0 sender.0 parcel.now next seat.old.me.0 seat.new.me }
    {
        self.give_as::<Brand>(seat, receiver, sender, got, parcel, next)
    }

    /// Takes the oldest parcel out of the ring, for a receiver that has got so many parcels from the sender and is in a state
    /// with these arms. It returns the parcel with the place of its arm and the next state.
    ///
    /// `Took::Nothing`: nothing has changed but what the seat knows of the tail word.
    #[inline(always)]
    pub fn look_take(
        &self,
        seat: &mut RingSeat,
        receiver: Role,
        sender: Role,
        got: u64,
        arms: &[Arm],
    ) -> Took
        requires table { seat.old.table_id ≡ self.now.board.shared.table_id }
        requires pair { IsPair self.now.layout.roles sender.0 receiver.0 }
        requires idle { IsIdleAt receiver.0 seat.old.me }
        requires well_formed { AreWellFormed (machines_in_key self.now.board.shared.key) }
        requires stands { state_of (slice_get (machines_in_key self.now.board.shared.key) receiver.0) (the_part receiver.0 seat.old.me.0.parts).state ≡ Some (Takes sender arms.now) }
        requires got { IsCountOf got (parcels_got sender.0 (the_part receiver.0 seat.old.me.0.parts).history) }
        ensures table { seat.new.table_id ≡ seat.old.table_id }
        ensures taken { HasTaken (machines_in_key self.now.board.shared.key) self.now.layout.capacity arms.now sender.0 receiver.0 got (the_part receiver.0 seat.old.me.0.parts)
            seat.old.me.0 seat.new.me result }
    {
        match self.look(seat, receiver, sender, got, arms) {
            Looked::Nothing { seen } => Took::Nothing { seen },
            Looked::Found { seen: _, parcel } => {
                let place = place_by_label(arms, parcel.label);
                let next = arms[place as usize].next;
                self.give(seat, receiver, sender, got, &parcel, next);
                Took::One {
                    parcel,
                    place,
                    next,
                }
            }
        }
    }

    /// The arms of the state of the role's machine; none if the state ends.
    #[inline(always)]
    pub fn arms_of(&self, role: Role, state: u32) -> &[Arm]
        requires { IsSome (state_of (slice_get (machines_in_key self.now.board.shared.key) role.0) state) }
        ensures { IfSome (state_of (slice_get (machines_in_key self.now.board.shared.key) role.0) state) (λ s. result.now ≡ arms_in_state s) }
    {
        match &self.machines[role.0 as usize].states[state as usize] {
            State::Done => &[],
            State::Puts { arms, .. } => arms.as_slice(),
            State::Takes { arms, .. } => arms.as_slice(),
        }
    }
}

/// The state to which the first arm with that label leads.
pub fn next_of(arms: &[Arm], label: Label) -> u32
    requires { IsSome (arm_with arms.now label) }
    ensures { IfSome (arm_with arms.now label) (λ a. result ≡ a.next) }
{
    for arm in arms {
        if arm.label.0 == label.0 {
            return arm.next;
        }
    }
    unreachable!()
}
