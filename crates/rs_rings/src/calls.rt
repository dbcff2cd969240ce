//! Puts and takes by a seat and the rows beside it. A run spends its time in them, so they are compiled into their callers,
//! with the calls above and below them.
ghost use Rattle.std.specs.Prelude.{◌≡◌, Some, slice_get};
ghost use Rattle.rs_core.specs.Choices.{AreWellFormed};
ghost use Rattle.rs_core.specs.Configurations.{state_of};
ghost use Rattle.rs_model.specs.declared.machines.State.TheVariants.{Takes};
ghost use Rattle.rs_slots.specs.Places.{IsPair};
ghost use Rattle.rs_rings.specs.Acts.{MayPut, parcels_sent};
ghost use Rattle.rs_rings.specs.Asked.{IsCountOf, MayAct};
ghost use Rattle.rs_rings.specs.Passes.{CanPut, CanTake, PutTells, RoomTells, SendsTo, TakeByTells, TakeTells};
ghost use Rattle.rs_rings.specs.Rows.{IsBetweenCalls};
ghost use Rattle.rs_rings.specs.Rule.{machines_in_key};
ghost use Rattle.rs_rings.specs.Views.{the_part};

use crate::answers::{Got, GotOn, Put, Took};
use crate::rows::Rows;
use crate::tables::{RingSeat, RingTable, next_of};
use rs_model::{Arm, Role};
use rs_slots::Parcel;

impl RingTable {
    /// Puts the parcel into the ring from the sender to the receiver. The arm with the parcel's label gives the next state.
    ///
    /// `Put::Full` returns the parcel, and then nothing has changed but what the seat knows of the head word.
    #[inline(always)]
    pub fn put(
        &self,
        seat: &mut RingSeat,
        rows: &mut Rows,
        sender: Role,
        receiver: Role,
        parcel: Parcel,
    ) -> Put
        requires table { seat.old.table_id ≡ self.now.board.shared.table_id }
        requires well_formed { AreWellFormed (machines_in_key self.now.board.shared.key) }
        requires may { MayAct sender.0 seat.old.me rows.old.items }
        requires can { CanPut (machines_in_key self.now.board.shared.key) sender.0 receiver (the_part sender.0 seat.old.me.0.parts).state parcel }
        ensures table { seat.new.table_id ≡ seat.old.table_id }
        ensures kept { IsBetweenCalls seat.new.me rows.new.items }
        ensures told { PutTells (machines_in_key self.now.board.shared.key) self.now.layout.capacity sender.0 receiver.0 parcel seat.old.me.0 seat.new.me.0 result }
    {
        let counts = rows.counts(sender, receiver);
        let arms = self.arms_of(sender, counts.state);
        let next = next_of(arms, parcel.label);
        self.put_by(seat, rows, sender, receiver, counts.sent, parcel, next)
    }

    // A put by a sender that has sent so many parcels to the receiver, and stands in the state `next` behind it.
    #[inline(always)]
    fn put_by(
        &self,
        seat: &mut RingSeat,
        rows: &mut Rows,
        sender: Role,
        receiver: Role,
        sent: u64,
        parcel: Parcel,
        next: u32,
    ) -> Put
        requires table { seat.old.table_id ≡ self.now.board.shared.table_id }
        requires may { MayAct sender.0 seat.old.me rows.old.items }
        requires pair { IsPair self.now.layout.roles sender.0 receiver.0 }
        requires can { MayPut (machines_in_key self.now.board.shared.key) sender.0 receiver.0 (the_part sender.0 seat.old.me.0.parts).state parcel next }
        requires sent { IsCountOf sent (parcels_sent receiver.0 (the_part sender.0 seat.old.me.0.parts).history) }
        ensures table { seat.new.table_id ≡ seat.old.table_id }
        ensures kept { IsBetweenCalls seat.new.me rows.new.items }
        ensures told { PutTells (machines_in_key self.now.board.shared.key) self.now.layout.capacity sender.0 receiver.0 parcel seat.old.me.0 seat.new.me.0 result }
    {
        match self.put_to(seat, sender, receiver, sent, parcel, next) {
            Put::Done => {
                rows.note_sent(sender, receiver, sent + 1, next);
                Put::Done
            }
            Put::Full {
                sent,
                taken,
                parcel,
            } => Put::Full {
                sent,
                taken,
                parcel,
            },
        }
    }

    /// The same as [`RingTable::put`], by an arm that leads to the state `next`. The caller has found the arm, so nothing is
    /// looked up.
    #[inline(always)]
    pub fn put_next(
        &self,
        seat: &mut RingSeat,
        rows: &mut Rows,
        sender: Role,
        receiver: Role,
        parcel: Parcel,
        next: u32,
    ) -> Put
        requires table { seat.old.table_id ≡ self.now.board.shared.table_id }
        requires well_formed { AreWellFormed (machines_in_key self.now.board.shared.key) }
        requires may { MayAct sender.0 seat.old.me rows.old.items }
        requires can { MayPut (machines_in_key self.now.board.shared.key) sender.0 receiver.0 (the_part sender.0 seat.old.me.0.parts).state parcel next }
        ensures table { seat.new.table_id ≡ seat.old.table_id }
        ensures kept { IsBetweenCalls seat.new.me rows.new.items }
        ensures told { PutTells (machines_in_key self.now.board.shared.key) self.now.layout.capacity sender.0 receiver.0 parcel seat.old.me.0 seat.new.me.0 result }
    {
        let counts = rows.counts(sender, receiver);
        self.put_by(seat, rows, sender, receiver, counts.sent, parcel, next)
    }

    /// Whether the ring from the sender to the receiver has room. The sender's state sends to the receiver.
    ///
    /// Nothing changes but what the seat knows of the head word.
    #[inline(always)]
    pub fn has_room(&self, seat: &mut RingSeat, rows: &Rows, sender: Role, receiver: Role) -> bool
        requires table { seat.old.table_id ≡ self.now.board.shared.table_id }
        requires well_formed { AreWellFormed (machines_in_key self.now.board.shared.key) }
        requires may { MayAct sender.0 seat.old.me rows.now.items }
        requires sends { SendsTo (machines_in_key self.now.board.shared.key) sender.0 receiver (the_part sender.0 seat.old.me.0.parts).state }
        ensures table { seat.new.table_id ≡ seat.old.table_id }
        ensures kept { IsBetweenCalls seat.new.me rows.now.items }
        ensures told { RoomTells (machines_in_key self.now.board.shared.key) self.now.layout.capacity sender.0 receiver.0 seat.old.me.0 seat.new.me.0 result }
    {
        let counts = rows.counts(sender, receiver);
        self.has_room_behind(seat, sender, receiver, counts.sent)
    }

    /// Takes the oldest parcel out of the ring from the sender to the receiver, which goes on by the arm with the parcel's label.
    ///
    /// `Got::Empty`: nothing has changed but what the seat knows of the tail word.
    #[inline(always)]
    pub fn take(&self, seat: &mut RingSeat, rows: &mut Rows, receiver: Role, sender: Role) -> Got
        requires table { seat.old.table_id ≡ self.now.board.shared.table_id }
        requires well_formed { AreWellFormed (machines_in_key self.now.board.shared.key) }
        requires may { MayAct receiver.0 seat.old.me rows.old.items }
        requires can { CanTake (machines_in_key self.now.board.shared.key) receiver.0 sender (the_part receiver.0 seat.old.me.0.parts).state }
        ensures table { seat.new.table_id ≡ seat.old.table_id }
        ensures kept { IsBetweenCalls seat.new.me rows.new.items }
        ensures told { TakeTells (machines_in_key self.now.board.shared.key) self.now.layout.capacity receiver.0 sender.0 seat.old.me.0 seat.new.me.0 result }
    {
        let state = rows.state(receiver);
        let arms = self.arms_of(receiver, state);
        match self.take_by(seat, rows, receiver, sender, arms) {
            GotOn::One { place: _, parcel } => Got::One(parcel),
            GotOn::Empty { seen } => Got::Empty { seen },
        }
    }

    /// The same as [`RingTable::take`], by a receiver at a state with these arms. It also returns the place of the arm.
    #[inline(always)]
    pub fn take_by(
        &self,
        seat: &mut RingSeat,
        rows: &mut Rows,
        receiver: Role,
        sender: Role,
        arms: &[Arm],
    ) -> GotOn
        requires table { seat.old.table_id ≡ self.now.board.shared.table_id }
        requires well_formed { AreWellFormed (machines_in_key self.now.board.shared.key) }
        requires may { MayAct receiver.0 seat.old.me rows.old.items }
        requires stands { state_of (slice_get (machines_in_key self.now.board.shared.key) receiver.0) (the_part receiver.0 seat.old.me.0.parts).state ≡ Some (Takes sender arms.now) }
        ensures table { seat.new.table_id ≡ seat.old.table_id }
        ensures kept { IsBetweenCalls seat.new.me rows.new.items }
        ensures told { TakeByTells (machines_in_key self.now.board.shared.key) self.now.layout.capacity receiver.0 sender.0 arms.now seat.old.me.0 seat.new.me.0 result }
    {
        let counts = rows.counts(receiver, sender);
        match self.look_take(seat, receiver, sender, counts.got, arms) {
            Took::One {
                parcel,
                place,
                next,
            } => {
                rows.note_got(receiver, sender, counts.got + 1, next);
                GotOn::One { place, parcel }
            }
            Took::Nothing { seen } => GotOn::Empty { seen },
        }
    }
}
