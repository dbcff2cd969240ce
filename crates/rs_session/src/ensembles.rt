//! Sessions whose roles are all in one hand.
ghost use Rattle.std.specs.Prelude.{◌≡◌, ◌<◌, ◌^◌, ℕ, IfOk, OnOk, Some, length, slice_get};
ghost use Rattle.rs_model.specs.Limits.{IsCapacity};
ghost use Rattle.rs_core.specs.Configurations.{state_of};
ghost use Rattle.rs_model.specs.declared.machines.State.TheVariants.{Done, Takes};
ghost use Rattle.rs_rings.specs.Acts.{MayPut};
ghost use Rattle.rs_rings.specs.Closed.{IsLeft, IsOver};
ghost use Rattle.rs_rings.specs.Passes.{CanPut, CanTake, PutTells, TakeByTells, TakeTells};
ghost use Rattle.rs_rings.specs.Views.{SpeaksFor, history_in, starting, state_in};
ghost use Rattle.rs_safety.specs.Accepting.{IsAcceptedSession};

use crate::sessions::Session;
use rs_model::{Arm, NoMemory, Role};
use rs_rings::{Closed, Got, GotOn, Pass, Put, Rings};
use rs_safety::Accepted;
use rs_slots::Parcel;
use std::alloc::Global;
use std::marker::Model;

/// All roles of a session in one hand. Who holds it knows what every role has done, so the number that an act reads of a ring is
/// what the role at the other end has done by then. It must be spent.
pub struct Ensemble {
    pass: Pass,
}

impl Model for Ensemble {
    ghost use Rattle.rs_rings.specs.Passes.{Pass_data};

    ghost Value = { Pass_data };

    ghost view = { λ e. e.pass };
}

impl Session {
    /// Begins a session of the accepted machines, as [`Session::begin`] does, with all roles in one hand, each at its machine's
    /// start. It takes all the memory that the session ever uses.
    pub fn begin_together(
        alloc: Global,
        accepted: &Accepted,
        capacity: u16,
    ) -> Result<(Session, Ensemble), NoMemory>
        requires capacity { IsCapacity capacity }
        ensures accepted { OnOk result (IsAcceptedSession accepted.now) }
        ensures machines { IfOk result (λ t. t.0.machines ≡ accepted.now.machines) }
        ensures capacity { IfOk result (λ t. t.0.capacity ≡ capacity) }
        ensures table { IfOk result (λ t. t.1.table ≡ t.0.table) }
        ensures first { IfOk result (λ t. t.1.view ≡ starting t.0.machines) }
    {
        let (rings, pass) = Rings::begin(alloc, accepted.machines(), capacity)?;
        Ok((Session::of_rings(rings), Ensemble { pass }))
    }

    /// Closes the session, once all its roles have ended. Takes no memory.
    pub fn close_together(self, all: Ensemble) -> Closed
        requires table { all.table ≡ self.table }
        requires all { (r : ℕ) → r < length self.machines → SpeaksFor all.view r }
        requires ended { (r : ℕ) → r < length self.machines → state_of (slice_get self.machines r) (state_in all.view r) ≡ Some Done }
        ensures closed { (result.machines ≡ self.machines) × (result.last ≡ all.view) }
        ensures capacity { result.capacity ≡ self.capacity }
        ensures over { IsOver result }
    {
        let Ensemble { pass } = all;
        self.into_rings().close(pass)
    }

    /// Gives the session up, wherever its roles stand. What is under way is dropped. Takes no memory.
    pub fn abandon_together(self, all: Ensemble) -> Closed
        requires table { all.table ≡ self.table }
        requires all { (r : ℕ) → r < length self.machines → SpeaksFor all.view r }
        ensures closed { (result.machines ≡ self.machines) × (result.last ≡ all.view) }
        ensures capacity { result.capacity ≡ self.capacity }
        ensures left { IsLeft result }
    {
        let Ensemble { pass } = all;
        self.into_rings().abandon(pass)
    }
}

impl Ensemble {
    /// The number of the state at which the role's machine stands.
    #[inline(always)]
    pub fn state(&self, role: Role) -> u32
        requires speaks { SpeaksFor self.now.view role.0 }
        ensures state { result ≡ state_in self.now.view role.0 }
    {
        self.pass.state(role)
    }

    /// Sends the parcel from `sender` to `receiver`. It looks once at their ring, and takes no memory.
    ///
    /// Where the ring has room the sender goes on to the next state of the arm with the parcel's label. Else the parcel comes
    /// back, and nothing has changed but what is known of the ring.
    #[inline(always)]
    pub fn put(&mut self, session: &Session, sender: Role, receiver: Role, parcel: Parcel) -> Put
        requires table { self.old.table ≡ session.now.table }
        requires speaks { SpeaksFor self.old.view sender.0 }
        requires can { CanPut session.now.machines sender.0 receiver (state_in self.old.view sender.0) parcel }
        requires acts { length (history_in self.old.view sender.0) < 2 ^ 63 }
        ensures table { self.new.table ≡ self.old.table }
        ensures told { PutTells session.now.machines session.now.capacity sender.0 receiver.0 parcel self.old.view self.new.view result }
    {
        session
            .rings()
            .put(&mut self.pass, sender, receiver, parcel)
    }

    /// Sends the parcel from `sender` to `receiver`, by an arm that leads to the state `next`. It looks once at their ring, and
    /// takes no memory.
    ///
    /// The outcome is that of [`Ensemble::put`]. Nothing is looked up.
    #[inline(always)]
    pub fn put_next(
        &mut self,
        session: &Session,
        sender: Role,
        receiver: Role,
        parcel: Parcel,
        next: u32,
    ) -> Put
        requires table { self.old.table ≡ session.now.table }
        requires speaks { SpeaksFor self.old.view sender.0 }
        requires can { MayPut session.now.machines sender.0 receiver.0 (state_in self.old.view sender.0) parcel next }
        requires acts { length (history_in self.old.view sender.0) < 2 ^ 63 }
        ensures table { self.new.table ≡ self.old.table }
        ensures told { PutTells session.now.machines session.now.capacity sender.0 receiver.0 parcel self.old.view self.new.view result }
    {
        session
            .rings()
            .put_next(&mut self.pass, sender, receiver, parcel, next)
    }

    /// Receives the oldest parcel that is under way from `sender` to `receiver`. It looks once at their ring, and takes no memory.
    ///
    /// Where a parcel is there the receiver goes on to the next state of the arm with its label. Else nothing has changed but
    /// what is known of the ring.
    #[inline(always)]
    pub fn look_take(&mut self, session: &Session, receiver: Role, sender: Role) -> Got
        requires table { self.old.table ≡ session.now.table }
        requires speaks { SpeaksFor self.old.view receiver.0 }
        requires can { CanTake session.now.machines receiver.0 sender (state_in self.old.view receiver.0) }
        requires acts { length (history_in self.old.view receiver.0) < 2 ^ 63 }
        ensures table { self.new.table ≡ self.old.table }
        ensures told { TakeTells session.now.machines session.now.capacity receiver.0 sender.0 self.old.view self.new.view result }
    {
        session.rings().look_take(&mut self.pass, receiver, sender)
    }

    /// Receives the oldest parcel that is under way from `sender` to `receiver`, which stands at a state with these arms. It
    /// looks once at their ring, and takes no memory.
    ///
    /// The outcome is that of [`Ensemble::look_take`], and of a parcel it tells the place of the arm with its label.
    #[inline(always)]
    pub fn take_by(
        &mut self,
        session: &Session,
        receiver: Role,
        sender: Role,
        arms: &[Arm],
    ) -> GotOn
        requires table { self.old.table ≡ session.now.table }
        requires speaks { SpeaksFor self.old.view receiver.0 }
        requires stands { state_of (slice_get session.now.machines receiver.0) (state_in self.old.view receiver.0) ≡ Some (Takes sender arms.now) }
        requires acts { length (history_in self.old.view receiver.0) < 2 ^ 63 }
        ensures table { self.new.table ≡ self.old.table }
        ensures told { TakeByTells session.now.machines session.now.capacity receiver.0 sender.0 arms.now self.old.view self.new.view result }
    {
        session
            .rings()
            .take_by(&mut self.pass, receiver, sender, arms)
    }
}
