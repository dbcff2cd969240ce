//! What is behind a stage of any kind.
ghost use Rattle.std.specs.Prelude.{◌≡◌, ◌<◌, ◌^◌, ℕ, List, [], IfErr, IfOk, Some, length, slice_get};
ghost use Rattle.rs_core.specs.Choices.{AreWellFormed};
ghost use Rattle.rs_core.specs.Configurations.{state_of};
ghost use Rattle.rs_model.specs.declared.machines.State.TheVariants.{Puts, Takes};
ghost use Rattle.rs_model.specs.declared.graph.Arm.{Arm};
ghost use Rattle.rs_model.specs.declared.limits.TheConstants.{MOST_ROLES};
ghost use Rattle.rs_rings.specs.Acts.{MayPut, parcels_sent};
ghost use Rattle.rs_rings.specs.Views.{SpeaksFor, part_of, state_in, history_in};
ghost use Rattle.rs_session.specs.Acts.{LooksForRoom};
ghost use Rattle.rs_session.specs.Standing.{FoundTells, StagePutTells, sight_of_pass};

use rs_model::{Arm, Role, Value};
use rs_rings::{GotOn, Pass, Put, Rings};
use rs_slots::Parcel;
use std::alloc::{AllocFailed, Global};
use std::marker::Model;

/// The pass of one role, the state in which the role stands, and how many acts it has made.
struct RolePass {
    pass: Pass,
    role: Role,
    state: u32,
    acts: u64,
}

impl Model for RolePass {
    ghost use Rattle.rs_session.specs.Data.{Stage_data};
    ghost use Rattle.rs_session.specs.Standing.{IsOne, sight_of_pass};

    ghost Value = { Stage_data };

    ghost view = { λ s. sight_of_pass s.pass s.role };

    ghost invariant = { λ s. IsOne s.pass.view s.role s.state s.acts };
}

/// Where a role of a session stands. All of it lies in a box, so that a stage is moved fast.
pub(crate) struct Standing {
    inside: Box<RolePass>,
}

impl Model for Standing {
    ghost use Rattle.rs_session.specs.Data.{Stage_data};

    ghost Value = { Stage_data };

    ghost view = { λ s. s.inside.value };
}

/// What a look for a parcel found: the arm by which it came, or nothing.
#[derive(Drop)]
pub(crate) enum ParcelFound {
    One { arm: u16, value: Value },
    Nothing { seen: u64 },
}

impl RolePass {
    #[inline(always)]
    fn role(&self) -> Role
        ensures { result ≡ self.now.role }
    {
        self.role
    }

    #[inline(always)]
    fn state(&self) -> u32
        ensures { result ≡ self.now.part.state }
    {
        self.state
    }

    #[inline(always)]
    fn acts(&self) -> u64
        ensures { result ≡ length self.now.part.history }
    {
        self.acts
    }

    fn sent(&self, peer: Role) -> u64
        requires peer { peer.0 < MOST_ROLES }
        ensures { result ≡ length (parcels_sent peer.0 self.now.part.history) }
    {
        self.pass.sent(self.role, peer)
    }

    fn into_pass(self) -> Pass
        ensures table { result.table ≡ self.table }
        ensures speaks { SpeaksFor result.view self.role.0 }
        ensures only { (r : ℕ) → SpeaksFor result.view r → r ≡ self.role.0 }
        ensures part { part_of result.view self.role.0 ≡ self.part }
    {
        let RolePass {
            pass,
            role: _,
            state: _,
            acts: _,
        } = self;
        pass
    }

    /// Puts the parcel into the ring to the peer; the role then stands in the state `next`.
    #[inline(always)]
    fn put(&mut self, rings: &Rings, peer: Role, parcel: Parcel, next: u32) -> Put
        requires table { self.old.table ≡ rings.now.table }
        requires well_formed { AreWellFormed rings.now.machines }
        requires may { MayPut rings.now.machines self.old.role.0 peer.0 self.old.part.state parcel next }
        requires acts { length self.old.part.history < 2 ^ 63 }
        ensures told { StagePutTells rings.now peer.0 parcel next self.old self.new result }
    {
        match rings.put_next(&mut self.pass, self.role, peer, parcel, next) {
            Put::Done => {
                self.state = next;
                self.acts += 1;
                Put::Done
            }
            Put::Full {
                sent,
                taken,
                parcel,
            } => Put::Full {
                sent,
                taken,
                parcel,
            },
        }
    }

    /// Whether the ring to the peer has room.
    #[inline(always)]
    fn has_room(&mut self, rings: &Rings, peer: Role) -> bool
        requires table { self.old.table ≡ rings.now.table }
        requires well_formed { AreWellFormed rings.now.machines }
        requires stands { (arms : List Arm) × (state_of (slice_get rings.now.machines self.old.role.0) self.old.part.state ≡ Some (Puts peer arms)) }
        requires acts { length self.old.part.history < 2 ^ 63 }
        ensures told { LooksForRoom rings.now peer.0 result self.old self.new }
    {
        rings.has_room(&mut self.pass, self.role, peer)
    }

    /// Takes the oldest parcel out of the ring from the peer; the role goes on by the arm with its label.
    #[inline(always)]
    fn look_take(&mut self, rings: &Rings, peer: Role, arms: &[Arm]) -> ParcelFound
        requires table { self.old.table ≡ rings.now.table }
        requires well_formed { AreWellFormed rings.now.machines }
        requires stands { state_of (slice_get rings.now.machines self.old.role.0) self.old.part.state ≡ Some (Takes peer arms.now) }
        requires acts { length self.old.part.history < 2 ^ 63 }
        ensures told { FoundTells rings.now peer.0 arms.now self.old self.new result }
    {
        match rings.take_by(&mut self.pass, self.role, peer, arms) {
            GotOn::One { place, parcel } => {
                self.state = arms[place as usize].next;
                self.acts += 1;
                ParcelFound::One {
                    arm: place,
                    value: parcel.value,
                }
            }
            GotOn::Empty { seen } => ParcelFound::Nothing { seen },
        }
    }
}

impl Standing {
    /// A role that has done nothing. If the allocation fails, the role's pass comes back.
    pub(crate) fn first(alloc: Global, pass: Pass, role: Role, state: u32) -> Result<Standing, Pass>
        requires speaks { SpeaksFor pass.view role.0 }
        requires only { (r : ℕ) → SpeaksFor pass.view r → r ≡ role.0 }
        requires state { state ≡ state_in pass.view role.0 }
        requires nothing { history_in pass.view role.0 ≡ [] }
        ensures same { IfOk result (λ s. s ≡ sight_of_pass pass role) }
        ensures back { IfErr result (λ p. (p.table ≡ pass.table) × SpeaksFor p.view role.0) }
    {
        let pass = RolePass {
            pass,
            role,
            state,
            acts: 0,
        };
        match Box::new(alloc, pass) {
            Ok(inside) => Ok(Standing { inside }),
            Err(refused) => {
                let AllocFailed { value } = refused;
                Err(value.into_pass())
            }
        }
    }

    #[inline(always)]
    pub(crate) fn role(&self) -> Role
        ensures { result ≡ self.now.role }
    {
        self.inside.role()
    }

    #[inline(always)]
    pub(crate) fn state(&self) -> u32
        ensures { result ≡ self.now.part.state }
    {
        self.inside.state()
    }

    #[inline(always)]
    pub(crate) fn acts(&self) -> u64
        ensures { result ≡ length self.now.part.history }
    {
        self.inside.acts()
    }

    pub(crate) fn sent(&self, peer: Role) -> u64
        requires peer { peer.0 < MOST_ROLES }
        ensures { result ≡ length (parcels_sent peer.0 self.now.part.history) }
    {
        self.inside.sent(peer)
    }

    pub(crate) fn into_pass(self) -> Pass
        ensures table { result.table ≡ self.table }
        ensures speaks { SpeaksFor result.view self.role.0 }
        ensures only { (r : ℕ) → SpeaksFor result.view r → r ≡ self.role.0 }
        ensures part { part_of result.view self.role.0 ≡ self.part }
    {
        let Standing { inside } = self;
        Box::into_inner(inside).into_pass()
    }

    /// Puts the parcel into the ring to the peer; the role then stands in the state `next`.
    #[inline(always)]
    pub(crate) fn put(&mut self, rings: &Rings, peer: Role, parcel: Parcel, next: u32) -> Put
        requires table { self.old.table ≡ rings.now.table }
        requires well_formed { AreWellFormed rings.now.machines }
        requires may { MayPut rings.now.machines self.old.role.0 peer.0 self.old.part.state parcel next }
        requires acts { length self.old.part.history < 2 ^ 63 }
        ensures told { StagePutTells rings.now peer.0 parcel next self.old self.new result }
    {
        self.inside.put(rings, peer, parcel, next)
    }

    /// Whether the ring to the peer has room.
    #[inline(always)]
    pub(crate) fn has_room(&mut self, rings: &Rings, peer: Role) -> bool
        requires table { self.old.table ≡ rings.now.table }
        requires well_formed { AreWellFormed rings.now.machines }
        requires stands { (arms : List Arm) × (state_of (slice_get rings.now.machines self.old.role.0) self.old.part.state ≡ Some (Puts peer arms)) }
        requires acts { length self.old.part.history < 2 ^ 63 }
        ensures told { LooksForRoom rings.now peer.0 result self.old self.new }
    {
        self.inside.has_room(rings, peer)
    }

    /// Takes the oldest parcel out of the ring from the peer; the role goes on by the arm with its label.
    #[inline(always)]
    pub(crate) fn look_take(&mut self, rings: &Rings, peer: Role, arms: &[Arm]) -> ParcelFound
        requires table { self.old.table ≡ rings.now.table }
        requires well_formed { AreWellFormed rings.now.machines }
        requires stands { state_of (slice_get rings.now.machines self.old.role.0) self.old.part.state ≡ Some (Takes peer arms.now) }
        requires acts { length self.old.part.history < 2 ^ 63 }
        ensures told { FoundTells rings.now peer.0 arms.now self.old self.new result }
    {
        self.inside.look_take(rings, peer, arms)
    }
}
