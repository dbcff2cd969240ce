//! Players: each acts for one role of a session over rings, and waits where a ring is full or empty.

ghost use Rattle.std.specs.Prelude.{◌≡◌, ◌≢◌, ℕ, ◌+◌, ◌<◌, ◌≤◌, ◌^◌, false, IfOk, IfSome, IfNone, length, slice_get};
ghost use Rattle.rs_model.specs.declared.limits.TheConstants.{MOST_ROLES};
ghost use Rattle.rs_model.specs.Limits.{IsCapacity};
ghost use Rattle.rs_core.specs.Choices.{AreWellFormed};
ghost use Rattle.rs_core.specs.Safety.{IsSafe};
ghost use Rattle.rs_rings.specs.Acts.{MayPut};
ghost use Rattle.rs_rings.specs.Views.{SpeaksFor, speaks, start_of};
ghost use Rattle.benches.specs.Players.{PassStands, IsAt, TakesOne};

use rs_model::{Machine, NoMemory, Role};
use rs_rings::{Got, Pass, Put, Rings};
use rs_slots::Parcel;
use std::alloc::Global;
use std::sync::Wait;
use std::thread;

/// A role of a session over rings: its pass, the state that it is in, and how many acts it has made.
pub struct RingPlayer {
    pub pass: Pass,
    pub role: Role,
    pub state: u32,
    pub acts: u64,
}

/// The rings of these machines, and the pass of all roles, each of which is in its start state.
pub fn begin(alloc: Global, machines: &[Machine], capacity: u16) -> Result<(Rings, Pass), NoMemory>
    requires roles { (2 ≤ length machines.now) × (length machines.now ≤ MOST_ROLES) }
    requires capacity { IsCapacity capacity }
    requires safe { IsSafe machines.now }
    requires well_formed { AreWellFormed machines.now }
    ensures rings { IfOk result (λ t. (t.0.roles ≡ length machines.now) × (t.0.capacity ≡ capacity) × (t.0.machines ≡ machines.now)) }
    ensures stand { IfOk result (λ t. (r : ℕ) → r < length machines.now → PassStands t.0 t.1 r (start_of (slice_get machines.now r)) 0) }
{
    Rings::begin(alloc, machines, capacity)
}

/// Cuts off the player of a role that is in its start state.
pub fn player_of(rings: &Rings, pass: &mut Pass, role: Role, start: u32) -> RingPlayer
    requires stands { PassStands rings.now pass.old role.0 start 0 }
    ensures at { IsAt rings.now result }
    ensures player { (result.role ≡ role) × (result.state ≡ start) × (result.acts ≡ 0) }
    ensures others { (r s n : ℕ) → r ≢ role.0 → PassStands rings.now pass.old r s n → PassStands rings.now pass.new r s n }
    ensures gone { speaks role.0 pass.new.view.parts ≡ false }
{
    RingPlayer {
        pass: rings.split(pass, role),
        role,
        state: start,
        acts: 0,
    }
}

/// The players A and B of a session of two roles, which are in their start states.
pub fn pair_of(rings: &Rings, pass: Pass) -> (RingPlayer, RingPlayer)
    requires stand { PassStands rings.now pass 0 0 0 × PassStands rings.now pass 1 0 0 }
    ensures at { IsAt rings.now result.0 × IsAt rings.now result.1 }
    ensures roles { (result.0.role.0 ≡ 0) × (result.1.role.0 ≡ 1) }
    ensures start { (result.0.state ≡ 0) × (result.0.acts ≡ 0) × (result.1.state ≡ 0) × (result.1.acts ≡ 0) }
    ensures gone { speaks 1 result.0.pass.view.parts ≡ false }
{
    let mut pass = pass;
    let b = player_of(rings, &mut pass, Role(1), 0);
    let a = RingPlayer {
        pass,
        role: Role(0),
        state: 0,
        acts: 0,
    };
    (a, b)
}

/// Puts the parcel and goes on to the state `next`, or gives it back if the ring is full.
pub fn try_send(
    rings: &Rings,
    player: &mut RingPlayer,
    receiver: Role,
    parcel: Parcel,
    next: u32,
) -> Option<Parcel>
    requires well_formed { AreWellFormed rings.now.machines }
    requires at { IsAt rings.now player.old }
    requires may { MayPut rings.now.machines player.old.role.0 receiver.0 player.old.state parcel next }
    requires short { player.old.acts < 2 ^ 63 }
    ensures at { IsAt rings.now player.new }
    ensures role { (player.new.role ≡ player.old.role) × ((r : ℕ) → speaks r player.new.pass.view.parts ≡ speaks r player.old.pass.view.parts) }
    ensures went { IfNone result ((player.new.state ≡ next) × (player.new.acts ≡ player.old.acts + 1)) }
    ensures full { IfSome result (λ back. (back ≡ parcel) × (player.new.state ≡ player.old.state) × (player.new.acts ≡ player.old.acts)) }
{
    match rings.put(&mut player.pass, player.role, receiver, parcel) {
        Put::Done => {
            player.state = next;
            player.acts += 1;
            None
        }
        Put::Full { parcel, .. } => Some(parcel),
    }
}

/// Puts the parcel as soon as the ring has room, and goes on to the state `next`.
pub fn send<R: Wait>(
    rt: &R,
    rings: &Rings,
    player: &mut RingPlayer,
    receiver: Role,
    parcel: Parcel,
    next: u32,
)
    requires well_formed { AreWellFormed rings.now.machines }
    requires at { IsAt rings.now player.old }
    requires may { MayPut rings.now.machines player.old.role.0 receiver.0 player.old.state parcel next }
    requires short { player.old.acts < 2 ^ 63 }
    ensures at { IsAt rings.now player.new }
    ensures role { player.new.role ≡ player.old.role }
    ensures spoken { (r : ℕ) → speaks r player.new.pass.view.parts ≡ speaks r player.old.pass.view.parts }
    ensures went { (player.new.state ≡ next) × (player.new.acts ≡ player.old.acts + 1) }
{
    let mut parcel = parcel;
    for _ in rt.forever() {
        match try_send(rings, player, receiver, parcel, next) {
            None => return,
            Some(back) => parcel = back,
        }
        thread::yield_now();
    }
    unreachable!()
}

/// Takes a parcel from a role that sends it one label alone, and goes on to the state `next`; none if the ring is empty.
pub fn try_receive(
    rings: &Rings,
    player: &mut RingPlayer,
    sender: Role,
    next: u32,
) -> Option<Parcel>
    requires at { IsAt rings.now player.old }
    requires takes { TakesOne rings.now.machines player.old.role.0 sender player.old.state next }
    requires short { player.old.acts < 2 ^ 63 }
    ensures at { IsAt rings.now player.new }
    ensures role { player.new.role ≡ player.old.role }
    ensures spoken { (r : ℕ) → speaks r player.new.pass.view.parts ≡ speaks r player.old.pass.view.parts }
    ensures got { IfSome result (λ _. (player.new.state ≡ next) × (player.new.acts ≡ player.old.acts + 1)) }
    ensures empty { IfNone result ((player.new.state ≡ player.old.state) × (player.new.acts ≡ player.old.acts)) }
{
    match rings.look_take(&mut player.pass, player.role, sender) {
        Got::One(parcel) => {
            player.state = next;
            player.acts += 1;
            Some(parcel)
        }
        Got::Empty { .. } => None,
    }
}

/// Takes a parcel as soon as there is one, and goes on to the state `next`.
pub fn receive<R: Wait>(
    rt: &R,
    rings: &Rings,
    player: &mut RingPlayer,
    sender: Role,
    next: u32,
) -> Parcel
    requires at { IsAt rings.now player.old }
    requires takes { TakesOne rings.now.machines player.old.role.0 sender player.old.state next }
    requires short { player.old.acts < 2 ^ 63 }
    ensures at { IsAt rings.now player.new }
    ensures role { player.new.role ≡ player.old.role }
    ensures spoken { (r : ℕ) → speaks r player.new.pass.view.parts ≡ speaks r player.old.pass.view.parts }
    ensures got { (player.new.state ≡ next) × (player.new.acts ≡ player.old.acts + 1) }
{
    for _ in rt.forever() {
        if let Some(parcel) = try_receive(rings, player, sender, next) {
            return parcel;
        }
        thread::yield_now();
    }
    unreachable!()
}

/// Gives the pass the role of a player too.
pub fn gather(rings: &Rings, pass: &mut Pass, player: RingPlayer)
    requires table { pass.old.table ≡ rings.now.table }
    requires at { IsAt rings.now player }
    ensures table { pass.new.table ≡ rings.now.table }
    ensures speaks { SpeaksFor pass.new.view player.role.0 }
    ensures keeps { (r : ℕ) → SpeaksFor pass.old.view r → SpeaksFor pass.new.view r }
    ensures others { (r s n : ℕ) → PassStands rings.now pass.old r s n → PassStands rings.now pass.new r s n }
    ensures own { speaks player.role.0 pass.old.view.parts ≡ false → PassStands rings.now pass.new player.role.0 player.state player.acts }
{
    let RingPlayer {
        pass: own,
        role: _,
        state: _,
        acts: _,
    } = player;
    rings.join(pass, own);
}

/// Gives a session of two players up.
#[tactic(auto, using(crate::proofs::Plays::all_of_two))]
pub fn give_up(rings: Rings, a: RingPlayer, b: RingPlayer)
    requires roles { (rings.roles ≡ 2) × (a.role.0 ≡ 0) × (b.role.0 ≡ 1) }
    requires at { IsAt rings a × IsAt rings b }
{
    let RingPlayer {
        pass,
        role: _,
        state: _,
        acts: _,
    } = a;
    let mut pass = pass;
    gather(&rings, &mut pass, b);
    rings.abandon(pass);
}
