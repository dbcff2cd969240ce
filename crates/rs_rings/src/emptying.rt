//! What the slots of a closed table hold is taken out.
ghost use Rattle.std.specs.Prelude.{◌≡◌, ◌⊎◌, ℕ, ◌+◌, ◌-◌, ◌*◌, ◌^◌, ◌<◌, ◌≤◌, List, [], ◌++◌, true, false, length, map, slice_get, slice_index_or, vec_len, vec_capacity};
ghost use Rattle.rs_model.specs.declared.limits.TheConstants.{MOST_ROLES};
ghost use Rattle.std.specs.Mem.Slots.{slots_items, slots_filled, slots_len};
ghost use Rattle.std.specs.Mem.Slots.Ownership.{Filled};
ghost use Rattle.rs_slots.specs.Places.{ring_count, slot_of};
ghost use Rattle.rs_slots.specs.declared.parcels.Parcel.{Parcel};
ghost use Rattle.rs_rings.specs.Closed.{loose_from, loose_in, sender_of, receiver_of};
ghost use Rattle.rs_rings.specs.Emptied.{content_of, loose_in_slots, AllHold, AreEmpty, AreFull, AreSizes, IsLastView, OnlyEmptied, RingHolds, TakesRoom};

use crate::loose::Loose;
use crate::rows::Rows;
use crate::views::View;
use atomic_table::{Closed, Perch};
use rs_model::Role;
use rs_slots::Parcel;
use std::alloc::Global;

/// The slots of a table that is closed.
pub type Slots = Closed<Option<Parcel>, Global>;

/// Takes what the slots from `from` on hold, up to `to`.
pub fn empty_slots(
    closed: &mut Slots,
    from: usize,
    to: usize,
    sender: Role,
    receiver: Role,
    loose: &mut Vec<Loose>,
)
    requires range { (from ≤ to) × (to ≤ slots_len closed.old.slots) }
    requires full { Filled (slots_filled closed.old.slots) from to }
    requires room { vec_len loose.old + (to - from) ≤ vec_capacity loose.old }
    ensures loose { loose.new.items ≡ loose.old.items ++ loose_in_slots (slots_items closed.old.slots) sender.0 receiver.0 from (to - from) }
    ensures room { TakesRoom (to - from) (vec_len loose.old) (vec_len loose.new) (vec_capacity loose.old) (vec_capacity loose.new) }
    ensures slots { OnlyEmptied (slots_items closed.old.slots) (slots_items closed.new.slots) (slots_len closed.old.slots) (slots_len closed.new.slots) (slots_filled closed.old.slots)
        (slots_filled closed.new.slots) from to }
{
    for i in from..to {
        let content = closed.take(i);
        put_loose(sender, receiver, content, loose);
    }
}

fn put_loose(sender: Role, receiver: Role, content: Option<Parcel>, loose: &mut Vec<Loose>)
    requires room { vec_len loose.old < vec_capacity loose.old }
    ensures items { loose.new.items ≡ loose.old.items ++ content_of sender.0 receiver.0 content }
    ensures length { vec_len loose.new ≤ vec_len loose.old + 1 }
    ensures capacity { vec_capacity loose.old ≤ vec_capacity loose.new }
{
    if let Some(parcel) = content {
        loose
            .push(Loose {
                sender,
                receiver,
                parcel,
            })
            .unwrap();
    }
}

/// Takes what a ring's slots hold, from the oldest parcel on. They begin at `base`, and `got` parcels were got.
fn empty_ring(
    closed: &mut Slots,
    base: usize,
    capacity: u16,
    sender: Role,
    receiver: Role,
    got: u64,
    loose: &mut Vec<Loose>,
)
    requires roomy { 1 ≤ capacity }
    requires range { base + capacity ≤ slots_len closed.old.slots }
    requires small { base < 2 ^ 32 }
    requires full { Filled (slots_filled closed.old.slots) base (base + capacity) }
    requires room { vec_len loose.old + capacity ≤ vec_capacity loose.old }
    ensures loose { (left : List Parcel) → RingHolds (slots_items closed.old.slots) capacity base got left → loose.new.items ≡ loose.old.items ++ map (loose_from sender.0 receiver.0) left }
    ensures room { TakesRoom capacity (vec_len loose.old) (vec_len loose.new) (vec_capacity loose.old) (vec_capacity loose.new) }
    ensures slots { OnlyEmptied (slots_items closed.old.slots) (slots_items closed.new.slots) (slots_len closed.old.slots) (slots_len closed.new.slots) (slots_filled closed.old.slots)
        (slots_filled closed.new.slots) base (base + capacity) }
{
    let first = (got % capacity as u64) as usize;
    empty_slots(
        closed,
        base + first,
        base + capacity as usize,
        sender,
        receiver,
        loose,
    );
    empty_slots(closed, base, base + first, sender, receiver, loose);
}

/// The sender and the receiver of a ring, by its number.
fn ends_of(roles: usize, ring: usize) -> (Role, Role)
    requires roles { (2 ≤ roles) × (roles ≤ MOST_ROLES) }
    requires present { ring < ring_count roles }
    ensures { (result.0.0 ≡ sender_of roles ring) × (result.1.0 ≡ receiver_of roles ring) }
{
    let sender = ring / (roles - 1);
    let column = ring % (roles - 1);
    let receiver = if column < sender { column } else { column + 1 };
    (Role(sender as u8), Role(receiver as u8))
}

/// Takes what all slots hold, ring by ring.
#[tactic(auto, using(crate::proofs::Emptied::base_small))]
pub fn empty_all(
    closed: &mut Slots,
    roles: usize,
    capacity: u16,
    last: &Perch<Option<Parcel>, View>,
    rows: &Rows,
    loose: &mut Vec<Loose>,
)
    requires sizes { AreSizes roles capacity }
    requires slots { AreFull (slots_filled closed.old.slots) (slots_len closed.old.slots) (ring_count roles * capacity) }
    requires room { vec_len loose.old + ring_count roles * capacity ≤ vec_capacity loose.old }
    requires none { loose.old.items ≡ [] }
    requires last { IsLastView last.now.view rows.now.items roles }
    requires holds { AllHold (slots_items closed.old.slots) roles capacity last.now.view }
    ensures loose { loose.new.items ≡ loose_in last.now.view roles (ring_count roles) }
    ensures empty { AreEmpty (slots_filled closed.new.slots) (slots_len closed.new.slots) (ring_count roles * capacity) }
{
    for ring in 0..roles * (roles - 1) {
        let (sender, receiver) = ends_of(roles, ring);
        let counts = rows.counts(receiver, sender);
        empty_ring(
            closed,
            ring * capacity as usize,
            capacity,
            sender,
            receiver,
            counts.got,
            loose,
        );
    }
}
