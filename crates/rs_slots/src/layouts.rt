//! Which words and slots of a table are whose: each ring has two words, and slots behind those of the rings before it.
ghost use Rattle.std.specs.Prelude.{◌≡◌, ◌*◌, ◌<◌, ◌≤◌};
ghost use Rattle.rs_model.specs.Limits.{IsCapacity};
ghost use Rattle.rs_model.specs.declared.limits.TheConstants.{MOST_CAPACITY, MOST_ROLES};
ghost use Rattle.rs_slots.specs.Places.{IsPair, ring_count, ring_of, head_word, tail_word, slot_of};

use rs_model::Role;

/// How the words and slots of a table are shared out among rings. For each ordered pair of different roles there is one
/// ring, with two words and `capacity` slots of its own.
#[derive(Clone, Copy)]
pub struct Layout {
    roles: u8,
    capacity: u16,
    pub ghost some: { 2 ≤ roles },
    pub ghost bounded: { roles ≤ MOST_ROLES },
    pub ghost roomy: { 1 ≤ capacity },
    pub ghost small: { capacity ≤ MOST_CAPACITY },
}

impl Layout {
    /// The layout for so many roles, with rings of so many slots.
    pub fn new(roles: u8, capacity: u16) -> Layout
        requires roles { (2 ≤ roles) × (roles ≤ MOST_ROLES) }
        requires capacity { IsCapacity capacity }
        ensures { (result.roles ≡ roles) × (result.capacity ≡ capacity) }
    {
        Layout { roles, capacity }
    }

    /// The number of the ring from `sender` to `receiver`, from 0.
    pub fn ring(&self, sender: Role, receiver: Role) -> usize
        requires pair { IsPair self.now.roles sender.0 receiver.0 }
        ensures value { result ≡ ring_of self.now.roles sender.0 receiver.0 }
        ensures below { result < ring_count self.now.roles }
    {
        let column = if receiver.0 < sender.0 {
            receiver.0 as usize
        } else {
            receiver.0 as usize - 1
        };
        sender.0 as usize * (self.roles as usize - 1) + column
    }

    /// The word that tells how many parcels the ring's receiver has taken.
    pub fn head_word(&self, ring: usize) -> usize
        requires present { ring < ring_count self.now.roles }
        ensures value { result ≡ head_word ring }
        ensures below { result < 2 * ring_count self.now.roles }
    {
        2 * ring
    }

    /// The word that tells how many parcels the ring's sender has put.
    pub fn tail_word(&self, ring: usize) -> usize
        requires present { ring < ring_count self.now.roles }
        ensures value { result ≡ tail_word ring }
        ensures below { result < 2 * ring_count self.now.roles }
    {
        2 * ring + 1
    }

    /// The slot of the ring's parcel with the number `count`, from 0.
    pub fn slot(&self, ring: usize, count: u64) -> usize
        requires present { ring < ring_count self.now.roles }
        ensures value { result ≡ slot_of self.now.capacity ring count }
        ensures below { result < ring_count self.now.roles * self.now.capacity }
    {
        ring * self.capacity as usize + (count % self.capacity as u64) as usize
    }

    /// How many words the rings have together.
    pub fn words(&self) -> usize
        ensures { result ≡ 2 * ring_count self.now.roles }
    {
        2 * (self.roles as usize * (self.roles as usize - 1))
    }

    /// How many slots the rings have together.
    pub fn slots(&self) -> usize
        ensures { result ≡ ring_count self.now.roles * self.now.capacity }
    {
        self.roles as usize * (self.roles as usize - 1) * self.capacity as usize
    }
}
