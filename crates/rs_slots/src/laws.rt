//! Laws of the layout. The functions do nothing: what is proved is their contracts.
ghost use Rattle.std.specs.Prelude.{◌≡◌, ◌≢◌, ℕ, ◌+◌, ◌*◌, ◌<◌};
ghost use Rattle.rs_slots.specs.Places.{ring_count, ring_of, head_word, tail_word, slot_of, IsPair};

/// The number of a ring tells its sender and its receiver, and is less than the number of rings.
pub fn rings_have_their_own_numbers()
    ensures one { (roles p q x y : ℕ) → IsPair roles p q → IsPair roles x y → ring_of roles p q ≡ ring_of roles x y → (p ≡ x) × (q ≡ y) }
    ensures below { (roles p q : ℕ) → IsPair roles p q → ring_of roles p q < ring_count roles }
{}

/// Different rings share no word, and the two words of a ring are different words.
pub fn rings_share_no_word()
    ensures heads { (i j : ℕ) → head_word i ≡ head_word j → i ≡ j }
    ensures tails { (i j : ℕ) → tail_word i ≡ tail_word j → i ≡ j }
    ensures two { (i j : ℕ) → head_word i ≢ tail_word j }
{}

/// Different rings share no slot. Counts that are less than the capacity apart have different slots, and counts that are
/// the capacity apart the same one.
pub fn rings_share_no_slot()
    ensures rings { (capacity i j k m : ℕ) → 0 < capacity → slot_of capacity i k ≡ slot_of capacity j m → i ≡ j }
    ensures counts { (capacity i k m : ℕ) → 0 < capacity → k < m → m < k + capacity → slot_of capacity i k ≢ slot_of capacity i m }
    ensures below { (roles capacity i k : ℕ) → 0 < capacity → i < ring_count roles → slot_of capacity i k < ring_count roles * capacity }
    ensures again { (capacity i k : ℕ) → slot_of capacity i (k + capacity) ≡ slot_of capacity i k }
{}
