//! Laws of what tables show and of what passes know. The functions do nothing: what is proved is their contracts.
ghost use Rattle.std.specs.Prelude.{◌≡◌, ◌≢◌, ℕ, ◌<◌, ◌≤◌, List, [], ◌∷◌, ◌++◌, true, false, length, slice_index, slice_set, Option};
ghost use mathlib.Core.Option.{some};
ghost use lib.ListN.{get_elem?};
ghost use Rattle.atomic_table.specs.Table.{State, Me, Step};
ghost use Rattle.rs_core.specs.Configurations.{Configuration};
ghost use Rattle.rs_core.specs.Histories.{Action, History, IsLegal};
ghost use Rattle.rs_model.specs.Data.{Machine_data};
ghost use Rattle.rs_slots.specs.Places.{IsPair};
ghost use Rattle.rs_slots.specs.declared.parcels.Parcel.{Parcel};
ghost use Rattle.rs_core.specs.Choices.{AreWellFormed};
ghost use Rattle.rs_rings.specs.Acts.{MayPut, MayTake, SendsParcel, ReceivesParcel, Happened, parcels_sent, parcels_got};
ghost use Rattle.rs_rings.specs.Asked.{IsCallStep};
ghost use Rattle.rs_rings.specs.Looks.{IsKnown, GoesOn};
ghost use Rattle.rs_rings.specs.Passes.{HasSeenRoom, PutTells, RoomTells};
ghost use Rattle.rs_rings.specs.Places.{head_word_of, tail_of};
ghost use Rattle.rs_rings.specs.Rule.{RingsShow, machines_in_key};
ghost use Rattle.rs_rings.specs.Shown.{Shown, IsSameAmong, LoadsHeadOf, StoresTailOf, LoadsTailOf, StoresHeadOf, SplitsOff, JoinsIn};
ghost use Rattle.rs_rings.specs.Steps.{Call, LoadsHead, LooksAtHead, StoresTail, LoadsTail, StoresHead};
ghost use Rattle.rs_rings.specs.Views.{SpeaksFor, speaks, part_of, first_part, starting, view_without_role, alone, joint_view, spent_view};
ghost use Rattle.rs_rings.specs.Views.{part_with_room, gaining, sending, part_with_parcel, taking, getting};
ghost use Rattle.rs_rings.specs.declared.answers.Put.TheVariants.{Full};
ghost use Rattle.rs_rings.specs.declared.views.Key.{Key};
ghost use Rattle.rs_rings.specs.declared.views.Part.{Part};
ghost use Rattle.rs_rings.specs.declared.views.View.{View};

/// Between any two steps the words, slots and views of a table show a configuration that can be reached, and no other.
pub fn a_table_shows_one_configuration()
    ensures some { (key : Key) (s : State (Option Parcel) View) → RingsShow key s → (c : Configuration) × Shown key s c }
    ensures one { (key : Key) (s : State (Option Parcel) View) (c d : Configuration) → Shown key s c → Shown key s d → IsSameAmong key.roles c d }
{}

/// A store of a tail word is one send, and a store of a head word one receive. No other step changes what the table shows.
pub fn stores_are_events()
    ensures tail { (key : Key) (s t : State (Option Parcel) View) (c : Configuration) (p q : ℕ) (x : Parcel) → RingsShow key s → RingsShow key t → Shown key s c → IsPair key.roles p q
        → StoresTailOf key s t p q x → (d : Configuration) × Shown key t d × SendsParcel (machines_in_key key) c p q x d }
    ensures head { (key : Key) (s t : State (Option Parcel) View) (c : Configuration) (p q : ℕ) (x : Parcel) → RingsShow key s → RingsShow key t → Shown key s c → IsPair key.roles p q
        → StoresHeadOf key s t p q x → (d : Configuration) × Shown key t d × ReceivesParcel (machines_in_key key) c q p x d }
    ensures loaded_head { (key : Key) (s t : State (Option Parcel) View) (c : Configuration) (p q : ℕ) → RingsShow key s → RingsShow key t → Shown key s c → IsPair key.roles p q
        → LoadsHeadOf key s t p q → Shown key t c }
    ensures loaded_tail { (key : Key) (s t : State (Option Parcel) View) (c : Configuration) (p q : ℕ) → RingsShow key s → RingsShow key t → Shown key s c → IsPair key.roles p q
        → LoadsTailOf key s t p q → Shown key t c }
    ensures split { (key : Key) (s t : State (Option Parcel) View) (c : Configuration) (r : ℕ) → RingsShow key s → RingsShow key t → Shown key s c → SplitsOff s t r → Shown key t c }
    ensures joined { (key : Key) (s t : State (Option Parcel) View) (c : Configuration) → RingsShow key s → RingsShow key t → Shown key s c → JoinsIn s t → Shown key t c }
{}

/// Each step that a seat may make is of one of the six kinds, by what the step tells: loads and stores of a call, and the two
/// that move roles between seats.
pub fn steps_are_of_six_kinds()
    ensures head_loaded { (key : Key) (s t : State (Option Parcel) View) (p q : ℕ) (call : Call) (m n : Me (Option Parcel) View) (step : Step (Option Parcel))
        → IsCallStep key s t p p q (head_word_of key.roles p q) (slice_index s.words (head_word_of key.roles p q)) call m n
        → LoadsHead call step m (slice_index s.words (head_word_of key.roles p q)) n → LoadsHeadOf key s t p q }
    ensures head_looked_at { (key : Key) (s t : State (Option Parcel) View) (p q : ℕ) (call : Call) (m n : Me (Option Parcel) View) (step : Step (Option Parcel))
        → IsCallStep key s t p p q (head_word_of key.roles p q) (slice_index s.words (head_word_of key.roles p q)) call m n
        → LooksAtHead call step m (slice_index s.words (head_word_of key.roles p q)) n → LoadsHeadOf key s t p q }
    ensures tail_stored { (key : Key) (s t : State (Option Parcel) View) (p q : ℕ) (call : Call) (m n : Me (Option Parcel) View) (step : Step (Option Parcel)) (new : ℕ)
        → RingsShow key s → RingsShow key t → IsCallStep key s t p p q (tail_of key.roles p q) new call m n → StoresTail call step m new n → (x : Parcel) × StoresTailOf key s t p q x }
    ensures tail_loaded { (key : Key) (s t : State (Option Parcel) View) (p q : ℕ) (call : Call) (m n : Me (Option Parcel) View) (step : Step (Option Parcel))
        → IsCallStep key s t q p q (tail_of key.roles p q) (slice_index s.words (tail_of key.roles p q)) call m n
        → LoadsTail call step m (slice_index s.words (tail_of key.roles p q)) n → LoadsTailOf key s t p q }
    ensures head_stored { (key : Key) (s t : State (Option Parcel) View) (p q : ℕ) (call : Call) (m n : Me (Option Parcel) View) (step : Step (Option Parcel)) (new : ℕ)
        → RingsShow key s → RingsShow key t → IsCallStep key s t q p q (head_word_of key.roles p q) new call m n → StoresHead call step m new n → (x : Parcel) × StoresHeadOf key s t p q x }
    ensures split { (s : State (Option Parcel) View) (seat : ℕ) (v : View) (r : ℕ) → get_elem? s.views seat ≡ some v → speaks r v.parts ≡ true
        → SplitsOff s record { words = s.words; homes = s.homes; views = slice_set s.views seat (view_without_role r v) ++ alone r v ∷ [] } r }
    ensures joined { (s : State (Option Parcel) View) (seat other : ℕ) (v w : View) → get_elem? s.views seat ≡ some v → get_elem? s.views other ≡ some w → other ≢ seat
        → JoinsIn s record { words = s.words; homes = s.homes; views = slice_set (slice_set s.views seat (joint_view v w)) other spent_view } }
{}

/// An act that happened is one by which the session goes on: legal histories have it behind the role's own.
pub fn acts_that_happened_are_events()
    ensures { (machines : List Machine_data) (p : ℕ) (h : History) (a : Action) → Happened machines p h a
        → (histories : ℕ → History) × (after : Configuration) × IsLegal machines histories after × (histories p ≡ h ++ a ∷ []) }
{}

/// The number that a look reads is of its own call: where what is known of a role has one load more, from one moment of the
/// table to a later one, the number lies between what the peer had done at the first moment and what it has done at the later
/// one. So no look can go by an old number.
pub fn numbers_are_read_in_their_call()
    ensures tail { (key : Key) (s t : State (Option Parcel) View) (p q : ℕ) (a c b d : Part) (n : ℕ) → RingsShow key s → RingsShow key t → IsPair key.roles p q
        → IsKnown s p a → IsKnown t p c → GoesOn a c → IsKnown s q b → IsKnown t q d → d.tails ≡ record { peer = p; found = n } ∷ b.tails
        → (length (parcels_sent q a.history) ≤ n) × (n ≤ length (parcels_sent q c.history)) }
    ensures head { (key : Key) (s t : State (Option Parcel) View) (p q : ℕ) (a c b d : Part) (n : ℕ) → RingsShow key s → RingsShow key t → IsPair key.roles p q
        → IsKnown s q b → IsKnown t q d → GoesOn b d → IsKnown s p a → IsKnown t p c → c.heads ≡ record { peer = q; found = n } ∷ a.heads
        → (length (parcels_got p b.history) ≤ n) × (n ≤ length (parcels_got p d.history)) }
{}

/// What is known of a role goes on with each act and each look.
pub fn roles_go_on()
    ensures sent { (a : Part) (q : ℕ) (x : Parcel) (next loads n : ℕ) → GoesOn a (sending q x next loads (gaining q n a)) }
    ensures got { (b : Part) (p : ℕ) (x : Parcel) (next loads n : ℕ) → GoesOn b (getting p x next loads (taking p x n b)) }
    ensures full { (a : Part) (q n : ℕ) → GoesOn a (part_with_room q n a) }
    ensures empty { (b : Part) (p n : ℕ) → GoesOn b (part_with_parcel p n b) }
    ensures on { (a b c : Part) → GoesOn a b → GoesOn b c → GoesOn a c }
{}

/// Room that was seen stays: after a look that found room, the sender's next put into the ring isn't refused.
pub fn seen_room_stays()
    ensures seen { (machines : List Machine_data) (capacity p q : ℕ) (v w : View) → RoomTells machines capacity p q v w true → HasSeenRoom capacity q (part_of w p) }
    ensures put { (machines : List Machine_data) (capacity p q : ℕ) (x : Parcel) (v w : View) (sent taken : ℕ) (back : Parcel) → HasSeenRoom capacity q (part_of v p)
        → PutTells machines capacity p q x v w (Full sent taken back) → ⊥ }
{}

/// The first pass speaks for all roles. Each stands in its machine's start state and has done nothing.
pub fn first_passes()
    ensures speaks { (machines : List Machine_data) (r : ℕ) → r < length machines → SpeaksFor (starting machines) r }
    ensures part { (machines : List Machine_data) (r : ℕ) → r < length machines → part_of (starting machines) r ≡ first_part machines r }
{}

/// A pass that gives up a role no longer speaks for it, and all else is as it was. The new pass speaks for that role
/// alone, and knows what the old one knew of it.
pub fn split_passes()
    ensures gone { (v : View) (r : ℕ) → speaks r (view_without_role r v).parts ≡ false }
    ensures others { (v : View) (r y : ℕ) → y ≢ r → (speaks y (view_without_role r v).parts ≡ speaks y v.parts) × (part_of (view_without_role r v) y ≡ part_of v y) }
    ensures alone { (v : View) (r y : ℕ) → SpeaksFor v r → SpeaksFor (alone r v) y → y ≡ r }
    ensures new { (v : View) (r : ℕ) → SpeaksFor v r → SpeaksFor (alone r v) r × (part_of (alone r v) r ≡ part_of v r) }
{}

/// A pass that takes in another speaks for the roles of both, and knows what the two knew.
pub fn joined_passes()
    ensures own { (v w : View) (r : ℕ) → SpeaksFor v r → SpeaksFor (joint_view v w) r × (part_of (joint_view v w) r ≡ part_of v r) }
    ensures other { (v w : View) (r : ℕ) → speaks r v.parts ≡ false → (speaks r (joint_view v w).parts ≡ speaks r w.parts) × (part_of (joint_view v w) r ≡ part_of w r) }
{}

/// For well-formed machines the parcel that is put or taken tells the state behind it.
pub fn an_act_leads_to_one_state()
    ensures put { (machines : List Machine_data) (p q s : ℕ) (x : Parcel) (n m : ℕ) → AreWellFormed machines → MayPut machines p q s x n → MayPut machines p q s x m → n ≡ m }
    ensures take { (machines : List Machine_data) (q p s : ℕ) (x : Parcel) (n m : ℕ) → AreWellFormed machines → MayTake machines q p s x n → MayTake machines q p s x m → n ≡ m }
{}
